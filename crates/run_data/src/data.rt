// Reads a data file: gives the scalars, the first cells of memories and the cycles in which they are ready, or the first fault.
ghost use Rattle.std.specs.Prelude.{◌≡◌, ◌≤◌, All, map, length, IfOk, IfErr};
ghost use Rattle.serde_json.specs.View.{view};
ghost use Rattle.tapa_base.specs.declared.shape.Shape.{Shape};
ghost use Rattle.tapa_base.specs.Fits.{Fits};
ghost use Rattle.run_data.specs.Data.{IsJson};
ghost use Rattle.run_data.specs.Answer.{IsDataOf, IsDataCause, bits_of_ports};

use crate::misfit::find_misfit;
use crate::misshapen::find_misshapen;
use crate::oversized::find_oversized;
use crate::values::values;
use serde_json::Value;
use std::alloc::{AllocError, AllocFailed, Global};
use tapa_base::Shape;

/// The inputs of a run: the bits of each scalar, the first cells of each memory, and for each memory in which cycles it
/// is ready, each in the order of the shape. A memory is ready in every cycle after its list's end.
#[derive(Drop)]
pub struct Data {
    pub scalars: Vec<u64>,
    pub memories: Vec<Vec<u64>>,
    pub waits: Vec<Vec<bool>>,
}

/// Why a data file is refused, with the bytes of the key: a group's name, a dot and a member's name, a key of the top
/// object alone, or `.` where the file is no object.
#[derive(Drop)]
pub enum DataFault {
    /// The bytes are no JSON (RFC 8259), nest deeper than 127, or have a number beyond those of 64-bit floats.
    J1,
    /// A scalar or a memory is missing, a key is unknown, or a value has another shape.
    J2(Vec<u8>),
    /// A number is not whole, or is not one of its bits.
    J3(Vec<u8>),
    /// A memory has more than 65,536 cells, or all of them have more than 1,048,576.
    J4(Vec<u8>),
    OutOfMemory,
}

impl From<AllocError> for DataFault {
    ghost use Rattle.std.specs.Prelude.{◌≡◌};
    ghost use Rattle.run_data.specs.declared.data.DataFault.TheVariants.{OutOfMemory};

    ghost from_gives = { λ _ fault. fault ≡ OutOfMemory };

    fn from(_: AllocError) -> Self {
        DataFault::OutOfMemory
    }
}

/// Reads a data file for the inputs of a shape, whose widths are at most 64 bits. A file without a fault gives the data;
/// else the first of its faults is reported, all of J2 before all of J3, and those before all of J4.
pub fn read_data(alloc: Global, text: &[u8], shape: &Shape) -> Result<Data, DataFault>
    requires scalars { All (λ port. port.bits ≤ 64) shape.now.scalars.items }
    requires memories { All (λ port. port.bits ≤ 64) shape.now.memories.items }
    ensures value { IfOk result (λ given. IsDataOf text.now shape.now given) }
    ensures fits { IfOk result (λ given. Fits (bits_of_ports shape.now.scalars.items) (bits_of_ports shape.now.memories.items) given.scalars.items
        (map (λ cells. cells.items) given.memories.items)) }
    ensures waits { IfOk result (λ given. length given.waits.items ≡ length shape.now.memories.items) }
    ensures cause { IfErr result (λ fault. IsDataCause text.now shape.now fault) }
{
    let file = read_json(alloc, text)?;
    if let Some(key) = find_misshapen(alloc, &file, shape)? {
        return Err(DataFault::J2(key));
    }
    if let Some(key) = find_misfit(alloc, &file, shape)? {
        return Err(DataFault::J3(key));
    }
    if let Some(key) = find_oversized(alloc, &file, shape)? {
        return Err(DataFault::J4(key));
    }
    let data = values(alloc, &file, shape)?;
    Ok(data)
}

// The value of a text.
fn read_json(alloc: Global, text: &[u8]) -> Result<Value, DataFault>
    ensures value { IfOk result (λ file. IsJson text.now (view file)) }
    ensures cause { IfErr result (λ fault. (shape : Shape) → IsDataCause text.now shape fault) }
{
    match Value::from_slice(alloc, text) {
        Ok(file) => Ok(file),
        Err(error) => {
            if error.is_memory() {
                Err(DataFault::OutOfMemory)
            } else {
                Err(DataFault::J1)
            }
        }
    }
}
