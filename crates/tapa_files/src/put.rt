// Writes all bytes to a sink in order, by as many calls as it needs.
ghost use Rattle.std.specs.Prelude.{◌≡◌, ◌≤◌, OnOk, OnErr};
ghost use Rattle.std.specs.Io.KnownBytes.{Appends};
ghost use Rattle.tapa_files.specs.Outside.{AppendsPart, Rose};

use crate::{Sink, WriteFault};

/// Puts all bytes, once and in order, with the number of calls of `write` that the sink needs. After `WriteFault` the sink
/// has the bytes that it had before and a prefix of these.
pub fn put_all<O: Sink>(sink: &mut O, bytes: &[u8]) -> Result<(), WriteFault>
    ensures whole { OnOk result (Appends (O.contents sink.old) (O.contents sink.new) bytes.now) }
    ensures part { OnErr result (AppendsPart (O.contents sink.old) (O.contents sink.new) bytes.now) }
    ensures calm { OnOk result (O.faults sink.new ≡ O.faults sink.old) }
    ensures later { O.faults sink.old ≤ O.faults sink.new }
    ensures fault { OnErr result (Rose (O.faults sink.old) (O.faults sink.new)) }
{
    let mut rest = bytes;
    while !rest.is_empty() {
        match sink.write(rest) {
            Ok(count) if count > 0 => rest = &rest[count..],
            _ => return Err(WriteFault),
        }
    }
    Ok(())
}
