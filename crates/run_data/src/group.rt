// The groups of a data file (scalars, memories, waits): their keys, and the inputs that each has members for.
ghost use Rattle.std.specs.Prelude.{◌≡◌, IfOk};
ghost use Rattle.run_data.specs.Data.{group_key, ports_of, key_in};

use std::alloc::{AllocError, Global};
use tapa_base::{Port, Shape};

/// The groups of a data file.
#[derive(Clone, Copy)]
pub(crate) enum Group {
    Scalars,
    Memories,
    Waits,
}

impl Group {
    pub(crate) fn key(self) -> &'static str
        ensures { result.now ≡ group_key self }
    {
        match self {
            Group::Scalars => "scalars",
            Group::Memories => "memories",
            Group::Waits => "waits",
        }
    }

    /// The inputs that have a member in the group.
    pub(crate) fn ports(self, shape: &Shape) -> &[Port]
        ensures { result.now ≡ ports_of self shape.now }
    {
        match self {
            Group::Scalars => shape.scalars.as_slice(),
            Group::Memories => shape.memories.as_slice(),
            Group::Waits => shape.memories.as_slice(),
        }
    }

    /// `group.name`.
    pub(crate) fn key_of(self, alloc: Global, name: &[u8]) -> Result<Vec<u8>, AllocError>
        ensures { IfOk result (λ key. key.items ≡ key_in self name.now) }
    {
        let mut key = Vec::from_slice(alloc, self.key().as_bytes())?;
        key.push(b'.')?;
        key.extend_from_slice(name)?;
        Ok(key)
    }
}
