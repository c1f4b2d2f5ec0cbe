// What of a machine and its task the module is made of.

ghost use Rattle.std.specs.Prelude.{◌≡◌, ◌+◌, ◌<◌, ◌≤◌, length, slice_index, slice_index_or, IfOk};
ghost use Rattle.tapa_base.specs.declared.kind.Kind.TheVariants.{U64};
ghost use Rattle.tapa_base.specs.Kinds.{bits_of};
ghost use Rattle.task_fsm.specs.Machine.{form_of};
ghost use Rattle.hw_lines.specs.Shape.{array_cells as array_cells_lem, array_kind as array_kind_lem, form_at, index_bits as index_bits_lem, memory_kind as memory_kind_lem};
ghost use Rattle.hw_lines.specs.Shape.{register_kind as register_kind_lem, state_bits as state_bits_lem, state_count as state_count_lem, stream_kind as stream_kind_lem};
ghost use Rattle.hw_lines.specs.Texts.{writes as writes_lem};
ghost use Rattle.hw_nets.specs.Shapes.{form};

use hw_build::bits_for;
use std::alloc::AllocError;
use tapa_base::{Kind, narrow, number_at};
use tapa_syntax::End;
use task_fsm::{Fsm, State};

/// A machine, the kinds of its task's memories and the ends of its streams.
#[derive(Clone, Copy)]
pub struct Shape<'a> {
    pub machine: &'a Fsm,
    pub memories: &'a [Kind],
    pub streams: &'a [End],
}

impl<'a> Shape<'a> {
    /// The number of states before the trap.
    #[tactic(auto, using(crate::proofs::Shapes::count_is), unfolding(crate::specs::Shapes::form))]
    pub fn state_count(&self) -> Result<u32, AllocError>
        ensures { IfOk result (λ n. n ≡ state_count_lem (form self.now)) }
    {
        narrow(self.machine.states.len().saturating_sub(1))
    }

    /// The bits of a state's number.
    pub fn state_bits(&self) -> Result<u32, AllocError>
        ensures { IfOk result (λ n. n ≡ state_bits_lem (form self.now)) }
    {
        let count = self.state_count()?;
        Ok(bits_for(count.saturating_sub(1)))
    }

    /// A state before the trap, by its number.
    #[tactic(auto, using(crate::proofs::Shapes::form_is, crate::proofs::Shapes::count_is), unfolding(crate::specs::Shapes::form))]
    pub fn state(&self, k: u32) -> &State
        requires { k < state_count_lem (form self.now) }
        ensures { form_of result.now ≡ form_at (form self.now) k }
    {
        &self.machine.states[k as usize]
    }

    /// How many scalar parameters there are.
    #[tactic(auto, unfolding(crate::specs::Shapes::form))]
    pub fn scalars(&self) -> Result<u32, AllocError>
        ensures { IfOk result (λ n. n ≡ length (form self.now).scalars) }
    {
        narrow(self.machine.scalars.len())
    }

    /// How many registers the machine has.
    #[tactic(auto, unfolding(crate::specs::Shapes::form))]
    pub fn registers(&self) -> Result<u32, AllocError>
        ensures { IfOk result (λ n. n ≡ length (form self.now).registers) }
    {
        narrow(self.machine.regs.len())
    }

    /// How many arrays.
    #[tactic(auto, unfolding(crate::specs::Shapes::form))]
    pub fn arrays(&self) -> Result<u32, AllocError>
        ensures { IfOk result (λ n. n ≡ length (form self.now).arrays) }
    {
        narrow(self.machine.arrays.len())
    }

    /// How many memories the task has.
    #[tactic(auto, unfolding(crate::specs::Shapes::form))]
    pub fn memories(&self) -> Result<u32, AllocError>
        ensures { IfOk result (λ n. n ≡ length (form self.now).memories) }
    {
        narrow(self.memories.len())
    }

    /// How many streams.
    #[tactic(auto, unfolding(crate::specs::Shapes::form))]
    pub fn streams(&self) -> Result<u32, AllocError>
        ensures { IfOk result (λ n. n ≡ length (form self.now).streams) }
    {
        narrow(self.streams.len())
    }

    /// The register of a scalar parameter.
    #[tactic(auto, unfolding(crate::specs::Shapes::form))]
    pub fn scalar(&self, i: u32) -> u32
        ensures { result ≡ slice_index (form self.now).scalars i }
    {
        number_at(&self.machine.scalars, i)
    }

    /// The kind of a register, and `U64` past the last one.
    #[tactic(auto, unfolding(crate::specs::Shapes::form))]
    pub fn register_kind(&self, r: u32) -> Kind
        ensures { result ≡ register_kind_lem (form self.now) r }
    {
        kind_at(&self.machine.regs, r)
    }

    /// The kind of a memory's cells.
    #[tactic(auto, unfolding(crate::specs::Shapes::form))]
    pub fn memory_kind(&self, m: u32) -> Kind
        ensures { result ≡ memory_kind_lem (form self.now) m }
    {
        kind_at(self.memories, m)
    }

    /// The kind of a stream's data.
    #[tactic(auto, unfolding(crate::specs::Shapes::form))]
    pub fn stream_kind(&self, s: u32) -> Kind
        ensures { result ≡ stream_kind_lem (form self.now) s }
    {
        match self.streams.get(s as usize) {
            Some(end) => end.kind,
            None => Kind::U64,
        }
    }

    /// Whether the task writes a stream.
    #[tactic(auto, unfolding(crate::specs::Shapes::form))]
    pub fn writes(&self, s: u32) -> bool
        ensures { result ≡ writes_lem (form self.now) s }
    {
        match self.streams.get(s as usize) {
            Some(end) => end.writes,
            None => false,
        }
    }

    /// The kind of an array's cells.
    #[tactic(auto, unfolding(crate::specs::Shapes::form))]
    pub fn array_kind(&self, a: u32) -> Kind
        ensures { result ≡ array_kind_lem (form self.now) a }
    {
        match self.machine.arrays.get(a as usize) {
            Some(array) => array.kind,
            None => Kind::U64,
        }
    }

    /// How many cells an array has.
    #[tactic(auto, unfolding(crate::specs::Shapes::form))]
    pub fn array_cells(&self, a: u32) -> u32
        ensures { result ≡ array_cells_lem (form self.now) a }
    {
        match self.machine.arrays.get(a as usize) {
            Some(array) => array.cells,
            None => 1,
        }
    }

    /// The bits of an index of an array.
    pub fn index_bits(&self, a: u32) -> u32
        ensures value { result ≡ index_bits_lem (form self.now) a }
        ensures most { result ≤ 32 }
    {
        bits_for(self.array_cells(a).saturating_sub(1))
    }

    /// The bits of a token: the highest one is set in an end of a transaction.
    pub fn token_bits(&self, s: u32) -> u32
        ensures { result ≡ bits_of (stream_kind_lem (form self.now) s) + 1 }
    {
        self.stream_kind(s).token_bits()
    }
}

fn kind_at(kinds: &[Kind], position: u32) -> Kind
    ensures { result ≡ slice_index_or kinds.now position U64 }
{
    match kinds.get(position as usize) {
        Some(kind) => *kind,
        None => Kind::U64,
    }
}
