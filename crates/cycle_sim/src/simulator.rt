// A simulator.

use crate::parts::{Parts, State};
use std::marker::Model;

/// A design in one of its cycles, with its environment.
#[derive(Drop)]
pub struct Sim {
    pub(crate) parts: Parts,
    pub(crate) state: State,
}

impl Model for Sim {
    ghost use Rattle.cycle_sim.specs.declared.parts.Parts.{Parts};
    ghost use Rattle.cycle_sim.specs.declared.parts.State.{State};
    ghost use Rattle.cycle_sim.specs.Wholes.{IsSim};

    ghost Value = { Parts × State };

    ghost view = { λ s. (s.parts, s.state) };

    ghost invariant = { λ s. IsSim s.parts s.state };
}
