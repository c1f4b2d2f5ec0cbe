// The state of a network: its program and input, its streams, and the body and the count of ticks of each instance.
use crate::body::{Body, Pause};
use crate::input::Input;
use crate::streams::Streams;
use std::marker::Model;
use std::sync::Arc;
use tapa_syntax::Program;

/// A program on an input, at a count of the ticks of its instances.
#[derive(Drop)]
pub struct Net<B: Body> {
    pub program: Arc<Program>,
    pub input: Arc<Input>,
    pub bodies: Vec<B>,
    pub streams: Streams,
    /// For each instance whether it reads a stream that it writes.
    pub fed_by_self: Vec<bool>,
    pub counts: Vec<u64>,
    pub pauses: Vec<Option<Pause>>,
}

impl<B: Body> Model for Net<B> {
    ghost use Rattle.std.specs.Arc.{arc_value};
    ghost use Rattle.net_core.specs.declared.net_state.NetState.{NetState};
    ghost use Rattle.net_core.specs.Bounded.{IsNetAt};
    ghost use Rattle.std.specs.Coded.{codes};
    ghost use Rattle.tapa_syntax.specs.contracts.program.Stmt as stmt;
    ghost use Rattle.tapa_syntax.specs.contracts.program.Expr as expr;

    ghost Value = { NetState };

    ghost coded = { Prim.hlevel (codes, stmt.the_row.coded, expr.the_row.coded) };

    ghost view = { λ n. record { program = arc_value n.program; input = arc_value n.input; counts = n.counts.items; pauses = n.pauses.items } };

    ghost invariant = { λ n. IsNetAt B.stands (arc_value n.program) (arc_value n.input) n.bodies.items n.streams n.fed_by_self.items n.counts.items n.pauses.items };
}
