// An instance that is out of its network.
use net_core::{Body, Input, Pause, Ports};
use std::marker::Model;
use std::snapshot::Snapshot;
use tapa_syntax::Program;

/// An instance's body with its ports, and a limit for each port: at one that writes, how many tokens its stream may have had
/// written in all; at one that reads, how many were written when the instance was handed out.
#[derive(Drop)]
pub struct Process<B: Body> {
    pub body: B,
    pub ports: Ports,
    pub limits: Vec<usize>,
    /// How many ticks its last resume made; before the first one, the greatest number. No contract depends on it.
    pub last: u64,
}

/// An instance that is out of its case: it may make `fuel` ticks, whatever the others do meanwhile.
#[derive(Drop)]
pub struct Batch<B: Body> {
    pub program: Snapshot<Program>,
    pub input: Snapshot<Input>,
    pub at: Snapshot<Vec<u64>>,
    pub budget: u64,
    pub instance: usize,
    pub process: Process<B>,
    pub from: u64,
    pub fuel: u64,
    pub made: u64,
    pub pause: Option<Pause>,
    /// Whether its ports have room for all that its streams may get.
    pub ready: bool,
}

impl<B: Body> Model for Batch<B> {
    ghost use Rattle.net_case.specs.declared.lot.Lot.{Lot};
    ghost use Rattle.net_case.specs.Batch.{IsBatchAt};
    ghost use Rattle.std.specs.Coded.{codes};
    ghost use Rattle.tapa_syntax.specs.contracts.program.Stmt as stmt;
    ghost use Rattle.tapa_syntax.specs.contracts.program.Expr as expr;

    ghost Value = { Lot };

    ghost coded = { Prim.hlevel (codes, stmt.the_row.coded, expr.the_row.coded) };

    ghost view = { λ b. record {
      program = b.program.value;
      input = b.input.value;
      budget = b.budget;
      instance = b.instance;
      at = b.at.value.items;
      from = b.from;
      fuel = b.fuel;
      made = b.made;
      pause = b.pause;
      ready = b.ready;
    } };

    ghost invariant = { λ b. IsBatchAt B.stands b.program.value b.input.value b.budget b.at.value.items b.instance b.from b.fuel b.made b.pause b.ready
        b.process.body b.process.ports b.process.limits.items };
}
