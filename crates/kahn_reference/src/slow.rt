//! The trace of an instance, computed as it is defined.

ghost use Rattle.std.specs.Prelude.{◌≡◌, ◌≢◌, length, replicate, IfOk, IfErr, IsErrOf};
ghost use Rattle.tapa_base.specs.declared.kind.Kind.{Kind};
ghost use Rattle.kahn_model.specs.declared.tick.StreamOperation.{StreamOperation};
ghost use Rattle.kahn_model.specs.declared.tick.StreamOperation.TheVariants.{Read as ByRead};
ghost use Rattle.kahn_model.specs.Behavior.{Await, ticks, trace_end};
ghost use Rattle.kahn_reference.specs.declared.slow.Fault.TheVariants.{NotOfItsKind};
ghost use Rattle.kahn_reference.specs.Kept.{StandsFit, IsValueOf, IsPairOf, FlowFits, TurnFits};
ghost use Rattle.kahn_reference.specs.Slow.{point, numbers, state_of, GivesValue, GivesPair, GivesFlow, GivesTurn, turn_of, loop_of, turn_left, whole};
ghost use Rattle.kahn_model.specs.Trace.{expr, stmt, statements, job_of, at_streams};
ghost use Rattle.tapa_syntax.specs.LeafKinds.{Kinds, kinds_of};
ghost use Rattle.tapa_syntax.specs.Typed.{HasKind, IsTyped, IsTypedCode};

use crate::cells::{apply_values, both, cell_of, chosen, convert_value, either, flipped, negated};
use crate::simple_statements::{
    run_discard, run_open, run_read_cell, run_read_store, run_read_var, run_set, run_set_cell,
    run_set_cell_by, run_store, run_store_by, run_write,
};
use crate::ticks::{ask_at, clear, load_cell, note};
use kahn_model::tick::{Action, StreamOperation, Tick, TraceEnd};
use std::alloc::{AllocError, Global};
use tapa_base::{Token, number_at, value_at};
use tapa_syntax::{Expr, Leaf, Stmt};

/// The state of an instance: its variables, its arrays, and the cells of its memories.
#[derive(Drop)]
pub struct Variables {
    pub vars: Vec<u64>,
    pub arrays: Vec<Vec<u64>>,
    pub cells: Vec<Vec<u64>>,
}

/// What a run has so far: the state of the instance, how many tokens it has taken from each list, and its ticks.
#[derive(Drop)]
pub struct Run {
    pub state: Variables,
    pub heads: Vec<usize>,
    pub ticks: Vec<Tick>,
}

/// An expression's value, or how the run ends in it.
#[derive(Clone, Copy, PartialEq, Eq, Debug)]
pub enum Value {
    Given(u64),
    Stopped(TraceEnd),
}

/// Why there is no trace.
#[derive(Clone, Copy, PartialEq, Eq, Debug)]
pub enum Fault {
    /// A value is none of its kind, so an operator has no meaning there.
    NotOfItsKind,
    OutOfMemory,
}

impl From<AllocError> for Fault {
    ghost use Rattle.std.specs.Prelude.{◌≡◌};
    ghost use Rattle.kahn_reference.specs.declared.slow.Fault.TheVariants.{OutOfMemory};

    ghost from_gives = { λ _ fault. fault ≡ OutOfMemory };

    fn from(_error: AllocError) -> Fault {
        Fault::OutOfMemory
    }
}

// The value of an expression.
pub(crate) fn run_expr(
    lists: &[Vec<Token>],
    streams: &[u32],
    run: &mut Run,
    e: &Expr,
) -> Result<Value, Fault>
    requires { length run.old.heads.items ≡ length lists.now }
    ensures heads { IfOk result (λ v. length run.new.heads.items ≡ length lists.now) }
    ensures state { IfOk result (λ v. run.new.state ≡ run.old.state) }
    ensures value { IfOk result (λ v. GivesValue (numbers streams.now) v (point lists.now run.old) (λ go. expr e.now (state_of run.old.state) go) (point lists.now run.new)) }
    ensures fits { IfOk result (λ v. (K : Kinds) (k : Kind) → HasKind K e.now k → StandsFit K streams.now lists.now (state_of run.old.state) → IsValueOf k v) }
    ensures cause { IfErr result (λ fault. (K : Kinds) (k : Kind) → HasKind K e.now k → StandsFit K streams.now lists.now (state_of run.old.state) → fault ≢ NotOfItsKind) }
{
    match e {
        Expr::Lit(_, n) => Ok(Value::Given(*n)),
        Expr::Var(x) => Ok(Value::Given(value_at(&run.state.vars, *x))),
        Expr::Cell(a, index) => match run_expr(lists, streams, run, index)? {
            Value::Stopped(m) => Ok(Value::Stopped(m)),
            Value::Given(i) => Ok(Value::Given(cell_of(&run.state.arrays, *a, i))),
        },
        Expr::Read(p) => Ok(ask_at(lists, streams, run, *p, StreamOperation::Read)?),
        Expr::Peek(p) => Ok(ask_at(lists, streams, run, *p, StreamOperation::Peek)?),
        Expr::Eot(p) => Ok(ask_at(lists, streams, run, *p, StreamOperation::TestEot)?),
        Expr::Load(m, index) => match run_expr(lists, streams, run, index)? {
            Value::Stopped(trace_end) => Ok(Value::Stopped(trace_end)),
            Value::Given(i) => Ok(Value::Given(load_cell(run, *m, i)?)),
        },
        Expr::Conv { from, to, value } => match run_expr(lists, streams, run, value)? {
            Value::Stopped(m) => Ok(Value::Stopped(m)),
            Value::Given(v) => Ok(Value::Given(convert_value(*from, *to, v)?)),
        },
        Expr::Apply {
            op,
            kind,
            left,
            right,
        } => match run_expr(lists, streams, run, left)? {
            Value::Stopped(m) => Ok(Value::Stopped(m)),
            Value::Given(a) => match run_expr(lists, streams, run, right)? {
                Value::Stopped(m) => Ok(Value::Stopped(m)),
                Value::Given(b) => Ok(Value::Given(apply_values(*op, *kind, a, b)?)),
            },
        },
        Expr::Flip(kind, value) => match run_expr(lists, streams, run, value)? {
            Value::Stopped(m) => Ok(Value::Stopped(m)),
            Value::Given(v) => Ok(Value::Given(flipped(*kind, v))),
        },
        Expr::Not(value) => match run_expr(lists, streams, run, value)? {
            Value::Stopped(m) => Ok(Value::Stopped(m)),
            Value::Given(v) => Ok(Value::Given(negated(v))),
        },
        Expr::And(left, right) => match run_expr(lists, streams, run, left)? {
            Value::Stopped(m) => Ok(Value::Stopped(m)),
            Value::Given(a) => match run_expr(lists, streams, run, right)? {
                Value::Stopped(m) => Ok(Value::Stopped(m)),
                Value::Given(b) => Ok(Value::Given(both(a, b)?)),
            },
        },
        Expr::Or(left, right) => match run_expr(lists, streams, run, left)? {
            Value::Stopped(m) => Ok(Value::Stopped(m)),
            Value::Given(a) => match run_expr(lists, streams, run, right)? {
                Value::Stopped(m) => Ok(Value::Stopped(m)),
                Value::Given(b) => Ok(Value::Given(either(a, b))),
            },
        },
        Expr::Choose(test, left, right) => match run_expr(lists, streams, run, test)? {
            Value::Stopped(m) => Ok(Value::Stopped(m)),
            Value::Given(v) => match run_expr(lists, streams, run, left)? {
                Value::Stopped(m) => Ok(Value::Stopped(m)),
                Value::Given(a) => match run_expr(lists, streams, run, right)? {
                    Value::Stopped(m) => Ok(Value::Stopped(m)),
                    Value::Given(b) => Ok(Value::Given(chosen(v, a, b))),
                },
            },
        },
    }
}

/// What follows a statement: the next one, a break, a continue, or the end of the run.
#[derive(Clone, Copy, PartialEq, Eq, Debug)]
pub enum Flow {
    Next,
    Out,
    Again,
    Stopped(TraceEnd),
}

/// The way in which an iteration of a loop ends: to the next test, to the code after the loop, or at the end of the task.
#[derive(Clone, Copy, PartialEq, Eq, Debug)]
pub enum Turn {
    On,
    Over,
    Stopped(TraceEnd),
}

/// Two values, or how the run ends in them.
#[derive(Clone, Copy, PartialEq, Eq, Debug)]
pub enum Pair {
    Given(u64, u64),
    Stopped(TraceEnd),
}

// The values of two expressions, one after the other.
pub(crate) fn run_pair(
    lists: &[Vec<Token>],
    streams: &[u32],
    run: &mut Run,
    first: &Expr,
    second: &Expr,
) -> Result<Pair, Fault>
    requires { length run.old.heads.items ≡ length lists.now }
    ensures heads { IfOk result (λ v. length run.new.heads.items ≡ length lists.now) }
    ensures state { IfOk result (λ v. run.new.state ≡ run.old.state) }
    ensures value { IfOk result (λ v. GivesPair (numbers streams.now) v (point lists.now run.old)
        (λ go. expr first.now (state_of run.old.state) (λ a. expr second.now (state_of run.old.state) (go a))) (point lists.now run.new)) }
    ensures fits { IfOk result (λ v. (K : Kinds) (j k : Kind) → HasKind K first.now j → HasKind K second.now k → StandsFit K streams.now lists.now (state_of run.old.state) → IsPairOf j k v) }
    ensures cause { IfErr result (λ fault. (K : Kinds) (j k : Kind) → HasKind K first.now j → HasKind K second.now k → StandsFit K streams.now lists.now (state_of run.old.state)
        → fault ≢ NotOfItsKind) }
{
    match run_expr(lists, streams, run, first)? {
        Value::Stopped(m) => Ok(Pair::Stopped(m)),
        Value::Given(a) => match run_expr(lists, streams, run, second)? {
            Value::Stopped(m) => Ok(Pair::Stopped(m)),
            Value::Given(b) => Ok(Pair::Given(a, b)),
        },
    }
}

// The value of an index, and then that of the token that is read from a stream.
pub(crate) fn run_read(
    lists: &[Vec<Token>],
    streams: &[u32],
    run: &mut Run,
    index: &Expr,
    p: u32,
) -> Result<Pair, Fault>
    requires { length run.old.heads.items ≡ length lists.now }
    ensures heads { IfOk result (λ v. length run.new.heads.items ≡ length lists.now) }
    ensures state { IfOk result (λ v. run.new.state ≡ run.old.state) }
    ensures value { IfOk result (λ v. GivesPair (numbers streams.now) v (point lists.now run.old) (λ go. expr index.now (state_of run.old.state) (λ a. Await p ByRead (go a)))
        (point lists.now run.new)) }
    ensures fits { IfOk result (λ v. (K : Kinds) (j : Kind) → HasKind K index.now j → StandsFit K streams.now lists.now (state_of run.old.state) → IsPairOf j (K.streams p) v) }
    ensures cause { IfErr result (λ fault. (K : Kinds) (j : Kind) → HasKind K index.now j → StandsFit K streams.now lists.now (state_of run.old.state) → fault ≢ NotOfItsKind) }
{
    match run_expr(lists, streams, run, index)? {
        Value::Stopped(m) => Ok(Pair::Stopped(m)),
        Value::Given(a) => match ask_at(lists, streams, run, p, StreamOperation::Read)? {
            Value::Stopped(m) => Ok(Pair::Stopped(m)),
            Value::Given(b) => Ok(Pair::Given(a, b)),
        },
    }
}

// One statement.
#[cycle(statements)]
fn run_stmt(
    lists: &[Vec<Token>],
    leaf: &Leaf,
    streams: &[u32],
    run: &mut Run,
    n: u64,
    s: &Stmt,
) -> Result<Flow, Fault>
    requires { length run.old.heads.items ≡ length lists.now }
    ensures heads { IfOk result (λ f. length run.new.heads.items ≡ length lists.now) }
    ensures flow { IfOk result (λ f. GivesFlow (numbers streams.now) f (point lists.now run.old) (stmt (kinds_of leaf.now) n s.now (state_of run.old.state)) (point lists.now run.new)) }
    ensures fits { IfOk result (λ f. IsTyped (kinds_of leaf.now) s.now → StandsFit (kinds_of leaf.now) streams.now lists.now (state_of run.old.state)
        → FlowFits (kinds_of leaf.now) (state_of run.new.state) f) }
    ensures cause { IfErr result (λ fault. IsTyped (kinds_of leaf.now) s.now → StandsFit (kinds_of leaf.now) streams.now lists.now (state_of run.old.state) → fault ≢ NotOfItsKind) }
{
    match s {
        Stmt::Set(x, e) => run_set(lists, streams, run, *x, e),
        Stmt::SetCell {
            array,
            index,
            value,
        } => run_set_cell(lists, streams, run, *array, index, value),
        Stmt::SetCellBy {
            array,
            index,
            op,
            kind,
            value,
        } => run_set_cell_by(lists, leaf, streams, run, *array, index, *op, *kind, value),
        Stmt::Store {
            memory,
            index,
            value,
        } => run_store(lists, streams, run, *memory, index, value),
        Stmt::StoreBy {
            memory,
            index,
            op,
            kind,
            value,
        } => run_store_by(lists, leaf, streams, run, *memory, index, *op, *kind, value),
        Stmt::ReadVar { stream, var } => run_read_var(lists, leaf, streams, run, *stream, *var),
        Stmt::ReadCell {
            stream,
            array,
            index,
        } => run_read_cell(lists, leaf, streams, run, *stream, *array, index),
        Stmt::ReadStore {
            stream,
            memory,
            index,
        } => run_read_store(lists, leaf, streams, run, *stream, *memory, index),
        Stmt::Write(p, e) => run_write(lists, streams, run, *p, e),
        Stmt::Open(p) => run_open(lists, streams, run, *p),
        Stmt::Close(p) => {
            note(
                run,
                Tick::Did(Action::Put(number_at(streams, *p), Token::Eot)),
            )?;
            Ok(Flow::Next)
        }
        Stmt::Discard(e) => run_discard(lists, streams, run, e),
        Stmt::Clear(a) => {
            clear(run, *a)?;
            Ok(Flow::Next)
        }
        Stmt::If(e, left, right) => match run_expr(lists, streams, run, e)? {
            Value::Stopped(m) => Ok(Flow::Stopped(m)),
            Value::Given(v) => {
                note(run, Tick::Did(Action::Local))?;
                if v == 0 {
                    run_block(lists, leaf, streams, run, n, right)
                } else {
                    run_block(lists, leaf, streams, run, n, left)
                }
            }
        },
        Stmt::Loop { .. } => run_loop(lists, leaf, streams, run, n, s),
        Stmt::Break => Ok(Flow::Out),
        Stmt::Continue => Ok(Flow::Again),
    }
}

// Statements one after another.
#[cycle(statements)]
fn run_block(
    lists: &[Vec<Token>],
    leaf: &Leaf,
    streams: &[u32],
    run: &mut Run,
    n: u64,
    code: &[Stmt],
) -> Result<Flow, Fault>
    requires { length run.old.heads.items ≡ length lists.now }
    ensures heads { IfOk result (λ f. length run.new.heads.items ≡ length lists.now) }
    ensures flow { IfOk result (λ f. GivesFlow (numbers streams.now) f (point lists.now run.old) (statements (kinds_of leaf.now) n code.now (state_of run.old.state)) (point lists.now run.new)) }
    ensures fits { IfOk result (λ f. IsTypedCode (kinds_of leaf.now) code.now → StandsFit (kinds_of leaf.now) streams.now lists.now (state_of run.old.state)
        → FlowFits (kinds_of leaf.now) (state_of run.new.state) f) }
    ensures cause { IfErr result (λ fault. IsTypedCode (kinds_of leaf.now) code.now → StandsFit (kinds_of leaf.now) streams.now lists.now (state_of run.old.state) → fault ≢ NotOfItsKind) }
{
    for s in code {
        match run_stmt(lists, leaf, streams, run, n, s)? {
            Flow::Next => {}
            flow => return Ok(flow),
        }
    }
    Ok(Flow::Next)
}

// One turn of a loop.
#[cycle(statements)]
fn run_turn(
    lists: &[Vec<Token>],
    leaf: &Leaf,
    streams: &[u32],
    run: &mut Run,
    n: u64,
    s: &Stmt,
) -> Result<Turn, Fault>
    requires { length run.old.heads.items ≡ length lists.now }
    ensures heads { IfOk result (λ f. length run.new.heads.items ≡ length lists.now) }
    ensures turn { IfOk result (λ f. GivesTurn (numbers streams.now) f (point lists.now run.old) (turn_of (kinds_of leaf.now) n s.now (state_of run.old.state)) (point lists.now run.new)) }
    ensures fits { IfOk result (λ f. IsTyped (kinds_of leaf.now) s.now → StandsFit (kinds_of leaf.now) streams.now lists.now (state_of run.old.state)
        → TurnFits (kinds_of leaf.now) (state_of run.new.state) f) }
    ensures cause { IfErr result (λ fault. IsTyped (kinds_of leaf.now) s.now → StandsFit (kinds_of leaf.now) streams.now lists.now (state_of run.old.state) → fault ≢ NotOfItsKind) }
{
    match s {
        Stmt::Loop { test, body, step } => match run_expr(lists, streams, run, test)? {
            Value::Stopped(m) => Ok(Turn::Stopped(m)),
            Value::Given(v) => {
                note(run, Tick::Did(Action::Local))?;
                if v == 0 {
                    return Ok(Turn::Over);
                }
                match run_block(lists, leaf, streams, run, n, body)? {
                    Flow::Stopped(m) => Ok(Turn::Stopped(m)),
                    Flow::Out => Ok(Turn::Over),
                    Flow::Next => Ok(turn_after(run_block(lists, leaf, streams, run, n, step)?)),
                    Flow::Again => Ok(turn_after(run_block(lists, leaf, streams, run, n, step)?)),
                }
            }
        },
        _ => Ok(Turn::Stopped(TraceEnd::Turns)),
    }
}

// The turn that a loop's step leaves.
fn turn_after(flow: Flow) -> Turn
    ensures { result ≡ turn_left flow }
{
    match flow {
        Flow::Stopped(m) => Turn::Stopped(m),
        Flow::Out => Turn::Over,
        Flow::Next => Turn::On,
        Flow::Again => Turn::On,
    }
}

// A loop of at most n tests.
#[cycle(statements)]
fn run_loop(
    lists: &[Vec<Token>],
    leaf: &Leaf,
    streams: &[u32],
    run: &mut Run,
    n: u64,
    s: &Stmt,
) -> Result<Flow, Fault>
    requires { length run.old.heads.items ≡ length lists.now }
    ensures heads { IfOk result (λ f. length run.new.heads.items ≡ length lists.now) }
    ensures flow { IfOk result (λ f. GivesFlow (numbers streams.now) f (point lists.now run.old) (loop_of (kinds_of leaf.now) n n s.now (state_of run.old.state)) (point lists.now run.new)) }
    ensures fits { IfOk result (λ f. IsTyped (kinds_of leaf.now) s.now → StandsFit (kinds_of leaf.now) streams.now lists.now (state_of run.old.state)
        → FlowFits (kinds_of leaf.now) (state_of run.new.state) f) }
    ensures cause { IfErr result (λ fault. IsTyped (kinds_of leaf.now) s.now → StandsFit (kinds_of leaf.now) streams.now lists.now (state_of run.old.state) → fault ≢ NotOfItsKind) }
{
    for _turn in 0..n {
        match run_turn(lists, leaf, streams, run, n, s)? {
            Turn::On => {}
            Turn::Over => return Ok(Flow::Next),
            Turn::Stopped(m) => return Ok(Flow::Stopped(m)),
        }
    }
    Ok(Flow::Stopped(TraceEnd::Turns))
}

// A list of zeros.
fn none_taken(alloc: Global, n: usize) -> Result<Vec<usize>, AllocError>
    ensures { IfOk result (λ v. v.items ≡ replicate n 0) }
{
    Ok(vec![in alloc; 0; n]?)
}

/// The trace of an instance of a leaf: its ticks and its end on whole lists, one for each stream of the program, where
/// each run of a loop makes at most n tests. `streams` has the numbers of the streams at the leaf's positions. A leaf that is
/// typed, at a state and on lists of its kinds, gets a trace where memory suffices; `NotOfItsKind` comes to others alone.
pub fn trace(
    alloc: Global,
    leaf: &Leaf,
    streams: &[u32],
    state: Variables,
    n: u64,
    lists: &[Vec<Token>],
) -> Result<(Vec<Tick>, TraceEnd), Fault>
    ensures ticks { IfOk result (λ r. r.0.items ≡ ticks (at_streams (numbers streams.now) (job_of (kinds_of leaf.now) leaf.now.code.items (state_of state) n)) (whole lists.now)) }
    ensures trace_end { IfOk result (λ r. r.1 ≡ trace_end (at_streams (numbers streams.now) (job_of (kinds_of leaf.now) leaf.now.code.items (state_of state) n)) (whole lists.now)) }
    ensures fault { IsTypedCode (kinds_of leaf.now) leaf.now.code.items → StandsFit (kinds_of leaf.now) streams.now lists.now (state_of state) → IsErrOf result NotOfItsKind → ⊥ }
{
    let mut run = Run {
        state,
        heads: none_taken(alloc, lists.len())?,
        ticks: Vec::new(alloc),
    };
    match run_block(lists, leaf, streams, &mut run, n, &leaf.code)? {
        Flow::Stopped(m) => Ok((run.ticks, m)),
        _ => {
            note(&mut run, Tick::End)?;
            Ok((run.ticks, TraceEnd::Ended))
        }
    }
}
