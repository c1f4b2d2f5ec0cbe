//! The statements that contain no statements, each as it is defined.

ghost use Rattle.std.specs.Prelude.{◌≡◌, ◌≢◌, ℕ, length, IfOk, IfErr};
ghost use Rattle.tapa_syntax.specs.declared.program.Stmt.TheVariants.{Set, SetCell, SetCellBy, Store as StoreCell, StoreBy, ReadVar, ReadCell, ReadStore, Write, Open as OpenIt, Discard};
ghost use Rattle.tapa_syntax.specs.LeafKinds.{Kinds, kinds_of};
ghost use Rattle.tapa_syntax.specs.Typed.{IsTyped};
ghost use Rattle.kahn_reference.specs.declared.slow.Fault.TheVariants.{NotOfItsKind};
ghost use Rattle.kahn_reference.specs.Kept.{StandsFit, FlowFits};
ghost use Rattle.kahn_reference.specs.Slow.{point, numbers, state_of, GivesFlow};
ghost use Rattle.kahn_model.specs.Trace.{stmt};

use crate::cells::{cell_of, changed, convert_value};
use crate::slow::{Fault, Flow, Pair, Run, Value, run_expr, run_pair, run_read};
use crate::ticks::{ask_at, load_cell, note, set_cell_tick, set_var_tick, store_tick};
use kahn_model::kinds::{array_kind, memory_kind, stream_kind, var_kind};
use kahn_model::tick::{Action, StreamOperation, Tick};
use tapa_base::{Kind, Op, Token, number_at};
use tapa_syntax::{Expr, Leaf};

// A variable gets the value of an expression.
pub(crate) fn run_set(
    lists: &[Vec<Token>],
    streams: &[u32],
    run: &mut Run,
    x: u32,
    e: &Expr,
) -> Result<Flow, Fault>
    requires { length run.old.heads.items ≡ length lists.now }
    ensures heads { IfOk result (λ f. length run.new.heads.items ≡ length lists.now) }
    ensures flow { IfOk result (λ f. (K : Kinds) (n : ℕ) → GivesFlow (numbers streams.now) f (point lists.now run.old)
        (stmt K n (Set x e.now) (state_of run.old.state)) (point lists.now run.new)) }
    ensures fits { IfOk result (λ f. (K : Kinds) → IsTyped K (Set x e.now) → StandsFit K streams.now lists.now (state_of run.old.state) → FlowFits K (state_of run.new.state) f) }
    ensures cause { IfErr result (λ fault. (K : Kinds) → IsTyped K (Set x e.now) → StandsFit K streams.now lists.now (state_of run.old.state) → fault ≢ NotOfItsKind) }
{
    match run_expr(lists, streams, run, e)? {
        Value::Stopped(m) => Ok(Flow::Stopped(m)),
        Value::Given(v) => {
            set_var_tick(run, x, v)?;
            Ok(Flow::Next)
        }
    }
}

// A cell of an array gets the value of an expression.
pub(crate) fn run_set_cell(
    lists: &[Vec<Token>],
    streams: &[u32],
    run: &mut Run,
    array: u32,
    index: &Expr,
    value: &Expr,
) -> Result<Flow, Fault>
    requires { length run.old.heads.items ≡ length lists.now }
    ensures heads { IfOk result (λ f. length run.new.heads.items ≡ length lists.now) }
    ensures flow { IfOk result (λ f. (K : Kinds) (n : ℕ) → GivesFlow (numbers streams.now) f (point lists.now run.old)
        (stmt K n (SetCell array index.now value.now) (state_of run.old.state)) (point lists.now run.new)) }
    ensures fits { IfOk result (λ f. (K : Kinds) → IsTyped K (SetCell array index.now value.now) → StandsFit K streams.now lists.now (state_of run.old.state)
        → FlowFits K (state_of run.new.state) f) }
    ensures cause { IfErr result (λ fault. (K : Kinds) → IsTyped K (SetCell array index.now value.now) → StandsFit K streams.now lists.now (state_of run.old.state) → fault ≢ NotOfItsKind) }
{
    match run_pair(lists, streams, run, value, index)? {
        Pair::Stopped(m) => Ok(Flow::Stopped(m)),
        Pair::Given(v, i) => {
            set_cell_tick(run, array, i, v)?;
            Ok(Flow::Next)
        }
    }
}

// A cell of an array is changed by an operator.
pub(crate) fn run_set_cell_by(
    lists: &[Vec<Token>],
    leaf: &Leaf,
    streams: &[u32],
    run: &mut Run,
    array: u32,
    index: &Expr,
    op: Op,
    kind: Kind,
    value: &Expr,
) -> Result<Flow, Fault>
    requires { length run.old.heads.items ≡ length lists.now }
    ensures heads { IfOk result (λ f. length run.new.heads.items ≡ length lists.now) }
    ensures flow { IfOk result (λ f. (n : ℕ) → GivesFlow (numbers streams.now) f (point lists.now run.old)
        (stmt (kinds_of leaf.now) n (SetCellBy array index.now op kind value.now) (state_of run.old.state)) (point lists.now run.new)) }
    ensures fits { IfOk result (λ f. IsTyped (kinds_of leaf.now) (SetCellBy array index.now op kind value.now)
        → StandsFit (kinds_of leaf.now) streams.now lists.now (state_of run.old.state) → FlowFits (kinds_of leaf.now) (state_of run.new.state) f) }
    ensures cause { IfErr result (λ fault. IsTyped (kinds_of leaf.now) (SetCellBy array index.now op kind value.now)
        → StandsFit (kinds_of leaf.now) streams.now lists.now (state_of run.old.state) → fault ≢ NotOfItsKind) }
{
    match run_pair(lists, streams, run, value, index)? {
        Pair::Stopped(m) => Ok(Flow::Stopped(m)),
        Pair::Given(v, i) => {
            let old = cell_of(&run.state.arrays, array, i);
            let new = changed(array_kind(leaf, array), kind, op, old, v)?;
            set_cell_tick(run, array, i, new)?;
            Ok(Flow::Next)
        }
    }
}

// A cell of a memory gets the value of an expression.
pub(crate) fn run_store(
    lists: &[Vec<Token>],
    streams: &[u32],
    run: &mut Run,
    memory: u32,
    index: &Expr,
    value: &Expr,
) -> Result<Flow, Fault>
    requires { length run.old.heads.items ≡ length lists.now }
    ensures heads { IfOk result (λ f. length run.new.heads.items ≡ length lists.now) }
    ensures flow { IfOk result (λ f. (K : Kinds) (n : ℕ) → GivesFlow (numbers streams.now) f (point lists.now run.old)
        (stmt K n (StoreCell memory index.now value.now) (state_of run.old.state)) (point lists.now run.new)) }
    ensures fits { IfOk result (λ f. (K : Kinds) → IsTyped K (StoreCell memory index.now value.now) → StandsFit K streams.now lists.now (state_of run.old.state)
        → FlowFits K (state_of run.new.state) f) }
    ensures cause { IfErr result (λ fault. (K : Kinds) → IsTyped K (StoreCell memory index.now value.now) → StandsFit K streams.now lists.now (state_of run.old.state)
        → fault ≢ NotOfItsKind) }
{
    match run_pair(lists, streams, run, value, index)? {
        Pair::Stopped(m) => Ok(Flow::Stopped(m)),
        Pair::Given(v, i) => {
            store_tick(run, memory, i, v)?;
            Ok(Flow::Next)
        }
    }
}

// A cell of a memory is changed by an operator.
pub(crate) fn run_store_by(
    lists: &[Vec<Token>],
    leaf: &Leaf,
    streams: &[u32],
    run: &mut Run,
    memory: u32,
    index: &Expr,
    op: Op,
    kind: Kind,
    value: &Expr,
) -> Result<Flow, Fault>
    requires { length run.old.heads.items ≡ length lists.now }
    ensures heads { IfOk result (λ f. length run.new.heads.items ≡ length lists.now) }
    ensures flow { IfOk result (λ f. (n : ℕ) → GivesFlow (numbers streams.now) f (point lists.now run.old)
        (stmt (kinds_of leaf.now) n (StoreBy memory index.now op kind value.now) (state_of run.old.state)) (point lists.now run.new)) }
    ensures fits { IfOk result (λ f. IsTyped (kinds_of leaf.now) (StoreBy memory index.now op kind value.now)
        → StandsFit (kinds_of leaf.now) streams.now lists.now (state_of run.old.state) → FlowFits (kinds_of leaf.now) (state_of run.new.state) f) }
    ensures cause { IfErr result (λ fault. IsTyped (kinds_of leaf.now) (StoreBy memory index.now op kind value.now)
        → StandsFit (kinds_of leaf.now) streams.now lists.now (state_of run.old.state) → fault ≢ NotOfItsKind) }
{
    match run_pair(lists, streams, run, value, index)? {
        Pair::Stopped(m) => Ok(Flow::Stopped(m)),
        Pair::Given(v, i) => {
            let old = load_cell(run, memory, i)?;
            let new = changed(memory_kind(leaf, memory), kind, op, old, v)?;
            store_tick(run, memory, i, new)?;
            Ok(Flow::Next)
        }
    }
}

// A variable gets the token that is read from a stream.
pub(crate) fn run_read_var(
    lists: &[Vec<Token>],
    leaf: &Leaf,
    streams: &[u32],
    run: &mut Run,
    stream: u32,
    var: u32,
) -> Result<Flow, Fault>
    requires { length run.old.heads.items ≡ length lists.now }
    ensures heads { IfOk result (λ f. length run.new.heads.items ≡ length lists.now) }
    ensures flow { IfOk result (λ f. (n : ℕ) → GivesFlow (numbers streams.now) f (point lists.now run.old)
        (stmt (kinds_of leaf.now) n (ReadVar stream var) (state_of run.old.state)) (point lists.now run.new)) }
    ensures fits { IfOk result (λ f. IsTyped (kinds_of leaf.now) (ReadVar stream var) → StandsFit (kinds_of leaf.now) streams.now lists.now (state_of run.old.state)
        → FlowFits (kinds_of leaf.now) (state_of run.new.state) f) }
    ensures cause { IfErr result (λ fault. IsTyped (kinds_of leaf.now) (ReadVar stream var) → StandsFit (kinds_of leaf.now) streams.now lists.now (state_of run.old.state)
        → fault ≢ NotOfItsKind) }
{
    match ask_at(lists, streams, run, stream, StreamOperation::Read)? {
        Value::Stopped(m) => Ok(Flow::Stopped(m)),
        Value::Given(v) => {
            let v = convert_value(stream_kind(leaf, stream), var_kind(leaf, var), v)?;
            set_var_tick(run, var, v)?;
            Ok(Flow::Next)
        }
    }
}

// A cell of an array gets the token that is read from a stream.
pub(crate) fn run_read_cell(
    lists: &[Vec<Token>],
    leaf: &Leaf,
    streams: &[u32],
    run: &mut Run,
    stream: u32,
    array: u32,
    index: &Expr,
) -> Result<Flow, Fault>
    requires { length run.old.heads.items ≡ length lists.now }
    ensures heads { IfOk result (λ f. length run.new.heads.items ≡ length lists.now) }
    ensures flow { IfOk result (λ f. (n : ℕ) → GivesFlow (numbers streams.now) f (point lists.now run.old)
        (stmt (kinds_of leaf.now) n (ReadCell stream array index.now) (state_of run.old.state)) (point lists.now run.new)) }
    ensures fits { IfOk result (λ f. IsTyped (kinds_of leaf.now) (ReadCell stream array index.now) → StandsFit (kinds_of leaf.now) streams.now lists.now (state_of run.old.state)
        → FlowFits (kinds_of leaf.now) (state_of run.new.state) f) }
    ensures cause { IfErr result (λ fault. IsTyped (kinds_of leaf.now) (ReadCell stream array index.now)
        → StandsFit (kinds_of leaf.now) streams.now lists.now (state_of run.old.state) → fault ≢ NotOfItsKind) }
{
    match run_read(lists, streams, run, index, stream)? {
        Pair::Stopped(m) => Ok(Flow::Stopped(m)),
        Pair::Given(i, v) => {
            let v = convert_value(stream_kind(leaf, stream), array_kind(leaf, array), v)?;
            set_cell_tick(run, array, i, v)?;
            Ok(Flow::Next)
        }
    }
}

// A cell of a memory gets the token that is read from a stream.
pub(crate) fn run_read_store(
    lists: &[Vec<Token>],
    leaf: &Leaf,
    streams: &[u32],
    run: &mut Run,
    stream: u32,
    memory: u32,
    index: &Expr,
) -> Result<Flow, Fault>
    requires { length run.old.heads.items ≡ length lists.now }
    ensures heads { IfOk result (λ f. length run.new.heads.items ≡ length lists.now) }
    ensures flow { IfOk result (λ f. (n : ℕ) → GivesFlow (numbers streams.now) f (point lists.now run.old)
        (stmt (kinds_of leaf.now) n (ReadStore stream memory index.now) (state_of run.old.state)) (point lists.now run.new)) }
    ensures fits { IfOk result (λ f. IsTyped (kinds_of leaf.now) (ReadStore stream memory index.now) → StandsFit (kinds_of leaf.now) streams.now lists.now (state_of run.old.state)
        → FlowFits (kinds_of leaf.now) (state_of run.new.state) f) }
    ensures cause { IfErr result (λ fault. IsTyped (kinds_of leaf.now) (ReadStore stream memory index.now)
        → StandsFit (kinds_of leaf.now) streams.now lists.now (state_of run.old.state) → fault ≢ NotOfItsKind) }
{
    match run_read(lists, streams, run, index, stream)? {
        Pair::Stopped(m) => Ok(Flow::Stopped(m)),
        Pair::Given(i, v) => {
            let v = convert_value(stream_kind(leaf, stream), memory_kind(leaf, memory), v)?;
            store_tick(run, memory, i, v)?;
            Ok(Flow::Next)
        }
    }
}

// The value of an expression is written to a stream.
pub(crate) fn run_write(
    lists: &[Vec<Token>],
    streams: &[u32],
    run: &mut Run,
    p: u32,
    e: &Expr,
) -> Result<Flow, Fault>
    requires { length run.old.heads.items ≡ length lists.now }
    ensures heads { IfOk result (λ f. length run.new.heads.items ≡ length lists.now) }
    ensures flow { IfOk result (λ f. (K : Kinds) (n : ℕ) → GivesFlow (numbers streams.now) f (point lists.now run.old)
        (stmt K n (Write p e.now) (state_of run.old.state)) (point lists.now run.new)) }
    ensures fits { IfOk result (λ f. (K : Kinds) → IsTyped K (Write p e.now) → StandsFit K streams.now lists.now (state_of run.old.state) → FlowFits K (state_of run.new.state) f) }
    ensures cause { IfErr result (λ fault. (K : Kinds) → IsTyped K (Write p e.now) → StandsFit K streams.now lists.now (state_of run.old.state) → fault ≢ NotOfItsKind) }
{
    match run_expr(lists, streams, run, e)? {
        Value::Stopped(m) => Ok(Flow::Stopped(m)),
        Value::Given(v) => {
            note(
                run,
                Tick::Did(Action::Put(number_at(streams, p), Token::Datum(v))),
            )?;
            Ok(Flow::Next)
        }
    }
}

// A stream's end is taken from it.
pub(crate) fn run_open(
    lists: &[Vec<Token>],
    streams: &[u32],
    run: &mut Run,
    p: u32,
) -> Result<Flow, Fault>
    requires { length run.old.heads.items ≡ length lists.now }
    ensures heads { IfOk result (λ f. length run.new.heads.items ≡ length lists.now) }
    ensures flow { IfOk result (λ f. (K : Kinds) (n : ℕ) → GivesFlow (numbers streams.now) f (point lists.now run.old) (stmt K n (OpenIt p) (state_of run.old.state)) (point lists.now run.new)) }
    ensures fits { IfOk result (λ f. (K : Kinds) → IsTyped K (OpenIt p) → StandsFit K streams.now lists.now (state_of run.old.state) → FlowFits K (state_of run.new.state) f) }
    ensures cause { IfErr result (λ fault. (K : Kinds) → IsTyped K (OpenIt p) → StandsFit K streams.now lists.now (state_of run.old.state) → fault ≢ NotOfItsKind) }
{
    match ask_at(lists, streams, run, p, StreamOperation::Open)? {
        Value::Stopped(m) => Ok(Flow::Stopped(m)),
        Value::Given(_) => Ok(Flow::Next),
    }
}

// An expression whose value is not used.
pub(crate) fn run_discard(
    lists: &[Vec<Token>],
    streams: &[u32],
    run: &mut Run,
    e: &Expr,
) -> Result<Flow, Fault>
    requires { length run.old.heads.items ≡ length lists.now }
    ensures heads { IfOk result (λ f. length run.new.heads.items ≡ length lists.now) }
    ensures flow { IfOk result (λ f. (K : Kinds) (n : ℕ) → GivesFlow (numbers streams.now) f (point lists.now run.old)
        (stmt K n (Discard e.now) (state_of run.old.state)) (point lists.now run.new)) }
    ensures fits { IfOk result (λ f. (K : Kinds) → IsTyped K (Discard e.now) → StandsFit K streams.now lists.now (state_of run.old.state) → FlowFits K (state_of run.new.state) f) }
    ensures cause { IfErr result (λ fault. (K : Kinds) → IsTyped K (Discard e.now) → StandsFit K streams.now lists.now (state_of run.old.state) → fault ≢ NotOfItsKind) }
{
    match run_expr(lists, streams, run, e)? {
        Value::Stopped(m) => Ok(Flow::Stopped(m)),
        Value::Given(_) => Ok(Flow::Next),
    }
}
