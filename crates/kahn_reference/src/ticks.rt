// What a run does tick by tick, and what each tick leaves.

ghost use Rattle.std.specs.Prelude.{◌≡◌, ◌∷◌, ◌++◌, [], All, length, replicate, slice_index_or, IfOk};
ghost use Rattle.tapa_base.specs.declared.kind.Kind.{Kind};
ghost use Rattle.kahn_model.specs.declared.tick.StreamOperation.{StreamOperation};
ghost use Rattle.kahn_model.specs.declared.tick.Tick.TheVariants.{Did};
ghost use Rattle.kahn_model.specs.declared.tick.Action.TheVariants.{Local, Load, Store};
ghost use Rattle.kahn_model.specs.Behavior.{Await, tick_of, ticks};
ghost use Rattle.kahn_reference.specs.Kept.{IsValueOf, answer_kind};
ghost use Rattle.kahn_reference.specs.Slow.{point, numbers, state_of, GivesAnswer, GivesValue, whole};
ghost use Rattle.kahn_model.specs.Fits.{IsTokenOf};
ghost use Rattle.kahn_model.specs.Rows.{rows_of};
ghost use Rattle.kahn_model.specs.Trace.{set_var, set_cell, store_cell, cell, cells_of, cleared};

use crate::cells::{cell_of, set_cell_of};
use crate::slow::{Run, Value};
use kahn_model::tick::{Action, StreamOperation, Tick, TraceEnd};
use std::alloc::AllocError;
use tapa_base::{Token, number_at};

fn tick_for(how: StreamOperation, s: u32, token: Token) -> Tick
    ensures { result ≡ tick_of how s token }
{
    match how {
        StreamOperation::Read => Tick::Take(s, token),
        StreamOperation::Peek => Tick::See(s, token),
        StreamOperation::TestEot => Tick::See(s, token),
        StreamOperation::Open => Tick::Take(s, token),
    }
}

// One operation on stream s.
fn ask(
    lists: &[Vec<Token>],
    run: &mut Run,
    s: u32,
    how: StreamOperation,
) -> Result<Value, AllocError>
    requires { length run.old.heads.items ≡ length lists.now }
    ensures heads { IfOk result (λ v. length run.new.heads.items ≡ length lists.now) }
    ensures state { IfOk result (λ v. run.new.state ≡ run.old.state) }
    ensures value { IfOk result (λ v. GivesAnswer v (point lists.now run.old) s how (point lists.now run.new)) }
    ensures fits { IfOk result (λ v. (k : Kind) → All (IsTokenOf k) (whole lists.now s) → IsValueOf (answer_kind how k) v) }
{
    let i = s as usize;
    if i >= lists.len() {
        return Ok(Value::Stopped(TraceEnd::Needs(s)));
    }
    let list = &lists[i];
    let at = run.heads[i];
    if at >= list.len() {
        return Ok(Value::Stopped(TraceEnd::Needs(s)));
    }
    let token = list[at];
    match how.value_of(token) {
        None => Ok(Value::Stopped(TraceEnd::Bad(s))),
        Some(v) => {
            run.ticks.push(tick_for(how, s, token))?;
            if how.takes() {
                run.heads[i] = at + 1;
            }
            Ok(Value::Given(v))
        }
    }
}

// One operation on the stream at a position.
pub(crate) fn ask_at(
    lists: &[Vec<Token>],
    streams: &[u32],
    run: &mut Run,
    p: u32,
    how: StreamOperation,
) -> Result<Value, AllocError>
    requires { length run.old.heads.items ≡ length lists.now }
    ensures heads { IfOk result (λ v. length run.new.heads.items ≡ length lists.now) }
    ensures state { IfOk result (λ v. run.new.state ≡ run.old.state) }
    ensures value { IfOk result (λ v. GivesValue (numbers streams.now) v (point lists.now run.old) (λ go. Await p how go) (point lists.now run.new)) }
    ensures fits { IfOk result (λ v. (k : Kind) → All (IsTokenOf k) (whole lists.now (numbers streams.now p)) → IsValueOf (answer_kind how k) v) }
{
    ask(lists, run, number_at(streams, p), how)
}

// One more tick.
pub(crate) fn note(run: &mut Run, tick: Tick) -> Result<(), AllocError>
    ensures ticks { IfOk result (λ u. run.new.ticks.items ≡ run.old.ticks.items ++ tick ∷ []) }
    ensures state { run.new.state ≡ run.old.state }
    ensures heads { run.new.heads ≡ run.old.heads }
{
    run.ticks.push(tick)?;
    Ok(())
}

// A tick that loads a cell, and its value.
pub(crate) fn load_cell(run: &mut Run, m: u32, i: u64) -> Result<u64, AllocError>
    ensures ticks { IfOk result (λ v. run.new.ticks.items ≡ run.old.ticks.items ++ Did (Load m i) ∷ []) }
    ensures value { IfOk result (λ v. v ≡ cell (state_of run.old.state).cells m i) }
    ensures state { run.new.state ≡ run.old.state }
    ensures heads { run.new.heads ≡ run.old.heads }
{
    note(run, Tick::Did(Action::Load(m, i)))?;
    Ok(cell_of(&run.state.cells, m, i))
}

// A variable gets a value.
fn set_value(run: &mut Run, x: u32, v: u64)
    ensures state { state_of run.new.state ≡ set_var (state_of run.old.state) x v }
    ensures heads { run.new.heads ≡ run.old.heads }
    ensures ticks { run.new.ticks ≡ run.old.ticks }
{
    let i = x as usize;
    if i < run.state.vars.len() {
        run.state.vars[i] = v;
    }
}

// A cell of an array gets a value.
fn set_array(run: &mut Run, a: u32, i: u64, v: u64)
    ensures state { state_of run.new.state ≡ set_cell (state_of run.old.state) a i v }
    ensures heads { run.new.heads ≡ run.old.heads }
    ensures ticks { run.new.ticks ≡ run.old.ticks }
{
    set_cell_of(&mut run.state.arrays, a, i, v);
}

// A tick that stores a value in a cell of a memory.
pub(crate) fn store_tick(run: &mut Run, m: u32, i: u64, v: u64) -> Result<(), AllocError>
    ensures ticks { IfOk result (λ u. run.new.ticks.items ≡ run.old.ticks.items ++ Did (Store m i v) ∷ []) }
    ensures state { IfOk result (λ u. state_of run.new.state ≡ store_cell (state_of run.old.state) m i v) }
    ensures heads { run.new.heads ≡ run.old.heads }
{
    note(run, Tick::Did(Action::Store(m, i, v)))?;
    set_cell_of(&mut run.state.cells, m, i, v);
    Ok(())
}

// A variable gets a value, in one tick.
pub(crate) fn set_var_tick(run: &mut Run, x: u32, v: u64) -> Result<(), AllocError>
    ensures ticks { IfOk result (λ u. run.new.ticks.items ≡ run.old.ticks.items ++ Did Local ∷ []) }
    ensures state { IfOk result (λ u. state_of run.new.state ≡ set_var (state_of run.old.state) x v) }
    ensures heads { run.new.heads ≡ run.old.heads }
{
    note(run, Tick::Did(Action::Local))?;
    set_value(run, x, v);
    Ok(())
}

pub(crate) fn set_cell_tick(run: &mut Run, a: u32, i: u64, v: u64) -> Result<(), AllocError>
    ensures ticks { IfOk result (λ u. run.new.ticks.items ≡ run.old.ticks.items ++ Did Local ∷ []) }
    ensures state { IfOk result (λ u. state_of run.new.state ≡ set_cell (state_of run.old.state) a i v) }
    ensures heads { run.new.heads ≡ run.old.heads }
{
    note(run, Tick::Did(Action::Local))?;
    set_array(run, a, i, v);
    Ok(())
}

// Every cell of a row becomes 0.
fn zero_row(row: &mut [u64])
    ensures { row.new ≡ replicate (length row.old) 0 }
{
    row.fill(0);
}

// Every cell of an array becomes 0.
fn zero_array(run: &mut Run, a: u32)
    ensures state { state_of run.new.state ≡ cleared (state_of run.old.state) a }
    ensures heads { run.new.heads ≡ run.old.heads }
    ensures ticks { run.new.ticks ≡ run.old.ticks }
{
    let i = a as usize;
    if i < run.state.arrays.len() {
        zero_row(&mut run.state.arrays[i]);
    }
}

// How many cells an array has.
fn cell_count(arrays: &[Vec<u64>], a: u32) -> usize
    ensures { result ≡ length (slice_index_or (rows_of arrays.now) a []) }
{
    match arrays.get(a as usize) {
        Some(row) => row.len(),
        None => 0,
    }
}

// Appends `count` local ticks.
fn note_times(run: &mut Run, count: usize) -> Result<(), AllocError>
    ensures ticks { IfOk result (λ u. run.new.ticks.items ≡ run.old.ticks.items ++ replicate count (Did Local)) }
    ensures state { IfOk result (λ u. run.new.state ≡ run.old.state) }
    ensures heads { IfOk result (λ u. run.new.heads ≡ run.old.heads) }
{
    for _tick in 0..count {
        note(run, Tick::Did(Action::Local))?;
    }
    Ok(())
}

// Every cell of an array becomes 0, one a tick.
pub(crate) fn clear(run: &mut Run, a: u32) -> Result<(), AllocError>
    ensures ticks { IfOk result (λ u. run.new.ticks.items ≡ run.old.ticks.items ++ replicate (cells_of (state_of run.old.state) a) (Did Local)) }
    ensures state { IfOk result (λ u. state_of run.new.state ≡ cleared (state_of run.old.state) a) }
    ensures heads { IfOk result (λ u. run.new.heads ≡ run.old.heads) }
{
    let count = cell_count(&run.state.arrays, a);
    note_times(run, count)?;
    zero_array(run, a);
    Ok(())
}
