// Statements, written from the last to the first.

ghost use Rattle.std.specs.Prelude.{◌≡◌, IfOk};
ghost use Rattle.tapa_syntax.specs.LeafKinds.{kinds_of};
ghost use Rattle.task_fsm.specs.Code.{stmt_code, list_code};
ghost use Rattle.task_fsm.specs.Draft.{emitted};

use crate::draft::{Emission, number_of_head, write_state};
use crate::machine::State;
use crate::operations::{write_alone, write_test};
use crate::simple::{
    write_read_cell, write_read_store, write_read_var, write_set, write_set_cell,
    write_set_cell_by, write_store, write_store_by, write_write,
};
use crate::size::{count_of, size_list};
use std::alloc::{AllocError, Global};
use tapa_base::plus;
use tapa_syntax::{Leaf, Stmt};

// A statement: `counter` is the counter's register, `out` the state after a break and `again` the one after a continue.
#[cycle(statements)]
fn write_stmt(
    alloc: Global,
    draft: &mut Emission,
    leaf: &Leaf,
    total: u32,
    counter: u32,
    s: &Stmt,
    out: u32,
    again: u32,
) -> Result<(), AllocError>
    ensures { IfOk result (λ u. emitted draft.new ≡ stmt_code (kinds_of leaf.now) total counter s.now out again (emitted draft.old)) }
{
    let next = draft.entry;
    match s {
        Stmt::Set(x, e) => write_set(alloc, draft, leaf, total, *x, e),
        Stmt::SetCell {
            array,
            index,
            value,
        } => write_set_cell(alloc, draft, leaf, total, *array, index, value),
        Stmt::SetCellBy {
            array,
            index,
            op,
            kind,
            value,
        } => write_set_cell_by(alloc, draft, leaf, total, *array, index, *op, *kind, value),
        Stmt::Store {
            memory,
            index,
            value,
        } => write_store(alloc, draft, leaf, total, *memory, index, value),
        Stmt::StoreBy {
            memory,
            index,
            op,
            kind,
            value,
        } => write_store_by(alloc, draft, leaf, total, *memory, index, *op, *kind, value),
        Stmt::ReadVar { stream, var } => write_read_var(alloc, draft, leaf, total, *stream, *var),
        Stmt::ReadCell {
            stream,
            array,
            index,
        } => write_read_cell(alloc, draft, leaf, total, *stream, *array, index),
        Stmt::ReadStore {
            stream,
            memory,
            index,
        } => write_read_store(alloc, draft, leaf, total, *stream, *memory, index),
        Stmt::Write(stream, e) => write_write(alloc, draft, leaf, total, *stream, e),
        Stmt::Open(stream) => write_state(
            draft,
            total,
            State::Open {
                stream: *stream,
                next,
            },
        ),
        Stmt::Close(stream) => write_state(
            draft,
            total,
            State::Close {
                stream: *stream,
                next,
            },
        ),
        Stmt::Discard(e) => write_alone(alloc, draft, leaf, total, e),
        Stmt::Clear(array) => write_state(
            draft,
            total,
            State::Clear {
                array: *array,
                count: counter,
                next,
            },
        ),
        Stmt::If(e, left, right) => {
            write_list(alloc, draft, leaf, total, counter, right, out, again)?;
            let no = draft.entry;
            draft.entry = next;
            write_list(alloc, draft, leaf, total, counter, left, out, again)?;
            write_test(alloc, draft, leaf, total, e, no)
        }
        Stmt::Loop { test, body, step } => {
            let inside = plus(size_list(step)?, size_list(body)?)?;
            let size = plus(inside, plus(1, count_of(test)?)?)?;
            let head = number_of_head(total, draft.states.len(), size);
            draft.entry = head;
            write_list(alloc, draft, leaf, total, counter, step, next, head)?;
            let after = draft.entry;
            write_list(alloc, draft, leaf, total, counter, body, next, after)?;
            write_test(alloc, draft, leaf, total, test, next)
        }
        Stmt::Break => {
            draft.entry = out;
            Ok(())
        }
        Stmt::Continue => {
            draft.entry = again;
            Ok(())
        }
    }
}

// Statements, the last one first.
#[cycle(statements)]
pub(crate) fn write_list(
    alloc: Global,
    draft: &mut Emission,
    leaf: &Leaf,
    total: u32,
    counter: u32,
    code: &[Stmt],
    out: u32,
    again: u32,
) -> Result<(), AllocError>
    ensures { IfOk result (λ u. emitted draft.new ≡ list_code (kinds_of leaf.now) total counter code.now out again (emitted draft.old)) }
{
    for i in (0..code.len()).rev() {
        write_stmt(alloc, draft, leaf, total, counter, &code[i], out, again)?;
    }
    Ok(())
}
