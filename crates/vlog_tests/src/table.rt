// The numbers of a design's nets, cycle by cycle, as the slow reference finds them.

use crate::shown::{
    Carried, add_number, add_token, push_end, push_memory, push_name, push_streams, streams_of,
};
use std::alloc::{AllocError, Global};
use tapa_base::Text;
use vlog_design::{Design, Env};
use vlog_ref_cycle::{carries, is_done, net_number, next};
use vlog_ref_start::first_moment;
use vlog_values::{Circuit, Moment};

/// A net of an instance, with the names of the instances on the way to it, the innermost first, and its numbers so far.
#[derive(Drop)]
pub(crate) struct Row {
    pub path: Vec<Text>,
    pub net: Text,
    pub numbers: String,
}

/// What the reference shows: a line for each net, and what is shown of the streams, the memories and the end.
#[derive(Drop)]
pub(crate) struct Found {
    pub nets: String,
    pub rest: String,
}

fn add_numbers(
    alloc: Global,
    design: &Circuit,
    now: &Moment,
    depth: u32,
    rows: &mut [Row],
) -> Result<(), AllocError> {
    for row in rows.iter_mut() {
        let number = net_number(alloc, design, now, &row.path, &row.net, depth)?;
        add_number(alloc, &mut row.numbers, number)?;
    }
    Ok(())
}

fn add_tokens(
    alloc: Global,
    design: &Circuit,
    now: &Moment,
    depth: u32,
    streams: &mut [Carried],
) -> Result<(), AllocError> {
    for s in streams.iter_mut() {
        if s.port.bits < 2 || s.port.bits > 65 {
            return Ok(());
        }
        if let Some(Some(token)) = carries(alloc, design, now, &s.port, depth)? {
            add_token(alloc, &mut s.tokens, token)?;
        }
    }
    Ok(())
}

fn push_rows(to: &mut String, rows: &[Row]) -> Result<(), AllocError> {
    for row in rows {
        for name in row.path.iter().rev() {
            push_name(to, name)?;
            to.push('.')?;
        }
        push_name(to, &row.net)?;
        to.push_str(row.numbers.as_str())?;
        to.push('\n')?;
    }
    Ok(())
}

fn push_memories(alloc: Global, to: &mut String, now: &Moment) -> Result<(), AllocError> {
    for memory in &now.outside {
        push_memory(alloc, to, &memory.name, &memory.cells)?;
    }
    Ok(())
}

/// Runs a design until it is done, for at most `cycles` cycles: the numbers of the rows and the tokens of the streams in each
/// cycle, then what the memories around it hold, and in which cycle it ended.
pub(crate) fn table(
    alloc: Global,
    checked: &Design,
    around: &Env,
    fill: u128,
    mut rows: Vec<Row>,
    cycles: u32,
    depth: u32,
) -> Result<Found, AllocError> {
    let design = Circuit {
        modules: checked.modules(),
        top: checked.top(),
    };
    let mut streams = streams_of(alloc, checked)?;
    let mut now = first_moment(alloc, checked, around, fill)?;
    for _cycle in 0..cycles {
        add_numbers(alloc, &design, &now, depth, &mut rows)?;
        add_tokens(alloc, &design, &now, depth, &mut streams)?;
        if is_done(alloc, &design, &now, depth)? == Some(true) {
            break;
        }
        match next(alloc, &design, &now, depth)? {
            Some(after) => now = after,
            None => break,
        }
    }
    let mut nets = String::new(alloc);
    push_rows(&mut nets, &rows)?;
    let mut rest = String::new(alloc);
    push_streams(&mut rest, &streams)?;
    push_memories(alloc, &mut rest, &now)?;
    let ended = is_done(alloc, &design, &now, depth)? == Some(true);
    push_end(alloc, &mut rest, ended, now.cycle)?;
    Ok(Found { nets, rest })
}
