// What is shown of a design: what its streams have carried, what the memories around it hold, and how it ended.

use std::alloc::{AllocError, Global};
use tapa_base::{Port, Text, Token};
use vlog_design::Design;

/// A stream of the top and the tokens that it has carried.
#[derive(Drop)]
pub(crate) struct Carried {
    pub port: Port,
    pub tokens: String,
}

pub(crate) fn push_name(to: &mut String, name: &Text) -> Result<(), AllocError> {
    for byte in name.bytes() {
        to.push(char::from(*byte))?;
    }
    Ok(())
}

pub(crate) fn add_number(
    alloc: Global,
    to: &mut String,
    number: Option<u128>,
) -> Result<(), AllocError> {
    let text = match number {
        Some(n) => format!(in alloc; " {n}")?,
        None => String::from_str(alloc, " ?")?,
    };
    to.push_str(text.as_str())
}

pub(crate) fn add_token(alloc: Global, to: &mut String, token: Token) -> Result<(), AllocError> {
    match token {
        Token::Datum(n) => add_number(alloc, to, Some(u128::from(n))),
        Token::Eot => to.push_str(" eot"),
    }
}

/// The streams of a design's top, none of which has carried a token.
pub(crate) fn streams_of(alloc: Global, design: &Design) -> Result<Vec<Carried>, AllocError> {
    let mut all = Vec::new(alloc);
    for port in design.streams(alloc)? {
        all.push(Carried {
            port,
            tokens: String::new(alloc),
        })?;
    }
    Ok(all)
}

pub(crate) fn push_streams(to: &mut String, streams: &[Carried]) -> Result<(), AllocError> {
    for s in streams {
        to.push_str("stream ")?;
        push_name(to, &s.port.name)?;
        to.push_str(s.tokens.as_str())?;
        to.push('\n')?;
    }
    Ok(())
}

pub(crate) fn push_memory(
    alloc: Global,
    to: &mut String,
    name: &Text,
    cells: &[u128],
) -> Result<(), AllocError> {
    to.push_str("memory ")?;
    push_name(to, name)?;
    for cell in cells {
        add_number(alloc, to, Some(*cell))?;
    }
    to.push('\n')
}

pub(crate) fn push_end(
    alloc: Global,
    to: &mut String,
    is_done: bool,
    cycle: u64,
) -> Result<(), AllocError> {
    let text = if is_done {
        format!(in alloc; "done in cycle {cycle}\n")?
    } else {
        format!(in alloc; "not done in cycle {cycle}\n")?
    };
    to.push_str(text.as_str())
}
