//! What designs do cycle by cycle, as the slow reference computes it, beside results of the simulator, by hand or of another simulator.
//! `stdin` has the texts, `stdout` what is wanted. Of the circuits at the end, made by `tapa build` of the sources in tests/cases/circuits, the wanted tokens
//! and cells are those that `tapa run` shows of the sources, so the reference agrees with the engine: the runner's group `reference` compares them, and
//! tests/run.py write reference writes both files anew. The same group runs the texts by `tapa cosim`.
#![tactic(auto)]

mod reader;
mod shown;
mod simulated;
mod table;

use crate::reader::Reader;
use std::test::Fail;

fn main(rt: HostRuntime) -> Result<(), Fail> {
    let alloc = rt.alloc();
    let mut reader = Reader::new(alloc);
    for line in rt.lines(alloc) {
        let shown = reader.line(alloc, line?.as_str())?;
        print!(rt; "{shown}")?;
    }
    Ok(())
}
