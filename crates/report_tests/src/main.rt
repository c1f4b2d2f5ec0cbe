//! Runs compared with the definitions: of the programs in `stdin`, the reports that three workers make, beside the streams and ticks that the
//! slow functions compute, and ticks of single instances on given tokens. `stdout` has what is wanted; the tokens of the bodies and the ends
//! of the traces were worked out by hand.
#![tactic(auto)]

mod reader;
mod runs;

use crate::reader::Reader;
use std::test::Fail;

fn main(rt: HostRuntime) -> Result<(), Fail> {
    let alloc = rt.alloc();
    let mut reader = Reader::new(alloc);
    for line in rt.lines(alloc) {
        let shown = reader.line(&rt, alloc, line?.as_str())?;
        print!(rt; "{shown}")?;
    }
    Ok(())
}
