// The slots that are given from outside.

ghost use Rattle.std.specs.Prelude.{◌+◌, ◌<◌, ◌^◌, length, IfOk, OnOk};
ghost use Rattle.sim_pass.specs.Marks.{ListsGiven};

use sim_tape::{Gate, Rule};
use std::alloc::{AllocError, Global};

fn add_given(listed: &mut Vec<u32>, gates: &[Gate], at: usize) -> Result<(), AllocError>
    requires within { at < length gates.now }
    requires few { at < 2 ^ 32 }
    requires before { ListsGiven gates.now at listed.old.items }
    ensures { OnOk result (ListsGiven gates.now (at + 1) listed.new.items) }
{
    if gates[at].rule == Rule::Given {
        listed.push(at as u32)?;
    }
    Ok(())
}

/// The slots that are given from outside.
pub(crate) fn given_of(alloc: Global, gates: &[Gate]) -> Result<Vec<u32>, AllocError>
    requires { length gates.now < 2 ^ 32 }
    ensures { IfOk result (λ v. ListsGiven gates.now (length gates.now) v.items) }
{
    let mut listed = Vec::new(alloc);
    for at in 0..gates.len() {
        add_given(&mut listed, gates, at)?;
    }
    Ok(listed)
}
