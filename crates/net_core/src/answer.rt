// The last answers of all instances of a net.
ghost use Rattle.std.specs.Prelude.{ℕ, ◌≡◌, ◌<◌, ◌^◌, length, IfOk};
ghost use Rattle.net_core.specs.State.{given, count, IsWithin, AreAnswered};
ghost use Rattle.net_core.specs.Ties.{AreAllTies};

use crate::body::Body;
use crate::net::Net;
use crate::resume::resume_instance;
use crate::ties::Ties;
use std::alloc::Global;
use tapa_base::OutOfMemory;

/// Asks each instance whether it can continue, by a resume that makes no tick. Then the last answer of each instance is true.
pub fn answer_all<B: Body>(
    alloc: Global,
    net: &mut Net<B>,
    ties: &Vec<Ties>,
) -> Result<(), OutOfMemory>
    requires ties_len { length ties.now.items ≡ length net.old.program.instances.items }
    requires ties { AreAllTies net.old.program ties.now.items }
    requires few { (j : ℕ) → count net.old j < 2 ^ 64 }
    ensures given { given net.new ≡ given net.old }
    ensures within { IfOk result (λ _. (budget left : ℕ) → IsWithin net.old budget left → IsWithin net.new budget left) }
    ensures answered { IfOk result (λ _. AreAnswered net.new) }
{
    for i in 0..ties.len() {
        net.valid();
        let _answer = resume_instance(alloc, net, &ties[i].ports, i, 0)?;
    }
    Ok(())
}
