// The pairs of names of the top.

ghost use Rattle.std.specs.Prelude.{◌≡◌, List, ℕ, false, IfOk, IsTrue};
ghost use Rattle.std.specs.Str.{IsAscii};
ghost use Rattle.vlog_tree.specs.Form.{ModuleTree};
ghost use Rattle.vlog_tree.specs.Labels.{s_din, done};
ghost use Rattle.vlog_tree.specs.Table.{is_clk, declared, net_kind_of, net_kind_is_read};
ghost use Rattle.sim_tape.specs.Tape.{TapeTree};
ghost use Rattle.sim_flat.specs.declared.flat.Flat.{Flat as FlatTree};
ghost use Rattle.cycle_sim.specs.Machines.{IsTopPlaced, IsPairOf};

use sim_design::pair_of;
use sim_tape::Pair;
use std::alloc::{AllocError, Global};
use tapa_base::Text;
use vlog_scope::Scope;

/// Returns the name `s_X_din`.
#[tactic(auto, unfolding(vlog_tree::specs::Labels::s_din))]
pub fn din_name(alloc: Global, label: &[u8]) -> Result<Vec<u8>, AllocError>
    ensures { IfOk result (λ v. v.items ≡ s_din label.now) }
{
    let mut name = b"s_".to_vec(alloc)?;
    name.extend_from_slice(label)?;
    name.extend_from_slice(b"_din")?;
    Ok(name)
}

/// Returns the name `done`.
#[tactic(auto, unfolding(vlog_tree::specs::Labels::done))]
pub fn done_name(alloc: Global) -> Result<Vec<u8>, AllocError>
    ensures { IfOk result (λ v. v.items ≡ done) }
{
    b"done".to_vec(alloc)
}

/// Returns the pair of a name that can be read, and the constant 0 if there is no such name.
pub fn pair_named(scope: &Scope, pairs: &[Option<Pair>], name: Vec<u8>) -> Pair
    requires { IsAscii name.items }
    ensures { (ms : List ModuleTree) (top : ModuleTree) (f : FlatTree) (t : TapeTree) (x : List ℕ) → IsTopPlaced ms top f pairs.now t scope.now → name.items ≡ x
        → IsTrue (net_kind_is_read (net_kind_of (declared top) x)) → is_clk x ≡ false
        → IsPairOf ms f pairs.now x result }
{
    let text = Text::new(name);
    let Some((place, _)) = scope.place(&text) else {
        return Pair { low: 0, high: 0 };
    };
    let Some(pair) = pair_of(pairs, Some(place)) else {
        return Pair { low: 0, high: 0 };
    };
    pair
}
