// The pairs of the nets of the top.

ghost use Rattle.std.specs.Prelude.{◌≡◌, ◌++◌, List, None, false, true, get_or, IfOk, OnOk};
ghost use Rattle.std.specs.Option.{option_to_list};
ghost use Rattle.vlog_tree.specs.Form.{ModuleTree};
ghost use Rattle.sim_tape.specs.Tape.{TapeTree};
ghost use Rattle.sim_flat.specs.declared.flat.Flat.{Flat as FlatTree};
ghost use Rattle.cycle_sim.specs.Machines.{IsTopPlaced};
ghost use Rattle.cycle_sim.specs.ShownNets.{is_shown as is_shown_lem, AreShown};

use sim_design::pair_of;
use sim_tape::Pair;
use std::alloc::{AllocError, Global};
use vlog_rules::{is_clock, is_read};
use vlog_scope::Scope;
use vlog_tree::Declaration;

/// Checks whether a name is a net that has a value in each cycle: a port except the clock, a wire or a register.
pub fn is_shown(d: &Declaration) -> bool
    ensures { result ≡ is_shown_lem d.now }
{
    is_read(d.net_kind) && !is_clock(&d.name)
}

// Returns the pair at the index of a name that is shown, and `None` for another name.
fn shown_at(pairs: &[Option<Pair>], place: usize, d: &Declaration) -> Option<Pair>
    ensures shown { is_shown_lem d.now ≡ true → result ≡ get_or pairs.now place None }
    ensures other { is_shown_lem d.now ≡ false → result ≡ None }
{
    if is_shown(d) {
        pair_of(pairs, Some(place))
    } else {
        None
    }
}

fn add_pair(shown: &mut Vec<Pair>, pair: Option<Pair>) -> Result<(), AllocError>
    ensures { OnOk result (shown.new.items ≡ shown.old.items ++ option_to_list pair) }
{
    if let Some(one) = pair {
        shown.push(one)?;
    }
    Ok(())
}

/// Lists the pairs of the ports of the top except the clock, of its wires and of its registers, in the order of the text.
pub fn all_shown(
    alloc: Global,
    scope: &Scope,
    pairs: &[Option<Pair>],
) -> Result<Vec<Pair>, AllocError>
    ensures { IfOk result (λ v. (ms : List ModuleTree) (top : ModuleTree) (f : FlatTree) (t : TapeTree) → IsTopPlaced ms top f pairs.now t scope.now → AreShown ms top f pairs.now v.items) }
{
    let names = scope.declarations();
    let mut shown = Vec::new(alloc);
    for place in 0..names.len() {
        add_pair(&mut shown, shown_at(pairs, place, &names[place]))?;
    }
    Ok(shown)
}
