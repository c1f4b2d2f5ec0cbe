// The head of a dump.

ghost use Rattle.std.specs.Prelude.{◌≡◌, ◌++◌, ◌∷◌, [], codes, if◌then◌else◌, length, map, OnOk, IfOk};
ghost use Rattle.std.specs.List.{filter};
ghost use Rattle.vlog_tree.specs.Form.{ModuleTree};
ghost use Rattle.vlog_tree.specs.Table.{net_kind_is_register};
ghost use Rattle.vlog_design.specs.Designs.{TopOf};
ghost use Rattle.cycle_sim.specs.ShownNets.{is_shown as is_shown_lem};
ghost use Rattle.vcd_text.specs.Dump.{var_line, lines_from, head_text};
ghost use Rattle.sim_output.specs.Dumped.{net_of, nets_of, widths_of};

use cycle_sim::is_shown;
use std::alloc::{AllocError, Global};
use vcd_text::push_var;
use vlog_design::Design;
use vlog_tree::{Declaration, NetKind};

fn is_register(net_kind: NetKind) -> bool
    ensures { result ≡ net_kind_is_register net_kind }
{
    matches!(net_kind, NetKind::Register)
}

// The line and the width of a net, where a name is one.
fn push_net(text: &mut Vec<u8>, widths: &mut Vec<u32>, d: &Declaration) -> Result<(), AllocError>
    ensures text { OnOk result (text.new.items ≡ text.old.items ++ (if is_shown_lem d.now then var_line (length widths.old.items) (net_of d.now) else [])) }
    ensures widths { OnOk result (widths.new.items ≡ widths.old.items ++ (if is_shown_lem d.now then d.now.bits ∷ [] else [])) }
{
    if is_shown(d) {
        let number = widths.len() as u64;
        push_var(
            text,
            number,
            d.name.bytes(),
            d.bits,
            is_register(d.net_kind),
        )?;
        widths.push(d.bits)?;
    }
    Ok(())
}

// The lines of all nets, and their widths.
fn push_nets(
    alloc: Global,
    text: &mut Vec<u8>,
    names: &[Declaration],
) -> Result<Vec<u32>, AllocError>
    ensures text { OnOk result (text.new.items ≡ text.old.items ++ lines_from var_line 0 (map net_of (filter is_shown_lem names.now))) }
    ensures widths { IfOk result (λ v. v.items ≡ widths_of (map net_of (filter is_shown_lem names.now))) }
{
    let mut widths = Vec::new(alloc);
    for i in 0..names.len() {
        push_net(text, &mut widths, &names[i])?;
    }
    Ok(widths)
}

/// Appends the head of a design's dump to a text, and gives the widths of its nets.
pub(crate) fn push_head(
    alloc: Global,
    text: &mut Vec<u8>,
    design: &Design,
) -> Result<Vec<u32>, AllocError>
    ensures text { OnOk result ((m : ModuleTree) → TopOf design.now m → text.new.items ≡ text.old.items ++ head_text m.name (nets_of m)) }
    ensures widths { IfOk result (λ v. (m : ModuleTree) → TopOf design.now m → v.items ≡ widths_of (nets_of m)) }
{
    let top = design.top();
    text.extend_from_slice(b"$timescale 1 ns $end\n$scope module ")?;
    text.extend_from_slice(top.name().bytes())?;
    text.extend_from_slice(b" $end\n")?;
    let widths = push_nets(alloc, text, design.scope().declarations())?;
    text.extend_from_slice(b"$upscope $end\n$enddefinitions $end\n")?;
    Ok(widths)
}
