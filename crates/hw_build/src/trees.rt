// Trees of ors.

ghost use Rattle.std.specs.Prelude.{◌≡◌, ◌+◌, ◌-◌, ◌*◌, ◌^◌, ◌<◌, IfOk};
ghost use Rattle.std.specs.Str.{IsAscii};
ghost use Rattle.hw_build.specs.Elements.{with, with_all};
ghost use Rattle.hw_build.specs.Trees.{tree_node, tree_nodes};

use crate::draft::Draft;
use crate::texts::numbered;
use std::alloc::{AllocError, Global};
use vlog_tree::{Atom, BinaryOp, Value};

impl Draft {
    /// The or of the `leaves` nets `front_0`, `front_1` and so on: the nodes of a balanced tree over them are the
    /// nets that follow, and the last of these is its root.
    pub fn or_tree(
        &mut self,
        alloc: Global,
        width: u32,
        front: &[u8],
        leaves: u32,
    ) -> Result<(), AllocError>
        requires ascii { IsAscii front.now }
        requires range { 2 * leaves < 2 ^ 32 }
        ensures { IfOk result (λ u. self.new ≡ with_all self.old (tree_nodes width front.now leaves (leaves - 1))) }
    {
        add_nodes(self, alloc, width, front, leaves)
    }
}

fn add_node(
    draft: &mut Draft,
    alloc: Global,
    width: u32,
    front: &[u8],
    leaves: u32,
    node: u32,
) -> Result<(), AllocError>
    requires ascii { IsAscii front.now }
    requires above { node + 1 < leaves }
    requires range { 2 * leaves < 2 ^ 32 }
    ensures { IfOk result (λ u. draft.new ≡ with draft.old (tree_node width front.now leaves node)) }
{
    let name = numbered(alloc, front, leaves + node)?;
    let driver = Value::Binary {
        left: Atom::Net(numbered(alloc, front, 2 * node)?),
        op: BinaryOp::Or,
        right: Atom::Net(numbered(alloc, front, 2 * node + 1)?),
    };
    draft.wire(alloc, width, name.bytes(), driver)
}

#[tactic(auto, using(crate::proofs::Ors::nodes_more))]
fn add_nodes(
    draft: &mut Draft,
    alloc: Global,
    width: u32,
    front: &[u8],
    leaves: u32,
) -> Result<(), AllocError>
    requires ascii { IsAscii front.now }
    requires range { 2 * leaves < 2 ^ 32 }
    ensures { IfOk result (λ u. draft.new ≡ with_all draft.old (tree_nodes width front.now leaves (leaves - 1))) }
{
    let nodes = leaves.saturating_sub(1);
    for node in 0..nodes {
        add_node(draft, alloc, width, front, leaves, node)?;
    }
    Ok(())
}
