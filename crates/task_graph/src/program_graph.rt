//! The graph of a program.
ghost use Rattle.std.specs.Prelude.{◌≡◌, IfOk, map, slice_index_or};
ghost use Rattle.tapa_syntax.specs.declared.program.Instance.{Instance};
ghost use Rattle.tapa_syntax.specs.WellFormed.{IsWellFormed};
ghost use Rattle.task_graph.specs.Programs.{IsGraphOf};
ghost use Rattle.task_graph.specs.Estimate.{estimate};
ghost use Rattle.task_graph.specs.Uses.{nothing, use_of};

use crate::edges::edges_of;
use crate::estimates::estimated;
use crate::groups::groups_of;
use crate::{Graph, Use};
use std::alloc::{AllocError, Global};
use tapa_base::{OutOfMemory, Text};
use tapa_syntax::{Instance, Leaf, Program};

fn labels_of(alloc: Global, instances: &[Instance]) -> Result<Vec<Text>, AllocError>
    ensures { IfOk result (λ labels. labels.items ≡ map (λ (i : Instance). i.label) instances.now) }
{
    let mut labels = Vec::new(alloc);
    for instance in instances {
        labels.push(instance.label.copy(alloc)?)?;
    }
    Ok(labels)
}

fn leaf_uses(alloc: Global, bodies: &[Leaf]) -> Result<Vec<Use>, AllocError>
    ensures { IfOk result (λ uses. uses.items ≡ map estimate bodies.now) }
{
    let mut uses = Vec::new(alloc);
    for leaf in bodies {
        uses.push(estimated(leaf))?;
    }
    Ok(uses)
}

fn use_at(leaf_uses: &[Use], body: u32) -> Use
    ensures { result ≡ slice_index_or leaf_uses.now body nothing }
{
    match leaf_uses.get(body as usize) {
        Some(found) => *found,
        None => Use {
            lut: 0,
            ff: 0,
            bram: 0,
            dsp: 0,
            uram: 0,
        },
    }
}

fn uses_by(alloc: Global, leaf_uses: &[Use], instances: &[Instance]) -> Result<Vec<Use>, AllocError>
    ensures { IfOk result (λ uses. uses.items ≡ map (λ (i : Instance). slice_index_or leaf_uses.now i.body nothing) instances.now) }
{
    let mut uses = Vec::new(alloc);
    for instance in instances {
        uses.push(use_at(leaf_uses, instance.body))?;
    }
    Ok(uses)
}

fn uses_of(alloc: Global, bodies: &[Leaf], instances: &[Instance]) -> Result<Vec<Use>, AllocError>
    ensures { IfOk result (λ uses. uses.items ≡ map (use_of bodies.now) instances.now) }
{
    let leaf_uses = leaf_uses(alloc, bodies)?;
    let uses = uses_by(alloc, &leaf_uses, instances)?;
    Ok(uses)
}

impl Graph {
    /// The graph of a program: an instance is estimated to use what its leaf takes, and a stream is as wide as its kind and
    /// one bit for the end of a transmission.
    pub fn of(alloc: Global, program: &Program) -> Result<Graph, OutOfMemory>
        requires { IsWellFormed program.now }
        ensures { IfOk result (λ graph. IsGraphOf program.now graph) }
    {
        let labels = labels_of(alloc, &program.instances)?;
        let uses = uses_of(alloc, &program.bodies, &program.instances)?;
        let edges = edges_of(alloc, &program.streams)?;
        let groups = groups_of(alloc, program.instances.len(), &edges)?;
        Ok(Graph {
            labels,
            group: groups.numbers,
            groups: groups.count,
            uses,
            edges,
        })
    }
}
