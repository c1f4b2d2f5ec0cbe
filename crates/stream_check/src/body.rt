// The leaf tasks that the instances of a program have, in the order of the file, and the index of its leaf for each instance.
ghost use Rattle.std.specs.Prelude.{◌≡◌, ◌++◌, [], map};
ghost use Rattle.tapa_syntax.specs.Flat.{flat_instance, flat_leaf};
ghost use Rattle.check_scope.specs.Answers.{ScopeAnswers};
ghost use Rattle.check_upper.specs.Views.{body_view, task_view};
ghost use Rattle.stream_check.specs.Programs as program;

use check_scope::{CheckFault, next_number, number_of};
use check_upper::{Body, Task};
use std::alloc::Global;
use tapa_syntax::{Instance, Leaf};

fn is_used(instances: &[Instance], number: u32) -> bool
    ensures { result ≡ program.is_used (map flat_instance instances.now) number }
{
    for instance in instances {
        if instance.body == number {
            return true;
        }
    }
    false
}

/// The numbers of the tasks that some leaf instance has, in the order of the file.
pub(crate) fn body_numbers(
    alloc: Global,
    instances: &[Instance],
    tasks: &[Task],
) -> Result<Vec<u32>, CheckFault>
    ensures { ScopeAnswers (λ numbers. numbers.items) result [] (program.body_numbers (map flat_instance instances.now) 0 (map task_view tasks.now)) }
{
    let mut numbers = Vec::new(alloc);
    for (position, _) in tasks.iter().enumerate() {
        let number = number_of(position)?;
        if is_used(instances, number) {
            numbers.push(number)?;
        }
    }
    Ok(numbers)
}

fn is_among(number: u32, numbers: &[u32]) -> bool
    ensures { result ≡ program.is_among number numbers.now }
{
    for one in numbers {
        if *one == number {
            return true;
        }
    }
    false
}

/// Adds the leaf of a leaf task.
fn add_leaf(body: Body, leaves: &mut Vec<Leaf>) -> Result<(), CheckFault>
    ensures { ScopeAnswers (λ x. map flat_leaf leaves.new.items) result [] (map flat_leaf leaves.old.items ++ program.leaf_in (body_view body)) }
{
    if let Body::Leaf(leaf) = body {
        leaves.push(leaf)?;
    }
    Ok(())
}

/// The leaves of the tasks of these numbers.
pub(crate) fn bodies(
    alloc: Global,
    numbers: &[u32],
    tasks: Vec<Task>,
) -> Result<Vec<Leaf>, CheckFault>
    ensures { ScopeAnswers (λ leaves. map flat_leaf leaves.items) result [] (program.bodies_of numbers.now 0 (map task_view tasks.entry.items)) }
{
    let mut leaves = Vec::new(alloc);
    let mut number = 0;
    for task in tasks {
        if is_among(number, numbers) {
            add_leaf(task.body, &mut leaves)?;
        }
        number = next_number(number)?;
    }
    Ok(leaves)
}

fn position_among(number: u32, numbers: &[u32]) -> usize
    ensures { result ≡ program.position_among 0 number numbers.now }
{
    for (position, one) in numbers.iter().enumerate() {
        if *one == number {
            return position;
        }
    }
    numbers.len()
}

/// The instances with the numbers of their leaves among the bodies.
pub(crate) fn instances_with_bodies(
    alloc: Global,
    numbers: &[u32],
    instances: Vec<Instance>,
) -> Result<Vec<Instance>, CheckFault>
    ensures { ScopeAnswers (λ made. map flat_instance made.items) result [] (map (program.with_body numbers.now) (map flat_instance instances.items)) }
{
    let mut made = Vec::new(alloc);
    for instance in instances {
        let Instance {
            label,
            body,
            detached,
            scalars,
            streams,
            memories,
        } = instance;
        made.push(Instance {
            label,
            body: number_of(position_among(body, numbers))?,
            detached,
            scalars,
            streams,
            memories,
        })?;
    }
    Ok(made)
}
