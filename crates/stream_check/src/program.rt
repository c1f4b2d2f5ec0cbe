// The rules of a whole file for its top task, and the flat program that it means.
ghost use Rattle.std.specs.Prelude.{◌≡◌, map, slice_get, IfOk};
ghost use Rattle.tapa_syntax.specs.Flat.{flat_instance, flat_program};
ghost use Rattle.tapa_syntax.specs.WellFormed.{IsWellFormed};
ghost use Rattle.tapa_syntax.specs.Trees as tree;
ghost use Rattle.tapa_syntax.specs.Trees.{file_of};
ghost use Rattle.check_scope.specs.Answers.{ScopeAnswers};
ghost use Rattle.check_upper.specs.Views.{task_view};
ghost use Rattle.stream_check.specs.Programs as spec;
ghost use Rattle.stream_check.specs.Views.{flat_of, flat_parts, task_found};

use crate::bindings::{memories, streams};
use crate::body::{bodies, body_numbers, instances_with_bodies};
use crate::item::check_items;
use crate::parts::{MOST_LEVELS, Parts, expand};
use crate::top::{FIRST_PLACE, check_top, scalars, task_position, top_instance};
use check_scope::{CheckCode, CheckFault, copied, refused};
use check_upper::Task;
use std::alloc::Global;
use tapa_syntax::{File, Program, TaskDeclaration};

/// The streams and leaf instances of a top task.
fn parts_of(
    alloc: Global,
    tasks: &[Task],
    levels: u32,
    number: usize,
    top: &TaskDeclaration,
) -> Result<Parts, CheckFault>
    ensures { ScopeAnswers flat_of result (spec.limit_faults 0 0 (spec.top_parts levels (map task_view tasks.now) number (tree.task_of top.now)))
        (flat_parts (spec.top_parts levels (map task_view tasks.now) number (tree.task_of top.now))) }
{
    let mut parts = Parts {
        streams: Vec::new(alloc),
        instances: Vec::new(alloc),
    };
    let made = top_instance(alloc, number, &top.parameters)?;
    expand(alloc, tasks, levels, top.name.place, made, &mut parts)?;
    Ok(parts)
}

/// The program of a top task that has these streams and leaf instances.
fn program_with(
    alloc: Global,
    tasks: Vec<Task>,
    top: &TaskDeclaration,
    parts: Parts,
) -> Result<Program, CheckFault>
    ensures { ScopeAnswers flat_program result
        (spec.bindings_faults (map task_view tasks.entry.items) (tree.task_of top.now) (map flat_instance parts.instances.items) parts.streams.items)
        (spec.program_made (map task_view tasks.entry.items) (tree.task_of top.now) (map flat_instance parts.instances.items) parts.streams.items) }
{
    let Parts {
        streams: channels,
        instances,
    } = parts;
    let streams = streams(alloc, &tasks, &instances, &channels)?;
    let memories = memories(alloc, &instances, &top.parameters)?;
    let numbers = body_numbers(alloc, &instances, &tasks)?;
    Ok(Program {
        top: copied(alloc, &top.name.text)?,
        scalars: scalars(alloc, &top.parameters)?,
        memories,
        bodies: bodies(alloc, &numbers, tasks)?,
        instances: instances_with_bodies(alloc, &numbers, instances)?,
        streams,
    })
}

fn task_at<'t, 'a>(tasks: &'t [Task<'a>], number: usize) -> Option<&'t Task<'a>>
    ensures { task_found result ≡ slice_get (map task_view tasks.now) number }
{
    tasks.get(number)
}

/// The program of the task of this number among the tasks of a file, where upper-level tasks may nest at most `levels` deep.
fn program(
    alloc: Global,
    tasks: Vec<Task>,
    levels: u32,
    number: usize,
) -> Result<Program, CheckFault>
    ensures { ScopeAnswers flat_program result (spec.whole_faults levels (map task_view tasks.entry.items) number) (spec.whole_program levels (map task_view tasks.entry.items) number) }
{
    let Some(task) = task_at(&tasks, number) else {
        return Err(refused(CheckCode::C1, FIRST_PLACE));
    };
    check_top(task)?;
    let top = task.declared;
    let parts = parts_of(alloc, &tasks, levels, number, top)?;
    program_with(alloc, tasks, top, parts)
}

#[tactic(auto, unfolding(crate::specs::Programs::all_levels))]
fn all_levels() -> u32
    ensures { result ≡ spec.all_levels }
{
    MOST_LEVELS
}

// The flat program of a file and the name of its top task, by its parts.
fn checked(alloc: Global, file: &File, top: &str) -> Result<Program, CheckFault>
    ensures { ScopeAnswers flat_program result (spec.program_faults (file_of file.now) top.now) (spec.program_of (file_of file.now) top.now) }
{
    let tasks = check_items(alloc, &file.items)?;
    let number = task_position(&tasks, top);
    program(alloc, tasks, all_levels(), number)
}

/// The flat program of a file and the name of its top task, which is well formed, or the first rule that is broken.
pub fn check(alloc: Global, file: &File, top: &str) -> Result<Program, CheckFault>
    ensures means { ScopeAnswers flat_program result (spec.program_faults (file_of file.now) top.now) (spec.program_of (file_of file.now) top.now) }
    ensures well_formed { IfOk result IsWellFormed }
{
    checked(alloc, file, top)
}
