//! The items of a file.
ghost use Rattle.std.specs.Prelude.{◌≡◌, map};
ghost use Rattle.tapa_syntax.specs.Trees as tree;
ghost use Rattle.check_scope.specs.Answers.{ScopeAnswers};
ghost use Rattle.stream_check.specs.Items as items;
ghost use Rattle.check_upper.specs.Views.{body_view, task_view};
ghost use Rattle.stream_check.specs.Views.{items_view};

use check_expression::check_constant;
use check_leaf::check_leaf;
use check_scope::{CheckFault, Entity, Names, number_of};
use check_upper::{Body, Task, check_upper};
use std::alloc::Global;
use tapa_syntax::{FileItem, TaskBody, TaskDeclaration};

fn check_body(
    alloc: Global,
    file: &Names,
    tasks: &[Task],
    task: &TaskDeclaration,
) -> Result<Body, CheckFault>
    ensures { ScopeAnswers body_view result
        (items.body_faults file.now (map task_view tasks.now) (tree.task_of task.now) (tree.body_of task.now.body))
        (items.body_of file.now (map task_view tasks.now) (tree.task_of task.now) (tree.body_of task.now.body)) }
{
    match &task.body {
        TaskBody::Leaf(statements) => Ok(Body::Leaf(check_leaf(alloc, file, task, statements)?)),
        TaskBody::Upper {
            streams,
            invocations,
        } => check_upper(alloc, file, tasks, task, streams, invocations),
    }
}

/// A task, whose name is declared from its own body on.
fn check_task<'a>(
    alloc: Global,
    file: &mut Names,
    tasks: &mut Vec<Task<'a>>,
    task: &'a TaskDeclaration,
) -> Result<(), CheckFault>
    ensures { ScopeAnswers (λ x. items_view file.new tasks.new.items) result (items.task_faults (items_view file.old tasks.old.items) (tree.task_of task.now))
        (items.after_task (items_view file.old tasks.old.items) (tree.task_of task.now)) }
{
    let number = number_of(tasks.len())?;
    file.declare(alloc, &task.name, Entity::Task { number })?;
    let body = check_body(alloc, file, tasks, task)?;
    tasks.push(Task {
        declared: task,
        body,
    })?;
    Ok(())
}

fn check_item<'a>(
    alloc: Global,
    file: &mut Names,
    tasks: &mut Vec<Task<'a>>,
    item: &'a FileItem,
) -> Result<(), CheckFault>
    ensures { ScopeAnswers (λ x. items_view file.new tasks.new.items) result (items.item_faults (items_view file.old tasks.old.items) (tree.item_of item.now))
        (items.after_item (items_view file.old tasks.old.items) (tree.item_of item.now)) }
{
    match item {
        FileItem::Constant {
            kind,
            name,
            value,
            ..
        } => {
            let value = check_constant(alloc, file, *kind, name, value)?;
            file.declare(alloc, name, Entity::Constant { kind: *kind, value })
        }
        FileItem::Task(task) => check_task(alloc, file, tasks, task),
    }
}

/// The tasks of a file, or the first rule of its items that is broken.
pub(crate) fn check_items(alloc: Global, file: &[FileItem]) -> Result<Vec<Task<'_>>, CheckFault>
    ensures { ScopeAnswers (λ tasks. map task_view tasks.items) result (items.items_faults items.no_items (map tree.item_of file.now)) (items.tasks_of (map tree.item_of file.now)) }
{
    let mut names = Names::new(alloc);
    let mut tasks = Vec::new(alloc);
    for item in file {
        check_item(alloc, &mut names, &mut tasks, item)?;
    }
    Ok(tasks)
}
