// The rules of a leaf task: its parameters, its statements and its count of tick places; and the flat leaf that it means.
ghost use Rattle.std.specs.Prelude.{◌≡◌, [], map};
ghost use Rattle.tapa_syntax.specs.Flat.{flat_leaf, flat_statement};
ghost use Rattle.tapa_syntax.specs.Trees as tree;
ghost use Rattle.check_scope.specs.Answers.{ScopeAnswers};
ghost use Rattle.check_scope.specs.Faults.{doubled};
ghost use Rattle.check_leaf.specs.Leaves as leaf;
ghost use Rattle.check_leaf.specs.Statements as task;
ghost use Rattle.check_leaf.specs.Heads.{head_of};

use crate::frame::Frame;
use crate::statement::statements as check_statements;
use check_scope::{CheckFault, Entity, Names, copied, number_of, over};
use std::alloc::Global;
use tapa_base::{Kind, Place, Text};
use tapa_syntax::{End, Leaf, Name, Parameter, Statement, Stmt, TaskDeclaration, places_in};

/// The most tick places of a task, its end among them.
const MOST_PLACES: u32 = 4096;

/// What the parameters so far are: the frame, the streams and the memories in order, and the variables that hold the
/// scalars.
#[derive(Drop)]
struct Head<'a> {
    frame: Frame<'a>,
    streams: Vec<End>,
    memories: Vec<Kind>,
    scalars: Vec<u32>,
}

impl<'a> Head<'a> {
    fn new(alloc: Global, file: &'a Names) -> Result<Self, CheckFault>
        ensures { ScopeAnswers head_of result [] (leaf.task_begins file.now) }
    {
        Ok(Head {
            frame: Frame::new(alloc, file)?,
            streams: Vec::new(alloc),
            memories: Vec::new(alloc),
            scalars: Vec::new(alloc),
        })
    }

    fn stream(&mut self, writes: bool, kind: Kind, name: &Name) -> Result<(), CheckFault>
        ensures { ScopeAnswers (λ x. head_of self.new) result (doubled self.old.frame.scope name.now) (leaf.with_stream writes kind name.now (head_of self.old)) }
    {
        let number = number_of(self.streams.len())?;
        let entity = Entity::Stream {
            writes,
            kind,
            number,
        };
        self.frame.declare(name, entity)?;
        self.streams.push(End { kind, writes })?;
        Ok(())
    }

    fn memory(&mut self, free: bool, kind: Kind, name: &Name) -> Result<(), CheckFault>
        ensures { ScopeAnswers (λ x. head_of self.new) result (doubled self.old.frame.scope name.now) (leaf.with_memory free kind name.now (head_of self.old)) }
    {
        let number = number_of(self.memories.len())?;
        let entity = Entity::Memory { free, kind, number };
        self.frame.declare(name, entity)?;
        self.memories.push(kind)?;
        Ok(())
    }

    fn scalar(&mut self, free: bool, kind: Kind, name: &Name) -> Result<(), CheckFault>
        ensures { ScopeAnswers (λ x. head_of self.new) result (task.variable_faults self.old.frame name.now) (leaf.with_scalar free kind name.now (head_of self.old)) }
    {
        self.frame.check_variable(name)?;
        let number = self.frame.add_variable(free, kind, name)?;
        self.scalars.push(number)?;
        Ok(())
    }

    fn parameter(&mut self, parameter: &Parameter) -> Result<(), CheckFault>
        ensures { ScopeAnswers (λ x. head_of self.new) result (leaf.parameter_faults (head_of self.old) parameter.now) (leaf.after_parameter (head_of self.old) parameter.now) }
    {
        match parameter {
            Parameter::InputStream(kind, name) => self.stream(false, *kind, name),
            Parameter::OutputStream(kind, name) => self.stream(true, *kind, name),
            Parameter::Memory {
                constant,
                kind,
                name,
            } => self.memory(!*constant, *kind, name),
            Parameter::Scalar {
                constant,
                kind,
                name,
            } => self.scalar(!*constant, *kind, name),
        }
    }

    fn parameters(&mut self, parameters: &[Parameter]) -> Result<(), CheckFault>
        ensures { ScopeAnswers (λ x. head_of self.new) result (leaf.parameters_faults (head_of self.old) parameters.now) (leaf.after_parameters (head_of self.old) parameters.now) }
    {
        for parameter in parameters {
            self.parameter(parameter)?;
        }
        Ok(())
    }
}

/// A task has no more tick places than the limit allows.
fn check_size(code: &[Stmt], end: Place) -> Result<(), CheckFault>
    ensures { ScopeAnswers (λ x. x) result (leaf.size_faults (map flat_statement code.now) end) tt }
{
    if places_in(code) >= u64::from(MOST_PLACES) {
        return Err(over(MOST_PLACES, end));
    }
    Ok(())
}

/// The leaf of a task's parameters and code.
fn made(name: Text, head: Head, code: Vec<Stmt>) -> Leaf
    ensures { flat_leaf result ≡ leaf.leaf_made name (head_of head.entry) (map flat_statement code.items) }
{
    let Head {
        frame,
        streams,
        memories,
        scalars,
    } = head;
    let (vars, arrays) = frame.into_parts();
    Leaf {
        name,
        scalars,
        streams,
        memories,
        vars,
        arrays,
        code,
    }
}

/// A leaf task of a file that has declared these names, and its statements.
pub fn check_leaf(
    alloc: Global,
    file: &Names,
    task: &TaskDeclaration,
    statements: &[Statement],
) -> Result<Leaf, CheckFault>
    ensures { ScopeAnswers flat_leaf result
        (leaf.leaf_faults file.now (tree.task_of task.now) (tree.statements (map tree.statement statements.now)))
        (leaf.leaf_of file.now (tree.task_of task.now) (tree.statements (map tree.statement statements.now))) }
{
    let mut head = Head::new(alloc, file)?;
    head.parameters(&task.parameters)?;
    let mut code = Vec::new(alloc);
    check_statements(&mut head.frame, false, statements, &mut code)?;
    check_size(&code, task.end)?;
    let name = copied(alloc, &task.name.text)?;
    Ok(made(name, head, code))
}
