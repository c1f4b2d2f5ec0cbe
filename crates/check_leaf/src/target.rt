// The targets of assignments, increments and reads: variables, cells of arrays and words of memories, and the code that sets them.
ghost use Rattle.std.specs.Prelude.{◌≡◌, ◌++◌, ◌&&◌, [], Some};
ghost use Rattle.tapa_syntax.specs.Flat.{flat_expression, flat_statement};
ghost use Rattle.tapa_syntax.specs.Trees as tree;
ghost use Rattle.check_scope.specs.Answers.{ScopeAnswers};
ghost use Rattle.check_scope.specs.declared.fault.CheckCode.TheVariants.{C3};
ghost use Rattle.check_scope.specs.Faults as faults;
ghost use Rattle.check_scope.specs.Roles.{fits};
ghost use Rattle.check_scope.specs.Scopes.{kind_of_entity, entity_of};
ghost use Rattle.check_leaf.specs.Statements as task;
ghost use Rattle.check_leaf.specs.Views.{flat_target};

use check_expression::{
    Typed, as_kind, binary_kind, check_wanted, entity_kind, entity_number, operated, operated_kind,
};
use check_scope::{CheckCode, CheckFault, Entity, Role, Scope, refused};
use std::alloc::Global;
use tapa_base::{Kind, Op};
use tapa_syntax::{
    AssignmentOperator, BinaryOperator, Expr, Name, PlaceExpression, StepOperator, Stmt,
};

/// What is assigned, with its kind and its number, and for a cell of an array or a word of a memory its index.
#[derive(Drop)]
pub(crate) enum Target {
    Variable(Kind, u32),
    Cell(Kind, u32, Expr),
    Word(Kind, u32, Expr),
}

/// Returns the declaration of a name that is assigned or incremented. The name must be assignable, and a `bool` cannot be incremented (ISO C++ [expr.pre.incr]).
fn assigned_entity(
    scope: &Scope,
    role: Role,
    increment: bool,
    name: &Name,
) -> Result<Entity, CheckFault>
    ensures { ScopeAnswers (λ entity. Some entity) result
        (faults.name_faults scope.now (fits role) name.now ++ faults.where_so (increment && task.is_bool (kind_of_entity (entity_of name.now.text scope.now))) (faults.fault C3 name.now.place))
        (entity_of name.now.text scope.now) }
{
    let entity = scope.named(role, name)?;
    if increment && is_bool(entity_kind(entity)) {
        return Err(refused(CheckCode::C3, name.place));
    }
    Ok(entity)
}

fn is_bool(kind: Kind) -> bool
    ensures { result ≡ task.is_bool kind }
{
    matches!(kind, Kind::Bool)
}

fn element(entity: Entity, index: Expr) -> Target
    ensures { flat_target result ≡ task.element_target (Some entity) (flat_expression index) }
{
    match entity {
        Entity::Memory { kind, number, .. } => Target::Word(kind, number, index),
        _ => Target::Cell(entity_kind(entity), entity_number(entity), index),
    }
}

/// What is assigned, or incremented.
pub(crate) fn check_target(
    alloc: Global,
    scope: &Scope,
    increment: bool,
    place: &PlaceExpression,
) -> Result<Target, CheckFault>
    ensures { ScopeAnswers flat_target result (task.changed_faults scope.now increment (tree.place_expression_of place.now)) (task.target_of scope.now (tree.place_expression_of place.now)) }
{
    match place {
        PlaceExpression::Variable(name) => {
            let entity = assigned_entity(scope, Role::FreeVariable, increment, name)?;
            Ok(Target::Variable(entity_kind(entity), entity_number(entity)))
        }
        PlaceExpression::Element(name, index) => {
            let entity = assigned_entity(scope, Role::FreeCells, increment, name)?;
            let index = check_wanted(alloc, scope, Kind::U64, index)?;
            Ok(element(entity, index))
        }
    }
}

/// An assignment.
fn set_target(alloc: Global, target: Target, value: Typed) -> Result<Stmt, CheckFault>
    ensures { ScopeAnswers flat_statement result [] (task.set_target (flat_target target) value.kind (flat_expression value.value)) }
{
    match target {
        Target::Variable(kind, number) => Ok(Stmt::Set(number, as_kind(alloc, value, kind)?)),
        Target::Cell(kind, number, index) => Ok(Stmt::SetCell {
            array: number,
            index,
            value: as_kind(alloc, value, kind)?,
        }),
        Target::Word(kind, number, index) => Ok(Stmt::Store {
            memory: number,
            index,
            value: as_kind(alloc, value, kind)?,
        }),
    }
}

/// An operator on a variable, whose result is converted to the variable's kind.
fn change_variable(
    alloc: Global,
    kind: Kind,
    number: u32,
    op: Op,
    value: Typed,
) -> Result<Stmt, CheckFault>
    ensures { ScopeAnswers flat_statement result [] (task.change_target (task.in_variable kind number) op value.kind (flat_expression value.value)) }
{
    let before = Typed {
        value: Expr::Var(number),
        kind,
    };
    let result_kind = binary_kind(BinaryOperator::Value(op), kind, value.kind);
    let changed = Typed {
        value: operated(alloc, op, before, value)?,
        kind: result_kind,
    };
    Ok(Stmt::Set(number, as_kind(alloc, changed, kind)?))
}

/// An assignment with an operator (ISO C++ [expr.ass]).
fn change_target(alloc: Global, target: Target, op: Op, value: Typed) -> Result<Stmt, CheckFault>
    ensures { ScopeAnswers flat_statement result [] (task.change_target (flat_target target) op value.kind (flat_expression value.value)) }
{
    match target {
        Target::Variable(kind, number) => change_variable(alloc, kind, number, op, value),
        Target::Cell(kind, number, index) => {
            let kind = operated_kind(op, kind, value.kind);
            Ok(Stmt::SetCellBy {
                array: number,
                index,
                op,
                kind,
                value: as_kind(alloc, value, op.right_kind(kind))?,
            })
        }
        Target::Word(kind, number, index) => {
            let kind = operated_kind(op, kind, value.kind);
            Ok(Stmt::StoreBy {
                memory: number,
                index,
                op,
                kind,
                value: as_kind(alloc, value, op.right_kind(kind))?,
            })
        }
    }
}

/// An assignment.
pub(crate) fn assigned(
    alloc: Global,
    target: Target,
    operator: AssignmentOperator,
    value: Typed,
) -> Result<Stmt, CheckFault>
    ensures { ScopeAnswers flat_statement result [] (task.assigned (flat_target target) operator value.kind (flat_expression value.value)) }
{
    match operator {
        AssignmentOperator::Plain => set_target(alloc, target, value),
        AssignmentOperator::Compound(op) => change_target(alloc, target, op, value),
    }
}

fn target_kind(target: &Target) -> Kind
    ensures { result ≡ task.kind_of_target (flat_target target.now) }
{
    match target {
        Target::Variable(kind, _) => *kind,
        Target::Cell(kind, _, _) => *kind,
        Target::Word(kind, _, _) => *kind,
    }
}

/// `++` or `--`.
pub(crate) fn stepped(alloc: Global, target: Target, step: StepOperator) -> Result<Stmt, CheckFault>
    ensures { ScopeAnswers flat_statement result [] (task.stepped (flat_target target) step) }
{
    let kind = target_kind(&target).promoted();
    let one = Typed {
        value: Expr::Lit(kind, 1),
        kind,
    };
    let op = match step {
        StepOperator::Increment => Op::Add,
        StepOperator::Decrement => Op::Sub,
    };
    change_target(alloc, target, op, one)
}

/// A token that is read into a target.
pub(crate) fn read_into(stream: u32, target: Target) -> Stmt
    ensures { flat_statement result ≡ task.read_target stream (flat_target target) }
{
    match target {
        Target::Variable(_, var) => Stmt::ReadVar { stream, var },
        Target::Cell(_, array, index) => Stmt::ReadCell {
            stream,
            array,
            index,
        },
        Target::Word(_, memory, index) => Stmt::ReadStore {
            stream,
            memory,
            index,
        },
    }
}
