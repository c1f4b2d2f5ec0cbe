// The rules of actions, and their flat code: calls of stream methods, writes, reads, assignments, increments and decrements.
ghost use Rattle.std.specs.Prelude.{List, ◌≡◌, ◌++◌, ◌∷◌, [], false, map};
ghost use Rattle.std.specs.List.{flat_map};
ghost use Rattle.tapa_syntax.specs.Flat as flat;
ghost use Rattle.tapa_syntax.specs.Flat.{flat_statement};
ghost use Rattle.tapa_syntax.specs.Trees as tree;
ghost use Rattle.check_scope.specs.declared.fault.Broken.{Broken};
ghost use Rattle.check_scope.specs.Answers.{ScopeAnswers};
ghost use Rattle.check_expression.specs.Expressions.{faults_of, wanted, kind_of, value_of, divisor_faults};
ghost use Rattle.check_leaf.specs.Statements as task;
ghost use Rattle.check_leaf.specs.Views.{Appends};

use crate::call::called;
use crate::target::{assigned, check_target, read_into, stepped};
use check_expression::{
    check_divisor, check_expression, check_wanted, entity_kind, entity_number, method_of,
};
use check_scope::{CheckFault, Role, Scope};
use std::alloc::Global;
use tapa_base::{Kind, Op, Place};
use tapa_syntax::{Action, AssignmentOperator, Expression, PlaceExpression, StepOperator, Stmt};

/// Values that are written, in order.
fn written(
    alloc: Global,
    scope: &Scope,
    kind: Kind,
    stream: u32,
    values: &[Expression],
    code: &mut Vec<Stmt>,
) -> Result<(), CheckFault>
    ensures { Appends result code.old.items code.new.items
        (flat_map (faults_of scope.now false) (map tree.expression values.now))
        (map (λ e. flat.write stream (wanted scope.now kind e)) (map tree.expression values.now)) }
{
    for value in values {
        let value = check_wanted(alloc, scope, kind, value)?;
        code.push(Stmt::Write(stream, value))?;
    }
    Ok(())
}

/// Tokens that are read, in order.
fn read(
    alloc: Global,
    scope: &Scope,
    stream: u32,
    places: &[PlaceExpression],
    code: &mut Vec<Stmt>,
) -> Result<(), CheckFault>
    ensures { Appends result code.old.items code.new.items
        (flat_map (task.place_faults scope.now) (map tree.place_expression_of places.now))
        (map (λ p. task.read_target stream (task.target_of scope.now p)) (map tree.place_expression_of places.now)) }
{
    for place in places {
        let target = check_target(alloc, scope, false, place)?;
        code.push(read_into(stream, target))?;
    }
    Ok(())
}

fn divides(operator: AssignmentOperator) -> bool
    ensures { result ≡ task.assignment_divides operator }
{
    match operator {
        AssignmentOperator::Compound(Op::Div) => true,
        AssignmentOperator::Compound(Op::Rem) => true,
        _ => false,
    }
}

fn assignment(
    alloc: Global,
    scope: &Scope,
    target: &PlaceExpression,
    operator: AssignmentOperator,
    place: Place,
    value: &Expression,
) -> Result<Stmt, CheckFault>
    ensures { ScopeAnswers flat_statement result
        (task.place_faults scope.now (tree.place_expression_of target.now) ++ divisor_faults scope.now (task.assignment_divides operator) place
        (tree.expression value.now) ++ faults_of scope.now false (tree.expression value.now))
        (task.assigned (task.target_of scope.now (tree.place_expression_of target.now)) operator (kind_of scope.now (tree.expression value.now)) (value_of scope.now (tree.expression value.now))) }
{
    let target = check_target(alloc, scope, false, target)?;
    check_divisor(scope, divides(operator), place, value)?;
    let value = check_expression(alloc, scope, false, value)?;
    assigned(alloc, target, operator, value)
}

fn step(
    alloc: Global,
    scope: &Scope,
    step: StepOperator,
    target: &PlaceExpression,
) -> Result<Stmt, CheckFault>
    ensures { ScopeAnswers flat_statement result (task.step_faults scope.now step (tree.place_expression_of target.now))
        (task.stepped (task.target_of scope.now (tree.place_expression_of target.now)) step) }
{
    let increment = step == StepOperator::Increment;
    let target = check_target(alloc, scope, increment, target)?;
    stepped(alloc, target, step)
}

/// One statement more, if it is a legal one.
fn push(statement: Result<Stmt, CheckFault>, code: &mut Vec<Stmt>) -> Result<(), CheckFault>
    ensures { (faults : List Broken) (meaning : flat.FlatStatement) → ScopeAnswers flat_statement statement faults meaning → Appends result code.old.items code.new.items faults (meaning ∷ []) }
{
    code.push(statement?)?;
    Ok(())
}

/// An action.
pub(crate) fn action(
    alloc: Global,
    scope: &Scope,
    done: &Action,
    code: &mut Vec<Stmt>,
) -> Result<(), CheckFault>
    ensures { Appends result code.old.items code.new.items (task.action_faults scope.now (tree.action_of done.now)) (task.action_code scope.now (tree.action_of done.now)) }
{
    match done {
        Action::Call {
            stream,
            method,
            arguments,
        } => {
            let known = method_of(&method.text, arguments);
            push(called(alloc, scope, stream, method, known), code)
        }
        Action::Write(stream, values) => {
            let entity = scope.named(Role::Output, stream)?;
            written(
                alloc,
                scope,
                entity_kind(entity),
                entity_number(entity),
                values,
                code,
            )
        }
        Action::Read(stream, places) => {
            let entity = scope.named(Role::Input, stream)?;
            read(alloc, scope, entity_number(entity), places, code)
        }
        Action::Assign {
            target,
            operator,
            place,
            value,
        } => push(
            assignment(alloc, scope, target, *operator, *place, value),
            code,
        ),
        Action::Postfix {
            target,
            step: operator,
            ..
        } => push(step(alloc, scope, *operator, target), code),
        Action::Prefix {
            step: operator,
            target,
            ..
        } => push(step(alloc, scope, *operator, target), code),
    }
}
