// The rules of expressions, and the flat expression with its kind that each means.
ghost use Rattle.std.specs.Prelude.{◌≡◌, ◌++◌, ◌%◌, ◌&&◌, Some, false};
ghost use Rattle.tapa_base.specs.Kinds.{values_of};
ghost use Rattle.tapa_syntax.specs.Flat.{flat_expression, literal};
ghost use Rattle.tapa_syntax.specs.Trees as tree;
ghost use Rattle.check_scope.specs.Answers.{ScopeAnswers};
ghost use Rattle.check_expression.specs.Expressions as meaning;
ghost use Rattle.check_scope.specs.Scopes.{entity_of, has_cells, is_memory};
ghost use Rattle.check_scope.specs.declared.fault.CheckCode.TheVariants.{C8};
ghost use Rattle.check_scope.specs.Faults as faults;
ghost use Rattle.check_expression.specs.Methods as methods;

use crate::constant::{check_divisor, literal};
use crate::method::{StreamCall, StreamMethod, check_call, gives_value, method_of};
use crate::typed::{Typed, as_kind, binary, cast, chosen, element, named_value, prefixed};
use check_scope::{CheckCode, CheckFault, Entity, Role, Scope, refused};
use std::alloc::Global;
use tapa_base::{Kind, Op};
use tapa_syntax::{BinaryOperator, Expr, Expression, Name};

pub(crate) fn divides(operator: BinaryOperator) -> bool
    ensures { result ≡ meaning.divides operator }
{
    match operator {
        BinaryOperator::Value(Op::Div) => true,
        BinaryOperator::Value(Op::Rem) => true,
        _ => false,
    }
}

fn is_logical(operator: BinaryOperator) -> bool
    ensures { result ≡ meaning.is_logical operator }
{
    match operator {
        BinaryOperator::Value(_) => false,
        BinaryOperator::LogicalAnd => true,
        BinaryOperator::LogicalOr => true,
    }
}

fn literal_value(kind: Kind, number: u64) -> Typed
    ensures { meaning.typed result ≡ record { value = literal kind (number % values_of kind); kind = kind } }
{
    let constant = literal(kind, number);
    Typed {
        value: Expr::Lit(kind, constant.value),
        kind,
    }
}

/// A name of something that has cells. Where it is evaluated conditionally it is no memory.
fn cells(scope: &Scope, conditional: bool, name: &Name) -> Result<Entity, CheckFault>
    ensures { ScopeAnswers (λ entity. Some entity) result
        (faults.name_faults scope.now has_cells name.now ++ faults.where_so (conditional && is_memory (entity_of name.now.text scope.now)) (faults.fault C8 name.now.place))
        (entity_of name.now.text scope.now) }
{
    let entity = scope.named(Role::Cells, name)?;
    match entity {
        Entity::Memory { .. } if conditional => Err(refused(CheckCode::C8, name.place)),
        _ => Ok(entity),
    }
}

/// What a call that gives a value is.
fn called_value(call: StreamCall) -> Typed
    ensures { meaning.typed result ≡ record {
      value = meaning.called_value call.entry.stream (Some (methods.method call.entry.method));
      kind = meaning.call_kind call.entry.kind (Some (methods.method call.entry.method));
    } }
{
    match call.method {
        StreamMethod::Peek => Typed {
            value: Expr::Peek(call.stream),
            kind: call.kind,
        },
        StreamMethod::Eot => Typed {
            value: Expr::Eot(call.stream),
            kind: Kind::Bool,
        },
        _ => Typed {
            value: Expr::Read(call.stream),
            kind: call.kind,
        },
    }
}

/// A call of a stream's method as an operand.
fn called<'a>(
    scope: &Scope,
    conditional: bool,
    stream: &Name,
    name: &Name,
    method: Option<StreamMethod<'a>>,
) -> Result<Typed, CheckFault>
    ensures { ScopeAnswers meaning.typed result
        (meaning.operand_faults (entity_of stream.now.text scope.now) conditional (methods.method_view method.entry) stream.now name.now)
        (meaning.operand (entity_of stream.now.text scope.now) (methods.method_view method.entry)) }
{
    let call = check_call(scope, stream, name, method)?;
    if !gives_value(call.method) {
        return Err(refused(CheckCode::C3, name.place));
    }
    if conditional {
        return Err(refused(CheckCode::C8, name.place));
    }
    Ok(called_value(call))
}

/// An expression. One that is evaluated conditionally has no operation on a stream or memory.
pub fn check_expression(
    alloc: Global,
    scope: &Scope,
    conditional: bool,
    value: &Expression,
) -> Result<Typed, CheckFault>
    ensures { ScopeAnswers meaning.typed result (meaning.faults_of scope.now conditional (tree.expression value.now)) (meaning.meaning_of scope.now (tree.expression value.now)) }
{
    match value {
        Expression::Literal(kind, number) => Ok(literal_value(*kind, *number)),
        Expression::Boolean(value) => Ok(literal_value(Kind::Bool, u64::from(*value))),
        Expression::Variable(name) => Ok(named_value(scope.named(Role::Scalar, name)?)),
        Expression::Element(name, index) => {
            let entity = cells(scope, conditional, name)?;
            element(
                alloc,
                entity,
                check_expression(alloc, scope, conditional, index)?,
            )
        }
        Expression::Call {
            stream,
            method,
            arguments,
        } => called(
            scope,
            conditional,
            stream,
            method,
            method_of(&method.text, arguments),
        ),
        Expression::Nullptr => Ok(literal_value(Kind::U64, 0)),
        Expression::Construct(kind, value)
        | Expression::StaticCast(kind, value)
        | Expression::Cast(kind, value) => {
            let value = check_expression(alloc, scope, conditional, value)?;
            cast(alloc, *kind, value)
        }
        Expression::Parenthesized(value) => check_expression(alloc, scope, conditional, value),
        Expression::Prefix(operator, _, value) => {
            prefixed(
                alloc,
                *operator,
                check_expression(alloc, scope, conditional, value)?,
            )
        }
        Expression::Binary(operator, place, left, right) => {
            let left = check_expression(alloc, scope, conditional, left)?;
            check_divisor(scope, divides(*operator), *place, right)?;
            let right = check_expression(
                alloc,
                scope,
                conditional || is_logical(*operator),
                right,
            )?;
            binary(alloc, *operator, left, right)
        }
        Expression::Conditional(_, test, first, second) => {
            let test = check_expression(alloc, scope, conditional, test)?;
            let first = check_expression(alloc, scope, true, first)?;
            let second = check_expression(alloc, scope, true, second)?;
            chosen(alloc, test, first, second)
        }
    }
}

/// An expression where a value of a kind is wanted.
pub fn check_wanted(
    alloc: Global,
    scope: &Scope,
    kind: Kind,
    value: &Expression,
) -> Result<Expr, CheckFault>
    ensures { ScopeAnswers flat_expression result (meaning.faults_of scope.now false (tree.expression value.now)) (meaning.wanted scope.now kind (tree.expression value.now)) }
{
    let value = check_expression(alloc, scope, false, value)?;
    as_kind(alloc, value, kind)
}
