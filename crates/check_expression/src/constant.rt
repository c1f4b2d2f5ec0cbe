// The values of constant expressions with their kinds, and the rule that a divisor is a constant other than 0.
ghost use Rattle.std.specs.Prelude.{◌≡◌, ◌<◌, ◌%◌, ◌&&◌, IfSome, Some, nat_lt};
ghost use Rattle.tapa_base.specs.Kinds.{values_of};
ghost use Rattle.tapa_base.specs.Operators as operators;
ghost use Rattle.tapa_base.specs.Operators.{bit};
ghost use Rattle.tapa_syntax.specs.declared.tree.BinaryOperator.TheVariants.{LogicalAnd, LogicalOr};
ghost use Rattle.tapa_syntax.specs.Trees as tree;
ghost use Rattle.tapa_syntax.specs.Typed as flat;
ghost use Rattle.check_scope.specs.Answers.{ScopeAnswers};
ghost use Rattle.check_expression.specs.Constants as spec;
ghost use Rattle.check_expression.specs.Constants.{IsWithin};
ghost use Rattle.check_expression.specs.Expressions as meaning;
ghost use Rattle.check_expression.specs.Expressions.{constant_value};
ghost use Rattle.check_scope.specs.Scopes.{IsSound, entity_of};

use crate::kinds::{arm_kind, operated_kind, same_kind};
use crate::typed::{binary_kind, prefix_kind};
use check_scope::{CheckCode, CheckFault, Entity, Scope, refused};
use tapa_base::{Kind, Op, Place, Text, apply, convert};
use tapa_syntax::{BinaryOperator, Expression, PrefixOperator};

/// The value of a constant expression, and its kind.
#[derive(Clone, Copy, PartialEq, Eq, Debug)]
pub struct Constant {
    pub kind: Kind,
    pub value: u64,
}

/// The value as one of another kind: a conversion where the kinds differ.
pub fn converted(constant: Constant, to: Kind) -> u64
    requires { IsWithin constant }
    ensures value { result ≡ constant_value (meaning.as_kind constant.kind to (spec.literal_of constant)) }
    ensures within { result < values_of to }
{
    if same_kind(constant.kind, to) {
        constant.value
    } else {
        convert(constant.kind, to, constant.value)
    }
}

fn cast(constant: Constant, to: Kind) -> Constant
    requires { IsWithin constant }
    ensures value { result ≡ spec.cast to constant }
    ensures within { IsWithin result }
{
    Constant {
        kind: to,
        value: converted(constant, to),
    }
}

/// An operator on two values of the kind in which it is done. A divisor of 0 is refused elsewhere.
fn applied(op: Op, kind: Kind, left: u64, right: u64) -> u64
    requires left { left < values_of kind }
    requires right { right < values_of (flat.right_kind op kind) }
    ensures value { result ≡ operators.applied op kind left right }
    ensures within { result < values_of (flat.result_kind op kind) }
{
    match op {
        Op::Div if right == 0 => 0,
        Op::Rem if right == 0 => left,
        _ => apply(op, kind, left, right),
    }
}

fn operated(op: Op, left: Constant, right: Constant) -> u64
    requires left { IsWithin left }
    requires right { IsWithin right }
    ensures value { result ≡ constant_value (meaning.operated op left.kind right.kind (spec.literal_of left) (spec.literal_of right)) }
    ensures within { result < values_of (flat.result_kind op (meaning.operated_kind op left.kind right.kind)) }
{
    let kind = operated_kind(op, left.kind, right.kind);
    let left = converted(left, kind);
    let right = converted(right, op.right_kind(kind));
    applied(op, kind, left, right)
}

fn both(left: Constant, right: Constant) -> bool
    requires left { IsWithin left }
    requires right { IsWithin right }
    ensures { bit result ≡ constant_value (meaning.binary_value LogicalAnd left.kind right.kind (spec.literal_of left) (spec.literal_of right)) }
{
    0 < converted(left, Kind::Bool) && 0 < converted(right, Kind::Bool)
}

fn either(left: Constant, right: Constant) -> bool
    requires left { IsWithin left }
    requires right { IsWithin right }
    ensures { bit result ≡ constant_value (meaning.binary_value LogicalOr left.kind right.kind (spec.literal_of left) (spec.literal_of right)) }
{
    0 < converted(left, Kind::Bool) || 0 < converted(right, Kind::Bool)
}

fn binary(operator: BinaryOperator, left: Constant, right: Constant) -> Constant
    requires left { IsWithin left }
    requires right { IsWithin right }
    ensures value { result ≡ spec.binary operator left right }
    ensures within { IsWithin result }
{
    let value = match operator {
        BinaryOperator::Value(op) => operated(op, left, right),
        BinaryOperator::LogicalAnd => u64::from(both(left, right)),
        BinaryOperator::LogicalOr => u64::from(either(left, right)),
    };
    Constant {
        kind: binary_kind(operator, left.kind, right.kind),
        value,
    }
}

fn prefixed(operator: PrefixOperator, constant: Constant) -> Constant
    requires { IsWithin constant }
    ensures value { result ≡ spec.prefixed operator constant }
    ensures within { IsWithin result }
{
    let kind = prefix_kind(operator, constant.kind);
    let value = converted(constant, kind);
    let value = match operator {
        PrefixOperator::Negate => applied(Op::Sub, kind, 0, value),
        PrefixOperator::Plus => value,
        PrefixOperator::Complement => kind.flipped(value),
        PrefixOperator::Not => 1 - value,
    };
    Constant { kind, value }
}

fn chosen(test: Constant, first: Constant, second: Constant) -> Constant
    requires test { IsWithin test }
    requires first { IsWithin first }
    requires second { IsWithin second }
    ensures value { result ≡ spec.chosen test first second }
    ensures within { IsWithin result }
{
    let kind = arm_kind(first.kind, second.kind);
    let value = if 0 < converted(test, Kind::Bool) {
        converted(first, kind)
    } else {
        converted(second, kind)
    };
    Constant { kind, value }
}

/// The constant that a name is.
pub(crate) fn of_entity(entity: Entity) -> Option<Constant>
    requires { IsSound entity }
    ensures value { result ≡ spec.of_entity (Some entity) }
    ensures within { IfSome result IsWithin }
{
    match entity {
        Entity::Constant { kind, value } => Some(Constant { kind, value }),
        _ => None,
    }
}

fn named(scope: &Scope, name: &Text) -> Option<Constant>
    ensures value { result ≡ spec.of_entity (entity_of name.now scope.now) }
    ensures within { IfSome result IsWithin }
{
    match scope.entity(name) {
        Some(entity) => of_entity(entity),
        None => None,
    }
}

/// A literal: its value is one of its kind.
pub(crate) fn literal(kind: Kind, number: u64) -> Constant
    ensures value { result ≡ record { kind = kind; value = number % values_of kind } }
    ensures within { IsWithin result }
{
    Constant {
        kind,
        value: kind.low(number),
    }
}

/// The value of an expression of literals, constants of the file, operators and casts alone.
pub fn evaluated(scope: &Scope, value: &Expression) -> Option<Constant>
    ensures value { result ≡ meaning.constant_of scope.now (tree.expression value.now) }
    ensures within { IfSome result IsWithin }
{
    match value {
        Expression::Literal(kind, number) => Some(literal(*kind, *number)),
        Expression::Boolean(value) => Some(literal(Kind::Bool, u64::from(*value))),
        Expression::Variable(name) => named(scope, &name.text),
        Expression::Element(_, _) => None,
        Expression::Call { .. } => None,
        Expression::Nullptr => Some(literal(Kind::U64, 0)),
        Expression::Construct(kind, value) => Some(cast(evaluated(scope, value)?, *kind)),
        Expression::StaticCast(kind, value) => Some(cast(evaluated(scope, value)?, *kind)),
        Expression::Cast(kind, value) => Some(cast(evaluated(scope, value)?, *kind)),
        Expression::Parenthesized(value) => evaluated(scope, value),
        Expression::Prefix(operator, _, value) => Some(prefixed(
            *operator,
            evaluated(scope, value)?,
        )),
        Expression::Binary(operator, _, left, right) => {
            let left = evaluated(scope, left)?;
            let right = evaluated(scope, right)?;
            Some(binary(*operator, left, right))
        }
        Expression::Conditional(_, test, first, second) => {
            let test = evaluated(scope, test)?;
            let first = evaluated(scope, first)?;
            let second = evaluated(scope, second)?;
            Some(chosen(test, first, second))
        }
    }
}

fn is_divisor(scope: &Scope, value: &Expression) -> bool
    ensures { result ≡ (meaning.is_constant scope.now (tree.expression value.now) && nat_lt 0 (constant_value (meaning.value_of scope.now (tree.expression value.now)))) }
{
    match evaluated(scope, value) {
        Some(constant) => 0 < constant.value,
        None => false,
    }
}

/// A divisor is a constant other than 0; `divides` says whether the operator before it divides.
pub fn check_divisor(
    scope: &Scope,
    divides: bool,
    place: Place,
    value: &Expression,
) -> Result<(), CheckFault>
    ensures { ScopeAnswers (λ x. x) result (meaning.divisor_faults scope.now divides place (tree.expression value.now)) tt }
{
    if divides && !is_divisor(scope, value) {
        return Err(refused(CheckCode::C9, place));
    }
    Ok(())
}
