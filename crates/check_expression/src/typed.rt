// Flat expressions with their kinds: conversions, operators, choices, and the values of names, cells of arrays and words of memories.
ghost use Rattle.std.specs.Prelude.{◌≡◌, [], Some};
ghost use Rattle.tapa_base.specs.declared.kind.Kind.TheVariants as kind;
ghost use Rattle.tapa_base.specs.declared.op.Op.TheVariants as op;
ghost use Rattle.tapa_syntax.specs.declared.tree.BinaryOperator.TheVariants.{LogicalAnd, LogicalOr};
ghost use Rattle.tapa_syntax.specs.Flat as flat;
ghost use Rattle.tapa_syntax.specs.Flat.{flat_expression};
ghost use Rattle.check_scope.specs.Answers.{ScopeAnswers};
ghost use Rattle.check_expression.specs.Expressions as meaning;
ghost use Rattle.check_scope.specs.Scopes.{kind_of_entity, number_of};

use crate::kinds::{arm_kind, operated_kind, same_kind};
use check_scope::{CheckFault, Entity};
use std::alloc::Global;
use tapa_base::{Kind, Op};
use tapa_syntax::{BinaryOperator, Expr, PrefixOperator};

/// An expression of the flat program, and its kind.
#[derive(Drop)]
pub struct Typed {
    pub value: Expr,
    pub kind: Kind,
}

/// A value where one of a kind is wanted: with a conversion where the kinds differ.
pub fn as_kind(alloc: Global, value: Typed, to: Kind) -> Result<Expr, CheckFault>
    ensures { ScopeAnswers flat_expression result [] (meaning.as_kind value.kind to (flat_expression value.value)) }
{
    let Typed { value, kind } = value;
    if same_kind(kind, to) {
        return Ok(value);
    }
    Ok(Expr::Conv {
        from: kind,
        to,
        value: Box::new(alloc, value)?,
    })
}

/// A conversion that the source names.
pub(crate) fn cast(alloc: Global, to: Kind, value: Typed) -> Result<Typed, CheckFault>
    ensures { ScopeAnswers meaning.typed result [] (record { value = meaning.as_kind value.kind to (flat_expression value.value); kind = to }) }
{
    let value = as_kind(alloc, value, to)?;
    Ok(Typed { value, kind: to })
}

/// An operator on two values, which are converted to the kind in which it is done.
pub fn operated(alloc: Global, op: Op, left: Typed, right: Typed) -> Result<Expr, CheckFault>
    ensures { ScopeAnswers flat_expression result [] (meaning.operated op left.kind right.kind (flat_expression left.value) (flat_expression right.value)) }
{
    let kind = operated_kind(op, left.kind, right.kind);
    let left = as_kind(alloc, left, kind)?;
    let right = as_kind(alloc, right, op.right_kind(kind))?;
    Ok(Expr::Apply {
        op,
        kind,
        left: Box::new(alloc, left)?,
        right: Box::new(alloc, right)?,
    })
}

fn conjunction(alloc: Global, left: Typed, right: Typed) -> Result<Expr, CheckFault>
    ensures { ScopeAnswers flat_expression result [] (meaning.binary_value LogicalAnd left.kind right.kind (flat_expression left.value) (flat_expression right.value)) }
{
    let left = as_kind(alloc, left, Kind::Bool)?;
    let right = as_kind(alloc, right, Kind::Bool)?;
    Ok(Expr::And(Box::new(alloc, left)?, Box::new(alloc, right)?))
}

fn disjunction(alloc: Global, left: Typed, right: Typed) -> Result<Expr, CheckFault>
    ensures { ScopeAnswers flat_expression result [] (meaning.binary_value LogicalOr left.kind right.kind (flat_expression left.value) (flat_expression right.value)) }
{
    let left = as_kind(alloc, left, Kind::Bool)?;
    let right = as_kind(alloc, right, Kind::Bool)?;
    Ok(Expr::Or(Box::new(alloc, left)?, Box::new(alloc, right)?))
}

/// The kind of what an operator gives.
pub fn binary_kind(operator: BinaryOperator, left: Kind, right: Kind) -> Kind
    ensures { result ≡ meaning.binary_kind operator left right }
{
    match operator {
        BinaryOperator::Value(op) if op.is_comparison() => Kind::Bool,
        BinaryOperator::Value(op) => operated_kind(op, left, right),
        BinaryOperator::LogicalAnd => Kind::Bool,
        BinaryOperator::LogicalOr => Kind::Bool,
    }
}

/// An operator of two operands.
pub(crate) fn binary(
    alloc: Global,
    operator: BinaryOperator,
    left: Typed,
    right: Typed,
) -> Result<Typed, CheckFault>
    ensures { ScopeAnswers meaning.typed result [] (record {
      value = meaning.binary_value operator left.kind right.kind (flat_expression left.value) (flat_expression right.value);
      kind = meaning.binary_kind operator left.kind right.kind;
    }) }
{
    let kind = binary_kind(operator, left.kind, right.kind);
    let value = match operator {
        BinaryOperator::Value(op) => operated(alloc, op, left, right)?,
        BinaryOperator::LogicalAnd => conjunction(alloc, left, right)?,
        BinaryOperator::LogicalOr => disjunction(alloc, left, right)?,
    };
    Ok(Typed { value, kind })
}

fn negated(alloc: Global, kind: Kind, value: Expr) -> Result<Expr, CheckFault>
    ensures { ScopeAnswers flat_expression result [] (flat.apply op.Sub kind (flat.literal kind 0) (flat_expression value)) }
{
    Ok(Expr::Apply {
        op: Op::Sub,
        kind,
        left: Box::new(alloc, Expr::Lit(kind, 0))?,
        right: Box::new(alloc, value)?,
    })
}

/// The kind of what a prefix operator gives.
pub(crate) fn prefix_kind(operator: PrefixOperator, kind: Kind) -> Kind
    ensures { result ≡ meaning.prefix_kind operator kind }
{
    match operator {
        PrefixOperator::Not => Kind::Bool,
        _ => kind.promoted(),
    }
}

/// A prefix operator.
pub(crate) fn prefixed(
    alloc: Global,
    operator: PrefixOperator,
    value: Typed,
) -> Result<Typed, CheckFault>
    ensures { ScopeAnswers meaning.typed result [] (record {
      value = meaning.prefix_value operator value.kind (flat_expression value.value);
      kind = meaning.prefix_kind operator value.kind;
    }) }
{
    let kind = prefix_kind(operator, value.kind);
    let value = as_kind(alloc, value, kind)?;
    let value = match operator {
        PrefixOperator::Negate => negated(alloc, kind, value)?,
        PrefixOperator::Plus => value,
        PrefixOperator::Complement => Expr::Flip(kind, Box::new(alloc, value)?),
        PrefixOperator::Not => Expr::Not(Box::new(alloc, value)?),
    };
    Ok(Typed { value, kind })
}

/// A choice by a test.
pub(crate) fn chosen(
    alloc: Global,
    test: Typed,
    first: Typed,
    second: Typed,
) -> Result<Typed, CheckFault>
    ensures { ScopeAnswers meaning.typed result [] (record {
      value = flat.choice (meaning.as_kind test.kind kind.Bool (flat_expression test.value))
          (meaning.as_kind first.kind (meaning.arm_kind first.kind second.kind) (flat_expression first.value))
          (meaning.as_kind second.kind (meaning.arm_kind first.kind second.kind) (flat_expression second.value));
      kind = meaning.arm_kind first.kind second.kind;
    }) }
{
    let kind = arm_kind(first.kind, second.kind);
    let test = as_kind(alloc, test, Kind::Bool)?;
    let first = as_kind(alloc, first, kind)?;
    let second = as_kind(alloc, second, kind)?;
    let value = Expr::Choose(
        Box::new(alloc, test)?,
        Box::new(alloc, first)?,
        Box::new(alloc, second)?,
    );
    Ok(Typed { value, kind })
}

/// The kind of a value of an entity, or of its cells or data.
pub fn entity_kind(entity: Entity) -> Kind
    ensures { result ≡ kind_of_entity (Some entity) }
{
    match entity {
        Entity::Constant { kind, .. } => kind,
        Entity::Variable { kind, .. } => kind,
        Entity::Array { kind, .. } => kind,
        Entity::Memory { kind, .. } => kind,
        Entity::Stream { kind, .. } => kind,
        Entity::Channel { kind, .. } => kind,
        Entity::Task { .. } => Kind::U64,
    }
}

/// The number or position of an entity.
pub fn entity_number(entity: Entity) -> u32
    ensures { result ≡ number_of (Some entity) }
{
    match entity {
        Entity::Variable { number, .. } => number,
        Entity::Array { number, .. } => number,
        Entity::Memory { number, .. } => number,
        Entity::Stream { number, .. } => number,
        Entity::Channel { number, .. } => number,
        Entity::Constant { .. } => 0,
        Entity::Task { number } => number,
    }
}

/// The value of a name.
pub(crate) fn named_value(entity: Entity) -> Typed
    ensures { meaning.typed result ≡ record { value = meaning.named_value (Some entity); kind = kind_of_entity (Some entity) } }
{
    let value = match entity {
        Entity::Constant { kind, value } => Expr::Lit(kind, value),
        _ => Expr::Var(entity_number(entity)),
    };
    Typed {
        value,
        kind: entity_kind(entity),
    }
}

/// A cell of an array, or a word of a memory.
pub(crate) fn element(alloc: Global, entity: Entity, index: Typed) -> Result<Typed, CheckFault>
    ensures { ScopeAnswers meaning.typed result [] (record {
      value = meaning.cell_value (Some entity) (meaning.as_kind index.kind kind.U64 (flat_expression index.value));
      kind = kind_of_entity (Some entity);
    }) }
{
    let index = as_kind(alloc, index, Kind::U64)?;
    let index = Box::new(alloc, index)?;
    let value = match entity {
        Entity::Memory { number, .. } => Expr::Load(number, index),
        _ => Expr::Cell(entity_number(entity), index),
    };
    Ok(Typed {
        value,
        kind: entity_kind(entity),
    })
}
