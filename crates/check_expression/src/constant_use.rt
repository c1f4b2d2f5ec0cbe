// The rules where a constant is wanted: of the names and divisors in its expression, and of a constant that a file declares.
ghost use Rattle.std.specs.Prelude.{◌∷◌, ◌++◌, ◌<◌, [], IfOk, Some};
ghost use Rattle.tapa_base.specs.Kinds.{values_of};
ghost use Rattle.tapa_syntax.specs.Trees as tree;
ghost use Rattle.check_scope.specs.Answers.{ScopeAnswers};
ghost use Rattle.check_expression.specs.Constants.{IsWithin, known_of, of_entity};
ghost use Rattle.check_expression.specs.Expressions as meaning;
ghost use Rattle.check_scope.specs.Faults.{doubled, name_faults};
ghost use Rattle.check_scope.specs.Roles.{fits};
ghost use Rattle.check_scope.specs.Scopes.{is_constant, entity_of};

use crate::constant::{Constant, check_divisor, converted, evaluated, of_entity};
use crate::expression::divides;
use check_scope::{CheckFault, Names, Role, Scope};
use std::alloc::Global;
use tapa_base::Kind;
use tapa_syntax::{Expression, Name};

fn check_name(scope: &Scope, role: Role, name: &Name) -> Result<(), CheckFault>
    ensures { ScopeAnswers (λ x. x) result (name_faults scope.now (fits role) name.now) tt }
{
    scope.named(role, name)?;
    Ok(())
}

/// The names of a constant expression are those of constants, and its divisors are not 0.
fn check_names(scope: &Scope, value: &Expression) -> Result<(), CheckFault>
    ensures { ScopeAnswers (λ x. x) result (meaning.constant_faults scope.now (tree.expression value.now)) tt }
{
    match value {
        Expression::Literal(_, _) => Ok(()),
        Expression::Boolean(_) => Ok(()),
        Expression::Nullptr => Ok(()),
        Expression::Variable(name) => check_name(scope, Role::Constant, name),
        Expression::Element(name, _) => check_name(scope, Role::Nothing, name),
        Expression::Call { stream, .. } => check_name(scope, Role::Nothing, stream),
        Expression::Construct(_, value) => check_names(scope, value),
        Expression::StaticCast(_, value) => check_names(scope, value),
        Expression::Cast(_, value) => check_names(scope, value),
        Expression::Parenthesized(value) => check_names(scope, value),
        Expression::Prefix(_, _, value) => check_names(scope, value),
        Expression::Binary(operator, place, left, right) => {
            check_names(scope, left)?;
            check_divisor(scope, divides(*operator), *place, right)?;
            check_names(scope, right)
        }
        Expression::Conditional(_, test, first, second) => {
            check_names(scope, test)?;
            check_names(scope, first)?;
            check_names(scope, second)
        }
    }
}

/// A constant expression.
pub fn known(scope: &Scope, value: &Expression) -> Result<Constant, CheckFault>
    ensures value { ScopeAnswers (λ c. c) result (meaning.constant_faults scope.now (tree.expression value.now)) (known_of scope.now (tree.expression value.now)) }
    ensures within { IfOk result IsWithin }
{
    check_names(scope, value)?;
    let Some(constant) = evaluated(scope, value) else {
        unreachable!();
    };
    Ok(constant)
}

/// The constant that a name is.
pub(crate) fn known_name(scope: &Scope, name: &Name) -> Result<Constant, CheckFault>
    ensures value { ScopeAnswers (λ c. Some c) result (name_faults scope.now is_constant name.now) (of_entity (entity_of name.now.text scope.now)) }
    ensures within { IfOk result IsWithin }
{
    let entity = scope.named(Role::Constant, name)?;
    let Some(constant) = of_entity(entity) else {
        unreachable!();
    };
    Ok(constant)
}

/// A constant of a file: its name is new, and its value is converted to its kind.
pub fn check_constant(
    alloc: Global,
    file: &Names,
    kind: Kind,
    name: &Name,
    value: &Expression,
) -> Result<u64, CheckFault>
    ensures value { ScopeAnswers (λ n. n) result (doubled (file.now ∷ []) name.now ++ meaning.constant_faults (file.now ∷ []) (tree.expression value.now))
        (meaning.constant_value (meaning.wanted (file.now ∷ []) kind (tree.expression value.now))) }
    ensures within { IfOk result (λ n. n < values_of kind) }
{
    let scope = Scope::new(alloc, file);
    scope.check_new(name)?;
    let constant = known(&scope, value)?;
    Ok(converted(constant, kind))
}
