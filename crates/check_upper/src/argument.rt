// The rules of the arguments of an invocation, each for its parameter, and what the parameters are bound to.
ghost use Rattle.std.specs.Prelude.{◌≡◌, Some, map};
ghost use Rattle.tapa_syntax.specs.Trees as tree;
ghost use Rattle.check_scope.specs.Answers.{ScopeAnswers};
ghost use Rattle.check_scope.specs.Faults.{wrong_entity};
ghost use Rattle.check_scope.specs.Scopes.{IsSound, entity_of};
ghost use Rattle.check_upper.specs.Uppers as upper;

use crate::task::Binding;
use check_expression::{Constant, converted, evaluated, known, same_kind};
use check_scope::{CheckCode, CheckFault, Entity, Scope, refused};
use std::alloc::Global;
use tapa_base::{Kind, Place};
use tapa_syntax::{Expression, InvocationArgument, Name, Parameter};

fn kind_of(parameter: &Parameter) -> Kind
    ensures { result ≡ upper.parameter_kind parameter.now }
{
    match parameter {
        Parameter::InputStream(kind, _) => *kind,
        Parameter::OutputStream(kind, _) => *kind,
        Parameter::Memory { kind, .. } => *kind,
        Parameter::Scalar { kind, .. } => *kind,
    }
}

fn is_scalar(parameter: &Parameter) -> bool
    ensures { result ≡ upper.is_scalar_parameter parameter.now }
{
    matches!(parameter, Parameter::Scalar { .. })
}

fn is_bound_to_stream(writes: bool, kind: Kind, entity: Entity) -> bool
    ensures { result ≡ upper.is_bound_to_stream writes kind entity }
{
    match entity {
        Entity::Channel { kind: given, .. } => same_kind(given, kind),
        Entity::Stream {
            writes: true,
            kind: given,
            ..
        } => writes && same_kind(given, kind),
        Entity::Stream {
            writes: false,
            kind: given,
            ..
        } => !writes && same_kind(given, kind),
        _ => false,
    }
}

fn is_bound_to_memory(constant: bool, kind: Kind, entity: Entity) -> bool
    ensures { result ≡ upper.is_bound_to_memory constant kind entity }
{
    match entity {
        Entity::Memory {
            free,
            kind: given,
            ..
        } => same_kind(given, kind) && (constant || free),
        _ => false,
    }
}

/// Whether a name of this entity may be bound to the parameter.
fn is_bound_to(parameter: &Parameter, entity: Entity) -> bool
    ensures { result ≡ upper.is_bound_to parameter.now entity }
{
    match parameter {
        Parameter::InputStream(kind, _) => is_bound_to_stream(false, *kind, entity),
        Parameter::OutputStream(kind, _) => is_bound_to_stream(true, *kind, entity),
        Parameter::Memory { constant, kind, .. } => is_bound_to_memory(*constant, *kind, entity),
        Parameter::Scalar { .. } => matches!(
            entity,
            Entity::Variable { .. } | Entity::Constant { .. }
        ),
    }
}

/// What a name of this entity is for a parameter of this kind.
fn named_binding(kind: Kind, entity: Entity) -> Binding
    requires { IsSound entity }
    ensures { result ≡ upper.named_binding kind (Some entity) }
{
    match entity {
        Entity::Channel { number, .. } => Binding::OwnStream(number),
        Entity::Stream { number, .. } => Binding::StreamParameter(number),
        Entity::Memory { number, .. } => Binding::MemoryParameter(number),
        Entity::Variable {
            kind: from,
            number,
            ..
        } => Binding::ScalarParameter {
            number,
            from,
            to: kind,
        },
        Entity::Constant { kind: from, value } => {
            Binding::Constant(converted(Constant { kind: from, value }, kind))
        }
        _ => Binding::Constant(0),
    }
}

fn name_argument(scope: &Scope, parameter: &Parameter, name: &Name) -> Result<Binding, CheckFault>
    ensures { ScopeAnswers (λ binding. binding) result (wrong_entity (upper.is_bound_to parameter.now) name.now.place (entity_of name.now.text scope.now))
        (upper.named_binding (upper.parameter_kind parameter.now) (entity_of name.now.text scope.now)) }
{
    match scope.entity(&name.text) {
        Some(entity) if is_bound_to(parameter, entity) => Ok(named_binding(
            kind_of(parameter),
            entity,
        )),
        Some(_) => Err(refused(CheckCode::C3, name.place)),
        None => Err(refused(CheckCode::C1, name.place)),
    }
}

/// An argument that is more than one name: a constant expression, for a scalar.
fn constant_argument(
    scope: &Scope,
    parameter: &Parameter,
    place: Place,
    value: &Expression,
) -> Result<Binding, CheckFault>
    ensures { ScopeAnswers (λ binding. binding) result (upper.constant_argument_faults scope.now parameter.now place (tree.expression value.now))
        (upper.constant_binding scope.now (upper.parameter_kind parameter.now) (tree.expression value.now)) }
{
    if !is_scalar(parameter) && evaluated(scope, value).is_some() {
        return Err(refused(CheckCode::C3, place));
    }
    let constant = known(scope, value)?;
    Ok(Binding::Constant(converted(constant, kind_of(parameter))))
}

fn argument(
    scope: &Scope,
    parameter: &Parameter,
    argument: &InvocationArgument,
) -> Result<Binding, CheckFault>
    ensures { ScopeAnswers (λ binding. binding) result (upper.argument_faults scope.now parameter.now argument.now.place (tree.expression argument.now.value))
        (upper.binding_of scope.now (upper.parameter_kind parameter.now) (tree.expression argument.now.value)) }
{
    match &argument.value {
        Expression::Variable(name) => name_argument(scope, parameter, name),
        value => constant_argument(scope, parameter, argument.place, value),
    }
}

/// The arguments of an invocation, each for its parameter.
pub(crate) fn arguments(
    alloc: Global,
    scope: &Scope,
    parameters: &[Parameter],
    arguments: &[InvocationArgument],
) -> Result<Vec<Binding>, CheckFault>
    ensures { ScopeAnswers (λ bindings. bindings.items) result (upper.arguments_faults scope.now parameters.now (map tree.argument_of arguments.now))
        (upper.bindings_of scope.now parameters.now (map tree.argument_of arguments.now)) }
{
    let mut bindings = Vec::new(alloc);
    for (position, parameter) in parameters.iter().enumerate() {
        if position >= arguments.len() {
            return Ok(bindings);
        }
        let binding = argument(scope, parameter, &arguments[position])?;
        bindings.push(binding)?;
    }
    Ok(bindings)
}
