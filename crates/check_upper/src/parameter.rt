// The rules of the parameters of an upper-level task, and the scope that has them: streams, memories and scalars by position.
ghost use Rattle.std.specs.Prelude.{◌≡◌, ◌<◌, ◌+◌, [], IfOk, length};
ghost use Rattle.check_scope.specs.Answers.{ScopeAnswers};
ghost use Rattle.check_scope.specs.Faults.{doubled};
ghost use Rattle.check_upper.specs.Signatures.{signature_of};
ghost use Rattle.check_upper.specs.Uppers as upper;

use check_scope::{CheckFault, Entity, Names, Scope, next_number};
use std::alloc::Global;
use tapa_base::Kind;
use tapa_syntax::{Name, Parameter};

/// The names in scope, and how many streams, memories and scalars the parameters so far are.
#[derive(Drop)]
pub(crate) struct Signature<'a> {
    pub scope: Scope<'a>,
    streams: u32,
    memories: u32,
    scalars: u32,
}

impl<'a> Signature<'a> {
    fn new(alloc: Global, file: &'a Names) -> Result<Self, CheckFault>
        ensures some { IfOk result (λ h. 1 < length h.scope) }
        ensures value { ScopeAnswers signature_of result [] (upper.task_begins file.now) }
    {
        let mut scope = Scope::new(alloc, file);
        scope.enter(alloc)?;
        Ok(Signature {
            scope,
            streams: 0,
            memories: 0,
            scalars: 0,
        })
    }

    fn stream(
        &mut self,
        alloc: Global,
        writes: bool,
        kind: Kind,
        name: &Name,
    ) -> Result<(), CheckFault>
        requires { 1 < length self.old.scope }
        ensures count { length self.new.scope ≡ length self.old.scope }
        ensures value { ScopeAnswers (λ x. signature_of self.new) result (doubled self.old.scope name.now) (upper.with_stream writes kind name.now (signature_of self.old)) }
    {
        let number = self.streams;
        let entity = Entity::Stream {
            writes,
            kind,
            number,
        };
        self.scope.declare(alloc, name, entity)?;
        self.streams = next_number(number)?;
        Ok(())
    }

    fn memory(
        &mut self,
        alloc: Global,
        free: bool,
        kind: Kind,
        name: &Name,
    ) -> Result<(), CheckFault>
        requires { 1 < length self.old.scope }
        ensures count { length self.new.scope ≡ length self.old.scope }
        ensures value { ScopeAnswers (λ x. signature_of self.new) result (doubled self.old.scope name.now) (upper.with_memory free kind name.now (signature_of self.old)) }
    {
        let number = self.memories;
        let entity = Entity::Memory { free, kind, number };
        self.scope.declare(alloc, name, entity)?;
        self.memories = next_number(number)?;
        Ok(())
    }

    fn scalar(
        &mut self,
        alloc: Global,
        free: bool,
        kind: Kind,
        name: &Name,
    ) -> Result<(), CheckFault>
        requires { 1 < length self.old.scope }
        ensures count { length self.new.scope ≡ length self.old.scope }
        ensures value { ScopeAnswers (λ x. signature_of self.new) result (doubled self.old.scope name.now) (upper.with_scalar free kind name.now (signature_of self.old)) }
    {
        let number = self.scalars;
        let entity = Entity::Variable { free, kind, number };
        self.scope.declare(alloc, name, entity)?;
        self.scalars = next_number(number)?;
        Ok(())
    }

    fn parameter(&mut self, alloc: Global, parameter: &Parameter) -> Result<(), CheckFault>
        requires { 1 < length self.old.scope }
        ensures count { length self.new.scope ≡ length self.old.scope }
        ensures value { ScopeAnswers (λ x. signature_of self.new) result (doubled self.old.scope (upper.parameter_name parameter.now)) (upper.after_parameter (signature_of self.old) parameter.now) }
    {
        match parameter {
            Parameter::InputStream(kind, name) => self.stream(alloc, false, *kind, name),
            Parameter::OutputStream(kind, name) => self.stream(alloc, true, *kind, name),
            Parameter::Memory {
                constant,
                kind,
                name,
            } => self.memory(alloc, !*constant, *kind, name),
            Parameter::Scalar {
                constant,
                kind,
                name,
            } => self.scalar(alloc, !*constant, *kind, name),
        }
    }
}

/// The names in scope after a task's parameters.
pub(crate) fn scope_of<'a>(
    alloc: Global,
    file: &'a Names,
    parameters: &[Parameter],
) -> Result<Scope<'a>, CheckFault>
    ensures some { IfOk result (λ scope. 1 < length scope) }
    ensures value { ScopeAnswers (λ scope. scope) result (upper.parameters_faults (upper.task_begins file.now) parameters.now)
        (upper.after_parameters (upper.task_begins file.now) parameters.now).scope }
{
    let mut signature = Signature::new(alloc, file)?;
    for parameter in parameters {
        signature.parameter(alloc, parameter)?;
    }
    let Signature { scope, .. } = signature;
    Ok(scope)
}
