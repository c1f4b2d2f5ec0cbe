// The names in scope: blocks that are entered and left, what is declared in them, and what a name means there.
ghost use Rattle.std.specs.Prelude.{◌≡◌, ◌<◌, ◌≤◌, ◌+◌, ◌∷◌, ◌++◌, [], IfSome, IfOk, Some, length};
ghost use Rattle.check_scope.specs.Answers.{ScopeAnswers};
ghost use Rattle.check_scope.specs.Faults as faults;
ghost use Rattle.check_scope.specs.Roles.{fits};
ghost use Rattle.check_scope.specs.Scopes as scope;
ghost use Rattle.check_scope.specs.Scopes.{Block, IsSound, Scope as Blocks};

use crate::entity::Entity;
use crate::fault::{CheckCode, CheckFault, refused};
use crate::names::Names;
use crate::role::Role;
use std::alloc::Global;
use std::marker::Model;
use tapa_base::Text;
use tapa_syntax::Name;

/// The names in scope: the file's, and those of the blocks that are open, the innermost last (ISO C++
/// [basic.scope.block]).
#[derive(Drop)]
pub struct Scope<'a> {
    file: &'a Names,
    blocks: Vec<Names>,
}

impl<'a> Model for Scope<'a> {
    ghost use Rattle.std.specs.Prelude.{◌∷◌};
    ghost use Rattle.check_scope.specs.Scopes.{Scope};

    ghost Value = { Scope };

    ghost view = { λ s. s.file.now ∷ s.blocks.items };
}

impl<'a> Scope<'a> {
    /// The scope of a file.
    pub fn new(alloc: Global, file: &'a Names) -> Self
        ensures { result ≡ file.now ∷ [] }
    {
        Scope {
            file,
            blocks: Vec::new(alloc),
        }
    }

    /// A block begins.
    pub fn enter(&mut self, alloc: Global) -> Result<(), CheckFault>
        ensures count { length self.old ≤ length self.new }
        ensures value { ScopeAnswers (λ x. self.new) result [] (self.old ++ [] ∷ []) }
    {
        self.blocks.push(Names::new(alloc))?;
        Ok(())
    }

    /// The innermost block ends.
    pub fn leave(&mut self)
        ensures count { length self.old ≤ length self.new + 1 }
        ensures value { (E : Blocks) (b : Block) → 0 < length E → self.old ≡ E ++ b ∷ [] → self.new ≡ E }
    {
        let Some(_innermost) = self.blocks.pop() else {
            return;
        };
    }

    /// What the innermost block declares a name as.
    fn entity_here(&self, name: &Text) -> Option<Entity>
        ensures { result ≡ scope.entity_here name.now self.now }
    {
        entity_in_last(self.file, &self.blocks, name)
    }

    /// What a name means.
    pub fn entity(&self, name: &Text) -> Option<Entity>
        ensures value { result ≡ scope.entity_of name.now self.now }
        ensures sound { IfSome result IsSound }
    {
        match innermost(&self.blocks, name) {
            Some(entity) => Some(entity),
            None => self.file.get(name),
        }
    }

    /// What a name that has a role is declared as.
    pub fn named(&self, role: Role, name: &Name) -> Result<Entity, CheckFault>
        ensures value { ScopeAnswers (λ entity. Some entity) result (faults.name_faults self.now (fits role) name.now) (scope.entity_of name.now.text self.now) }
        ensures sound { IfOk result IsSound }
    {
        match self.entity(&name.text) {
            Some(entity) if role.fits(entity) => Ok(entity),
            Some(_) => Err(refused(CheckCode::C3, name.place)),
            None => Err(refused(CheckCode::C1, name.place)),
        }
    }

    /// A name that the innermost block does not declare yet.
    pub fn check_new(&self, name: &Name) -> Result<(), CheckFault>
        ensures { ScopeAnswers (λ x. x) result (faults.doubled self.now name.now) tt }
    {
        match self.entity_here(&name.text) {
            Some(_) => Err(refused(CheckCode::C2, name.place)),
            None => Ok(()),
        }
    }

    /// One declaration more in the innermost block, of a name that it does not declare yet.
    #[tactic(auto, using(crate::proofs::Scopes::here_below))]
    pub fn declare(&mut self, alloc: Global, name: &Name, entity: Entity) -> Result<(), CheckFault>
        requires some { 1 < length self.old }
        requires sound { IsSound entity }
        ensures count { length self.new ≡ length self.old }
        ensures value { ScopeAnswers (λ x. self.new) result (faults.doubled self.old name.now) (scope.declaring name.now.text entity self.old) }
    {
        declare_in_last(alloc, &mut self.blocks, name, entity)
    }
}

fn declare_in_last(
    alloc: Global,
    blocks: &mut [Names],
    name: &Name,
    entity: Entity,
) -> Result<(), CheckFault>
    requires some { 0 < length blocks.old }
    requires sound { IsSound entity }
    ensures count { length blocks.new ≡ length blocks.old }
    ensures value { ScopeAnswers (λ x. blocks.new) result (faults.doubled blocks.old name.now) (scope.declaring name.now.text entity blocks.old) }
{
    let last = blocks.len() - 1;
    let block = &mut blocks[last];
    block.declare(alloc, name, entity)
}

/// What a name means in blocks, the innermost last.
fn innermost(blocks: &[Names], name: &Text) -> Option<Entity>
    ensures value { result ≡ scope.entity_of name.now blocks.now }
    ensures sound { IfSome result IsSound }
{
    match blocks {
        [block, inner @ ..] => match innermost(inner, name) {
            Some(entity) => Some(entity),
            None => block.get(name),
        },
        [] => None,
    }
}

/// What the innermost block declares a name as, where these are inside the outer one.
fn entity_in_last(outer: &Names, inner: &[Names], name: &Text) -> Option<Entity>
    ensures { result ≡ scope.entity_here name.now (outer.now ∷ inner.now) }
{
    match inner {
        [next, deeper @ ..] => entity_in_last(next, deeper, name),
        [] => outer.get(name),
    }
}
