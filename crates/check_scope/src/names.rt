//! What a block declares.
ghost use Rattle.std.specs.Prelude.{◌≡◌, ◌++◌, ◌∷◌, [], IfSome};
ghost use Rattle.check_scope.specs.Answers.{ScopeAnswers};
ghost use Rattle.check_scope.specs.Faults.{doubled};
ghost use Rattle.check_scope.specs.Scopes.{IsSound, in_block};

use crate::entity::Entity;
use crate::fault::{CheckCode, CheckFault, refused};
use indexmap::IndexMap;
use std::alloc::Global;
use std::marker::Model;
use tapa_base::Text;
use tapa_syntax::Name;

/// What a block or a file declares, in order.
#[derive(Drop)]
pub struct Names {
    declared: IndexMap<Vec<u8>, Entity>,
}

impl Model for Names {
    ghost use Rattle.check_scope.specs.Scopes.{Block, AreSound, declared_in};

    ghost Value = { Block };

    ghost view = { λ names. declared_in names.declared.entries };

    ghost invariant = { λ names. AreSound (declared_in names.declared.entries) };
}

impl Names {
    /// No names yet.
    pub fn new(alloc: Global) -> Self
        ensures { result ≡ [] }
    {
        Names {
            declared: IndexMap::new(alloc),
        }
    }

    /// What a name is declared as.
    pub fn get(&self, name: &Text) -> Option<Entity>
        ensures value { result ≡ in_block name.now self.now }
        ensures sound { IfSome result IsSound }
    {
        self.declared.get(name.bytes()).copied()
    }

    /// One declaration more, of a name that is not declared yet.
    pub fn declare(&mut self, alloc: Global, name: &Name, entity: Entity) -> Result<(), CheckFault>
        requires { IsSound entity }
        ensures { ScopeAnswers (λ x. self.new) result (doubled (self.old ∷ []) name.now) (self.old ++ (name.now.text, entity) ∷ []) }
    {
        if self.get(&name.text).is_some() {
            return Err(refused(CheckCode::C2, name.place));
        }
        let key = name.text.bytes().to_vec(alloc)?;
        self.declared.insert(key, entity)?;
        Ok(())
    }
}

/// A copy of a name.
pub fn copied(alloc: Global, name: &Text) -> Result<Text, CheckFault>
    ensures { ScopeAnswers (λ text. text) result [] name.now }
{
    Ok(name.copy(alloc)?)
}
