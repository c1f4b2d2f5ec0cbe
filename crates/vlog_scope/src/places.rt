// The indices of names in a list of declarations: on chains, and in order of the names where a chain is long. A text may be written so
// that all its names have one hash; in order of the names a look-up takes no longer for it.

ghost use Rattle.std.specs.Prelude.{◌≡◌, ◌<◌, suc, Some, None, length, map, drop, is_some, IfSome, IfOk};
ghost use Rattle.vlog_tree.specs.Table.{declaration_name};
ghost use Rattle.vlog_scope.specs.NameTable.{places_from};
ghost use Rattle.vlog_scope.specs.Chains.{name_at};
ghost use Rattle.vlog_scope.specs.NamePlaces.{HasPlaces};

use crate::chains::{Chains, chains_of, first_place, has_long_chain, is_again};
use crate::ordered::{OrderedNames, ordered_of, place_of};
use std::alloc::{AllocError, Global};
use vlog_tree::Declaration;

/// The indices of the names of a list of declarations.
#[derive(Drop)]
pub enum NamePlaces {
    /// By the hashes of the names.
    Chained(Chains),
    /// By the names themselves.
    Ordered(OrderedNames),
}

impl NamePlaces {
    /// The indices of all declarations.
    pub(crate) fn of(alloc: Global, declarations: &[Declaration]) -> Result<NamePlaces, AllocError>
        ensures { IfOk result (HasPlaces declarations.now) }
    {
        let chains = chains_of(alloc, declarations)?;
        if has_long_chain(&chains) {
            return Ok(NamePlaces::Ordered(ordered_of(alloc, declarations)?));
        }
        Ok(NamePlaces::Chained(chains))
    }

    /// The first index that has a name.
    pub(crate) fn first(&self, declarations: &[Declaration], name: &[u8]) -> Option<usize>
        requires { HasPlaces declarations.now self.now }
        ensures within { IfSome result (λ p. p < length declarations.now) }
        ensures named { IfSome result (λ p. name_at declarations.now p ≡ name.now) }
        ensures found { IfSome result (λ p. places_from 0 (map declaration_name declarations.now) name.now ≡ Some
            (p, is_some (places_from (suc p) (map declaration_name (drop (suc p) declarations.now)) name.now))) }
        ensures none { result ≡ None → places_from 0 (map declaration_name declarations.now) name.now ≡ None }
    {
        match self {
            NamePlaces::Chained(chains) => first_place(chains, declarations, name),
            NamePlaces::Ordered(names) => match place_of(names, name) {
                Some((place, _)) => Some(place),
                None => None,
            },
        }
    }

    /// The first index that has a name, and whether the name is declared once more after it.
    pub(crate) fn find(&self, declarations: &[Declaration], name: &[u8]) -> Option<(usize, bool)>
        requires { HasPlaces declarations.now self.now }
        ensures { result ≡ places_from 0 (map declaration_name declarations.now) name.now }
    {
        match self {
            NamePlaces::Chained(chains) => {
                let place = first_place(chains, declarations, name)?;
                Some((place, is_again(chains, declarations, name, place)))
            }
            NamePlaces::Ordered(names) => place_of(names, name),
        }
    }
}
