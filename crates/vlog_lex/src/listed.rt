// Lists that grow at one end.

ghost use Rattle.std.specs.Prelude.{◌≡◌, ◌∷◌, ◌++◌, [], length, IfOk, OnOk, MatchOption};

use std::alloc::{AllocError, Global};
use std::marker::Model;

/// A list that grows at its end, one element a call.
#[derive(Drop)]
pub struct Listed<T> {
    items: Vec<T>,
}

impl<T> Model for Listed<T> {
    ghost use Rattle.std.specs.Prelude.{List};

    ghost Value = { List T };

    ghost view = { λ l. l.items.items };
}

impl<T: Drop> Listed<T> {
    /// No elements.
    pub fn new(alloc: Global) -> Self
        ensures { result ≡ [] }
    {
        Listed {
            items: Vec::new(alloc),
        }
    }

    /// One more at the end.
    pub fn push(&mut self, item: T) -> Result<(), AllocError>
        ensures { OnOk result (self.new ≡ self.old ++ item ∷ []) }
    {
        self.items.push(item)?;
        Ok(())
    }

    /// The list with one more at its end.
    pub fn with(self, item: T) -> Result<Self, AllocError>
        ensures { IfOk result (λ l. l ≡ self ++ item ∷ []) }
    {
        let Listed { mut items } = self;
        items.push(item)?;
        Ok(Listed { items })
    }

    /// How many elements there are.
    pub fn len(&self) -> usize
        ensures { result ≡ length self.now }
    {
        self.items.len()
    }

    /// The elements in their order.
    pub fn into_vec(self) -> Vec<T>
        ensures { result.items ≡ self }
    {
        let Listed { items } = self;
        items
    }
}

/// The parts of a block that are open, each an `else` or not. Contracts see the innermost first.
#[derive(Drop)]
pub struct Parts {
    parts: Vec<bool>,
}

impl Model for Parts {
    ghost use Rattle.std.specs.Prelude.{List, Bool, reverse};

    ghost Value = { List Bool };

    ghost view = { λ p. reverse p.parts.items };
}

impl Parts {
    /// None is open.
    pub fn new(alloc: Global) -> Self
        ensures { result ≡ [] }
    {
        Parts {
            parts: Vec::new(alloc),
        }
    }

    /// Opens one more in those that are open.
    #[tactic(auto, using(vlog_tree::proofs::Nesting::reverse_push))]
    pub fn push(&mut self, is_else: bool) -> Result<(), AllocError>
        ensures { OnOk result (self.new ≡ is_else ∷ self.old) }
    {
        self.parts.push(is_else)?;
        Ok(())
    }

    /// Closes the innermost part: whether it is an `else`, and the parts round it; none where none is open.
    #[tactic(auto, using(vlog_tree::proofs::Nesting::reverse_push))]
    pub fn close(self) -> Option<(bool, Self)>
        ensures { MatchOption result (self ≡ []) (λ closed. self ≡ closed.0 ∷ closed.1) }
    {
        let Parts { mut parts } = self;
        match parts.pop() {
            Some(is_else) => Some((is_else, Parts { parts })),
            None => None,
        }
    }
}
