// Values in memory of their own.

ghost use Rattle.std.specs.Prelude.{◌≡◌, IfOk};

use std::alloc::{AllocError, Global};
use std::marker::Model;

/// A value in memory of its own, of which a move copies one word. Contracts see the value.
#[derive(Drop)]
pub struct Held<T> {
    pub(crate) held: Box<T>,
}

impl<T> Model for Held<T> {
    ghost Value = { T };

    ghost coded = { T.code };

    ghost view = { λ h. h.held.value };
}

impl<T> Held<T> {
    /// Returns the value alone.
    pub fn into_inner(self) -> T
        ensures { result ≡ self }
    {
        let Held { held } = self;
        Box::into_inner(held)
    }
}

impl<T: Drop> Held<T> {
    /// Moves a value into memory of its own.
    pub fn new(alloc: Global, value: T) -> Result<Held<T>, AllocError>
        ensures { IfOk result (λ h. h ≡ value) }
    {
        Ok(Held {
            held: Box::new(alloc, value)?,
        })
    }
}
