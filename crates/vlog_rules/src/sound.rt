// Modules whose names, widths and drivers are right.

ghost use Rattle.std.specs.Prelude.{◌≡◌, IfErr, IfOk, OnOk};
ghost use Rattle.vlog_tree.specs.Refused.{Refuses, IsSound};

use crate::drivers::first_misdriven;
use crate::names::first_unknown;
use crate::widths::first_misfit;
use std::alloc::{AllocError, Global};
use std::marker::Model;
use vlog_scope::{Library, copy_text};
use vlog_tree::{Module, VFault};

/// Modules whose names, widths and drivers are right. Loops, and what the top asks of the outside, are not looked at.
#[derive(Drop)]
pub struct Sound {
    library: Library,
}

impl Model for Sound {
    ghost use Rattle.std.specs.Prelude.{List};
    ghost use Rattle.vlog_tree.specs.Form.{ModuleTree};
    ghost use Rattle.vlog_tree.specs.Refused.{IsSound};

    ghost Value = { List ModuleTree };

    ghost view = { λ s. s.library };

    ghost invariant = { λ s. IsSound s.library };
}

fn check(alloc: Global, library: &Library) -> Result<(), VFault>
    ensures refused { IfErr result (λ e. Refuses library.now e) }
    ensures sound { OnOk result (IsSound library.now) }
{
    if let Some(x) = first_unknown(alloc, library)? {
        return Err(VFault::V2(copy_text(alloc, x)?));
    }
    if let Some(x) = first_misfit(library) {
        return Err(VFault::V3(copy_text(alloc, x)?));
    }
    if let Some(x) = first_misdriven(alloc, library)? {
        return Err(VFault::V4(copy_text(alloc, x)?));
    }
    Ok(())
}

impl Sound {
    /// The modules, where their names, widths and drivers are right, and else the first fault.
    pub fn of(alloc: Global, modules: Vec<Module>) -> Result<Sound, VFault>
        ensures refused { IfErr result (λ e. Refuses modules.items e) }
        ensures value { IfOk result (λ s. s ≡ modules.items) }
        ensures sound { IfOk result (λ _. IsSound modules.items) }
    {
        let library = Library::of(alloc, modules)?;
        check(alloc, &library)?;
        Ok(Sound { library })
    }

    /// Modules of which it is known that their names, widths and drivers are right.
    pub fn of_known(alloc: Global, modules: Vec<Module>) -> Result<Sound, AllocError>
        requires { IsSound modules.items }
        ensures { IfOk result (λ s. s ≡ modules.items) }
    {
        let library = Library::of(alloc, modules)?;
        Ok(Sound { library })
    }

    /// The modules with tables of their names.
    pub fn library(&self) -> &Library
        ensures value { result.now ≡ self.now }
        ensures sound { IsSound self.now }
    {
        &self.library
    }
}
