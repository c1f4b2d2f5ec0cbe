// A design: modules that break none of the rules, with the index of their top.

ghost use Rattle.std.specs.Prelude.{◌≡◌, ◌≤◌, ℕ, List, length, map, slice_get, Some, IfOk, IfErr, OnOk};
ghost use Rattle.std.specs.Option.{option_copied};
ghost use Rattle.vlog_tree.specs.Form.{ModuleTree};
ghost use Rattle.vlog_tree.specs.Environment.{shape_of, streams_of};
ghost use Rattle.vlog_tree.specs.Loops.{IsLoopless};
ghost use Rattle.vlog_tree.specs.Table.{first_violation, declared, module_declared, names_of};
ghost use Rattle.vlog_tree.specs.V6.{is_top, roots, first_name, v6_uses};
ghost use Rattle.vlog_tree.specs.Refused.{Refuses, IsSound, IsDesign};
ghost use Rattle.vlog_design.specs.Designs.{TopOf};

use crate::outside::first_misplaced;
use crate::roots::{contained_counts, count_roots, first_root, root_place};
use crate::shape::{top_shape, top_streams};
use std::alloc::{AllocError, Global};
use std::marker::Model;
use tapa_base::{Port, Shape, Text};
use vlog_comb_loops::first_on_loop;
use vlog_rules::Sound;
use vlog_scope::{Library, Scope, copy_text};
use vlog_tree::{Module, VFault};

/// Modules that break none of the rules on names, widths, drivers, loops and the top, and the top's index among them.
#[derive(Drop)]
pub struct Design {
    sound: Sound,
    top: usize,
}

impl Model for Design {
    ghost use Rattle.vlog_tree.specs.Refused.{IsDesign};
    ghost use Rattle.vlog_design.specs.Designs.{DesignTree};

    ghost Value = { DesignTree };

    ghost view = { λ d. record { modules = d.sound; top = d.top } };

    ghost invariant = { λ d. IsDesign d.sound d.top };
}

fn check_loops(alloc: Global, library: &Library, root: Option<&Text>) -> Result<(), VFault>
    requires sound { IsSound library.now }
    requires root { option_copied root ≡ first_name (roots library.now) }
    ensures refused { IfErr result (λ e. Refuses library.now e) }
    ensures loopless { OnOk result (IsLoopless library.now (is_top library.now)) }
{
    if let Some(x) = first_on_loop(alloc, library, root)? {
        let name = copy_text(alloc, x)?;
        return Err(VFault::V5(name));
    }
    Ok(())
}

fn check_outside(
    alloc: Global,
    library: &Library,
    root: Option<&Text>,
    roots_count: usize,
) -> Result<(), VFault>
    requires sound { IsSound library.now }
    requires loopless { IsLoopless library.now (is_top library.now) }
    requires root { option_copied root ≡ first_name (roots library.now) }
    requires roots { roots_count ≡ length (roots library.now) }
    ensures refused { IfErr result (λ e. Refuses library.now e) }
    ensures outside { OnOk result (first_violation (v6_uses library.now) ≡ None) }
{
    if let Some(x) = first_misplaced(alloc, library, root, roots_count)? {
        let name = copy_text(alloc, x)?;
        return Err(VFault::V6(name));
    }
    Ok(())
}

// The index of the top, where modules are a design.
fn place_of_top(alloc: Global, library: &Library) -> Result<usize, VFault>
    requires sound { IsSound library.now }
    requires some { 1 ≤ length library.now }
    ensures refused { IfErr result (λ e. Refuses library.now e) }
    ensures design { IfOk result (λ top. IsDesign library.now top) }
{
    let modules = library.modules();
    let counts = contained_counts(alloc, modules)?;
    let root = first_root(&counts, modules);
    check_loops(alloc, library, root)?;
    let roots_count = count_roots(&counts, modules);
    check_outside(alloc, library, root, roots_count)?;
    Ok(root_place(&counts, modules))
}

impl Design {
    /// The modules as a design, or else the first rule that they break, in the order of the rules, with the first name
    /// in the text that breaks it.
    pub fn of(alloc: Global, modules: Vec<Module>) -> Result<Design, VFault>
        requires { 1 ≤ length modules.items }
        ensures refused { IfErr result (λ e. Refuses modules.items e) }
        ensures value { IfOk result (λ d. d.modules ≡ modules.items) }
        ensures design { IfOk result (λ d. IsDesign modules.items d.top) }
    {
        let sound = Sound::of(alloc, modules)?;
        let top = place_of_top(alloc, sound.library())?;
        Ok(Design { sound, top })
    }

    /// Modules of which it is known that they break no rule, with their top's index among them. Nothing is looked at again.
    pub fn of_known(alloc: Global, modules: Vec<Module>, top: usize) -> Result<Design, AllocError>
        requires { IsDesign modules.items top }
        ensures { IfOk result (λ d. (d.modules ≡ modules.items) × (d.top ≡ top)) }
    {
        let sound = Sound::of_known(alloc, modules)?;
        Ok(Design { sound, top })
    }

    /// The modules, in the order of the text.
    pub fn modules(&self) -> &[Module]
        ensures value { result.now ≡ self.now.modules }
        ensures design { IsDesign self.now.modules self.now.top }
    {
        self.sound.library().modules()
    }

    /// The top module.
    pub fn top(&self) -> &Module
        ensures { TopOf self.now result.now }
    {
        let place = self.top;
        let modules = self.modules();
        &modules[place]
    }

    /// Says that a design has a top; nothing is done.
    pub fn valid(&self)
        ensures { (m : ModuleTree) × TopOf self.now m }
    {
        let _top = self.top();
    }

    /// The names of the modules, in the order of the text.
    pub fn names(&self) -> &Scope
        ensures { result.now ≡ map module_declared self.now.modules }
    {
        self.sound.library().names()
    }

    /// The names that each module declares.
    pub fn scopes(&self) -> &[Scope]
        ensures { result.now ≡ names_of self.now.modules }
    {
        self.sound.library().scopes()
    }

    /// The names that the top declares.
    pub fn scope(&self) -> &Scope
        ensures { (m : ModuleTree) → TopOf self.now m → result.now ≡ declared m }
    {
        let place = self.top;
        let _modules = self.modules();
        let scopes = self.sound.library().scopes();
        &scopes[place]
    }

    /// The top's scalars and memories.
    pub fn shape(&self, alloc: Global) -> Result<Shape, AllocError>
        ensures { IfOk result (λ s. (m : ModuleTree) → TopOf self.now m → (s.scalars.items ≡ (shape_of m).scalars) × (s.memories.items ≡ (shape_of m).memories)) }
    {
        top_shape(alloc, self.scope(), self.top())
    }

    /// The top's streams, with the bits of their din.
    pub fn streams(&self, alloc: Global) -> Result<Vec<Port>, AllocError>
        ensures { IfOk result (λ v. (m : ModuleTree) → TopOf self.now m → v.items ≡ streams_of m) }
    {
        top_streams(alloc, self.scope(), self.top())
    }
}
