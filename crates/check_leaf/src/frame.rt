// The declarations of a leaf task so far: the names in scope, the variables and the arrays, within their limits.
ghost use Rattle.std.specs.Prelude.{◌≡◌, ◌<◌, ◌≤◌, ◌+◌, ◌∷◌, ◌++◌, [], IfOk, length};
ghost use Rattle.check_scope.specs.Answers.{ScopeAnswers};
ghost use Rattle.check_scope.specs.Faults.{doubled};
ghost use Rattle.check_scope.specs.Scopes.{Block, Scope as Blocks, IsSound, declaring};
ghost use Rattle.check_leaf.specs.Statements as task;
ghost use Rattle.check_leaf.specs.Views.{Numbered};

use check_scope::{CheckFault, Entity, Names, Scope, over};
use std::alloc::Global;
use std::marker::Model;
use tapa_base::{Kind, Place};
use tapa_syntax::{Array, Name};

/// The most variables of a task.
const MOST_VARIABLES: u32 = 1024;

/// The most cells of all arrays of a task.
const MOST_CELLS: u32 = 65536;

/// What a task has declared so far: the names in scope, the kinds of its variables, its arrays and how many cells they
/// have in all.
#[derive(Drop)]
pub(crate) struct Frame<'a> {
    alloc: Global,
    scope: Scope<'a>,
    vars: Vec<Kind>,
    arrays: Vec<Array>,
    cells: u32,
}

impl<'a> Model for Frame<'a> {
    ghost use Rattle.std.specs.Prelude.{◌≡◌, ◌<◌, ◌≤◌, length};
    ghost use Rattle.check_leaf.specs.Statements.{Frame, all_cells};

    ghost Value = { Frame };

    ghost view = { λ f. record { scope = f.scope; vars = f.vars.items; arrays = f.arrays.items } };

    ghost invariant = { λ f. (1 < length f.scope) × (f.cells ≡ all_cells f.arrays.items) × (length f.arrays.items ≤ f.cells) × (f.cells ≤ 65536) };
}

impl<'a> Frame<'a> {
    /// A task of a file begins.
    pub(crate) fn new(alloc: Global, file: &'a Names) -> Result<Self, CheckFault>
        ensures { ScopeAnswers (λ f. f) result [] (record { scope = file.now ∷ [] ∷ []; vars = []; arrays = [] }) }
    {
        let mut scope = Scope::new(alloc, file);
        scope.enter(alloc)?;
        Ok(Frame {
            alloc,
            scope,
            vars: Vec::new(alloc),
            arrays: Vec::new(alloc),
            cells: 0,
        })
    }

    pub(crate) fn alloc(&self) -> Global {
        self.alloc
    }

    /// The names in scope.
    pub(crate) fn scope(&self) -> &Scope<'a>
        ensures { result.now ≡ self.now.scope }
    {
        &self.scope
    }

    /// The kinds of the variables, and the arrays.
    pub(crate) fn into_parts(self) -> (Vec<Kind>, Vec<Array>)
        ensures vars { result.0.items ≡ self.entry.vars }
        ensures arrays { result.1.items ≡ self.entry.arrays }
    {
        let Frame { vars, arrays, .. } = self;
        (vars, arrays)
    }

    /// A block begins.
    pub(crate) fn enter(&mut self) -> Result<(), CheckFault>
        ensures deep { IfOk result (λ x. 2 < length self.new.scope) }
        ensures value { ScopeAnswers (λ x. self.new) result [] (task.opened self.old) }
    {
        self.scope.enter(self.alloc)
    }

    /// A block ends.
    pub(crate) fn leave(&mut self)
        requires { 2 < length self.old.scope }
        ensures { (E : Blocks) (b : Block) → self.old.scope ≡ E ++ b ∷ [] → self.new ≡ record { scope = E; vars = self.old.vars; arrays = self.old.arrays } }
    {
        self.scope.leave();
    }

    /// One declaration more, which is no variable and no array, of a name that the block does not declare yet.
    pub(crate) fn declare(&mut self, name: &Name, entity: Entity) -> Result<(), CheckFault>
        requires { IsSound entity }
        ensures { ScopeAnswers (λ x. self.new) result (doubled self.old.scope name.now) (task.with_name name.now.text entity self.old) }
    {
        self.scope.declare(self.alloc, name, entity)
    }

    /// A name that may be declared as a variable.
    pub(crate) fn check_variable(&self, name: &Name) -> Result<(), CheckFault>
        ensures value { ScopeAnswers (λ x. x) result (task.variable_faults self.now name.now) tt }
        ensures new { IfOk result (λ x. doubled self.now.scope name.now ≡ []) }
        ensures room { IfOk result (λ x. length self.now.vars < 1024) }
    {
        self.scope.check_new(name)?;
        if self.vars.len() >= MOST_VARIABLES as usize {
            return Err(over(MOST_VARIABLES, name.place));
        }
        Ok(())
    }

    /// One variable more: its number.
    pub(crate) fn add_variable(
        &mut self,
        free: bool,
        kind: Kind,
        name: &Name,
    ) -> Result<u32, CheckFault>
        requires new { doubled self.old.scope name.now ≡ [] }
        requires room { length self.old.vars < 1024 }
        ensures { ScopeAnswers {B = Numbered} (λ n. (n, self.new)) result [] (length self.old.vars, task.with_variable free kind name.now self.old) }
    {
        let number = self.vars.len() as u32;
        let entity = Entity::Variable { free, kind, number };
        self.scope.declare(self.alloc, name, entity)?;
        self.vars.push(kind)?;
        Ok(number)
    }

    /// An array of this many cells may be declared.
    pub(crate) fn check_array(&self, cells: u32, place: Place) -> Result<(), CheckFault>
        requires { cells ≤ 4096 }
        ensures value { ScopeAnswers (λ x. x) result (task.array_faults self.now cells place) tt }
        ensures room { IfOk result (λ x. task.all_cells self.now.arrays + cells ≤ 65536) }
    {
        if self.cells + cells > MOST_CELLS {
            return Err(over(MOST_CELLS, place));
        }
        Ok(())
    }

    /// One array more: its number.
    pub(crate) fn add_array(
        &mut self,
        free: bool,
        kind: Kind,
        name: &Name,
        cells: u32,
    ) -> Result<u32, CheckFault>
        requires new { doubled self.old.scope name.now ≡ [] }
        requires cells { 1 ≤ cells }
        requires room { task.all_cells self.old.arrays + cells ≤ 65536 }
        ensures { ScopeAnswers {B = Numbered} (λ n. (n, self.new)) result [] (length self.old.arrays, task.with_array free kind name.now cells self.old) }
    {
        let number = self.arrays.len() as u32;
        let entity = Entity::Array { free, kind, number };
        self.scope.declare(self.alloc, name, entity)?;
        self.arrays.push(Array { kind, cells })?;
        self.cells += cells;
        Ok(number)
    }
}
