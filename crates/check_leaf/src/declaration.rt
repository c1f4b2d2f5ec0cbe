// The rules of declarations of variables and arrays in a leaf task, and the code that gives them their first values.
ghost use Rattle.std.specs.Prelude.{◌≡◌, ◌<◌, ◌∷◌, ◌++◌, [], length, map, not};
ghost use Rattle.tapa_syntax.specs.Flat as flat;
ghost use Rattle.tapa_syntax.specs.Flat.{flat_expression};
ghost use Rattle.tapa_syntax.specs.Trees as tree;
ghost use Rattle.check_scope.specs.Faults.{doubled};
ghost use Rattle.check_leaf.specs.Statements as task;
ghost use Rattle.check_leaf.specs.Views.{Adds};

use crate::frame::Frame;
use check_expression::{check_wanted, count_in};
use check_scope::CheckFault;
use tapa_base::Kind;
use tapa_syntax::{Count, Declaration, Declarator, Expr, Name, Stmt};

/// A variable that is set to its first value.
fn variable(
    frame: &mut Frame,
    free: bool,
    kind: Kind,
    name: &Name,
    value: Expr,
    code: &mut Vec<Stmt>,
) -> Result<(), CheckFault>
    requires new { doubled frame.old.scope name.now ≡ [] }
    requires room { length frame.old.vars < 1024 }
    ensures { Adds result frame.new code.old.items code.new.items [] (task.with_variable free kind name.now frame.old) (flat.set (length frame.old.vars) (flat_expression value) ∷ []) }
{
    let number = frame.add_variable(free, kind, name)?;
    code.push(Stmt::Set(number, value))?;
    Ok(())
}

/// An array, each cell of which is 0.
fn array(
    frame: &mut Frame,
    free: bool,
    kind: Kind,
    name: &Name,
    count: &Count,
    code: &mut Vec<Stmt>,
) -> Result<(), CheckFault>
    ensures { Adds result frame.new code.old.items code.new.items (task.declarator_faults frame.old (tree.array name.now (tree.count_of count.now)))
        (task.after_declarator free kind frame.old (tree.array name.now (tree.count_of count.now))) (flat.clear (length frame.old.arrays) ∷ []) }
{
    frame.scope().check_new(name)?;
    let cells = count_in(frame.scope(), count)?;
    frame.check_array(cells, count.place)?;
    let number = frame.add_array(free, kind, name, cells)?;
    code.push(Stmt::Clear(number))?;
    Ok(())
}

fn declarator(
    frame: &mut Frame,
    free: bool,
    kind: Kind,
    declarator: &Declarator,
    code: &mut Vec<Stmt>,
) -> Result<(), CheckFault>
    ensures { Adds result frame.new code.old.items code.new.items (task.declarator_faults frame.old (tree.declarator_of declarator.now))
        (task.after_declarator free kind frame.old (tree.declarator_of declarator.now)) (task.declarator_code kind frame.old (tree.declarator_of declarator.now) ∷ []) }
{
    match declarator {
        Declarator::Plain(name) => {
            frame.check_variable(name)?;
            variable(frame, free, kind, name, Expr::Lit(kind, 0), code)
        }
        Declarator::Initialized(name, value) => {
            frame.check_variable(name)?;
            let value = check_wanted(frame.alloc(), frame.scope(), kind, value)?;
            variable(frame, free, kind, name, value, code)
        }
        Declarator::Array(name, count) => array(frame, free, kind, name, count, code),
    }
}

fn declarators(
    frame: &mut Frame,
    free: bool,
    kind: Kind,
    names: &[Declarator],
    code: &mut Vec<Stmt>,
) -> Result<(), CheckFault>
    ensures { Adds result frame.new code.old.items code.new.items (task.declarators_faults free kind frame.old (map tree.declarator_of names.now))
        (task.after_declarators free kind frame.old (map tree.declarator_of names.now)) (task.declarators_code free kind frame.old (map tree.declarator_of names.now)) }
{
    for name in names {
        declarator(frame, free, kind, name, code)?;
    }
    Ok(())
}

/// A declaration.
pub(crate) fn declaration(
    frame: &mut Frame,
    declared: &Declaration,
    code: &mut Vec<Stmt>,
) -> Result<(), CheckFault>
    ensures { Adds result frame.new code.old.items code.new.items (task.declaration_faults frame.old (tree.declaration_of declared.now))
        (task.after_declaration frame.old (tree.declaration_of declared.now)) (task.declaration_code frame.old (tree.declaration_of declared.now)) }
{
    declarators(
        frame,
        !declared.constant,
        declared.kind,
        &declared.names,
        code,
    )
}
