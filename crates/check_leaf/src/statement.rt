// The rules of statements, and their flat code: blocks, choices, loops, jumps, declarations and actions.
ghost use Rattle.std.specs.Prelude.{if◌then◌else◌, List, ◌≡◌, ◌<◌, ◌∷◌, ◌++◌, [], IfOk, false, true, length, map};
ghost use Rattle.tapa_base.specs.declared.kind.Kind.TheVariants as kind;
ghost use Rattle.tapa_syntax.specs.Flat as flat;
ghost use Rattle.tapa_syntax.specs.Flat.{FlatStatement, flat_expression, flat_statement, in_row};
ghost use Rattle.tapa_syntax.specs.Trees as tree;
ghost use Rattle.check_scope.specs.declared.fault.Broken.{Broken};
ghost use Rattle.check_scope.specs.Answers.{ScopeAnswers};
ghost use Rattle.check_expression.specs.Expressions.{faults_of, wanted};
ghost use Rattle.check_scope.specs.Faults.{name_faults};
ghost use Rattle.check_scope.specs.Scopes.{is_input, number_of, entity_of};
ghost use Rattle.check_leaf.specs.Statements as task;
ghost use Rattle.check_leaf.specs.Statements.{Frame as FrameValue};
ghost use Rattle.check_leaf.specs.Views.{Adds, Appends, HeadPart, Part};

use crate::action::action;
use crate::declaration::declaration;
use crate::frame::Frame;
use check_expression::{check_wanted, entity_number};
use check_scope::{CheckCode, CheckFault, Role, refused};
use std::alloc::Global;
use tapa_base::{Kind, Place};
use tapa_syntax::{Action, Expr, Expression, ForHead, ForStart, Name, Statement, Stmt};

/// A test, which is converted to `bool`.
fn test(frame: &Frame, value: &Expression) -> Result<Expr, CheckFault>
    ensures { ScopeAnswers flat_expression result (faults_of frame.now.scope false (tree.expression value.now)) (wanted frame.now.scope kind.Bool (tree.expression value.now)) }
{
    check_wanted(frame.alloc(), frame.scope(), Kind::Bool, value)
}

/// That a stream is not at its end of transaction (TAPA: `TAPA_WHILE_NOT_EOT`).
fn not_at_end(frame: &Frame, stream: &Name) -> Result<Expr, CheckFault>
    ensures { ScopeAnswers flat_expression result (name_faults frame.now.scope is_input stream.now) (flat.negation (flat.is_end (number_of (entity_of stream.now.text frame.now.scope)))) }
{
    let entity = frame.scope().named(Role::Input, stream)?;
    let end = Expr::Eot(entity_number(entity));
    Ok(Expr::Not(Box::new(frame.alloc(), end)?))
}

/// `break`, or else `continue`.
fn jump(in_loop: bool, place: Place, breaks: bool, code: &mut Vec<Stmt>) -> Result<(), CheckFault>
    ensures { Appends result code.old.items code.new.items (task.jump_faults in_loop place) ((if breaks then flat.break else flat.continue) ∷ []) }
{
    if !in_loop {
        return Err(refused(CheckCode::C3, place));
    }
    if breaks {
        code.push(Stmt::Break)?;
    } else {
        code.push(Stmt::Continue)?;
    }
    Ok(())
}

/// A test, and the step of a loop or the first arm of a choice.
#[derive(Drop)]
struct Turn {
    test: Expr,
    step: Vec<Stmt>,
}

/// A choice without `else`, whose statement was read or refused. The functions that build choices are outside the recursion, so
/// that no branch is made there while the other parts are alive.
fn push_if(
    alloc: Global,
    test: Expr,
    first: Result<Vec<Stmt>, CheckFault>,
    code: &mut Vec<Stmt>,
) -> Result<(), CheckFault>
    ensures { (f g : FrameValue) (faults : List Broken) (inner : List FlatStatement) → ScopeAnswers {B = Part} (λ c. (f, map flat_statement c.items)) first faults (g, inner)
        → Adds result f code.old.items code.new.items faults g (flat.branch (flat_expression test) (in_row inner) (in_row []) ∷ []) }
{
    let first = first?;
    code.push(Stmt::If(test, first, Vec::new(alloc)))?;
    Ok(())
}

fn push_if_else(
    turn: Turn,
    second: Result<Vec<Stmt>, CheckFault>,
    code: &mut Vec<Stmt>,
) -> Result<(), CheckFault>
    ensures { (f g : FrameValue) (faults : List Broken) (inner : List FlatStatement) → ScopeAnswers {B = Part} (λ c. (f, map flat_statement c.items)) second faults (g, inner)
        → Adds result f code.old.items code.new.items faults g (flat.branch (flat_expression turn.test) (in_row (map flat_statement turn.step.items)) (in_row inner) ∷ []) }
{
    let second = second?;
    let Turn { test, step: first } = turn;
    code.push(Stmt::If(test, first, second))?;
    Ok(())
}

fn push_loop(
    turn: Turn,
    body: Result<Vec<Stmt>, CheckFault>,
    code: &mut Vec<Stmt>,
) -> Result<(), CheckFault>
    ensures { (f g : FrameValue) (faults : List Broken) (inner : List FlatStatement) → ScopeAnswers {B = Part} (λ c. (f, map flat_statement c.items)) body faults (g, inner)
        → Adds result f code.old.items code.new.items faults g (flat.loop (flat_expression turn.test) (in_row inner) (in_row (map flat_statement turn.step.items)) ∷ []) }
{
    let body = body?;
    let Turn { test, step } = turn;
    code.push(Stmt::Loop { test, body, step })?;
    Ok(())
}

/// The first part of the head of a `for`.
fn start(frame: &mut Frame, start: &ForStart, code: &mut Vec<Stmt>) -> Result<(), CheckFault>
    ensures { Adds result frame.new code.old.items code.new.items (task.start_faults frame.old (tree.start_of start.now))
        (task.after_start frame.old (tree.start_of start.now)) (task.start_code frame.old (tree.start_of start.now)) }
{
    match start {
        ForStart::Nothing => Ok(()),
        ForStart::Declare(declared) => declaration(frame, declared, code),
        ForStart::Act(done) => action(frame.alloc(), frame.scope(), done, code),
    }
}

/// The test of a `for`: one without a test goes on.
fn loop_test(frame: &Frame, value: &Option<Expression>) -> Result<Expr, CheckFault>
    ensures { ScopeAnswers flat_expression result (task.test_faults frame.now.scope (tree.option_of tree.expression value.now))
        (task.test_of frame.now.scope (tree.option_of tree.expression value.now)) }
{
    match value {
        Some(value) => test(frame, value),
        None => Ok(Expr::Lit(Kind::Bool, 1)),
    }
}

/// What is done between two turns of a `for`.
fn loop_step(frame: &Frame, done: &Option<Action>) -> Result<Vec<Stmt>, CheckFault>
    ensures { ScopeAnswers (λ code. map flat_statement code.items) result (task.next_faults frame.now.scope (tree.option_of tree.action_of done.now))
        (task.next_code frame.now.scope (tree.option_of tree.action_of done.now)) }
{
    let mut code = Vec::new(frame.alloc());
    if let Some(done) = done {
        action(frame.alloc(), frame.scope(), done, &mut code)?;
    }
    Ok(code)
}

/// The head of a `for`, which is a block.
fn head(frame: &mut Frame, head: &ForHead, code: &mut Vec<Stmt>) -> Result<Turn, CheckFault>
    ensures deep { IfOk result (λ turn. 2 < length frame.new.scope) }
    ensures value { ScopeAnswers {B = HeadPart} (λ turn. (frame.new, map flat_statement code.new.items, flat_expression turn.test, map flat_statement turn.step.items)) result
        (task.head_faults frame.old (tree.head_of head.now)) (
          task.in_head frame.old (tree.head_of head.now),
          map flat_statement code.old.items ++ task.start_code (task.opened frame.old) (tree.head_of head.now).start,
          task.test_of (task.in_head frame.old (tree.head_of head.now)).scope (tree.head_of head.now).test,
          task.next_code (task.in_head frame.old (tree.head_of head.now)).scope (tree.head_of head.now).step,
        ) }
{
    frame.enter()?;
    start(frame, &head.start, code)?;
    let test = loop_test(frame, &head.test)?;
    let step = loop_step(frame, &head.step)?;
    Ok(Turn { test, step })
}

/// The code of a substatement, which is a block of its own (ISO C++ [stmt.select], [stmt.iter]).
#[cycle(statements)]
fn body(frame: &mut Frame, in_loop: bool, inner: &Statement) -> Result<Vec<Stmt>, CheckFault>
    ensures { ScopeAnswers {B = Part} (λ code. (frame.new, map flat_statement code.items)) result (task.statement_faults in_loop (task.opened frame.old) (tree.statement inner.now))
        (task.closed frame.old (task.after (task.opened frame.old) (tree.statement inner.now)), task.code_of (task.opened frame.old) (tree.statement inner.now)) }
{
    frame.enter()?;
    let mut code = Vec::new(frame.alloc());
    statement(frame, in_loop, inner, &mut code)?;
    frame.leave();
    Ok(code)
}

#[cycle(statements)]
fn block(
    frame: &mut Frame,
    in_loop: bool,
    inner: &[Statement],
    code: &mut Vec<Stmt>,
) -> Result<(), CheckFault>
    ensures { Adds result frame.new code.old.items code.new.items (task.statements_faults in_loop (task.opened frame.old) (tree.statements (map tree.statement inner.now)))
        (task.closed frame.old (task.after_all (task.opened frame.old) (tree.statements (map tree.statement inner.now))))
        (task.codes_of (task.opened frame.old) (tree.statements (map tree.statement inner.now))) }
{
    frame.enter()?;
    statements(frame, in_loop, inner, code)?;
    frame.leave();
    Ok(())
}

#[cycle(statements)]
fn counted(
    frame: &mut Frame,
    turn: Turn,
    inner: &Statement,
    code: &mut Vec<Stmt>,
) -> Result<(), CheckFault>
    ensures { Adds result frame.new code.old.items code.new.items (task.statement_faults true (task.opened frame.old) (tree.statement inner.now))
        (task.closed frame.old (task.after (task.opened frame.old) (tree.statement inner.now)))
        (flat.loop (flat_expression turn.test) (in_row (task.code_of (task.opened frame.old) (tree.statement inner.now))) (in_row (map flat_statement turn.step.items)) ∷ []) }
{
    push_loop(turn, body(frame, true, inner), code)
}

/// A statement; whether it is in a loop.
#[cycle(statements)]
fn statement(
    frame: &mut Frame,
    in_loop: bool,
    stated: &Statement,
    code: &mut Vec<Stmt>,
) -> Result<(), CheckFault>
    ensures { Adds result frame.new code.old.items code.new.items (task.statement_faults in_loop frame.old (tree.statement stated.now))
        (task.after frame.old (tree.statement stated.now)) (task.code_of frame.old (tree.statement stated.now)) }
{
    match stated {
        Statement::Attributed(_, inner) => statement(frame, in_loop, inner, code),
        Statement::Empty => Ok(()),
        Statement::Block(inner) => block(frame, in_loop, inner, code),
        Statement::Declare(declared) => declaration(frame, declared, code),
        Statement::Act(done) => action(frame.alloc(), frame.scope(), done, code),
        Statement::If(condition, inner) => {
            let test = test(frame, condition)?;
            push_if(frame.alloc(), test, body(frame, in_loop, inner), code)
        }
        Statement::IfElse(condition, first, second) => {
            let test = test(frame, condition)?;
            let step = body(frame, in_loop, first)?;
            push_if_else(Turn { test, step }, body(frame, in_loop, second), code)
        }
        Statement::While(condition, inner) => {
            let test = test(frame, condition)?;
            let step = Vec::new(frame.alloc());
            counted(frame, Turn { test, step }, inner, code)
        }
        Statement::For {
            head: told,
            body: inner,
        } => {
            let turn = head(frame, told, code)?;
            counted(frame, turn, inner, code)?;
            frame.leave();
            Ok(())
        }
        Statement::WhileNotEot(stream, inner) => {
            let test = not_at_end(frame, stream)?;
            let step = Vec::new(frame.alloc());
            counted(frame, Turn { test, step }, inner, code)
        }
        Statement::Break(place) => jump(in_loop, *place, true, code),
        Statement::Continue(place) => jump(in_loop, *place, false, code),
    }
}

/// Statements, in order.
#[cycle(statements)]
pub(crate) fn statements(
    frame: &mut Frame,
    in_loop: bool,
    inner: &[Statement],
    code: &mut Vec<Stmt>,
) -> Result<(), CheckFault>
    ensures { Adds result frame.new code.old.items code.new.items (task.statements_faults in_loop frame.old (tree.statements (map tree.statement inner.now)))
        (task.after_all frame.old (tree.statements (map tree.statement inner.now))) (task.codes_of frame.old (tree.statements (map tree.statement inner.now))) }
{
    for stated in inner {
        statement(frame, in_loop, stated, code)?;
    }
    Ok(())
}
