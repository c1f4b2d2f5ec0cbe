//! Statements.

ghost use Rattle.std.specs.Prelude.{◌≡◌, List, map};
ghost use Rattle.tapa_syntax.specs.Symbols.{Symbol};
ghost use Rattle.tapa_syntax.specs.Limits.{most_operators};
ghost use Rattle.tapa_syntax.specs.Trees as view;
ghost use Rattle.tapa_syntax.specs.declared.terminal.Terminal.TheVariants as terminal;
ghost use Rattle.tapa_syntax.specs.Trees.{StatementTree};
ghost use Rattle.tapa_parse_expression.specs.Readers.{Gives, Outcome, and_then, expect, pure};
ghost use Rattle.tapa_parse_expression.specs.Reading as spec;

use crate::action::{action, condition, whole_expression};
use crate::declaration::{attributes, declaration};
use crate::terminal::{begins_action, begins_statement};
use std::alloc::Global;
use tapa_base::Place;
use tapa_parse_expression::{Fault, ParseCode, Parser};
use tapa_syntax::{Action, Expression, ForHead, ForStart, Statement, Terminal};

// A statement in a box, where it was read or refused.
fn boxed(alloc: Global, found: Result<Statement, Fault>) -> Result<Box<Statement>, Fault>
    ensures { (left : List Symbol) (outcome : Outcome StatementTree) → Gives view.statement found left outcome → Gives (λ s. view.statement s.value) result left outcome }
{
    let found = found?;
    Ok(Box::new(alloc, found)?)
}

// A statement of its parts, where the last was read or refused. These functions are outside the recursion, so that no branch
// is made there while the other parts are alive, and have one branch each.
fn for_statement(
    head: Box<ForHead>,
    body: Result<Box<Statement>, Fault>,
) -> Result<Statement, Fault>
    ensures { (left : List Symbol) (outcome : Outcome StatementTree) → Gives (λ s. view.statement s.value) body left outcome
        → Gives view.statement result left (and_then outcome (λ s. pure (view.for (view.head_of head.value) s))) }
{
    let body = body?;
    Ok(Statement::For { head, body })
}

fn if_else_statement(
    test: Expression,
    first: Box<Statement>,
    second: Result<Box<Statement>, Fault>,
) -> Result<Statement, Fault>
    ensures { (left : List Symbol) (outcome : Outcome StatementTree) → Gives (λ s. view.statement s.value) second left outcome
        → Gives view.statement result left (and_then outcome (λ t. pure (view.if_else (view.expression test) (view.statement first.value) t))) }
{
    let second = second?;
    Ok(Statement::IfElse(test, first, second))
}

fn while_statement(
    test: Expression,
    body: Result<Box<Statement>, Fault>,
) -> Result<Statement, Fault>
    ensures { (left : List Symbol) (outcome : Outcome StatementTree) → Gives (λ s. view.statement s.value) body left outcome
        → Gives view.statement result left (and_then outcome (λ s. pure (view.while (view.expression test) s))) }
{
    let body = body?;
    Ok(Statement::While(test, body))
}

// An action and a semicolon.
fn act(parser: &mut Parser, levels: u32) -> Result<Statement, Fault>
    ensures { Gives view.statement result parser.new (and_then (spec.action_with most_operators (spec.below levels) parser.old)
        (λ a i. and_then (expect terminal.Semicolon i) (λ x. pure (view.act a)))) }
{
    let action = action(parser, levels)?;
    parser.expect(Terminal::Semicolon)?;
    Ok(Statement::Act(action))
}

// A declaration and a semicolon.
fn declare(parser: &mut Parser, levels: u32) -> Result<Statement, Fault>
    ensures { Gives view.statement result parser.new (and_then (spec.declaration_with most_operators (spec.below levels) parser.old)
        (λ d i. and_then (expect terminal.Semicolon i) (λ x. pure (view.declare d)))) }
{
    let declaration = declaration(parser, levels)?;
    parser.expect(Terminal::Semicolon)?;
    Ok(Statement::Declare(declaration))
}

// An action or a declaration, and a semicolon.
#[tactic(auto, unfolding(tapa_parse_expression::specs::Reading::simple))]
fn simple(parser: &mut Parser, levels: u32) -> Result<Statement, Fault>
    ensures { Gives view.statement result parser.new (spec.simple most_operators (spec.below levels) parser.old) }
{
    if begins_action(parser.next()) {
        act(parser, levels)
    } else {
        declare(parser, levels)
    }
}

#[tactic(auto, unfolding(tapa_parse_expression::specs::Reading::jump))]
fn jump(parser: &mut Parser) -> Result<Place, Fault>
    ensures { Gives (λ x. x) result parser.new (spec.jump parser.old) }
{
    let place = parser.place();
    parser.skip();
    parser.expect(Terminal::Semicolon)?;
    Ok(place)
}

#[tactic(auto, unfolding(tapa_parse_expression::specs::Reading::start))]
fn start(parser: &mut Parser, levels: u32) -> Result<ForStart, Fault>
    ensures { Gives view.start_of result parser.new (spec.start (spec.at levels) parser.old) }
{
    if parser.sees(Terminal::Semicolon) {
        return Ok(ForStart::Nothing);
    }
    if begins_action(parser.next()) {
        let action = action(parser, levels)?;
        return Ok(ForStart::Act(action));
    }
    let declaration = declaration(parser, levels)?;
    Ok(ForStart::Declare(declaration))
}

#[tactic(auto, unfolding(tapa_parse_expression::specs::Reading::loop_test))]
fn test(parser: &mut Parser, levels: u32) -> Result<Option<Expression>, Fault>
    ensures { Gives (view.option_of view.expression) result parser.new (spec.loop_test most_operators (spec.at levels) parser.old) }
{
    if parser.sees(Terminal::Semicolon) {
        return Ok(None);
    }
    let e = whole_expression(parser, levels)?;
    Ok(Some(e))
}

#[tactic(auto, unfolding(tapa_parse_expression::specs::Reading::step))]
fn step(parser: &mut Parser, levels: u32) -> Result<Option<Action>, Fault>
    ensures { Gives (view.option_of view.action_of) result parser.new (spec.step (spec.at levels) parser.old) }
{
    if parser.sees(Terminal::RightParen) {
        return Ok(None);
    }
    let action = action(parser, levels)?;
    Ok(Some(action))
}

#[tactic(auto, unfolding(tapa_parse_expression::specs::Reading::head))]
fn head(parser: &mut Parser, levels: u32) -> Result<Box<ForHead>, Fault>
    ensures { Gives (λ head. view.head_of head.value) result parser.new (spec.head most_operators (spec.below levels) parser.old) }
{
    let levels = parser.open(Terminal::LeftParen, levels)?;
    let start = start(parser, levels)?;
    parser.expect(Terminal::Semicolon)?;
    let test = test(parser, levels)?;
    parser.expect(Terminal::Semicolon)?;
    let step = step(parser, levels)?;
    parser.expect(Terminal::RightParen)?;
    Ok(Box::new(parser.alloc(), ForHead { start, test, step })?)
}

#[cycle(statement)]
#[tactic(auto, unfolding(tapa_parse_expression::specs::Reading::statement_with))]
fn statement(parser: &mut Parser, levels: u32) -> Result<Statement, Fault>
    ensures { Gives view.statement result parser.new (spec.statement_with most_operators (spec.below levels) parser.old) }
{
    if !begins_statement(parser.next()) {
        return Err(Fault::Refused(ParseCode::P1));
    }
    let levels = parser.enter(levels)?;
    inside(parser, levels)
}

/// Statements up to a closing brace.
#[cycle(statement)]
#[tactic(auto, unfolding(tapa_parse_expression::specs::Readers::repeat_behind, tapa_parse_expression::specs::Readers::repeat_from))]
pub(crate) fn statements(parser: &mut Parser, levels: u32) -> Result<Vec<Statement>, Fault>
    ensures { Gives (λ ss. map view.statement ss.items) result parser.new (spec.statements_with most_operators (spec.below levels) parser.old) }
{
    let mut found = Vec::new(parser.alloc());
    for _turn in 0..parser.left() {
        if parser.sees(Terminal::RightBrace) {
            return Ok(found);
        }
        found.push(statement(parser, levels)?)?;
    }
    Ok(found)
}

#[cycle(statement)]
#[tactic(auto, unfolding(tapa_parse_expression::specs::Reading::braces))]
fn braces(parser: &mut Parser, levels: u32) -> Result<Statement, Fault>
    ensures { Gives view.statement result parser.new (spec.braces most_operators (spec.below levels) parser.old) }
{
    parser.skip();
    let inner = statements(parser, levels)?;
    parser.expect(Terminal::RightBrace)?;
    Ok(Statement::Block(inner))
}

// What may follow the first side of an `if`: an `else` belongs to the nearest one.
#[cycle(statement)]
#[tactic(auto, unfolding(tapa_parse_expression::specs::Reading::otherwise))]
fn otherwise(
    parser: &mut Parser,
    test: Expression,
    first: Box<Statement>,
    levels: u32,
) -> Result<Statement, Fault>
    ensures { Gives view.statement result parser.new (spec.otherwise most_operators (spec.below levels) (view.expression test) (view.statement first.value) parser.old) }
{
    if !parser.sees(Terminal::Else) {
        return Ok(Statement::If(test, first));
    }
    parser.skip();
    let second = statement(parser, levels);
    if_else_statement(test, first, boxed(parser.alloc(), second))
}

#[cycle(statement)]
#[tactic(auto, unfolding(tapa_parse_expression::specs::Reading::choice))]
fn choice(parser: &mut Parser, levels: u32) -> Result<Statement, Fault>
    ensures { Gives view.statement result parser.new (spec.choice most_operators (spec.below levels) parser.old) }
{
    parser.skip();
    let test = condition(parser, levels)?;
    let first = statement(parser, levels);
    let first = boxed(parser.alloc(), first)?;
    otherwise(parser, test, first, levels)
}

#[cycle(statement)]
#[tactic(auto, unfolding(tapa_parse_expression::specs::Reading::repetition))]
fn repetition(parser: &mut Parser, levels: u32) -> Result<Statement, Fault>
    ensures { Gives view.statement result parser.new (spec.repetition most_operators (spec.below levels) parser.old) }
{
    parser.skip();
    let test = condition(parser, levels)?;
    let body = statement(parser, levels);
    while_statement(test, boxed(parser.alloc(), body))
}

#[cycle(statement)]
#[tactic(auto, unfolding(tapa_parse_expression::specs::Reading::counting_loop))]
fn counting_loop(parser: &mut Parser, levels: u32) -> Result<Statement, Fault>
    ensures { Gives view.statement result parser.new (spec.counting_loop most_operators (spec.below levels) parser.old) }
{
    parser.skip();
    let head = head(parser, levels)?;
    let body = statement(parser, levels);
    for_statement(head, boxed(parser.alloc(), body))
}

#[cycle(statement)]
#[tactic(auto, unfolding(tapa_parse_expression::specs::Reading::transaction_loop))]
fn transaction_loop(parser: &mut Parser, levels: u32) -> Result<Statement, Fault>
    ensures { Gives view.statement result parser.new (spec.transaction_loop most_operators (spec.below levels) parser.old) }
{
    parser.skip();
    parser.open(Terminal::LeftParen, levels)?;
    let stream = parser.name()?;
    parser.expect(Terminal::RightParen)?;
    let body = statement(parser, levels)?;
    Ok(Statement::WhileNotEot(stream, Box::new(parser.alloc(), body)?))
}

// A statement without attributes, whose level is open.
#[cycle(statement)]
#[tactic(auto, unfolding(tapa_parse_expression::specs::Reading::bare))]
fn bare(parser: &mut Parser, levels: u32) -> Result<Statement, Fault>
    ensures { Gives view.statement result parser.new (spec.bare most_operators (spec.below levels) parser.old) }
{
    match parser.next() {
        Terminal::Semicolon => {
            parser.skip();
            Ok(Statement::Empty)
        }
        Terminal::LeftBrace => braces(parser, levels),
        Terminal::If => choice(parser, levels),
        Terminal::While => repetition(parser, levels),
        Terminal::For => counting_loop(parser, levels),
        Terminal::WhileNotEot => transaction_loop(parser, levels),
        Terminal::Break => {
            let place = jump(parser)?;
            Ok(Statement::Break(place))
        }
        Terminal::Continue => {
            let place = jump(parser)?;
            Ok(Statement::Continue(place))
        }
        _ => simple(parser, levels),
    }
}

// A statement whose level is open.
#[cycle(statement)]
#[tactic(auto, unfolding(tapa_parse_expression::specs::Reading::inside_with))]
fn inside(parser: &mut Parser, levels: u32) -> Result<Statement, Fault>
    ensures { Gives view.statement result parser.new ((spec.at levels).inside parser.old) }
{
    if !parser.sees(Terminal::LeftBracket) {
        return bare(parser, levels);
    }
    let attributes = attributes(parser, levels)?;
    let bare = bare(parser, levels)?;
    Ok(Statement::Attributed(attributes, Box::new(parser.alloc(), bare)?))
}
