//! Actions: what a statement does that is no declaration.

ghost use Rattle.std.specs.Prelude.{◌≡◌, map};
ghost use Rattle.tapa_syntax.specs.Limits.{most_operators};
ghost use Rattle.tapa_syntax.specs.Trees as view;
ghost use Rattle.tapa_syntax.specs.declared.terminal.Terminal.TheVariants as terminal;
ghost use Rattle.tapa_parse_expression.specs.Readers.{Gives, separated_until, separated};
ghost use Rattle.tapa_parse_expression.specs.Reading as spec;

use crate::terminal::{assignment_operator, step_operator};
use std::alloc::Global;
use tapa_parse_expression::{Fault, ParseCode, Parser, is_name};
use tapa_syntax::{Action, Expression, Name, PlaceExpression, StepOperator, Terminal};

/// Most operators of an expression.
const MOST_OPERATORS: u32 = 1000;

/// The level of sums.
const SUM_LEVEL: u8 = 2;

/// An expression that is part of no other.
pub(crate) fn whole_expression(parser: &mut Parser, levels: u32) -> Result<Expression, Fault>
    ensures { Gives view.expression result parser.new (spec.whole (spec.at levels).expression most_operators parser.old) }
{
    let mut operators = MOST_OPERATORS;
    parser.expression(levels, &mut operators)
}

fn sum(parser: &mut Parser, levels: u32) -> Result<Expression, Fault>
    ensures { Gives view.expression result parser.new (spec.sum most_operators (spec.below levels) parser.old) }
{
    let mut operators = MOST_OPERATORS;
    parser.level(SUM_LEVEL, levels, &mut operators)
}

/// An expression in parentheses that is part of no other.
pub(crate) fn condition(parser: &mut Parser, levels: u32) -> Result<Expression, Fault>
    ensures { Gives view.expression result parser.new (spec.condition most_operators (spec.below levels) parser.old) }
{
    let mut operators = MOST_OPERATORS;
    parser.in_parentheses(levels, &mut operators)
}

fn index(parser: &mut Parser, levels: u32) -> Result<Expression, Fault>
    ensures { Gives view.expression result parser.new (spec.index most_operators (spec.below levels) parser.old) }
{
    let mut operators = MOST_OPERATORS;
    parser.in_brackets(levels, &mut operators)
}

#[tactic(auto, unfolding(tapa_parse_expression::specs::Reading::place_from))]
fn place_from(parser: &mut Parser, name: Name, levels: u32) -> Result<PlaceExpression, Fault>
    ensures { Gives view.place_expression_of result parser.new (spec.place_from most_operators (spec.below levels) name parser.old) }
{
    if parser.sees(Terminal::LeftBracket) {
        let index = index(parser, levels)?;
        Ok(PlaceExpression::Element(name, index))
    } else {
        Ok(PlaceExpression::Variable(name))
    }
}

#[tactic(auto, unfolding(tapa_parse_expression::specs::Reading::place_with))]
fn place_expression(parser: &mut Parser, levels: u32) -> Result<PlaceExpression, Fault>
    ensures { Gives view.place_expression_of result parser.new ((spec.at levels).place parser.old) }
{
    let name = parser.name()?;
    place_from(parser, name, levels)
}

fn whole_argument(parser: &mut Parser, levels: u32) -> Result<Expression, Fault>
    ensures { Gives view.expression result parser.new (spec.whole (spec.argument (spec.at levels)) most_operators parser.old) }
{
    let mut operators = MOST_OPERATORS;
    parser.argument(levels, &mut operators)
}

// At least one.
#[tactic(auto, unfolding(tapa_parse_expression::specs::Readers::separated, tapa_parse_expression::specs::Readers::repeat_behind, tapa_parse_expression::specs::Readers::repeat_from))]
fn separated_arguments(parser: &mut Parser, levels: u32) -> Result<Vec<Expression>, Fault>
    ensures { Gives (λ es. map view.expression es.items) result parser.new (separated terminal.Comma (spec.whole (spec.argument (spec.at levels)) most_operators) parser.old) }
{
    let mut found = Vec::new(parser.alloc());
    found.push(whole_argument(parser, levels)?)?;
    for _turn in 0..parser.left() {
        if !parser.sees(Terminal::Comma) {
            return Ok(found);
        }
        parser.skip();
        found.push(whole_argument(parser, levels)?)?;
    }
    Ok(found)
}

#[tactic(auto, unfolding(tapa_parse_expression::specs::Readers::separated_until))]
fn listed_call_arguments(parser: &mut Parser, levels: u32) -> Result<Vec<Expression>, Fault>
    ensures { Gives (λ es. map view.expression es.items) result parser.new
        (separated_until terminal.RightParen terminal.Comma (spec.whole (spec.argument (spec.at levels)) most_operators) parser.old) }
{
    if parser.sees(Terminal::RightParen) {
        Ok(Vec::new(parser.alloc()))
    } else {
        separated_arguments(parser, levels)
    }
}

#[tactic(auto, unfolding(tapa_parse_expression::specs::Reading::call_arguments))]
fn call_arguments(parser: &mut Parser, levels: u32) -> Result<Vec<Expression>, Fault>
    ensures { Gives (λ es. map view.expression es.items) result parser.new (spec.call_arguments most_operators (spec.below levels) parser.old) }
{
    let levels = parser.open(Terminal::LeftParen, levels)?;
    let found = listed_call_arguments(parser, levels)?;
    parser.expect(Terminal::RightParen)?;
    Ok(found)
}

#[tactic(auto, unfolding(tapa_parse_expression::specs::Readers::repeat_behind, tapa_parse_expression::specs::Readers::repeat_from))]
fn written(parser: &mut Parser, levels: u32) -> Result<Vec<Expression>, Fault>
    ensures { Gives (λ es. map view.expression es.items) result parser.new (spec.written most_operators (spec.below levels) parser.old) }
{
    let mut found = Vec::new(parser.alloc());
    for _turn in 0..parser.left() {
        if !parser.sees(Terminal::ShiftLeft) {
            return Ok(found);
        }
        parser.skip();
        found.push(sum(parser, levels)?)?;
    }
    Ok(found)
}

#[tactic(auto, unfolding(tapa_parse_expression::specs::Readers::repeat_behind, tapa_parse_expression::specs::Readers::repeat_from))]
fn targets(parser: &mut Parser, levels: u32) -> Result<Vec<PlaceExpression>, Fault>
    ensures { Gives (λ ps. map view.place_expression_of ps.items) result parser.new (spec.targets most_operators (spec.below levels) parser.old) }
{
    let mut found = Vec::new(parser.alloc());
    for _turn in 0..parser.left() {
        if !parser.sees(Terminal::ShiftRight) {
            return Ok(found);
        }
        parser.skip();
        found.push(place_expression(parser, levels)?)?;
    }
    Ok(found)
}

// What follows the target of an assignment.
#[tactic(auto, unfolding(tapa_parse_expression::specs::Reading::assigned))]
fn assigned(parser: &mut Parser, target: PlaceExpression, levels: u32) -> Result<Action, Fault>
    ensures { Gives view.action_of result parser.new (spec.assigned most_operators (spec.below levels) (view.place_expression_of target) parser.old) }
{
    if let Some(step) = step_operator(parser.next()) {
        let place = parser.place();
        parser.skip();
        return Ok(Action::Postfix {
            target,
            step,
            place,
        });
    }
    let Some(operator) = assignment_operator(parser.next()) else {
        return Err(Fault::Refused(ParseCode::P1));
    };
    let place = parser.place();
    parser.skip();
    let value = whole_expression(parser, levels)?;
    Ok(Action::Assign {
        target,
        operator,
        place,
        value,
    })
}

// What follows the name with which an action begins.
#[tactic(auto, unfolding(tapa_parse_expression::specs::Reading::acted))]
fn acted(parser: &mut Parser, name: Name, levels: u32) -> Result<Action, Fault>
    ensures { Gives view.action_of result parser.new (spec.acted most_operators (spec.below levels) name parser.old) }
{
    match parser.next() {
        Terminal::Dot => {
            parser.skip();
            let method = parser.plain_name()?;
            let arguments = call_arguments(parser, levels)?;
            Ok(Action::Call {
                stream: name,
                method,
                arguments,
            })
        }
        Terminal::ShiftLeft => {
            let values = written(parser, levels)?;
            Ok(Action::Write(name, values))
        }
        Terminal::ShiftRight => {
            let targets = targets(parser, levels)?;
            Ok(Action::Read(name, targets))
        }
        _ => {
            let target = place_from(parser, name, levels)?;
            assigned(parser, target, levels)
        }
    }
}

#[tactic(auto, unfolding(tapa_parse_expression::specs::Reading::stepped))]
fn stepped(parser: &mut Parser, step: StepOperator, levels: u32) -> Result<Action, Fault>
    ensures { Gives view.action_of result parser.new (spec.stepped most_operators (spec.below levels) step parser.old) }
{
    let levels = parser.enter(levels)?;
    let place = parser.place();
    parser.skip();
    let target = place_expression(parser, levels)?;
    Ok(Action::Prefix {
        step,
        place,
        target,
    })
}

#[tactic(auto, unfolding(tapa_parse_expression::specs::Reading::action_with))]
pub(crate) fn action(parser: &mut Parser, levels: u32) -> Result<Action, Fault>
    ensures { Gives view.action_of result parser.new ((spec.at levels).action parser.old) }
{
    if is_name(parser.next()) {
        let name = parser.name()?;
        return acted(parser, name, levels);
    }
    match step_operator(parser.next()) {
        Some(step) => stepped(parser, step, levels),
        None => Err(Fault::Refused(ParseCode::P1)),
    }
}
