//! Declarations of variables and arrays, and attributes.

ghost use Rattle.std.specs.Prelude.{◌≡◌, map, Some};
ghost use Rattle.tapa_syntax.specs.Limits.{most_operators};
ghost use Rattle.tapa_syntax.specs.Trees as view;
ghost use Rattle.tapa_syntax.specs.declared.terminal.Terminal.TheVariants as terminal;
ghost use Rattle.tapa_parse_expression.specs.Readers.{Gives, separated_until, separated};
ghost use Rattle.tapa_parse_expression.specs.Reading as spec;

use crate::action::{condition, whole_expression};
use std::alloc::Global;
use tapa_parse_expression::{Fault, Parser};
use tapa_syntax::{
    Attribute, AttributeArgument, AttributeArguments, Count, CountValue, Declaration, Declarator,
    Name, Terminal,
};

fn count_value(parser: &mut Parser, levels: u32) -> Result<CountValue, Fault>
    ensures { Gives view.count_form_of result parser.new (spec.form most_operators (spec.below levels) parser.old) }
{
    match parser.next() {
        Terminal::Literal => {
            let (kind, value) = parser.literal()?;
            Ok(CountValue::Literal(kind, value))
        }
        Terminal::LeftParen => {
            let e = condition(parser, levels)?;
            Ok(CountValue::Parenthesized(e))
        }
        _ => {
            let name = parser.name()?;
            Ok(CountValue::Name(name))
        }
    }
}

/// A depth or a number of cells.
#[tactic(auto, unfolding(tapa_parse_expression::specs::Reading::counted))]
pub(crate) fn count(parser: &mut Parser, levels: u32) -> Result<Count, Fault>
    ensures { Gives view.count_of result parser.new (spec.counted most_operators (spec.below levels) parser.old) }
{
    let place = parser.place();
    let value = count_value(parser, levels)?;
    Ok(Count { place, value })
}

// What follows the name of a variable, from `=` on.
fn initialized(parser: &mut Parser, name: Name, levels: u32) -> Result<Declarator, Fault>
    ensures { Gives view.declarator_of result parser.new (spec.declarator_by most_operators (spec.below levels) terminal.Assign name parser.old) }
{
    parser.skip();
    let value = whole_expression(parser, levels)?;
    Ok(Declarator::Initialized(name, value))
}

// What follows the name of an array, from `[` on.
fn array(parser: &mut Parser, name: Name, levels: u32) -> Result<Declarator, Fault>
    ensures { Gives view.declarator_of result parser.new (spec.declarator_by most_operators (spec.below levels) terminal.LeftBracket name parser.old) }
{
    parser.skip();
    let cells = count(parser, levels)?;
    parser.expect(Terminal::RightBracket)?;
    Ok(Declarator::Array(name, cells))
}

#[tactic(auto, unfolding(tapa_parse_expression::specs::Reading::declarator))]
fn declarator(parser: &mut Parser, levels: u32) -> Result<Declarator, Fault>
    ensures { Gives view.declarator_of result parser.new (spec.declarator most_operators (spec.below levels) parser.old) }
{
    let name = parser.name()?;
    match parser.next() {
        Terminal::Assign => initialized(parser, name, levels),
        Terminal::LeftBracket => array(parser, name, levels),
        _ => Ok(Declarator::Plain(name)),
    }
}

#[tactic(auto, unfolding(tapa_parse_expression::specs::Readers::separated, tapa_parse_expression::specs::Readers::repeat_behind, tapa_parse_expression::specs::Readers::repeat_from))]
fn declarators(parser: &mut Parser, levels: u32) -> Result<Vec<Declarator>, Fault>
    ensures { Gives (λ ds. map view.declarator_of ds.items) result parser.new (separated terminal.Comma (spec.declarator most_operators (spec.below levels)) parser.old) }
{
    let mut found = Vec::new(parser.alloc());
    found.push(declarator(parser, levels)?)?;
    for _turn in 0..parser.left() {
        if !parser.sees(Terminal::Comma) {
            return Ok(found);
        }
        parser.skip();
        found.push(declarator(parser, levels)?)?;
    }
    Ok(found)
}

#[tactic(auto, unfolding(tapa_parse_expression::specs::Reading::declaration_with))]
pub(crate) fn declaration(parser: &mut Parser, levels: u32) -> Result<Declaration, Fault>
    ensures { Gives view.declaration_of result parser.new ((spec.at levels).declaration parser.old) }
{
    let constant = parser.eat(Terminal::Const);
    let kind = parser.kind()?;
    let names = declarators(parser, levels)?;
    Ok(Declaration {
        constant,
        kind,
        names,
    })
}

#[tactic(auto, unfolding(tapa_parse_expression::specs::Reading::attribute_argument))]
fn attribute_argument(parser: &mut Parser) -> Result<AttributeArgument, Fault>
    ensures { Gives (λ x. x) result parser.new (spec.attribute_argument parser.old) }
{
    match parser.next() {
        Terminal::Literal => {
            let (kind, value) = parser.literal()?;
            Ok(AttributeArgument::Literal(kind, value))
        }
        Terminal::Str => {
            parser.skip();
            Ok(AttributeArgument::Str)
        }
        _ => {
            let name = parser.name()?;
            Ok(AttributeArgument::Name(name))
        }
    }
}

#[tactic(auto, unfolding(tapa_parse_expression::specs::Readers::separated, tapa_parse_expression::specs::Readers::repeat_behind, tapa_parse_expression::specs::Readers::repeat_from))]
fn separated_attribute_arguments(parser: &mut Parser) -> Result<Vec<AttributeArgument>, Fault>
    ensures { Gives (λ xs. xs.items) result parser.new (separated terminal.Comma spec.attribute_argument parser.old) }
{
    let mut found = Vec::new(parser.alloc());
    found.push(attribute_argument(parser)?)?;
    for _turn in 0..parser.left() {
        if !parser.sees(Terminal::Comma) {
            return Ok(found);
        }
        parser.skip();
        found.push(attribute_argument(parser)?)?;
    }
    Ok(found)
}

#[tactic(auto, unfolding(tapa_parse_expression::specs::Readers::separated_until))]
fn any_attribute_arguments(parser: &mut Parser) -> Result<Vec<AttributeArgument>, Fault>
    ensures { Gives (λ xs. xs.items) result parser.new (separated_until terminal.RightParen terminal.Comma spec.attribute_argument parser.old) }
{
    if parser.sees(Terminal::RightParen) {
        Ok(Vec::new(parser.alloc()))
    } else {
        separated_attribute_arguments(parser)
    }
}

#[tactic(auto, unfolding(tapa_parse_expression::specs::Reading::listed_arguments))]
fn listed_arguments(parser: &mut Parser, levels: u32) -> Result<Vec<AttributeArgument>, Fault>
    ensures { Gives (λ xs. xs.items) result parser.new (spec.listed_arguments (spec.below levels) parser.old) }
{
    parser.open(Terminal::LeftParen, levels)?;
    let found = any_attribute_arguments(parser)?;
    parser.expect(Terminal::RightParen)?;
    Ok(found)
}

#[tactic(auto, unfolding(tapa_parse_expression::specs::Reading::attribute_arguments))]
fn attribute_arguments(parser: &mut Parser, levels: u32) -> Result<AttributeArguments, Fault>
    ensures { Gives view.attribute_arguments_of result parser.new (spec.attribute_arguments (spec.below levels) parser.old) }
{
    if parser.sees(Terminal::LeftParen) {
        let listed = listed_arguments(parser, levels)?;
        Ok(AttributeArguments::Listed(listed))
    } else {
        Ok(AttributeArguments::Absent)
    }
}

#[tactic(auto, unfolding(tapa_parse_expression::specs::Reading::attribute))]
fn attribute(parser: &mut Parser, levels: u32) -> Result<Attribute, Fault>
    ensures { Gives view.attribute_of result parser.new (spec.attribute (spec.below levels) parser.old) }
{
    parser.expect(Terminal::LeftBracket)?;
    parser.expect(Terminal::LeftBracket)?;
    parser.expect(Terminal::Tapa)?;
    parser.expect(Terminal::Scope)?;
    let name = parser.plain_name()?;
    let arguments = attribute_arguments(parser, levels)?;
    parser.expect(Terminal::RightBracket)?;
    parser.expect(Terminal::RightBracket)?;
    Ok(Attribute { name, arguments })
}

#[tactic(auto, unfolding(tapa_parse_expression::specs::Readers::repeat_behind, tapa_parse_expression::specs::Readers::repeat_from))]
pub(crate) fn attributes(parser: &mut Parser, levels: u32) -> Result<Vec<Attribute>, Fault>
    ensures { Gives (λ xs. map view.attribute_of xs.items) result parser.new (spec.attributes (spec.below levels) parser.old) }
{
    let mut found = Vec::new(parser.alloc());
    for _turn in 0..parser.left() {
        if !parser.sees(Terminal::LeftBracket) {
            return Ok(found);
        }
        found.push(attribute(parser, levels)?)?;
    }
    Ok(found)
}
