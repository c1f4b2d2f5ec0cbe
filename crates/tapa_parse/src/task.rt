//! Tasks and files.

ghost use Rattle.std.specs.Prelude.{◌≡◌, map};
ghost use Rattle.tapa_syntax.specs.Limits.{most_operators};
ghost use Rattle.tapa_syntax.specs.Trees as view;
ghost use Rattle.tapa_syntax.specs.declared.terminal.Terminal.TheVariants as terminal;
ghost use Rattle.tapa_parse_expression.specs.Readers.{Gives, separated_until, separated};
ghost use Rattle.tapa_parse.specs.Reading as spec;

use crate::action::whole_expression;
use crate::declaration::{attributes, count};
use crate::statement::statements;
use std::alloc::Global;
use tapa_base::Kind;
use tapa_parse_expression::{Fault, ParseCode, Parser};
use tapa_syntax::{
    Attribute, Count, File, FileItem, Invocation, InvocationArgument, Name, Parameter,
    StreamDeclaration, TaskBody, TaskDeclaration, Terminal,
};

#[tactic(auto, unfolding(crate::specs::Reading::stream_kind))]
fn stream_kind(parser: &mut Parser) -> Result<Kind, Fault>
    ensures { Gives (λ x. x) result parser.new (spec.stream_kind parser.old) }
{
    parser.skip();
    parser.expect(Terminal::Less)?;
    let kind = parser.kind()?;
    parser.expect(Terminal::Greater)?;
    parser.expect(Terminal::Ampersand)?;
    Ok(kind)
}

// A parameter after `tapa::`.
#[tactic(auto, unfolding(crate::specs::Reading::port))]
fn port(parser: &mut Parser) -> Result<Parameter, Fault>
    ensures { Gives (λ x. x) result parser.new (spec.port parser.old) }
{
    match parser.next() {
        Terminal::Istream => {
            let kind = stream_kind(parser)?;
            let name = parser.name()?;
            Ok(Parameter::InputStream(kind, name))
        }
        Terminal::Ostream => {
            let kind = stream_kind(parser)?;
            let name = parser.name()?;
            Ok(Parameter::OutputStream(kind, name))
        }
        Terminal::Mmap => {
            parser.skip();
            parser.expect(Terminal::Less)?;
            let constant = parser.eat(Terminal::Const);
            let kind = parser.kind()?;
            parser.expect(Terminal::Greater)?;
            let name = parser.name()?;
            Ok(Parameter::Memory {
                constant,
                kind,
                name,
            })
        }
        _ => Err(Fault::Refused(ParseCode::P1)),
    }
}

#[tactic(auto, unfolding(crate::specs::Reading::scalar))]
fn scalar(parser: &mut Parser) -> Result<Parameter, Fault>
    ensures { Gives (λ x. x) result parser.new (spec.scalar parser.old) }
{
    let constant = parser.eat(Terminal::Const);
    let kind = parser.kind()?;
    let name = parser.name()?;
    Ok(Parameter::Scalar {
        constant,
        kind,
        name,
    })
}

#[tactic(auto, unfolding(crate::specs::Reading::parameter))]
fn parameter(parser: &mut Parser) -> Result<Parameter, Fault>
    ensures { Gives (λ x. x) result parser.new (spec.parameter parser.old) }
{
    if !parser.sees(Terminal::Tapa) {
        return scalar(parser);
    }
    parser.skip();
    parser.expect(Terminal::Scope)?;
    port(parser)
}

#[tactic(auto, unfolding(tapa_parse_expression::specs::Readers::separated, tapa_parse_expression::specs::Readers::repeat_behind, tapa_parse_expression::specs::Readers::repeat_from))]
fn separated_parameters(parser: &mut Parser) -> Result<Vec<Parameter>, Fault>
    ensures { Gives (λ xs. xs.items) result parser.new (separated terminal.Comma spec.parameter parser.old) }
{
    let mut found = Vec::new(parser.alloc());
    found.push(parameter(parser)?)?;
    for _turn in 0..parser.left() {
        if !parser.sees(Terminal::Comma) {
            return Ok(found);
        }
        parser.skip();
        found.push(parameter(parser)?)?;
    }
    Ok(found)
}

#[tactic(auto, unfolding(tapa_parse_expression::specs::Readers::separated_until))]
fn any_parameters(parser: &mut Parser) -> Result<Vec<Parameter>, Fault>
    ensures { Gives (λ xs. xs.items) result parser.new (separated_until terminal.RightParen terminal.Comma spec.parameter parser.old) }
{
    if parser.sees(Terminal::RightParen) {
        Ok(Vec::new(parser.alloc()))
    } else {
        separated_parameters(parser)
    }
}

#[tactic(auto, unfolding(crate::specs::Reading::parameters))]
fn parameters(parser: &mut Parser) -> Result<Vec<Parameter>, Fault>
    ensures { Gives (λ xs. xs.items) result parser.new (spec.parameters parser.old) }
{
    parser.expect(Terminal::LeftParen)?;
    let found = any_parameters(parser)?;
    parser.expect(Terminal::RightParen)?;
    Ok(found)
}

// A stream's name, and the string that may follow it.
#[tactic(auto, unfolding(crate::specs::Reading::stream_name))]
fn stream_name(parser: &mut Parser) -> Result<Name, Fault>
    ensures { Gives (λ x. x) result parser.new (spec.stream_name parser.old) }
{
    let name = parser.name()?;
    if !parser.sees(Terminal::LeftParen) {
        return Ok(name);
    }
    parser.skip();
    parser.expect(Terminal::Str)?;
    parser.expect(Terminal::RightParen)?;
    Ok(name)
}

#[tactic(auto, unfolding(tapa_parse_expression::specs::Readers::separated, tapa_parse_expression::specs::Readers::repeat_behind, tapa_parse_expression::specs::Readers::repeat_from))]
fn stream_names(parser: &mut Parser) -> Result<Vec<Name>, Fault>
    ensures { Gives (λ xs. xs.items) result parser.new (separated terminal.Comma spec.stream_name parser.old) }
{
    let mut found = Vec::new(parser.alloc());
    found.push(stream_name(parser)?)?;
    for _turn in 0..parser.left() {
        if !parser.sees(Terminal::Comma) {
            return Ok(found);
        }
        parser.skip();
        found.push(stream_name(parser)?)?;
    }
    Ok(found)
}

#[tactic(auto, unfolding(crate::specs::Reading::depth))]
fn depth(parser: &mut Parser, levels: u32) -> Result<Option<Count>, Fault>
    ensures { Gives (view.option_of view.count_of) result parser.new (spec.depth most_operators (spec.below levels) parser.old) }
{
    if !parser.sees(Terminal::Comma) {
        return Ok(None);
    }
    parser.skip();
    let count = count(parser, levels)?;
    Ok(Some(count))
}

#[tactic(auto, unfolding(crate::specs::Reading::stream))]
fn stream(parser: &mut Parser, levels: u32) -> Result<StreamDeclaration, Fault>
    ensures { Gives view.stream_of result parser.new (spec.stream most_operators (spec.below levels) parser.old) }
{
    parser.expect(Terminal::Tapa)?;
    parser.expect(Terminal::Scope)?;
    parser.expect(Terminal::Stream)?;
    parser.expect(Terminal::Less)?;
    let kind = parser.kind()?;
    let depth = depth(parser, levels)?;
    parser.expect(Terminal::Greater)?;
    let names = stream_names(parser)?;
    parser.expect(Terminal::Semicolon)?;
    Ok(StreamDeclaration { kind, depth, names })
}

#[tactic(auto, unfolding(tapa_parse_expression::specs::Readers::repeat_behind, tapa_parse_expression::specs::Readers::repeat_from))]
fn streams(parser: &mut Parser, levels: u32) -> Result<Vec<StreamDeclaration>, Fault>
    ensures { Gives (λ xs. map view.stream_of xs.items) result parser.new (spec.streams most_operators (spec.below levels) parser.old) }
{
    let mut found = Vec::new(parser.alloc());
    for _turn in 0..parser.left() {
        if !parser.sees_behind(2, Terminal::Stream) {
            return Ok(found);
        }
        found.push(stream(parser, levels)?)?;
    }
    Ok(found)
}

#[tactic(auto, unfolding(crate::specs::Reading::mode))]
fn mode(parser: &mut Parser) -> Result<Option<Name>, Fault>
    ensures { Gives (λ x. x) result parser.new (spec.mode parser.old) }
{
    if !parser.sees(Terminal::Less) {
        return Ok(None);
    }
    parser.skip();
    parser.expect(Terminal::Tapa)?;
    parser.expect(Terminal::Scope)?;
    let mode = parser.plain_name()?;
    parser.expect(Terminal::Greater)?;
    Ok(Some(mode))
}

#[tactic(auto, unfolding(crate::specs::Reading::invocation_argument))]
fn invocation_argument(parser: &mut Parser, levels: u32) -> Result<InvocationArgument, Fault>
    ensures { Gives view.argument_of result parser.new (spec.invocation_argument most_operators (spec.at levels) parser.old) }
{
    let place = parser.place();
    let value = whole_expression(parser, levels)?;
    Ok(InvocationArgument { place, value })
}

#[tactic(auto, unfolding(tapa_parse_expression::specs::Readers::repeat_behind, tapa_parse_expression::specs::Readers::repeat_from))]
fn invocation_arguments(parser: &mut Parser, levels: u32) -> Result<Vec<InvocationArgument>, Fault>
    ensures { Gives (λ xs. map view.argument_of xs.items) result parser.new (spec.invocation_arguments most_operators (spec.at levels) parser.old) }
{
    let mut found = Vec::new(parser.alloc());
    for _turn in 0..parser.left() {
        if !parser.sees(Terminal::Comma) {
            return Ok(found);
        }
        parser.skip();
        found.push(invocation_argument(parser, levels)?)?;
    }
    Ok(found)
}

#[tactic(auto, unfolding(crate::specs::Reading::invocation))]
fn invocation(parser: &mut Parser, levels: u32) -> Result<Invocation, Fault>
    ensures { Gives view.invocation_of result parser.new (spec.invocation most_operators (spec.below levels) parser.old) }
{
    parser.expect(Terminal::Dot)?;
    parser.expect(Terminal::Invoke)?;
    let mode = mode(parser)?;
    let levels = parser.open(Terminal::LeftParen, levels)?;
    let task = parser.name()?;
    let arguments = invocation_arguments(parser, levels)?;
    parser.expect(Terminal::RightParen)?;
    Ok(Invocation {
        mode,
        task,
        arguments,
    })
}

// At least one.
#[tactic(auto, unfolding(crate::specs::Reading::chained, tapa_parse_expression::specs::Readers::repeat_behind, tapa_parse_expression::specs::Readers::repeat_from))]
fn chained(parser: &mut Parser, levels: u32) -> Result<Vec<Invocation>, Fault>
    ensures { Gives (λ xs. map view.invocation_of xs.items) result parser.new (spec.chained most_operators (spec.below levels) parser.old) }
{
    let mut found = Vec::new(parser.alloc());
    found.push(invocation(parser, levels)?)?;
    for _turn in 0..parser.left() {
        if !parser.sees(Terminal::Dot) {
            return Ok(found);
        }
        found.push(invocation(parser, levels)?)?;
    }
    Ok(found)
}

#[tactic(auto, unfolding(crate::specs::Reading::invocations))]
fn invocations(parser: &mut Parser, levels: u32) -> Result<Vec<Invocation>, Fault>
    ensures { Gives (λ xs. map view.invocation_of xs.items) result parser.new (spec.invocations most_operators (spec.below levels) parser.old) }
{
    parser.expect(Terminal::Tapa)?;
    parser.expect(Terminal::Scope)?;
    parser.expect(Terminal::Task)?;
    parser.expect(Terminal::LeftParen)?;
    parser.expect(Terminal::RightParen)?;
    let found = chained(parser, levels)?;
    parser.expect(Terminal::Semicolon)?;
    Ok(found)
}

#[tactic(auto, unfolding(crate::specs::Reading::body))]
fn body(parser: &mut Parser, levels: u32) -> Result<TaskBody, Fault>
    ensures { Gives view.body_of result parser.new (spec.body most_operators (spec.below levels) parser.old) }
{
    if !parser.sees(Terminal::Tapa) {
        let statements = statements(parser, levels)?;
        return Ok(TaskBody::Leaf(statements));
    }
    let streams = streams(parser, levels)?;
    let invocations = invocations(parser, levels)?;
    Ok(TaskBody::Upper {
        streams,
        invocations,
    })
}

#[tactic(auto, unfolding(crate::specs::Reading::task_behind))]
fn task_behind(
    parser: &mut Parser,
    attributes: Vec<Attribute>,
    levels: u32,
) -> Result<TaskDeclaration, Fault>
    ensures { Gives view.task_of result parser.new (spec.task_behind most_operators (spec.below levels) (map view.attribute_of attributes.items) parser.old) }
{
    parser.expect(Terminal::Void)?;
    let name = parser.name()?;
    let parameters = parameters(parser)?;
    parser.expect(Terminal::LeftBrace)?;
    let body = body(parser, levels)?;
    let end = parser.place();
    parser.expect(Terminal::RightBrace)?;
    Ok(TaskDeclaration {
        attributes,
        name,
        parameters,
        body,
        end,
    })
}

#[tactic(auto, unfolding(crate::specs::Reading::constant_word))]
fn constant_word(parser: &mut Parser) -> Result<(), Fault>
    ensures { Gives (λ x. x) result parser.new (spec.constant_word parser.old) }
{
    if parser.sees(Terminal::Const) || parser.sees(Terminal::Constexpr) {
        parser.skip();
        Ok(())
    } else {
        Err(Fault::Refused(ParseCode::P1))
    }
}

#[tactic(auto, unfolding(crate::specs::Reading::constant_behind))]
fn constant_behind(
    parser: &mut Parser,
    attributes: Vec<Attribute>,
    levels: u32,
) -> Result<FileItem, Fault>
    ensures { Gives view.item_of result parser.new (spec.constant_behind most_operators (spec.below levels) (map view.attribute_of attributes.items) parser.old) }
{
    constant_word(parser)?;
    let kind = parser.kind()?;
    let name = parser.name()?;
    parser.expect(Terminal::Assign)?;
    let value = whole_expression(parser, levels)?;
    parser.expect(Terminal::Semicolon)?;
    Ok(FileItem::Constant {
        attributes,
        kind,
        name,
        value,
    })
}

#[tactic(auto, unfolding(crate::specs::Reading::item))]
fn item(parser: &mut Parser, levels: u32) -> Result<FileItem, Fault>
    ensures { Gives view.item_of result parser.new (spec.item most_operators (spec.below levels) parser.old) }
{
    let attributes = attributes(parser, levels)?;
    if !parser.sees(Terminal::Void) {
        return constant_behind(parser, attributes, levels);
    }
    let task = task_behind(parser, attributes, levels)?;
    Ok(FileItem::Task(task))
}

#[tactic(auto, unfolding(tapa_parse_expression::specs::Readers::repeat_behind, tapa_parse_expression::specs::Readers::repeat_from))]
fn items(parser: &mut Parser, levels: u32) -> Result<Vec<FileItem>, Fault>
    ensures { Gives (λ xs. map view.item_of xs.items) result parser.new (spec.items most_operators (spec.below levels) parser.old) }
{
    let mut found = Vec::new(parser.alloc());
    for _turn in 0..parser.left() {
        if !parser.is_left() {
            return Ok(found);
        }
        found.push(item(parser, levels)?)?;
    }
    Ok(found)
}

#[tactic(auto, unfolding(crate::specs::Reading::file))]
pub(crate) fn file(parser: &mut Parser, levels: u32) -> Result<File, Fault>
    ensures { Gives view.file_of result parser.new (spec.file most_operators (spec.below levels) parser.old) }
{
    let items = items(parser, levels)?;
    parser.ended()?;
    Ok(File { items })
}
