// The methods of streams: their names and arguments, the direction that each needs, and the rules of a call.
ghost use Rattle.std.specs.Prelude.{◌≡◌, [], Some, bytes_eq, map};
ghost use Rattle.tapa_syntax.specs.Trees as tree;
ghost use Rattle.check_scope.specs.Answers.{ScopeAnswers};
ghost use Rattle.check_expression.specs.Expressions as meaning;
ghost use Rattle.check_expression.specs.Methods as methods;
ghost use Rattle.check_scope.specs.Scopes.{entity_of, kind_of_entity, number_of};

use check_scope::{CheckCode, CheckFault, Entity, Scope, refused};
use tapa_base::{Kind, Text};
use tapa_syntax::{Expression, Name};

/// A method of a stream with its arguments (TAPA: `istream` and `ostream`): `read()`, `peek(nullptr)`, `eot(nullptr)`,
/// `write(value)`, `open()` and `close()`.
#[derive(Clone, Copy)]
pub enum StreamMethod<'a> {
    Read,
    Peek,
    Eot,
    Write(&'a Expression),
    Open,
    Close,
}

/// A call of a stream's method: the stream's number, and the kind of its data.
#[derive(Clone, Copy)]
pub struct StreamCall<'a> {
    pub method: StreamMethod<'a>,
    pub kind: Kind,
    pub stream: u32,
}

fn is_word(name: &Text, word: &[u8]) -> bool
    ensures { result ≡ bytes_eq name.now word.now }
{
    name.bytes() == word
}

fn is_nullptr(value: &Expression) -> bool
    ensures { result ≡ meaning.is_nullptr (tree.expression value.now) }
{
    matches!(value, Expression::Nullptr)
}

fn method_of_one<'a>(name: &Text, value: &'a Expression) -> Option<StreamMethod<'a>>
    ensures { methods.method_view result ≡ meaning.one_method name.now (tree.expression value.now) }
{
    if is_word(name, b"peek") && is_nullptr(value) {
        Some(StreamMethod::Peek)
    } else if is_word(name, b"eot") && is_nullptr(value) {
        Some(StreamMethod::Eot)
    } else if is_word(name, b"write") && !is_nullptr(value) {
        Some(StreamMethod::Write(value))
    } else {
        None
    }
}

fn method_of_none<'a>(name: &Text) -> Option<StreamMethod<'a>>
    ensures { methods.method_view result ≡ meaning.method_of name.now [] }
{
    if is_word(name, b"read") {
        Some(StreamMethod::Read)
    } else if is_word(name, b"open") {
        Some(StreamMethod::Open)
    } else if is_word(name, b"close") {
        Some(StreamMethod::Close)
    } else {
        None
    }
}

/// The method that a name and arguments are.
pub fn method_of<'a>(name: &Text, arguments: &'a [Expression]) -> Option<StreamMethod<'a>>
    ensures { methods.method_view result ≡ meaning.method_of name.now (map tree.expression arguments.now) }
{
    match arguments {
        [] => method_of_none(name),
        [value] => method_of_one(name, value),
        _ => None,
    }
}

/// Whether a method belongs to an `ostream`.
fn of_output(method: StreamMethod) -> bool
    ensures { result ≡ meaning.of_output (methods.method method.entry) }
{
    matches!(method, StreamMethod::Write(_) | StreamMethod::Close)
}

/// Whether a method gives a value.
pub(crate) fn gives_value(method: StreamMethod) -> bool
    ensures { result ≡ meaning.gives_value (methods.method method.entry) }
{
    matches!(
        method,
        StreamMethod::Read | StreamMethod::Peek | StreamMethod::Eot
    )
}

/// The direction of a method is the stream's.
fn check_direction(writes: bool, method: StreamMethod, stream: &Name) -> Result<(), CheckFault>
    ensures { ScopeAnswers (λ x. x) result (meaning.wrong_direction writes (methods.method method.entry) stream.now) tt }
{
    if of_output(method) == writes {
        Ok(())
    } else {
        Err(refused(CheckCode::C3, stream.place))
    }
}

fn check_method<'a>(
    writes: bool,
    method: Option<StreamMethod<'a>>,
    stream: &Name,
    name: &Name,
) -> Result<StreamMethod<'a>, CheckFault>
    ensures { ScopeAnswers (λ m. Some (methods.method m)) result (meaning.method_faults writes (methods.method_view method.entry) stream.now name.now) (methods.method_view method.entry) }
{
    match method {
        None => Err(refused(CheckCode::C6, name.place)),
        Some(method) => {
            check_direction(writes, method, stream)?;
            Ok(method)
        }
    }
}

/// A call of a stream's method.
pub fn check_call<'a>(
    scope: &Scope,
    stream: &Name,
    name: &Name,
    method: Option<StreamMethod<'a>>,
) -> Result<StreamCall<'a>, CheckFault>
    ensures { ScopeAnswers methods.call_view result
        (meaning.call_faults (entity_of stream.now.text scope.now) (methods.method_view method.entry) stream.now name.now)
        (methods.method_view method.entry, kind_of_entity (entity_of stream.now.text scope.now), number_of (entity_of stream.now.text scope.now)) }
{
    match scope.entity(&stream.text) {
        Some(
            Entity::Stream {
                writes,
                kind,
                number,
            },
        ) => Ok(StreamCall {
            method: check_method(writes, method, stream, name)?,
            kind,
            stream: number,
        }),
        Some(_) => Err(refused(CheckCode::C3, stream.place)),
        None => Err(refused(CheckCode::C1, stream.place)),
    }
}
