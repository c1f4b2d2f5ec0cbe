//! Declarations of arrays, `tapa::streams<T, N, D> name, name;`.

ghost use Rattle.std.specs.Prelude.{◌≡◌, [], Ok, drop, length, option_map, OnOk, IfErr};
ghost use Rattle.stream_arrays.specs.Answers.{Gives};
ghost use Rattle.stream_arrays.specs.Forms as spec;
ghost use Rattle.stream_arrays.specs.Reading.{declaration_of, some_names, head_words, known, Steps};
ghost use Rattle.stream_arrays.specs.Words as words;
ghost use Rattle.stream_arrays.specs.Written as written;
ghost use Rattle.stream_arrays.specs.Writing.{writing, said};
ghost use Rattle.tapa_syntax.specs.Symbols as symbols;

use crate::fault::{ArrayCode, ArrayRefusal, refused};
use crate::number::may_count;
use crate::scope::{Scope, count_in, without_arrays};
use crate::standing::{behind, first_word, front, is, is_named, span, stand, type_size};
use crate::table::Table;
use crate::writer::Writer;
use std::alloc::Global;
use tapa_parse_expression::text_of;
use tapa_syntax::{Lexeme, Terminal};

/// A declaration of arrays at the start of some lexemes: the words of its type, its count, its depth, its names, and how many
/// lexemes are left after it.
#[derive(Drop)]
pub(crate) struct Declaration<'a> {
    element: &'a [Lexeme],
    count: Lexeme,
    depth: Option<Lexeme>,
    names: Vec<Lexeme>,
    left: usize,
}

/// The lexemes after a name and its optional string in parentheses.
fn behind_label<'a>(text: &[u8], lexemes: &'a [Lexeme]) -> &'a [Lexeme]
    ensures { result.now ≡ drop (spec.label_size text.now lexemes.now) lexemes.now }
{
    if stand(
        text,
        &[Terminal::LeftParen, Terminal::Str, Terminal::RightParen],
        lexemes,
    ) {
        behind(lexemes, 3)
    } else {
        lexemes
    }
}

/// Names up to the semicolon, and how many lexemes are left after it.
fn names(
    alloc: Global,
    text: &[u8],
    lexemes: &[Lexeme],
) -> Result<Option<(Vec<Lexeme>, usize)>, ArrayRefusal>
    ensures { Gives some_names result (Ok (spec.names_from text.now (length lexemes.now) [] lexemes.now)) }
{
    let mut names = Vec::new(alloc);
    let mut rest = lexemes;
    for turn in 0..lexemes.len() {
        let [name, after @ ..] = rest else {
            return Ok(None);
        };
        if !is_named(text, name) {
            return Ok(None);
        }
        names.push(*name)?;
        let [mark, more @ ..] = behind_label(text, after) else {
            return Ok(None);
        };
        if is(text, Terminal::Semicolon, mark) {
            return Ok(Some((names, more.len())));
        }
        if !is(text, Terminal::Comma, mark) {
            return Ok(None);
        }
        rest = more;
    }
    Ok(None)
}

fn with_names<'a>(
    alloc: Global,
    text: &[u8],
    element: &'a [Lexeme],
    count: Lexeme,
    depth: Option<Lexeme>,
    lexemes: &[Lexeme],
) -> Result<Option<Declaration<'a>>, ArrayRefusal>
    ensures { Gives (option_map declaration_of) result (Ok (spec.with_names text.now element.now count depth lexemes.now)) }
{
    match names(alloc, text, lexemes)? {
        Some((names, left)) => Ok(Some(Declaration {
            element,
            count,
            depth,
            names,
            left,
        })),
        None => Ok(None),
    }
}

fn with_depth<'a>(
    alloc: Global,
    text: &[u8],
    element: &'a [Lexeme],
    count: Lexeme,
    lexemes: &[Lexeme],
) -> Result<Option<Declaration<'a>>, ArrayRefusal>
    ensures { Gives (option_map declaration_of) result (Ok (spec.with_depth text.now element.now count lexemes.now)) }
{
    match lexemes {
        [depth, close, rest @ ..] if may_count(text, depth) && is(text, Terminal::Greater, close) =>
            { with_names(alloc, text, element, count, Some(*depth), rest) }
        _ => Ok(None),
    }
}

fn behind_count<'a>(
    alloc: Global,
    text: &[u8],
    element: &'a [Lexeme],
    count: Lexeme,
    lexemes: &[Lexeme],
) -> Result<Option<Declaration<'a>>, ArrayRefusal>
    ensures { Gives (option_map declaration_of) result (Ok (spec.behind_count text.now element.now count lexemes.now)) }
{
    let [mark, rest @ ..] = lexemes else {
        return Ok(None);
    };
    if is(text, Terminal::Greater, mark) {
        with_names(alloc, text, element, count, None, rest)
    } else if is(text, Terminal::Comma, mark) {
        with_depth(alloc, text, element, count, rest)
    } else {
        Ok(None)
    }
}

fn behind_type<'a>(
    alloc: Global,
    text: &[u8],
    element: &'a [Lexeme],
    lexemes: &[Lexeme],
) -> Result<Option<Declaration<'a>>, ArrayRefusal>
    ensures { Gives (option_map declaration_of) result (Ok (spec.behind_type text.now element.now lexemes.now)) }
{
    match lexemes {
        [comma, count, rest @ ..] if is(text, Terminal::Comma, comma) && may_count(text, count) => {
            behind_count(alloc, text, element, *count, rest)
        }
        _ => Ok(None),
    }
}

fn begins_declaration(text: &[u8], lexemes: &[Lexeme]) -> bool
    ensures { result ≡ spec.begins_declaration text.now lexemes.now }
{
    let head = [
        Terminal::Tapa,
        Terminal::Scope,
        Terminal::Name,
        Terminal::Less,
    ];
    stand(text, &head, lexemes) && first_word(text, behind(lexemes, 2)) == b"streams".as_slice()
}

/// The declaration of arrays at the start, if there is one.
pub(crate) fn find_declaration<'a>(
    alloc: Global,
    text: &[u8],
    lexemes: &'a [Lexeme],
) -> Result<Option<Declaration<'a>>, ArrayRefusal>
    ensures { Gives (option_map declaration_of) result (Ok (spec.declaration text.now lexemes.now)) }
{
    if !begins_declaration(text, lexemes) {
        return Ok(None);
    }
    let rest = behind(lexemes, 4);
    match type_size(alloc, text, rest)? {
        Some(size) => behind_type(alloc, text, front(rest, size), behind(rest, size)),
        None => Ok(None),
    }
}

/// A depth is no array; one that is is refused with A3.
fn without_array(text: &[u8], arrays: &Table, depth: &Option<Lexeme>) -> Result<(), ArrayRefusal>
    ensures { Gives (λ u. u) result (written.without_array text.now arrays.now depth.now) }
{
    match depth {
        Some(depth) => without_arrays(text, arrays, &[*depth]),
        None => Ok(()),
    }
}

/// Each name becomes an array of `count` elements; one that is an array already is refused with A3.
fn with_arrays(
    alloc: Global,
    text: &[u8],
    count: u64,
    arrays: &mut Table,
    names: &[Lexeme],
) -> Result<(), ArrayRefusal>
    ensures { Gives (λ u. arrays.new) result (written.with_arrays text.now count arrays.old names.now) }
{
    for name in names {
        let word = text_of(text, name);
        if arrays.get(word).is_some() {
            return Err(refused(ArrayCode::A3, name.place));
        }
        arrays.set(alloc, word, count)?;
    }
    Ok(())
}

/// Elements of an array with commas.
fn write_elements(
    text: &[u8],
    name: &Lexeme,
    count: u64,
    out: &mut Writer,
) -> Result<(), ArrayRefusal>
    ensures ok { OnOk result (writing out.new ≡ said (writing out.old) (words.elements (symbols.text_of text.now name.now) count)) }
    ensures err { IfErr result (λ e. e ≡ ArrayRefusal.OutOfMemory) }
{
    let word = text_of(text, name);
    out.element(word, 0)?;
    for i in 1..count {
        if out.is_full() {
            return Ok(());
        }
        out.word(b",")?;
        out.element(word, i)?;
    }
    Ok(())
}

#[tactic(auto, using(crate::proofs::Writers::said_append))]
fn write_names(
    text: &[u8],
    names: &[Lexeme],
    count: u64,
    out: &mut Writer,
) -> Result<(), ArrayRefusal>
    ensures ok { OnOk result (writing out.new ≡ said (writing out.old) (words.name_words text.now count names.now)) }
    ensures err { IfErr result (λ e. e ≡ ArrayRefusal.OutOfMemory) }
{
    let [first, more @ ..] = names else {
        return Ok(());
    };
    write_elements(text, first, count, out)?;
    for name in more {
        out.word(b",")?;
        write_elements(text, name, count, out)?;
    }
    Ok(())
}

fn write_depth(text: &[u8], depth: &Option<Lexeme>, out: &mut Writer) -> Result<(), ArrayRefusal>
    ensures ok { OnOk result (writing out.new ≡ said (writing out.old) (words.depth_words text.now depth.now)) }
    ensures err { IfErr result (λ e. e ≡ ArrayRefusal.OutOfMemory) }
{
    if let Some(depth) = depth {
        out.word(b",")?;
        out.word(text_of(text, depth))?;
    }
    Ok(())
}

fn write_head(
    text: &[u8],
    declaration: &Declaration<'_>,
    out: &mut Writer,
) -> Result<(), ArrayRefusal>
    ensures ok { OnOk result (writing out.new ≡ said (writing out.old) (head_words text.now (declaration_of declaration.now))) }
    ensures err { IfErr result (λ e. e ≡ ArrayRefusal.OutOfMemory) }
{
    out.word(b"tapa")?;
    out.word(b"::")?;
    out.word(b"stream")?;
    out.word(b"<")?;
    out.words(text, declaration.element)?;
    write_depth(text, &declaration.depth, out)?;
    out.word(b">")?;
    Ok(())
}

/// Writes out the declaration at the start of these lexemes.
pub(crate) fn write_declaration(
    alloc: Global,
    text: &[u8],
    lexemes: &[Lexeme],
    declaration: Declaration<'_>,
    scope: &mut Scope,
    out: &mut Writer,
) -> Result<usize, ArrayRefusal>
    ensures depth { scope.new.depth ≡ scope.old.depth }
    ensures steps { Steps result scope.new out.old out.new (written.declaration_step text.now (known scope.old) lexemes.now (declaration_of declaration.entry)) }
{
    let count = count_in(text, scope, &declaration.count)?;
    without_array(text, &scope.arrays, &declaration.depth)?;
    with_arrays(alloc, text, count, &mut scope.arrays, &declaration.names)?;
    let size = lexemes
        .len()
        .saturating_sub(declaration.left)
        .saturating_sub(1)
        + 1;
    out.begin();
    write_head(text, &declaration, out)?;
    write_names(text, &declaration.names, count, out)?;
    out.word(b";")?;
    out.line_feeds(span(text, front(lexemes, size)))?;
    Ok(size)
}
