//! What is known before a lexeme of a text.

ghost use Rattle.std.specs.Prelude.{◌≡◌, [], ◌+◌, ◌<◌, ◌≤◌, ◌^◌, OnOk, IfErr};
ghost use Rattle.stream_arrays.specs.Answers.{Gives};
ghost use Rattle.stream_arrays.specs.Reading as reading;
ghost use Rattle.stream_arrays.specs.Reading.{known};
ghost use Rattle.stream_arrays.specs.Written as spec;

use crate::constant::constant_behind;
use crate::fault::{ArrayCode, ArrayRefusal, refused};
use crate::number::count_of;
use crate::standing::{is, is_named, stand_last};
use crate::table::Table;
use std::alloc::Global;
use tapa_parse_expression::text_of;
use tapa_syntax::{Lexeme, Terminal};

/// The constants of the file so far; the arrays, with how many elements each has; how many braces are open; and of each open
/// parenthesis, the innermost last, whether it is that of an invoke.
#[derive(Drop)]
pub(crate) struct Scope {
    pub(crate) constants: Table,
    pub(crate) arrays: Table,
    pub(crate) depth: usize,
    pub(crate) opened: Vec<bool>,
}

/// A word directly after `.` or `tapa::` is no name of an array.
fn is_selected(text: &[u8], before: &[Lexeme]) -> bool
    ensures { result ≡ spec.is_selected text.now before.now }
{
    stand_last(text, &[Terminal::Dot], before)
        || stand_last(text, &[Terminal::Tapa, Terminal::Scope], before)
}

/// How many elements the array has whose name a lexeme is, given the lexemes before it.
pub(crate) fn array_at(
    text: &[u8],
    arrays: &Table,
    before: &[Lexeme],
    lexeme: &Lexeme,
) -> Option<u64>
    ensures { result ≡ spec.array_at text.now arrays.now before.now lexeme.now }
{
    if is_named(text, lexeme) && !is_selected(text, before) {
        arrays.get(text_of(text, lexeme))
    } else {
        None
    }
}

/// None of these lexemes is the name of an array; the first one that is, is refused with A3.
pub(crate) fn without_arrays(
    text: &[u8],
    arrays: &Table,
    lexemes: &[Lexeme],
) -> Result<(), ArrayRefusal>
    ensures { Gives (λ u. u) result (spec.without_arrays text.now arrays.now [] lexemes.now) }
{
    for at in 0..lexemes.len() {
        let lexeme = &lexemes[at];
        if array_at(text, arrays, &lexemes[..at], lexeme).is_some() {
            return Err(refused(ArrayCode::A3, lexeme.place));
        }
    }
    Ok(())
}

/// The count of a form, which is no name of an array.
pub(crate) fn count_in(text: &[u8], scope: &Scope, count: &Lexeme) -> Result<u64, ArrayRefusal>
    ensures { Gives (λ n. n) result (spec.count_in text.now (known scope.now) count.now) }
{
    without_arrays(text, &scope.arrays, &[*count])?;
    count_of(text, &scope.constants, count)
}

/// These lexemes end with all that comes before the parenthesis of an invoke, with a mode or without.
fn ends_invoke(text: &[u8], before: &[Lexeme]) -> bool
    ensures { result ≡ spec.ends_invoke text.now before.now }
{
    let with_mode = [
        Terminal::Dot,
        Terminal::Invoke,
        Terminal::Less,
        Terminal::Tapa,
        Terminal::Scope,
        Terminal::Name,
        Terminal::Greater,
    ];
    stand_last(text, &[Terminal::Dot, Terminal::Invoke], before)
        || stand_last(text, &with_mode, before)
}

impl Scope {
    /// Nothing is known at the text's beginning.
    pub(crate) fn new(alloc: Global) -> Self
        ensures { known result ≡ spec.nothing }
    {
        Scope {
            constants: Table::new(alloc),
            arrays: Table::new(alloc),
            depth: 0,
            opened: Vec::new(alloc),
        }
    }

    fn pass_constant(
        &mut self,
        alloc: Global,
        text: &[u8],
        lexeme: &Lexeme,
        behind: &[Lexeme],
    ) -> Result<(), ArrayRefusal>
        ensures ok { OnOk result (known self.new ≡ reading.with_constants (known self.old) (spec.constants_behind text.now (known self.old) lexeme.now behind.now)) }
        ensures err { IfErr result (λ e. e ≡ ArrayRefusal.OutOfMemory) }
    {
        let begins = is(text, Terminal::Const, lexeme) || is(text, Terminal::Constexpr, lexeme);
        if begins
            && self.depth == 0
            && let Some((name, value)) = constant_behind(alloc, text, behind)?
        {
            self.constants.set(alloc, text_of(text, &name), value)?;
        }
        Ok(())
    }

    fn pass_brace(&mut self, alloc: Global, text: &[u8], lexeme: &Lexeme)
        requires { self.old.depth + 1 < 2 ^ 64 }
        ensures depth { self.new.depth ≤ self.old.depth + 1 }
        ensures past { known self.new ≡ reading.past_brace text.now (known self.old) lexeme.now }
    {
        if is(text, Terminal::RightBrace, lexeme) {
            self.depth = self.depth.saturating_sub(1);
            if self.depth == 0 {
                self.arrays = Table::new(alloc);
            }
        } else if is(text, Terminal::LeftBrace, lexeme) {
            self.depth += 1;
        }
    }

    fn pass_parenthesis(
        &mut self,
        text: &[u8],
        before: &[Lexeme],
        lexeme: &Lexeme,
    ) -> Result<(), ArrayRefusal>
        ensures ok { OnOk result (known self.new ≡ reading.with_opened (known self.old) (spec.opened_behind text.now (known self.old) before.now lexeme.now)) }
        ensures err { IfErr result (λ e. e ≡ ArrayRefusal.OutOfMemory) }
    {
        if is(text, Terminal::LeftParen, lexeme) {
            self.opened.push(ends_invoke(text, before))?;
        } else if is(text, Terminal::RightParen, lexeme) {
            let _ = self.opened.pop();
        }
        Ok(())
    }

    /// Passes a lexeme of no form, given those before it and after it.
    pub(crate) fn pass(
        &mut self,
        alloc: Global,
        text: &[u8],
        before: &[Lexeme],
        lexeme: &Lexeme,
        behind: &[Lexeme],
    ) -> Result<(), ArrayRefusal>
        requires { self.old.depth + 1 < 2 ^ 64 }
        ensures depth { OnOk result (self.new.depth ≤ self.old.depth + 1) }
        ensures ok { OnOk result (known self.new ≡ spec.scope_behind text.now (known self.old) before.now lexeme.now behind.now) }
        ensures err { IfErr result (λ e. e ≡ ArrayRefusal.OutOfMemory) }
    {
        self.pass_constant(alloc, text, lexeme, behind)?;
        self.pass_brace(alloc, text, lexeme);
        self.pass_parenthesis(text, before, lexeme)
    }
}
