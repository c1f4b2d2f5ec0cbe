//! What every rule of the parser is made of.

ghost use Rattle.std.specs.Prelude.{◌≡◌, ◌<◌, length, drop, IfOk, true};
ghost use Rattle.std.specs.Str.{IsAscii};
ghost use Rattle.tapa_syntax.specs.Grammar.{is_name};
ghost use Rattle.tapa_syntax.specs.Symbols.{symbols_of};
ghost use Rattle.tapa_parse_expression.specs.Readers as spec;
ghost use Rattle.tapa_parse_expression.specs.Readers.{Gives};
ghost use Rattle.tapa_parse_expression.specs.Reading as reading;

use crate::fault::{Fault, ParseCode};
use crate::terminal::{is_name, terminal_of, text_of};
use std::alloc::Global;
use std::marker::Model;
use tapa_base::{Kind, Place, Text};
use tapa_syntax::{LexKind, Lexeme, Name, Terminal};

/// A parser is before the lexemes that are left; where it refused, before the refused one. Its value is their symbols.
/// Its state after want of memory is not specified. The terminal of the next lexeme is computed once, when it comes.
#[derive(Drop)]
pub struct Parser<'a> {
    alloc: Global,
    source: &'a [u8],
    rest: &'a [Lexeme],
    next: Terminal,
}

impl<'a> Model for Parser<'a> {
    ghost use Rattle.std.specs.Prelude.{List};
    ghost use Rattle.std.specs.Prelude.{◌≡◌};
    ghost use Rattle.tapa_syntax.specs.Symbols.{Symbol, symbols_of};
    ghost use Rattle.tapa_parse_expression.specs.Readers as spec;

    ghost Value = { List Symbol };

    ghost view = { λ p. symbols_of p.source.now p.rest.now };

    ghost invariant = { λ p. p.next ≡ spec.next (symbols_of p.source.now p.rest.now) };
}

#[tactic(auto, unfolding(crate::specs::Readers::same))]
fn same(a: Terminal, b: Terminal) -> bool
    ensures { result ≡ spec.same a b }
{
    a == b
}

/// What the first of some lexemes is; `Terminal::End` where there is none.
fn first_terminal(source: &[u8], lexemes: &[Lexeme]) -> Terminal
    ensures { result ≡ spec.next (symbols_of source.now lexemes.now) }
{
    match lexemes {
        [first, ..] => terminal_of(source, first),
        [] => Terminal::End,
    }
}

impl<'a> Parser<'a> {
    /// A parser before all the lexemes of a source.
    pub fn new(alloc: Global, source: &'a [u8], lexemes: &'a [Lexeme]) -> Self
        ensures { result ≡ symbols_of source.now lexemes.now }
    {
        Parser {
            alloc,
            source,
            rest: lexemes,
            next: first_terminal(source, lexemes),
        }
    }

    /// Where the parts of trees are made.
    pub fn alloc(&self) -> Global {
        self.alloc
    }

    /// What the next lexeme is; `Terminal::End` where none is left.
    pub fn next(&self) -> Terminal
        ensures { result ≡ spec.next self.now }
    {
        self.next
    }

    /// Where the next lexeme is; 0:0 where none is left.
    #[tactic(auto, unfolding(tapa_syntax::specs::Symbols::symbol_of))]
    pub fn place(&self) -> Place
        ensures { result ≡ spec.first_place self.now }
    {
        match self.rest {
            [first, ..] => first.place,
            [] => Place { line: 0, col: 0 },
        }
    }

    /// How many lexemes are left.
    pub fn left(&self) -> usize
        ensures { result ≡ length self.now }
    {
        self.rest.len()
    }

    /// Whether a lexeme is left.
    pub fn is_left(&self) -> bool
        ensures { result ≡ spec.is_left self.now }
    {
        match self.rest {
            [_, ..] => true,
            [] => false,
        }
    }

    /// No lexeme is left; one that is left is refused with P1.
    pub fn ended(&self) -> Result<(), Fault>
        ensures { Gives (λ x. x) result self.now (spec.ended self.now) }
    {
        match self.rest {
            [_, ..] => Err(Fault::Refused(ParseCode::P1)),
            [] => Ok(()),
        }
    }

    /// Whether the next lexeme has this terminal.
    #[tactic(auto, unfolding(crate::specs::Readers::sees))]
    pub fn sees(&self, terminal: Terminal) -> bool
        ensures { result ≡ spec.sees terminal self.now }
    {
        same(self.next(), terminal)
    }

    /// The terminal of the lexeme after the next `others` lexemes.
    pub fn next_behind(&self, others: usize) -> Terminal
        ensures { result ≡ spec.next (drop others self.now) }
    {
        match self.rest.get(others) {
            Some(lexeme) => terminal_of(self.source, lexeme),
            None => Terminal::End,
        }
    }

    /// Whether the lexeme after the next `others` lexemes has this terminal.
    #[tactic(auto, unfolding(crate::specs::Readers::sees))]
    pub fn sees_behind(&self, others: usize, terminal: Terminal) -> bool
        ensures { result ≡ spec.sees terminal (drop others self.now) }
    {
        same(self.next_behind(others), terminal)
    }

    /// Passes the next lexeme, if one is left.
    pub fn skip(&mut self)
        ensures { self.new ≡ drop 1 self.old }
    {
        if let [_, rest @ ..] = self.rest {
            self.rest = rest;
            self.next = first_terminal(self.source, rest);
        }
    }

    /// Passes the next lexeme, if it has this terminal, and returns whether it did.
    #[tactic(auto, unfolding(crate::specs::Readers::past))]
    pub fn eat(&mut self, terminal: Terminal) -> bool
        ensures found { result ≡ spec.sees terminal self.old }
        ensures left { self.new ≡ spec.past terminal self.old }
    {
        let found = self.sees(terminal);
        if found {
            self.skip();
        }
        found
    }

    /// Passes the next lexeme, which must have this terminal: any other is refused with P1.
    #[tactic(auto, unfolding(crate::specs::Readers::expect))]
    pub fn expect(&mut self, terminal: Terminal) -> Result<(), Fault>
        ensures { Gives (λ x. x) result self.new (spec.expect terminal self.old) }
    {
        if self.sees(terminal) {
            self.skip();
            Ok(())
        } else {
            Err(Fault::Refused(ParseCode::P1))
        }
    }

    /// The next lexeme opens a level: how many more may be opened then. It is refused with P2 where none may.
    #[tactic(auto, unfolding(crate::specs::Reading::below_levels))]
    pub fn enter(&self, levels: u32) -> Result<u32, Fault>
        ensures gives { Gives reading.at result self.now (reading.enter (reading.below levels) self.now) }
        ensures less { IfOk result (λ r. r < levels) }
    {
        if levels == 0 {
            return Err(Fault::Refused(ParseCode::P2));
        }
        Ok(levels - 1)
    }

    /// Passes a lexeme with this terminal, which opens a level: how many more may be opened then. Any other is refused with P1, and
    /// this one with P2 where no level may be opened.
    #[tactic(auto, unfolding(crate::specs::Reading::open_level))]
    pub fn open(&mut self, terminal: Terminal, levels: u32) -> Result<u32, Fault>
        ensures gives { Gives reading.at result self.new (reading.open_level terminal (reading.below levels) self.old) }
        ensures less { IfOk result (λ r. r < levels) }
    {
        if !self.sees(terminal) {
            return Err(Fault::Refused(ParseCode::P1));
        }
        let below = self.enter(levels)?;
        self.skip();
        Ok(below)
    }

    /// The bytes of the next lexeme.
    #[tactic(auto, unfolding(tapa_syntax::specs::Symbols::symbol_of))]
    fn bytes(&self) -> &[u8]
        ensures text { result.now ≡ spec.first_text self.now }
        ensures ascii { is_name (spec.next self.now) ≡ true → IsAscii result.now }
    {
        match self.rest {
            [first, ..] => text_of(self.source, first),
            [] => &[],
        }
    }

    fn text(&self) -> Result<Text, Fault>
        requires { is_name (spec.next self.now) ≡ true }
        ensures { Gives (λ x. x) result self.now (Ok (spec.first_text self.now, self.now)) }
    {
        let bytes = self.bytes();
        let copy = bytes.to_vec(self.alloc)?;
        Ok(Text::new(copy))
    }

    fn take_name(&mut self) -> Result<Name, Fault>
        requires { is_name (spec.next self.old) ≡ true }
        ensures { Gives (λ x. x) result self.new (Ok (spec.name_here self.old, drop 1 self.old)) }
    {
        let place = self.place();
        let text = self.text()?;
        self.skip();
        Ok(Name { text, place })
    }

    /// Passes a name, and gives its text and place; any other lexeme is refused with P1.
    #[tactic(auto, unfolding(crate::specs::Readers::name))]
    pub fn name(&mut self) -> Result<Name, Fault>
        ensures { Gives (λ x. x) result self.new (spec.name self.old) }
    {
        if !is_name(self.next()) {
            return Err(Fault::Refused(ParseCode::P1));
        }
        self.take_name()
    }

    /// A name after `tapa::` or a dot, where the words of streams, memories and tasks are no names.
    #[tactic(auto, unfolding(crate::specs::Readers::plain_name))]
    pub fn plain_name(&mut self) -> Result<Name, Fault>
        ensures { Gives (λ x. x) result self.new (spec.plain_name self.old) }
    {
        match self.next() {
            Terminal::Name => self.take_name(),
            _ => Err(Fault::Refused(ParseCode::P1)),
        }
    }

    #[tactic(auto, unfolding(tapa_syntax::specs::Symbols::symbol_of))]
    fn literal_here(&self) -> (Kind, u64)
        ensures { result ≡ spec.first_literal self.now }
    {
        match self.rest {
            [first, ..] => match first.kind {
                LexKind::Literal { kind, value } => (kind, value),
                _ => (Kind::Bool, 0),
            },
            [] => (Kind::Bool, 0),
        }
    }

    /// Passes a literal, and gives its kind and value; any other lexeme is refused with P1.
    #[tactic(auto, unfolding(crate::specs::Readers::literal_value))]
    pub fn literal(&mut self) -> Result<(Kind, u64), Fault>
        ensures { Gives (λ x. x) result self.new (spec.literal_value self.old) }
    {
        if !self.sees(Terminal::Literal) {
            return Err(Fault::Refused(ParseCode::P1));
        }
        let literal = self.literal_here();
        self.skip();
        Ok(literal)
    }
}
