//! The tree of a source.

ghost use Rattle.std.specs.Prelude.{◌≡◌, ◌<◌, ◌-◌, ◌^◌, List, length, IfOk, IfErr};
ghost use Rattle.tapa_syntax.specs.Characters.{place_of};
ghost use Rattle.tapa_syntax.specs.Symbols.{symbols_of};
ghost use Rattle.tapa_syntax.specs.Trees.{ItemTree, file_of};
ghost use Rattle.tapa_syntax.specs.Grammar.{IsTreeOf};
ghost use Rattle.tapa_syntax.specs.Limits.{IsWithinLimits};
ghost use Rattle.tapa_parse.specs.Answers.{stopped_at, ParserAnswers, Refuses};

use crate::fault::ParseFault;
use crate::task::file;
use std::alloc::Global;
use tapa_base::Place;
use tapa_parse_expression::{Fault, Parser};
use tapa_syntax::{File, Lexeme};

/// Most levels of nesting.
const MOST_LEVELS: u32 = 64;

/// The place after the last byte.
fn end_place(text: &[u8]) -> Place
    requires { length text.now < 2 ^ 32 - 1 }
    ensures { result ≡ place_of text.now }
{
    let mut line = 1;
    let mut col = 1;
    for turn in 0..text.len() {
        if text[turn] == b'\n' {
            line += 1;
            col = 1;
        } else {
            col += 1;
        }
    }
    Place { line, col }
}

fn refused_place(parser: &Parser, text: &[u8]) -> Place
    requires { length text.now < 2 ^ 32 - 1 }
    ensures { result ≡ stopped_at text.now parser.now }
{
    if parser.is_left() {
        parser.place()
    } else {
        end_place(text)
    }
}

/// The tree of the lexemes of a text, or the first lexeme that is refused, with its place: after the last byte where no
/// lexeme is left.
#[tactic(auto, using(crate::proofs::SoundTasks::found_sound))]
pub fn parse(alloc: Global, lexemes: &[Lexeme], text: &[u8]) -> Result<File, ParseFault>
    requires { length text.now < 2 ^ 32 - 1 }
    ensures found { IfOk result (λ file. IsTreeOf (symbols_of text.now lexemes.now) (file_of file) × IsWithinLimits (file_of file)) }
    ensures only { (items : List ItemTree) → IsTreeOf (symbols_of text.now lexemes.now) items → IsWithinLimits items → ParserAnswers result items }
    ensures refused { IfErr result (Refuses text.now (symbols_of text.now lexemes.now)) }
{
    let mut parser = Parser::new(alloc, text, lexemes);
    match file(&mut parser, MOST_LEVELS) {
        Ok(file) => Ok(file),
        Err(Fault::OutOfMemory) => Err(ParseFault::OutOfMemory),
        Err(Fault::Refused(code)) => Err(ParseFault::At {
            code,
            place: refused_place(&parser, text),
        }),
    }
}
