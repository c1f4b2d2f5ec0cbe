// From the bytes of a source to its flat program.
ghost use Rattle.std.specs.Prelude.{◌≡◌, ◌<◌, ◌-◌, ◌^◌, ℕ, List, length, IfOk, IfErr};
ghost use Rattle.tapa_syntax.specs.Lexemes.{HasLexemes};
ghost use Rattle.tapa_syntax.specs.WellFormed.{IsWellFormed};
ghost use Rattle.command_source.specs.Refused.{IsLexicalCause, IsUnwrittenCause, IsTextCause, IsSourceCause};
ghost use Rattle.command_source.specs.Codes.{lex_code, array_code, parse_code, source_refusal};
ghost use Rattle.command_source.specs.Source.{HasSourceTree, IsWrittenOut, IsProgramOfText, IsProgramOf};

use check_scope::CheckFault;
use command_answers::{Refusal, SourceCode};
use std::alloc::Global;
use stream_arrays::{ArrayCode, ArrayRefusal, write_out};
use stream_check::check;
use tapa_base::Place;
use tapa_lex::{LexCode, LexFault, lex};
use tapa_parse::{ParseCode, ParseFault, parse};
use tapa_syntax::{File, Lexeme, Program};

/// Why a source has no program: the rule that it breaks and where, or want of memory.
#[derive(Clone, Copy, Debug, PartialEq, Eq)]
pub enum SourceFault {
    At { code: SourceCode, place: Place },
    OutOfMemory,
}

impl From<SourceFault> for Refusal {
    ghost from_gives = { λ fault refusal. refusal ≡ source_refusal fault };

    fn from(fault: SourceFault) -> Self {
        match fault {
            SourceFault::At { code, place } => Refusal::Source { place, code },
            SourceFault::OutOfMemory => Refusal::Memory,
        }
    }
}

fn of_lexer(code: LexCode) -> SourceCode
    ensures { result ≡ lex_code code }
{
    match code {
        LexCode::L1 => SourceCode::L1,
        LexCode::L2 => SourceCode::L2,
        LexCode::L3 => SourceCode::L3,
        LexCode::L4 => SourceCode::L4,
    }
}

fn of_arrays(code: ArrayCode) -> SourceCode
    ensures { result ≡ array_code code }
{
    match code {
        ArrayCode::A1 => SourceCode::A1,
        ArrayCode::A2 => SourceCode::A2,
        ArrayCode::A3 => SourceCode::A3,
        ArrayCode::A4 => SourceCode::A4,
    }
}

fn of_parser(code: ParseCode) -> SourceCode
    ensures { result ≡ parse_code code }
{
    match code {
        ParseCode::P1 => SourceCode::P1,
        ParseCode::P2 => SourceCode::P2,
    }
}

// The lexemes of a text, or where the lexer refuses it.
fn lexemes_of(alloc: Global, text: &[u8]) -> Result<Vec<Lexeme>, SourceFault>
    requires { length text.now < 2 ^ 32 - 1 }
    ensures found { IfOk result (λ lexemes. HasLexemes text.now lexemes.items) }
    ensures refused { IfErr result (IsLexicalCause text.now) }
{
    match lex(alloc, text) {
        Ok(lexemes) => Ok(lexemes),
        Err(LexFault::At { code, place }) => {
            let code = of_lexer(code);
            Err(SourceFault::At { code, place })
        }
        Err(LexFault::OutOfMemory) => Err(SourceFault::OutOfMemory),
    }
}

// The text in which the arrays of a source with these lexemes are written out, or where the source is refused.
fn written_text(alloc: Global, lexemes: &[Lexeme], text: &[u8]) -> Result<Vec<u8>, SourceFault>
    requires { HasLexemes text.now lexemes.now }
    ensures written { IfOk result (λ out. IsWrittenOut text.now out.items) }
    ensures within { IfOk result (λ out. length out.items < 2 ^ 32 - 1) }
    ensures refused { IfErr result (IsUnwrittenCause text.now) }
{
    match write_out(alloc, lexemes, text) {
        Ok(out) => Ok(out),
        Err(ArrayRefusal::Fault(fault)) => {
            let code = of_arrays(fault.code);
            Err(SourceFault::At {
                code,
                place: fault.place,
            })
        }
        Err(ArrayRefusal::OutOfMemory) => Err(SourceFault::OutOfMemory),
    }
}

// The tree of a text with these lexemes in which nothing is to be written out, or where it is refused.
fn read_tree(alloc: Global, lexemes: &[Lexeme], text: &[u8]) -> Result<File, SourceFault>
    requires short { length text.now < 2 ^ 32 - 1 }
    requires lexed { HasLexemes text.now lexemes.now }
    ensures found { IfOk result (HasSourceTree text.now) }
    ensures refused { (top : List ℕ) → IfErr result (IsTextCause text.now top) }
{
    match parse(alloc, lexemes, text) {
        Ok(file) => Ok(file),
        Err(ParseFault::At { code, place }) => {
            let code = of_parser(code);
            Err(SourceFault::At { code, place })
        }
        Err(ParseFault::OutOfMemory) => Err(SourceFault::OutOfMemory),
    }
}

// The flat program of a text with these lexemes in which nothing is to be written out, or the first rule that it breaks.
fn read_text(
    alloc: Global,
    lexemes: &[Lexeme],
    text: &[u8],
    top: &str,
) -> Result<Program, SourceFault>
    requires short { length text.now < 2 ^ 32 - 1 }
    requires lexed { HasLexemes text.now lexemes.now }
    ensures found { IfOk result (λ program. IsProgramOfText text.now top.now program) }
    ensures well_formed { IfOk result (λ program. IsWellFormed program) }
    ensures refused { IfErr result (IsTextCause text.now top.now) }
{
    let file = read_tree(alloc, lexemes, text)?;
    match check(alloc, &file, top) {
        Ok(program) => Ok(program),
        Err(CheckFault::At(broken)) => {
            let code = SourceCode::Rule {
                code: broken.code,
                limit: broken.limit,
            };
            Err(SourceFault::At {
                code,
                place: broken.place,
            })
        }
        Err(CheckFault::OutOfMemory) => Err(SourceFault::OutOfMemory),
    }
}

// The flat program of a written-out text, which was not looked at before.
fn read_written(alloc: Global, text: &[u8], top: &str) -> Result<Program, SourceFault>
    requires { length text.now < 2 ^ 32 - 1 }
    ensures found { IfOk result (λ program. IsProgramOfText text.now top.now program) }
    ensures well_formed { IfOk result (λ program. IsWellFormed program) }
    ensures refused { IfErr result (IsTextCause text.now top.now) }
{
    let lexemes = lexemes_of(alloc, text)?;
    read_text(alloc, &lexemes, text, top)
}

/// The flat program of a source whose top task is `top`, or the first rule that the source breaks. Stream arrays and counted invokes
/// are written out first; places of rules of the grammar and of those beyond it are places of the written-out text. Where there is
/// nothing to write out, the source is read once.
pub fn read_program(alloc: Global, text: &[u8], top: &str) -> Result<Program, SourceFault>
    requires { length text.now < 2 ^ 32 - 1 }
    ensures found { IfOk result (λ program. IsProgramOf text.now top.now program) }
    ensures well_formed { IfOk result (λ program. IsWellFormed program) }
    ensures refused { IfErr result (IsSourceCause text.now top.now) }
{
    let lexemes = lexemes_of(alloc, text)?;
    let written = written_text(alloc, &lexemes, text)?;
    if written.as_slice() == text {
        return read_text(alloc, &lexemes, text, top);
    }
    read_written(alloc, &written, top)
}
