// A text is cut into words, the words are parsed, and the modules are checked.

ghost use Rattle.std.specs.Prelude.{◌≡◌, ◌<◌, ◌-◌, ◌^◌, List, length, map, IfOk, IfErr};
ghost use Rattle.vlog_tree.specs.Clamped.{clamped};
ghost use Rattle.vlog_tree.specs.Form.{ModuleTree};
ghost use Rattle.vlog_tree.specs.Refused.{IsDesign};
ghost use Rattle.vlog_lex.specs.Grammar.{SpellsDesign, HasTree};
ghost use Rattle.vlog_lex.specs.Scanned.{IsScan, words_at};
ghost use Rattle.vlog_read.specs.Refused.{IsFirstRefused};
ghost use Rattle.vlog_read.specs.Texts.{RefusesText, refused_at};

use crate::design::{ParseFault, parse};
use std::alloc::Global;
use vlog_design::Design;
use vlog_lex::{Words, place_at, scan};
use vlog_tree::{Module, VFault};

/// Returns the number of bytes before the next word, after the given number of words, or before the end of the part that is cut into
/// words.
fn bytes_before(words: &Words, passed: usize) -> u32
    ensures { result ≡ refused_at words.now.lexemes.items passed words.now.end }
{
    match words.lexemes.get(passed) {
        Some(lexeme) => lexeme.from,
        None => words.end,
    }
}

/// Returns the fault of the first word that is refused, after the given number of words.
fn refused(text: &[u8], words: &Words, passed: usize) -> VFault
    requires few { length text.now < 2 ^ 32 - 1 }
    requires scan { IsScan text.now words.now.lexemes.items words.now.end }
    requires first { IsFirstRefused (words_at text.now words.now.lexemes.items) passed }
    ensures { RefusesText text.now result }
{
    let at = bytes_before(words, passed);
    VFault::V1(place_at(text, at))
}

/// Returns the design of words that spell modules, or the fault at the first byte that begins no word.
fn checked(
    alloc: Global,
    text: &[u8],
    words: &Words,
    modules: Vec<Module>,
) -> Result<Design, VFault>
    requires few { length text.now < 2 ^ 32 - 1 }
    requires scan { IsScan text.now words.now.lexemes.items words.now.end }
    requires tree { (ms : List ModuleTree) × SpellsDesign ms (words_at text.now words.now.lexemes.items) × (modules.items ≡ map clamped ms) }
    ensures refused { IfErr result (λ e. RefusesText text.now e) }
    ensures tree { IfOk result (λ d. HasTree text.now d.modules) }
    ensures design { IfOk result (λ d. IsDesign d.modules d.top) }
{
    if (words.end as usize) < text.len() {
        return Err(VFault::V1(place_at(text, words.end)));
    }
    Design::of(alloc, modules)
}

/// Returns the design of a text, which is its one tree, or the fault of the text. `VFault::V1` has the place of the first word that no
/// design continues with, of the first byte that begins no word, or after the last byte if the text ends too early: some design begins
/// with the words before that place. `V2` to `V6` have the first name by the tree. Numbers may have any number of digits.
pub fn read(alloc: Global, text: &[u8]) -> Result<Design, VFault>
    requires { length text.now < 2 ^ 32 - 1 }
    ensures refused { IfErr result (λ e. RefusesText text.now e) }
    ensures tree { IfOk result (λ d. HasTree text.now d.modules) }
    ensures design { IfOk result (λ d. IsDesign d.modules d.top) }
{
    let words = scan(alloc, text)?;
    match parse(alloc, text, &words.lexemes) {
        Ok(modules) => checked(alloc, text, &words, modules),
        Err(ParseFault::Refused(passed)) => Err(refused(text, &words, passed)),
        Err(ParseFault::OutOfMemory) => Err(VFault::OutOfMemory),
    }
}
