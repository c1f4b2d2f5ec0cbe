// Modules up to their items.

ghost use Rattle.std.specs.Prelude.{◌≡◌, IfOk, true};
ghost use Rattle.vlog_tree.specs.Names.{is_name as is_name_lem};
ghost use Rattle.vlog_read.specs.BlockReading as spec;

use crate::held::Held;
use crate::state::{Declared, HeadState, ItemState, ModuleDraft, Reader};
use std::alloc::{AllocError, Global};
use tapa_base::Text;
use vlog_lex::{Coming, Listed, is_name_word, is_number, name_of, width_behind};
use vlog_tree::{Direction, Item, Module, PortDecl};

/// Reads the word at which a module may begin.
pub fn between(modules: Listed<Module>, word: &[u8]) -> Option<Reader>
    ensures { result ≡ spec.between modules word.now }
{
    if word == b"module".as_slice() {
        Some(Reader::head(Coming::Nothing, HeadState::ModuleName(modules)))
    } else {
        None
    }
}

/// Reads the name of a module.
pub fn module_name(
    alloc: Global,
    modules: Listed<Module>,
    word: &[u8],
) -> Result<Option<Reader>, AllocError>
    ensures { IfOk result (λ o. o ≡ spec.module_name modules word.now) }
{
    if !is_name_word(word) {
        return Ok(None);
    }
    let name = name_of(alloc, word)?;
    let draft = Held::new(alloc, ModuleDraft::begun(alloc, modules, name))?;
    Ok(Some(Reader::head(Coming::LeftParen, HeadState::PortStart(draft))))
}

/// Reads the word at which a port must begin.
pub fn port_start(draft: Held<ModuleDraft>, word: &[u8]) -> Option<Reader>
    ensures { result ≡ spec.port_start draft word.now }
{
    if word == b"input".as_slice() {
        Some(Reader::head(
            Coming::Nothing,
            HeadState::RangeOrName(draft, Declared::Input),
        ))
    } else if word == b"output".as_slice() {
        Some(Reader::head(
            Coming::Nothing,
            HeadState::RangeOrName(draft, Declared::Output),
        ))
    } else {
        None
    }
}

/// Reads the word after a port: one more port, or the end of the list.
pub fn port_next(draft: Held<ModuleDraft>, word: &[u8]) -> Option<Reader>
    ensures { result ≡ spec.port_next draft word.now }
{
    if word == b",".as_slice() {
        Some(Reader::head(Coming::Nothing, HeadState::PortStart(draft)))
    } else if word == b")".as_slice() {
        Some(Reader::item(Coming::Semicolon, ItemState::ItemStart(draft)))
    } else {
        None
    }
}

/// Reads the last bit of a range.
pub fn range_high(draft: Held<ModuleDraft>, declared: Declared, word: &[u8]) -> Option<Reader>
    ensures { result ≡ spec.range_high draft declared word.now }
{
    if is_number(word) {
        let width = width_behind(word);
        Some(Reader::head(
            Coming::RangeEnd,
            HeadState::DeclaredName(draft, declared, width),
        ))
    } else {
        None
    }
}

/// Returns a reader after the name of a port.
fn port_named(
    draft: Held<ModuleDraft>,
    direction: Direction,
    width: u32,
    name: Text,
) -> Result<Reader, AllocError>
    ensures { IfOk result (λ r. r ≡ spec.port_named draft direction width name) }
{
    let draft = draft.with_port(PortDecl {
        direction,
        width,
        name,
    })?;
    Ok(Reader::head(Coming::Nothing, HeadState::PortNext(draft)))
}

/// Returns a reader after a range and a name.
fn named(
    draft: Held<ModuleDraft>,
    declared: Declared,
    width: u32,
    name: Text,
) -> Result<Reader, AllocError>
    ensures { IfOk result (λ r. r ≡ spec.named draft declared width name) }
{
    match declared {
        Declared::Input => port_named(draft, Direction::Input, width, name),
        Declared::Output => port_named(draft, Direction::Output, width, name),
        Declared::Wire => Reader::item_behind(Coming::Semicolon, draft, Item::Wire { width, name }),
        Declared::Reg => Ok(Reader::item(Coming::Nothing, ItemState::RegNext(draft, width, name))),
    }
}

/// Reads the name that is declared.
pub fn declared_name(
    alloc: Global,
    draft: Held<ModuleDraft>,
    declared: Declared,
    width: u32,
    word: &[u8],
) -> Result<Option<Reader>, AllocError>
    ensures { IfOk result (λ o. o ≡ spec.declared_name draft declared width word.now) }
{
    if !is_name_word(word) {
        return Ok(None);
    }
    let name = name_of(alloc, word)?;
    Ok(Some(named(draft, declared, width, name)?))
}

/// Reads the begin of a range, or the name that is declared without one.
pub fn range_or_name(
    alloc: Global,
    draft: Held<ModuleDraft>,
    declared: Declared,
    word: &[u8],
) -> Result<Option<Reader>, AllocError>
    ensures { IfOk result (λ o. o ≡ spec.range_or_name draft declared word.now) }
{
    if word == b"[".as_slice() {
        Ok(Some(Reader::head(Coming::Nothing, HeadState::RangeHigh(draft, declared))))
    } else {
        declared_name(alloc, draft, declared, 1, word)
    }
}
