// Items: declarations, and instances.

ghost use Rattle.std.specs.Prelude.{◌≡◌, IfOk};
ghost use Rattle.vlog_tree.specs.Form.{IsModule};
ghost use Rattle.vlog_read.specs.ValueReading as read;
ghost use Rattle.vlog_read.specs.BlockReading as spec;

use crate::held::Held;
use crate::state::{
    BlockState, Declared, HeadState, ItemState, Joining, ModuleDraft, Reader, Steps, ValueState,
};
use std::alloc::{AllocError, Global};
use tapa_base::Text;
use vlog_lex::{Coming, Listed, cells_behind, is_name_word, is_number, name_of};
use vlog_tree::{Connection, Connections, Item};

/// Checks whether a word is a keyword that begins an item, or ends the module.
fn begins_item(word: &[u8]) -> bool
    ensures { result ≡ spec.begins_item word.now }
{
    word == b"wire".as_slice()
        || word == b"reg".as_slice()
        || word == b"assign".as_slice()
        || word == b"always".as_slice()
        || word == b"endmodule".as_slice()
}

/// Reads a keyword that begins an item, or ends the module.
fn item_word(
    alloc: Global,
    draft: Held<ModuleDraft>,
    word: &[u8],
) -> Result<Option<Reader>, AllocError>
    requires { IsModule (read.module_of draft) }
    ensures { IfOk result (λ o. o ≡ spec.item_word draft word.now) }
{
    if word == b"wire".as_slice() {
        Ok(Some(Reader::head(
            Coming::Nothing,
            HeadState::RangeOrName(draft, Declared::Wire),
        )))
    } else if word == b"reg".as_slice() {
        Ok(Some(Reader::head(
            Coming::Nothing,
            HeadState::RangeOrName(draft, Declared::Reg),
        )))
    } else if word == b"assign".as_slice() {
        Ok(Some(Reader::value(Coming::Nothing, ValueState::AssignName(draft))))
    } else if word == b"always".as_slice() {
        let steps = Held::new(alloc, Steps::new(alloc))?;
        Ok(Some(Reader::block(Coming::Clocked, BlockState::StepStart(draft, steps))))
    } else if word == b"endmodule".as_slice() {
        Ok(Some(Reader::head(
            Coming::Nothing,
            HeadState::Between(draft.into_inner().finished()?),
        )))
    } else {
        Ok(None)
    }
}

/// Reads the word at which an item may begin, or the module may end. Most words here are keywords, which are tested first.
#[tactic(auto, using(crate::proofs::Items::no_item))]
pub fn item_start(
    alloc: Global,
    draft: Held<ModuleDraft>,
    word: &[u8],
) -> Result<Option<Reader>, AllocError>
    requires { IsModule (read.module_of draft) }
    ensures { IfOk result (λ o. o ≡ spec.item_start draft word.now) }
{
    if begins_item(word) {
        return item_word(alloc, draft, word);
    }
    if is_name_word(word) {
        let child = name_of(alloc, word)?;
        return Ok(Some(Reader::item(Coming::Nothing, ItemState::InstanceName(draft, child))));
    }
    Ok(None)
}

/// Reads the word after the name of a register: the end of the item, or the begin of the range that makes a memory of it.
pub fn reg_next(
    draft: Held<ModuleDraft>,
    width: u32,
    name: Text,
    word: &[u8],
) -> Result<Option<Reader>, AllocError>
    ensures { IfOk result (λ o. o ≡ spec.reg_next draft width name word.now) }
{
    if word == b";".as_slice() {
        Ok(Some(Reader::item_behind(Coming::Nothing, draft, Item::Reg { width, name })?))
    } else if word == b"[".as_slice() {
        Ok(Some(Reader::item(Coming::ZeroColon, ItemState::CellsLast(draft, width, name))))
    } else {
        Ok(None)
    }
}

/// Reads the number of the last cell of a memory.
pub fn cells_last(
    draft: Held<ModuleDraft>,
    width: u32,
    name: Text,
    word: &[u8],
) -> Result<Option<Reader>, AllocError>
    ensures { IfOk result (λ o. o ≡ spec.cells_last draft width name word.now) }
{
    if !is_number(word) {
        return Ok(None);
    }
    let cells = cells_behind(word);
    let memory = Item::Memory { width, name, cells };
    Ok(Some(Reader::item_behind(Coming::BracketSemicolon, draft, memory)?))
}

/// Reads the name of an instance.
pub fn instance_name(
    alloc: Global,
    draft: Held<ModuleDraft>,
    child: Text,
    word: &[u8],
) -> Result<Option<Reader>, AllocError>
    ensures { IfOk result (λ o. o ≡ spec.instance_name draft child word.now) }
{
    if !is_name_word(word) {
        return Ok(None);
    }
    let name = name_of(alloc, word)?;
    let joining = Joining {
        child,
        name,
        connections: Listed::new(alloc),
    };
    let joining = Held::new(alloc, joining)?;
    Ok(Some(Reader::item(Coming::ParenDot, ItemState::ConnectionPort(draft, joining))))
}

/// Reads the port that is connected by its name (IEEE 1364-2005, 12.3.6).
pub fn connection_port(
    alloc: Global,
    draft: Held<ModuleDraft>,
    joining: Held<Joining>,
    word: &[u8],
) -> Result<Option<Reader>, AllocError>
    ensures { IfOk result (λ o. o ≡ spec.connection_port draft joining word.now) }
{
    if !is_name_word(word) {
        return Ok(None);
    }
    let port = name_of(alloc, word)?;
    Ok(Some(Reader::item(
        Coming::LeftParen,
        ItemState::ConnectionNet(draft, joining, port),
    )))
}

/// Reads the net that a port is connected to.
pub fn connection_net(
    alloc: Global,
    draft: Held<ModuleDraft>,
    joining: Held<Joining>,
    port: Text,
    word: &[u8],
) -> Result<Option<Reader>, AllocError>
    ensures { IfOk result (λ o. o ≡ spec.connection_net draft joining port word.now) }
{
    if !is_name_word(word) {
        return Ok(None);
    }
    let net = name_of(alloc, word)?;
    let joining = joining.with_connection(Connection { port, net })?;
    Ok(Some(Reader::item(
        Coming::RightParen,
        ItemState::ConnectionNext(draft, joining),
    )))
}

/// Returns the reader after an instance.
fn joined(joining: Held<Joining>) -> Item
    ensures { result ≡ read.joined joining }
{
    let Joining {
        child,
        name,
        connections,
    } = joining.into_inner();
    Item::Instance {
        module: child,
        name,
        connections: Connections::of(connections.into_vec()),
    }
}

/// Reads the word after a connection: one more connection follows, or the instance ends.
pub fn connection_next(
    draft: Held<ModuleDraft>,
    joining: Held<Joining>,
    word: &[u8],
) -> Result<Option<Reader>, AllocError>
    ensures { IfOk result (λ o. o ≡ spec.connection_next draft joining word.now) }
{
    if word == b",".as_slice() {
        Ok(Some(Reader::item(Coming::Dot, ItemState::ConnectionPort(draft, joining))))
    } else if word == b")".as_slice() {
        Ok(Some(Reader::item_behind(Coming::Semicolon, draft, joined(joining))?))
    } else {
        Ok(None)
    }
}
