// Designs: one word after another.

ghost use Rattle.std.specs.Prelude.{◌≡◌, List, IfOk, IfErr, map};
ghost use Rattle.vlog_tree.specs.Clamped.{clamped};
ghost use Rattle.vlog_tree.specs.Form.{ModuleTree};
ghost use Rattle.vlog_lex.specs.Grammar.{SpellsDesign};
ghost use Rattle.vlog_lex.specs.Scanned.{word_of, words_at};
ghost use Rattle.vlog_read.specs.Refused.{Refuses};
ghost use Rattle.vlog_read.specs.Finishing.{IsFormed};
ghost use Rattle.vlog_read.specs.ValueReading as read;
ghost use Rattle.vlog_read.specs.BlockReading as spec;

use crate::block::{after_end, if_name, step_index, step_start, step_target};
use crate::item::{
    cells_last, connection_net, connection_next, connection_port, instance_name, item_start,
    reg_next,
};
use crate::port::{
    between, declared_name, module_name, port_next, port_start, range_high, range_or_name,
};
use crate::state::{
    BlockState, HeadState, ItemState, Reader, State, ValueState, discard, discard_block,
    discard_item, discard_value,
};
use crate::value::{
    assign_name, atom_end, atom_high, atom_low, atom_next, atom_start, brace_start, concat_next,
    value_next, value_start,
};
use std::alloc::{AllocError, Global};
use vlog_lex::{Coming, Lexeme, Listed};
use vlog_tree::Module;

/// The reason why words are not a design.
#[derive(Drop)]
pub enum ParseFault {
    /// The number of words before the first that no design continues with: all words, if they end too early.
    Refused(usize),
    /// Memory ran out. Nothing is said of the words.
    OutOfMemory,
}

impl From<AllocError> for ParseFault {
    ghost use Rattle.vlog_read.specs.declared.design.ParseFault.TheVariants as fault;

    ghost from_gives = { λ _ e. e ≡ fault.OutOfMemory };

    fn from(_: AllocError) -> Self {
        ParseFault::OutOfMemory
    }
}

/// Reads a word between modules, or up to the items of one.
fn head_next(alloc: Global, state: HeadState, word: &[u8]) -> Result<Option<Reader>, AllocError>
    ensures { IfOk result (λ o. o ≡ spec.head_next state word.now) }
{
    match state {
        HeadState::Between(modules) => Ok(between(modules, word)),
        HeadState::ModuleName(modules) => module_name(alloc, modules, word),
        HeadState::PortStart(draft) => Ok(port_start(draft, word)),
        HeadState::RangeOrName(draft, declared) => range_or_name(alloc, draft, declared, word),
        HeadState::RangeHigh(draft, declared) => Ok(range_high(draft, declared, word)),
        HeadState::DeclaredName(draft, declared, width) => {
            declared_name(alloc, draft, declared, width, word)
        }
        HeadState::PortNext(draft) => Ok(port_next(draft, word)),
    }
}

/// Reads a word among items.
fn item_next(alloc: Global, state: ItemState, word: &[u8]) -> Result<Option<Reader>, AllocError>
    requires { IsFormed (read.behind Coming.Nothing (State.Item state)) }
    ensures { IfOk result (λ o. o ≡ spec.item_next state word.now) }
{
    match state {
        ItemState::ItemStart(draft) => item_start(alloc, draft, word),
        ItemState::RegNext(draft, width, name) => reg_next(draft, width, name, word),
        ItemState::CellsLast(draft, width, name) => cells_last(draft, width, name, word),
        ItemState::InstanceName(draft, child) => instance_name(alloc, draft, child, word),
        ItemState::ConnectionPort(draft, joining) => connection_port(alloc, draft, joining, word),
        ItemState::ConnectionNet(draft, joining, port) => {
            connection_net(alloc, draft, joining, port, word)
        }
        ItemState::ConnectionNext(draft, joining) => connection_next(draft, joining, word),
    }
}

/// Reads a word in an assignment, or in an atom.
fn value_word(alloc: Global, state: ValueState, word: &[u8]) -> Result<Option<Reader>, AllocError>
    ensures { IfOk result (λ o. o ≡ spec.value_word state word.now) }
{
    match state {
        ValueState::AssignName(draft) => assign_name(alloc, draft, word),
        ValueState::ValueStart(draft, net) => value_start(alloc, draft, net, word),
        ValueState::BraceStart(draft, net) => brace_start(alloc, draft, net, word),
        ValueState::ValueNext(draft, net, first) => {
            value_next(alloc, draft, net, first.into_inner(), word)
        }
        ValueState::ConcatNext(draft, net, atoms) => concat_next(alloc, draft, net, atoms, word),
        ValueState::AtomStart(draft, purpose) => atom_start(alloc, draft, purpose, word),
        ValueState::AtomNext(draft, purpose, name) => atom_next(alloc, draft, purpose, name, word),
        ValueState::AtomHigh(draft, purpose, name) => atom_high(alloc, draft, purpose, name, word),
        ValueState::AtomLow(draft, purpose, net, high) => {
            atom_low(alloc, draft, purpose, net, high, word)
        }
        ValueState::AtomEnd(draft, purpose, atom) => {
            atom_end(alloc, draft, purpose, atom.into_inner(), word)
        }
    }
}

/// Reads a word in a block.
fn block_next(alloc: Global, state: BlockState, word: &[u8]) -> Result<Option<Reader>, AllocError>
    ensures { IfOk result (λ o. o ≡ spec.block_next state word.now) }
{
    match state {
        BlockState::StepStart(draft, steps) => step_start(alloc, draft, steps, word),
        BlockState::AfterEnd(draft, steps) => after_end(alloc, draft, steps, word),
        BlockState::IfName(draft, steps) => if_name(alloc, draft, steps, word),
        BlockState::StepTarget(draft, steps, target) => step_target(
            alloc, draft, steps, target, word,
        ),
        BlockState::StepIndex(draft, steps, memory) => step_index(
            alloc, draft, steps, memory, word,
        ),
    }
}

/// Reads a word that chooses.
fn state_next(alloc: Global, state: State, word: &[u8]) -> Result<Option<Reader>, AllocError>
    requires { IsFormed (read.behind Coming.Nothing state) }
    ensures { IfOk result (λ o. o ≡ spec.state_next state word.now) }
{
    match state {
        State::Head(state) => head_next(alloc, state, word),
        State::Item(state) => item_next(alloc, state, word),
        State::Value(state) => value_word(alloc, state, word),
        State::Block(state) => block_next(alloc, state, word),
    }
}

/// Reads a word. Returns `None` if no design continues with the word.
fn next(alloc: Global, reader: Reader, word: &[u8]) -> Result<Option<Reader>, AllocError>
    requires { IsFormed reader }
    ensures { IfOk result (λ o. o ≡ spec.next reader word.now) }
{
    if !reader.coming.is_nothing() {
        return Ok(reader.expected(word));
    }
    let Reader { state, .. } = reader;
    state_next(alloc, state, word)
}

/// Returns the modules if a reader is between modules, and there is at least one.
fn whole_head(state: HeadState) -> Option<Listed<Module>>
    ensures { result ≡ spec.whole_head state }
{
    match state {
        HeadState::Between(modules) => {
            if modules.len() == 0 {
                return None;
            }
            Some(modules)
        }
        _ => None,
    }
}

/// Returns the modules, if a design may end in a state.
fn whole_state(state: State) -> Option<Listed<Module>>
    ensures { result ≡ spec.whole_state state }
{
    match state {
        State::Head(state) => whole_head(state),
        State::Item(state) => {
            discard_item(state);
            None
        }
        State::Value(state) => {
            discard_value(state);
            None
        }
        State::Block(state) => {
            discard_block(state);
            None
        }
    }
}

/// Returns the modules, if a design may end.
fn whole(reader: Reader) -> Option<Listed<Module>>
    ensures { result ≡ spec.whole reader }
{
    let Reader { coming, state } = reader;
    if !coming.is_nothing() {
        discard(state);
        return None;
    }
    whole_state(state)
}

/// Returns the modules after the last word, or `Refused(passed)` if the text ends too early.
fn told(reader: Reader, passed: usize) -> Result<Vec<Module>, ParseFault>
    ensures tree { IfOk result (λ modules. spec.whole reader ≡ Some modules.items) }
    ensures refused { IfErr result (λ e. (spec.whole reader ≡ None) × (e ≡ ParseFault.Refused passed)) }
{
    match whole(reader) {
        Some(modules) => Ok(modules.into_vec()),
        None => Err(ParseFault::Refused(passed)),
    }
}

/// Returns the bytes of a word.
#[tactic(auto, unfolding(vlog_lex::specs::Scanned::word_of))]
fn word_at(text: &[u8], lexeme: Lexeme) -> &[u8]
    ensures { result.now ≡ word_of text.now lexeme }
{
    let (from, to) = (lexeme.from as usize, lexeme.to as usize);
    if from <= to && to <= text.len() {
        &text[from..to]
    } else {
        &[]
    }
}

/// Returns the modules of the words of a text, with numbers capped at a size that the rule on widths refuses. Returns the number of words
/// before the first that no design continues with, if there is one. One pass, without recursion.
pub fn parse(alloc: Global, text: &[u8], lexemes: &[Lexeme]) -> Result<Vec<Module>, ParseFault>
    ensures tree { IfOk result (λ modules. (ms : List ModuleTree) × SpellsDesign ms (words_at text.now lexemes.now) × (modules.items ≡ map clamped ms)) }
    ensures refused { IfErr result (λ e. Refuses (words_at text.now lexemes.now) e) }
{
    let mut reader = Reader::head(Coming::Nothing, HeadState::Between(Listed::new(alloc)));
    let mut passed = 0;
    for lexeme in lexemes {
        let word = word_at(text, *lexeme);
        let found = next(alloc, reader, word)?;
        match found {
            Some(more) => reader = more,
            None => return Err(ParseFault::Refused(passed)),
        }
        passed += 1;
    }
    told(reader, passed)
}
