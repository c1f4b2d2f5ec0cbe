// Atoms, and the values that drive nets.

ghost use Rattle.std.specs.Prelude.{◌≡◌, IfOk};
ghost use Rattle.vlog_read.specs.ValueReading as spec;

use crate::held::Held;
use crate::state::{BlockState, ModuleDraft, Purpose, Reader, Steps, ValueState};
use std::alloc::{AllocError, Global};
use tapa_base::Text;
use vlog_lex::{Coming, Listed, is_name_word, is_number, literal_of, name_of, width_at};
use vlog_tree::{Atom, Atoms, BinaryOp, Item, Step, Value};

/// Returns the reader after the value that drives a net, before the words that end the value.
fn driven(
    draft: Held<ModuleDraft>,
    coming: Coming,
    net: Text,
    value: Value,
) -> Result<Reader, AllocError>
    ensures { IfOk result (λ r. r ≡ spec.driven draft coming net value) }
{
    Reader::item_behind(coming, draft, Item::Assign { net, value })
}

/// Reads the net that is driven.
pub fn assign_name(
    alloc: Global,
    draft: Held<ModuleDraft>,
    word: &[u8],
) -> Result<Option<Reader>, AllocError>
    ensures { IfOk result (λ o. o ≡ spec.assign_name draft word.now) }
{
    if !is_name_word(word) {
        return Ok(None);
    }
    let net = name_of(alloc, word)?;
    Ok(Some(Reader::value(Coming::Equals, ValueState::ValueStart(draft, net))))
}

/// Reads the first word of an atom: a name, after which the atom may go on, or a literal.
pub fn atom_start(
    alloc: Global,
    draft: Held<ModuleDraft>,
    purpose: Held<Purpose>,
    word: &[u8],
) -> Result<Option<Reader>, AllocError>
    ensures { IfOk result (λ o. o ≡ spec.atom_start draft purpose word.now) }
{
    if is_name_word(word) {
        let name = name_of(alloc, word)?;
        return Ok(Some(Reader::value(Coming::Nothing, ValueState::AtomNext(draft, purpose, name))));
    }
    match literal_of(word) {
        Some(atom) => {
            let atom = Held::new(alloc, atom)?;
            Ok(Some(Reader::value(Coming::Nothing, ValueState::AtomEnd(draft, purpose, atom))))
        }
        None => Ok(None),
    }
}

/// Reads the first word of the value that drives a net.
pub fn value_start(
    alloc: Global,
    draft: Held<ModuleDraft>,
    net: Text,
    word: &[u8],
) -> Result<Option<Reader>, AllocError>
    ensures { IfOk result (λ o. o ≡ spec.value_start draft net word.now) }
{
    if word == b"~".as_slice() {
        let purpose = Purpose::Inverted(net);
        Ok(Some(Reader::atom(alloc, Coming::Nothing, draft, purpose)?))
    } else if word == b"{".as_slice() {
        Ok(Some(Reader::value(Coming::Nothing, ValueState::BraceStart(draft, net))))
    } else {
        let purpose = Held::new(alloc, Purpose::First(net))?;
        atom_start(alloc, draft, purpose, word)
    }
}

/// Reads the word after a brace: a number of copies, or the first word of a concatenation's first atom.
pub fn brace_start(
    alloc: Global,
    draft: Held<ModuleDraft>,
    net: Text,
    word: &[u8],
) -> Result<Option<Reader>, AllocError>
    ensures { IfOk result (λ o. o ≡ spec.brace_start draft net word.now) }
{
    if is_number(word) {
        let purpose = Purpose::Copied(net, width_at(word));
        return Ok(Some(Reader::atom(alloc, Coming::LeftBrace, draft, purpose)?));
    }
    let purpose = Held::new(alloc, Purpose::Joined(net, Listed::new(alloc)))?;
    atom_start(alloc, draft, purpose, word)
}

/// Returns the operator of arithmetic that a word spells, if any.
fn arithmetic_of(word: &[u8]) -> Option<BinaryOp>
    ensures { result ≡ spec.arithmetic_of word.now }
{
    if word == b"+".as_slice() {
        Some(BinaryOp::Plus)
    } else if word == b"-".as_slice() {
        Some(BinaryOp::Minus)
    } else if word == b"*".as_slice() {
        Some(BinaryOp::Times)
    } else if word == b"/".as_slice() {
        Some(BinaryOp::Divide)
    } else if word == b"%".as_slice() {
        Some(BinaryOp::Remainder)
    } else {
        None
    }
}

/// Returns the operator on bits, or the shift, that a word spells, if any.
fn bits_of(word: &[u8]) -> Option<BinaryOp>
    ensures { result ≡ spec.bits_of word.now }
{
    if word == b"&".as_slice() {
        Some(BinaryOp::And)
    } else if word == b"|".as_slice() {
        Some(BinaryOp::Or)
    } else if word == b"^".as_slice() {
        Some(BinaryOp::Xor)
    } else if word == b"<<".as_slice() {
        Some(BinaryOp::ShiftLeft)
    } else if word == b">>".as_slice() {
        Some(BinaryOp::ShiftRight)
    } else {
        None
    }
}

/// Returns the comparison that a word spells, if any.
fn comparison_of(word: &[u8]) -> Option<BinaryOp>
    ensures { result ≡ spec.comparison_of word.now }
{
    if word == b"==".as_slice() {
        Some(BinaryOp::Equals)
    } else if word == b"!=".as_slice() {
        Some(BinaryOp::Differs)
    } else if word == b"<".as_slice() {
        Some(BinaryOp::Less)
    } else {
        None
    }
}

/// Returns the operator that a word spells, if any.
fn operator_of(word: &[u8]) -> Option<BinaryOp>
    ensures { result ≡ spec.operator_of word.now }
{
    if let Some(op) = arithmetic_of(word) {
        return Some(op);
    }
    if let Some(op) = bits_of(word) {
        return Some(op);
    }
    comparison_of(word)
}

/// Reads the word after the first atom of a value.
pub fn value_next(
    alloc: Global,
    draft: Held<ModuleDraft>,
    net: Text,
    first: Atom,
    word: &[u8],
) -> Result<Option<Reader>, AllocError>
    ensures { IfOk result (λ o. o ≡ spec.value_next draft net first word.now) }
{
    if word == b";".as_slice() {
        return Ok(Some(driven(draft, Coming::Nothing, net, Value::Plain(first))?));
    }
    if word == b"?".as_slice() {
        let purpose = Purpose::Yes(net, first);
        return Ok(Some(Reader::atom(alloc, Coming::Nothing, draft, purpose)?));
    }
    match operator_of(word) {
        Some(op) => {
            let purpose = Purpose::Right(net, first, op);
            Ok(Some(Reader::atom(alloc, Coming::Nothing, draft, purpose)?))
        }
        None => Ok(None),
    }
}

/// Reads the word after an atom of a concatenation: one more atom follows, or the end after two atoms at least.
pub fn concat_next(
    alloc: Global,
    draft: Held<ModuleDraft>,
    net: Text,
    atoms: Listed<Atom>,
    word: &[u8],
) -> Result<Option<Reader>, AllocError>
    ensures { IfOk result (λ o. o ≡ spec.concat_next draft net atoms word.now) }
{
    if word == b",".as_slice() {
        let purpose = Purpose::Joined(net, atoms);
        Ok(Some(Reader::atom(alloc, Coming::Nothing, draft, purpose)?))
    } else if word == b"}".as_slice() && 2 <= atoms.len() {
        let value = Value::Concat(Atoms::of(atoms.into_vec()));
        Ok(Some(driven(draft, Coming::Semicolon, net, value)?))
    } else {
        Ok(None)
    }
}

/// Returns the reader after a step, before its semicolon.
fn stepped(draft: Held<ModuleDraft>, steps: Held<Steps>, step: Step) -> Result<Reader, AllocError>
    ensures { IfOk result (λ r. r ≡ spec.step_behind draft steps step) }
{
    let steps = steps.with_step(step)?;
    Ok(Reader::block(Coming::Semicolon, BlockState::StepStart(draft, steps)))
}

/// Reads the word after an atom that is whole. After the first atom of a value, and after one of a concatenation, the word chooses;
/// otherwise a certain word must come.
pub fn atom_end(
    alloc: Global,
    draft: Held<ModuleDraft>,
    purpose: Held<Purpose>,
    atom: Atom,
    word: &[u8],
) -> Result<Option<Reader>, AllocError>
    ensures { IfOk result (λ o. o ≡ spec.atom_end draft purpose atom word.now) }
{
    let reader = match purpose.into_inner() {
        Purpose::First(net) => return value_next(alloc, draft, net, atom, word),
        Purpose::Joined(net, atoms) => {
            return concat_next(alloc, draft, net, atoms.with(atom)?, word);
        }
        Purpose::Inverted(net) => driven(draft, Coming::Semicolon, net, Value::Invert(atom))?,
        Purpose::Right(net, left, op) => {
            let right = atom;
            let value = Value::Binary { left, op, right };
            driven(draft, Coming::Semicolon, net, value)?
        }
        Purpose::Yes(net, condition) => {
            let other = Purpose::No(net, condition, atom);
            Reader::atom(alloc, Coming::Colon, draft, other)?
        }
        Purpose::No(net, condition, yes) => {
            let no = atom;
            let value = Value::Choose { condition, yes, no };
            driven(draft, Coming::Semicolon, net, value)?
        }
        Purpose::Copied(net, count) => {
            driven(draft, Coming::BracesEnd, net, Value::Repeat { count, atom })?
        }
        Purpose::Assigned(steps, register) => {
            let value = atom;
            stepped(draft, steps, Step::NonblockingAssign { register, value })?
        }
        Purpose::Stored(steps, memory, index) => {
            let value = atom;
            let step = Step::MemoryAssign {
                memory,
                index,
                value,
            };
            stepped(draft, steps, step)?
        }
    };
    Ok(reader.expected(word))
}

/// Reads the word after a name that begins an atom: the atom is a part of the net, the cell of a memory, or the whole net.
pub fn atom_next(
    alloc: Global,
    draft: Held<ModuleDraft>,
    purpose: Held<Purpose>,
    name: Text,
    word: &[u8],
) -> Result<Option<Reader>, AllocError>
    ensures { IfOk result (λ o. o ≡ spec.atom_next draft purpose name word.now) }
{
    if word == b"[".as_slice() {
        Ok(Some(Reader::value(Coming::Nothing, ValueState::AtomHigh(draft, purpose, name))))
    } else {
        atom_end(alloc, draft, purpose, Atom::Net(name), word)
    }
}

/// Reads the index of a memory, whose cell is a whole value.
fn cell_index(
    alloc: Global,
    draft: Held<ModuleDraft>,
    purpose: Held<Purpose>,
    memory: Text,
    word: &[u8],
) -> Result<Option<Reader>, AllocError>
    ensures { IfOk result (λ o. o ≡ spec.cell_index draft purpose memory word.now) }
{
    let purpose = purpose.into_inner();
    match purpose {
        Purpose::First(net) => {
            if !is_name_word(word) {
                return Ok(None);
            }
            let index = name_of(alloc, word)?;
            let value = Value::Cell { memory, index };
            Ok(Some(driven(draft, Coming::BracketSemicolon, net, value)?))
        }
        _ => Ok(None),
    }
}

/// Reads the word after a bracket: the high bit of a part, or the index of a memory.
pub fn atom_high(
    alloc: Global,
    draft: Held<ModuleDraft>,
    purpose: Held<Purpose>,
    name: Text,
    word: &[u8],
) -> Result<Option<Reader>, AllocError>
    ensures { IfOk result (λ o. o ≡ spec.atom_high draft purpose name word.now) }
{
    if is_number(word) {
        let high = width_at(word);
        return Ok(Some(Reader::value(
            Coming::Colon,
            ValueState::AtomLow(draft, purpose, name, high),
        )));
    }
    cell_index(alloc, draft, purpose, name, word)
}

/// Reads the low bit of a part.
pub fn atom_low(
    alloc: Global,
    draft: Held<ModuleDraft>,
    purpose: Held<Purpose>,
    net: Text,
    high: u32,
    word: &[u8],
) -> Result<Option<Reader>, AllocError>
    ensures { IfOk result (λ o. o ≡ spec.atom_low draft purpose net high word.now) }
{
    if !is_number(word) {
        return Ok(None);
    }
    let low = width_at(word);
    let part = Held::new(alloc, Atom::Part { net, high, low })?;
    Ok(Some(Reader::value(
        Coming::RightBracket,
        ValueState::AtomEnd(draft, purpose, part),
    )))
}
