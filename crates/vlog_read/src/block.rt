// Clocked blocks, from left to right. Nested steps are one flat list, so nothing goes deep.

ghost use Rattle.std.specs.Prelude.{◌≡◌, ◌∷◌, IfOk};
ghost use Rattle.vlog_read.specs.BlockReading as spec;

use crate::held::Held;
use crate::state::{BlockState, ModuleDraft, Purpose, Reader, Steps};
use std::alloc::{AllocError, Global};
use tapa_base::Text;
use vlog_lex::{Coming, Listed, Parts, is_name_word, name_of};
use vlog_tree::{Block, Item, Step};

/// Ends a part of a block. After the part an `else` may come, unless the part is one.
fn part_ended(
    alloc: Global,
    draft: Held<ModuleDraft>,
    steps: Listed<Step>,
    is_else: bool,
    parts: Parts,
) -> Result<Reader, AllocError>
    ensures { IfOk result (λ r. r ≡ spec.ended_by draft steps (is_else ∷ parts)) }
{
    let steps = Held::new(alloc, Steps { steps, parts })?;
    if is_else {
        let steps = steps.with_step(Step::End)?;
        Ok(Reader::block(Coming::Nothing, BlockState::StepStart(draft, steps)))
    } else {
        Ok(Reader::block(Coming::Nothing, BlockState::AfterEnd(draft, steps)))
    }
}

/// Reads an `end`: of the innermost part that is open, or of the block if no part is.
fn ended(alloc: Global, draft: Held<ModuleDraft>, steps: Held<Steps>) -> Result<Reader, AllocError>
    ensures { IfOk result (λ r. r ≡ spec.ended draft steps) }
{
    let Steps { steps, parts } = steps.into_inner();
    match parts.close() {
        Some((is_else, parts)) => part_ended(alloc, draft, steps, is_else, parts),
        None => {
            let block = Item::Always(Block::of(steps.into_vec()));
            Reader::item_behind(Coming::Nothing, draft, block)
        }
    }
}

/// Reads the word at which a step may begin, or a part may end.
pub fn step_start(
    alloc: Global,
    draft: Held<ModuleDraft>,
    steps: Held<Steps>,
    word: &[u8],
) -> Result<Option<Reader>, AllocError>
    ensures { IfOk result (λ o. o ≡ spec.step_start draft steps word.now) }
{
    if is_name_word(word) {
        let target = name_of(alloc, word)?;
        Ok(Some(Reader::block(
            Coming::Nothing,
            BlockState::StepTarget(draft, steps, target),
        )))
    } else if word == b"if".as_slice() {
        Ok(Some(Reader::block(Coming::LeftParen, BlockState::IfName(draft, steps))))
    } else if word == b"end".as_slice() {
        Ok(Some(ended(alloc, draft, steps)?))
    } else {
        Ok(None)
    }
}

/// Reads the word after the part of an `if`: its `else`, or the word after the `if`.
pub fn after_end(
    alloc: Global,
    draft: Held<ModuleDraft>,
    steps: Held<Steps>,
    word: &[u8],
) -> Result<Option<Reader>, AllocError>
    ensures { IfOk result (λ o. o ≡ spec.after_end draft steps word.now) }
{
    if word == b"else".as_slice() {
        let steps = steps.opened(Step::Else, true)?;
        return Ok(Some(Reader::block(Coming::Begin, BlockState::StepStart(draft, steps))));
    }
    step_start(alloc, draft, steps.with_step(Step::End)?, word)
}

/// Reads the name that an `if` tests (IEEE 1364-2005, 9.4).
pub fn if_name(
    alloc: Global,
    draft: Held<ModuleDraft>,
    steps: Held<Steps>,
    word: &[u8],
) -> Result<Option<Reader>, AllocError>
    ensures { IfOk result (λ o. o ≡ spec.if_name draft steps word.now) }
{
    if !is_name_word(word) {
        return Ok(None);
    }
    let condition = name_of(alloc, word)?;
    let steps = steps.opened(Step::If(condition), false)?;
    Ok(Some(Reader::block(Coming::ParenBegin, BlockState::StepStart(draft, steps))))
}

/// Reads the word after the name that a step assigns: that of a register, or of a memory.
pub fn step_target(
    alloc: Global,
    draft: Held<ModuleDraft>,
    steps: Held<Steps>,
    target: Text,
    word: &[u8],
) -> Result<Option<Reader>, AllocError>
    ensures { IfOk result (λ o. o ≡ spec.step_target draft steps target word.now) }
{
    if word == b"<=".as_slice() {
        let purpose = Purpose::Assigned(steps, target);
        Ok(Some(Reader::atom(alloc, Coming::Nothing, draft, purpose)?))
    } else if word == b"[".as_slice() {
        Ok(Some(Reader::block(Coming::Nothing, BlockState::StepIndex(draft, steps, target))))
    } else {
        Ok(None)
    }
}

/// Reads the net that is the index of a memory.
pub fn step_index(
    alloc: Global,
    draft: Held<ModuleDraft>,
    steps: Held<Steps>,
    memory: Text,
    word: &[u8],
) -> Result<Option<Reader>, AllocError>
    ensures { IfOk result (λ o. o ≡ spec.step_index draft steps memory word.now) }
{
    if !is_name_word(word) {
        return Ok(None);
    }
    let index = name_of(alloc, word)?;
    let purpose = Purpose::Stored(steps, memory, index);
    Ok(Some(Reader::atom(alloc, Coming::BracketArrow, draft, purpose)?))
}
