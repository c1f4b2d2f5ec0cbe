// A FIFO: a ring of entries, read at its head.

ghost use Rattle.std.specs.Prelude.{◌≡◌, ◌<◌, ◌≤◌, ◌-◌, ◌∷◌, [], IfOk, codes};
ghost use Rattle.std.specs.Str.{IsAscii};
ghost use Rattle.vlog_tree.specs.declared.tree.Atom.TheVariants.{Net, Literal};
ghost use Rattle.vlog_tree.specs.declared.tree.Value.TheVariants.{Choose, Cell};
ghost use Rattle.vlog_tree.specs.declared.tree.BinaryOp.TheVariants.{Plus, Minus, And, Xor, Equals, Differs, Less};
ghost use Rattle.hw_build.specs.Elements.{with_all, Input, Output, Wire, Register, Memory, Block, reset_or_set, stored};
ghost use Rattle.hw_channel_lines.specs.Texts.{of_net, two as two_lem, with_number as with_number_lem, fifo_tree, next_wires as next_wires_lem, pointer_wires};
ghost use Rattle.hw_channel_lines.specs.Texts.{count_wires as count_wires_lem, fifo_blocks};

use crate::names::fifo_name;
use hw_build::{Draft, bits_for, net, net_value, number, reset_set_steps, store_steps, text};
use std::alloc::{AllocError, Global};
use vlog_tree::{BinaryOp, Module, Value};

/// What an operator makes of two nets.
pub fn two(alloc: Global, x: &[u8], op: BinaryOp, y: &[u8]) -> Result<Value, AllocError>
    requires left { IsAscii x.now }
    requires right { IsAscii y.now }
    ensures { IfOk result (λ v. v ≡ two_lem x.now op y.now) }
{
    Ok(Value::Binary {
        left: net(alloc, x)?,
        op,
        right: net(alloc, y)?,
    })
}

fn with_number(
    alloc: Global,
    x: &[u8],
    op: BinaryOp,
    width: u32,
    value: u32,
) -> Result<Value, AllocError>
    requires { IsAscii x.now }
    ensures { IfOk result (λ v. v ≡ with_number_lem x.now op width value) }
{
    Ok(Value::Binary {
        left: net(alloc, x)?,
        op,
        right: number(width, value),
    })
}

// A wire of `bits` bits: an operator on a net and a number of `width` bits.
fn number_wire(
    alloc: Global,
    draft: &mut Draft,
    bits: u32,
    name: &[u8],
    x: &[u8],
    op: BinaryOp,
    width: u32,
    value: u32,
) -> Result<(), AllocError>
    requires name { IsAscii name.now }
    requires x { IsAscii x.now }
    ensures { IfOk result (λ u. draft.new ≡ with_all draft.old (Wire bits name.now (with_number_lem x.now op width value) ∷ [])) }
{
    draft.wire(alloc, bits, name, with_number(alloc, x, op, width, value)?)
}

// 0 where a condition holds, else a net.
fn zero_or(alloc: Global, condition: &[u8], width: u32, no: &[u8]) -> Result<Value, AllocError>
    requires condition { IsAscii condition.now }
    requires no { IsAscii no.now }
    ensures { IfOk result (λ v. v ≡ Choose (Net condition.now) (Literal width 0) (Net no.now)) }
{
    Ok(Value::Choose {
        condition: net(alloc, condition)?,
        yes: number(width, 0),
        no: net(alloc, no)?,
    })
}

// The one net where a condition holds, else the other.
fn choice(alloc: Global, condition: &[u8], yes: &[u8], no: &[u8]) -> Result<Value, AllocError>
    requires condition { IsAscii condition.now }
    requires yes { IsAscii yes.now }
    requires no { IsAscii no.now }
    ensures { IfOk result (λ v. v ≡ Choose (Net condition.now) (Net yes.now) (Net no.now)) }
{
    Ok(Value::Choose {
        condition: net(alloc, condition)?,
        yes: net(alloc, yes)?,
        no: net(alloc, no)?,
    })
}

// The entry at the head.
fn first_token(alloc: Global) -> Result<Value, AllocError>
    ensures { IfOk result (λ v. v ≡ Cell (codes "tokens") (codes "head")) }
{
    Ok(Value::Cell {
        memory: text(alloc, b"tokens")?,
        index: text(alloc, b"head")?,
    })
}

// The wires for the next index of a ring, by their names.
fn next_wires(
    alloc: Global,
    draft: &mut Draft,
    width: u32,
    places: u32,
    place: &[u8],
    up: &[u8],
    last: &[u8],
    next: &[u8],
) -> Result<(), AllocError>
    requires places { 0 < places }
    requires place { IsAscii place.now }
    requires up { IsAscii up.now }
    requires last { IsAscii last.now }
    requires next { IsAscii next.now }
    ensures { IfOk result (λ u. draft.new ≡ with_all draft.old (next_wires_lem width places place.now up.now last.now next.now [])) }
{
    number_wire(alloc, draft, width, up, place, BinaryOp::Plus, width, 1)?;
    number_wire(
        alloc,
        draft,
        1,
        last,
        place,
        BinaryOp::Equals,
        width,
        places - 1,
    )?;
    draft.wire(alloc, width, next, zero_or(alloc, last, width, up)?)
}

fn inputs(alloc: Global, draft: &mut Draft, bits: u32) -> Result<(), AllocError>
    ensures { IfOk result (λ u. draft.new ≡ with_all draft.old (Input 1 (codes "put") ∷ Input bits (codes "din") ∷ Input 1 (codes "take") ∷ [])) }
{
    draft.input(alloc, 1, b"put")?;
    draft.input(alloc, bits, b"din")?;
    draft.input(alloc, 1, b"take")
}

// The widths of an entry's index and of a count of entries.
#[derive(Clone, Copy)]
struct Widths {
    place: u32,
    count: u32,
}

fn registers(
    alloc: Global,
    draft: &mut Draft,
    bits: u32,
    places: u32,
    widths: Widths,
) -> Result<(), AllocError>
    ensures { IfOk result (λ u. draft.new ≡ with_all draft.old
        (Register widths.place (codes "head") ∷ Register widths.place (codes "tail") ∷ Register widths.count (codes "count") ∷ Memory bits (codes "tokens") places ∷ [])) }
{
    draft.register(alloc, widths.place, b"head")?;
    draft.register(alloc, widths.place, b"tail")?;
    draft.register(alloc, widths.count, b"count")?;
    draft.memory(alloc, bits, b"tokens", places)
}

fn outputs(
    alloc: Global,
    draft: &mut Draft,
    bits: u32,
    depth: u32,
    width: u32,
) -> Result<(), AllocError>
    ensures { IfOk result (λ u. draft.new ≡ with_all draft.old
        (Output 1 (codes "rdy") (with_number_lem (codes "count") Less width depth) ∷ Wire 1 (codes "some") (with_number_lem (codes "count") Differs width 0) ∷ Output 1
        (codes "has") (of_net (codes "some")) ∷ Output bits (codes "dout") (Cell (codes "tokens") (codes "head")) ∷ Wire 1 (codes "pop")
        (two_lem (codes "take") And (codes "some")) ∷ [])) }
{
    draft.output(
        alloc,
        1,
        b"rdy",
        with_number(alloc, b"count", BinaryOp::Less, width, depth)?,
    )?;
    number_wire(
        alloc,
        draft,
        1,
        b"some",
        b"count",
        BinaryOp::Differs,
        width,
        0,
    )?;
    draft.output(alloc, 1, b"has", net_value(alloc, b"some")?)?;
    draft.output(alloc, bits, b"dout", first_token(alloc)?)?;
    draft.wire(
        alloc,
        1,
        b"pop",
        two(alloc, b"take", BinaryOp::And, b"some")?,
    )
}

// Whether the count changes.
fn moves(alloc: Global, draft: &mut Draft) -> Result<(), AllocError>
    ensures { IfOk result (λ u. draft.new ≡ with_all draft.old (Wire 1 (codes "moves") (two_lem (codes "put") Xor (codes "pop")) ∷ [])) }
{
    draft.wire(
        alloc,
        1,
        b"moves",
        two(alloc, b"put", BinaryOp::Xor, b"pop")?,
    )
}

// What the count changes to.
fn next_count(alloc: Global, draft: &mut Draft, width: u32) -> Result<(), AllocError>
    ensures { IfOk result (λ u. draft.new ≡ with_all draft.old (Wire width (codes "count_next") (Choose (Net (codes "put")) (Net (codes "more")) (Net (codes "fewer"))) ∷ [])) }
{
    draft.wire(
        alloc,
        width,
        b"count_next",
        choice(alloc, b"put", b"more", b"fewer")?,
    )
}

fn count_wires(alloc: Global, draft: &mut Draft, width: u32) -> Result<(), AllocError>
    ensures { IfOk result (λ u. draft.new ≡ with_all draft.old (count_wires_lem width [])) }
{
    moves(alloc, draft)?;
    number_wire(
        alloc,
        draft,
        width,
        b"more",
        b"count",
        BinaryOp::Plus,
        width,
        1,
    )?;
    number_wire(
        alloc,
        draft,
        width,
        b"fewer",
        b"count",
        BinaryOp::Minus,
        width,
        1,
    )?;
    next_count(alloc, draft, width)
}

// A register that begins with 0 and takes `next` where `set` is 1.
fn counter(
    alloc: Global,
    draft: &mut Draft,
    width: u32,
    register: &[u8],
    set: &[u8],
    next: &[u8],
) -> Result<(), AllocError>
    requires register { IsAscii register.now }
    requires set { IsAscii set.now }
    requires next { IsAscii next.now }
    ensures { IfOk result (λ u. draft.new ≡ with_all draft.old (Block (reset_or_set register.now (Literal width 0) set.now (Net next.now)) ∷ [])) }
{
    let next = net(alloc, next)?;
    draft.block(reset_set_steps(alloc, register, number(width, 0), set, next)?)
}

fn blocks(alloc: Global, draft: &mut Draft, widths: Widths) -> Result<(), AllocError>
    ensures { IfOk result (λ u. draft.new ≡ with_all draft.old (fifo_blocks widths.place widths.count)) }
{
    counter(alloc, draft, widths.place, b"head", b"pop", b"head_next")?;
    counter(alloc, draft, widths.place, b"tail", b"put", b"tail_next")?;
    counter(
        alloc,
        draft,
        widths.count,
        b"count",
        b"moves",
        b"count_next",
    )?;
    let din = net(alloc, b"din")?;
    draft.block(store_steps(alloc, b"tokens", b"put", b"tail", din)?)
}

fn pointers(alloc: Global, draft: &mut Draft, width: u32, places: u32) -> Result<(), AllocError>
    requires { 0 < places }
    ensures { IfOk result (λ u. draft.new ≡ with_all draft.old (pointer_wires width places [])) }
{
    next_wires(
        alloc,
        draft,
        width,
        places,
        b"head",
        b"head_up",
        b"head_last",
        b"head_next",
    )?;
    next_wires(
        alloc,
        draft,
        width,
        places,
        b"tail",
        b"tail_up",
        b"tail_last",
        b"tail_next",
    )
}

fn finished(draft: Draft, bits: u32, depth: u32, places: u32) -> Module
    requires is { draft ≡ fifo_tree bits depth places }
    requires bits { 2 ≤ bits }
    requires places { 0 < places }
    ensures { result ≡ fifo_tree bits depth places }
{
    draft.module()
}

/// A FIFO of `places` entries that is ready while it holds fewer tokens than `depth`.
pub fn fifo(alloc: Global, bits: u32, depth: u32, places: u32) -> Result<Module, AllocError>
    requires bits { 2 ≤ bits }
    requires places { 0 < places }
    ensures { IfOk result (λ m. m ≡ fifo_tree bits depth places) }
{
    let widths = Widths {
        place: bits_for(places - 1),
        count: bits_for(places),
    };
    let mut draft = Draft::new(alloc, fifo_name(alloc, bits, depth, places)?)?;
    inputs(alloc, &mut draft, bits)?;
    registers(alloc, &mut draft, bits, places, widths)?;
    outputs(alloc, &mut draft, bits, depth, widths.count)?;
    pointers(alloc, &mut draft, widths.place, places)?;
    count_wires(alloc, &mut draft, widths.count)?;
    blocks(alloc, &mut draft, widths)?;
    Ok(finished(draft, bits, depth, places))
}
