// The choices for registers and arrays, and the outputs.

ghost use Rattle.std.specs.Prelude.{◌≡◌, ◌+◌, ◌++◌, ◌∷◌, [], IfOk, length};
ghost use Rattle.tapa_base.specs.Kinds.{bits_of};
ghost use Rattle.vlog_tree.specs.declared.tree.Value.TheVariants.{Plain as PlainValue};
ghost use Rattle.hw_build.specs.Elements.{Output, with, with_all};
ghost use Rattle.hw_lines.specs.declared.nets.Choice.TheVariants.{Address, Clear, Data, Puts, StoreEnable, Takes, Token};
ghost use Rattle.hw_lines.specs.declared.nets.Net.TheVariants.{Addr, Din, Done, Ended, Taken, Wdata, We, Wr};
ghost use Rattle.hw_lines.specs.Nets.{name as name_lem};
ghost use Rattle.hw_lines.specs.Shape.{memory_kind as memory_kind_lem, stream_kind as stream_kind_lem};
ghost use Rattle.hw_lines.specs.States.{net as net_lem};
ghost use Rattle.hw_lines.specs.Effects.{entries as entries_lem};
ghost use Rattle.hw_lines.specs.Texts.{any, array_choices, choices, memory_outputs, outputs, pick, reset_by, result as result_lem, stream_outputs, taken, variable_choices, written};
ghost use Rattle.hw_states.specs.ByState.{IsByState};
ghost use Rattle.hw_nets.specs.Entries.{entry_forms};
ghost use Rattle.hw_nets.specs.Shapes.{form};

use crate::parts::{Part, add_each};
use hw_build::{Draft, reset_name};
use hw_lines::{Choice, Net};
use hw_nets::{Entry, add_any, add_pick, binary, name, net, result_of, root};
use hw_states::{Machine, add_wire, entries_of};
use std::alloc::{AllocError, Global};
use vlog_tree::{Atom, BinaryOp, Value};

// Adds whether one of a choice's conditions holds.
fn add_condition(
    alloc: Global,
    draft: &mut Draft,
    machine: &Machine,
    choice: Choice,
) -> Result<(), AllocError>
    requires { IsByState choice }
    ensures { IfOk result (λ u. draft.new ≡ with_all draft.old (any (form machine.now.shape) choice)) }
{
    let found = entries_of(alloc, machine, choice)?;
    add_any(alloc, draft, choice, &found)?;
    Ok(())
}

// Adds the value of a choice.
fn add_value(
    alloc: Global,
    draft: &mut Draft,
    machine: &Machine,
    width: u32,
    choice: Choice,
) -> Result<(), AllocError>
    requires { IsByState choice }
    ensures { IfOk result (λ u. draft.new ≡ with_all draft.old (pick (form machine.now.shape) width choice)) }
{
    let found = entries_of(alloc, machine, choice)?;
    add_pick(alloc, draft, width, choice, &found)?;
    Ok(())
}

// Whether a register gets its first value, where a state clears it.
#[tactic(auto, using(crate::proofs::BlockSteps::no_reset, crate::proofs::BlockSteps::a_reset))]
fn add_reset(alloc: Global, draft: &mut Draft, r: u32, clears: &[Entry]) -> Result<(), AllocError>
    ensures { IfOk result (λ u. draft.new ≡ with_all draft.old (reset_by r (entry_forms clears.now))) }
{
    let count = clears.len();
    if count == 0 {
        return Ok(());
    }
    let at_reset = Atom::Net(reset_name(alloc)?);
    let by_state = Atom::Net(root(alloc, Choice::Clear(r), clears)?);
    let either = binary(at_reset, BinaryOp::Or, by_state);
    add_wire(alloc, draft, 1, Net::Reset(r), either)
}

#[tactic(auto, using(hw_nets::proofs::Grows::all_append))]
fn add_clear(alloc: Global, draft: &mut Draft, machine: &Machine, r: u32) -> Result<(), AllocError>
    ensures { IfOk result (λ u. draft.new ≡ with_all draft.old (any (form machine.now.shape) (Clear r) ++ reset_by r (entries_lem (form machine.now.shape) (Clear r)))) }
{
    let clears = entries_of(alloc, machine, Choice::Clear(r))?;
    add_any(alloc, draft, Choice::Clear(r), &clears)?;
    add_reset(alloc, draft, r, &clears)?;
    Ok(())
}

/// The choices of a register.
#[tactic(auto, using(hw_nets::proofs::Grows::all_append))]
pub(crate) fn add_variable_choices(
    alloc: Global,
    draft: &mut Draft,
    machine: &Machine,
    r: u32,
) -> Result<(), AllocError>
    ensures { IfOk result (λ u. draft.new ≡ with_all draft.old (variable_choices (form machine.now.shape) r)) }
{
    let width = machine.shape.register_kind(r).bits();
    add_clear(alloc, draft, machine, r)?;
    add_condition(alloc, draft, machine, Choice::Set(r))?;
    add_value(alloc, draft, machine, width, Choice::NextValue(r))?;
    Ok(())
}

/// The choices of an array.
#[tactic(auto, using(hw_nets::proofs::Grows::all_append))]
pub(crate) fn add_array_choices(
    alloc: Global,
    draft: &mut Draft,
    machine: &Machine,
    a: u32,
) -> Result<(), AllocError>
    ensures { IfOk result (λ u. draft.new ≡ with_all draft.old (array_choices (form machine.now.shape) a)) }
{
    let place = machine.shape.index_bits(a);
    let width = machine.shape.array_kind(a).bits();
    add_condition(alloc, draft, machine, Choice::Stores(a))?;
    add_value(alloc, draft, machine, place, Choice::WriteIndex(a))?;
    add_value(alloc, draft, machine, width, Choice::WriteData(a))?;
    Ok(())
}

/// Adds the choices for the state, the registers and the arrays.
#[tactic(auto, using(hw_nets::proofs::Grows::all_append))]
pub fn add_choices(alloc: Global, draft: &mut Draft, machine: &Machine) -> Result<(), AllocError>
    ensures { IfOk result (λ u. draft.new ≡ with_all draft.old (choices (form machine.now.shape))) }
{
    let width = machine.shape.state_bits()?;
    add_value(alloc, draft, machine, width, Choice::ToState)?;
    add_condition(alloc, draft, machine, Choice::ToEnd)?;
    add_each(alloc, draft, machine, Part::Variables)?;
    add_each(alloc, draft, machine, Part::Arrays)?;
    Ok(())
}

// ---- outputs

fn add_output(
    alloc: Global,
    draft: &mut Draft,
    machine: &Machine,
    width: u32,
    port: Net,
    choice: Choice,
) -> Result<(), AllocError>
    requires { IsByState choice }
    ensures { IfOk result (λ u. draft.new ≡ with draft.old (Output width (name_lem port) (result_lem (form machine.now.shape) width choice))) }
{
    let found = entries_of(alloc, machine, choice)?;
    let name = name(alloc, port)?;
    let value = result_of(alloc, width, choice, &found)?;
    draft.output(alloc, width, name.bytes(), value)?;
    Ok(())
}

fn add_writer(alloc: Global, draft: &mut Draft, machine: &Machine, s: u32) -> Result<(), AllocError>
    ensures { IfOk result (λ u. draft.new ≡ with_all draft.old
        (Output 1 (name_lem (Wr s)) (result_lem (form machine.now.shape) 1 (Puts s)) ∷ Output (bits_of (stream_kind_lem (form machine.now.shape) s) + 1) (name_lem (Din s))
        (result_lem (form machine.now.shape) (bits_of (stream_kind_lem (form machine.now.shape) s) + 1) (Token s)) ∷ [])) }
{
    let width = machine.shape.token_bits(s);
    let puts = Choice::Puts(s);
    let token = Choice::Token(s);
    add_output(alloc, draft, machine, 1, Net::Wr(s), puts)?;
    add_output(alloc, draft, machine, width, Net::Din(s), token)?;
    Ok(())
}

#[tactic(auto, using(hw_nets::proofs::Grows::all_append))]
fn add_written(
    alloc: Global,
    draft: &mut Draft,
    machine: &Machine,
    s: u32,
) -> Result<(), AllocError>
    ensures { IfOk result (λ u. draft.new ≡ with_all draft.old (written (form machine.now.shape) s)) }
{
    let width = machine.shape.token_bits(s);
    add_condition(alloc, draft, machine, Choice::Puts(s))?;
    add_value(alloc, draft, machine, width, Choice::Token(s))?;
    add_writer(alloc, draft, machine, s)?;
    Ok(())
}

#[tactic(auto, using(hw_nets::proofs::Grows::all_append))]
fn add_taken(alloc: Global, draft: &mut Draft, machine: &Machine, s: u32) -> Result<(), AllocError>
    ensures { IfOk result (λ u. draft.new ≡ with_all draft.old (taken (form machine.now.shape) s)) }
{
    let takes = Choice::Takes(s);
    add_condition(alloc, draft, machine, takes)?;
    add_output(alloc, draft, machine, 1, Net::Taken(s), takes)?;
    Ok(())
}

/// The choices and the outputs of a stream.
pub(crate) fn add_stream(
    alloc: Global,
    draft: &mut Draft,
    machine: &Machine,
    s: u32,
) -> Result<(), AllocError>
    ensures { IfOk result (λ u. draft.new ≡ with_all draft.old (stream_outputs (form machine.now.shape) s)) }
{
    if machine.shape.writes(s) {
        add_written(alloc, draft, machine, s)
    } else {
        add_taken(alloc, draft, machine, s)
    }
}

fn add_memory_ports(
    alloc: Global,
    draft: &mut Draft,
    machine: &Machine,
    m: u32,
) -> Result<(), AllocError>
    ensures { IfOk result (λ u. draft.new ≡ with_all draft.old
        (Output 64 (name_lem (Addr m)) (result_lem (form machine.now.shape) 64 (Address m)) ∷ Output (bits_of (memory_kind_lem (form machine.now.shape) m)) (name_lem (Wdata m))
        (result_lem (form machine.now.shape) (bits_of (memory_kind_lem (form machine.now.shape) m)) (Data m)) ∷ Output 1 (name_lem (We m))
        (result_lem (form machine.now.shape) 1 (StoreEnable m)) ∷ [])) }
{
    let width = machine.shape.memory_kind(m).bits();
    let asks = Choice::Address(m);
    let data = Choice::Data(m);
    let saves = Choice::StoreEnable(m);
    add_output(alloc, draft, machine, 64, Net::Addr(m), asks)?;
    add_output(alloc, draft, machine, width, Net::Wdata(m), data)?;
    add_output(alloc, draft, machine, 1, Net::We(m), saves)?;
    Ok(())
}

/// The choices and the outputs of a memory.
#[tactic(auto, using(hw_nets::proofs::Grows::all_append))]
pub(crate) fn add_memory(
    alloc: Global,
    draft: &mut Draft,
    machine: &Machine,
    m: u32,
) -> Result<(), AllocError>
    ensures { IfOk result (λ u. draft.new ≡ with_all draft.old (memory_outputs (form machine.now.shape) m)) }
{
    let width = machine.shape.memory_kind(m).bits();
    add_value(alloc, draft, machine, 64, Choice::Address(m))?;
    add_condition(alloc, draft, machine, Choice::StoreEnable(m))?;
    add_value(alloc, draft, machine, width, Choice::Data(m))?;
    add_memory_ports(alloc, draft, machine, m)?;
    Ok(())
}

fn add_done(alloc: Global, draft: &mut Draft) -> Result<(), AllocError>
    ensures { IfOk result (λ u. draft.new ≡ with_all draft.old (Output 1 (name_lem Done) (PlainValue (net_lem Ended)) ∷ [])) }
{
    let done = name(alloc, Net::Done)?;
    let ended = Value::Plain(net(alloc, Net::Ended)?);
    draft.output(alloc, 1, done.bytes(), ended)
}

/// Adds the outputs, each after its choices.
#[tactic(auto, using(hw_nets::proofs::Grows::all_append))]
pub fn add_outputs(alloc: Global, draft: &mut Draft, machine: &Machine) -> Result<(), AllocError>
    ensures { IfOk result (λ u. draft.new ≡ with_all draft.old (outputs (form machine.now.shape))) }
{
    add_done(alloc, draft)?;
    add_each(alloc, draft, machine, Part::Streams)?;
    add_each(alloc, draft, machine, Part::Memories)?;
    Ok(())
}
