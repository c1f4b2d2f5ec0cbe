// Reads of arrays, by their numbers: each number and array has one port.

ghost use Rattle.std.specs.Prelude.{◌≡◌, ◌<◌, ◌++◌, ◌∷◌, [], Some, IfOk, length, max};
ghost use Rattle.tapa_base.specs.Kinds.{bits_of};
ghost use Rattle.vlog_tree.specs.declared.tree.Atom.TheVariants.{Literal, Net as NetAtom};
ghost use Rattle.vlog_tree.specs.declared.tree.Value.TheVariants.{Binary, Cell as CellValue, Choose};
ghost use Rattle.vlog_tree.specs.declared.tree.BinaryOp.TheVariants.{And, Less};
ghost use Rattle.hw_build.specs.Elements.{Wire, with_all};
ghost use Rattle.hw_build.specs.Scope.{each};
ghost use Rattle.hw_build.specs.Choices.{choice as choice_lem};
ghost use Rattle.hw_lines.specs.declared.nets.Choice.TheVariants.{Reads, ArrayIndex};
ghost use Rattle.hw_lines.specs.declared.nets.Net.TheVariants.{Answer, Array, At, Raw, ReadInside, ReadOn};
ghost use Rattle.hw_lines.specs.Nets.{front as front_lem, name as name_lem};
ghost use Rattle.hw_lines.specs.Drivers.{low_bits as low_bits_lem};
ghost use Rattle.hw_lines.specs.Shape.{array_cells as array_cells_lem, array_kind as array_kind_lem, index_bits as index_bits_lem, state_count};
ghost use Rattle.hw_lines.specs.States.{net as net_lem};
ghost use Rattle.hw_lines.specs.Effects.{at, effect, entries as entries_lem, entry};
ghost use Rattle.hw_lines.specs.Texts.{answered, asked, asked_of, read_index, read_numbers, reads_of};
ghost use Rattle.hw_nets.specs.Entries.{entries_in, entry_forms};
ghost use Rattle.hw_expressions.specs.Reads.{read_form};
ghost use Rattle.hw_task.specs.Asked.{AreAsked, IsOfReads, asked_at, asked_form, port_of, read_number, spot_given};
ghost use Rattle.hw_nets.specs.Shapes.{form};

use hw_build::Draft;
use hw_expressions::{ArrayRead, compile};
use hw_lines::{Choice, Net};
use hw_nets::{
    Entry, Shape, add_any, add_found, add_pick, binary, choose, copy, entry_of, literal, low_bits,
    name, net, read_front, root,
};
use hw_operators::Numbered;
use hw_states::{add_wire, reads_at, reads_count};
use std::alloc::{AllocError, Global};
use tapa_base::Kind;
use vlog_tree::{Atom, BinaryOp, Value};

/// What a read asks for: its array and the atom of its index.
#[derive(Drop)]
pub(crate) struct Asked {
    pub array: u32,
    pub index: Atom,
}

// Whether the index of a read is one of its array's, and the cell is read.
fn add_inside(
    alloc: Global,
    draft: &mut Draft,
    shape: &Shape,
    p: u32,
    k: u32,
    array: u32,
    index: &Atom,
) -> Result<(), AllocError>
    ensures { IfOk result (λ u. draft.new ≡ with_all draft.old
        (Wire 1 (name_lem (ReadInside k p)) (Binary index.now Less (Literal 64 (array_cells_lem (form shape.now) array))) ∷ Wire 1 (name_lem (ReadOn k p))
        (Binary (net_lem (At k)) And (net_lem (ReadInside k p))) ∷ [])) }
{
    let cells = literal(64, u128::from(shape.array_cells(array)));
    let inside = binary(copy(alloc, index)?, BinaryOp::Less, cells);
    add_wire(alloc, draft, 1, Net::ReadInside(k, p), inside)?;
    let at = net(alloc, Net::At(k))?;
    let on = binary(at, BinaryOp::And, net(alloc, Net::ReadInside(k, p))?);
    add_wire(alloc, draft, 1, Net::ReadOn(k, p), on)
}

// Adds the wires of a read, and returns what it asks for.
fn add_read(
    alloc: Global,
    draft: &mut Draft,
    shape: &Shape,
    p: u32,
    k: u32,
    read: &ArrayRead,
) -> Result<Asked, AllocError>
    ensures draft { IfOk result (λ x. draft.new ≡ with_all draft.old (asked_of (form shape.now) p k (Some (read_form read.now)))) }
    ensures array { IfOk result (λ x. x.array ≡ read.now.array) }
    ensures index { IfOk result (λ x. x.index ≡ (read_index p k (read_form read.now)).atom) }
{
    let front = read_front(alloc, k, p)?;
    let at = Numbered::from_zero(&front);
    let wires = compile(alloc, draft, &at, read.first, Kind::U64, read.index)?;
    add_inside(alloc, draft, shape, p, k, read.array, &wires.atom)?;
    Ok(Asked {
        array: read.array,
        index: wires.atom,
    })
}

// The read of a state that has a number, if there is one.
fn add_asked(
    alloc: Global,
    draft: &mut Draft,
    shape: &Shape,
    p: u32,
    k: u32,
) -> Result<Option<Asked>, AllocError>
    requires { k < state_count (form shape.now) }
    ensures draft { IfOk result (λ o. draft.new ≡ with_all draft.old (asked (form shape.now) p k)) }
    ensures asked { IfOk result (λ o. asked_form o ≡ asked_at (form shape.now) p k) }
{
    let reads = reads_at(alloc, shape.state(k))?;
    match reads.get(p as usize) {
        None => Ok(None),
        Some(read) => {
            let found = add_read(alloc, draft, shape, p, k, read)?;
            Ok(Some(found))
        }
    }
}

// The reads with one number, in all states.
fn add_all_asked(
    alloc: Global,
    draft: &mut Draft,
    shape: &Shape,
    p: u32,
) -> Result<Vec<Option<Asked>>, AllocError>
    ensures draft { IfOk result (λ v. draft.new ≡ with_all draft.old (each (asked (form shape.now) p) (state_count (form shape.now)))) }
    ensures asked { IfOk result (λ v. AreAsked (form shape.now) p v.items (state_count (form shape.now))) }
{
    let mut all = Vec::new(alloc);
    let count = shape.state_count()?;
    for k in 0..count {
        all.push(add_asked(alloc, draft, shape, p, k)?)?;
    }
    Ok(all)
}

// The entry of what is asked for under the condition of a net, if it is of array a.
fn spot_in(
    alloc: Global,
    shape: &Shape,
    condition: Net,
    a: u32,
    asked: &Asked,
) -> Result<Option<Entry>, AllocError>
    ensures { IfOk result (λ o. entries_in o ≡ at asked.now.array a (entry condition (low_bits_lem (index_bits_lem (form shape.now) a) asked.now.index))) }
{
    if asked.array == a {
        let value = low_bits(alloc, shape.index_bits(a), &asked.index)?;
        entry_of(alloc, condition, value)
    } else {
        Ok(None)
    }
}

// What is asked for gives this to a choice: a place in state k, and a cell that is read where the place is one of the array's.
fn spot_of(
    alloc: Global,
    shape: &Shape,
    choice: Choice,
    k: u32,
    asked: &Asked,
) -> Result<Option<Entry>, AllocError>
    ensures { IfOk result (λ o. entries_in o ≡ spot_given (form shape.now) choice k (asked.now.array, asked.now.index)) }
{
    match choice {
        Choice::Reads(p, a) => spot_in(alloc, shape, Net::ReadOn(k, p), a, asked),
        Choice::ArrayIndex(_, a) => spot_in(alloc, shape, Net::At(k), a, asked),
        _ => Ok(None),
    }
}

fn spot_at(
    alloc: Global,
    shape: &Shape,
    choice: Choice,
    k: u32,
    asked: &[Option<Asked>],
) -> Result<Option<Entry>, AllocError>
    requires of_reads { IsOfReads choice }
    requires below { k < state_count (form shape.now) }
    requires asked { AreAsked (form shape.now) (read_number choice) asked.now (state_count (form shape.now)) }
    ensures { IfOk result (λ o. entries_in o ≡ effect (form shape.now) choice k) }
{
    match &asked[k as usize] {
        None => Ok(None),
        Some(asked) => spot_of(alloc, shape, choice, k, asked),
    }
}

// What the reads with one number give a choice, in all states.
fn spots(
    alloc: Global,
    shape: &Shape,
    choice: Choice,
    asked: &[Option<Asked>],
) -> Result<Vec<Entry>, AllocError>
    requires of_reads { IsOfReads choice }
    requires asked { AreAsked (form shape.now) (read_number choice) asked.now (state_count (form shape.now)) }
    ensures { IfOk result (λ v. entry_forms v.items ≡ entries_lem (form shape.now) choice) }
{
    let mut found = Vec::new(alloc);
    let count = shape.state_count()?;
    for k in 0..count {
        let entry = spot_at(alloc, shape, choice, k, asked)?;
        add_found(&mut found, entry)?;
    }
    Ok(found)
}

// The cell that is read, where the index is one of the array's.
fn add_cell(
    alloc: Global,
    draft: &mut Draft,
    shape: &Shape,
    p: u32,
    a: u32,
    found: &[Entry],
    spots: &[Entry],
) -> Result<(), AllocError>
    ensures { IfOk result (λ u. draft.new ≡ with_all draft.old
        (Wire (bits_of (array_kind_lem (form shape.now) a)) (name_lem (Raw p a))
        (CellValue (name_lem (Array a)) (choice_lem (front_lem (ArrayIndex p a)) (entry_forms spots.now))) ∷ Wire (bits_of (array_kind_lem (form shape.now) a))
        (name_lem (Answer p a)) (Choose (NetAtom (choice_lem (front_lem (Reads p a)) (entry_forms found.now))) (net_lem (Raw p a))
        (Literal (bits_of (array_kind_lem (form shape.now) a)) 0)) ∷ [])) }
{
    let width = shape.array_kind(a).bits();
    let cell = Value::Cell {
        memory: name(alloc, Net::Array(a))?,
        index: root(alloc, Choice::ArrayIndex(p, a), spots)?,
    };
    add_wire(alloc, draft, width, Net::Raw(p, a), cell)?;
    let on = Atom::Net(root(alloc, Choice::Reads(p, a), found)?);
    let answer = choose(on, net(alloc, Net::Raw(p, a))?, literal(width, 0));
    add_wire(alloc, draft, width, Net::Answer(p, a), answer)
}

fn add_answer(
    alloc: Global,
    draft: &mut Draft,
    shape: &Shape,
    p: u32,
    a: u32,
    found: &[Entry],
    spots: &[Entry],
) -> Result<(), AllocError>
    requires found { entry_forms found.now ≡ entries_lem (form shape.now) (Reads p a) }
    requires spots { entry_forms spots.now ≡ entries_lem (form shape.now) (ArrayIndex p a) }
    ensures { IfOk result (λ u. draft.new ≡ with_all draft.old (answered (form shape.now) p a)) }
{
    let width = shape.index_bits(a);
    add_any(alloc, draft, Choice::Reads(p, a), found)?;
    add_pick(alloc, draft, width, Choice::ArrayIndex(p, a), spots)?;
    add_cell(alloc, draft, shape, p, a, found, spots)?;
    Ok(())
}

fn add_port(
    alloc: Global,
    draft: &mut Draft,
    shape: &Shape,
    p: u32,
    a: u32,
    asked: &[Option<Asked>],
) -> Result<(), AllocError>
    requires { AreAsked (form shape.now) p asked.now (state_count (form shape.now)) }
    ensures { IfOk result (λ u. draft.new ≡ with_all draft.old (port_of (form shape.now) p a)) }
{
    let found = spots(alloc, shape, Choice::Reads(p, a), asked)?;
    let count = found.len();
    if count == 0 {
        return Ok(());
    }
    let places = spots(alloc, shape, Choice::ArrayIndex(p, a), asked)?;
    add_answer(alloc, draft, shape, p, a, &found, &places)?;
    Ok(())
}

#[tactic(auto, using(hw_nets::proofs::Grows::each_step))]
fn add_ports(
    alloc: Global,
    draft: &mut Draft,
    shape: &Shape,
    p: u32,
    asked: &[Option<Asked>],
) -> Result<(), AllocError>
    requires { AreAsked (form shape.now) p asked.now (state_count (form shape.now)) }
    ensures { IfOk result (λ u. draft.new ≡ with_all draft.old (each (port_of (form shape.now) p) (length (form shape.now).arrays))) }
{
    let count = shape.arrays()?;
    for a in 0..count {
        add_port(alloc, draft, shape, p, a, asked)?;
    }
    Ok(())
}

#[tactic(auto, using(hw_nets::proofs::Grows::all_append))]
fn add_reads(alloc: Global, draft: &mut Draft, shape: &Shape, p: u32) -> Result<(), AllocError>
    ensures { IfOk result (λ u. draft.new ≡ with_all draft.old (reads_of (form shape.now) p)) }
{
    let asked = add_all_asked(alloc, draft, shape, p)?;
    add_ports(alloc, draft, shape, p, &asked)?;
    Ok(())
}

fn larger(a: u32, b: u32) -> u32
    ensures { result ≡ max a b }
{
    if a < b { b } else { a }
}

// The most reads of a state.
fn most_reads(shape: &Shape) -> Result<u32, AllocError>
    ensures { IfOk result (λ n. n ≡ read_numbers (form shape.now)) }
{
    let mut most = 0;
    let count = shape.state_count()?;
    for k in 0..count {
        let reads = reads_count(shape.state(k))?;
        most = larger(most, reads);
    }
    Ok(most)
}

/// Adds the wires of all reads, lower numbers first: an index reads answers of lower numbers alone.
#[tactic(auto, using(hw_nets::proofs::Grows::each_step))]
pub(crate) fn add_all_reads(
    alloc: Global,
    draft: &mut Draft,
    shape: &Shape,
) -> Result<(), AllocError>
    ensures { IfOk result (λ u. draft.new ≡ with_all draft.old (each (reads_of (form shape.now)) (read_numbers (form shape.now)))) }
{
    let most = most_reads(shape)?;
    for p in 0..most {
        add_reads(alloc, draft, shape, p)?;
    }
    Ok(())
}
