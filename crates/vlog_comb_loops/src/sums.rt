// Of each module which of its outputs depend on which of its inputs.

ghost use Rattle.std.specs.Prelude.{◌≡◌, ◌<◌, ◌≤◌, ◌↔◌, ◌⊎◌, ◌++◌, [], ℕ, true, false, length, slice_get, get_or, Some, None, IfOk, OnOk};
ghost use Rattle.std.specs.List.{flat_map};
ghost use Rattle.std.specs.Option.{option_copied};
ghost use Rattle.vlog_tree.specs.declared.table.NetKind.TheVariants.{Input, Output};
ghost use Rattle.vlog_tree.specs.Form.{ModuleTree};
ghost use Rattle.vlog_tree.specs.Table.{net_kind_of};
ghost use Rattle.vlog_tree.specs.Loops.{Edges};
ghost use Rattle.vlog_scope.specs.NameTable.{value_in};
ghost use Rattle.vlog_net_graph.specs.Names.{IsGraphOf, IsGraphListed};
ghost use Rattle.vlog_comb_loops.specs.Growth.{Gathers};
ghost use Rattle.vlog_comb_loops.specs.Merges.{IsMerged, IsGrown};
ghost use Rattle.vlog_comb_loops.specs.Questions.{asked_of, AreUses};
ghost use Rattle.vlog_comb_loops.specs.Places.{ArePlaces, PlacesInput, picked};
ghost use Rattle.vlog_comb_loops.specs.Rooms.{room};
ghost use Rattle.vlog_comb_loops.specs.Summaries.{is_named, module_edges, IsPair, IsSumOf, IsSoundSum, IsClosedSum, AreSums};

use crate::pairs::merge;
use crate::questions::Questions;
use crate::through::graph_of;
use number_graph::Searches;
use std::alloc::{AllocError, Global};
use std::marker::Model;
use tapa_base::Text;
use vlog_net_graph::NamedGraph;
use vlog_scope::{Library, Scope, copy_text};
use vlog_tree::{Module, NetKind};

/// Pairs of an output and an input on which it rests.
#[derive(Drop)]
pub struct Sum {
    pairs: Vec<(Text, Text)>,
}

impl Model for Sum {
    ghost use Rattle.vlog_tree.specs.Loops.{Edges};

    ghost Value = { Edges };

    ghost view = { λ s. s.pairs.items };
}

impl Sum {
    fn empty(alloc: Global) -> Sum
        ensures { result ≡ [] }
    {
        Sum {
            pairs: Vec::new(alloc),
        }
    }

    fn pairs(&self) -> &[(Text, Text)]
        ensures { result.now ≡ self.now }
    {
        &self.pairs
    }
}

/// The pairs at an index, and none past the end.
pub(crate) fn pairs_at(sums: &[Sum], place: usize) -> &[(Text, Text)]
    ensures { result.now ≡ get_or sums.now place [] }
{
    match sums.get(place) {
        Some(sum) => sum.pairs(),
        None => &[],
    }
}

fn is_output(ports: &Scope, name: &Text) -> bool
    ensures { (result ≡ true) ↔ (net_kind_of ports.now name.now ≡ Output) }
{
    matches!(ports.net_kind(name.bytes()), NetKind::Output)
}

fn is_input(ports: &Scope, name: &Text) -> bool
    ensures { (result ≡ true) ↔ (net_kind_of ports.now name.now ≡ Input) }
{
    matches!(ports.net_kind(name.bytes()), NetKind::Input)
}

fn no_places(alloc: Global, count: usize) -> Result<Vec<Option<usize>>, AllocError>
    ensures len { IfOk result (λ places. length places.items ≡ count) }
    ensures none { IfOk result (λ places. (k : ℕ) → get_or places.items k None ≡ None) }
{
    let mut places = Vec::new(alloc);
    for _ in 0..count {
        places.push(None)?;
    }
    Ok(places)
}

// Notes the index of an input at the node that denotes it.
fn set_place(
    places: &mut Vec<Option<usize>>,
    graph: &NamedGraph,
    ports: &Scope,
    name: &Text,
    at: usize,
)
    ensures { PlacesInput ports.now (value_in graph.now.numbers) at name.now places.old.items places.new.items }
{
    if is_input(ports, name) {
        if let Some(number) = graph.number(name.bytes()) {
            if number < places.len() {
                places[number] = Some(at);
            }
        }
    }
}

// For each node, the index of the input that it denotes.
fn input_places(
    alloc: Global,
    graph: &NamedGraph,
    ports: &Scope,
) -> Result<Vec<Option<usize>>, AllocError>
    requires { (edges : Edges) × IsGraphOf edges graph.now }
    ensures { IfOk result (λ places. ArePlaces ports.now (value_in graph.now.numbers) places.items) }
{
    let declarations = ports.declarations();
    let mut places = no_places(alloc, graph.count())?;
    for at in 0..declarations.len() {
        let d = &declarations[at];
        set_place(&mut places, graph, ports, &d.name, at);
    }
    Ok(places)
}

fn place_at(places: &[Option<usize>], node: usize) -> Option<usize>
    ensures { result ≡ get_or places.now node None }
{
    match places.get(node) {
        Some(place) => *place,
        None => None,
    }
}

// Puts a pair where there is an input at the index.
fn add_input(
    alloc: Global,
    pairs: &mut Vec<(Text, Text)>,
    ports: &Scope,
    place: Option<usize>,
    x: &Text,
) -> Result<(), AllocError>
    ensures { OnOk result (pairs.new.items ≡ pairs.old.items ++ picked x.now ports.now place) }
{
    match place {
        Some(at) => match ports.declarations().get(at) {
            Some(d) => {
                let from = copy_text(alloc, x)?;
                let to = copy_text(alloc, &d.name)?;
                pairs.push((from, to))?;
                Ok(())
            }
            None => Ok(()),
        },
        None => Ok(()),
    }
}

fn add_inputs(
    alloc: Global,
    pairs: &mut Vec<(Text, Text)>,
    ports: &Scope,
    places: &[Option<usize>],
    x: &Text,
    found: &[usize],
) -> Result<(), AllocError>
    ensures { OnOk result (pairs.new.items ≡ pairs.old.items ++ flat_map (λ k. picked x.now ports.now (get_or places.now k None)) found.now) }
{
    for node in found {
        add_input(alloc, pairs, ports, place_at(places, *node), x)?;
    }
    Ok(())
}

// Puts the pairs of an output.
fn add_reached(
    alloc: Global,
    pairs: &mut Vec<(Text, Text)>,
    searches: &mut Searches,
    graph: &NamedGraph,
    ports: &Scope,
    places: &[Option<usize>],
    x: &Text,
) -> Result<(), AllocError>
    requires output { net_kind_of ports.now x.now ≡ Output }
    requires room { length graph.now.graph ≤ searches.old }
    requires places { ArePlaces ports.now (value_in graph.now.numbers) places.now }
    ensures room { searches.new ≡ searches.old }
    ensures gathers { OnOk result ((edges : Edges) → IsGraphOf edges graph.now
        → Gathers (IsPair edges ports.now) (λ a b. a ≡ x.now) pairs.old.items pairs.new.items) }
{
    match graph.number(x.bytes()) {
        Some(number) => {
            let found = searches.reached(alloc, graph.graph.graph(), number)?;
            add_inputs(alloc, pairs, ports, places, x, &found)?;
            Ok(())
        }
        None => Ok(()),
    }
}

// Puts the pairs of a name, where it is an output.
fn add_output(
    alloc: Global,
    pairs: &mut Vec<(Text, Text)>,
    searches: &mut Searches,
    graph: &NamedGraph,
    ports: &Scope,
    places: &[Option<usize>],
    x: &Text,
) -> Result<(), AllocError>
    requires room { length graph.now.graph ≤ searches.old }
    requires places { ArePlaces ports.now (value_in graph.now.numbers) places.now }
    ensures room { searches.new ≡ searches.old }
    ensures gathers { OnOk result ((edges : Edges) → IsGraphOf edges graph.now
        → Gathers (IsPair edges ports.now) (λ a b. a ≡ x.now) pairs.old.items pairs.new.items) }
{
    if is_output(ports, x) {
        return add_reached(alloc, pairs, searches, graph, ports, places, x);
    }
    Ok(())
}

// The sum of a module by its graph: one search for each output, which costs what it finds.
fn sum_by(alloc: Global, graph: &NamedGraph, ports: &Scope) -> Result<Sum, AllocError>
    requires { (edges : Edges) × IsGraphOf edges graph.now }
    ensures { (edges : Edges) → IsGraphOf edges graph.now → IfOk result (λ s. IsSumOf edges ports.now s) }
{
    let places = input_places(alloc, graph, ports)?;
    let mut searches = Searches::new(alloc, graph.count())?;
    let mut pairs = Vec::new(alloc);
    for d in ports.declarations() {
        add_output(
            alloc,
            &mut pairs,
            &mut searches,
            graph,
            ports,
            &places,
            &d.name,
        )?;
    }
    Ok(Sum { pairs })
}

// Takes pairs over where there are none yet.
fn take_over(sum: &mut Sum, other: Sum) -> Result<bool, AllocError>
    requires { sum.old ≡ [] }
    ensures { IfOk result (λ added. IsMerged sum.old other sum.new added) }
{
    let added = other.pairs.len() > 0;
    sum.pairs = other.pairs;
    Ok(added)
}

fn merge_sum(sum: &mut Sum, other: Sum) -> Result<bool, AllocError>
    ensures { IfOk result (λ added. IsMerged sum.old other sum.new added) }
{
    if sum.pairs.len() == 0 {
        return take_over(sum, other);
    }
    merge(&mut sum.pairs, other.pairs)
}

fn is_used(uses: &Questions, m: &Module) -> bool
    ensures { result ≡ false → asked_of uses.now m.now.name ≡ [] }
{
    uses.of_name(m.name().bytes()).len() > 0
}

// Puts the pairs that a module's graph gives to its sum, where other modules contain it, and says whether there is one more.
fn grow(
    alloc: Global,
    uses: &Questions,
    ports: &Scope,
    sum: &mut Sum,
    m: &Module,
    graph: &NamedGraph,
) -> Result<bool, AllocError>
    requires { (edges : Edges) × IsGraphOf edges graph.now }
    ensures { (edges : Edges) → IsGraphOf edges graph.now
        → IfOk result (λ added. IsGrown edges ports.now (asked_of uses.now m.now.name) sum.old sum.new added) }
{
    if !is_used(uses, m) {
        return Ok(false);
    }
    let other = sum_by(alloc, graph, ports)?;
    let added = merge_sum(sum, other)?;
    Ok(added)
}

/// The graph of a module, and whether its sum stayed as it was.
#[derive(Drop)]
pub struct Renewed {
    pub steady: bool,
    pub graph: NamedGraph,
}

/// Makes the graph of a module, and its sum once more, and says whether that stays as it is. Where it does not, it has one
/// more pair. A module that no other contains has no need of a sum.
pub(crate) fn renew(
    alloc: Global,
    library: &Library,
    root: Option<&Text>,
    uses: &Questions,
    sums: &mut Vec<Sum>,
    at: usize,
) -> Result<Renewed, AllocError>
    requires module { at < length library.now }
    requires sum { at < length sums.old.items }
    requires uses { AreUses library.now uses.now }
    ensures len { length sums.new.items ≡ length sums.old.items }
    ensures sound { OnOk result (AreSums (IsSoundSum library.now (is_named (option_copied root.entry))) library.now sums.old.items
        → AreSums (IsSoundSum library.now (is_named (option_copied root.entry))) library.now sums.new.items) }
    ensures same { IfOk result (λ r. r.steady ≡ true → sums.new.items ≡ sums.old.items) }
    ensures less { IfOk result (λ r. r.steady ≡ false → room library.now sums.new.items < room library.now sums.old.items) }
    ensures more { OnOk result (room library.now sums.new.items ≤ room library.now sums.old.items) }
    ensures closed { IfOk result (λ r. r.steady ≡ true → (m : ModuleTree) → slice_get library.now at ≡ Some m
        → IsClosedSum library.now (is_named (option_copied root.entry)) sums.old.items m (get_or sums.old.items at [])) }
    ensures graph { IfOk result (λ r. (m : ModuleTree) → slice_get library.now at ≡ Some m
        → IsGraphOf (module_edges library.now (is_named (option_copied root.entry)) sums.old.items m) r.graph) }
    ensures listed { IfOk result (λ r. IsGraphListed r.graph) }
{
    let m = &library.modules()[at];
    let graph = graph_of(alloc, library, root, sums, m)?;
    let ports = Scope::of_ports(alloc, m.ports())?;
    let added = grow(alloc, uses, &ports, &mut sums[at], m, &graph)?;
    Ok(Renewed {
        steady: !added,
        graph,
    })
}

// Appends the indices of the modules of lines, where they are not marked.
fn note_places(
    lines: &[(usize, Option<usize>)],
    marks: &mut Vec<bool>,
    next: &mut Vec<usize>,
) -> Result<(), AllocError> {
    for line in lines {
        if let Some(marked) = marks.get_mut(line.0) {
            if !*marked {
                *marked = true;
                next.push(line.0)?;
            }
        }
    }
    Ok(())
}

// Takes a mark away, and says whether it was there.
fn unmark(marks: &mut Vec<bool>, place: usize) -> bool {
    match marks.get_mut(place) {
        Some(marked) => {
            let was = *marked;
            *marked = false;
            was
        }
        None => false,
    }
}

// Makes the sum of a module once more, where it is marked. Where it changes, the modules that contain it are noted.
fn renew_noted(
    alloc: Global,
    library: &Library,
    root: Option<&Text>,
    uses: &Questions,
    sums: &mut Vec<Sum>,
    place: usize,
    marks: &mut Vec<bool>,
    next: &mut Vec<usize>,
) -> Result<(), AllocError>
    requires uses { AreUses library.now uses.now }
    requires sound { AreSums (IsSoundSum library.now (is_named (option_copied root))) library.now sums.old.items }
    ensures sound { OnOk result (AreSums (IsSoundSum library.now (is_named (option_copied root.entry))) library.now sums.new.items) }
    ensures less { OnOk result ((next.new.items ≡ next.old.items) ⊎ (room library.now sums.new.items < room library.now sums.old.items)) }
    ensures more { OnOk result (room library.now sums.new.items ≤ room library.now sums.old.items) }
{
    if !unmark(marks, place) {
        return Ok(());
    }
    if place >= library.modules().len() {
        return Ok(());
    }
    let made = renew(alloc, library, root, uses, sums, place)?;
    if made.steady {
        return Ok(());
    }
    let name = library.modules()[place].name();
    note_places(uses.of_name(name.bytes()), marks, next)?;
    Ok(())
}

// Makes the sums of the marked modules of a list once more, and says which may change then.
fn renew_listed(
    alloc: Global,
    library: &Library,
    root: Option<&Text>,
    uses: &Questions,
    sums: &mut Vec<Sum>,
    marks: &mut Vec<bool>,
    list: &[usize],
) -> Result<Vec<usize>, AllocError>
    requires uses { AreUses library.now uses.now }
    requires sound { AreSums (IsSoundSum library.now (is_named (option_copied root))) library.now sums.old.items }
    ensures sound { OnOk result (AreSums (IsSoundSum library.now (is_named (option_copied root.entry))) library.now sums.new.items) }
    ensures less { IfOk result (λ next. 1 ≤ length next.items → room library.now sums.new.items < room library.now sums.old.items) }
    ensures more { OnOk result (room library.now sums.new.items ≤ room library.now sums.old.items) }
{
    let mut next = Vec::new(alloc);
    for place in list {
        renew_noted(alloc, library, root, uses, sums, *place, marks, &mut next)?;
    }
    Ok(next)
}

fn empty_sums(alloc: Global, count: usize) -> Result<Vec<Sum>, AllocError>
    ensures len { IfOk result (λ v. length v.items ≡ count) }
    ensures empty { IfOk result (λ v. (at : ℕ) → get_or v.items at [] ≡ []) }
{
    let mut sums = Vec::new(alloc);
    for _ in 0..count {
        sums.push(Sum::empty(alloc))?;
    }
    Ok(sums)
}

// The indices in an order that are those of modules which others contain.
fn used_places(
    alloc: Global,
    modules: &[Module],
    uses: &Questions,
    order: &[(usize, usize)],
) -> Result<Vec<usize>, AllocError> {
    let mut places = Vec::new(alloc);
    for entry in order {
        if let Some(m) = modules.get(entry.1) {
            if is_used(uses, m) {
                places.push(entry.1)?;
            }
        }
    }
    Ok(places)
}

/// Sums of all modules, each pair of which is right. The sums are made in an order that is given, and then once more where
/// the sum of a module that is contained has changed, until none does. Each round but the last puts at least one pair of
/// ports to a sum, so there are no more rounds than such pairs.
pub(crate) fn sums_of(
    alloc: Global,
    library: &Library,
    root: Option<&Text>,
    uses: &Questions,
    order: &[(usize, usize)],
) -> Result<Vec<Sum>, AllocError>
    requires { AreUses library.now uses.now }
    ensures { IfOk result (λ sums. AreSums (IsSoundSum library.now (is_named (option_copied root.entry))) library.now sums.items) }
{
    let mut sums = empty_sums(alloc, library.modules().len())?;
    let mut marks = vec![in alloc; true; library.modules().len()]?;
    let mut list = used_places(alloc, library.modules(), uses, order)?;
    let mut steady = false;
    while !steady {
        list = renew_listed(alloc, library, root, uses, &mut sums, &mut marks, &list)?;
        steady = list.len() == 0;
    }
    Ok(sums)
}
