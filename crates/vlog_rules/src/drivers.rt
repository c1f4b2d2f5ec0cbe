// The first name that is driven too little or too often.

ghost use Rattle.std.specs.Prelude.{◌≡◌, ◌<◌, ◌∷◌, ◌++◌, ◌+◌, ◌==◌, ◌&&◌, ◌||◌, if◌then◌else◌};
ghost use Rattle.std.specs.Prelude.{length, get_or, slice_set, [], ℕ, List, Bool, map, min, bytes_eq, count_by, false, IfOk, OnOk};
ghost use Rattle.std.specs.Option.{option_copied, option_map_or};
ghost use Rattle.std.specs.List.{flat_map, list_any};
ghost use Rattle.vlog_scope.specs.NameTable.{count_in, CountsTo};
ghost use Rattle.vlog_scope.specs.Chains.{name_at};
ghost use Rattle.vlog_rules.specs.Drives.{CountsPlaces};
ghost use Rattle.vlog_tree.specs.Table.{first_violation, port_declared, declared, ports_of, one_if, times_in};
ghost use Rattle.vlog_tree.specs.V4.{connection_driven, line_driven, drives, step_assigns, is_block_of, breaks_driving as breaks_driving_lem, module_drives, v4_uses};

use crate::names::{is_input, named_if};
use std::alloc::{AllocError, Global};
use tapa_base::Text;
use vlog_scope::{Library, NameCounts, Scope, count_of, count_one};
use vlog_tree::{Connection, Declaration, Item, Module, NetKind, Step};

// Adds one to the count at an index, cut at 2, where there is such an index.
#[tactic(auto, using(std::proofs::lemmas::List::set_past))]
fn count_place(counts: &mut Vec<u8>, place: usize)
    ensures { counts.new.items ≡ slice_set counts.old.items place (min (get_or counts.old.items place 0 + 1) 2) }
{
    if place < counts.len() {
        counts[place] = counts[place].saturating_add(1).min(2);
    }
}

// Counts a name once more, where it is declared.
fn count_net(scope: &Scope, counts: &mut Vec<u8>, name: &Text)
    ensures { (names : List (List ℕ)) → CountsPlaces scope.now counts.old.items (times_in names) → CountsPlaces scope.now counts.new.items (times_in (names ++ name.now ∷ [])) }
{
    match scope.first_place(name.bytes()) {
        Some(place) => count_place(counts, place),
        None => {}
    }
}

#[tactic(auto, using(crate::proofs::Counts::no_name_more), unfolding(vlog_tree::specs::V4::connection_driven))]
fn count_connection(scope: &Scope, counts: &mut Vec<u8>, ports: &Scope, connection: &Connection)
    ensures { (names : List (List ℕ)) → CountsPlaces scope.now counts.old.items (times_in names)
        → CountsPlaces scope.now counts.new.items (times_in (names ++ connection_driven ports.now connection.now)) }
{
    if is_input(ports.find(&connection.port).0) {
        return;
    }
    count_net(scope, counts, &connection.net);
}

fn count_connections(scope: &Scope, counts: &mut Vec<u8>, ports: &Scope, connections: &[Connection])
    ensures { (names : List (List ℕ)) → CountsPlaces scope.now counts.old.items (times_in names)
        → CountsPlaces scope.now counts.new.items (times_in (names ++ flat_map (connection_driven ports.now) connections.now)) }
{
    for l in connections {
        count_connection(scope, counts, ports, l);
    }
}

#[tactic(auto, using(crate::proofs::Counts::no_name_more))]
fn count_line(scope: &Scope, counts: &mut Vec<u8>, library: &Library, item: &Item)
    ensures { (names : List (List ℕ)) → CountsPlaces scope.now counts.old.items (times_in names)
        → CountsPlaces scope.now counts.new.items (times_in (names ++ line_driven library.now item.now)) }
{
    match item {
        Item::Assign { net: x, .. } => count_net(scope, counts, x),
        Item::Instance {
            module: m,
            connections,
            ..
        } => {
            count_connections(
                scope,
                counts,
                library.ports_named(m),
                connections.connections(),
            )
        }
        Item::Wire { .. } => {}
        Item::Reg { .. } => {}
        Item::Memory { .. } => {}
        Item::Always(_) => {}
    }
}

// How often each declared name is driven.
fn drive_counts(
    alloc: Global,
    library: &Library,
    scope: &Scope,
    items: &[Item],
) -> Result<Vec<u8>, AllocError>
    ensures { IfOk result (λ counts. CountsPlaces scope.now counts.items (drives library.now items.now)) }
{
    let mut counts = vec![in alloc; 0u8; scope.declarations().len()]?;
    for i in items {
        count_line(scope, &mut counts, library, i);
    }
    Ok(counts)
}

// How often a name was counted that is declared.
fn drives_of(scope: &Scope, counts: &[u8], name: &Text) -> usize
    requires { (i : ℕ) × (i < length scope.now) × (name_at scope.now i ≡ name.now) }
    ensures { (f : List ℕ → ℕ) → CountsPlaces scope.now counts.now f → result ≡ min (f name.now) 2 }
{
    match scope.first_place(name.bytes()) {
        Some(place) => match counts.get(place) {
            Some(count) => usize::from(*count),
            None => 0,
        },
        None => 0,
    }
}

// The register or memory that a step assigns.
fn target(step: &Step) -> Option<&Text>
    ensures { (x : List ℕ) → step_assigns x step.now ≡ option_map_or (λ y. bytes_eq y x) (option_copied result) false }
{
    match step {
        Step::NonblockingAssign { register: x, .. } => Some(x),
        Step::MemoryAssign { memory: m, .. } => Some(m),
        Step::If(_) => None,
        Step::Else => None,
        Step::End => None,
    }
}

// Counts a name of a block, where it is the block's first.
fn count_target(
    alloc: Global,
    own: &mut NameCounts,
    blocks: &mut NameCounts,
    name: &Text,
) -> Result<(), AllocError>
    ensures own { OnOk result ((x : List ℕ) → count_in own.new x ≡ (if bytes_eq name.now x && (count_in own.old name.now == 0) then min (count_in own.old x + 1) 2 else count_in own.old x)) }
    ensures blocks { OnOk result ((x : List ℕ) → count_in blocks.new x ≡
        (if bytes_eq name.now x && (count_in own.old name.now == 0) then min (count_in blocks.old x + 1) 2 else count_in blocks.old x)) }
{
    if count_of(own, name.bytes()) == 0 {
        count_one(alloc, own, name.bytes())?;
        count_one(alloc, blocks, name.bytes())?;
    }
    Ok(())
}

fn count_step(
    alloc: Global,
    own: &mut NameCounts,
    blocks: &mut NameCounts,
    step: &Step,
) -> Result<(), AllocError>
    ensures own { OnOk result ((x : List ℕ) (before : Bool) → count_in own.old x ≡ one_if before → count_in own.new x ≡ one_if (before || step_assigns x step.now)) }
    ensures blocks { OnOk result ((x : List ℕ) (before : Bool) (n : ℕ) → count_in own.old x ≡ one_if before → count_in blocks.old x ≡ min (n + one_if before) 2
        → count_in blocks.new x ≡ min (n + one_if (before || step_assigns x step.now)) 2) }
{
    match target(step) {
        Some(name) => count_target(alloc, own, blocks, name),
        None => Ok(()),
    }
}

// Counts each name that a block assigns once.
fn count_block(alloc: Global, blocks: &mut NameCounts, steps: &[Step]) -> Result<(), AllocError>
    ensures { OnOk result ((f : List ℕ → ℕ) → CountsTo blocks.old f → CountsTo blocks.new (λ x. f x + one_if (list_any (step_assigns x) steps.now))) }
{
    let mut own = NameCounts::new(alloc);
    for s in steps {
        count_step(alloc, &mut own, blocks, s)?;
    }
    Ok(())
}

fn count_blocks_of(alloc: Global, blocks: &mut NameCounts, item: &Item) -> Result<(), AllocError>
    ensures { OnOk result ((f : List ℕ → ℕ) → CountsTo blocks.old f → CountsTo blocks.new (λ x. f x + one_if (is_block_of x item.now))) }
{
    match item {
        Item::Always(b) => count_block(alloc, blocks, b.steps()),
        Item::Wire { .. } => Ok(()),
        Item::Reg { .. } => Ok(()),
        Item::Memory { .. } => Ok(()),
        Item::Assign { .. } => Ok(()),
        Item::Instance { .. } => Ok(()),
    }
}

// In how many blocks each register and memory is assigned.
fn block_counts(alloc: Global, items: &[Item]) -> Result<NameCounts, AllocError>
    ensures { IfOk result (λ counts. CountsTo counts (λ x. count_by (is_block_of x) items.now)) }
{
    let mut counts = NameCounts::new(alloc);
    for i in items {
        count_blocks_of(alloc, &mut counts, i)?;
    }
    Ok(counts)
}

#[tactic(auto, using(crate::proofs::Counts::none, crate::proofs::Counts::once, crate::proofs::Counts::twice))]
fn breaks_driving(drives: usize, blocks: usize, net_kind: NetKind) -> bool
    ensures { (n k : ℕ) → drives ≡ min n 2 → blocks ≡ min k 2 → result ≡ breaks_driving_lem n k net_kind }
{
    match net_kind {
        NetKind::Input => drives != 0,
        NetKind::Output => drives != 1,
        NetKind::WireNet => drives != 1,
        NetKind::Register => blocks >= 2,
        NetKind::MemoryArray => blocks >= 2,
        NetKind::ChildInstance => false,
        NetKind::Unknown => false,
    }
}

fn declaration<'a>(
    scope: &Scope,
    d: &'a Declaration,
    drives: &[u8],
    blocks: &NameCounts,
) -> Option<&'a Text>
    requires { (i : ℕ) × (i < length scope.now) × (name_at scope.now i ≡ d.now.name) }
    ensures { (f g : List ℕ → ℕ) → CountsPlaces scope.now drives.now f → CountsTo blocks.now g
        → option_copied result ≡ first_violation ((d.now.name, breaks_driving_lem (f d.now.name) (g d.now.name) d.now.net_kind) ∷ []) }
{
    let driven = drives_of(scope, drives, &d.name);
    let assigned = count_of(blocks, d.name.bytes());
    named_if(&d.name, breaks_driving(driven, assigned, d.net_kind))
}

fn declarations<'a>(scope: &'a Scope, drives: &[u8], blocks: &NameCounts) -> Option<&'a Text>
    ensures { (f g : List ℕ → ℕ) → CountsPlaces scope.now drives.now f → CountsTo blocks.now g
        → option_copied result ≡ first_violation (map (λ d. (d.name, breaks_driving_lem (f d.name) (g d.name) d.net_kind)) scope.now) }
{
    for d in scope.declarations() {
        if let Some(x) = declaration(scope, d, drives, blocks) {
            return Some(x);
        }
    }
    None
}

#[tactic(auto, unfolding(vlog_tree::specs::V4::module_drives, vlog_tree::specs::V4::driving_use))]
fn module_names<'a>(
    alloc: Global,
    library: &Library,
    scope: &'a Scope,
    m: &Module,
) -> Result<Option<&'a Text>, AllocError>
    requires { scope.now ≡ declared m.now }
    ensures { IfOk result (λ o. option_copied o ≡ first_violation (module_drives library.now m.now)) }
{
    let drives = drive_counts(alloc, library, scope, m.items())?;
    let blocks = block_counts(alloc, m.items())?;
    Ok(declarations(scope, &drives, &blocks))
}

/// The first name in the text that is driven too little or too often.
pub fn first_misdriven(alloc: Global, library: &Library) -> Result<Option<&Text>, AllocError>
    ensures { IfOk result (λ o. option_copied o ≡ first_violation (v4_uses library.now)) }
{
    let modules = library.modules();
    let scopes = library.scopes();
    for at in 0..modules.len() {
        if let Some(x) = module_names(alloc, library, &scopes[at], &modules[at])? {
            return Ok(Some(x));
        }
    }
    Ok(None)
}
