// The first name in the text that lies on a loop.

ghost use Rattle.std.specs.Prelude.{◌≡◌, ◌<◌, ◌≤◌, ◌↔◌, [], ℕ, List, Bool, true, false, map, length, Some, IfOk, OnOk};
ghost use Rattle.std.specs.Option.{option_copied};
ghost use Rattle.vlog_tree.specs.Table.{declared};
ghost use Rattle.vlog_tree.specs.Loops.{Edges, containment, Reaches, own_places, text_places, LiesOnLoop};
ghost use Rattle.vlog_net_graph.specs.Names.{IsGraphOf, IsGraphListed};
ghost use Rattle.vlog_comb_loops.specs.Rooms.{room};
ghost use Rattle.vlog_comb_loops.specs.Questions.{AreUses};
ghost use Rattle.vlog_comb_loops.specs.Search.{IsSearched, AreSuspects, IsEvidence, IsJudged, AreJudged};
ghost use Rattle.vlog_comb_loops.specs.Summaries.{is_named, IsSoundSum, IsClosedSum, AreSums};

use crate::order::order_of;
use crate::questions::{Questions, questions_of, uses_of};
use crate::sums::{Sum, renew, sums_of};
use crate::suspects::{Loops, Suspect, on_loop};
use std::alloc::{AllocError, Global};
use tapa_base::Text;
use vlog_net_graph::{NamedGraph, containment_of, merged_is_loopless};
use vlog_scope::{Library, Scope};
use vlog_tree::{Declaration, Module};

// Keeps the graph of a module where no levels show that it has no loop.
fn judge(
    alloc: Global,
    suspects: &mut Vec<Suspect>,
    place: usize,
    graph: NamedGraph,
) -> Result<(), AllocError>
    requires { IsGraphListed graph }
    ensures { OnOk result ((edges : Edges) → IsGraphOf edges graph → IsJudged edges place suspects.old.items suspects.new.items) }
{
    let loopless = graph.is_loopless(alloc)?;
    if !loopless {
        suspects.push(Suspect { place, graph })?;
    }
    Ok(())
}

// Adds the graphs of the modules that may have loops to the suspects; false where a sum was too small.
fn judge_all(
    alloc: Global,
    library: &Library,
    root: Option<&Text>,
    uses: &Questions,
    sums: &mut Vec<Sum>,
    suspects: &mut Vec<Suspect>,
) -> Result<bool, AllocError>
    requires uses { AreUses library.now uses.now }
    requires sound { AreSums (IsSoundSum library.now (is_named (option_copied root))) library.now sums.old.items }
    requires none { suspects.old.items ≡ [] }
    ensures sound { OnOk result (AreSums (IsSoundSum library.now (is_named (option_copied root.entry))) library.now sums.new.items) }
    ensures closed { IfOk result (λ b. b ≡ true → AreSums (IsClosedSum library.now (is_named (option_copied root.entry)) sums.new.items) library.now sums.new.items) }
    ensures judged { IfOk result (λ b. b ≡ true → AreJudged library.now (is_named (option_copied root.entry)) sums.new.items (length library.now) suspects.new.items) }
    ensures less { IfOk result (λ b. b ≡ false → room library.now sums.new.items < room library.now sums.old.items) }
    ensures more { OnOk result (room library.now sums.new.items ≤ room library.now sums.old.items) }
{
    for place in 0..library.modules().len() {
        let made = renew(alloc, library, root, uses, sums, place)?;
        if !made.steady {
            return Ok(false);
        }
        judge(alloc, suspects, place, made.graph)?;
    }
    Ok(true)
}

// The modules that may have loops, by sums that are made larger where they are too small.
fn suspects_of(
    alloc: Global,
    library: &Library,
    root: Option<&Text>,
    uses: &Questions,
    mut sums: Vec<Sum>,
) -> Result<Vec<Suspect>, AllocError>
    requires uses { AreUses library.now uses.now }
    requires sound { AreSums (IsSoundSum library.now (is_named (option_copied root))) library.now sums.items }
    ensures { IfOk result (λ v. AreSuspects library.now (is_named (option_copied root.entry)) v.items) }
{
    let mut suspects = Vec::new(alloc);
    let mut steady = judge_all(alloc, library, root, uses, &mut sums, &mut suspects)?;
    while !steady {
        suspects = Vec::new(alloc);
        steady = judge_all(alloc, library, root, uses, &mut sums, &mut suspects)?;
    }
    Ok(suspects)
}

// The modules that may have loops, by the sums of all modules.
fn suspects_by_sums(
    alloc: Global,
    library: &Library,
    root: Option<&Text>,
    contains: &NamedGraph,
) -> Result<Vec<Suspect>, AllocError>
    ensures { IfOk result (λ v. AreSuspects library.now (is_named (option_copied root.entry)) v.items) }
{
    let order = order_of(alloc, contains, library.modules())?;
    let uses = uses_of(alloc, library.modules())?;
    let sums = sums_of(alloc, library, root, &uses, &order)?;
    let suspects = suspects_of(alloc, library, root, &uses, sums)?;
    Ok(suspects)
}

// The modules that may have loops: none where all modules at once show none, which needs no sums.
fn suspects_among(
    alloc: Global,
    library: &Library,
    root: Option<&Text>,
    contains: &NamedGraph,
) -> Result<Vec<Suspect>, AllocError>
    ensures { IfOk result (λ v. AreSuspects library.now (is_named (option_copied root.entry)) v.items) }
{
    let loopless = merged_is_loopless(alloc, library, root)?;
    if loopless {
        let none = Vec::new(alloc);
        return Ok(none);
    }
    let suspects = suspects_by_sums(alloc, library, root, contains)?;
    Ok(suspects)
}

fn loops_of(alloc: Global, library: &Library, root: Option<&Text>) -> Result<Loops, AllocError>
    ensures { IfOk result (λ loops. IsEvidence library.now (is_named (option_copied root.entry)) loops) }
{
    let contains = containment_of(alloc, library.modules())?;
    let flat = contains.is_loopless(alloc)?;
    let suspects = suspects_among(alloc, library, root, &contains)?;
    let questions = questions_of(alloc, library, &suspects)?;
    Ok(Loops {
        suspects,
        questions,
        contains,
        flat,
    })
}

fn contains_itself(
    alloc: Global,
    library: &Library,
    loops: &Loops,
    name: &Text,
) -> Result<bool, AllocError>
    requires { (is_top : List ℕ → Bool) × IsEvidence library.now is_top loops.now }
    ensures { (is_top : List ℕ → Bool) → IsEvidence library.now is_top loops.now → IfOk result (λ b. (b ≡ true) ↔ Reaches (containment library.now) name.now name.now) }
{
    if loops.flat {
        Ok(false)
    } else {
        loops.contains.returns(alloc, name.bytes())
    }
}

// The first net of a module that lies on a loop.
fn first_net<'a>(
    alloc: Global,
    library: &Library,
    loops: &Loops,
    owner: &Text,
    names: &'a [Declaration],
) -> Result<Option<&'a Text>, AllocError>
    requires { (is_top : List ℕ → Bool) × IsEvidence library.now is_top loops.now }
    ensures { (is_top : List ℕ → Bool) → IsEvidence library.now is_top loops.now
        → IfOk result (λ o. IsSearched (LiesOnLoop library.now is_top) (map (λ d. (owner.now, Some d.name)) names.now) (option_copied o)) }
{
    for d in names {
        let found = on_loop(alloc, library, loops, owner, &d.name)?;
        if found {
            return Ok(Some(&d.name));
        }
    }
    Ok(None)
}

// The first name of a module: its own where it contains itself, and else that of a net.
fn first_of_module<'a>(
    alloc: Global,
    library: &Library,
    loops: &Loops,
    m: &'a Module,
    scope: &'a Scope,
) -> Result<Option<&'a Text>, AllocError>
    requires evidence { (is_top : List ℕ → Bool) × IsEvidence library.now is_top loops.now }
    requires scope { scope.now ≡ declared m.now }
    ensures { (is_top : List ℕ → Bool) → IsEvidence library.now is_top loops.now
        → IfOk result (λ o. IsSearched (LiesOnLoop library.now is_top) (own_places m.now) (option_copied o)) }
{
    let name = m.name();
    let found = contains_itself(alloc, library, loops, name)?;
    if found {
        return Ok(Some(name));
    }
    let net = first_net(alloc, library, loops, name, scope.declarations())?;
    Ok(net)
}

/// The first name in the text that lies on a loop: a module that contains itself, or a net that depends on itself within
/// a cycle. `root` is the name of the first module that no other contains.
pub fn first_on_loop<'a>(
    alloc: Global,
    library: &'a Library,
    root: Option<&Text>,
) -> Result<Option<&'a Text>, AllocError>
    ensures { IfOk result (λ o. IsSearched (LiesOnLoop library.now (is_named (option_copied root.entry))) (text_places library.now) (option_copied o)) }
{
    let loops = loops_of(alloc, library, root)?;
    let modules = library.modules();
    let scopes = library.scopes();
    for at in 0..modules.len() {
        if let Some(x) = first_of_module(alloc, library, &loops, &modules[at], &scopes[at])? {
            return Ok(Some(x));
        }
    }
    Ok(None)
}
