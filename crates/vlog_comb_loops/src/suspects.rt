// Whether a net lies on a loop.

ghost use Rattle.std.specs.Prelude.{◌≡◌, ◌↔◌, ℕ, List, Bool, true, Some, IfOk};
ghost use Rattle.tapa_base.specs.Lists.{Has};
ghost use Rattle.vlog_tree.specs.Loops.{Edges, Reaches, port_of, item_instances, LiesOnLoop};
ghost use Rattle.vlog_net_graph.specs.Names.{IsGraphOf};
ghost use Rattle.vlog_comb_loops.specs.Search.{LoopsAt, LoopsBy, IsSuspect, IsEvidence};

use crate::questions::Questions;
use std::alloc::{AllocError, Global};
use tapa_base::Text;
use vlog_net_graph::{NamedGraph, port_name};
use vlog_scope::Library;
use vlog_tree::{Item, Module};

/// A module, by its index, whose graph was not seen to be without loops.
#[derive(Drop)]
pub struct Suspect {
    pub place: usize,
    pub graph: NamedGraph,
}

/// The modules that may have loops, what to ask of each net of a module, and which module contains which; `flat` says that levels
/// show that no module contains itself.
#[derive(Drop)]
pub struct Loops {
    pub suspects: Vec<Suspect>,
    pub questions: Questions,
    pub contains: NamedGraph,
    pub flat: bool,
}

// Whether a line is an instance of a module whose port lies on a loop.
fn port_returns(
    alloc: Global,
    graph: &NamedGraph,
    item: &Item,
    owner: &Text,
    port: &Text,
) -> Result<bool, AllocError>
    requires { (edges : Edges) × IsGraphOf edges graph.now }
    ensures { (edges : Edges) → IsGraphOf edges graph.now
        → IfOk result (λ b. (b ≡ true) ↔ ((i : List ℕ) × Has (item_instances item.now) (owner.now, i) × Reaches edges (port_of i port.now) (port_of i port.now))) }
{
    match item {
        Item::Instance {
            module: m,
            name: i,
            ..
        } => {
            if m.bytes() == owner.bytes() {
                let name = port_name(alloc, i, port)?;
                graph.returns(alloc, &name)
            } else {
                Ok(false)
            }
        }
        Item::Wire { .. } => Ok(false),
        Item::Reg { .. } => Ok(false),
        Item::Memory { .. } => Ok(false),
        Item::Assign { .. } => Ok(false),
        Item::Always(_) => Ok(false),
    }
}

fn own_returns(
    alloc: Global,
    graph: &NamedGraph,
    k: &Module,
    owner: &Text,
    name: &Text,
) -> Result<bool, AllocError>
    requires { (edges : Edges) × IsGraphOf edges graph.now }
    ensures { (edges : Edges) → IsGraphOf edges graph.now → IfOk result (λ b. (b ≡ true) ↔ ((k.now.name ≡ owner.now) × Reaches edges name.now name.now)) }
{
    if k.name().bytes() == owner.bytes() {
        graph.returns(alloc, name.bytes())
    } else {
        Ok(false)
    }
}

// Whether a module has a net or a port of its instance at a line on a loop.
fn loops_at(
    alloc: Global,
    graph: &NamedGraph,
    k: &Module,
    line: Option<usize>,
    owner: &Text,
    name: &Text,
) -> Result<bool, AllocError>
    requires { (edges : Edges) × IsGraphOf edges graph.now }
    ensures { (edges : Edges) → IsGraphOf edges graph.now → IfOk result (λ b. (b ≡ true) ↔ LoopsAt edges k.now line owner.now name.now) }
{
    match line {
        None => own_returns(alloc, graph, k, owner, name),
        Some(at) => match k.items().get(at) {
            Some(item) => port_returns(alloc, graph, item, owner, name),
            None => Ok(false),
        },
    }
}

fn suspect_loops(
    alloc: Global,
    library: &Library,
    suspect: &Suspect,
    line: Option<usize>,
    owner: &Text,
    name: &Text,
) -> Result<bool, AllocError>
    requires { (is_top : List ℕ → Bool) × IsSuspect library.now is_top suspect.now }
    ensures { (is_top : List ℕ → Bool) → (s : IsSuspect library.now is_top suspect.now) → IfOk result (λ b. (b ≡ true) ↔ LoopsAt s.edges s.tree line owner.now name.now) }
{
    match library.modules().get(suspect.place) {
        Some(k) => loops_at(alloc, &suspect.graph, k, line, owner, name),
        None => Ok(false),
    }
}

fn question_loops(
    alloc: Global,
    library: &Library,
    loops: &Loops,
    question: (usize, Option<usize>),
    owner: &Text,
    name: &Text,
) -> Result<bool, AllocError>
    requires { (is_top : List ℕ → Bool) × IsEvidence library.now is_top loops.now }
    ensures right { (is_top : List ℕ → Bool) → IsEvidence library.now is_top loops.now → IfOk result (λ b. b ≡ true → LiesOnLoop library.now is_top (owner.now, Some name.now)) }
    ensures found { (is_top : List ℕ → Bool) → IsEvidence library.now is_top loops.now
        → IfOk result (λ b. LoopsBy library.now is_top loops.now.suspects.items owner.now name.now question → b ≡ true) }
{
    match loops.suspects.get(question.0) {
        Some(s) => {
            let found = suspect_loops(alloc, library, s, question.1, owner, name)?;
            Ok(found)
        }
        None => Ok(false),
    }
}

/// Whether a net of a module lies on a loop.
pub(crate) fn on_loop(
    alloc: Global,
    library: &Library,
    loops: &Loops,
    owner: &Text,
    name: &Text,
) -> Result<bool, AllocError>
    requires { (is_top : List ℕ → Bool) × IsEvidence library.now is_top loops.now }
    ensures { (is_top : List ℕ → Bool) → IsEvidence library.now is_top loops.now → IfOk result (λ b. (b ≡ true) ↔ LiesOnLoop library.now is_top (owner.now, Some name.now)) }
{
    if loops.suspects.is_empty() {
        return Ok(false);
    }
    let key = port_name(alloc, owner, name)?;
    for question in loops.questions.of_name(&key) {
        let found = question_loops(alloc, library, loops, *question, owner, name)?;
        if found {
            return Ok(true);
        }
    }
    Ok(false)
}
