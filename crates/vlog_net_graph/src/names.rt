// Graphs of names.

ghost use Rattle.std.specs.Prelude.{◌≡◌, ◌++◌, ◌∷◌, [], ℕ, List, Some, None, true, length, bytes_eq, ◌↔◌, if◌then◌else◌, IfOk, OnOk};
ghost use Rattle.vlog_tree.specs.Loops.{Edges, Reaches};
ghost use Rattle.vlog_scope.specs.NameTable.{value_in};
ghost use Rattle.number_graph.specs.Graphs.{Steps};
ghost use Rattle.vlog_net_graph.specs.Names.{IsNumbered, IsDraftOf, IsGraphOf, IsExtended, IsListed, IsGraphListed};

use number_graph::{Graph, LeveledGraph, Order, order_of};
use std::alloc::{AllocError, Global};
use std::collections::HashMap;

/// A graph of names that grows: the names by their numbers, and the edges by numbers.
#[derive(Drop)]
pub struct GraphDraft {
    pub numbers: HashMap<Vec<u8>, usize>,
    pub names: Vec<Vec<u8>>,
    pub edges: Vec<(usize, usize)>,
}

/// A graph of names that grows no more: the names by their numbers, all of them, and the graph of the numbers.
#[derive(Drop)]
pub struct NamedGraph {
    pub numbers: HashMap<Vec<u8>, usize>,
    pub names: Vec<Vec<u8>>,
    pub graph: LeveledGraph,
}

/// Gives a name a number.
pub fn insert_number(
    alloc: Global,
    numbers: &mut HashMap<Vec<u8>, usize>,
    name: &[u8],
    number: usize,
) -> Result<(), AllocError>
    ensures { OnOk result ((x : List ℕ) → value_in numbers.new x ≡ (if bytes_eq name.now x then Some number else value_in numbers.old x)) }
{
    let key = name.to_vec(alloc)?;
    numbers.insert(key, number)?;
    Ok(())
}

impl GraphDraft {
    /// A graph of no names.
    pub fn new(alloc: Global) -> GraphDraft
        ensures graph { IsDraftOf [] result }
        ensures listed { IsListed result }
    {
        GraphDraft {
            numbers: HashMap::new(alloc),
            names: Vec::new(alloc),
            edges: Vec::new(alloc),
        }
    }

    /// A graph of no names, with room for this number of them.
    pub fn with_room(alloc: Global, count: usize) -> Result<GraphDraft, AllocError>
        ensures graph { IfOk result (λ g. IsDraftOf [] g) }
        ensures listed { IfOk result (λ g. IsListed g) }
    {
        Ok(GraphDraft {
            numbers: HashMap::with_capacity(alloc, count)?,
            names: Vec::with_capacity(alloc, count)?,
            edges: Vec::new(alloc),
        })
    }

    fn number(&self, name: &[u8]) -> Option<usize>
        ensures { result ≡ value_in self.now.numbers name.now }
    {
        self.numbers.get(name).copied()
    }

    // Gives a name that has none the next number.
    fn add_name(&mut self, alloc: Global, name: Vec<u8>) -> Result<usize, AllocError>
        requires { value_in self.old.numbers name.items ≡ None }
        ensures number { IfOk result (λ j. value_in self.new.numbers name.items ≡ Some j) }
        ensures extended { OnOk result (IsExtended (value_in self.old.numbers) (value_in self.new.numbers)) }
        ensures graph { OnOk result ((edges : Edges) → IsDraftOf edges self.old → IsDraftOf edges self.new) }
        ensures listed { OnOk result (IsListed self.old → IsListed self.new) }
    {
        let number = self.names.len();
        insert_number(alloc, &mut self.numbers, &name, number)?;
        self.names.push(name)?;
        Ok(number)
    }

    // The number of a name, which gets one where it has none.
    fn number_for(&mut self, alloc: Global, name: &[u8]) -> Result<usize, AllocError>
        ensures number { IfOk result (λ j. value_in self.new.numbers name.now ≡ Some j) }
        ensures extended { OnOk result (IsExtended (value_in self.old.numbers) (value_in self.new.numbers)) }
        ensures graph { OnOk result ((edges : Edges) → IsDraftOf edges self.old → IsDraftOf edges self.new) }
        ensures listed { OnOk result (IsListed self.old → IsListed self.new) }
    {
        match self.number(name) {
            Some(number) => Ok(number),
            None => {
                let name = name.to_vec(alloc)?;
                self.add_name(alloc, name)
            }
        }
    }

    // The number of a name in memory of its own, which is kept where it is new.
    fn number_of(&mut self, alloc: Global, name: Vec<u8>) -> Result<usize, AllocError>
        ensures number { IfOk result (λ j. value_in self.new.numbers name.items ≡ Some j) }
        ensures extended { OnOk result (IsExtended (value_in self.old.numbers) (value_in self.new.numbers)) }
        ensures graph { OnOk result ((edges : Edges) → IsDraftOf edges self.old → IsDraftOf edges self.new) }
        ensures listed { OnOk result (IsListed self.old → IsListed self.new) }
    {
        match self.number(&name) {
            Some(number) => Ok(number),
            None => self.add_name(alloc, name),
        }
    }

    /// One more edge: the first name depends on the second.
    pub fn add_edge(&mut self, alloc: Global, from: &[u8], to: &[u8]) -> Result<(), AllocError>
        ensures graph { OnOk result ((edges : Edges) → IsDraftOf edges self.old → IsDraftOf (edges ++ (from.now, to.now) ∷ []) self.new) }
        ensures listed { OnOk result (IsListed self.old → IsListed self.new) }
    {
        let a = self.number_for(alloc, from)?;
        let b = self.number_for(alloc, to)?;
        self.edges.push((a, b))?;
        Ok(())
    }

    /// One more edge, of names in memory of their own.
    pub fn add_owned(&mut self, alloc: Global, from: Vec<u8>, to: Vec<u8>) -> Result<(), AllocError>
        ensures graph { OnOk result ((edges : Edges) → IsDraftOf edges self.old → IsDraftOf (edges ++ (from.items, to.items) ∷ []) self.new) }
        ensures listed { OnOk result (IsListed self.old → IsListed self.new) }
    {
        let a = self.number_of(alloc, from)?;
        let b = self.number_of(alloc, to)?;
        self.edges.push((a, b))?;
        Ok(())
    }

    fn graph(&self, alloc: Global) -> Result<Graph, AllocError>
        requires { (edges : Edges) × IsDraftOf edges self.now }
        ensures { (edges : Edges) → IsDraftOf edges self.now → IfOk result (λ g. IsNumbered edges (value_in self.now.numbers) (Steps g) (length g)) }
    {
        let graph = Graph::of(alloc, self.names.len(), &self.edges)?;
        Ok(graph)
    }

    /// Whether no name reaches itself.
    pub fn is_loopless(&self, alloc: Global) -> Result<bool, AllocError>
        requires { (edges : Edges) × IsDraftOf edges self.now }
        ensures { (edges : Edges) → IsDraftOf edges self.now → IfOk result (λ b. (b ≡ true) ↔ ((x : List ℕ) → Reaches edges x x → ⊥)) }
    {
        let graph = self.graph(alloc)?;
        let order = order_of(alloc, &graph)?;
        match order {
            Order::PartsFirst(_) => Ok(true),
            Order::Cycle(_) => Ok(false),
        }
    }

    /// The graph as it is, with levels of its nodes.
    pub fn finish(self, alloc: Global) -> Result<NamedGraph, AllocError>
        requires { (edges : Edges) × IsDraftOf edges self }
        ensures graph { (edges : Edges) → IsDraftOf edges self → IfOk result (λ g. IsGraphOf edges g) }
        ensures listed { IsListed self → IfOk result (λ g. IsGraphListed g) }
    {
        let graph = Graph::of(alloc, self.names.len(), &self.edges)?;
        let graph = LeveledGraph::of(alloc, graph)?;
        Ok(NamedGraph {
            numbers: self.numbers,
            names: self.names,
            graph,
        })
    }
}

impl NamedGraph {
    /// The number of a name.
    pub fn number(&self, name: &[u8]) -> Option<usize>
        ensures { result ≡ value_in self.now.numbers name.now }
    {
        self.numbers.get(name).copied()
    }

    /// The number of nodes.
    pub fn count(&self) -> usize
        ensures { result ≡ length self.now.graph }
    {
        self.graph.graph().len()
    }

    /// Whether a name reaches itself.
    pub fn returns(&self, alloc: Global, name: &[u8]) -> Result<bool, AllocError>
        ensures { (edges : Edges) → IsGraphOf edges self.now → IfOk result (λ b. (b ≡ true) ↔ Reaches edges name.now name.now) }
    {
        match self.number(name) {
            Some(number) => {
                let found = self.graph.returns(alloc, number)?;
                Ok(found)
            }
            None => Ok(false),
        }
    }

    /// Whether no name reaches itself.
    pub fn is_loopless(&self, alloc: Global) -> Result<bool, AllocError>
        ensures { (edges : Edges) → IsGraphOf edges self.now → IfOk result (λ b. (b ≡ true) ↔ ((x : List ℕ) → Reaches edges x x → ⊥)) }
    {
        let order = order_of(alloc, self.graph.graph())?;
        match order {
            Order::PartsFirst(_) => Ok(true),
            Order::Cycle(_) => Ok(false),
        }
    }
}
