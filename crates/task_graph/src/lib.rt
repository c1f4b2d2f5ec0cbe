//! The graph of a program: its leaf instances with what they are estimated to take of a chip, the streams between them, and
//! the groups of instances that reach each other.
#![tactic(auto)]

mod calls;
mod code_sums;
mod edges;
mod estimates;
mod groups;
mod program_graph;
mod reach;

ghost use Rattle.std.specs.Prelude.{◌≡◌, ◌≤◌, ◌<◌, ◌^◌, ℕ, length};
ghost use Rattle.task_graph.specs.Streams.{from_of, to_of, width_of, amount_at, AreGroups, AreNumbered, HasRank};

use tapa_base::Text;

/// A stream from the instance that writes it to the one that reads it. Its width is in bits: those of its kind, and one that
/// marks the end of a transmission.
#[derive(Drop)]
pub struct Edge {
    pub from: u32,
    pub to: u32,
    pub width: u32,
    pub label: Text,
}

/// An amount of each kind of resource of a chip: look-up tables, flip-flops, block RAMs of 18 Kb, DSP slices, and
/// UltraRAMs.
#[derive(Clone, Copy, Debug, PartialEq, Eq)]
pub struct Use {
    pub lut: u64,
    pub ff: u64,
    pub bram: u64,
    pub dsp: u64,
    pub uram: u64,
}

/// Leaf instances with their labels and uses, and the streams between them. Two instances are in one group exactly where
/// each reaches the other along streams; groups are numbered by their least instance.
#[derive(Drop)]
pub struct Graph {
    pub labels: Vec<Text>,
    pub group: Vec<u32>,
    pub groups: u32,
    pub uses: Vec<Use>,
    pub edges: Vec<Edge>,
    pub ghost few_instances: { length group.items ≤ 512 },
    pub ghost few_streams: { length edges.items ≤ 1024 },
    pub ghost labelled: { length labels.items ≡ length group.items },
    pub ghost used: { length uses.items ≡ length group.items },
    pub ghost ends: { (e : ℕ) → e < length edges.items → (from_of edges.items e < length group.items) × (to_of edges.items e < length group.items) },
    pub ghost widths: { (e : ℕ) → e < length edges.items → (2 ≤ width_of edges.items e) × (width_of edges.items e ≤ 65) },
    pub ghost amounts: { (i k : ℕ) → amount_at uses.items i k < 2 ^ 40 },
    pub ghost numbered: { AreNumbered group.items groups },
    pub ghost grouped: { ∥ AreGroups group.items edges.items ∥₁ },
    pub ghost ranked: { ∥ HasRank group.items groups edges.items ∥₁ },
}
