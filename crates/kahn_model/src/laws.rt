//! The laws of rounds and counts: the contracts of functions that do nothing.

ghost use Rattle.std.specs.Prelude.{ℕ, suc, ◌≡◌, ◌<◌, ◌≤◌, ◌+◌, ◌*◌, ◌⊎◌, Bool, List, length, Some, slice_get, All};
ghost use Rattle.kahn_model.specs.Behavior.{Tick, ticks};
ghost use Rattle.kahn_model.specs.Network.{Network, IsNetwork, stream, round};
ghost use Rattle.kahn_model.specs.Counts.{IsReachable, IsFounded, IsEnding, IsKahnPrefix, written, ticks_made, next, HasToken, IsSupplied, HasEnded, IsKahnStream, total, round_of};
ghost use Rattle.kahn_model.specs.Outcome.{WaitsToWrite, WaitsToRead, HasBadToken, IsGreatest, HaveJoinedEnded};
ghost use Rattle.kahn_model.specs.Ending.{NetworksRunInThreeWays, NetworksRunInOneWay, EndsShowAlike, EndsStay, ShownBegins, ShownIsWhole, IsLeastToEnd, EndsHaveALeast};
ghost use Rattle.kahn_model.specs.Ending.{JoinedNetworksAreToldByTheirEnd, NonePassesAnEnd, StopsStay};
ghost use Rattle.kahn_model.specs.Standing.{InstancesStandOneWay};
ghost use Rattle.kahn_model.specs.Timed.{Clock, IsClock, count_at};
ghost use Rattle.kahn_model.specs.Trace.{State};
ghost use Rattle.kahn_model.specs.ProgramNetwork.{network_with, IsWired};
ghost use Rattle.kahn_model.specs.Start.{network_of};
ghost use Rattle.kahn_model.specs.OneMeaning.{ProgramsOfOneMeaning};
ghost use Rattle.kahn_model.specs.Cells.{cells_at};
ghost use Rattle.kahn_model.specs.LastCells.{EndsLeaveAlike};
ghost use Rattle.tapa_base.specs.Kinds.{values_of};
ghost use Rattle.tapa_syntax.specs.declared.program.Memory.{Memory};
ghost use Rattle.kahn_model.specs.Fits.{IsTokenOf, KeepsKinds, TickFits, stream_kind, memory_kind, FitsInput};
ghost use Rattle.tapa_syntax.specs.WellFormed.{IsWellFormed};
ghost use Rattle.tapa_syntax.specs.declared.program.Program.{Program};
ghost use Rattle.kahn_model.specs.Prefix.{IsPrefixOf};

/// Each round's streams are prefixes of the next round's.
pub fn law_rounds_grow()
    ensures { (net : Network) → IsNetwork net → (n s : ℕ) → IsPrefixOf (stream net n s) (stream net (suc n) s) }
{}

/// Every count that is reachable without regard to room has its ticks in its own round, and what it has written is a
/// prefix of the Kahn streams. A reachable count is one of these.
pub fn law_reach_is_kahn()
    ensures founded { (net : Network) (k : ℕ → ℕ) → IsReachable net k → IsFounded net k }
    ensures made { (net : Network) → IsNetwork net → (k : ℕ → ℕ) → IsFounded net k → (i : ℕ) → length (ticks_made net k i) ≡ k i }
    ensures kahn { (net : Network) → IsNetwork net → (k : ℕ → ℕ) → IsFounded net k → (s : ℕ) → IsKahnPrefix net s (written net k s) }
{}

/// What the producer of a stream has written where it has ended is the whole Kahn stream.
pub fn law_done_is_whole()
    ensures { (net : Network) → IsNetwork net → (k : ℕ → ℕ) (s : ℕ) → HasEnded net k (net.producer s) → IsKahnStream net s (written net k s) }
{}

/// At most one reachable count allows no step, and no reachable count is past it, whatever the order of steps.
pub fn law_one_end()
    ensures one { (net : Network) → IsNetwork net → (k m : ℕ → ℕ) → IsEnding net k → IsEnding net m → (i : ℕ) → k i ≡ m i }
    ensures below { NonePassesAnEnd }
{}

/// A network that stops within a bound on ticks stops at the same count within every greater bound.
pub fn law_stops_stay()
    ensures { StopsStay }
{}

/// The next tick of a count is the tick there of any round, if its token is written or it needs none.
pub fn law_next_in_time()
    ensures { (net : Network) → IsNetwork net → (k : ℕ → ℕ) → IsFounded net k → (n i : ℕ) (t : Tick) → i < net.size → slice_get (round net n i) (k i) ≡ Some t
        → HasToken net k t → next net k i ≡ Some t }
{}

/// The laws hold for the network of every program whose streams each have a writer and a reader.
pub fn law_wired_network()
    ensures { (program : Program) → IsWired program → (first : ℕ → State) → IsNetwork (network_with program first) }
{}

/// Every well-formed program is such a program, so the laws hold for its network on every input.
pub fn law_program_network()
    ensures wired { (program : Program) → IsWellFormed program → IsWired program }
    ensures network { (program : Program) → IsWellFormed program → (scalars : List ℕ) (memories : List (List ℕ)) → IsNetwork (network_of program scalars memories) }
{}

/// The network of a program is a function of its plain data: where it lies in memory is no matter.
pub fn law_one_meaning()
    ensures { ProgramsOfOneMeaning }
{}

/// In the network of a well-formed program on an input that fits it, every token is one of its stream's kind, and what
/// a task stores is a value of its memory's kind.
pub fn law_tokens_fit()
    ensures behaviors { (program : Program) → IsWellFormed program → (scalars : List ℕ) (memories : List (List ℕ)) → FitsInput program scalars memories → (i n : ℕ)
        → KeepsKinds (stream_kind program) (memory_kind program i) ((network_of program scalars memories).job i n) }
    ensures rounds { (program : Program) → IsWellFormed program → (scalars : List ℕ) (memories : List (List ℕ)) → FitsInput program scalars memories → (n s : ℕ)
        → All (IsTokenOf (stream_kind program s)) (stream (network_of program scalars memories) n s) }
    ensures written { (program : Program) → IsWellFormed program → (scalars : List ℕ) (memories : List (List ℕ)) → FitsInput program scalars memories → (k : ℕ → ℕ) (s : ℕ)
        → All (IsTokenOf (stream_kind program s)) (written (network_of program scalars memories) k s) }
    ensures made { (program : Program) → IsWellFormed program → (scalars : List ℕ) (memories : List (List ℕ)) → FitsInput program scalars memories → (k : ℕ → ℕ) (i : ℕ)
        → All (TickFits (stream_kind program) (memory_kind program i)) (ticks_made (network_of program scalars memories) k i) }
{}

/// The cells of each memory at every count are values of its kind.
pub fn law_cells_fit()
    ensures { (program : Program) → IsWellFormed program → (scalars : List ℕ) (memories : List (List ℕ)) → FitsInput program scalars memories
        → (k : ℕ → ℕ) (m : ℕ) (c : Memory) → slice_get program.memories.items m ≡ Some c → All (λ v. v < values_of c.kind) (cells_at program scalars memories k m) }
{}

/// The counts of a clock are counts that streams without limit reach, so what they have written is a prefix of the
/// Kahn streams.
pub fn law_clock_is_founded()
    ensures { (net : Network) → IsNetwork net → (clock : Clock) (n : ℕ) → IsFounded net (count_at net clock n) }
{}

/// What has ended in a reachable count has ended in the counts of a clock after a number of cycles that the ticks of that count bound.
/// The instances that are waited for have ended after a number of cycles that the fewest ticks with which they can end bound.
pub fn law_done_in_time()
    ensures ended { (net : Network) → IsNetwork net → (clock : Clock) (top : ℕ) (ready : ℕ → Bool) (waits : ℕ) → IsClock clock top ready waits → (k : ℕ → ℕ) → IsReachable net k
        → (n : ℕ) × (1 ≤ n) × (n ≤ 1 + total net.size k * suc top + waits) × ((i : ℕ) → HasEnded net k i → HasEnded net (count_at net clock n) i) }
    ensures joined { (net : Network) → IsNetwork net → (clock : Clock) (top : ℕ) (ready : ℕ → Bool) (waits : ℕ) → IsClock clock top ready waits → (a : ℕ) → IsLeastToEnd net a
        → (n : ℕ) × (1 ≤ n) × (n ≤ 1 + a * suc top + waits) × HaveJoinedEnded net (count_at net clock n) }
{}

/// The next tick of an instance whose token is there is its job's next tick on the tokens that are written so far, and
/// no other tick is.
pub fn law_next_is_local()
    ensures found { (net : Network) → IsNetwork net → (k : ℕ → ℕ) → IsFounded net k → (i : ℕ) (supplied : IsSupplied net k i)
        → slice_get (ticks (net.job i (round_of net k)) (written net k)) (k i) ≡ Some supplied.tick }
    ensures only { (net : Network) → IsNetwork net → (k : ℕ → ℕ) → IsFounded net k → (n i : ℕ) (t : Tick) → i < net.size
        → slice_get (ticks (net.job i n) (written net k)) (k i) ≡ Some t → (next net k i ≡ Some t) × HasToken net k t }
{}

/// An instance that has not ended where no step is allowed waits to write, waits to read or has a bad token.
pub fn law_waits()
    ensures { (net : Network) → IsNetwork net → (k : ℕ → ℕ) → IsEnding net k → (i : ℕ) → i < net.size → (HasEnded net k i → ⊥) → ((s : ℕ) × WaitsToWrite net k i s)
        ⊎ (((s : ℕ) × WaitsToRead net k i s) ⊎ ((s : ℕ) × HasBadToken net k i s)) }
{}

/// Within a bound on ticks a network ends, or it stops, or neither, and only one of these.
pub fn law_three_ways()
    ensures some { NetworksRunInThreeWays }
    ensures one { NetworksRunInOneWay }
{}

/// If all instances that are waited for have ended, the number of their ticks and the tokens of the reported streams are the same for every bound and every
/// order of steps. With a greater bound they end too.
pub fn law_ends_alike()
    ensures alike { EndsShowAlike }
    ensures stay { EndsStay }
{}

/// Where all instances that are waited for have ended, the memories that they own have the same cells, whatever the bound
/// and the order of steps.
pub fn law_last_cells_alike()
    ensures { EndsLeaveAlike }
{}

/// The tokens that are shown of a stream are a prefix of its Kahn stream, and all of it where its producer is waited for and every
/// instance that is waited for has ended.
pub fn law_shown_is_kahn()
    ensures begins { ShownBegins }
    ensures whole { ShownIsWhole }
{}

/// Where all instances that are waited for end, there is a least number of ticks with which they can.
pub fn law_least_to_end()
    ensures { EndsHaveALeast }
{}

/// If every instance is waited for, the one count that allows no step determines the outcome: the number of ticks, and whether every instance has ended.
pub fn law_told_by_its_end()
    ensures { JoinedNetworksAreToldByTheirEnd }
{}

/// In a reachable count an instance has ended, waits to read one stream, waits to write one, or has a bad token on one:
/// no two of these.
pub fn law_one_standing()
    ensures { InstancesStandOneWay }
{}

/// Among the reachable counts with at most `cap` ticks of each instance one is at least every other.
pub fn law_greatest()
    ensures { (net : Network) → IsNetwork net → (cap : ℕ) → (k : ℕ → ℕ) × IsGreatest net cap k }
{}
