//! The laws of clocked networks: the contracts of functions that do nothing.

ghost use Rattle.hw_network_laws.specs.network.Asked.{MachinesStandAtNext, RequestsStay};
ghost use Rattle.hw_network_laws.specs.network.Clocked.{ClockedNetworksKeepTime, ClockedNetworksCarryKahn};
ghost use Rattle.hw_network_laws.specs.network.Joined.{ClockedNetworksAreDone};
ghost use Rattle.hw_network_laws.specs.network.Timed.{TimedCountsGoByRows};
ghost use Rattle.circuit_meaning.specs.Pace.{TimedCountsKeepPace, AnsweredCountsArePrompt};
ghost use Rattle.hw_network_laws.specs.network.Cells.{MemoriesHoldCells};
ghost use Rattle.hw_network_laws.specs.network.Ports.{InstancesHavePorts, LoweredMachinesUsePorts, PortsAreStreams, WiredInstancesAreLinked};
ghost use Rattle.hw_network_laws.specs.network.Run.{ClockedNetworksRun};
ghost use Rattle.hw_network_laws.specs.network.Parts.{FirstArraysAreNoMatter, LoweredMachinesAreParts};

/// Machines that follow the jobs of a network, at channels that meet their contract, make the ticks of the timed counts.
pub fn law_networks_keep_time()
    ensures { ClockedNetworksKeepTime }
{}

/// So what they carry is a prefix of the Kahn streams, all of it where the writer has ended, and they end in time.
pub fn law_networks_carry_kahn()
    ensures { ClockedNetworksCarryKahn }
{}

/// Such a network is done exactly if its joined instances (those that are waited for) have ended in the timed counts. Then each stream of a joined producer
/// has carried its whole Kahn stream, and any other stream a prefix of it. If some run ends within a bound, the network is done within a stated number of
/// cycles.
pub fn law_done_is_of_joined()
    ensures { ClockedNetworksAreDone }
{}

/// The memories of a program hold before each cycle their cells at the timed counts.
pub fn law_memories_hold_cells()
    ensures { MemoriesHoldCells }
{}

/// The timed counts go by the rows of their definition: a Take or See where its token was written as long ago as the
/// latency says, a Put where there was room as long ago, a Load or Store where its memory answers, any other at once.
pub fn law_timed_counts_go_by_rows()
    ensures { TimedCountsGoByRows }
{}

/// A tick that is allowed is made after at most the greatest latency, or where it is a Load or Store in the first cycle in
/// which its memory answers. The tokens that a stream holds, with the answers in flight to its writer that there is room,
/// are never more than its depth and twice its latency.
pub fn law_timed_counts_keep_pace()
    ensures { TimedCountsKeepPace }
{}

/// If no latency is greater than M, and each request of a memory is answered within M cycles, each allowed tick is made within M cycles. So the timed
/// counts pass a reachable count of A ticks by cycle 1 + A * (M + 1), whatever memories do of which nothing is requested.
pub fn law_answered_counts_are_prompt()
    ensures { AnsweredCountsArePrompt }
{}

/// In each cycle a machine that has not ended is at the act that its count makes next, whether it is made in the cycle or not; and
/// a Load or Store whose memory does not answer is the next tick in the cycle after, too.
pub fn law_requests_stay()
    ensures next { MachinesStandAtNext }
    ensures held { RequestsStay }
{}

/// A module that runs its machine at its ports runs it at the streams that they are bound to.
pub fn law_ports_are_streams()
    ensures { PortsAreStreams }
{}

/// A lowered machine reads and writes its ports as its leaf declares them.
pub fn law_machines_use_their_ports()
    ensures { LoweredMachinesUsePorts }
{}

/// In a well-formed program no two ports of an instance with one direction are bound to one stream, and each stream is at a
/// port of its reader and at a port of its writer.
pub fn law_instances_have_their_ports()
    ensures { InstancesHavePorts }
{}

/// So where the wires of an instance's module are those of its streams, the module is linked as the instance.
pub fn law_wired_instances_are_linked()
    ensures { WiredInstancesAreLinked }
{}

/// A leaf's job is the same whatever its arrays hold at first.
pub fn law_first_arrays_are_no_matter()
    ensures { FirstArraysAreNoMatter }
{}

/// The machine that is lowered for the leaf of an instance follows the instance's job, whatever its arrays hold at first.
pub fn law_lowered_machines_are_parts()
    ensures { LoweredMachinesAreParts }
{}

/// Machines that follow the jobs of a network have such a run, at every clock.
pub fn law_networks_run()
    ensures { ClockedNetworksRun }
{}
