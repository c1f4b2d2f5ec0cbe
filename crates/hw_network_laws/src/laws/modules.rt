//! The laws of modules in a clocked network: the contracts of functions that do nothing.

ghost use Rattle.hw_network_laws.specs.modules.Channels.{ChannelsMeetContract, MachinesTakeOffers, StillStreamsMeetContract};
ghost use Rattle.hw_network_laws.specs.modules.Tasks.{ModulesAreInstances};
ghost use Rattle.hw_network_laws.specs.modules.Designs.{DesignsAreClocked};

/// What a channel guarantees by the numbers at its ports is the contract of its stream, where nothing is taken that is not there.
pub fn law_channels_meet_contract()
    ensures { ChannelsMeetContract }
{}

/// A machine takes nothing that is not there.
pub fn law_machines_take_offers()
    ensures { MachinesTakeOffers }
{}

/// A stream at which nothing ever moves meets the contract of depth 0.
pub fn law_still_streams_meet_contract()
    ensures { StillStreamsMeetContract }
{}

/// A run of the module of a program's instance, wired to the instance's streams and begun with the program's input, is that
/// of a machine that follows the instance's job.
pub fn law_modules_are_instances()
    ensures { ModulesAreInstances }
{}

/// So a design that has a module for each instance of a program and a channel for each stream is the program's clocked
/// network: its streams carry what the timed counts write.
pub fn law_designs_are_clocked()
    ensures { DesignsAreClocked }
{}
