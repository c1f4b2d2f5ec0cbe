// Laws on the modules of channels.

ghost use Rattle.hw_channel_laws.specs.modules.Ports.{ChannelsAct};
ghost use Rattle.hw_channel_laws.specs.modules.Rules.{ModulesAreClear, NamesTellModules};

/// The modules of a channel meet its contract, in any design and from any power-up contents.
pub fn law_channels_act()
    ensures { ChannelsAct }
{}

/// The modules of a channel break no rule by themselves, and none of their outputs depends on an input.
pub fn law_modules_are_clear()
    ensures { ModulesAreClear }
{}

/// Among the modules of channels for any numbers, those of one name are one module.
pub fn law_names_tell_modules()
    ensures { NamesTellModules }
{}
