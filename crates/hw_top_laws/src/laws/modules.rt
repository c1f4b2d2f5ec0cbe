// Laws on the modules below the top of a circuit.

ghost use Rattle.hw_top_laws.specs.modules.Lower.{ChannelsAreFound, LowerAreApart, LowerAreModules, LowerAreRight, LowerIsSound, LowerPortsAreOnce, TasksAreFound, TopIsApart};

/// No two modules below the top have one name, and none has the top's; each channel's and each used leaf task's modules are
/// there under their names.
pub fn law_modules_are_apart()
    ensures apart { LowerAreApart }
    ensures top { TopIsApart }
    ensures channels { ChannelsAreFound }
    ensures tasks { TasksAreFound }
{}

/// They have the form of modules and break no rule on names, widths and drivers together.
pub fn law_modules_are_right()
    ensures form { LowerAreModules }
    ensures right { LowerAreRight }
    ensures sound { LowerIsSound }
    ensures ports { LowerPortsAreOnce }
{}
