// Laws on the modules of tasks.

ghost use Rattle.hw_lines.specs.Decides.{StateClearsAny, StatePicks, StateSetsAny};
ghost use Rattle.hw_lines.specs.Names.{NamesTellNets, NetsHaveNames, NodesAreNumbered};

/// Each net of a task's module has a name of its own.
pub fn law_nets()
    ensures tell { NamesTellNets }
    ensures nodes { NodesAreNumbered }
    ensures names { NetsHaveNames }
{}

/// In a cycle in a state, a choice by state has what that state gives it.
pub fn law_states()
    ensures set { StateSetsAny }
    ensures clear { StateClearsAny }
    ensures chosen { StatePicks }
{}
