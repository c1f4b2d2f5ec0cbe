// Laws on the names of a task's module.

ghost use Rattle.hw_task_laws.specs.names.Countable.{BlocksAreOnce, LinesCountElements, NamesAreOnce, NetsAreNamed, TitlesAreNames};
ghost use Rattle.hw_task_laws.specs.names.Ports.{ModulesHavePorts, PortsAreThese};

/// No name is declared twice in a task's module, each is one, and no two blocks assign one register or array.
pub fn law_names()
    ensures once { NamesAreOnce }
    ensures named { NetsAreNamed }
    ensures blocks { BlocksAreOnce }
{}

/// The ports of a task's module are those of its scalar parameters, its streams and its memories.
pub fn law_task_ports()
    ensures elements { PortsAreThese }
    ensures modules { ModulesHavePorts }
{}

/// A module has no fewer ports and lines than elements, and `t_` before a task's name makes a name.
pub fn law_task_lines()
    ensures lines { LinesCountElements }
    ensures titles { TitlesAreNames }
{}
