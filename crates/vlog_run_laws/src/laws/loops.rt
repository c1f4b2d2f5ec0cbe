// Laws on loops and the flattened design.

ghost use Rattle.vlog_run_laws.specs.loops.Loops.{LoopsAreFlat, RefusedLoopsAreFlat};

/// A position of the text that lies on a loop, by its module's lines and what instances do inside, shows a net of the flattened
/// design that depends on itself within a cycle. Modules have the form of modules, since a name with a dot could be taken for
/// a port of an instance.
pub fn law_loops_are_flat()
    ensures { LoopsAreFlat }
{}

/// Modules with one root that are refused for a loop, and not because a module contains itself, have such a net.
pub fn law_refused_loops_are_flat()
    ensures { RefusedLoopsAreFlat }
{}
