//! How programs run: the contracts of functions that do nothing.

ghost use Rattle.run_program.specs.Laws.{ProgramsRunAlike, ProgramsRunSomehow, ProgramsRunOneWay};

/// Programs that differ only in where they lie in memory run alike.
pub fn law_programs_run_alike()
    ensures { ProgramsRunAlike }
{}

/// A well-formed program on values of its top task's parameters ends, stops or passes its limit, in exactly one way (Kahn
/// 1974: the streams of a network of processes do not depend on the order of their steps).
pub fn law_programs_run_one_way()
    ensures some { ProgramsRunSomehow }
    ensures one { ProgramsRunOneWay }
{}
