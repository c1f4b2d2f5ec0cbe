// Laws on dumps of designs.

ghost use Rattle.sim_output.specs.DumpLaws.{DesignsHaveOneDump, DesignsHaveADump, DumpsAreDumps, DumpsShowTheRun};

/// In an environment and up to a limit a design has exactly one dump. From power-up with 0 in every register and every cell, the first cycle in which it is
/// done is determined, or there is none up to the limit; and its nets have one value in each cycle up to there.
pub fn law_one_simulation_dump()
    ensures once { DesignsHaveOneDump }
    ensures some { DesignsHaveADump }
{}

/// The dump of a design in an environment that fits it is a value change dump of its top's nets (IEEE 1364-2005, clause 18). The values that it shows of a net are the numbers of that net in the run.
pub fn law_dumps_show_the_run()
    ensures dumps { DumpsAreDumps }
    ensures shown { DumpsShowTheRun }
{}
