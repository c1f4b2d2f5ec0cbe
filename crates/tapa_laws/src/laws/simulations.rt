// What a simulation of a Verilog text shows: the contracts of functions that do nothing.
ghost use Rattle.tapa_laws.specs.simulations.BuiltRuns.{CircuitTextsShowTheirProgram, CircuitsShowTheirProgram, PlannedCircuitsShowTheirProgram, LatencyChangesNoReport};
ghost use Rattle.tapa_laws.specs.simulations.DumpedRuns.{DumpsShowTheirRun};
ghost use Rattle.tapa_laws.specs.simulations.OneText.{TextsMeanOneThing, TextsMeanSomething, RefusedTextsHaveNoDesign};

use vlog_read::law_one_fault;

/// For every report of `cosim` on the text of a circuit, the stream lines are those of the timed counts on the data, by the latencies that the plan adds.
/// If the circuit is done, each stream of a joined producer shows its whole Kahn stream (Kahn 1974), and each memory of a joined instance the cells of
/// every end. It is done in time if a run within some bound ends. So added latency changes none of these streams and cells once both circuits are done.
pub fn law_circuits_show_their_program()
    ensures any { CircuitTextsShowTheirProgram }
    ensures built { CircuitsShowTheirProgram }
    ensures planned { PlannedCircuitsShowTheirProgram }
    ensures latency { LatencyChangesNoReport }
{}

/// A Verilog text has at most one meaning with its data, and where it has a design to which they give an environment it has one;
/// where a rule refuses it, it has no design.
pub fn law_texts_mean_one_thing()
    ensures one { TextsMeanOneThing }
    ensures some { TextsMeanSomething }
    ensures refused { RefusedTextsHaveNoDesign }
{
    law_one_fault();
}

/// What `vcd` shows of a net of a dump that `cosim --vcd` wrote are the numbers of that net in the run of the text's design.
pub fn law_dumps_show_their_run()
    ensures { DumpsShowTheirRun }
{}
