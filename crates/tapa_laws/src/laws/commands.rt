// What commands come to by what their files give: the contracts of functions that do nothing.
ghost use Rattle.tapa_laws.specs.commands.KnownFiles.{KnownFilesDecideTheAnswer};
ghost use Rattle.tapa_laws.specs.commands.OneAnswer.{RunsMeanOneThing, SimulationsMeanOneThing, NetsMeanOneThing, PlansMeanOneThing, CircuitsMeanOneThing};

use vlog_read::law_one_fault;

/// By what its files give, `run`, `cosim` and `vcd` come to one answer at most, and so do `plan` and `build` but for the bytes of a text:
/// the lines of a plan name one of the flows that show a balance, and a circuit is one of those of its program.
pub fn law_commands_mean_one_thing()
    ensures run { RunsMeanOneThing }
    ensures cosim { SimulationsMeanOneThing }
    ensures vcd { NetsMeanOneThing }
    ensures plan { PlansMeanOneThing }
    ensures build { CircuitsMeanOneThing }
{
    law_one_fault();
}

/// If the contents of the files are known and no read and no write fails, a command with one meaning writes each answer that its files lead to in full, or memory runs out.
pub fn law_known_files_decide_the_answer()
    ensures { KnownFilesDecideTheAnswer }
{}
