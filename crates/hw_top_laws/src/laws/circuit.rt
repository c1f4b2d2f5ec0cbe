// Laws on what the circuit of a program does.

ghost use Rattle.hw_top_laws.specs.circuit.Circuit.{DesignsAreCircuits, DesignsCarryBeside, DesignsCarryStreams, DesignsRunPrograms};

/// The modules of a program's channels and leaf tasks with its top are a circuit of the program. For every run in an environment that fits it, from any
/// power-up contents, the module of each instance runs the instance's machine on the environment's scalars and cells, each stream has its channel, and
/// the circuit carries the program's streams (`Carries`). The same holds with memories that show a cell in the cycles in which they answer and nothing
/// is stored, and any number of their width in the others.
pub fn law_designs_carry_streams()
    ensures circuits { DesignsAreCircuits }
    ensures designs { DesignsRunPrograms }
    ensures streams { DesignsCarryStreams }
    ensures beside { DesignsCarryBeside }
{}
