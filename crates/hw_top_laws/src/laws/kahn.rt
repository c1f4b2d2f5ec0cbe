//! The laws of what circuits carry: the contracts of functions that do nothing.

ghost use Rattle.hw_top_laws.specs.kahn.Carries.{CircuitsCarryStreams, CircuitsCarryBeside};
ghost use Rattle.circuit_meaning.specs.Excluded.{StandingStill, DoneBeforeAnEnd, DoneBeforeTheWhole, DoneTooLate, OtherTokens};
ghost use Rattle.circuit_meaning.specs.Gives.{CarryingGives, SteadyMemoriesAnswer};
ghost use Rattle.hw_top_laws.specs.kahn.Excluded.{ReadyTooLong};

/// For every run of a program's circuit, in any environment that fits it, from any power-up contents and with any added latencies, the circuit carries
/// the program's streams in each cycle (`Carries`): the streams, cells, requests and `done` of the timed counts. The same holds with memories that show
/// a cell in the cycles in which they answer and nothing is stored, and any number of their width in the others, whenever they answer.
pub fn law_circuits_carry_streams()
    ensures run { CircuitsCarryStreams }
    ensures beside { CircuitsCarryBeside }
{}

/// A circuit that carries a program's streams does not raise `done` before a joined instance has ended or before a stream of a joined producer has
/// carried its whole Kahn stream, and carries no other token. If a run of the program ends and all memories answer in all but finitely many cycles, it
/// leaves no stream empty of which the run shows a token, and raises `done` by the stated bound. A channel that meets its contract is not ready while it
/// holds all the tokens that it has room for.
pub fn law_carrying_excludes()
    ensures still { StandingStill }
    ensures end { DoneBeforeAnEnd }
    ensures whole { DoneBeforeTheWhole }
    ensures late { DoneTooLate }
    ensures other { OtherTokens }
    ensures ready { ReadyTooLong }
{}

/// If a circuit carries a program's streams (`Carries`), each stream has carried a prefix of its Kahn stream in every cycle. Once `done` is raised, the
/// stream of a joined producer has carried all of it (Kahn 1974), the memory of a joined instance has the cells of every end, and `done` stays raised.
/// Requests stay until they are answered. If a run of the program ends and memories answer in time, `done` is raised by a stated cycle. Memories that
/// answer within M cycles what stays on their ports answer each request within M cycles.
pub fn law_carrying_gives()
    ensures gives { CarryingGives }
    ensures steady { SteadyMemoriesAnswer }
{}
