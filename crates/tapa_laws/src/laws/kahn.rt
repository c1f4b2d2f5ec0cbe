// What the streams of a network are among all that its tasks could carry: the contract of a function that does nothing.
ghost use Rattle.tapa_laws.specs.kahn.LeastSolution.{StreamsAreTheLeastSolution};

/// The streams that grow by rounds from empty ones solve the equations of the tasks, each stream being what its task writes on
/// what its own streams carry, and they are within every other solution (Kahn, The semantics of a simple language for parallel
/// programming, 1974).
pub fn law_streams_are_the_least_solution()
    ensures { StreamsAreTheLeastSolution }
{}
