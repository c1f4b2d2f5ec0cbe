// What is known of a design beside memories that answer by its outputs: the contracts of functions that do nothing.
ghost use Rattle.tapa_laws.specs.circuits.Circuits.{CircuitsRunByRules};
ghost use Rattle.tapa_laws.specs.circuits.Given.{CircuitsGive, PlannedCircuitsGive};
ghost use Rattle.tapa_laws.specs.circuits.Reactive.{OneReactiveRun, SameCycleIsCausal, SameCycleNumbersAreCausal};

/// A design in which no output depends on an input within a cycle has exactly one run from each contents after power-up, with memories that answer by any
/// function of the outputs up to and in the same cycle. In which cycles they show the cell may be any such function, too. A block RAM that answers an address
/// in the cycle of the request is such a memory.
pub fn law_one_reactive_run()
    ensures { OneReactiveRun }
{}

/// Answers that are a function of the outputs in the same cycle are such, and so are the numbers that a memory shows else. So are the cycles in which it shows
/// the cell.
pub fn law_same_cycle_is_causal()
    ensures answers { SameCycleIsCausal }
    ensures others { SameCycleNumbersAreCausal }
{}

/// The circuit of a program has exactly one run beside memories that so answer, none of them in reset, and carries the program's streams
/// in it. Each memory shows the cell that is asked for in the cycles in which it answers and nothing is stored, and any numbers of its width in the
/// others.
pub fn law_circuits_run_beside_reactive_memories()
    ensures { CircuitsRunByRules }
{}

/// For every source, each text that `build` writes of it, without a device or for one, gives the source's program (`Gives`) in each run of the design that
/// the text spells: each stream carries a prefix of its Kahn stream, and all of it once `done` is raised. The run is from any contents at power-up, in any
/// environment that fits the top (`RunsIn`), or next to memories that answer whenever they like (`RunsBeside`).
pub fn law_built_circuits_give_their_program()
    ensures circuits { CircuitsGive }
    ensures plans { PlannedCircuitsGive }
{}
