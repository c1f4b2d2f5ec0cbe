//! The laws of circuits in a run: the contracts of functions that do nothing.

ghost use Rattle.hw_top_laws.specs.runs.Designs.{CircuitsAreDesigns, CircuitsAreDesignsBeside};

/// In every run of a program's circuit, in each environment that fits it and from any contents after power-up, the module of each instance runs the instance's
/// machine on the environment's scalars and cells, and each stream has its channel. The same holds with memories that show a cell in the cycles in which they
/// answer and nothing is stored, and any number of their width in others.
pub fn law_circuits_are_designs()
    ensures run { CircuitsAreDesigns }
    ensures beside { CircuitsAreDesignsBeside }
{}
