// Laws on the wires of expressions.

ghost use Rattle.hw_task_laws.specs.wires.Computes.{FixedIsValue, NumbersAreFixed, ShowsValue};
ghost use Rattle.hw_task_laws.specs.wires.Shows.{ShowsApplied, ShowsConverted};

/// A conversion's wires show the converted value, and an operator's what it gives.
pub fn law_operators()
    ensures conversions { ShowsConverted }
    ensures operators { ShowsApplied }
{}

/// The wires of an expression show its value.
pub fn law_expressions()
    ensures computed { FixedIsValue }
    ensures numbers { NumbersAreFixed }
    ensures shows { ShowsValue }
{}
