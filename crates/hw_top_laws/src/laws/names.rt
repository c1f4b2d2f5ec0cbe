// Laws on the names in the top of a circuit.

ghost use Rattle.hw_top_laws.specs.names.Names.{TopNamesAreOnce, TopNetsAreNamed};

/// No name is declared twice in the top of a circuit, and each is one: the parts of its program have distinct
/// labels, and numbers are below 2^64.
pub fn law_top_names()
    ensures once { TopNamesAreOnce }
    ensures named { TopNetsAreNamed }
{}
