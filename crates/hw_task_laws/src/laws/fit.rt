// Laws on the form of the wires of expressions.

ghost use Rattle.hw_task_laws.specs.fit.Built.{ExpressionsFit};

/// The wires of an expression fit after its registers and the answers of its reads, and the atom with its value has the
/// bits of its kind.
pub fn law_wires_fit()
    ensures { ExpressionsFit }
{}
