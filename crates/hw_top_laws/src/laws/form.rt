// Laws on the form of the top of a circuit.

ghost use Rattle.hw_top_laws.specs.form.Form.{TopsAreFitting, TopsAreModules, TopsAreRight};

/// The elements of the top fit one after another beside the modules of the channels and of the leaf tasks: each port of an
/// instance is connected once, to a net of its width, and each `InstanceWire` is driven once. So the top breaks no rule on names, widths
/// and drivers, and it has the form of a module.
pub fn law_top_is_right()
    ensures fitting { TopsAreFitting }
    ensures right { TopsAreRight }
    ensures form { TopsAreModules }
{}
