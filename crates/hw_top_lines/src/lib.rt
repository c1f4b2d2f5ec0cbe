//! The top of a circuit by its lines: the ports, wires and instances that a program's parts are, the modules of its design, and of which programs there is a circuit.
#![tactic(auto)]
