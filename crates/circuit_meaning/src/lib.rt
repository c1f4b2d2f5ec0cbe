//! What a circuit of a program means, independent of any generator: its ports, its clock, what it carries and requests, and what follows from that.
#![tactic(auto)]
