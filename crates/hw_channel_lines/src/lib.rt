//! The modules of a stream by their names and lines: FIFOs, the relays of a long wire, and the channel that joins them.
#![tactic(auto)]
