//! Laws of channels: a FIFO, and before it a relay of registers, one a cycle of added latency, act as a bounded stream; and their
//! modules are right.
#![tactic(auto)]

mod laws;

pub use laws::{
    law_bits, law_channel, law_channels_act, law_exists, law_fifo, law_modules_are_clear,
    law_names_tell_modules, law_next_place, law_plain, law_relay, law_room, law_store, law_test,
};
