// The laws by their subject.

mod modules;
mod signals;

pub use modules::{law_channels_act, law_modules_are_clear, law_names_tell_modules};
pub use signals::{
    law_bits, law_channel, law_exists, law_fifo, law_next_place, law_plain, law_relay, law_room,
    law_store, law_test,
};
