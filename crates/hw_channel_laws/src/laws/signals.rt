// The channel by its equations: a FIFO, a relay of registers before it, and the contract that the two meet.

ghost use Rattle.hw_channel_laws.specs.signals.Channel.{PlainLaw, ChannelLaw, RoomLaw, ExistsLaw};
ghost use Rattle.hw_channel_laws.specs.signals.Fifo.{FifoLaw};
ghost use Rattle.hw_channel_laws.specs.signals.Printed.{BitsLaw, TestLaw, NextPlaceLaw, StoreLaw};
ghost use Rattle.hw_channel_laws.specs.signals.Relay.{RelayLaw};

/// A FIFO that is never written while it is full keeps its tokens in order, and says rightly whether it is ready.
pub fn law_fifo()
    ensures { FifoLaw }
{}

/// Each net of a relay of n steps is its source n cycles ago: its data where a token was put in, the others in every cycle.
pub fn law_relay()
    ensures { RelayLaw }
{}

/// A FIFO that asks before it is written meets the channel contract without added latency.
pub fn law_plain()
    ensures { PlainLaw }
{}

/// A relay and a FIFO meet the channel contract for each depth and added latency.
pub fn law_channel()
    ensures { ChannelLaw }
{}

/// The FIFO after a relay never overflows, though it never refuses a token.
pub fn law_room()
    ensures { RoomLaw }
{}

/// Operators on nets of one bit are tests for 1.
pub fn law_bits()
    ensures { BitsLaw }
{}

/// A test for 1 of the bit of a test is that test.
pub fn law_test()
    ensures { TestLaw }
{}

/// Each printed line for the index after another gives that index.
pub fn law_next_place()
    ensures { NextPlaceLaw }
{}

/// A store past the end changes none of the cells.
pub fn law_store()
    ensures { StoreLaw }
{}

/// There is a channel for every producer and consumer, so the laws speak of something.
pub fn law_exists()
    ensures { ExistsLaw }
{}
