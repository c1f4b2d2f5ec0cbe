// The names of nets.

ghost use Rattle.std.specs.Prelude.{◌≡◌, IfOk, codes};
ghost use Rattle.std.specs.Str.{IsAscii};
ghost use Rattle.hw_build.specs.Trees.{numbered as numbered_name};
ghost use Rattle.hw_lines.specs.declared.nets.Net.TheVariants.{Node};
ghost use Rattle.hw_lines.specs.Nets.{front as front_lem, name as name_lem, value_front as value_front_lem, index_front as index_front_lem, read_front as read_front_lem};

use hw_build::{numbered, text};
use hw_lines::{Choice, Net};
use std::alloc::{AllocError, Global};
use tapa_base::Text;

fn two_numbers(alloc: Global, word: &[u8], first: u32, second: u32) -> Result<Text, AllocError>
    requires { IsAscii word.now }
    ensures { IfOk result (λ t. t ≡ numbered_name (numbered_name word.now first) second) }
{
    let front = numbered(alloc, word, first)?;
    numbered(alloc, front.bytes(), second)
}

fn three_numbers(
    alloc: Global,
    word: &[u8],
    first: u32,
    second: u32,
    third: u32,
) -> Result<Text, AllocError>
    requires { IsAscii word.now }
    ensures { IfOk result (λ t. t ≡ numbered_name (numbered_name (numbered_name word.now first) second) third) }
{
    let front = two_numbers(alloc, word, first, second)?;
    numbered(alloc, front.bytes(), third)
}

/// The prefix of the names of a choice's nets.
#[tactic(auto, unfolding(hw_lines::specs::Nets::front))]
pub fn front(alloc: Global, choice: Choice) -> Result<Text, AllocError>
    ensures { IfOk result (λ t. t ≡ front_lem choice) }
{
    match choice {
        Choice::ToState => text(alloc, b"to"),
        Choice::ToEnd => text(alloc, b"last"),
        Choice::Clear(a) => numbered(alloc, b"zero", a),
        Choice::Set(a) => numbered(alloc, b"set", a),
        Choice::NextValue(a) => numbered(alloc, b"in", a),
        Choice::Stores(a) => numbered(alloc, b"store", a),
        Choice::WriteIndex(a) => numbered(alloc, b"place", a),
        Choice::WriteData(a) => numbered(alloc, b"content", a),
        Choice::Reads(a, b) => two_numbers(alloc, b"read", a, b),
        Choice::ArrayIndex(a, b) => two_numbers(alloc, b"spot", a, b),
        Choice::Puts(a) => numbered(alloc, b"put", a),
        Choice::Token(a) => numbered(alloc, b"token", a),
        Choice::Takes(a) => numbered(alloc, b"get", a),
        Choice::Address(a) => numbered(alloc, b"ask", a),
        Choice::StoreEnable(a) => numbered(alloc, b"save", a),
        Choice::Data(a) => numbered(alloc, b"data", a),
    }
}

// A net of a choice, by its number in the row.
#[tactic(auto, using(hw_lines::proofs::Spelled::nodes_numbered))]
fn node_name(alloc: Global, choice: Choice, node: u32) -> Result<Text, AllocError>
    ensures { IfOk result (λ t. t ≡ name_lem (Node choice node)) }
{
    let front = front(alloc, choice)?;
    numbered(alloc, front.bytes(), node)
}

/// The name of a net.
#[tactic(auto, unfolding(hw_lines::specs::Nets::name))]
pub fn name(alloc: Global, net: Net) -> Result<Text, AllocError>
    ensures { IfOk result (λ t. t ≡ name_lem net) }
{
    match net {
        Net::State => text(alloc, b"state"),
        Net::Ended => text(alloc, b"ended"),
        Net::Done => text(alloc, b"done"),
        Net::Scalar(a) => numbered(alloc, b"v", a),
        Net::Variable(a) => numbered(alloc, b"x", a),
        Net::Array(a) => numbered(alloc, b"a", a),
        Net::Has(a) => numbered(alloc, b"has", a),
        Net::Dout(a) => numbered(alloc, b"dout", a),
        Net::Taken(a) => numbered(alloc, b"take", a),
        Net::Din(a) => numbered(alloc, b"din", a),
        Net::Wr(a) => numbered(alloc, b"wr", a),
        Net::Rdy(a) => numbered(alloc, b"rdy", a),
        Net::Ack(a) => numbered(alloc, b"ack", a),
        Net::Rdata(a) => numbered(alloc, b"rdata", a),
        Net::Addr(a) => numbered(alloc, b"addr", a),
        Net::Wdata(a) => numbered(alloc, b"wdata", a),
        Net::We(a) => numbered(alloc, b"we", a),
        Net::Plain(a) => numbered(alloc, b"plain", a),
        Net::Datum(a) => numbered(alloc, b"datum", a),
        Net::Eot(a) => numbered(alloc, b"eot", a),
        Net::At(a) => numbered(alloc, b"at", a),
        Net::Go(a) => numbered(alloc, b"go", a),
        Net::Inside(a) => numbered(alloc, b"inside", a),
        Net::Into(a) => numbered(alloc, b"into", a),
        Net::Packed(a) => numbered(alloc, b"packed", a),
        Net::Reset(a) => numbered(alloc, b"reset", a),
        Net::Next(a) => numbered(alloc, b"next", a),
        Net::Value(a, b) => two_numbers(alloc, b"e", a, b),
        Net::Index(a, b) => two_numbers(alloc, b"i", a, b),
        Net::ReadIndex(a, b, c) => three_numbers(alloc, b"r", a, b, c),
        Net::ReadInside(a, b) => two_numbers(alloc, b"within", a, b),
        Net::ReadOn(a, b) => two_numbers(alloc, b"reads", a, b),
        Net::Raw(a, b) => two_numbers(alloc, b"raw", a, b),
        Net::Answer(a, b) => two_numbers(alloc, b"q", a, b),
        Net::Node(choice, node) => node_name(alloc, choice, node),
    }
}

/// The prefix of the names of the operators of a state's value.
#[tactic(auto, unfolding(hw_lines::specs::Nets::value_front))]
pub fn value_front(alloc: Global, state: u32) -> Result<Text, AllocError>
    ensures { IfOk result (λ t. t ≡ value_front_lem state) }
{
    numbered(alloc, b"e", state)
}

/// The prefix of the names of the operators of a state's index.
#[tactic(auto, unfolding(hw_lines::specs::Nets::index_front))]
pub fn index_front(alloc: Global, state: u32) -> Result<Text, AllocError>
    ensures { IfOk result (λ t. t ≡ index_front_lem state) }
{
    numbered(alloc, b"i", state)
}

/// The prefix of the names of the operators of the index of a state's read.
#[tactic(auto, unfolding(hw_lines::specs::Nets::read_front))]
pub fn read_front(alloc: Global, state: u32, read: u32) -> Result<Text, AllocError>
    ensures { IfOk result (λ t. t ≡ read_front_lem state read) }
{
    two_numbers(alloc, b"r", state, read)
}
