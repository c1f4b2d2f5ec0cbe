// The nets of a task's module.

/// What is chosen among the states. Each choice is a row of nets.
#[derive(Clone, Copy)]
pub enum Choice {
    /// The next state.
    ToState,
    /// Whether End is made.
    ToEnd,
    /// Whether a register gets its first value again.
    Clear(u32),
    /// Whether a register gets another value.
    Set(u32),
    /// The value that a register gets.
    NextValue(u32),
    /// Whether an array gets a value.
    Stores(u32),
    /// The index of an array's write.
    WriteIndex(u32),
    /// The value of an array's write.
    WriteData(u32),
    /// Whether an array is read by a read's number.
    Reads(u32, u32),
    /// The index of an array's read, by the read's number.
    ArrayIndex(u32, u32),
    /// Whether a token is written.
    Puts(u32),
    /// The token that is written to a stream.
    Token(u32),
    /// Whether a token is taken.
    Takes(u32),
    /// The address that a memory is asked for.
    Address(u32),
    /// Whether a memory stores.
    StoreEnable(u32),
    /// The value that a memory stores.
    Data(u32),
}

/// A net. Ports, registers and arrays have their positions, other nets the number of their state first.
#[derive(Clone, Copy)]
pub enum Net {
    /// The number of the state.
    State,
    /// Whether End is made.
    Ended,
    /// The port that says whether End is made.
    Done,
    /// The value of a scalar parameter, by its position.
    Scalar(u32),
    /// A register.
    Variable(u32),
    /// An array.
    Array(u32),
    /// A stream that is read: whether a token is there.
    Has(u32),
    /// The token at the head of a stream that is read.
    Dout(u32),
    /// Whether the token at the head of a stream is taken.
    Taken(u32),
    /// The token that is written to a stream.
    Din(u32),
    /// Whether a token is written to a stream.
    Wr(u32),
    /// Whether a stream that is written has room.
    Rdy(u32),
    /// A memory: whether it answers.
    Ack(u32),
    /// The cell that a memory shows.
    Rdata(u32),
    /// The address that a memory is asked for.
    Addr(u32),
    /// The value that a memory is given to store.
    Wdata(u32),
    /// Whether a memory is to store.
    We(u32),
    /// Whether a token, if there is one, is a datum.
    Plain(u32),
    /// Whether there is a datum.
    Datum(u32),
    /// Whether there is an end of a transaction.
    Eot(u32),
    /// Whether the machine is in a state.
    At(u32),
    /// Whether the machine is in a state and makes its tick.
    Go(u32),
    /// Whether the index of a cell that a state writes is one of its array.
    Inside(u32),
    /// Whether a state writes a cell of its array.
    Into(u32),
    /// The token of a datum that a state writes.
    Packed(u32),
    /// Whether a register gets its first value: at reset, or by a state.
    Reset(u32),
    /// Where a state leads.
    Next(u32),
    /// The operators of a state's value, in order.
    Value(u32, u32),
    /// The operators of a state's index, in order.
    Index(u32, u32),
    /// The operators of the index of a state's read, by the read's number.
    ReadIndex(u32, u32, u32),
    /// Whether that index is one of its array.
    ReadInside(u32, u32),
    /// Whether a state's read reads a cell of its array.
    ReadOn(u32, u32),
    /// By the number of a read and its array: the cell at the index.
    Raw(u32, u32),
    /// What a state's read gives: the cell, or 0 past the end.
    Answer(u32, u32),
    /// A net of a choice, by its number in the row.
    Node(Choice, u32),
}
