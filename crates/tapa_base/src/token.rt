/// Tokens, the elements of a stream. A token is a datum, which is the bits of a value of the stream's kind, or the end of a transaction (EoT), as `write` and `close` of the TAPA language send them.
#[derive(Clone, Copy, PartialEq, Eq, Debug)]
pub enum Token {
    Datum(u64),
    Eot,
}
