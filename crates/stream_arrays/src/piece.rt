// The pieces of a counted invoke: words and commas, and elements of stream arrays by the number of the invoke or by an index.
use tapa_syntax::Lexeme;

/// One word of a counted invoke, as it is in each of the invokes that it is written out to.
#[derive(Clone, Copy, PartialEq, Eq, Debug)]
pub(crate) enum Piece {
    /// A word that is copied.
    Word(Lexeme),
    Comma,
    /// The element of this array that has the number of the invoke.
    Instance(Lexeme),
    /// The element of this array with this index.
    Element(Lexeme, u64),
}
