// The lexemes of a source: words, integer literals, strings and punctuation, each with its bytes, line and column.
use tapa_base::{Kind, Place};

/// The sort of a lexeme.
#[derive(Clone, Copy, PartialEq, Eq, Debug)]
pub enum LexKind {
    /// A name or a reserved word, as its text says.
    Word,
    /// An integer literal with its kind by ISO C++ [lex.icon] and its value, which is one of that kind.
    Literal { kind: Kind, value: u64 },
    /// A string with its quotes.
    Str,
    /// Punctuation, as its text says.
    Punct,
}

/// A lexeme of a source: its sort, its slice of the source in bytes, and the line and column of its first byte.
#[derive(Clone, Copy, PartialEq, Eq, Debug)]
pub struct Lexeme {
    pub kind: LexKind,
    pub from: u32,
    pub to: u32,
    pub place: Place,
}
