// Words that must come as they are.

ghost use Rattle.std.specs.Prelude.{◌≡◌};
ghost use Rattle.vlog_lex.specs.Coming as spec;

/// The words that must come before the next one that is chosen, each as it is: the rest of a production that has no choice.
#[derive(Clone, Copy)]
pub enum Coming {
    Nothing,
    Semicolon,
    LeftParen,
    ParenDot,
    Dot,
    RightParen,
    RangeEnd,
    ZeroBracket,
    RightBracket,
    ZeroColon,
    Colon,
    BracketSemicolon,
    BracketArrow,
    Arrow,
    Equals,
    LeftBrace,
    BracesEnd,
    BraceEnd,
    Clocked,
    ClockedParen,
    ClockedEdge,
    ClockedName,
    ParenBegin,
    Begin,
}

impl Coming {
    /// Whether no word must come.
    pub fn is_nothing(self) -> bool
        ensures { result ≡ spec.is_nothing self }
    {
        match self {
            Coming::Nothing => true,
            _ => false,
        }
    }

    /// The first of the words, and no bytes where none is to come.
    pub fn first(self) -> &'static [u8]
        ensures { result.now ≡ spec.first_coming (spec.coming_words self) }
    {
        match self {
            Coming::Nothing => b"".as_slice(),
            Coming::Semicolon => b";".as_slice(),
            Coming::LeftParen | Coming::ParenDot | Coming::ClockedParen => b"(".as_slice(),
            Coming::Dot => b".".as_slice(),
            Coming::RightParen | Coming::ParenBegin => b")".as_slice(),
            Coming::RangeEnd | Coming::Colon => b":".as_slice(),
            Coming::ZeroBracket | Coming::ZeroColon => b"0".as_slice(),
            Coming::RightBracket | Coming::BracketSemicolon | Coming::BracketArrow => {
                b"]".as_slice()
            }
            Coming::Arrow => b"<=".as_slice(),
            Coming::Equals => b"=".as_slice(),
            Coming::LeftBrace => b"{".as_slice(),
            Coming::BracesEnd | Coming::BraceEnd => b"}".as_slice(),
            Coming::Clocked => b"@".as_slice(),
            Coming::ClockedEdge => b"posedge".as_slice(),
            Coming::ClockedName => b"clk".as_slice(),
            Coming::Begin => b"begin".as_slice(),
        }
    }

    /// What comes after the first of the words.
    pub fn rest(self) -> Coming
        ensures { result ≡ spec.rest_coming self }
    {
        match self {
            Coming::ParenDot => Coming::Dot,
            Coming::RangeEnd => Coming::ZeroBracket,
            Coming::ZeroBracket => Coming::RightBracket,
            Coming::ZeroColon => Coming::Colon,
            Coming::BracketSemicolon => Coming::Semicolon,
            Coming::BracketArrow => Coming::Arrow,
            Coming::BracesEnd => Coming::BraceEnd,
            Coming::BraceEnd => Coming::Semicolon,
            Coming::Clocked => Coming::ClockedParen,
            Coming::ClockedParen => Coming::ClockedEdge,
            Coming::ClockedEdge => Coming::ClockedName,
            Coming::ClockedName => Coming::ParenBegin,
            Coming::ParenBegin => Coming::Begin,
            _ => Coming::Nothing,
        }
    }
}
