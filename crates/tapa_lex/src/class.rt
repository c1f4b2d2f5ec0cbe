//! Classes of bytes, and runs of them.

ghost use Rattle.std.specs.Prelude.{◌≡◌, ◌≤◌, length};
ghost use Rattle.tapa_syntax.specs.Characters as characters;
ghost use Rattle.tapa_syntax.specs.Literals as literals;
ghost use Rattle.tapa_lex.specs.Reading.{is_in};

use tapa_syntax::is_blank;

/// A class of bytes.
#[derive(Clone, Copy)]
pub enum Class {
    /// Letters, digits and `_`.
    Word,
    /// All but the line feed.
    InLine,
    /// Blanks that end no line.
    InnerBlank,
    /// A byte that may be between the quotes of a string.
    Plain,
    /// The digits of a base.
    DigitOf(u64),
}

impl Class {
    fn has(self, b: u8) -> bool
        ensures { result ≡ is_in self b }
    {
        match self {
            Class::Word => is_letter(b) || is_digit(b),
            Class::InLine => b != b'\n',
            Class::InnerBlank => is_blank(b) && b != b'\n',
            Class::Plain => b' ' <= b && b <= b'~' && b != b'"' && b != b'\\',
            Class::DigitOf(base) => worth(b) < base,
        }
    }
}

/// Whether a byte is a decimal digit.
pub fn is_digit(b: u8) -> bool
    ensures { result ≡ characters.is_digit b }
{
    b'0' <= b && b <= b'9'
}

/// Whether a byte may begin a name: a letter or `_`.
pub fn is_letter(b: u8) -> bool
    ensures { result ≡ characters.is_letter b }
{
    b'a' <= b && b <= b'z' || b'A' <= b && b <= b'Z' || b == b'_'
}

/// What a digit is worth, and 16 where it is none.
pub fn worth(b: u8) -> u64
    ensures { result ≡ literals.worth b }
{
    if is_digit(b) {
        u64::from(b - b'0')
    } else if b'a' <= b && b <= b'f' {
        u64::from(b - b'a') + 10
    } else if b'A' <= b && b <= b'F' {
        u64::from(b - b'A') + 10
    } else {
        16
    }
}

/// The number of leading bytes of a class.
#[tactic(auto, unfolding(tapa_syntax::specs::Characters::run))]
pub fn run(class: Class, text: &[u8]) -> usize
    ensures value { result ≡ characters.run (is_in class) text.now }
    ensures within { result ≤ length text.now }
{
    let mut passed = 0;
    for b in text {
        if !class.has(*b) {
            return passed;
        }
        passed += 1;
    }
    passed
}
