//! Classes of bytes, and runs of them.

ghost use Rattle.std.specs.Prelude.{◌≡◌, ◌≤◌, ◌<◌, length};
ghost use Rattle.std.specs.Char.{digit_value};
ghost use Rattle.tapa_syntax.specs.Characters as characters;
ghost use Rattle.vlog_lex.specs.Numerals as numerals;
ghost use Rattle.vlog_tree.specs.Names as names;
ghost use Rattle.vlog_lex.specs.Reading.{is_in};

/// A class of bytes.
#[derive(Clone, Copy)]
pub enum Class {
    /// The bytes that can follow the first one in a name: letters, digits, `_` and `$`.
    Name,
    /// All but the line feed.
    InLine,
    /// The digits of a base up to 16, in either letter case.
    DigitOf(u32),
}

impl Class {
    /// Whether a byte is of the class.
    pub fn has(self, b: u8) -> bool
        ensures { result ≡ is_in self b }
    {
        match self {
            Class::Name => goes_on(b),
            Class::InLine => b != b'\n',
            Class::DigitOf(base) => worth(b) < base,
        }
    }
}

/// A letter or `_`.
#[tactic(auto, unfolding(vlog_tree::specs::Names::starts_name))]
pub fn starts_name(b: u8) -> bool
    ensures { result ≡ names.starts_name b }
{
    b'a' <= b && b <= b'z' || b'A' <= b && b <= b'Z' || b == b'_'
}

#[tactic(auto, unfolding(vlog_tree::specs::Names::goes_on))]
fn goes_on(b: u8) -> bool
    ensures { result ≡ names.goes_on b }
{
    starts_name(b) || b'0' <= b && b <= b'9' || b == b'$'
}

/// What a digit or a letter is worth, from 0 for `0` to 35 for `Z` and `z`, and 36 where it is neither.
pub fn worth(b: u8) -> u32
    ensures value { result ≡ digit_value b }
    ensures least { result ≤ 36 }
{
    if b < b'0' {
        36
    } else if b <= b'9' {
        u32::from(b - b'0')
    } else if b < b'A' {
        36
    } else if b <= b'Z' {
        u32::from(b - b'A') + 10
    } else if b < b'a' {
        36
    } else if b <= b'z' {
        u32::from(b - b'a') + 10
    } else {
        36
    }
}

/// The base that a letter of a literal denotes, and 0 where it denotes none.
pub fn base_of(letter: u8) -> u32
    ensures value { result ≡ numerals.base_of letter }
    ensures most { result ≤ 16 }
{
    match letter {
        b'd' => 10,
        b'h' => 16,
        b'b' => 2,
        _ => 0,
    }
}

/// The number of bytes of a class at the start of a text.
#[tactic(auto, unfolding(tapa_syntax::specs::Characters::run))]
pub fn run(class: Class, text: &[u8]) -> usize
    ensures value { result ≡ characters.run (is_in class) text.now }
    ensures within { result ≤ length text.now }
{
    let mut passed = 0;
    for b in text {
        if !class.has(*b) {
            return passed;
        }
        passed += 1;
    }
    passed
}
