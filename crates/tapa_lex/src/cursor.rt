//! A position of the lexer in a text.

ghost use Rattle.std.specs.Prelude.{◌≡◌, ◌+◌, ◌<◌, ◌≤◌, ◌^◌, ◌++◌, ◌&&◌, [], ◌∷◌, length};
ghost use Rattle.tapa_base.specs.Gaps.{Bytes};
ghost use Rattle.tapa_lex.specs.Standing.{IsBehind};

use tapa_base::Place;
use tapa_syntax::is_blank;

/// An index of a text, its place, and whether only blanks are before it in its line.
#[derive(Clone, Copy)]
pub struct Cursor {
    pub at: u32,
    pub place: Place,
    pub opens: bool,
}

impl Cursor {
    /// Before the first byte of a text.
    pub fn start() -> Self
        ensures { IsBehind [] result }
    {
        Cursor {
            at: 0,
            place: Place { line: 1, col: 1 },
            opens: true,
        }
    }

    /// The position one byte later, where that byte is `b`.
    fn past(self, b: u8) -> Self
        requires at { self.at + 1 < 2 ^ 32 }
        requires line { self.place.line + 1 < 2 ^ 32 }
        requires col { self.place.col + 1 < 2 ^ 32 }
        ensures behind { (before : Bytes) → IsBehind before self → IsBehind (before ++ b ∷ []) result }
        ensures next_at { result.at ≤ self.at + 1 }
        ensures next_line { result.place.line ≤ self.place.line + 1 }
        ensures next_col { result.place.col ≤ self.place.col + 1 }
    {
        let Cursor { at, place, opens } = self;
        if b == b'\n' {
            let place = Place {
                line: place.line + 1,
                col: 1,
            };
            Cursor {
                at: at + 1,
                place,
                opens: true,
            }
        } else {
            let place = Place {
                line: place.line,
                col: place.col + 1,
            };
            let opens = both(opens, is_blank(b));
            Cursor {
                at: at + 1,
                place,
                opens,
            }
        }
    }

    /// The cursor after these bytes.
    pub fn past_all(self, bytes: &[u8]) -> Self
        requires at { self.at + length bytes.now < 2 ^ 32 }
        requires line { self.place.line + length bytes.now < 2 ^ 32 }
        requires col { self.place.col + length bytes.now < 2 ^ 32 }
        ensures { (before : Bytes) → IsBehind before self → IsBehind (before ++ bytes.now) result }
    {
        let mut cursor = self;
        for b in bytes {
            cursor = cursor.past(*b);
        }
        cursor
    }
}

fn both(a: bool, b: bool) -> bool
    ensures { result ≡ (a && b) }
{
    a && b
}
