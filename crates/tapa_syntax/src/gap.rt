// Bytes of gaps: blanks and comments.

ghost use Rattle.std.specs.Prelude.{◌≡◌, ◌≤◌, length, slice_index, IfSome};
ghost use Rattle.tapa_base.specs.Gaps as gaps;
ghost use Rattle.tapa_syntax.specs.Comments as comments;

/// Whether a byte is a blank, a tab, a return or a line feed.
pub fn is_blank(b: u8) -> bool
    ensures { result ≡ gaps.is_blank b }
{
    b == b' ' || b == b'\t' || b == b'\r' || b == b'\n'
}

/// The byte at an index, and 0 past the end.
pub fn byte(text: &[u8], at: usize) -> u8
    ensures { result ≡ slice_index text.now at }
{
    match text.get(at) {
        Some(b) => *b,
        None => 0,
    }
}

/// The number of bytes through the first `*/`, which ends a comment (ISO C++ [lex.comment], IEEE 1364-2005, 3.3). None
/// comes where there is none.
#[tactic(auto, unfolding(crate::specs::Comments::closing))]
pub fn closing(text: &[u8]) -> Option<usize>
    ensures value { result ≡ comments.closing text.now }
    ensures within { IfSome result (λ n. n ≤ length text.now) }
{
    let mut passed = 0;
    let mut rest = text;
    while let [b, after @ ..] = rest {
        if *b == b'*' && byte(after, 0) == b'/' {
            return Some(passed + 2);
        }
        rest = after;
        passed += 1;
    }
    None
}
