//! Words at the start of a text, and how far the text agrees with them.

ghost use Rattle.std.specs.Prelude.{◌≡◌, ◌++◌, ◌∷◌, [], IfOk, IfErr, MatchOption};
ghost use Rattle.vcd_text.specs.Along.{common, StopsBefore};

/// The number of bytes that a word and a text have in common at their start.
fn along(word: &[u8], text: &[u8]) -> usize
    ensures { result ≡ common word.now text.now }
{
    let mut at = 0;
    while at < word.len() && at < text.len() && word[at] == text[at] {
        at += 1;
    }
    at
}

/// What comes after a word at the start of a text, or the number of bytes left where the text departs from it.
pub(crate) fn expect<'a>(word: &[u8], text: &'a [u8]) -> Result<&'a [u8], usize>
    ensures found { IfOk result (λ rest. text.now ≡ word.now ++ rest.now) }
    ensures stop { IfErr result (λ left. StopsBefore (λ w. w ≡ word.now) text.now left) }
{
    let count = along(word, text);
    if count == word.len() {
        Ok(&text[count..])
    } else {
        Err(text.len() - count)
    }
}

/// The first byte of a text, and what comes after it.
pub(crate) fn next_byte(text: &[u8]) -> Option<(u8, &[u8])>
    ensures { MatchOption result (text.now ≡ []) (λ p. text.now ≡ p.0 ∷ p.1.now) }
{
    match text.split_first() {
        Some((byte, rest)) => Some((*byte, rest)),
        None => None,
    }
}
