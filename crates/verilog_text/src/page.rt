// A text that grows by words.

ghost use Rattle.std.specs.Prelude.{◌≡◌, ◌++◌, ◌∷◌, ◌+◌, ◌-◌, [], OnOk, false, length, if◌then◌else◌};
ghost use Rattle.vlog_tree.specs.Spelling.{Page as PageTree, lay_word, indent, closes as closes_word, opens as opens_word, ends_line as ends_line_word};

use std::alloc::{AllocError, Global};
use std::marker::Model;

/// A text, of each module and block that is open whether it is a module, and whether a line has begun.
#[derive(Drop)]
pub struct Page {
    text: Vec<u8>,
    open: Vec<bool>,
    begun: bool,
}

impl Model for Page {
    ghost use Rattle.std.specs.Prelude.{length};
    ghost use Rattle.vlog_tree.specs.Spelling.{Page as PageTree};

    ghost Value = { PageTree };

    ghost view = { λ p. record { text = p.text.items; depth = length p.open.items; begun = p.begun } };
}

#[tactic(auto, unfolding(vlog_tree::specs::Spelling::closes))]
fn closes(word: &[u8]) -> bool
    ensures { result ≡ closes_word word.now }
{
    word == b"end".as_slice() || word == b"endmodule".as_slice()
}

#[tactic(auto, unfolding(vlog_tree::specs::Spelling::opens))]
fn opens(word: &[u8]) -> bool
    ensures { result ≡ opens_word word.now }
{
    word == b"begin".as_slice() || word == b"module".as_slice()
}

#[tactic(auto, unfolding(vlog_tree::specs::Spelling::ends_line))]
fn ends_line(word: &[u8]) -> bool
    ensures { result ≡ ends_line_word word.now }
{
    word == b";".as_slice()
        || word == b"begin".as_slice()
        || word == b"end".as_slice()
        || word == b"endmodule".as_slice()
}

// A part is closed by a word.
fn close(parts: &mut Vec<bool>, word: &[u8])
    ensures { length parts.new.items ≡ (if closes_word word.now then length parts.old.items - 1 else length parts.old.items) }
{
    if closes(word) {
        let _part = parts.pop();
    }
}

// A part is opened by a word.
fn open(parts: &mut Vec<bool>, word: &[u8]) -> Result<(), AllocError>
    ensures { OnOk result (length parts.new.items ≡ (if opens_word word.now then length parts.old.items + 1 else length parts.old.items)) }
{
    if opens(word) {
        parts.push(word == b"module".as_slice())?;
    }
    Ok(())
}

fn push_two(text: &mut Vec<u8>) -> Result<(), AllocError>
    ensures { OnOk result (text.new.items ≡ text.old.items ++ 32 ∷ 32 ∷ []) }
{
    text.push(b' ')?;
    text.push(b' ')?;
    Ok(())
}

#[tactic(auto, using(crate::proofs::Lists::indent_step))]
fn push_indent(text: &mut Vec<u8>, depth: usize) -> Result<(), AllocError>
    ensures { OnOk result (text.new.items ≡ text.old.items ++ indent depth) }
{
    let mut left = depth;
    while left > 0 {
        push_two(text)?;
        left -= 1;
    }
    Ok(())
}

impl Page {
    /// An empty page.
    pub fn new(alloc: Global) -> Page
        ensures { result ≡ record { text = []; depth = 0; begun = false } }
    {
        Page {
            text: Vec::new(alloc),
            open: Vec::new(alloc),
            begun: false,
        }
    }

    /// One word more.
    #[tactic(auto, unfolding(vlog_tree::specs::Spelling::lay_word))]
    pub fn word(&mut self, word: &[u8]) -> Result<(), AllocError>
        ensures { OnOk result (self.new ≡ lay_word self.old word.now) }
    {
        close(&mut self.open, word);
        push_front(&mut self.text, self.begun, self.open.len())?;
        let ended = ends_line(word);
        push_line(&mut self.text, word, ended)?;
        open(&mut self.open, word)?;
        self.begun = !ended;
        Ok(())
    }

    /// The text that was written on it.
    pub fn into_text(self) -> Vec<u8>
        ensures { result.items ≡ self.text }
    {
        self.text
    }
}

fn push_front(text: &mut Vec<u8>, begun: bool, depth: usize) -> Result<(), AllocError>
    ensures { OnOk result (text.new.items ≡ text.old.items ++ (if begun then 32 ∷ [] else indent depth)) }
{
    if begun {
        text.push(b' ')?;
        Ok(())
    } else {
        push_indent(text, depth)
    }
}

fn push_line(text: &mut Vec<u8>, word: &[u8], ended: bool) -> Result<(), AllocError>
    ensures { OnOk result (text.new.items ≡ text.old.items ++ (word.now ++ (if ended then 10 ∷ [] else []))) }
{
    text.extend_from_slice(word)?;
    if ended {
        text.push(b'\n')?;
    }
    Ok(())
}
