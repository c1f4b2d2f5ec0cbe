//! The text that is written.

ghost use Rattle.std.specs.Prelude.{◌≤◌, length};

use itoa::Buffer;
use std::alloc::{AllocError, Global};
use tapa_parse_expression::text_of;
use tapa_syntax::Lexeme;

/// The most bytes that a text has when it is written out.
pub(crate) const MOST: usize = 4_194_304;

/// The text so far, while it isn't too long; and whether a word of the form that is written is there already.
#[derive(Drop)]
pub(crate) struct Writer {
    bytes: Vec<u8>,
    is_over: bool,
    begun: bool,
    ghost within: { length bytes.items ≤ 4194304 },
}

impl Writer {
    ghost use Rattle.std.specs.Prelude.{◌≡◌, [], Some, false, OnOk, option_map};
    ghost use Rattle.std.specs.List.{filter};
    ghost use Rattle.stream_arrays.specs.Words as words;
    ghost use Rattle.stream_arrays.specs.Writing as spec;
    ghost use Rattle.stream_arrays.specs.Writing.{writing};

    pub(crate) fn new(alloc: Global) -> Self
        ensures { writing result ≡ record { text = Some []; begun = false } }
    {
        Writer {
            bytes: Vec::new(alloc),
            is_over: false,
            begun: false,
        }
    }

    /// Appends bytes to the text so far. Past the limit nothing is kept any more.
    pub(crate) fn put(&mut self, bytes: &[u8]) -> Result<(), AllocError>
        ensures { OnOk result (writing self.new ≡ spec.put (writing self.old) bytes.now) }
    {
        if self.is_over {
            return Ok(());
        }
        match self.bytes.len().checked_add(bytes.len()) {
            Some(total) if total <= MOST => self.bytes.extend_from_slice(bytes),
            _ => {
                self.is_over = true;
                Ok(())
            }
        }
    }

    /// Whether the text is too long already, so that further words of the form change nothing.
    pub(crate) fn is_full(&self) -> bool
        ensures { result ≡ spec.is_full (writing self.now) }
    {
        self.is_over && self.begun
    }

    /// A form begins, so the next word has no space before it.
    pub(crate) fn begin(&mut self)
        ensures { writing self.new ≡ spec.begin (writing self.old) }
    {
        self.begun = false;
    }

    /// The space before a word, where one is due.
    fn space(&mut self) -> Result<(), AllocError>
        ensures { OnOk result (writing self.new ≡ spec.said_word (writing self.old) []) }
    {
        if self.begun {
            self.put(b" ")?;
        }
        self.begun = true;
        Ok(())
    }

    /// The next word of a form.
    pub(crate) fn word(&mut self, word: &[u8]) -> Result<(), AllocError>
        ensures { OnOk result (writing self.new ≡ spec.said_word (writing self.old) word.now) }
    {
        self.space()?;
        self.put(word)
    }

    /// The name of an element of an array as the next word.
    pub(crate) fn element(&mut self, array: &[u8], index: u64) -> Result<(), AllocError>
        ensures { OnOk result (writing self.new ≡ spec.said_word (writing self.old) (words.element_name array.now index)) }
    {
        let mut buffer = Buffer::new();
        self.word(array)?;
        self.put(b"_")?;
        self.put(buffer.format(index).as_bytes())
    }

    /// The words of lexemes.
    pub(crate) fn words(&mut self, text: &[u8], lexemes: &[Lexeme]) -> Result<(), AllocError>
        ensures { OnOk result (writing self.new ≡ spec.said (writing self.old) (words.words_of text.now lexemes.now)) }
    {
        for lexeme in lexemes {
            self.word(text_of(text, lexeme))?;
        }
        Ok(())
    }

    /// The line feeds among bytes.
    pub(crate) fn line_feeds(&mut self, bytes: &[u8]) -> Result<(), AllocError>
        ensures { OnOk result (writing self.new ≡ spec.put (writing self.old) (filter words.is_line_feed bytes.now)) }
    {
        for byte in bytes {
            if *byte == b'\n' {
                self.put(b"\n")?;
            }
        }
        Ok(())
    }

    /// The text, or nothing where it is too long.
    pub(crate) fn finish(self) -> Option<Vec<u8>>
        ensures { option_map (λ v. v.items) result ≡ (writing self).text }
    {
        let Writer { bytes, is_over, .. } = self;
        if is_over { None } else { Some(bytes) }
    }
}
