// The items of the words of a command: positionals, and options with their values.
ghost use Rattle.std.specs.Prelude.{◌≡◌, map, Some, option_map};
ghost use Rattle.std.specs.List.{list_any};
ghost use Rattle.tapa_words.specs.Words.{texts, is_option, option_kind, is_named, is_each_once, positionals, value_of};
ghost use Rattle.tapa_words.specs.Reading.{step_of, option_step, name_in, value_in, items_of};
ghost use Rattle.tapa_words.specs.Meaning.{item, next, step, WordsAnswer};

use crate::command::WordsFault;
use crate::verb::{OptionKind, Verb};
use std::alloc::Global;

// What the words after the command's name are.
#[derive(Clone, Copy)]
pub(crate) enum Item<'a> {
    Positional(&'a str),
    /// An option, and its value, which is empty where it has none.
    Valued(&'a str, &'a str),
}

// What the next word may be.
#[derive(Clone, Copy)]
enum Next<'a> {
    AnyWord,
    /// The value of this option.
    ValueOf(&'a str),
    OnlyPositionals,
}

// What a word says.
#[derive(Clone, Copy)]
enum Step<'a> {
    Gives(Item<'a>, Next<'a>),
    Moves(Next<'a>),
    Breaks,
}

// Whether a word is an option.
fn is_an_option(word: &str) -> bool
    ensures { result ≡ is_option word.now }
{
    let bytes = word.as_bytes();
    bytes.len() > 1 && bytes[0] == b'-'
}

// The part before the first `=`, and the part after it.
fn cut(word: &str) -> (&str, Option<&str>)
    ensures name { result.0.now ≡ name_in word.now }
    ensures value { option_map (λ text. text.now) result.1 ≡ value_in word.now }
{
    match word.split_once('=') {
        Some((name, value)) => (name, Some(value)),
        None => (word, None),
    }
}

// An option of this name that has a value, and its value in its word.
fn take_valued<'a>(name: &'a str, value: Option<&'a str>) -> Step<'a>
    ensures { step result ≡ option_step (Some OptionKind.Valued) name.now (option_map (λ text. text.now) value.entry) }
{
    match value {
        None => Step::Moves(Next::ValueOf(name)),
        Some(value) => {
            if value.is_empty() {
                Step::Breaks
            } else {
                Step::Gives(Item::Valued(name, value), Next::AnyWord)
            }
        }
    }
}

// An option of this name, which the command has or has not, and its value in its word.
fn take_option<'a>(kind: Option<OptionKind>, name: &'a str, value: Option<&'a str>) -> Step<'a>
    ensures { step result ≡ option_step kind name.now (option_map (λ text. text.now) value.entry) }
{
    match kind {
        None => Step::Breaks,
        Some(OptionKind::Valued) => take_valued(name, value),
        Some(OptionKind::Bare) => match value {
            None => Step::Gives(Item::Valued(name, ""), Next::AnyWord),
            Some(_) => Step::Breaks,
        },
    }
}

// An option before `--`.
fn read_option(verb: Verb, word: &str) -> Step<'_>
    ensures { step result ≡ option_step (option_kind verb (name_in word.now)) (name_in word.now) (value_in word.now) }
{
    let (name, value) = cut(word);
    take_option(verb.option(name), name, value)
}

// A word, by what it may be.
fn read_word<'a>(verb: Verb, expected: Next<'a>, word: &'a str) -> Step<'a>
    ensures { step result ≡ step_of verb (next expected.entry) word.now }
{
    match expected {
        Next::AnyWord => {
            if word == "--" {
                Step::Moves(Next::OnlyPositionals)
            } else if is_an_option(word) {
                read_option(verb, word)
            } else {
                Step::Gives(Item::Positional(word), Next::AnyWord)
            }
        }
        Next::ValueOf(name) => {
            if is_an_option(word) {
                Step::Breaks
            } else {
                Step::Gives(Item::Valued(name, word), Next::AnyWord)
            }
        }
        Next::OnlyPositionals => Step::Gives(Item::Positional(word), Next::OnlyPositionals),
    }
}

/// The items of the words after the command's name.
pub(crate) fn read_items<'a>(
    alloc: Global,
    verb: Verb,
    words: &'a [String],
) -> Result<Vec<Item<'a>>, WordsFault>
    ensures { WordsAnswer (λ items. map item items.items) result (items_of verb (texts words.now)) }
{
    let mut items = Vec::new(alloc);
    let mut expected = Next::AnyWord;
    for word in words {
        match read_word(verb, expected, word.as_str()) {
            Step::Gives(given, later) => {
                if items.push(given).is_err() {
                    return Err(WordsFault::OutOfMemory);
                }
                expected = later;
            }
            Step::Moves(later) => expected = later,
            Step::Breaks => return Err(WordsFault::Usage),
        }
    }
    match expected {
        Next::ValueOf(_) => Err(WordsFault::Usage),
        _ => Ok(items),
    }
}

/// The positionals among the items.
pub(crate) fn positional_words<'a>(
    alloc: Global,
    items: &[Item<'a>],
) -> Result<Vec<&'a str>, WordsFault>
    ensures { WordsAnswer (λ words. map (λ word. word.now) words.items) result (Some (positionals (map item items.now))) }
{
    let mut words = Vec::new(alloc);
    for given in items {
        if let Item::Positional(word) = *given {
            if words.push(word).is_err() {
                return Err(WordsFault::OutOfMemory);
            }
        }
    }
    Ok(words)
}

impl<'a> Item<'a> {
    // Whether it is the option of this name.
    fn is_called(self, name: &str) -> bool
        ensures { result ≡ is_named name.now (item self.entry) }
    {
        match self {
            Item::Positional(_) => false,
            Item::Valued(other, _) => other == name,
        }
    }
}

// Whether the option of a name is among the items.
fn is_given(name: &str, items: &[Item]) -> bool
    ensures { result ≡ list_any (is_named name.now) (map item items.now) }
{
    for given in items {
        if given.is_called(name) {
            return true;
        }
    }
    false
}

/// Whether each option is given at most once. Only options are compared, and a command has few, so the work is linear.
pub(crate) fn are_each_once(items: &[Item]) -> bool
    ensures { result ≡ is_each_once (map item items.now) }
{
    for (index, given) in items.iter().enumerate() {
        if let Item::Valued(name, _) = *given {
            if is_given(name, &items[index + 1..]) {
                return false;
            }
        }
    }
    true
}

/// The value of the option of a name.
pub(crate) fn value<'a>(name: &str, items: &[Item<'a>]) -> Option<&'a str>
    ensures { option_map (λ text. text.now) result ≡ value_of name.now (map item items.now) }
{
    for given in items {
        if let Item::Valued(other, text) = *given {
            if other == name {
                return Some(text);
            }
        }
    }
    None
}
