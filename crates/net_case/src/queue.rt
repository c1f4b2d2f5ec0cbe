// The tokens of a stream that wait to be taken.
ghost use Rattle.std.specs.Prelude.{◌≤◌, length};

use tapa_base::Token;

/// The tokens of a stream that were written and not taken, from an index of a list on.
#[derive(Drop)]
pub struct Queue {
    pub tokens: Vec<Token>,
    pub head: usize,
    ghost within: { head ≤ length tokens.items },
}
