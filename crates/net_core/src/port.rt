// A port, which is an instance's end of a stream: its tokens, the index of the next one, and the room for more.
ghost use Rattle.std.specs.Prelude.{◌+◌, ◌≤◌, length, vec_capacity};
ghost use Rattle.net_core.specs.Kinds.{AreTokensOf};

use tapa_base::Token;
use tapa_syntax::End;

/// One end of a stream: the tokens that wait to be read, or those that were written and the room for more.
#[derive(Drop)]
pub struct Port {
    pub end: End,
    pub tokens: Vec<Token>,
    pub head: usize,
    pub carried: Vec<Token>,
    pub room: usize,
    ghost within: { head ≤ length tokens.items },
    ghost spare: { length carried.items + room ≤ vec_capacity carried },
    ghost tokens_fit: { AreTokensOf end.kind tokens.items },
    ghost carried_fit: { AreTokensOf end.kind carried.items },
}
