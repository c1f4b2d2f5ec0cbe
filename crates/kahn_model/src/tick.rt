//! What a task does, one tick at a time.

ghost use Rattle.std.specs.Prelude.{◌≡◌, MatchOption};

use tapa_base::Token;

/// An act that waits for no token: a local step, a token put on a stream, a cell of a memory loaded, or stored with a
/// value.
#[derive(Clone, Copy, PartialEq, Eq, Debug)]
pub enum Action {
    Local,
    Put(u32, Token),
    Load(u32, u64),
    Store(u32, u64, u64),
}

/// A tick. A token leaves a stream by `Take`, and stays by `See`.
#[derive(Clone, Copy, PartialEq, Eq, Debug)]
pub enum Tick {
    Did(Action),
    Take(u32, Token),
    See(u32, Token),
    End,
}

/// Why the ticks end: the task has ended, a list is used up, the next token is none that the operation may have, or a
/// loop has made its tests.
#[derive(Clone, Copy, PartialEq, Eq, Debug)]
pub enum TraceEnd {
    Ended,
    Needs(u32),
    Bad(u32),
    Turns,
}

/// An operation that waits for a token. `Read` and `Open` take it, `Peek` and `TestEot` leave it; `Read` and `Peek` are for
/// data, `Open` is for the end of a transaction, and `TestEot` says which of them is next.
#[derive(Clone, Copy, PartialEq, Eq, Debug)]
pub enum StreamOperation {
    Read,
    Peek,
    TestEot,
    Open,
}

impl StreamOperation {
    ghost use Rattle.kahn_model.specs.Behavior.{WrongToken, Answer, judge_token, takes};

    /// The value that the operation gives for a token, and none for a token that it may not have.
    pub fn value_of(self, token: Token) -> Option<u64>
        ensures { MatchOption result (judge_token self token ≡ WrongToken) (λ v. judge_token self token ≡ Answer token v) }
    {
        match (self, token) {
            (StreamOperation::Read, Token::Datum(v)) => Some(v),
            (StreamOperation::Read, Token::Eot) => None,
            (StreamOperation::Peek, Token::Datum(v)) => Some(v),
            (StreamOperation::Peek, Token::Eot) => None,
            (StreamOperation::TestEot, Token::Datum(_)) => Some(0),
            (StreamOperation::TestEot, Token::Eot) => Some(1),
            (StreamOperation::Open, Token::Datum(_)) => None,
            (StreamOperation::Open, Token::Eot) => Some(0),
        }
    }

    /// Whether the token leaves the stream.
    pub fn takes(self) -> bool
        ensures { result ≡ takes self }
    {
        match self {
            StreamOperation::Read => true,
            StreamOperation::Peek => false,
            StreamOperation::TestEot => false,
            StreamOperation::Open => true,
        }
    }
}
