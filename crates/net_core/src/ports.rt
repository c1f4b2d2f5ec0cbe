// The ports of an instance: the queue of tokens and the room at each, and how tokens are taken, put, offered and dropped.
ghost use Rattle.std.specs.Prelude.{◌≡◌, ◌+◌, ◌*◌, ◌<◌, ◌≤◌, ◌↔◌, ◌∷◌, ◌++◌, if◌then◌else◌};
ghost use Rattle.std.specs.Prelude.{ℕ, [], length, drop, slice_get, MatchOption, Some, IsTrue, IsOk, IfOk, MatchBool, is_ok};
ghost use Rattle.kahn_model.specs.declared.tick.Tick.TheVariants.{Did, Take};
ghost use Rattle.kahn_model.specs.declared.tick.Action.TheVariants.{Put};
ghost use Rattle.kahn_model.specs.Fits.{IsTokenOf};
ghost use Rattle.net_core.specs.Kinds.{AreTokensOf};
ghost use Rattle.tapa_syntax.specs.LeafKinds.{writes_of};
ghost use Rattle.net_core.specs.Ports.{waiting, carried, room_at, held_at, space_at, port_count, ends_of, kind_at, Moved, Adjusted};

use crate::port::Port;
use std::mem;
use tapa_base::{OutOfMemory, Token};

// `FEW`: from this length on a list gets `LARGE` at once (128 KiB), so that it is not moved as it grows.
const FEW: usize = 64;

const LARGE: usize = 8_192;

// A list without its first tokens.
fn without_front(tokens: Vec<Token>, count: usize) -> Vec<Token>
    requires { count ≤ length tokens.items }
    ensures { result.items ≡ drop count tokens.items }
{
    let mut rest = tokens;
    let left = rest.len() - count;
    rest.rotate_left(count);
    rest.truncate(left);
    rest
}

// The tokens of a list from an index on.
fn from_place(tokens: &Vec<Token>, place: usize) -> &[Token]
    requires { place ≤ length tokens.now.items }
    ensures { result.now ≡ drop place tokens.now.items }
{
    &tokens[place..]
}

/// The ports of an instance, by the positions of its streams. Each datum in them is a value of the kind of its stream.
#[derive(Drop)]
pub struct Ports {
    pub ports: Vec<Port>,
}

// The room that a list of `len` tokens gets where it needs `room`. A list that has grown past its first tokens gets a large
// room at once, of which the memory gives what is used: it is not moved as it grows.
fn with_more(len: usize, room: usize) -> usize
    ensures { room ≤ result }
{
    if len < FEW {
        return room;
    }
    room.max(LARGE.saturating_sub(len))
}

impl Ports {
    /// The token that waits at a port.
    #[inline(always)]
    pub fn front(&self, s: u32) -> Option<Token>
        requires { s < port_count self.now }
        ensures token { result ≡ slice_get (waiting self.now s) 0 }
        ensures kind { (t : Token) → result ≡ Some t → IsTokenOf (kind_at self.now s) t }
    {
        let port = &self.ports[s as usize];
        port.tokens.get(port.head).copied()
    }

    /// Takes the token that waits at a port.
    #[inline(always)]
    pub fn take(&mut self, s: u32) -> Option<Token>
        requires { s < port_count self.old }
        ensures token { result ≡ slice_get (waiting self.old s) 0 }
        ensures kind { (t : Token) → result ≡ Some t → IsTokenOf (kind_at self.old s) t }
        ensures moved { MatchOption result (self.new ≡ self.old) (λ t. Moved self.old (Take s t ∷ []) self.new) }
    {
        match self.front(s) {
            None => None,
            Some(t) => {
                let port = &mut self.ports[s as usize];
                port.head += 1;
                Some(t)
            }
        }
    }

    /// Whether a port has room for a token.
    #[inline(always)]
    pub fn room(&self, s: u32) -> bool
        requires { s < port_count self.now }
        ensures { IsTrue result ↔ 0 < room_at self.now s }
    {
        self.ports[s as usize].room > 0
    }

    /// Puts a token, where there is room.
    #[inline(always)]
    pub fn put(&mut self, s: u32, t: Token) -> bool
        requires port { s < port_count self.old }
        requires kind { IsTokenOf (kind_at self.old s) t }
        ensures { MatchBool result (Moved self.old (Did (Put s t) ∷ []) self.new) ((self.new ≡ self.old) × (room_at self.old s ≡ 0)) }
    {
        if !self.room(s) {
            return false;
        }
        let port = &mut self.ports[s as usize];
        port.room -= 1;
        port.carried.push_reserved(t);
        true
    }

    /// Whether a port writes its stream.
    pub fn writes(&self, s: usize) -> bool
        requires { s < port_count self.now }
        ensures { writes_of (ends_of self.now) s ≡ Some result }
    {
        self.ports[s].end.writes
    }

    /// The tokens that wait at a port, the next one first.
    pub fn pending(&self, s: usize) -> &[Token]
        requires { s < port_count self.now }
        ensures tokens { result.now ≡ waiting self.now s }
        ensures kind { AreTokensOf (kind_at self.now s) result.now }
    {
        let port = &self.ports[s];
        from_place(&port.tokens, port.head)
    }

    /// How many tokens wait at a port.
    pub fn left(&self, s: usize) -> usize
        requires { s < port_count self.now }
        ensures { result ≡ length (waiting self.now s) }
    {
        let port = &self.ports[s];
        port.tokens.len() - port.head
    }

    /// All tokens that were written to a port's stream.
    pub fn carried(&self, s: usize) -> &[Token]
        requires { s < port_count self.now }
        ensures tokens { result.now ≡ carried self.now s }
        ensures kind { AreTokensOf (kind_at self.now s) result.now }
    {
        self.ports[s].carried.as_slice()
    }

    /// Moves the list of a port's tokens out, with the index of the next of them, and leaves an empty list there. The tokens
    /// that were taken are dropped once they are half of the list or more.
    pub fn lift(&mut self, s: usize, empty: Vec<Token>) -> (Vec<Token>, usize)
        requires port { s < port_count self.old }
        requires empty { empty.items ≡ [] }
        ensures adjusted { Adjusted self.old s self.new }
        ensures tokens { drop result.1 result.0.items ≡ waiting self.old s }
        ensures within { result.1 ≤ length result.0.items }
        ensures kind { AreTokensOf (kind_at self.old s) result.0.items }
        ensures nothing { waiting self.new s ≡ [] }
    {
        let port = &mut self.ports[s];
        let head = port.head;
        port.head = 0;
        let tokens = mem::replace(&mut port.tokens, empty);
        if head < tokens.len() - head {
            (tokens, head)
        } else {
            (without_front(tokens, head), 0)
        }
    }

    /// Lets these tokens wait at a port, from an index of the list on.
    pub fn offer(&mut self, s: usize, tokens: Vec<Token>, head: usize)
        requires port { s < port_count self.old }
        requires within { head ≤ length tokens.items }
        requires kind { AreTokensOf (kind_at self.old s) tokens.items }
        ensures adjusted { Adjusted self.old s self.new }
        ensures waits { waiting self.new s ≡ drop head tokens.items }
    {
        let port = &mut self.ports[s];
        port.head = 0;
        port.tokens = tokens;
        port.head = head;
    }

    // Drops the taken tokens of a port's list, once they are half of the list or more.
    fn trim(&mut self, s: usize)
        requires { s < port_count self.old }
        ensures adjusted { Adjusted self.old s self.new }
        ensures waits { waiting self.new s ≡ waiting self.old s }
        ensures few { held_at self.new s ≤ 2 * length (waiting self.old s) }
        ensures space { space_at self.old s ≤ space_at self.new s }
    {
        let port = &mut self.ports[s];
        let head = port.head;
        let left = port.tokens.len() - head;
        if head < left {
            return;
        }
        port.head = 0;
        port.tokens.rotate_left(head);
        port.tokens.truncate(left);
    }

    /// Lets more tokens wait at a port. It takes no memory where the port's queue has space for twice the tokens that wait then.
    #[inline(always)]
    pub fn offer_more(&mut self, s: usize, more: &[Token]) -> Result<(), OutOfMemory>
        requires port { s < port_count self.old }
        requires kind { AreTokensOf (kind_at self.old s) more.now }
        ensures adjusted { Adjusted self.old s self.new }
        ensures waits { waiting self.new s ≡ (if is_ok result then waiting self.old s ++ more.now else waiting self.old s) }
        ensures space { space_at self.old s ≤ space_at self.new s }
        ensures succeeds { 2 * (length (waiting self.old s) + length more.now) ≤ space_at self.old s → IsOk result }
    {
        self.trim(s);
        let port = &mut self.ports[s];
        port.tokens.extend_from_slice(more)?;
        Ok(())
    }

    /// Drops the first of the tokens that wait at a port.
    pub fn skip(&mut self, s: usize, count: usize)
        requires port { s < port_count self.old }
        requires enough { count ≤ length (waiting self.old s) }
        ensures adjusted { Adjusted self.old s self.new }
        ensures waits { waiting self.new s ≡ drop count (waiting self.old s) }
        ensures space { space_at self.old s ≤ space_at self.new s }
    {
        let port = &mut self.ports[s];
        port.head += count;
    }

    /// Gives a port's queue space for `space` tokens.
    pub fn reserve_queue(&mut self, s: usize, space: usize) -> Result<(), OutOfMemory>
        requires { s < port_count self.old }
        ensures adjusted { Adjusted self.old s self.new }
        ensures waits { waiting self.new s ≡ waiting self.old s }
        ensures space { IfOk result (λ _. space ≤ space_at self.new s) }
    {
        let port = &mut self.ports[s];
        port.tokens.reserve(space)?;
        Ok(())
    }

    /// Leaves no room for tokens at a port.
    pub fn shut(&mut self, s: usize)
        requires { s < port_count self.old }
        ensures adjusted { Adjusted self.old s self.new }
        ensures waits { waiting self.new s ≡ waiting self.old s }
        ensures room { room_at self.new s ≡ 0 }
        ensures space { space_at self.old s ≤ space_at self.new s }
    {
        let port = &mut self.ports[s];
        port.room = 0;
    }

    /// Makes room for tokens at a port.
    pub fn make_room(&mut self, s: usize, room: usize) -> Result<(), OutOfMemory>
        requires { s < port_count self.old }
        ensures adjusted { Adjusted self.old s self.new }
        ensures waits { waiting self.new s ≡ waiting self.old s }
        ensures space { space_at self.old s ≤ space_at self.new s }
        ensures room { IfOk result (λ _. room_at self.new s ≡ room) }
    {
        let port = &mut self.ports[s];
        port.room = 0;
        let more = with_more(port.carried.len(), room);
        port.carried.reserve(more)?;
        port.room = room;
        Ok(())
    }
}
