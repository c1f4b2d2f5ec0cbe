// What is done with the tokens that wait.
ghost use Rattle.std.specs.Prelude.{◌≡◌, ◌+◌, ◌*◌, ◌≤◌, [], ◌++◌, length, drop, IfOk};
ghost use Rattle.net_case.specs.Queue.{waits, space};

use crate::queue::Queue;
use std::alloc::Global;
use tapa_base::{OutOfMemory, Token};

impl Queue {
    /// A queue of no tokens, in which `depth` may wait.
    pub fn new(alloc: Global, depth: usize) -> Result<Queue, OutOfMemory>
        ensures empty { IfOk result (λ q. waits q ≡ []) }
        ensures space { IfOk result (λ q. 2 * depth ≤ space q) }
    {
        let twice = depth.saturating_mul(2);
        let tokens = Vec::with_capacity(alloc, twice)?;
        Ok(Queue { tokens, head: 0 })
    }

    /// How many tokens wait.
    pub fn len(&self) -> usize
        ensures { result ≡ length (waits self.now) }
    {
        self.tokens.len() - self.head
    }

    /// The tokens that wait, without the first of them.
    pub fn from_place(&self, place: usize) -> &[Token]
        requires { place ≤ length (waits self.now) }
        ensures { result.now ≡ drop place (waits self.now) }
    {
        &self.tokens[self.head + place..]
    }

    /// Lets the first tokens go.
    pub fn skip(&mut self, count: usize)
        requires { count ≤ length (waits self.old) }
        ensures waits { waits self.new ≡ drop count (waits self.old) }
        ensures space { space self.new ≡ space self.old }
    {
        self.head += count;
    }

    // Lets go what was skipped, once it is half of the list or more.
    fn trim(&mut self)
        ensures waits { waits self.new ≡ waits self.old }
        ensures few { length self.new.tokens.items ≤ 2 * length (waits self.old) }
        ensures space { space self.new ≡ space self.old }
    {
        let left = self.tokens.len() - self.head;
        if self.head < left {
            return;
        }
        let head = self.head;
        self.head = 0;
        self.tokens.rotate_left(head);
        self.tokens.truncate(left);
    }

    /// Lets more tokens wait after the others. It takes no memory.
    pub fn join(&mut self, more: &[Token])
        requires { 2 * (length (waits self.old) + length more.now) ≤ space self.old }
        ensures waits { waits self.new ≡ waits self.old ++ more.now }
        ensures space { space self.old ≤ space self.new }
    {
        self.trim();
        let _there = self.tokens.extend_from_slice(more);
    }
}
