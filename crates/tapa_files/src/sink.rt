// Bytes that are written in order.
ghost use Rattle.std.specs.Prelude.{◌≡◌, ◌<◌, ◌≤◌, ℕ, List, Option, OnErr, IsOkAnd, length};
ghost use Rattle.std.specs.Io.{WritesAtMost};
ghost use Rattle.std.specs.Io.KnownBytes.{WriteAppends};
ghost use Rattle.tapa_files.specs.Outside.{Rose};

use crate::WriteFailed;

/// Where bytes are written: standard output or error, or memory for tests. It counts the writes that failed.
pub trait Sink {
    /// The bytes that it has taken, where they are known.
    ghost contents: { Self → Option (List ℕ) };

    /// How often a write has failed.
    ghost faults: { Self → ℕ };

    /// Takes a prefix of `bytes`, and returns its length.
    fn write(&mut self, bytes: &[u8]) -> Result<usize, WriteFailed>
        ensures bound { WritesAtMost result bytes.now }
        ensures appends { WriteAppends (contents self.old) (contents self.new) result bytes.now }
        ensures later { faults self.old ≤ faults self.new }
        ensures calm { IsOkAnd result (λ n. n ≡ 0 → length bytes.now ≡ 0) → faults self.new ≡ faults self.old }
        ensures cause { OnErr result (Rose (faults self.old) (faults self.new)) }
        // A sink that takes nothing of a piece has failed.
        ensures stuck { IsOkAnd result (λ n. n ≡ 0) → 0 < length bytes.now → Rose (faults self.old) (faults self.new) };
}
