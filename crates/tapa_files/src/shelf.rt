// Files that are read by name.
ghost use Rattle.std.specs.Prelude.{◌≡◌, ◌≤◌, ℕ, List, Option, IfOk, IsErrOf};
ghost use Rattle.std.specs.Io.{ReadsAtMost};
ghost use Rattle.tapa_files.specs.Outside.{Files, ReadsAt, AsksFor, Rose};

use crate::ShelfFault;

/// Where files are read by their names: the real folder, or files in memory for tests. It counts, for each name, the reads that failed.
pub trait Shelf {
    /// The contents of the files, where they are known.
    ghost files: { Self → Option Files };

    /// How often a read of this name has failed.
    ghost faults: { Self → List ℕ → ℕ };

    /// Puts bytes of the named file, from an offset on, at the start of `buf`, and returns their number.
    fn read(&mut self, name: &str, from: u64, buf: &mut [u8]) -> Result<usize, ShelfFault>
        requires { from ≤ 33554432 }
        ensures bound { ReadsAtMost result buf.new }
        ensures bytes { ReadsAt (files self.old) name.now from result buf.new }
        ensures asks { AsksFor files faults name.now self.old self.new }
        ensures calm { IfOk result (λ _. faults self.new name.now ≡ faults self.old name.now) }
        ensures cause { IsErrOf result ShelfFault.ReadFailed → Rose (faults self.old name.now) (faults self.new name.now) };
}
