//! Laws on dumps.

ghost use Rattle.vcd_text.specs.Dump.{IsNeverBoth, IsNoneOnce, IsOneDump};
ghost use Rattle.vcd_text.specs.Read.{ReadsValues};

/// No text is a dump and also refused at a place as none.
pub fn law_never_both()
    ensures { IsNeverBoth }
{}

/// A text is refused at one place at most.
pub fn law_none_once()
    ensures { IsNoneOnce }
{}

/// A text is the dump of one list of nets, of one number of cycles, and of one value of each net in each of them.
pub fn law_one_dump()
    ensures { IsOneDump }
{}

/// The changes that are read of a dump give each net its value in each cycle.
pub fn law_reads_values()
    ensures { ReadsValues }
{}
