// The cycles that are computed are those of the run.

ghost use Rattle.vlog_ref_start.specs.Runs.{ReferenceIsRun};

/// From a design, an environment and a number that every register and cell begins with, the snapshots that are computed one
/// after the other are those of the run: at each of them enough steps give each net its number in that cycle, and all that
/// the next snapshot needs. The clock's number is left out, since no line reads it, and cycles are counted below 2^64.
pub fn law_reference_is_a_run()
    ensures { ReferenceIsRun }
{}
