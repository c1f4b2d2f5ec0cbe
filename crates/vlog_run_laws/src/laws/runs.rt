// Laws on the runs of designs.

ghost use Rattle.std.specs.Prelude.{◌≡◌, ℕ, List, Some, true, slice_get};
ghost use Rattle.vlog_tree.specs.Form.{ModuleTree};
ghost use Rattle.vlog_tree.specs.Grounded.{IsGrounded};
ghost use Rattle.vlog_tree.specs.Flattened.{FlatNet, parts};
ghost use Rattle.vlog_tree.specs.Refused.{IsDesign};
ghost use Rattle.vlog_tree.specs.Table.{Name};
ghost use Rattle.vlog_tree.specs.Cycle.{Cycle, Path};
ghost use Rattle.vlog_run_laws.specs.runs.Among.{OneRunAmong, AmongIsBeside, BesideIsAmong};
ghost use Rattle.vlog_run_laws.specs.runs.Filled.{FillFits, FilledIsFilled};
ghost use Rattle.vlog_run_laws.specs.runs.OneRun.{FitsPowerUp, IsRunOf, IsRunFrom, IsOnly};
ghost use Rattle.vlog_tree.specs.Environment.{Environment};

/// In a design each net of the flattened tree depends on others in finitely many steps, where a memory's read data at the top
/// depends on its address.
pub fn law_design_is_grounded()
    ensures { (ms : List ModuleTree) (top : ℕ) (m : ModuleTree) → IsDesign ms top → slice_get ms top ≡ Some m → (n : FlatNet) → IsGrounded (parts ms m true) n }
{}

/// A design has exactly one run from each contents that registers and memories can have at power-up, with any numbers on
/// the top's inputs in each cycle. The clock's number is left open, since no line reads it.
pub fn law_one_run_of_inputs()
    ensures { (ms : List ModuleTree) (top : ℕ) (m : ModuleTree) (inputs : ℕ → Name → ℕ) (contents : Path → Cycle)
        → IsDesign ms top → slice_get ms top ≡ Some m → FitsPowerUp ms m contents → IsOnly ms m (IsRunOf ms m inputs contents) }
{}

/// A design has exactly one run from each contents that registers and memories can have at power-up, in each environment.
pub fn law_one_run_in_environment()
    ensures { (ms : List ModuleTree) (top : ℕ) (m : ModuleTree) (env : Environment) (contents : Path → Cycle)
        → IsDesign ms top → slice_get ms top ≡ Some m → FitsPowerUp ms m contents → IsOnly ms m (IsRunFrom ms m env contents) }
{}

/// From each such contents a design has exactly one run with memories that answer in any given cycles. They show the requested cell in any given cycles, and
/// any given numbers in the others.
pub fn law_one_run_beside()
    ensures { OneRunAmong }
{}

/// Such a run is also a run with memories that show a cell in the cycles in which they answer and nothing is stored, and any number of their width in others.
/// It is so if no memory answers in reset, the given numbers are of their memories' widths, and each memory shows the cell in those cycles.
pub fn law_among_is_beside()
    ensures { AmongIsBeside }
{}

/// Each run beside such memories is the one from what it begins with, where the numbers given are those that the memories show. The cycles that are given for
/// the cell are those in which the memories answer and nothing is stored.
pub fn law_beside_is_among()
    ensures { BesideIsAmong }
{}

/// One number, cut to the width of each register and each cell, is contents that power-up may leave.
pub fn law_fill()
    ensures fits { FillFits }
    ensures filled { FilledIsFilled }
{}
