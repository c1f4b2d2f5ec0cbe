// Laws on the widths of the numbers in a run.

ghost use Rattle.std.specs.Prelude.{◌≡◌, ℕ, List, Some, slice_get};
ghost use Rattle.vlog_tree.specs.Form.{ModuleTree};
ghost use Rattle.tapa_base.specs.Lists.{Has};
ghost use Rattle.vlog_tree.specs.Refused.{IsDesign, IsSound};
ghost use Rattle.vlog_tree.specs.Cycle.{Cycle, Path, module_at};
ghost use Rattle.vlog_tree.specs.Environment.{Environment, FitsShape, RunsIn, shape_of};
ghost use Rattle.vlog_run_laws.specs.widths.Widths.{WidthsInRange, RunFits, NumbersFitBeside, EnvironmentsShowCells, DriversFit, OneModuleFits};

/// Each net that can be read has from 1 to 128 bits, and so has each cell of a memory, where names, widths and drivers are
/// right.
pub fn law_widths_in_range()
    ensures { (ms : List ModuleTree) → IsSound ms → (m : ModuleTree) → Has ms m → WidthsInRange m }
{}

/// In each run of a design each number of a net or a cell fits the width that its module declares for it, and so do the
/// cells of the memories outside.
pub fn law_numbers_fit()
    ensures { (ms : List ModuleTree) (top : ℕ) (m : ModuleTree) (env : Environment) (nets : ℕ → Path → Cycle)
        → IsDesign ms top → slice_get ms top ≡ Some m → FitsShape env (shape_of m) → RunsIn ms m env nets → RunFits ms m env nets }
{}

/// They do so too beside memories that show a cell in the cycles in which they answer and nothing is stored, and any number of their width in others.
/// The memories of an environment are such memories.
pub fn law_numbers_fit_beside()
    ensures fit { NumbersFitBeside }
    ensures show { EnvironmentsShowCells }
{}

/// In each run of a design the operator of each driver takes its operands, and the driver's value fits its target, which
/// has from 1 to 128 bits.
pub fn law_operators_apply()
    ensures { (ms : List ModuleTree) (top : ℕ) (m : ModuleTree) (env : Environment) (nets : ℕ → Path → Cycle)
        → IsDesign ms top → slice_get ms top ≡ Some m → FitsShape env (shape_of m) → RunsIn ms m env nets
        → (n : ℕ) (path : Path) (k : ModuleTree) → module_at ms m path ≡ Some k → DriversFit k (nets n path) }
{}

/// In each run of one module that is right beside others, without a design around it, each number fits its width if what
/// the module is given does: its inputs, and what its instances give it.
pub fn law_one_module_fits()
    ensures { OneModuleFits }
{}
