// Laws on the numbers that are computed for a design's cycle, and on the next one.

ghost use Rattle.std.specs.Prelude.{◌≡◌, ℕ, ◌+◌, ◌<◌, ◌≤◌, ◌^◌, List, Some, false, slice_get, IsTrue};
ghost use Rattle.vlog_tree.specs.Form.{ModuleTree};
ghost use Rattle.vlog_tree.specs.Refused.{IsDesign};
ghost use Rattle.vlog_tree.specs.Table.{Name, is_clk, declared, net_kind_of, net_kind_is_read};
ghost use Rattle.vlog_tree.specs.Cycle.{Cycle, Path, module_at};
ghost use Rattle.vlog_tree.specs.Environment.{Environment, FitsShape, RunsIn, shape_of};
ghost use Rattle.vlog_values.specs.declared.moment.Circuit.{Circuit};
ghost use Rattle.vlog_values.specs.declared.moment.Moment.{Moment};
ghost use Rattle.vlog_ref_cycle.specs.Numbers.{net_within};
ghost use Rattle.vlog_ref_cycle.specs.Moments.{IsAt};
ghost use Rattle.vlog_ref_cycle.specs.Next.{IsKept, next_known};
ghost use Rattle.vlog_ref_start.specs.Whole.{IsWhole, HasNoMore};

/// In a design, at a snapshot that leaves out nothing of the state and of the environment, enough steps give each
/// net its number: the one that it has in every run at that snapshot. The clock's is left out, since no line reads it.
pub fn law_each_net_is_found()
    ensures { (ms : List ModuleTree) (top : ℕ) (m : ModuleTree) (env : Environment) (nets : ℕ → Path → Cycle) (now : Moment)
        → IsDesign ms top → slice_get ms top ≡ Some m → FitsShape env (shape_of m) → RunsIn ms m env nets → IsAt ms m env nets now → IsWhole ms m now
        → (path : Path) (k : ModuleTree) (x : Name) → module_at ms m path ≡ Some k → IsTrue (net_kind_is_read (net_kind_of (declared k) x)) → is_clk x ≡ false
        → (d : ℕ) × (net_within ms m now d path x ≡ Some ((nets now.cycle path).net x)) }
{}

/// The next snapshot leaves out nothing either, and has nothing but parts of the design where this one has nothing else.
pub fn law_next_moment_is_whole()
    ensures whole { (ms : List ModuleTree) (top : ModuleTree) (now after : Moment) → IsWhole ms top now → IsKept now after → IsWhole ms top after }
    ensures no_more { (ms : List ModuleTree) (top : ModuleTree) (now after : Moment) → HasNoMore ms top now → IsKept now after → HasNoMore ms top after }
{}

/// In a design, at a snapshot that leaves out nothing and has nothing but parts of the design, enough steps give all that the
/// next cycle needs, and so do more. Cycles are counted below 2^64.
pub fn law_next_moment_is_known()
    ensures { (design : Circuit) (top : ℕ) (env : Environment) (nets : ℕ → Path → Cycle) (now : Moment)
        → IsDesign design.modules.now top → slice_get design.modules.now top ≡ Some design.top.now → FitsShape env (shape_of design.top.now)
        → RunsIn design.modules.now design.top.now env nets
        → IsAt design.modules.now design.top.now env nets now → IsWhole design.modules.now design.top.now now → HasNoMore design.modules.now design.top.now now → now.cycle + 1 < 2 ^ 64
        → (d : ℕ) × ((e : ℕ) → d ≤ e → IsTrue (next_known design now e)) }
{}
