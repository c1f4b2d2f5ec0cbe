// Laws on what the definitions say.

ghost use Rattle.std.specs.Prelude.{◌≡◌, ℕ, List, [], ◌∷◌, ◌++◌, ◌==◌, IsTrue, Bool, if◌then◌else◌, map};
ghost use Rattle.vlog_tree.specs.declared.tree.Step.{Step};
ghost use Rattle.vlog_tree.specs.declared.tree.Step.TheVariants.{If, Else, End};
ghost use Rattle.vlog_tree.specs.Form.{ModuleTree, nested};
ghost use Rattle.vlog_tree.specs.Cycle.{Cycle, Sizes, run_steps};
ghost use Rattle.vlog_tree.specs.Grounded.{IsGrounded, OnLoop};
ghost use Rattle.tapa_base.specs.Lists.{Has};
ghost use Rattle.vlog_tree.specs.Flattened.{FlatNet, parts};
ghost use Rattle.vlog_tree.specs.Clamped.{clamped};
ghost use Rattle.vlog_tree.specs.V3.{v3_uses};
ghost use Rattle.vlog_tree.specs.declared.fault.VFault.{VFault};
ghost use Rattle.vlog_tree.specs.declared.fault.VFault.TheVariants.{OutOfMemory};
ghost use Rattle.vlog_tree.specs.Refused.{Refuses, IsDesign};

/// An `if` with an `else` runs its first part where its name is 1, and else its second.
pub fn law_if()
    ensures { (s : Sizes) (old next : Cycle) (c : List ℕ) (p q : List Step) → IsTrue (nested [] p) → IsTrue (nested [] q)
        → run_steps s old [] (If c ∷ (p ++ Else ∷ (q ++ End ∷ []))) next ≡ (if old.net c == 1 then run_steps s old [] p next else run_steps s old [] q next) }
{}

/// An `if` without an `else` runs its part where its name is 1.
pub fn law_if_alone()
    ensures { (s : Sizes) (old next : Cycle) (c : List ℕ) (p : List Step) → IsTrue (nested [] p)
        → run_steps s old [] (If c ∷ (p ++ End ∷ [])) next ≡ (if old.net c == 1 then run_steps s old [] p next else next) }
{}

/// Steps run one after another.
pub fn law_two()
    ensures { (s : Sizes) (old next : Cycle) (p q : List Step) → IsTrue (nested [] p)
        → run_steps s old [] (p ++ q) next ≡ run_steps s old [] q (run_steps s old [] p next) }
{}

/// What grounded is on no loop.
pub fn law_grounded_is_on_no_loop()
    ensures { (ms : List ModuleTree) (root : ModuleTree) (b : Bool) (n : FlatNet) → IsGrounded (parts ms root b) n → OnLoop (parts ms root b) n → ⊥ }
{}

/// Where all nets settle, equations that read the parts of a net alone have a solution, and no other.
pub fn law_one_solution()
    ensures { (ms : List ModuleTree) (root : ModuleTree) (b : Bool) → ((n : FlatNet) → IsGrounded (parts ms root b) n)
        → (f : FlatNet → (FlatNet → ℕ) → ℕ) → ((x : FlatNet) (v w : FlatNet → ℕ) → ((y : FlatNet) → Has (parts ms root b x) y → v y ≡ w y) → f x v ≡ f x w)
        → (v : FlatNet → ℕ) × (((x : FlatNet) → v x ≡ f x v) × ((w : FlatNet → ℕ) → ((x : FlatNet) → w x ≡ f x w) → (x : FlatNet) → w x ≡ v x)) }
{}

/// Where numbers past the limits are cut the rule on widths finds the same at each name, so a reader over machine numbers
/// reports the same first name.
pub fn law_clamped_widths()
    ensures { (ms : List ModuleTree) → v3_uses (map clamped ms) ≡ v3_uses ms }
{}

/// No rule refuses a design: only want of memory does.
pub fn law_design_is_not_refused()
    ensures { (ms : List ModuleTree) (top : ℕ) (e : VFault) → IsDesign ms top → Refuses ms e → e ≡ OutOfMemory }
{}
