// Laws on what is read.

ghost use Rattle.std.specs.Prelude.{◌≡◌, List, ℕ};
ghost use Rattle.tapa_base.specs.declared.text.Place.{Place as PlaceTree};
ghost use Rattle.vlog_tree.specs.declared.fault.VFault.{VFault as VFaultTree};
ghost use Rattle.vlog_tree.specs.declared.fault.VFault.TheVariants as fault;
ghost use Rattle.vlog_tree.specs.Refused.{IsDesign};
ghost use Rattle.vlog_tree.specs.Spelling.{spelling};
ghost use Rattle.vlog_lex.specs.Grammar.{HasTree};
ghost use Rattle.vlog_design.specs.Designs.{DesignTree};
ghost use Rattle.vlog_read.specs.Texts.{IsRefusedAt, RefusesText};

use vlog_lex::{law_design_is_its_text, law_one_tree};
use vlog_tree::law_design_is_not_refused;

/// A text is refused at one place at most.
pub fn law_v1_at_one_place()
    ensures { (text : List ℕ) (place other : PlaceTree) → IsRefusedAt text place → IsRefusedAt text other → place ≡ other }
{}

/// What is printed of a design is read as that design, with its top: the text has no other tree, and is refused
/// only if memory runs out.
pub fn law_printed()
    ensures same { (d e : DesignTree) → IsDesign d.modules d.top → IsDesign e.modules e.top → HasTree (spelling d.modules) e.modules → e ≡ d }
    ensures taken { (d : DesignTree) (e : VFaultTree) → IsDesign d.modules d.top → RefusesText (spelling d.modules) e → e ≡ fault.OutOfMemory }
{
    law_design_is_its_text();
    law_one_tree();
    law_design_is_not_refused();
}

/// A text is refused with at most one fault, except if memory runs out; and the text of a design with none.
pub fn law_one_fault()
    ensures once { (text : List ℕ) (e f : VFaultTree) → RefusesText text e → RefusesText text f → (e ≡ fault.OutOfMemory → ⊥) → (f ≡ fault.OutOfMemory → ⊥) → e ≡ f }
    ensures taken { (text : List ℕ) (d : DesignTree) (e : VFaultTree) → HasTree text d.modules → IsDesign d.modules d.top → RefusesText text e → e ≡ fault.OutOfMemory }
{
    law_one_tree();
    law_design_is_not_refused();
}
