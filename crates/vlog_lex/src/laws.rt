// Laws on what the definitions say.

ghost use Rattle.std.specs.Prelude.{◌≡◌, ◌≤◌, ◌↔◌, ℕ, List, [], ◌∷◌, ◌++◌, length, codes};
ghost use Rattle.std.specs.List.{AllByRecursion};
ghost use Rattle.vlog_tree.specs.declared.tree.Step.{Step as StepTree};
ghost use Rattle.vlog_tree.specs.declared.tree.Item.TheVariants.{Wire};
ghost use Rattle.vlog_tree.specs.Names.{IsName};
ghost use Rattle.vlog_tree.specs.Form.{ModuleTree, IsModule};
ghost use Rattle.vlog_tree.specs.Refused.{IsDesign};
ghost use Rattle.vlog_tree.specs.Spelling.{Word, spelling};
ghost use Rattle.vlog_lex.specs.Numerals.{IsLiteral};
ghost use Rattle.vlog_lex.specs.Lexemes.{IsGap, HasWords};
ghost use Rattle.vlog_lex.specs.Grammar.{SpellsBlock, SpellsItem, HasTree};
ghost use Rattle.vlog_lex.specs.Flat.{SpellsFlatBlock};
ghost use Rattle.vlog_lex.specs.Numbers.{HasWrittenNumbers};

/// The spelling of modules has their tree, where each number of theirs is one that is written.
pub fn law_spelling_has_tree()
    ensures { (ms : List ModuleTree) → AllByRecursion IsModule ms → AllByRecursion HasWrittenNumbers ms → 1 ≤ length ms → HasTree (spelling ms) ms }
{}

/// The spelling of a design has its tree.
pub fn law_design_is_its_text()
    ensures { (ms : List ModuleTree) (top : ℕ) → IsDesign ms top → HasTree (spelling ms) ms }
{}

/// The tree of a text has the form of modules.
pub fn law_tree_has_form()
    ensures { (text : List ℕ) (ms : List ModuleTree) → HasTree text ms → AllByRecursion IsModule ms }
{}

/// A text has at most one list of words.
pub fn law_one_list_of_words()
    ensures { (text : List ℕ) (some others : List Word) → HasWords text some → HasWords text others → some ≡ others }
{}

/// A text has at most one tree.
pub fn law_one_tree()
    ensures { (text : List ℕ) (ms ns : List ModuleTree) → HasTree text ms → HasTree text ns → ms ≡ ns }
{}

/// A block may be read from left to right, step by step, as the tree keeps it.
pub fn law_flat_block()
    ensures { (steps : List StepTree) (i j : List Word) → SpellsBlock steps i j ↔ SpellsFlatBlock steps i j }
{}

/// A blank or a comment before a text leaves its tree.
pub fn law_gap_in_front()
    ensures { (bytes text : List ℕ) (ms : List ModuleTree) → IsGap bytes text → HasTree text ms → HasTree (bytes ++ text) ms }
{}

/// A wire of one bit may be declared with its range.
pub fn law_one_bit_range()
    ensures { (x : List ℕ) (j : List Word) → IsName x
        → SpellsItem (Wire 1 x) (codes "wire" ∷ codes "[" ∷ codes "0" ∷ codes ":" ∷ codes "0" ∷ codes "]" ∷ x ∷ codes ";" ∷ j) j }
{}

/// A literal may be written in each base, with zeros before its width.
pub fn law_any_base()
    ensures { IsLiteral 8 255 (codes "8'd255") × IsLiteral 8 255 (codes "8'hFf") × IsLiteral 8 255 (codes "08'b11111111") }
{}
