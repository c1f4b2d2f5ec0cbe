// What a source means: the contracts of functions that do nothing.
ghost use Rattle.std.specs.Prelude.{◌≡◌, ◌⊎◌, ℕ, List, []};
ghost use Rattle.tapa_syntax.specs.declared.lexeme.Lexeme.{Lexeme};
ghost use Rattle.tapa_syntax.specs.Grammar.{IsTreeOf};
ghost use Rattle.tapa_syntax.specs.Lexemes.{HasLexemes};
ghost use Rattle.tapa_syntax.specs.Symbols.{symbols_of};
ghost use Rattle.tapa_syntax.specs.Trees.{ItemTree};
ghost use Rattle.stream_check.specs.Programs.{program_faults, program_of};
ghost use Rattle.command_source.specs.Labels.{HasOwnLabels};
ghost use Rattle.tapa_laws.specs.sources.OneMeaning.{SourcesHaveOneProgram, SourcesHaveOneInput, SourcesHaveOneDataFault, SourcesMeanOneThing, SourcesMeanSomething};
ghost use Rattle.tapa_laws.specs.sources.OneMeaning.{RefusedSourcesMeanNothing, SourcesHaveOneRefusal};
ghost use Rattle.tapa_laws.specs.sources.Sources.{IsLegal, IsRefusedSomehow};

/// Every text, with every name of a top task, is a legal source or is refused by one of the rules, and no text is both: the
/// definitions leave no gap between them.
pub fn law_every_source_is_legal_or_refused()
    ensures some { (text top : List ℕ) → IsLegal text top ⊎ IsRefusedSomehow text top }
    ensures one { (text top : List ℕ) → IsLegal text top → IsRefusedSomehow text top → ⊥ }
{}

/// Names are unique in the program of each source that breaks no rule (with its stream arrays written out). No two instances have one label, and no two
/// streams have one name. No two leaves have one name, and no leaf has the name of the top task. No two parameters of the top task have one name. Leaves and
/// parameters have names as the source spells them. A label begins with a letter or `_`, and continues with letters, digits, `_` and `$`.
pub fn law_labels_tell_parts_apart()
    ensures { (text : List ℕ) (lexemes : List Lexeme) (items : List ItemTree) (top : List ℕ)
        → HasLexemes text lexemes → IsTreeOf (symbols_of text lexemes) items → program_faults items top ≡ [] → HasOwnLabels (program_of items top) }
{}

/// The programs of a text and the name of its top task differ only in where they lie in memory, and data give all of them
/// the same values, or have the same first fault for them. So the run of one is the run of each.
pub fn law_sources_have_one_program()
    ensures program { SourcesHaveOneProgram }
    ensures input { SourcesHaveOneInput }
    ensures fault { SourcesHaveOneDataFault }
{}

/// A source has at most one meaning with its data, and where it has a program to which they give values it has one; where a
/// rule refuses it, it has no program, and no other rule and no other place refuses it.
pub fn law_sources_mean_one_thing()
    ensures one { SourcesMeanOneThing }
    ensures some { SourcesMeanSomething }
    ensures refused { RefusedSourcesMeanNothing }
    ensures once { SourcesHaveOneRefusal }
{}
