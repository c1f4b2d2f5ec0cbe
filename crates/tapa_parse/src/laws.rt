//! What follows from the grammar of files.

ghost use Rattle.tapa_syntax.specs.Grammar.{HaveOneTree};
ghost use Rattle.tapa_parse.specs.Answers.{RefusedOnce, FileOrRefused};

/// No symbols have two trees.
pub fn one_tree()
    ensures { HaveOneTree }
{}

/// No symbols are refused at two places, or by two rules.
pub fn law_one_place()
    ensures { RefusedOnce }
{}

/// Symbols are a file within the limits or are refused somewhere, and none are both.
pub fn law_file_or_refused()
    ensures { FileOrRefused }
{}
