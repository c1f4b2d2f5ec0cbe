// What the text is in which the arrays of a source are written out: the contracts of functions that do nothing.
ghost use Rattle.tapa_laws.specs.written.Lines.{TextsKeepLines, FormsKeepLines, FilesStay};
ghost use Rattle.tapa_laws.specs.written.WrittenLexemes.{WrittenOutTextsHaveLexemes, WrittenOutTextsAreNotRefused};

/// What is written out of a text that has lexemes has lexemes too, so that the lexer refuses it nowhere.
pub fn law_written_out_texts_have_lexemes()
    ensures lexemes { WrittenOutTextsHaveLexemes }
    ensures refused { WrittenOutTextsAreNotRefused }
{}

/// The text in which the arrays of a source are written out has the source's number of line ends, and what is written of each form has
/// that of the form, so that what comes after a form is on its own line there.
pub fn law_written_out_keeps_lines()
    ensures texts { TextsKeepLines }
    ensures forms { FormsKeepLines }
{}

/// A text that the grammar has a tree for is written out as it is, also where `streams` is a name in it.
pub fn law_files_are_written_out_as_they_are()
    ensures { FilesStay }
{}
