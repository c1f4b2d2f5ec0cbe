//! What follows from the definition of the lexemes of a text.

ghost use Rattle.tapa_syntax.specs.Lexemes.{HasOneListOfLexemes, AreSlices, AreInOrder};
ghost use Rattle.tapa_lex.specs.Refusals.{HasOneRefusal, HasLexemesOrRefusal};

/// A text has one list of lexemes.
pub fn one_list_of_lexemes()
    ensures { HasOneListOfLexemes }
{}

/// Each lexeme has a slice of the text that is of its kind, its place, and a value of its kind.
pub fn lexemes_are_slices()
    ensures { AreSlices }
{}

/// The slices are in the order of the text, and do not overlap.
pub fn lexemes_are_in_order()
    ensures { AreInOrder }
{}

/// A text is refused at one place, with one code.
pub fn one_refusal()
    ensures { HasOneRefusal }
{}

/// A text that is refused has no lexemes.
pub fn lexemes_or_refusal()
    ensures { HasLexemesOrRefusal }
{}
