// What is proved of the definitions.
ghost use Rattle.tapa_words.specs.Words.{WordsAskOneThing};

/// Words ask for one command at most.
pub fn law_words_ask_one_thing()
    ensures { WordsAskOneThing }
{}
