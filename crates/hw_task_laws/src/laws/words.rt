// Laws on words of bits.

ghost use Rattle.hw_task_laws.specs.words.Words.{CutsWords, ExtendsWords, ShiftsWordsLeft, ShiftsWordsRight};
ghost use Rattle.hw_task_laws.specs.words.Signed.{DividesWords, OrdersWords, NotAboveIsNotBelow, OrdersTurnedWords, LeavesWords};

/// A conversion cuts a word or extends it, and a shift is a product or a quotient by a power of 2.
pub fn law_words()
    ensures cut { CutsWords }
    ensures extend { ExtendsWords }
    ensures left { ShiftsWordsLeft }
    ensures right { ShiftsWordsRight }
{}

/// Words in two's complement are compared with their highest bits turned, and divided by their absolute values.
pub fn law_signed_words()
    ensures plain { OrdersWords }
    ensures turned { OrdersTurnedWords }
    ensures opposite { NotAboveIsNotBelow }
    ensures divide { DividesWords }
    ensures leave { LeavesWords }
{}
