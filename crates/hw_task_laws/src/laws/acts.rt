// Laws on a cycle of a task's module.

ghost use Rattle.hw_task_laws.specs.acts.Moves.{RegistersGoOn, StateGoesOn, StateMoves};
ghost use Rattle.hw_task_laws.specs.acts.Reads.{IndexIsShown, ReadsAreShown, ValueIsShown};

/// In a cycle in a state, its reads show the cells, and its wires its value and its index.
pub fn law_reads()
    ensures reads { ReadsAreShown }
    ensures value { ValueIsShown }
    ensures index { IndexIsShown }
{}

/// The next state is chosen, and registers go on by their blocks.
pub fn law_next()
    ensures chosen { StateMoves }
    ensures state { StateGoesOn }
    ensures registers { RegistersGoOn }
{}
