// Laws on what the outputs of a task's module depend on.

ghost use Rattle.hw_task_laws.specs.rests.Rests.{OnlyTakesRest};

/// No output of a task's module depends on an input in the same cycle, but those that take a token.
pub fn law_task_rests()
    ensures { OnlyTakesRest }
{}
