// Laws on what a task's module does by the step of a cycle.

ghost use Rattle.hw_task_laws.specs.effects.Held.{ArraysAreHeld, EndIsHeld, MemoriesAreHeld, RegistersAreHeld};
ghost use Rattle.hw_task_laws.specs.effects.Outputs.{AsksAreMade, PutsAreMade, StoresAreAsked, TakesAreMade};

/// Registers, arrays, the memories outside and the sign of the end go on by each step that is allowed, and else stay.
pub fn law_held()
    ensures registers { RegistersAreHeld }
    ensures arrays { ArraysAreHeld }
    ensures memories { MemoriesAreHeld }
    ensures ends { EndIsHeld }
{}

/// Tokens are taken and put by the steps that do so, and memories are asked for the cells that the steps name.
pub fn law_outputs()
    ensures takes { TakesAreMade }
    ensures puts { PutsAreMade }
    ensures asks { AsksAreMade }
    ensures stores { StoresAreAsked }
{}
