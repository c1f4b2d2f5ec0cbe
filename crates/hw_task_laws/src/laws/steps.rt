// Laws on the step that a task's module makes in a cycle.

ghost use Rattle.hw_task_laws.specs.steps.Steps.{AwaitedIsAllowed, GoIsAllowed, OthersAreAllowed, PlaceGoesOn};

/// What a state waits for is there in the cycles whose inputs allow its step.
pub fn law_allowed()
    ensures awaited { AwaitedIsAllowed }
    ensures others { OthersAreAllowed }
    ensures go { GoIsAllowed }
{}

/// The register of the state goes on by each step that is allowed, and else stays.
pub fn law_places()
    ensures places { PlaceGoesOn }
{}
