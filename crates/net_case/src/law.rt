// What the answer at the end of a case says of its network.
ghost use Rattle.net_case.specs.Over.{AnswersAreOutcomes};

/// Where a case is over at a reachable count within its budget, its answer is the outcome within that budget.
pub fn law_over()
    ensures { AnswersAreOutcomes }
{}
