// The laws of leaf tasks.
ghost use Rattle.check_leaf.specs.Laws.{LegalLeavesAreWellFormed};

/// Every leaf that is legal is well formed.
pub fn law_legal_leaves_are_well_formed()
    ensures { LegalLeavesAreWellFormed }
{}
