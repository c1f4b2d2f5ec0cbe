//! Laws on plans by halving, which have no code.
ghost use Rattle.slot_split.specs.Halving.{HasOneHalvingPlan, HalvingGivesPlans, HalvesOrFails, FailsAtOneLevel};

/// A graph has one plan by halving on a device at most: the cheapest list of a level that comes first is one list.
pub fn law_one_halving_plan()
    ensures { HasOneHalvingPlan }
{}

/// The plan by halving is within the capacity of each slot, keeps the pins, and uses no forbidden slot.
pub fn law_halving_is_a_plan()
    ensures { HalvingGivesPlans }
{}

/// A graph that has a plan by halving on a device has a list of regions at each level, and one that has none is without a list at one level.
pub fn law_halves_or_fails()
    ensures plan { HalvesOrFails }
    ensures level { FailsAtOneLevel }
{}
