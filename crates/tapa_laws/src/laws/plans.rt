// What a source and a device file have one of: the contracts of functions that do nothing.
ghost use Rattle.tapa_laws.specs.plans.OneGraph.{ProgramsHaveOneGraph, SourcesHaveOneGraph};
ghost use Rattle.tapa_laws.specs.plans.OneDevice.{SourcesHaveOneDevice, SourcesHaveOneDeviceFault, DevicesHaveNoFault};
ghost use Rattle.tapa_laws.specs.plans.OnePlanOf.{PlansAreOne, RefusalsAreOne, PlannedOrRefused, BuildAddsWhatPlanPrints};
ghost use Rattle.tapa_laws.specs.plans.OnePlan.{PlansMeanOneThing, SourcesHaveOnePlan, SourcesPrintOneBalance, SourcesBuildWhatPlanPrints};

/// A source has at most one graph: its labels, groups, estimated uses and edges.
pub fn law_one_graph()
    ensures program { ProgramsHaveOneGraph }
    ensures source { SourcesHaveOneGraph }
{}

/// A device file gives a source at most one device, has at most one first fault for it, and never both.
pub fn law_one_source_device()
    ensures device { SourcesHaveOneDevice }
    ensures fault { SourcesHaveOneDeviceFault }
    ensures either { DevicesHaveNoFault }
{}

/// A source has at most one meaning with a device file: one plan by a mode, reported as lines or as a circuit, one reason for none,
/// one fault of the device file, or one refusal.
pub fn law_one_plan_meaning()
    ensures one { PlansMeanOneThing }
    ensures plan { SourcesHaveOnePlan }
    ensures balance { SourcesPrintOneBalance }
{}

/// What `build` adds to a stream of a source by a device file, balanced, is the latency and the balance that `plan` prints for it.
pub fn law_sources_build_what_plan_prints()
    ensures { SourcesBuildWhatPlanPrints }
{}

/// By a mode, a graph has at most one plan on a device and at most one reason for none, and never both.
pub fn law_graphs_have_one_plan()
    ensures plan { PlansAreOne }
    ensures refusal { RefusalsAreOne }
    ensures either { PlannedOrRefused }
{}

/// The circuit by a plan adds to its streams what the lines of the plan show: the latency of the borders, and the balance.
pub fn law_build_adds_what_plan_prints()
    ensures { BuildAddsWhatPlanPrints }
{}
