// Laws on one module.

ghost use Rattle.vlog_module_laws.specs.Blocks.{StepsLeaveTheRest, StepsLookAtOneName, OwnBlocksDecide, UnassignedStays, DriversAreAlone};
ghost use Rattle.vlog_module_laws.specs.Forms.{ResetBlocks, SteadyBlocks, SetBlocks, WriteBlocks};
ghost use Rattle.vlog_module_laws.specs.Lines.{RunsFollowLines, RunsKeepPorts, LinesMakeRuns, RegistersTakeTheirBlocks, CellsTakeTheirBlocks, ConnectionsHold};
ghost use Rattle.vlog_module_laws.specs.Ranks.{RestsOnLowerRanks, RankedIsOnNoLoop, RankedIsLoopless};
ghost use Rattle.vlog_module_laws.specs.Larger.{FrontIsWithin, BackIsWithin, EachRightIsSound, SoundIsEachRight, RightStaysRight, RightHasInstances, RestsStaysSame};
ghost use Rattle.vlog_module_laws.specs.Labelled.{UnderscoreMakesNames, AreLabels, LabelsAreApart};

/// What all blocks leave of a register or a memory is what its own block leaves, whatever other blocks there are.
pub fn law_own_block()
    ensures rest { StepsLeaveTheRest }
    ensures one_name { StepsLookAtOneName }
    ensures own { OwnBlocksDecide }
    ensures unassigned { UnassignedStays }
    ensures drivers { DriversAreAlone }
{}

/// What the usual blocks of one register or one memory leave of it: with a reset or without one, set in each cycle or where
/// a net says so.
pub fn law_usual_blocks()
    ensures reset { ResetBlocks }
    ensures steady { SteadyBlocks }
    ensures set { SetBlocks }
    ensures write { WriteBlocks }
{}

/// A run of a module does what each of its lines says, and what does so is a run. A register and a memory with a block of
/// its own goes on as that block says.
pub fn law_lines()
    ensures lines { RunsFollowLines }
    ensures ports { RunsKeepPorts }
    ensures runs { LinesMakeRuns }
    ensures registers { RegistersTakeTheirBlocks }
    ensures cells { CellsTakeTheirBlocks }
    ensures connections { ConnectionsHold }
{}

/// Modules whose nets fall in rank along all that they depend on have no loop.
pub fn law_no_loop_by_rank()
    ensures lower { RestsOnLowerRanks }
    ensures no_loop { RankedIsOnNoLoop }
    ensures loopless { RankedIsLoopless }
{}

/// A module that is correct together with some modules is also correct together with further modules of other names. A set of modules is correct if each of them is correct together with all.
pub fn law_larger()
    ensures front { FrontIsWithin }
    ensures back { BackIsWithin }
    ensures sound { EachRightIsSound }
    ensures each { SoundIsEachRight }
    ensures stays { RightStaysRight }
    ensures instances { RightHasInstances }
{}

/// Among more modules a net depends on just the nets on which it depended.
pub fn law_rests_in_larger()
    ensures { RestsStaysSame }
{}

/// A text with an early `_` that has the form of a name is one.
pub fn law_names()
    ensures { UnderscoreMakesNames }
{}

/// The name of a label has that label, and no label of another kind.
pub fn law_labels()
    ensures labels { AreLabels }
    ensures apart { LabelsAreApart }
{}
