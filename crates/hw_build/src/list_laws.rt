// Laws on lists of elements.

ghost use Rattle.hw_build.specs.Choices.{AnyFits, AnyIsClear, AnyIsSet, PickFits, PickIsChosen};
ghost use Rattle.hw_build.specs.Fits.{AloneHasForm, AloneIsFitting, EachFits, EachPartFits, FitsAfterMore, PartsFit, PartsOnce, TreesFit, TwoOnce};

/// Elements without instances fit beside any modules, where each fits after those before it, no name is declared twice, and
/// no two blocks assign one register or memory.
pub fn law_fit_in_order()
    ensures fitting { AloneIsFitting }
    ensures form { AloneHasForm }
{}

/// Elements fit in order part by part.
pub fn law_fit_in_parts()
    ensures more { FitsAfterMore }
    ensures parts { PartsFit }
    ensures each { EachFits }
    ensures each_part { EachPartFits }
    ensures trees { TreesFit }
{}

/// Lists in which each name occurs once, and which have none in common, have each once when appended.
pub fn law_names_once()
    ensures two { TwoOnce }
    ensures parts { PartsOnce }
{}

/// Whether one of many conditions holds, and the value whose condition does: rows of nets give both in each cycle.
pub fn law_choices()
    ensures set { AnyIsSet }
    ensures clear { AnyIsClear }
    ensures chosen { PickIsChosen }
    ensures any_fits { AnyFits }
    ensures pick_fits { PickFits }
{}
