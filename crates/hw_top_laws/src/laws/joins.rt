// Laws on lists of elements with instances.

ghost use Rattle.hw_top_laws.specs.joins.Joins.{AloneStands, EachPartStands, JoinedHasForm, PartsStand, StandsBehindMore, TogetherIsFitting};

/// Elements of which each fits after those before it fit beside the modules of their instances, where no name is
/// declared twice and instances drive each `InstanceWire` once. An instance has the form of one where the modules have that of
/// modules and what is declared are names.
pub fn law_fit_together()
    ensures fitting { TogetherIsFitting }
    ensures form { JoinedHasForm }
{}

/// Elements fit in order part by part, and those without instances where they fit in order by themselves.
pub fn law_stand_in_parts()
    ensures alone { AloneStands }
    ensures more { StandsBehindMore }
    ensures parts { PartsStand }
    ensures each_part { EachPartStands }
{}
