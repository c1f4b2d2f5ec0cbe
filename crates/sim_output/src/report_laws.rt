// Laws on reports of designs.

ghost use Rattle.sim_output.specs.ReportLaws.{DesignsHaveOneReport, DesignsHaveAReport};

/// In an environment and up to a limit a design has exactly one report. From power-up with 0 in every register and every cell, the first cycle in which it is
/// done is determined, or there is none up to the limit; so are the tokens of its streams and the cells of its memories.
pub fn law_one_report()
    ensures once { DesignsHaveOneReport }
    ensures some { DesignsHaveAReport }
{}
