// Laws on what a simulator shows.

ghost use Rattle.cycle_sim.specs.Told.{ToldIsOne};

/// Of a design, in an environment and from a number that every register and every cell begins with, all that is shown of a
/// cycle is determined: the number of each declared net but the clock, of each cell, and the cells of the memories around it.
pub fn law_told_is_one()
    ensures { ToldIsOne }
{}
