// Laws on whole circuits.

ghost use Rattle.hw_top_laws.specs.design.Outside.{TopsHaveMemories, TopsHaveScalars, TopsHaveStreams};
ghost use Rattle.hw_top_laws.specs.design.Order.{DesignsAreLoopless, DesignsRestOnNoInput, TopsHaveNoLoop, TopsKeepAnswers, TopsKeepOrder};
ghost use Rattle.hw_top_laws.specs.design.Design.{DesignsAreLegal, DesignsAreSound, OutsidesAreRight, TopsAreRoots};

/// The top of a circuit has the program's scalars, memories and streams, with their labels and widths, in order.
pub fn law_top_outside()
    ensures scalars { TopsHaveScalars }
    ensures memories { TopsHaveMemories }
    ensures streams { TopsHaveStreams }
{}

/// If an output of an instance of the top depends combinationally on one of its inputs, the net of the input is declared before the net of the output. The
/// answer of a memory is declared after the address of its request. So no net of the top depends on itself, and no name of the circuit is on a loop.
pub fn law_designs_are_loopless()
    ensures order { TopsKeepOrder }
    ensures answers { TopsKeepAnswers }
    ensures top { TopsHaveNoLoop }
    ensures designs { DesignsAreLoopless }
{}

/// No output of a circuit depends on an input of it within a cycle: a memory around it may answer by what it is asked in the same
/// cycle.
pub fn law_designs_rest_on_no_input()
    ensures { DesignsRestOnNoInput }
{}

/// The modules of a circuit break no rule on names, widths and drivers. The top alone is in no other module, its ports are
/// those of a design, and the clock of an instance is the clock. So a circuit is a design with this top.
pub fn law_designs_are_legal()
    ensures sound { DesignsAreSound }
    ensures root { TopsAreRoots }
    ensures outside { OutsidesAreRight }
    ensures legal { DesignsAreLegal }
{}
