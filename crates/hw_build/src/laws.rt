// Laws on modules that are made.

ghost use Rattle.hw_build.specs.Driven.{LinesAreThere, WiresAreDriven, OutputsAreDriven, WidthsAreDeclared, CellsAreDeclared, BlocksAreOwn};
ghost use Rattle.hw_build.specs.Fitting.{BuiltIsRight};
ghost use Rattle.hw_build.specs.Forms.{BuiltHasForm};
ghost use Rattle.hw_build.specs.Meaning.{CopiesGoOn, ResetsGoOn, ResetsAndSetsGoOn, StoresGoOn};
ghost use Rattle.hw_build.specs.Order.{BuiltHasNoLoop, RegisteredChildrenMakeNoLoop, FreeNetsRestOnNoInput, FreeModulesRestOnNoInput, LooplessByLevels};
ghost use Rattle.hw_build.specs.Trees.{NoneIsZero, SetBitStays, TreesAreOrs, RootsAreDriven};

/// What a register or a memory with a block of its own has in the next cycle.
pub fn law_blocks()
    ensures copies { CopiesGoOn }
    ensures resets { ResetsGoOn }
    ensures sets { ResetsAndSetsGoOn }
    ensures stores { StoresGoOn }
{}

/// What is built of elements in form has the form of a module.
pub fn law_built_has_form()
    ensures { BuiltHasForm }
{}

/// What is built of fitting elements breaks no rule on names, widths and drivers.
pub fn law_built_is_right()
    ensures { BuiltIsRight }
{}

/// No net of what is built of fitting elements depends on itself: in the order of the elements if the instances keep it too,
/// and without more where no output of an instance depends on an input of it.
pub fn law_built_has_no_loop()
    ensures ordered { BuiltHasNoLoop }
    ensures registered { RegisteredChildrenMakeNoLoop }
{}

/// Which outputs of what is built depend on none of its inputs: those that are called free, where no driver of a free net reads
/// another net.
pub fn law_rests_on_no_input()
    ensures nets { FreeNetsRestOnNoInput }
    ensures modules { FreeModulesRestOnNoInput }
{}

/// Modules that contain modules of lower level, and in none of which a net depends on itself, have no loop together.
pub fn law_loopless()
    ensures { LooplessByLevels }
{}

/// A run of what is built does what each element says: each wire and each output has its driver's value, widths and cells
/// are those that are declared, and of fitting elements each register and each memory has its own block.
pub fn law_elements_in_a_run()
    ensures lines { LinesAreThere }
    ensures wires { WiresAreDriven }
    ensures outputs { OutputsAreDriven }
    ensures widths { WidthsAreDeclared }
    ensures cells { CellsAreDeclared }
    ensures blocks { BlocksAreOwn }
{}

/// A tree of ors has the or of its leaves: 0 where all of them are 0, and of bits whether one is set.
pub fn law_trees()
    ensures none { NoneIsZero }
    ensures set { SetBitStays }
    ensures trees { TreesAreOrs }
    ensures roots { RootsAreDriven }
{}
