// Memories in which nothing is stored, and those that may be written: the contracts of functions that do nothing.
ghost use Rattle.std.specs.Prelude.{◌≡◌, ℕ, List, []};
ghost use Rattle.tapa_syntax.specs.Trees.{ItemTree};
ghost use Rattle.stream_check.specs.Programs.{program_faults, program_of};
ghost use Rattle.tapa_laws.specs.memories.Stores.{CellsStayWhereNothingIsStored};
ghost use Rattle.tapa_laws.specs.memories.Constant.{LegalProgramsStoreNothingInConstMemories, ConstMemoriesKeepTheirCells};
ghost use Rattle.tapa_laws.specs.memories.Writers.{HasJoinedWriters};

/// Where the code of no instance stores in a memory, its cells are at every count those that were given.
pub fn law_cells_stay_where_nothing_is_stored()
    ensures { CellsStayWhereNothingIsStored }
{}

/// No instance of the program of a legal source has code that stores in a const memory.
pub fn law_legal_programs_store_nothing_in_const_memories()
    ensures { LegalProgramsStoreNothingInConstMemories }
{}

/// The cells of a const memory of a legal source's program are at every count of its network those that were given.
pub fn law_const_memories_keep_their_cells()
    ensures { ConstMemoriesKeepTheirCells }
{}

/// In the program of each source that breaks no rule the instance of a memory that may be written is waited for, so that its
/// cells are its last ones where the instances that are waited for have ended.
pub fn law_writers_are_joined()
    ensures { (items : List ItemTree) (top : List ℕ) → program_faults items top ≡ [] → HasJoinedWriters (program_of items top) }
{}
