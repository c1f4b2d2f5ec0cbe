// The laws of whole programs.
ghost use Rattle.stream_check.specs.Laws.{LegalProgramsAreWellFormed};

/// The program of every legal source is well formed.
pub fn law_legal_programs_are_well_formed()
    ensures { LegalProgramsAreWellFormed }
{}
