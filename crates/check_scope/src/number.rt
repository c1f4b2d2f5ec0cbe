// Numbers of things in memory in 32 bits: a count as a number, and the next number.
ghost use Rattle.std.specs.Prelude.{◌+◌, []};
ghost use Rattle.check_scope.specs.Answers.{ScopeAnswers};

use crate::fault::CheckFault;

/// Narrows a count to 32 bits; a larger one can't be in memory, so it is reported as want of memory.
pub fn number_of(count: usize) -> Result<u32, CheckFault>
    ensures { ScopeAnswers (λ n. n) result [] count }
{
    if count <= u32::MAX as usize {
        Ok(count as u32)
    } else {
        Err(CheckFault::OutOfMemory)
    }
}

/// The next number. Nothing in memory has a number past 32 bits.
pub fn next_number(number: u32) -> Result<u32, CheckFault>
    ensures { ScopeAnswers (λ n. n) result [] (number + 1) }
{
    if number == u32::MAX {
        Err(CheckFault::OutOfMemory)
    } else {
        Ok(number + 1)
    }
}
