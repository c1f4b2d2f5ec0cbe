// The codes of the rules that a source may break, each with the text that it is reported by.
ghost use Rattle.std.specs.Prelude.{◌≡◌, IfOk, string_bytes};
ghost use Rattle.command_answers.specs.Refusal.{code_text, rule_text};

use check_scope::CheckCode;
use std::alloc::Global;
use tapa_base::OutOfMemory;

/// The rule that a source breaks.
#[derive(Clone, Copy, Debug, PartialEq, Eq)]
pub enum SourceCode {
    L1,
    L2,
    L3,
    L4,
    A1,
    A2,
    A3,
    A4,
    P1,
    P2,
    /// A rule beyond the grammar; for a limit with the greatest number that is allowed.
    Rule { code: CheckCode, limit: Option<u32> },
}

fn text_of_rule(code: CheckCode) -> &'static str
    ensures { result.now ≡ rule_text code }
{
    match code {
        CheckCode::C1 => "C1 unknown name",
        CheckCode::C2 => "C2 doubled name",
        CheckCode::C3 => "C3 wrong kind",
        CheckCode::C4 => "C4 stream without exactly one producer",
        CheckCode::C5 => "C5 stream without exactly one consumer",
        CheckCode::C6 => "C6 nonblocking operation",
        CheckCode::C7 => "C7 memory without exactly one instance",
        CheckCode::C8 => "C8 operation in a conditional place",
        CheckCode::C9 => "C9 divisor",
        CheckCode::C10 => "C10 task invokes itself",
        CheckCode::C11 => "C11 over the limit",
        CheckCode::C12 => "C12 memory written by a detached task",
    }
}

impl SourceCode {
    /// The code and what it says.
    pub fn text(self, alloc: Global) -> Result<String, OutOfMemory>
        ensures { IfOk result (λ text. string_bytes text ≡ code_text self) }
    {
        match self {
            SourceCode::L1 => Ok(String::from_str(alloc, "L1 byte outside the profile")?),
            SourceCode::L2 => Ok(String::from_str(alloc, "L2 open comment or string")?),
            SourceCode::L3 => Ok(String::from_str(alloc, "L3 bad number")?),
            SourceCode::L4 => Ok(String::from_str(alloc, "L4 refused line")?),
            SourceCode::A1 => Ok(String::from_str(alloc, "A1 bad count")?),
            SourceCode::A2 => Ok(String::from_str(alloc, "A2 array of another length")?),
            SourceCode::A3 => Ok(String::from_str(alloc, "A3 array out of place")?),
            SourceCode::A4 => Ok(String::from_str(alloc, "A4 written out too long")?),
            SourceCode::P1 => Ok(String::from_str(alloc, "P1 unexpected token")?),
            SourceCode::P2 => Ok(String::from_str(alloc, "P2 nested too deep")?),
            SourceCode::Rule { code, limit } => {
                let rule = text_of_rule(code);
                match limit {
                    None => Ok(String::from_str(alloc, rule)?),
                    Some(limit) => Ok(format!(in alloc; "{rule} of {limit}")?),
                }
            }
        }
    }
}
