//! What terminals mean to actions and statements.

ghost use Rattle.std.specs.Prelude.{◌≡◌};
ghost use Rattle.tapa_syntax.specs.Grammar as grammar;
ghost use Rattle.tapa_parse_expression.specs.Reading as spec;

use tapa_base::Op;
use tapa_parse_expression::{is_name, one_kind};
use tapa_syntax::{AssignmentOperator, StepOperator, Terminal};

/// The operator of a step, if the terminal is one.
pub(crate) fn step_operator(terminal: Terminal) -> Option<StepOperator>
    ensures { result ≡ grammar.step_operator_of terminal }
{
    match terminal {
        Terminal::Increment => Some(StepOperator::Increment),
        Terminal::Decrement => Some(StepOperator::Decrement),
        _ => None,
    }
}

/// The operator of an assignment, if the terminal is one.
pub(crate) fn assignment_operator(terminal: Terminal) -> Option<AssignmentOperator>
    ensures { result ≡ grammar.assignment_operator_of terminal }
{
    match terminal {
        Terminal::Assign => Some(AssignmentOperator::Plain),
        Terminal::PlusAssign => Some(AssignmentOperator::Compound(Op::Add)),
        Terminal::MinusAssign => Some(AssignmentOperator::Compound(Op::Sub)),
        Terminal::StarAssign => Some(AssignmentOperator::Compound(Op::Mul)),
        Terminal::SlashAssign => Some(AssignmentOperator::Compound(Op::Div)),
        Terminal::PercentAssign => Some(AssignmentOperator::Compound(Op::Rem)),
        Terminal::AmpersandAssign => Some(AssignmentOperator::Compound(Op::And)),
        Terminal::BarAssign => Some(AssignmentOperator::Compound(Op::Or)),
        Terminal::CaretAssign => Some(AssignmentOperator::Compound(Op::Xor)),
        Terminal::ShiftLeftAssign => Some(AssignmentOperator::Compound(Op::Shl)),
        Terminal::ShiftRightAssign => Some(AssignmentOperator::Compound(Op::Shr)),
        _ => None,
    }
}

/// Whether an action begins so.
pub(crate) fn begins_action(terminal: Terminal) -> bool
    ensures { result ≡ spec.begins_action terminal }
{
    is_name(terminal) || step_operator(terminal).is_some()
}

fn begins_other(terminal: Terminal) -> bool
    ensures { result ≡ spec.begins_other terminal }
{
    matches!(
        terminal,
        Terminal::LeftBracket
            | Terminal::Semicolon
            | Terminal::LeftBrace
            | Terminal::If
            | Terminal::While
            | Terminal::For
            | Terminal::WhileNotEot
            | Terminal::Break
            | Terminal::Continue
            | Terminal::Const
            | Terminal::Std
    )
}

/// Whether a statement begins so.
pub(crate) fn begins_statement(terminal: Terminal) -> bool
    ensures { result ≡ spec.begins_statement terminal }
{
    begins_other(terminal) || begins_action(terminal) || one_kind(terminal).is_some()
}
