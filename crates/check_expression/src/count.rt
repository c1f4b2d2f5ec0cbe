// The rules of counts: the depth of a stream and the number of cells of an array, each a constant within its limit.
ghost use Rattle.std.specs.Prelude.{◌≡◌, ◌≤◌, IfOk};
ghost use Rattle.tapa_base.specs.Kinds.{number};
ghost use Rattle.tapa_syntax.specs.Trees as tree;
ghost use Rattle.check_scope.specs.Answers.{ScopeAnswers};
ghost use Rattle.check_expression.specs.Constants.{IsWithin};
ghost use Rattle.check_expression.specs.Counts as counts;

use crate::constant::{Constant, literal};
use crate::constant_use::{known, known_name};
use check_scope::{CheckFault, Scope, over};
use tapa_syntax::{Count, CountValue};

/// The greatest depth of a stream, and the most cells of an array.
const MOST_OF_COUNT: u32 = 4096;

fn form(scope: &Scope, value: &CountValue) -> Result<Constant, CheckFault>
    ensures value { ScopeAnswers (λ c. number c.kind c.value) result (counts.form_faults scope.now (tree.count_form_of value.now)) (counts.form_number scope.now (tree.count_form_of value.now)) }
    ensures within { IfOk result IsWithin }
{
    match value {
        CountValue::Literal(kind, number) => Ok(literal(*kind, *number)),
        CountValue::Name(name) => known_name(scope, name),
        CountValue::Parenthesized(value) => known(scope, value),
    }
}

/// A number from 0 on, and 0 for one below.
fn natural(constant: Constant) -> u64
    requires { IsWithin constant }
    ensures { result ≡ counts.natural (number constant.kind constant.value) }
{
    let sign = 1 << (constant.kind.bits() - 1);
    if constant.kind.signed() && sign <= constant.value {
        0
    } else {
        constant.value
    }
}

/// A stream's depth or an array's number of cells.
pub fn count_in(scope: &Scope, count: &Count) -> Result<u32, CheckFault>
    ensures value { ScopeAnswers (λ n. n) result (counts.count_faults scope.now (tree.count_of count.now)) (counts.count_of scope.now (tree.count_of count.now)) }
    ensures within { IfOk result (λ n. (1 ≤ n) × (n ≤ 4096)) }
{
    let number = natural(form(scope, &count.value)?);
    if 1 <= number && number <= u64::from(MOST_OF_COUNT) {
        Ok(number as u32)
    } else {
        Err(over(MOST_OF_COUNT, count.place))
    }
}
