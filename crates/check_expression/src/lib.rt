//! The rules of expressions, and what a legal one is in the flat program: its kind and its form with every conversion
//! written out.
#![tactic(auto)]

mod constant;
mod constant_use;
mod count;
mod expression;
mod kinds;
mod method;
mod typed;

pub use constant::{Constant, check_divisor, converted, evaluated};
pub use constant_use::{check_constant, known};
pub use count::count_in;
pub use expression::{check_expression, check_wanted};
pub use kinds::{operated_kind, same_kind};
pub use method::{StreamCall, StreamMethod, check_call, method_of};
pub use typed::{Typed, as_kind, binary_kind, entity_kind, entity_number, operated};
