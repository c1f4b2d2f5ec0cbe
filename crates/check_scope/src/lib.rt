//! The names that are in scope, what each is declared as, who uses streams and memories, and how a broken rule is reported.
#![tactic(auto)]

mod entity;
mod fault;
mod names;
mod number;
mod role;
mod scope;
mod users;

pub use entity::Entity;
pub use fault::{Broken, CheckCode, CheckFault, over, refused};
pub use names::{Names, copied};
pub use number::{next_number, number_of};
pub use role::Role;
pub use scope::Scope;
pub use users::{UserTable, Users};
