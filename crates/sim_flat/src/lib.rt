//! A flattened design by numbers: its instances, its nets by name, the edges between them, and an order in which each net comes after
//! those that it depends on.
#![tactic(auto)]

mod edges;
mod flat;
mod instances;
mod kinds;
mod laws;
mod links;
mod order;
mod places;
mod sizes;
mod tables;

pub use flat::{Flat, base_at, flatten, owner_of, table_at};
pub use laws::law_parts_come_first;
pub use links::{net_around, net_inside};
pub use order::{lines_at, order_of_nets};
pub use tables::{Source, Table};
