//! Floorplans: each group of tasks gets a slot of a device, within its capacity and keeping its pins; the least plan of all by
//! the length of wires (AutoBridge), or first fit's.
#![tactic(auto)]

mod amounts;
mod exact;
mod fit;
mod floorplan;
mod limit;
mod needs;
mod planning;
mod rows;
mod search;
mod slots;
mod tables;
mod totals;

pub use amounts::{add_at, empty_slots};
pub use exact::least_at_home;
pub use floorplan::{Mode, Plan, PlanFault};
pub use limit::free_groups;
pub use needs::group_needs;
pub use plan_device::{Device, DeviceFault, read_device};
pub use planning::{plan, plan_of};
pub use tables::Regions;
