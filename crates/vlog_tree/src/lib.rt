//! The tree of a small Verilog subset: its types and their form, and the definitions of what its designs do cycle by
//! cycle, which trees are refused, and how a tree is spelled.
#![tactic(auto)]

mod fault;
mod form;
mod labels;
mod laws;
mod module;
mod names;
mod table;
mod tree;

pub use fault::VFault;
pub use labels::{
    ack_name, ack_of, addr_name, addr_of, din_of, rdata_name, rdata_of, rdy_name, scalar_of,
    wdata_name, wdata_of, we_name, we_of, wr_name,
};
pub use laws::{
    law_clamped_widths, law_design_is_not_refused, law_grounded_is_on_no_loop, law_if,
    law_if_alone, law_one_solution, law_two,
};
pub use module::Module;
pub use names::{has_name_form, is_name};
pub use table::{Declaration, NetKind};
pub use tree::{
    Atom, Atoms, BinaryOp, Block, Connection, Connections, Direction, Item, PortDecl, Step, Value,
};
