// The result of a run: the network afterwards, with the outcome or the fault that memory ran out.
use net_core::{Body, Net, Outcome};
use tapa_base::OutOfMemory;

/// A network after a run, and how the run ended. If memory ran out, the network is as it was when the run was given up.
#[derive(Drop)]
pub struct Run<B: Body> {
    pub net: Net<B>,
    pub end: Result<Outcome, OutOfMemory>,
}
