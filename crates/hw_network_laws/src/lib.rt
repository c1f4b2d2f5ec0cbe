//! Laws of clocked networks: modules of tasks and channels as machines and channels that tick by one clock.
#![tactic(auto)]

mod laws;

pub use laws::{
    law_answered_counts_are_prompt, law_channels_meet_contract, law_designs_are_clocked,
    law_done_is_of_joined, law_first_arrays_are_no_matter, law_instances_have_their_ports,
    law_lowered_machines_are_parts, law_machines_take_offers, law_machines_use_their_ports,
    law_memories_hold_cells, law_modules_are_instances, law_networks_carry_kahn,
    law_networks_keep_time, law_networks_run, law_ports_are_streams, law_requests_stay,
    law_still_streams_meet_contract, law_timed_counts_go_by_rows, law_timed_counts_keep_pace,
    law_wired_instances_are_linked,
};
