//! Commits as rows, for tests: batches as rows of changes, packets, what a step did in a word, and what packets get.
#![tactic(auto)]

mod changes;
mod packets;
mod seen;

pub use changes::{ANY_PORT, Change, ChangeFault, batch, command};
pub use packets::{packet_of_ports, packet_to, routed_packets};
pub use seen::{
    NOTHING, Results, Told, result_by_rules, result_of, results, results_by_rules, what_it_did,
};
