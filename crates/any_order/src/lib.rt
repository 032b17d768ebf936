//! Whether the writes of any driver are hitless, in whatever order it makes them.
//!
//! A driver of another kind has its own order of writes, its own moves, and maybe its own way to cut rules into entries.
//! `specs/AnyOrder` says what must hold of the entries that stand after a write, so that every key has the old or the new
//! answer: it asks for an order only among entries that overlap. `specs/Touched` says which keys one write can matter to.
#![tactic(auto)]

mod laws;

pub use laws::{
    alike_slots_keep_look_ups, any_order_answers_old_or_new, one_table_write_is_judged_by_its_port,
    one_write_is_judged_by_its_keys, other_keys_keep_their_answer, other_ports_keep_look_ups,
    the_end_is_judged_by_changed_rules,
};
