//! Removals that are made before a batch adds anything, so that their slots are free for what it adds.
//!
//! A batch is parted into two, which are made one after the other as one commit: first removals alone, then the rest. Each
//! part is a commit as any other, so nothing that speaks of a commit's writes changes. What is to be shown beyond that
//! speaks of rule sets alone: the set between the two parts gives each key the old or the new answer.
#![tactic(auto)]

mod covers;
mod early;
mod laws;
mod names;
mod parts;

pub use laws::{
    early_removals_show_old_or_new, early_rules_are_early, no_other_set_between, parts_are_sound,
    plainly_early_are_early, spared_rules_are_early, two_parts_are_hitless, two_parts_turn_once,
};
pub use parts::part;
