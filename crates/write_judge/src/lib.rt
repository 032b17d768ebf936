//! Single writes of any driver, judged by geometry: by the packets that a write can matter to.
//!
//! A [`Watched`] device holds any entries, and is judged by two sets of rules. Behind a write of a slot only keys whose
//! words the entry that goes or the one that comes hits can have another answer than before, behind a write of a table's
//! word those with its port, and behind the end of a commit those of changed rules. These are few cubes of words, and
//! each is searched for a wrong answer (`leak_search`). That these are enough is said by three laws.
//!
//! # Decided
//! - **A leak is confirmed by three look-ups**, so that what is told of a packet rests on the definition of a look-up and
//!   on nothing else.
//! - **A search ends behind a million cubes**, and the write isn't judged then.
#![tactic(auto)]

mod judging;
mod laws;
mod rule_view;
mod watched;

use driver_trace::Leak;
pub use judging::{MOST_CUBES, judged_in};
pub use laws::{ends_are_judged_by_cubes, slots_are_judged_by_cubes, tables_are_judged_by_cubes};
pub use rule_view::RuleView;
pub use watched::Watched;

/// What a judgement comes to.
#[derive(Clone, Copy, Debug, PartialEq, Eq)]
pub enum Judged {
    /// No packet gets a wrong answer.
    Right,
    /// This one does.
    Leaks(Leak),
    /// It isn't known.
    Unsettled,
}
