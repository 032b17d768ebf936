//! The explanation of a whole script: every line that is at fault, and each refusal that the rule lists alone foretell.
//! Nothing is carried out.
//!
//! [`explain_script`] reads a script from a source line by line, as a run does, and hands a sentence to a sink for each
//! thing that is wrong:
//!
//!     line 7, word 6, 10.0.0.1: an address alone is 10.0.0.1/32
//!     line 9: 10.0.0.0/8 was added in line 3
//!     line 12: the batch takes 36 slots, and 8 of 8 are free
//!
//! A run ends at the first line at fault. An explanation goes on, and tells of each (`script_faults` has the sentences).
//!
//! # The one hard idea
//! That a run finds something wrong where an explanation does, and that one of a script without trials ends well where an
//! explanation finds nothing, is a clause (`specs/Explained`), by what a run itself is said with: the script that the bytes
//! are (`script_of` at the reading of `tcam_cli`) and the verdict of each commit over the set that the commits before it
//! leave (`rule_store`). So no sentence is needed to believe the status.
//!
//! # How it stands
//! `script` is the loop, `explainer` what is known between two lines and what an act does to it. `settling` has what pending
//! changes come to, which `judging` judges. `changes` tells of those that a set doesn't take, with the lines of both commands,
//! and `room` of those for which there is none.
//!
//! # Decided
//! - **Behind the first line at fault no refusal is foretold**: which changes that line was to make nobody knows, and a
//!   refusal that rests on it would be a guess. The faults of lines are told to the end of the script.
//! - **Behind a trial with changes no refusal is foretold either**, since how many writes it makes decides whether it is
//!   taken back, and no rule list tells that. One of no changes leaves the set as it is.
//! - **A commit of which removals go first is judged as a run judges it** (`Wanted.parts`): where it is made in two parts by
//!   the rest, over the set that the removals leave (`commit_verdict` of `replay`). Where it has no room even so, what is told
//!   is told of the whole.
//! - **What `put`, `drop` and `all` come to is reckoned as at a commit** (`settled_changes`), and is from then on as strict
//!   commands, each with the line of the last change that names its rule, or else that of `all`.
//! - **Of a refused batch each change is told that the set doesn't take**, where a commit's line names the first: who has
//!   300 of them sees them all.
//! - **A byte at fault ends the explanation**, as it ends the reading of lines (`script_lines`): what stands behind isn't
//!   cut into lines by anyone.
#![tactic(auto)]

mod changes;
mod explainer;
mod judging;
mod room;
mod script;
mod settling;

pub use explainer::Wanted;
pub use script::explain_script;
