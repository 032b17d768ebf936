//! The manager: it judges a batch by the rules alone, plans every write of the commit before the first one,
//! and then makes the writes one at a time.
//!
//! **What it keeps.** The rules of the set, the arrangement of their entries in the slots, the index of which entries
//! overlap, and each entry under its id; by bits also the live port ranges and both tables (`translation`). While a
//! commit is under way it also holds the plan: the writes still to make, and what restores each of them. There is one
//! arrangement: it stands as the plan leads to, and what it was before only proofs know (`stood`), until it is taken back.
//!
//! **The one hard idea.** Packets are looked up between any two writes, so a commit can't pass through a state
//! that answers neither as the old set nor as the new one. So it first puts the new entries in, then gives those
//! that stay their new results, and last erases those that go. New entries go in by falling priority, each where
//! every overlapping entry of higher priority stands before it and every one of lower priority behind it; entries
//! that are in the way move by a copy to their new slot before their old one is overwritten. Two copies of an entry
//! are acceptable, none isn't.
//!
//! **Where an entry goes.** Of the free slots between the entries that it has to stand between, a new one takes the
//! slot nearest to its aim, by the manager's [`Placement`]. The middle of that gap leaves room on both sides, as routes
//! that come one by one want it. The slot of its rank keeps an access list in its order, so that rules that have
//! nothing in common don't stand against it and cross others later. A list that grows at an end, a line a commit, wants
//! each line right behind or right before those that it overlaps, so that none has to move, and amid the list by rank:
//! that is `Ends`. By both of these the last entry of a chain that makes way goes where it belongs, and not to the
//! nearest free slot. All that is promised holds of each, and the writes are those of the one that was chosen: no
//! insertion takes a write more.
//!
//! **A commit is a list of changes** (`commit_writes::batch_pieces`): by falling priority, at each priority that the
//! batch names, the rule of the set and the rule after the batch, where there is one. Each rule is cut into its pieces
//! once: those of the new rule alone go in, those of both get the new result, those of the old rule alone go; `parts`
//! has the ids of the latter two. `insertions` plans the first, each where `aims` says, and `plan` the writes of the
//! others; `writes` has both, and what undoes them.
//!
//! **A plan is small.** A device write has a whole entry, and a commit may take millions of them. So a plan names the
//! entry of each by its id, and `planned_writes` makes the device write when its turn comes. It is the write that was
//! planned: what stands at a live id changes only once the commit has finished, and the new entries of ids wait beside
//! the plan. There is a list of each kind of write, so an insertion pushes its moves straight into the plan.
//!
//! **Where routes stand is told to their index** with each move that a plan makes or takes back (`follow`, `put_back`) and
//! with each erase (`erase_all`), and of what a restart finds (`standing_in`). So of routes the planner asks for two
//! slots, and for no list of what overlaps; where lists stand their index isn't asked.
//!
//! **Port ranges.** By covers a rule takes an entry for each pair of blocks of its ranges' covers. A rule that replaces
//! another keeps the entries that both have, and only the others are put in and erased. By bits a rule takes one entry:
//! a range that isn't one block is tested by a bit of its field's translation table. A commit that brings new ranges
//! first writes the words of the tables in which their bits differ. No slot tests such a bit yet, since a bit is given
//! up only when a commit that leaves no rule with its range has finished; so these writes change no answer.
//!
//! **Words in flight.** A look-up may be two events: the key's word is made by the tables, and compared with the slots
//! later. A word that was made before a bit got its meaning must not meet an entry that tests it. So a commit that
//! brings new ranges drains once, behind the words of the tables: it goes on when no word is in flight.
//!
//! **Taking back.** A commit may be turned round at any moment (`Manager::abort`): what its writes replaced is put
//! back, the last one first, so it goes back through the states that it passed. What restores each write is planned
//! beside it, as a planned write again (`undoing`): what a slot held is noted with the move that changes it. One that a
//! restart goes on with can't be taken back, since what stood before it isn't known.
//!
//! **Going on after a stop.** A device outlives its manager. `restarting` makes another one from the old rules, their
//! live ranges, the batch in hand and what the device shows (`readback`): the pieces that stand get ids again, and what
//! is left of the commit is planned over them as `prepare` plans.
//!
//! **Memory.** `prepare` takes all of it, the device's too; `step`, `abort` and `carry_out` take none. So want of
//! memory can't come between two writes of a commit, and a batch that is refused changes nothing: what was planned of it in
//! the arrangement is taken back, the last move first.
//!
//! **Time.** A commit takes what it changes: its plan notes what each of its writes replaces, and there is neither a table
//! of all slots nor a copy of the arrangement or of the tables. A plan that is dropped or taken back takes its moves once more.
//!
//! # Decided
//! - **`step` fails only where a write is due**, so that `Finished` and `Idle` can't be hidden behind a fault.
//! - **While a commit is under way the manager says so of itself** (`rules`, `on_the_way`): what its slots hold answers
//!   each key as the old rules or the new ones do. So a caller needn't carry the plan through a loop of its own.
//! - **`Holds` says that its commit may begin** (`begins`), and that each state which a plan passes is a stage
//!   (`restarts`): the laws of commits, of look-ups in two events and of stages ask for the one, and without the other
//!   no caller could show that a restart over what a manager left isn't refused. Without them each caller had to carry
//!   that along from a blank device on.
//! - **The loop over a commit's writes is the manager's** (`carry_out`, by `specs/CarriedOut`), which each caller else
//!   wrote over `step`, and proved by an invariant of ten parts. The count of failures is bounded from both sides
//!   (`IsTried`), since nobody counts the tries that failed before one that didn't; with one try it is `HasCause`. So a
//!   body that gives up after as many failures of several writes meets the clauses; that each write has tries of its
//!   own is only tested (`tried_each` and `tried_no_more` in `tests/stopped_commits`). With no commit under way nothing
//!   happens and the numbers are 0, so it may be called at any time. Whoever knows what `prepare` ensured (`Holds`) has
//!   the rules after the batch by a law (`carrying_takes_rules`). The premise of room has a name, `HasRoomLeft`, and
//!   `prepare` keeps it.
//! - **`carry_out` stops where it would wait** (`Unfinished::Waiting`), since to wait in a loop would hang a caller who
//!   has to do the searches; the call goes on where it is made again. `Reverted` comes where the commit was turned
//!   round, so an Ok says always that the rules are the new set. What was done to the device and what is left are
//!   together what was due, drains among them (`carried`): by the writes alone (`journal`) a drain too many or too few at
//!   a stop stood in no clause but that of room.
//! - **`prepare`, `step` and `carry_out` leave what the next call asks for, and say so in one clause** (`leaves`): the
//!   slots in use, the room one way and both ways, and that a commit goes forward. A caller's loop proves by it with
//!   its invariant alone; as a law of the other clauses it made each loop of a library's user cite a lemma at each turn.
//!   Of `abort` the law says it (`turns_leave`), and of a step over no device (`steps_leave`).
//! - **A batch is planned over no device** (`plan_commit`), and `prepare` reserves the device for the plan. So whoever
//!   makes the writes elsewhere, by parts or outside of this program, has the same planner, told by `pass` what was
//!   made. Where the device has no memory the plan is dropped (`cancel`), as it may be until its first write, where
//!   none that failed may have been made. The parts of a plan are counted by what puts back what its writes replace
//!   (`parts`), so that they are exact whatever the plan's shape. Those of its longest insertion are counted as it is
//!   planned (`most_parts`): an insertion ends with an entry that stood in no slot, which is known there without a
//!   search.
//! - **A plan that is held can be turned round at any moment** (`abort`), so a commit that was begun too early, or on a
//!   device that grows slow, is given up without a look-up that sees anything but the old or the new answer: the way
//!   back passes the states that the commit passed (`GoesBackFrom`). `prepare` plans what restores each write, since
//!   `abort` and `step` take no memory, and reserves twice the writes and a drain; what each would put back stands in
//!   the view of the commit (`undo_of`). The price is twice the device's reserve, 12 bytes a write until the commit has
//!   come to its end. On the way back no drain is made, and the new bits count as new only until a table word is
//!   undone: words in flight may lack them again. One limit: the states of `GoesBackFrom` are those of some writes that
//!   led from the commit's beginning to here, which no clause ties to the plan, though each key's answer is old or new
//!   in any case (`serves`).
//! - **`abort` undoes the writes that were answered Ok.** Where the last `step` answered a failure and the hardware may
//!   have made that write all the same, whoever takes back makes it first (`step` until it is answered Ok): the undo
//!   writes don't touch its slot. Over a device whose failed write did nothing `abort` may come at once. To undo one
//!   write more in any case would write a slot that was never written, on each device and for nothing.
//! - **What holds of a plan that is held doesn't say who made it** (`IsHeld`): its writes lead to the new set, and
//!   behind each of them a key has the old or the new answer. That they are a whole segment, and that the old set
//!   stands in order before them, is so of a plan of `prepare` alone, and only the way back needs the latter
//!   (`IsPrepared`). What stood before a restart isn't known, so such a plan can't be taken back (`Restarted`), and its
//!   undo writes aren't planned.
//! - **A manager is rebuilt from what it left and what its device shows** (`into_parts`, `restart`), and goes on
//!   forward, each new entry where the same placement aims by the numbers of the whole commit. Pieces get ids in the
//!   order of the slots, and the twin's slot has the id of its piece too, so the state before the plan is what the
//!   device shows, and the erase is the plan's first write behind the words. A refused batch is told by `Rejection`,
//!   which has no reason that can't come. By covers the device's tables have to be blank, as every manager by covers
//!   leaves them: it keeps none, and speaks of its device as one with blank tables. `restart` says where its device
//!   stands and what it answers (`on`, `serves`), so a loop of `step` or `carry_out` may follow it; and its insertions
//!   have the aims of the placement (`placed` of `Resumes`), else one that aimed elsewhere met every clause.
//! - **A plan names entries and keeps none**: slot and id, or slot and the place of a new entry. A commit's words are
//!   writes of its plan like all others. The price is in the proofs: what a plan means is said by the entries and new
//!   entries beside it (`as_writes` in `specs/Planning`), and it has to mean the same until the commit has finished.
//!   The manager's view tells device writes (`held_of` and `state_of` in `specs/Kept`). All writes are planned by one
//!   function (`plan_writes`, `AreAllPlanned`), and what undoes them, with the new ids forgotten on want of memory in
//!   one place.
//! - **There is one arrangement, and a plan that ends badly is taken back in it** (`TakesBack`, `StandsAt`). The other way
//!   would be two arrangements that are equal while no commit is held, one to plan on and one that gets the plan's moves
//!   once it has finished: twice the memory at rest, each move made twice in every commit, and no less to prove. The price
//!   is that a plan which is refused late, dropped or reverted takes its moves twice; and that the arrangement before the
//!   plan, of which all that is promised of a commit under way speaks, is known to proofs alone (`Stood`).
//! - **What a write replaces is noted where it is planned** (`AreRestoring` as before): of a move by the planner, which has
//!   the slot in hand; of a new entry or an erase by its id; of a word by the tables, which get the words and lose them
//!   again. A table of what each slot holds took 45 % of a commit of one route in a table of 4,096.
//! - **A plan has a list of each kind of write** (`PlannedWrites`): the words of the tables, the moves of all insertions,
//!   and the new entries and erases behind them, where each insertion once had a list that was copied. All writes in
//!   their order are `all_writes` of the three. The price: what is planned by moves asks that no change is planned yet
//!   (`IsPlannable`), a write is found by comparing its place with two lengths, and the planner's `Moves` may be pushed
//!   to by others, as the erase of a restart's twin is.
//! - **The entry of each id is kept without a word on whether it is live**, since the index tells that (`is_live`): 16 bytes
//!   an id less than with one. Entries put together from piece, priority and result would take 140 less again, but then a
//!   new entry of an id would have to be shown to be that of its piece before the commit has finished.
//! - **What an insertion marks its crossed stretch in is the plan's** (`Sides`), so the insertions of one commit share two
//!   rows of marks. A manager at rest keeps none.
//! - **A refusal's text names its rule as a report does** (`RuleName`): one that says no more than that a priority is
//!   taken leaves a user to look for the rule. The priority alone tells a route from a rule of an access list, since a
//!   route of length 0 has low part 0, which is that of no number. It doesn't tell the version of IP, so that is asked
//!   for: `Refusal::for_version`, of which `Display` has the text for IPv4. An IPv6 address is in groups alone, as
//!   reports have it. A text has no contract, so it is tested (`tests/refusals`). The faults of
//!   batches, stages and restarts, which stand below or aren't a script's, write a priority by its two numbers.
#![tactic(auto)]

mod aims;
mod by_parts;
mod entries;
mod held;
mod insertions;
mod laws;
mod manager;
mod parts;
mod plan;
mod planned_writes;
mod refusal_text;
mod restarting;
mod rule_name;
mod steps;
mod stood;
mod translation;
mod undoing;
mod writes;

pub use commit_writes::Done;
pub use laws::{
    carrying_ends, carrying_takes_rules, goes_back_through_states, journals_grow,
    plans_of_rests_are_restarts, reverts_to_the_old_state, steps_keep_the_way_back, steps_leave,
    turns_leave, ways_back_go_back, writes_leave_current,
};
pub use manager::Manager;
pub use readback::Rejection;
pub use refusal_text::RefusalText;
pub use restarting::RestartFault;
pub use rule_model::Field;
pub use rule_name::RuleName;
pub use rule_store::{BatchFault, Mode};
use tcam_device::Write;
use thiserror::Error;

/// Why a batch isn't taken. Nothing was written then, and rules, manager and device are as they were. `Display` names
/// routes as those of IPv4, [`Refusal::for_version`] as those of either version.
#[derive(Clone, Copy, Debug, PartialEq, Eq, Error)]
pub enum Refusal {
    /// A plan is held, with this many writes still to make.
    Busy { left: u64 },
    /// The rules alone refuse it.
    Rejected(Rejection),
    /// Want of memory.
    Memory,
}

/// Where in its gap an insertion aims.
#[derive(Clone, Copy, Debug, PartialEq, Eq)]
pub enum Placement {
    /// At the middle of the gap.
    Middle,
    /// At the slot of its rank, among the entries that stand before the commit and all that the commit inserts.
    Rank,
    /// Where it is lower than all rules of the set at the start of the gap, where it is higher at the end, and else at the
    /// slot of its rank. A commit that inserts more than stood, and more than a 64th of the slots, spreads its entries by
    /// rank, with a quarter of the slots that stay free behind the last.
    Ends,
}

/// What one step did.
#[derive(Clone, Copy, Debug, PartialEq, Eq)]
pub enum Step {
    /// It made this write, the next of the plan or, on a plan that is turned round, the next undo write.
    Wrote(Write),
    /// The plan had nothing left: the rules are the new set now, and no plan is held.
    Finished(Done),
    /// No plan was held, and nothing changed.
    Idle,
    /// It drained: no word is in flight that has an old meaning of a new bit.
    Drained,
    /// The drain is next, and so many words are in flight. Nothing changed.
    Waiting(u32),
    /// The plan was turned round and has no undo write left, after so many of them: the rules are the old ones, and no
    /// plan is held.
    Reverted(u64),
}

/// Why `carry_out` came to no end of the commit, or to that of one that was turned round. Writes are counted forward,
/// and on a plan that is turned round back.
#[derive(Clone, Copy, Debug, PartialEq, Eq, Error)]
pub enum Unfinished {
    /// A device whose writes fail. The commit is still under way, with this many writes to make, and the one that
    /// failed is the next.
    #[error("the device failed with {left} writes to make")]
    Stuck { left: u64 },
    /// The drain is next, and so many words are in flight. The commit is still under way, with this many writes to
    /// make, and goes on once the words have been searched.
    #[error("{words} words are in flight with {left} writes to make")]
    Waiting { words: u32, left: u64 },
    /// The commit was turned round, and was taken back by so many undo writes.
    #[error("the plan was taken back by {undone} writes")]
    Reverted { undone: u64 },
}

/// Why no plan is turned round. Nothing changed then.
#[derive(Clone, Copy, Debug, PartialEq, Eq, Error)]
pub enum AbortFault {
    /// No plan is held.
    #[error("no plan is held")]
    Idle,
    /// A restart made the plan that is held: what stood before the commit isn't known.
    #[error("a commit that a restart goes on with can't be taken back")]
    Restarted,
    /// The plan is turned round already, with this many undo writes to make.
    #[error("the plan is turned round with {left} writes to make")]
    Back { left: u64 },
}
