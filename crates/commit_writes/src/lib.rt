//! What a commit writes, and the numbers of its writes: the theory that the manager's plans are held to, and what is cut
//! and counted before there is a plan.
//!
//! An accepted batch leads from a set of rules to the set after it by a **segment** of device writes, which has four
//! parts: words of the translation tables, insertions, new results, erases. `specs/Shape` says which writes these are,
//! `specs/Commit` that a segment is hitless, turns a key's answer at most once where no rule is replaced, keeps the
//! device in order, with the new set's entries in the end, each once, and is within the bounds on insertions,
//! `specs/Bits` which range of ports has which bit meanwhile, `specs/Serving` when the tables serve the ranges of some
//! rules. None of them knows how a segment is planned.
//!
//! `specs/Planned` speaks of a plan: insertions one after the other, each with the moves of its placement. The lemma
//! that the manager rests on is in `proofs/`: from an arrangement in order, the device writes of such insertions are a
//! segment; `specs/PlannedBatch` adds the results that change and the entries that go.
//!
//! A look-up may be two events, a key's translation into a word by the tables and the word's search in the slots, with
//! writes between them. `specs/InFlight` says which words in flight are current, `specs/Actions` where a commit has to
//! wait until none is in flight, `specs/Undo` what takes a commit back, and `specs/Segments` what packets see of both,
//! from what a manager keeps between commits. The laws are proved here; `lookup_turns` makes such look-ups.
//!
//! The code is what a manager and who reads a device back share: `batch` cuts the rules that a batch changes into
//! pieces, `translation` keeps which port range has which bit, and the words of the tables.
//!
//! # Decided
//! - **A segment is also in order after every write** (`KeepsOrder`): while insertions are made, the entries of the old
//!   set stand with the first of the new ones, each in one slot where an insertion begins, and at most one in two slots
//!   inside it; from the last insertion on, entries on the way from the old set to the new one, each in one slot; in
//!   the end exactly the new set's. Hitlessness and counts alone would let a commit lose an entry that others shadow,
//!   leave one twice, or write a new result before its turn and again at it.
//! - **While insertions are made the number of inserted pieces that stand never falls** (`rising` in `KeepsPieces`): so an
//!   entry is put over another one only where that one stands in a second slot, and its slot can be erased first. A
//!   device that holds keys and results apart needs this of each write, and would else have to go back to how the
//!   segment was planned. Which pieces stand was said of each state by itself.
//! - **Where no rule is replaced a key's answer turns at most once** (`TurnsOnce`): up to some write it is the old
//!   set's, from there on the new one's. Hitlessness alone would let a key go back and forth. The premise,
//!   `ReplacesNone`, is said of the batch alone, and can't be dropped: entries of a replaced rule and of the new one
//!   have one tag and may overlap, so the moves of an insertion may carry an old one past a new one. In 5 slots with
//!   `acl add 10 deny any any any any 0-7`, the batch of `acl del 10`, `acl add 10 permit any any any any 2-4` and
//!   `acl add 20 permit any any any any 4-6` has port 2 permitted from its first write on, denied from its fourth, and
//!   permitted from its sixth. The price is in the proofs: how a state of a commit leads to the next (`IsOnward`), and
//!   that a rule's pieces are disjoint.
//! - **What tables serve is said once, beside the live ranges** (`AreTranslated` in `specs/Serving`, `ranges_in` in
//!   `specs/Bits`), and what puts back each of some writes beside what undoes them (`restorings` in `specs/Undo`);
//!   stages cite both.
//! - **What a commit serves has an end that is named** (`ServingTo`, `LeadsTo` in `specs/InFlight`): behind any first
//!   part of its actions the device serves the ranges before it, or from the drain on those meanwhile, and words in
//!   flight are current for them; behind a return, those before it. Without an end a second commit had no premise to
//!   begin with.
//! - **The theory has two halves**: the words of the tables in front, and the writes of slots behind them, from any
//!   state whose tables serve the rules (`AreServing`). By covers the first half is empty. Between commits the live
//!   ranges are those that some rule needs, and the tables serve them (`AreBitsOf`). `KeepsOrder` is `KeepsPieces` for
//!   the pieces of both sets, and says of each state that the tables serve the pieces that stand, too (`HoldsInOrder`),
//!   which by covers says nothing more.
//! - **The bound of routes takes the version of IP** (`IsRoute`, `prefix_lengths` in `specs/Routes`): one statement for
//!   both, that no insertion takes more writes than a prefix may have lengths.
#![tactic(auto)]

mod batch;
mod laws;
mod translation;

pub use batch::{Pieces, Ranked, batch_pieces, set_pieces};
pub use laws::{
    commits_come_to_rest, commits_serve, ends_where_it_began, passes_no_new_state,
    rests_on_wider_devices, returns_are_hitless, returns_serve, searches_answer_as_look_ups,
    sees_old_or_new, sees_old_or_new_back, words_stay_current,
};
use rule_model::Entry;
pub use translation::{FieldBits, TableWord, Tables, added_ranges, free_bits, is_map_of};

/// The numbers of a commit: its device writes and those to the translation tables, the writes of its longest insertion,
/// and the greatest crossing span of one.
#[derive(Clone, Copy, Debug, PartialEq, Eq)]
pub struct Done {
    pub writes: u64,
    pub words: u32,
    pub most: u32,
    pub span: u32,
}

/// An id that gets an entry in place of its own: the same but for the result.
#[derive(Clone, Copy, Debug, PartialEq, Eq)]
pub struct Rewrite {
    pub id: u32,
    pub entry: Entry,
}
