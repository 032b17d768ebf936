//! The table manager for drivers in C: a static library with C functions.
//!
//! **Who does what.** The memory belongs to the caller. It puts changes into a pending batch, has the batch judged and
//! planned by `tcam_prepare`, and then asks `tcam_next` which write is due, makes it, and says so by `tcam_made`. A
//! write that fails is asked for again: `tcam_next` tells the same one until `tcam_made` comes. Where a drain is due it
//! tells that: the caller waits until no look-up whose word was made before is still to be searched, and says so by
//! `tcam_drained`. So no call of this library waits for hardware, and none calls back into C.
//!
//! **Taking back.** `tcam_abort` turns the commit under way round: then `tcam_next` tells the writes that undo those
//! that were told as made, the last one first, and `tcam_made` takes them. The way back passes no state that the commit
//! didn't pass, so nobody waits for look-ups, and no drain is due.
//!
//! **Two kinds of memory.** Behind a handle that `tcam_new` made stands a memory whose slots hold whole entries, led by a
//! `batch_order::Manager`; behind one of `tcam_new_split` a memory whose results stand beside its slots, led by a
//! `split_order::SplitManager`. The calls are the same ones: `tcam_next` tells of the second the parts of a write, a result
//! word being a kind of its own, and its drains, for which nothing may be under way.
//!
//! **What may be asked.** A change is strict, and fails where the set isn't as it takes it to be, or forgiving: a rule is to
//! stand, or to go, whatever was there. A batch with forgiving ones is settled over the set where it is prepared
//! (`settled_changes`), or read as the whole new set; what it comes to is a batch as any other.
//!
//! **What C holds.** A [`TcamManager`] is two words in the caller's own memory: whether there is a manager, and a
//! pointer to what belongs to it. One that is all zeros is a manager that isn't made, and each call says so. So the
//! handle's misuses that a program can see are answered by a code: no manager, a manager that is made twice, freed
//! twice, or used behind `tcam_free`.
//!
//! **What is proved.** Each function's clauses are those of the manager's call that it makes, over what stands behind
//! the pointer ([`Called`]). Before the first write, after each write and even where the write that is due was made and
//! not told, each key is answered as the old rules or the new ones do.
//!
//! `include/tcam.h` is the C side of this, and `docs/C.md` what is proved and what the C side owes.
//!
//! # Decided
//! - **C is told the next write and says that it was made**, and isn't called back: what C code does in a call back no
//!   clause can say, and a device that fails each write until it is told has a clause for the failure alone, not for
//!   the write that was asked. So `Manager::next_write`, `serving` and `drains_next` are public, `tcam_next` changes
//!   nothing, and `tcam_made` is the manager's step over hardware that took the write already, of which it is proved
//!   that no write failed. The price is the shadow of all slots beside the caller's memory, which `tcam_answer`
//!   reads. A commit settles with its last write, so no call only ends it.
//! - **One handle for both kinds of memory** (`Table`), so that a driver's loop is the same, and what a call does is said by
//!   kind (`specs/Tables`). The batch is beside it, since it has no kind. The price is that a misuse across kinds, a driver
//!   that has no result memory and calls `tcam_new_split`, shows only by a kind that it doesn't know.
//! - **A commit by parts that has begun isn't taken back**: its manager has no way back. `tcam_abort` drops its plan where
//!   nothing was made yet, and else answers a code of its own.
//! - **A drain is a kind of what is due, with a call of its own**, `tcam_drained`: the caller waits, since the
//!   library's own memory has no word in flight. Either call answers a code where the other one is due, so a driver
//!   that knows no drain stops there and does no harm.
//! - **A commit is taken back by one call and the same loop.** The undo writes have no kind of their own, so a driver
//!   that is tried on the way there is on the way back. With nothing to undo the commit is over in the call itself, as
//!   one with nothing to make is in `tcam_prepare`. A second call answers `TCAM_BACK` with the writes that are left,
//!   since a driver that takes its answer for a commit that was just turned would count them wrong. Undone is what
//!   `tcam_made` came for: of a write that failed and was made all the same the library knows nothing, so the driver
//!   makes it first.
//! - **Of several wrong numbers C is told the first** (`IsRuleFault`), in the order number, source, destination, ports,
//!   protocol, so a driver that corrects its rule by the code is told the same by each build.
//! - **IPv6 has exports of its own** (`exports6`, `changes6`, `specs/Codes6`), since an export takes no enum with data, and
//!   what is wrong with a prefix is said by its version; behind them all is the same.
//! - **The rules are told by a cursor that is a place in their order**, so that the library keeps nothing of a walk, and C
//!   may give any number.
//! - **A batch is of strict commands until the first forgiving change** ([`in_hand`]), so that what is said of strict batches
//!   stays, and that want of memory comes before no fault of theirs. From then on it is of requests, each in its place.
//! - **A handle is two words**, a flag and a pointer to bytes. An export can answer no pointer, and takes no struct
//!   whose Rust type points to one with a `Vec`, so what the bytes own is said in ghost data. By the flag a misuse is
//!   told without a test of the pointer, which needs a proof about where it points. Each call takes what stands behind
//!   the handle out and puts it back: two moves of a pointer, and proofs by hand of five functions of two lines alone.
#![tactic(auto)]

mod changes;
mod changes6;
mod codes;
mod exports;
mod exports6;
mod handle;
mod in_hand;
mod loose;
mod moved;
mod outside;
mod part_steps;
mod plain;
mod preparing;
mod put_exports;
mod puts;
mod restart_exports;
mod restart_steps;
mod restarting;
mod session;
mod split;
mod stage_told;
mod steps;
mod stored;
mod table;
mod told;
mod told_ranges;
mod whole;
