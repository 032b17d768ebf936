//! Where the insertions of a commit aim.

ghost use Rattle.std.specs.Prelude.{◌≡◌, ◌+◌, ◌<◌, ◌≤◌};
ghost use Rattle.rule_store.specs.Verdict.{entries_of};
ghost use Rattle.batch_order.specs.Placing as placing;
ghost use Rattle.placement.specs.Placement.{rank_slot};

use crate::Placement;
use commit_writes::Ranked;
use move_planner::rank_slot;
use placement::Aim;
use rule_model::Rank;
use rule_store::{Mode, Store};
use slot_order::MOST_SLOTS;

/// The aim of a piece that a commit inserts into a set behind so many others of its pieces. `stood` counts the entries
/// of the set, and `all` those and all that the commit inserts.
pub(crate) fn aim_of(
    placement: Placement,
    mode: Mode,
    slots: u32,
    rules: &Store,
    stood: u32,
    all: u32,
    place: u32,
    ranked: &Ranked,
) -> Aim
    requires few { slots ≤ MOST_SLOTS }
    requires most { all ≤ slots }
    requires stood { stood ≡ entries_of mode rules.now.rules }
    requires place { entries_of mode rules.now.rules + place < all }
    ensures { result ≡ placing.aim_of placement mode slots rules.now.rules all place ranked.now }
{
    if matches!(placement, Placement::Middle) {
        return Aim::Middle;
    }
    let before = rules.entries_above(mode, ranked.rank) as u32 + place;
    match placement {
        Placement::Middle => Aim::Middle,
        Placement::Rank => Aim::At(slot_by_rank(slots, before, all)),
        Placement::Ends => {
            if spreads(slots, stood, all) {
                Aim::At(slot_by_rank(spread_over(slots, all), before, all))
            } else {
                end_or_rank(slots, rules, before, all, ranked.rank)
            }
        }
    }
}

/// The slot by rank of an entry with so many before it, of so many in all.
fn slot_by_rank(slots: u32, before: u32, all: u32) -> u32
    requires few { slots ≤ MOST_SLOTS }
    requires before { before < all }
    ensures { result ≡ rank_slot slots before all }
{
    rank_slot(slots, before, all) as u32
}

/// Whether a commit inserts more entries than stood, and more than a 64th of the slots.
fn spreads(slots: u32, stood: u32, all: u32) -> bool
    requires few { slots ≤ MOST_SLOTS }
    requires most { all ≤ slots }
    requires stood { stood ≤ all }
    ensures { result ≡ placing.spreads slots stood all }
{
    let inserted = all - stood;
    stood < inserted && slots < 64 * inserted
}

/// The slots but a quarter of those that stay free.
fn spread_over(slots: u32, all: u32) -> u32
    requires { all ≤ slots }
    ensures slots { result ≡ placing.spread_over slots all }
    ensures few { result ≤ slots }
{
    slots - (slots - all) / 4
}

/// The end of the gap of what is lower or higher than all rules of a set, or its slot by rank.
fn end_or_rank(slots: u32, rules: &Store, before: u32, all: u32, rank: Rank) -> Aim
    requires few { slots ≤ MOST_SLOTS }
    requires most { all ≤ slots }
    requires before { before < all }
    ensures { result ≡ placing.end_or_rank slots rules.now.rules before all rank }
{
    if !has_lower(rules, rank) {
        Aim::Start
    } else if !has_higher(rules, rank) {
        Aim::End
    } else {
        Aim::At(slot_by_rank(slots, before, all))
    }
}

/// Whether a set has a rule that is lower than a priority: then its last one is.
fn has_lower(rules: &Store, rank: Rank) -> bool
    ensures { result ≡ placing.has_lower rules.now.rules rank }
{
    let count = rules.len();
    count > 0 && rules.at(count - 1).priority < rank
}

/// Whether a set has a rule that is higher than a priority: then its first one is.
fn has_higher(rules: &Store, rank: Rank) -> bool
    ensures { result ≡ placing.has_higher rules.now.rules rank }
{
    let count = rules.len();
    count > 0 && rank < rules.at(0).priority
}
