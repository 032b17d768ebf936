//! The pieces that stand in a device, each with an id again.

ghost use Rattle.std.specs.Prelude.{◌≡◌, ◌<◌, ◌≤◌, ◌∷◌, [], true, IfOk, IfSome, Some, length, slice_set};
ghost use Rattle.slot_order.specs.Order as order;
ghost use Rattle.batch_order.specs.Entries.{AreTold};
ghost use Rattle.batch_order.specs.Standing.{AreEncodable, AreStanding, HasPieceOf, IsWithTwin, without_twin};

use crate::entries::LiveEntries;
use commit_writes::Ranked;
use slot_order::MOST_SLOTS;
use slot_pool::Arrangement;
use std::alloc::{AllocError, Global};

/// The live entries of the pieces that stand, and where they do.
#[derive(Drop)]
pub(crate) struct Standing {
    pub(crate) live: LiveEntries,
    pub(crate) arrangement: Arrangement,
}

/// Gives an id to the piece of each slot in use, in the order of the slots, but to the twin's, which is left empty.
pub(crate) fn standing_in(
    alloc: Global,
    slots: u32,
    places: &[Option<Ranked>],
    twin: Option<u32>,
) -> Result<Standing, AllocError>
    requires least { 1 ≤ slots }
    requires most { slots ≤ MOST_SLOTS }
    requires places { slots ≤ length places.now }
    requires encodable { AreEncodable places.now }
    ensures standing { IfOk result (λ standing. AreStanding slots (without_twin twin places.now) standing.live standing.arrangement) }
    ensures slots { IfOk result (λ standing. standing.live.slots ≡ slots) }
    ensures told { IfOk result (λ standing. AreTold standing.live standing.arrangement) }
{
    let mut live = LiveEntries::new(alloc, slots)?;
    let mut arrangement = Arrangement::new(alloc, slots)?;
    for slot in 0..slots {
        if let Some(ranked) = piece_at(places, twin, slot) {
            let id = live.add(&ranked.piece, ranked.rank, ranked.result)?;
            arrangement.put(slot, id);
            live.tell(&arrangement, id);
        }
    }
    Ok(Standing { live, arrangement })
}

/// The piece in a slot, but none in the twin's.
fn piece_at(places: &[Option<Ranked>], twin: Option<u32>, slot: u32) -> Option<Ranked>
    requires { slot < length places.now }
    ensures { result ≡ order.slot (without_twin twin places.now) slot }
{
    if twin == Some(slot) {
        None
    } else {
        places[slot as usize]
    }
}

/// Where they stand with the twin: its slot has the id of its piece, too.
pub(crate) fn arrangement_with_twin(
    alloc: Global,
    standing: &Standing,
    places: &[Option<Ranked>],
    twin: Option<u32>,
) -> Result<Arrangement, AllocError>
    requires { HasPieceOf twin places.now standing.now.live standing.now.arrangement }
    ensures { IfOk result (IsWithTwin twin places.now standing.now.live.live standing.now.arrangement) }
{
    let mut arrangement = standing.arrangement.try_copy(alloc)?;
    if let Some(slot) = twin {
        if let Some(ranked) = places[slot as usize] {
            let id = standing.live.id_of(&ranked.piece, ranked.rank).unwrap();
            arrangement.put(slot, id);
        }
    }
    Ok(arrangement)
}
