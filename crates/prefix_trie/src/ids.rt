//! What changes of the nodes where an id gets a prefix, loses it, or gets a slot.
ghost use Rattle.std.specs.Prelude.{◌≡◌, ◌<◌, ℕ, Some, None, IsSome, length, slice_set};
ghost use Rattle.prefix_trie.specs.Routes.{Routes, IsNew, route_of};
ghost use Rattle.prefix_trie.specs.Changes.{with_slot};
ghost use Rattle.prefix_trie.specs.Trie.{AreParts, IsDeepest, IsRoom};

use crate::cell::Cell;
use crate::growth::{make, prune, stand};
use crate::place::Place;
use rule_model::Prefix;

/// Gives an id a prefix that no id has, with two empty places, of which those are taken that are needed, below the deepest
/// node that covers it.
pub(crate) fn enter(
    nodes: &mut [Cell],
    places: &mut [Place],
    room: (u32, u32),
    deep: u32,
    prefix: &Prefix,
    id: u32,
)
    requires parts { (routes : Routes) × AreParts routes places.old nodes.old × (route_of routes id ≡ None) × IsNew routes prefix.now }
    requires small { id < length places.old }
    requires first { IsRoom nodes.old 0 room.0 }
    requires second { IsRoom nodes.old room.0 room.1 }
    requires deep { IsDeepest nodes.old prefix.now deep }
    ensures { (routes : Routes) → AreParts routes places.old nodes.old → route_of routes id ≡ None → IsNew routes prefix.now → AreParts (slice_set routes id (Some (record { block = prefix.now; slot = None }))) places.new nodes.new }
{
    let at = make(nodes, room.0, room.1, deep, prefix);
    stand(nodes, at, Place::some(id), Place::none());
    places[id as usize] = Place::some(at);
}

/// Takes an id's prefix away. Tells the places of the nodes that went with it.
pub(crate) fn leave(nodes: &mut [Cell], places: &mut [Place], id: u32) -> (Option<u32>, Option<u32>)
    requires { (routes : Routes) × AreParts routes places.old nodes.old × IsSome (route_of routes id) }
    ensures { (routes : Routes) → AreParts routes places.old nodes.old → IsSome (route_of routes id) → AreParts (slice_set routes id None) places.new nodes.new }
{
    let Some(at) = places[id as usize].get() else {
        return (None, None);
    };
    stand(nodes, at, Place::none(), Place::none());
    places[id as usize] = Place::none();
    prune(nodes, at)
}

/// Lets an id stand in a slot, or in none.
pub(crate) fn stand_at(nodes: &mut [Cell], places: &[Place], id: u32, slot: Place)
    requires { (routes : Routes) × AreParts routes places.now nodes.old × IsSome (route_of routes id) }
    ensures { (routes : Routes) → AreParts routes places.now nodes.old → IsSome (route_of routes id) → AreParts (with_slot routes id slot) places.now nodes.new }
{
    let Some(at) = places[id as usize].get() else {
        return;
    };
    stand(nodes, at, Place::some(id), slot);
}
