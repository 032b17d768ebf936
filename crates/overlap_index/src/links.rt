//! The links of a new id to those that overlap it.
ghost use Rattle.std.specs.Prelude.{◌≡◌, ◌≢◌, ◌+◌, ◌<◌, ◌≤◌, ℕ, Contains, length, nat_eq};
ghost use Rattle.std.specs.List.{IsDistinct};
ghost use Rattle.order_chains.specs.Pairs.{HasPair, spare_of};
ghost use Rattle.overlap_index.specs.Linked.{HaveMore};

use order_chains::Edges;

/// Links an id to each of those above it.
pub(crate) fn link_above(edges: &mut Edges, above: &[u32], id: u32)
    requires room { length above.now ≤ spare_of edges.old }
    requires small { id < edges.old.ids }
    requires others { (upper : ℕ) → Contains above.now upper → (upper < edges.old.ids) × (upper ≢ id) }
    requires once { IsDistinct nat_eq above.now }
    requires absent { (upper : ℕ) → Contains above.now upper → HasPair edges.old upper id → ⊥ }
    ensures linked { HaveMore edges.old edges.new (λ upper lower. Contains above.now upper × (lower ≡ id)) }
    ensures room { spare_of edges.new + length above.now ≡ spare_of edges.old }
    ensures ids { edges.new.ids ≡ edges.old.ids }
{
    for upper in above {
        edges.link(*upper, id);
    }
}

/// Links an id to each of those below it.
pub(crate) fn link_below(edges: &mut Edges, id: u32, below: &[u32])
    requires room { length below.now ≤ spare_of edges.old }
    requires small { id < edges.old.ids }
    requires others { (lower : ℕ) → Contains below.now lower → (lower < edges.old.ids) × (lower ≢ id) }
    requires once { IsDistinct nat_eq below.now }
    requires absent { (lower : ℕ) → Contains below.now lower → HasPair edges.old id lower → ⊥ }
    ensures linked { HaveMore edges.old edges.new (λ upper lower. (upper ≡ id) × Contains below.now lower) }
    ensures ids { edges.new.ids ≡ edges.old.ids }
{
    for lower in below {
        edges.link(id, *lower);
    }
}
