//! A row of places in raw memory, each empty or holding a node. What is here is proved by hand, and nothing else.
ghost use Rattle.std.specs.Prelude.{◌≡◌, ℕ, ◌*◌, ◌^◌, ◌<◌, List, Option, Some, None, length, replicate, get_or, slice_set, IfOk};
ghost use denote.RawPtr.{Ptr};
ghost use Rattle.order_chains.specs.declared.node.Node.{Node as Held};
ghost use Rattle.order_chains.specs.Ownership.{places_owned, places_lent, row_of};

use crate::node::Node;
use std::alloc::{AllocError, Allocator};
use std::marker::{Model, PhantomData};
use std::mem::{align_of, size_of};

/// The owner of the places, which begin at an address.
pub(crate) struct Places {
    at: *mut Node,
    ghost nodes: { List (Option Held) },
}

impl Model for Places {
    ghost also_owns = { λ p. places_owned p.at p.nodes };

    ghost also_shares = { λ p _ κ. places_lent p.at p.nodes κ };
}

/// The right to give the block of `len` places at `start` back to the allocator. It takes no space.
pub(crate) struct Deed<A: Allocator> {
    mark: PhantomData<A>,
    ghost alloc: { A },
    ghost start: { Ptr },
    ghost len: { ℕ },
}

impl<A: Allocator> Model for Deed<A> {
    ghost also_owns = { λ d. A.dealloc_token d.alloc (row_of d.len) d.start };
}

/// A block of `len` empty places.
pub(crate) fn take<A: Allocator>(alloc: &A, len: usize) -> Result<(Places, Deed<A>), AllocError>
    requires { len * 24 < 2 ^ 63 }
    ensures { IfOk result (λ r. (r.0.nodes ≡ replicate len None) × (r.1.alloc ≡ alloc.now) × (r.1.start ≡ r.0.at) × (r.1.len ≡ len)) }
{
    match alloc.allocate(len * size_of::<Node>(), align_of::<Node>()) {
        Ok(block) => {
            let at = block as *mut Node;
            let mark = PhantomData;
            Ok((Places { at }, Deed { mark }))
        }
        Err(error) => Err(error),
    }
}

/// Gives a block back, with what its places hold. That it does no clause can say: what is owned may always be dropped, and
/// an allocator tells nothing of a block that it has back.
pub(crate) fn give_back<A: Allocator>(places: Places, deed: Deed<A>, alloc: &A, len: usize)
    requires { (deed.alloc ≡ alloc.now) × (deed.start ≡ places.at) × (deed.len ≡ len) × (length places.nodes ≡ len) }
{
    let Places { at } = places;
    let Deed { mark: _ } = deed;
    unsafe {
        alloc.deallocate(at as *mut u8, len * size_of::<Node>(), align_of::<Node>());
    }
}

impl Places {
    /// Puts a node into a place, over what it held.
    pub(crate) fn put(&mut self, index: usize, node: Node)
        requires { index < length self.old.nodes }
        ensures { (self.new.at ≡ self.old.at) × (self.new.nodes ≡ slice_set self.old.nodes index (Some node)) }
    {
        unsafe { self.at.add(index).write(node) }
    }

    /// The node that a place holds.
    pub(crate) fn get(&self, index: usize) -> &Node
        requires { (x : Held) × (get_or self.now.nodes index None ≡ Some x) }
        ensures { get_or self.now.nodes index None ≡ Some result.now }
    {
        unsafe { &*self.at.add(index) }
    }
}
