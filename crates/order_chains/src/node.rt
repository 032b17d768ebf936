//! A pair as it lies in a block: a member of two doubly linked lists.

/// The two neighbours of a node in a list, by their places.
#[derive(Clone, Copy, Debug)]
pub(crate) struct Link {
    pub(crate) next: u32,
    pub(crate) back: u32,
}

/// A pair of ids, a member of the upper one's below list and of the lower one's above list.
#[derive(Clone, Copy, Debug)]
pub(crate) struct Node {
    pub(crate) upper: u32,
    pub(crate) lower: u32,
    pub(crate) below: Link,
    pub(crate) above: Link,
}
