//! Where a new entry goes and which entries move for it: the pure theory, with nothing to run.
//!
//! `specs/Live` has the ids that stand for pieces, and which of two overlapping ones is above the other; `specs/Placement`
//! the place that a new id takes in an arrangement of ids, and the moves that make room for it; `specs/Insertion` what an
//! insertion finds and leaves; `specs/Ready` what it begins with. The lemmas (`proofs/Planned`): the moves of a placement
//! are an insertion in the words of `slot_moves`, so the order holds after each of them, and they are within its bounds.
//!
//! It stands below both who plans moves (`move_planner`, over an index that knows which ids overlap) and who says what a
//! commit writes (`commit_writes`), so that neither hangs on the other.
#![tactic(auto)]

use rule_model::{Piece, Rank};

/// A live id with its piece and its priority.
#[derive(Clone, Copy, Debug)]
pub struct LivePiece {
    pub id: u32,
    pub piece: Piece,
    pub rank: Rank,
}

/// One move of a plan.
#[derive(Clone, Copy, Debug, PartialEq, Eq)]
pub enum Move {
    /// Into a slot goes an id: the slot is empty, or what it holds stands in another one too.
    Put(u32, u32),
    /// A slot is emptied.
    Erase(u32),
}

/// Where a new id would stand best. Of the free slots that it may take it takes the one nearest to that. Where it may take
/// none, a chain of entries makes way for it, and the aim says too where the last of them goes.
#[derive(Clone, Copy, Debug, PartialEq, Eq)]
pub enum Aim {
    /// The middle of the gap, as it is once nothing crosses. The last of a chain goes to the nearest free slot.
    Middle,
    /// A slot, in the gap or not. The last of a chain goes where it belongs by its own priority, as far as it may.
    At(u32),
    /// The start of the gap, for an id that is lower than all others. The last of a chain goes as far as it may.
    Start,
    /// The end of the gap, for an id that is higher than all others. The last of a chain goes as far as it may.
    End,
}
