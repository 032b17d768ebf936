//! Pieces that are routes: of two that overlap one lies in the other.
ghost use Rattle.std.specs.Prelude.{◌≡◌};
ghost use Rattle.rule_model.specs.AddressBlock.{IsAddressBlock};
ghost use Rattle.overlap_index.specs.Routed.{is_route};

use rule_model::{Piece, Ports, Prefix, Rank};

/// Whether a piece is one by its destination alone, whose priority goes by the length of that.
pub(crate) fn is_route(piece: &Piece, rank: Rank) -> bool
    ensures is { result ≡ is_route piece.now rank }
    ensures right { IsAddressBlock piece.now.dst }
{
    let _addr = piece.dst.addr();
    rank.high == piece.dst.len()
        && piece.proto.is_none()
        && piece.src == Prefix::any()
        && piece.sport == Ports::any()
        && piece.dport == Ports::any()
}
