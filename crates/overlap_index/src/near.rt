// What is kept of the live pieces, by which those that may overlap one are found.
ghost use Rattle.std.specs.Prelude.{◌≡◌, ◌≤◌};
ghost use Rattle.overlap_index.specs.Near.{ports_of, spans_of};

use block_windows::{Span, span_of};
use rule_model::{Piece, Ports};

/// The windows of a piece: of three of its destination, the upper 32 bits, the next 32 and the lowest 32, of the
/// upper 32 bits of its source, and of its destination ports.
#[derive(Clone, Copy)]
pub(crate) struct Spans {
    pub(crate) dst: Span,
    pub(crate) next: Span,
    pub(crate) low: Span,
    pub(crate) src: Span,
    pub(crate) ports: Span,
}

/// The first and the last port.
fn ports_of(ports: &Ports) -> Span
    ensures value { result ≡ ports_of ports.now }
    ensures ordered { result.first ≤ result.last }
{
    Span {
        first: u32::from(ports.lo()),
        last: u32::from(ports.hi()),
    }
}

/// All of a piece.
pub(crate) fn spans_of(piece: &Piece) -> Spans
    ensures value { result ≡ spans_of piece.now }
    ensures ordered { result.ports.first ≤ result.ports.last }
{
    Spans {
        dst: span_of(&piece.dst, 0),
        next: span_of(&piece.dst, 32),
        low: span_of(&piece.dst, 96),
        src: span_of(&piece.src, 0),
        ports: ports_of(&piece.dport),
    }
}
