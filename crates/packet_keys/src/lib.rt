//! The key of a packet, from the bytes of its headers.
//!
//! A frame begins with its IPv4 header (RFC 791, section 3.1). For TCP (RFC 9293, section 3.1) and UDP
//! (RFC 768) the two ports are the first four bytes behind that header, of which only the first
//! fragment of a packet has them:
//!
//!     byte 0             6          9         12       16       header's end
//!     version, words ..  fragment ..  protocol ..  source  destination ..  source port, destination port
//!
//! Or it begins with its IPv6 header (RFC 8200, section 3), behind which the ports stand likewise where the next
//! header is TCP or UDP. Extension headers aren't walked, so a packet that has one has ports 0:
//!
//!     byte 0       6               8       24           40
//!     version ..  next header ..  source  destination  source port, destination port
//!
//! `key_of_frame` and `key6_of_frame` look at these fields alone, test lengths before they read, and name the
//! first fault that they meet. They take no memory.
//!
//! # Decided
//! - **Extension headers of an IPv6 frame aren't walked**: the protocol is the header's next header. So a frame with
//!   options or a fragment header has their number as its protocol, and ports 0.
#![tactic(auto)]

ghost use Rattle.std.specs.Prelude.{◌≡◌, ◌↔◌, ◌+◌, ◌<◌, ◌≤◌, length, IsTrue, IsErr, OnOk, IfOk, IfErr};
ghost use Rattle.packet_keys.specs.Frame.{key_of_frame, header_len, version_of, has_ports, number_at, port_at};

mod ipv6;

use byteorder::{BigEndian, ByteOrder};
pub use ipv6::key6_of_frame;
use rule_model::Key;
use thiserror::Error;

/// The bytes of an IPv4 header without options.
const LEAST_HEADER: usize = 20;

/// The protocol number of TCP, which has ports.
const TCP: u8 = 6;

/// The protocol number of UDP, which has ports.
const UDP: u8 = 17;

/// Why a frame has no key.
#[derive(Clone, Copy, Debug, PartialEq, Eq, Error)]
pub enum FrameFault {
    /// There is no byte.
    #[error("empty packet")]
    Empty,
    /// The version is not that of the frame's kind, 4 or 6.
    #[error("bad version")]
    Version,
    /// The header of IPv4 is shorter than five words of four bytes.
    #[error("bad header length")]
    HeaderLength,
    /// The header is cut off, or the ports behind it are.
    #[error("short packet")]
    Short,
}

/// The key of a frame that begins with an IPv4 header (RFC 791, section 3.1).
///
/// Ports are those of the first fragment of a TCP or UDP packet (RFC 9293, section 3.1, and RFC 768), and
/// 0 otherwise. Faults are found in this order: Empty where there is no byte, Version where the version
/// isn't 4, HeaderLength where the header has fewer than five words, and Short where the header or its
/// ports are cut off. No other field is looked at.
pub fn key_of_frame(frame: &[u8]) -> Result<Key, FrameFault>
    ensures { result ≡ key_of_frame frame.now }
{
    let header_len = whole_header_len(frame)?;
    let (sport, dport) = ports_after(frame, header_len)?;
    let src = address_at(frame, 12);
    let dst = address_at(frame, 16);
    Ok(Key::v4(src, dst, frame[9], sport, dport))
}

/// The length in bytes of the header that the frame begins with, the whole of which is there.
fn whole_header_len(frame: &[u8]) -> Result<usize, FrameFault>
    ensures len { IfOk result (λ len. len ≡ header_len frame.now) }
    ensures whole { IfOk result (λ len. (LEAST_HEADER ≤ len) × (len ≤ length frame.now)) }
    ensures version { OnOk result (version_of frame.now ≡ 4) }
    ensures err { IfErr result (λ fault. key_of_frame frame.now ≡ Err fault) }
{
    let first = *frame.first().ok_or(FrameFault::Empty)?;
    if first >> 4 != 4 {
        return Err(FrameFault::Version);
    }
    let header_len = 4 * usize::from(first & 0x0f);
    if header_len < LEAST_HEADER {
        return Err(FrameFault::HeaderLength);
    }
    if frame.len() < header_len {
        return Err(FrameFault::Short);
    }
    Ok(header_len)
}

/// The source and the destination port behind a header of so many bytes, 0 where there are none.
fn ports_after(frame: &[u8], header_len: usize) -> Result<(u16, u16), FrameFault>
    requires least { LEAST_HEADER ≤ header_len }
    requires whole { header_len ≤ length frame.now }
    requires small { header_len ≤ 60 }
    ensures source { IfOk result (λ ports. ports.0 ≡ port_at frame.now header_len) }
    ensures destination { IfOk result (λ ports. ports.1 ≡ port_at frame.now (header_len + 2)) }
    ensures fault { IfErr result (λ fault. fault ≡ FrameFault.Short) }
    ensures cut_off { IsErr result ↔ (IsTrue (has_ports frame.now) × (length frame.now < header_len + 4)) }
{
    if !has_ports(frame) {
        return Ok((0, 0));
    }
    if frame.len() < header_len + 4 {
        return Err(FrameFault::Short);
    }
    Ok((
        number_of_two(frame, header_len),
        number_of_two(frame, header_len + 2),
    ))
}

/// Whether ports follow the header: it is the first fragment of a TCP or UDP packet.
fn has_ports(frame: &[u8]) -> bool
    requires { LEAST_HEADER ≤ length frame.now }
    ensures { result ≡ has_ports frame.now }
{
    let fragment_offset = number_of_two(frame, 6) & 0x1fff;
    matches!(frame[9], TCP | UDP) && fragment_offset == 0
}

/// The number of two bytes at a place, the most significant first.
fn number_of_two(frame: &[u8], place: usize) -> u16
    requires { place + 2 ≤ length frame.now }
    ensures { result ≡ number_at frame.now place 2 }
{
    BigEndian::read_u16(&frame[place..])
}

/// The address whose four bytes stand at a place.
fn address_at(frame: &[u8], place: usize) -> u32
    requires { place + 4 ≤ length frame.now }
    ensures { result ≡ number_at frame.now place 4 }
{
    BigEndian::read_u32(&frame[place..])
}
