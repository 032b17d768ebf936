//! The key of an IPv6 packet.

ghost use Rattle.std.specs.Prelude.{◌≡◌, ◌+◌, ◌<◌, ◌≤◌, ◌↔◌, length, Err, IsTrue, IsErr, OnOk, IfOk, IfErr};
ghost use Rattle.packet_keys.specs.Frame.{version_of, number_at};
ghost use Rattle.packet_keys.specs.Frame6.{key6_of_frame, has_ports6, port6_at};

use crate::{FrameFault, TCP, UDP, number_of_two};
use byteorder::{BigEndian, ByteOrder};
use rule_model::{Addr, Key};

/// The bytes of an IPv6 header, which has no options of its own.
const HEADER: usize = 40;

/// The bytes of an IPv6 header and two ports.
const HEADER_AND_PORTS: usize = HEADER + 4;

/// The key of a frame that begins with an IPv6 header (RFC 8200, section 3).
///
/// The protocol is the header's next header, also where that is an extension header (RFC 8200, section 4): none is
/// walked. Ports are those of TCP (RFC 9293, section 3.1) and UDP (RFC 768), and 0 otherwise. Faults are found in this
/// order: Empty where there is no byte, Version where the version isn't 6, and Short where the header or the ports
/// behind it are cut off. No other field is looked at.
pub fn key6_of_frame(frame: &[u8]) -> Result<Key, FrameFault>
    ensures { result ≡ key6_of_frame frame.now }
{
    expect_header(frame)?;
    let (sport, dport) = ports(frame)?;
    Ok(Key {
        src: address_at(frame, 8),
        dst: address_at(frame, 24),
        proto: frame[6],
        sport,
        dport,
    })
}

/// Sees that the frame begins with an IPv6 header, the whole of which is there.
fn expect_header(frame: &[u8]) -> Result<(), FrameFault>
    ensures whole { OnOk result (HEADER ≤ length frame.now) }
    ensures version { OnOk result (version_of frame.now ≡ 6) }
    ensures err { IfErr result (λ fault. key6_of_frame frame.now ≡ Err fault) }
{
    let first = *frame.first().ok_or(FrameFault::Empty)?;
    if first >> 4 != 6 {
        return Err(FrameFault::Version);
    }
    if frame.len() < HEADER {
        return Err(FrameFault::Short);
    }
    Ok(())
}

/// The source and the destination port behind the header, 0 where there are none.
fn ports(frame: &[u8]) -> Result<(u16, u16), FrameFault>
    requires { HEADER ≤ length frame.now }
    ensures source { IfOk result (λ ports. ports.0 ≡ port6_at frame.now HEADER) }
    ensures destination { IfOk result (λ ports. ports.1 ≡ port6_at frame.now (HEADER + 2)) }
    ensures fault { IfErr result (λ fault. fault ≡ FrameFault.Short) }
    ensures cut_off { IsErr result ↔ (IsTrue (has_ports6 frame.now) × (length frame.now < HEADER_AND_PORTS)) }
{
    if !matches!(frame[6], TCP | UDP) {
        return Ok((0, 0));
    }
    if frame.len() < HEADER_AND_PORTS {
        return Err(FrameFault::Short);
    }
    Ok((
        number_of_two(frame, HEADER),
        number_of_two(frame, HEADER + 2),
    ))
}

/// The address whose 16 bytes stand at a place.
fn address_at(frame: &[u8], place: usize) -> Addr
    requires { place + 16 ≤ length frame.now }
    ensures { result ≡ number_at frame.now place 16 }
{
    BigEndian::read_u128(&frame[place..])
}
