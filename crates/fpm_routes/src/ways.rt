//! Where packets go, in words, by what a message says of it.

ghost use Rattle.std.specs.Prelude.{◌≡◌, ◌≤◌, ◌+◌, ◌++◌, ℕ, Some, IfOk, OnOk, None, decimal, length, slice_index, MatchOption};
ghost use Rattle.fpm_routes.specs.Bytes.{part_of, two_at};
ghost use Rattle.packet_keys.specs.Frame.{number_at};
ghost use Rattle.fpm_routes.specs.Attributes.{find};
ghost use Rattle.fpm_routes.specs.Ways.{address_text, device_by, device_text, dotted_text, family_text, fitting_words, gateway_text, group_member, group_text, group_words, hop_text, made_of, member_text, member_words, members_text, named_address, object_name, object_text, set_or_hop, single_text, unicast_text, via_text, way_text, IsMade};

use crate::attributes::{Place, check, find};
use crate::bytes::{behind, byte_at, four_at, is_done, is_short, part_of, two_at};
use crate::why::{Unsaid, Why};
use byteorder::{BigEndian, ByteOrder};
use itoa::Buffer;
use line_words::Ipv6Text;
use rule_model::Addr;
use std::alloc::AllocError;

/// The bytes of an address of IPv6.
const LONG_ADDRESS: usize = 16;

/// The most bytes in words that say where packets go.
const WAY_BYTES: usize = 400;

/// Puts a number there, in decimal.
pub(crate) fn put_number(into: &mut Vec<u8>, number: u64) -> Result<(), AllocError>
    ensures { OnOk result (into.new.items ≡ into.old.items ++ decimal number) }
{
    let mut digits = Buffer::new();
    into.extend_from_slice(digits.format(number).as_bytes())?;
    Ok(())
}

/// Puts bytes there.
pub(crate) fn put_bytes(into: &mut Vec<u8>, bytes: &[u8]) -> Result<(), AllocError>
    ensures { OnOk result (into.new.items ≡ into.old.items ++ bytes.now) }
{
    into.extend_from_slice(bytes)?;
    Ok(())
}

/// Puts the byte at a place there.
fn put_byte(into: &mut Vec<u8>, bytes: &[u8], place: usize) -> Result<(), AllocError>
    ensures { OnOk result (into.new.items ≡ into.old.items ++ decimal (slice_index bytes.now place)) }
{
    put_number(into, u64::from(byte_at(bytes, place)))
}

/// Puts an address of IPv4 there.
fn put_dotted(into: &mut Vec<u8>, bytes: &[u8]) -> Result<(), AllocError>
    ensures { OnOk result (into.new.items ≡ into.old.items ++ dotted_text bytes.now) }
{
    put_byte(into, bytes, 0)?;
    into.extend_from_slice(b".")?;
    put_byte(into, bytes, 1)?;
    into.extend_from_slice(b".")?;
    put_byte(into, bytes, 2)?;
    into.extend_from_slice(b".")?;
    put_byte(into, bytes, 3)?;
    Ok(())
}

/// The number of an address of 16 bytes at a place.
fn address_at(bytes: &[u8], place: usize) -> Addr
    requires { place + 16 ≤ length bytes.now }
    ensures { result ≡ number_at bytes.now place 16 }
{
    BigEndian::read_u128(&bytes[place..])
}

/// Puts an address there.
pub(crate) fn put_address(into: &mut Vec<u8>, bytes: &[u8]) -> Result<(), AllocError>
    ensures { OnOk result (into.new.items ≡ into.old.items ++ address_text bytes.now) }
{
    if bytes.len() < LONG_ADDRESS {
        return put_dotted(into, bytes);
    }
    let text = Ipv6Text::new(address_at(bytes, 0));
    put_bytes(into, text.as_str().as_bytes())
}

/// Puts the name of the version of an address there.
fn put_family(into: &mut Vec<u8>, bytes: &[u8]) -> Result<(), AllocError>
    ensures { OnOk result (into.new.items ≡ into.old.items ++ family_text bytes.now) }
{
    if bytes.len() < LONG_ADDRESS {
        return put_bytes(into, b"inet ");
    }
    put_bytes(into, b"inet6 ")
}

/// Puts an address there behind the name of its version.
fn put_named(into: &mut Vec<u8>, address: &[u8]) -> Result<(), AllocError>
    ensures { OnOk result (into.new.items ≡ into.old.items ++ named_address address.now) }
{
    into.extend_from_slice(b"via ")?;
    put_family(into, address)?;
    put_address(into, address)?;
    into.extend_from_slice(b" ")?;
    Ok(())
}

/// Puts an address there by which packets go.
fn put_gateway(into: &mut Vec<u8>, value: &[u8]) -> Result<(), AllocError>
    ensures { OnOk result (into.new.items ≡ into.old.items ++ gateway_text (Some value.now)) }
{
    into.extend_from_slice(b"via ")?;
    put_address(into, value)?;
    into.extend_from_slice(b" ")?;
    Ok(())
}

/// Puts the address there by which packets go, if there is one.
fn put_via(into: &mut Vec<u8>, attributes: &[u8]) -> Result<(), AllocError>
    ensures { OnOk result (into.new.items ≡ into.old.items ++ via_text attributes.now) }
{
    match find(5, attributes) {
        Some(value) => put_gateway(into, value),
        None => match find(18, attributes) {
            Some(value) => put_named(into, behind(value, 2)),
            None => Ok(()),
        },
    }
}

/// Puts a device there.
fn put_device(into: &mut Vec<u8>, device: u32) -> Result<(), AllocError>
    ensures { OnOk result (into.new.items ≡ into.old.items ++ device_text device) }
{
    into.extend_from_slice(b"dev if")?;
    put_number(into, u64::from(device))?;
    Ok(())
}

/// Puts the device there of an attribute, if there is one.
fn put_device_of(into: &mut Vec<u8>, kind: u16, attributes: &[u8]) -> Result<(), AllocError>
    ensures { OnOk result (into.new.items ≡ into.old.items ++ device_by (find kind attributes.now)) }
{
    match find(kind, attributes) {
        Some(value) => put_device(into, four_at(0, value)),
        None => Ok(()),
    }
}

/// Puts one next hop there.
fn put_hop(into: &mut Vec<u8>, attributes: &[u8]) -> Result<(), AllocError>
    ensures { OnOk result (into.new.items ≡ into.old.items ++ hop_text attributes.now) }
{
    put_via(into, attributes)?;
    put_device_of(into, 4, attributes)?;
    Ok(())
}

/// Puts a member of a set of next hops there.
fn put_member(
    into: &mut Vec<u8>,
    attributes: &[u8],
    device: u32,
    weight: u64,
) -> Result<(), AllocError>
    ensures { OnOk result (into.new.items ≡ into.old.items ++ member_words attributes.now device weight) }
{
    into.extend_from_slice(b"nexthop ")?;
    put_via(into, attributes)?;
    put_device(into, device)?;
    into.extend_from_slice(b" weight ")?;
    put_number(into, weight)?;
    into.extend_from_slice(b" ")?;
    Ok(())
}

/// Puts the first member of a set there, of these attributes.
fn put_member_of(into: &mut Vec<u8>, bytes: &[u8], attributes: &[u8]) -> Result<(), AllocError>
    ensures { OnOk result (into.new.items ≡ into.old.items ++ member_text bytes.now attributes.now) }
{
    put_member(
        into,
        attributes,
        four_at(4, bytes),
        u64::from(byte_at(bytes, 3)) + 1,
    )
}

/// The first member of a set: its attributes, and what stands behind it. None: it isn't there as a whole.
fn member_part(bytes: &[u8]) -> Option<(&[u8], &[u8])>
    ensures { MatchOption result (part_of 8 (two_at 0 bytes.now) bytes.now ≡ None) (λ part. part_of 8 (two_at 0 bytes.now) bytes.now ≡ Some (record { inside = part.0.now; rest = part.1.now })) }
{
    part_of(8, u32::from(two_at(0, bytes)), bytes)
}

/// Puts the members of a set of next hops there. The answer is why there is none.
fn put_members(into: &mut Vec<u8>, bytes: &[u8]) -> Result<Result<(), Unsaid>, AllocError>
    ensures { IfOk result (λ done. IsMade ℕ done into.old.items into.new.items (members_text bytes.now)) }
{
    let mut rest = bytes;
    let mut left = bytes.len();
    while left > 0 {
        if is_done(rest) {
            return Ok(Ok(()));
        }
        let (attributes, more) = match member_part(rest) {
            None => {
                return Ok(Err(Unsaid {
                    why: Why::Cut,
                    number: u32::from(two_at(0, rest)),
                }));
            }
            Some(part) => part,
        };
        match check(Place::Member, attributes) {
            Ok(()) => {}
            Err(reason) => return Ok(Err(reason)),
        }
        put_member_of(into, rest, attributes)?;
        rest = more;
        left -= 1;
    }
    Ok(Ok(()))
}

/// Puts there where packets of a route to next hops go.
fn put_unicast(into: &mut Vec<u8>, attributes: &[u8]) -> Result<Result<(), Unsaid>, AllocError>
    ensures { IfOk result (λ done. IsMade ℕ done into.old.items into.new.items (unicast_text attributes.now)) }
{
    match find(30, attributes) {
        Some(value) => {
            put_object_name(into, four_at(0, value))?;
            Ok(Ok(()))
        }
        None => put_set_or_hop(into, attributes),
    }
}

/// Puts a set of next hops there, or one next hop.
fn put_set_or_hop(into: &mut Vec<u8>, attributes: &[u8]) -> Result<Result<(), Unsaid>, AllocError>
    ensures { IfOk result (λ done. IsMade ℕ done into.old.items into.new.items (set_or_hop attributes.now (find 9 attributes.now))) }
{
    match find(9, attributes) {
        Some(value) => put_members(into, value),
        None => {
            put_hop(into, attributes)?;
            Ok(Ok(()))
        }
    }
}

/// Puts the name of a next hop's object there.
pub(crate) fn put_object_name(into: &mut Vec<u8>, number: u32) -> Result<(), AllocError>
    ensures { OnOk result (into.new.items ≡ into.old.items ++ object_name number) }
{
    into.extend_from_slice(b"nhid ")?;
    put_number(into, u64::from(number))?;
    Ok(())
}

/// Puts there where packets of a route of this kind go.
pub(crate) fn put_way(
    into: &mut Vec<u8>,
    kind: u8,
    attributes: &[u8],
) -> Result<Result<(), Unsaid>, AllocError>
    ensures { IfOk result (λ done. IsMade ℕ done into.old.items into.new.items (way_text kind attributes.now)) }
{
    match kind {
        1 => return put_unicast(into, attributes),
        6 => put_bytes(into, b"blackhole")?,
        7 => put_bytes(into, b"unreachable")?,
        8 => put_bytes(into, b"prohibit")?,
        _ => {
            return Ok(Err(Unsaid {
                why: Why::Kind,
                number: u32::from(kind),
            }));
        }
    }
    Ok(Ok(()))
}

/// Whether words are some, and no more than a comment has.
pub(crate) fn fit(kind: u8, words: &[u8]) -> Result<(), Unsaid>
    ensures { made_of result words.now ≡ fitting_words kind words.now }
{
    if words.is_empty() {
        return Err(Unsaid {
            why: Why::Hop,
            number: u32::from(kind),
        });
    }
    if words.len() > WAY_BYTES {
        return Err(Unsaid {
            why: Why::LongHop,
            number: 400,
        });
    }
    Ok(())
}

/// Puts the members of a group there.
fn put_group(into: &mut Vec<u8>, bytes: &[u8]) -> Result<(), AllocError>
    ensures { OnOk result (into.new.items ≡ into.old.items ++ group_text bytes.now) }
{
    into.extend_from_slice(b"group")?;
    let mut rest = bytes;
    let mut left = bytes.len();
    while left > 0 {
        if is_short(rest, 8) {
            return Ok(());
        }
        put_member_of_group(into, rest)?;
        rest = behind(rest, 8);
        left -= 1;
    }
    Ok(())
}

/// Puts the first member of a group there.
fn put_member_of_group(into: &mut Vec<u8>, bytes: &[u8]) -> Result<(), AllocError>
    ensures { OnOk result (into.new.items ≡ into.old.items ++ group_member bytes.now) }
{
    put_group_member(into, four_at(0, bytes), u64::from(byte_at(bytes, 4)) + 1)
}

/// Puts a member of a group there.
fn put_group_member(into: &mut Vec<u8>, number: u32, weight: u64) -> Result<(), AllocError>
    ensures { OnOk result (into.new.items ≡ into.old.items ++ group_words number weight) }
{
    into.extend_from_slice(b" ")?;
    put_number(into, u64::from(number))?;
    into.extend_from_slice(b" weight ")?;
    put_number(into, weight)?;
    Ok(())
}

/// Puts there what a next hop's object is.
pub(crate) fn put_object(into: &mut Vec<u8>, attributes: &[u8]) -> Result<(), AllocError>
    ensures { OnOk result (into.new.items ≡ into.old.items ++ object_text attributes.now) }
{
    match find(2, attributes) {
        Some(value) => put_group(into, value),
        None => put_single(into, attributes),
    }
}

/// Puts there what an object is that is no group.
fn put_single(into: &mut Vec<u8>, attributes: &[u8]) -> Result<(), AllocError>
    ensures { OnOk result (into.new.items ≡ into.old.items ++ single_text attributes.now (find 4 attributes.now)) }
{
    match find(4, attributes) {
        Some(_) => put_bytes(into, b"blackhole"),
        None => {
            put_object_gateway(into, attributes)?;
            put_device_of(into, 5, attributes)
        }
    }
}

/// Puts the address of an object there, if it has one.
fn put_object_gateway(into: &mut Vec<u8>, attributes: &[u8]) -> Result<(), AllocError>
    ensures { OnOk result (into.new.items ≡ into.old.items ++ gateway_text (find 6 attributes.now)) }
{
    match find(6, attributes) {
        Some(value) => put_gateway(into, value),
        None => Ok(()),
    }
}
