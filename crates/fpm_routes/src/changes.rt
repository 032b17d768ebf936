//! What the messages of a frame change.

ghost use Rattle.std.specs.Prelude.{◌≡◌, ◌==◌, ◌||◌, [], IfOk, Err, Ok, map, slice_index, drop, None, Some, MatchOption, MatchResult};
ghost use Rattle.fpm_routes.specs.Bytes.{four_at, part_of, two_at};
ghost use Rattle.rule_model.specs.AddressBlock.{any_address};
ghost use Rattle.fpm_routes.specs.Attributes.{find};
ghost use Rattle.fpm_routes.specs.Ways.{IsMade, fitting};
ghost use Rattle.fpm_routes.specs.Changes.{Changing, addressed, attributes_of, by_fields, by_table, change_by, family_number, frame_changes, is_main, message_change, object_change, object_words, noted, prefix_by, put_by, route_change, route_table, route_way, v4_prefix, v6_prefix};
ghost use Rattle.fpm_routes.specs.Views.{IsRead, change_of};

use crate::attributes::{Place, check, find};
use crate::bytes::{behind, byte_at, four_at, is_done, is_short, part_of, two_at};
use crate::ways::{fit, put_number, put_object, put_object_name, put_way};
use crate::why::{Unsaid, Why};
use byteorder::{BigEndian, ByteOrder};
use rule_model::{IpVersion, Prefix};
use std::alloc::{AllocError, Global};

/// What is done.
#[derive(Clone, Copy, Debug, PartialEq, Eq)]
pub(crate) enum Deed {
    /// A prefix is given a way.
    Put,
    /// A prefix is dropped.
    Drop,
    /// A comment is made.
    Note,
}

/// What a message changes: a prefix is given the way of these words, or is dropped, or the words are a comment.
#[derive(Drop)]
pub(crate) struct Change {
    pub(crate) deed: Deed,
    pub(crate) prefix: Prefix,
    pub(crate) words: Vec<u8>,
}

/// The prefix of an IPv4 address.
fn v4_prefix(number: u32, len: u8) -> Result<Prefix, Unsaid>
    ensures { result ≡ v4_prefix number len }
{
    match Prefix::v4(number, len) {
        Ok(prefix) => Ok(prefix),
        Err(_) => Err(Unsaid {
            why: Why::Prefix,
            number: u32::from(len),
        }),
    }
}

/// The prefix of an IPv6 address.
fn v6_prefix(number: u128, len: u8) -> Result<Prefix, Unsaid>
    ensures { result ≡ v6_prefix number len }
{
    match Prefix::v6(number, len) {
        Ok(prefix) => Ok(prefix),
        Err(_) => Err(Unsaid {
            why: Why::Prefix,
            number: u32::from(len),
        }),
    }
}

/// The prefix of an address in bytes.
fn addressed(version: IpVersion, len: u8, value: &[u8]) -> Result<Prefix, Unsaid>
    ensures { result ≡ addressed version len value.now }
{
    match version {
        IpVersion::V4 => {
            if value.len() == 4 {
                return v4_prefix(BigEndian::read_u32(value), len);
            }
        }
        IpVersion::V6 => {
            if value.len() == 16 {
                return v6_prefix(BigEndian::read_u128(value), len);
            }
        }
    }
    Err(Unsaid {
        why: Why::Length,
        number: 1,
    })
}

/// The prefix of a route.
fn prefix_of(version: IpVersion, len: u8, attributes: &[u8]) -> Result<Prefix, Unsaid>
    ensures { result ≡ prefix_by version len (find 1 attributes.now) }
{
    match find(1, attributes) {
        Some(value) => addressed(version, len, value),
        None => {
            if len == 0 {
                return Ok(Prefix::any());
            }
            Err(Unsaid {
                why: Why::Prefix,
                number: u32::from(len),
            })
        }
    }
}

/// The attributes of a route.
fn attributes_of(body: &[u8]) -> &[u8]
    ensures { result.now ≡ attributes_of body.now }
{
    behind(body, 12)
}

/// The table of a route.
fn route_table(body: &[u8]) -> u32
    ensures { result ≡ route_table body.now }
{
    match find(15, attributes_of(body)) {
        Some(value) => four_at(0, value),
        None => u32::from(byte_at(body, 4)),
    }
}

/// Whether a table is the one that a script is of.
fn is_main(table: u32) -> bool
    ensures { result ≡ is_main table }
{
    table == 254 || table == 0
}

/// The number of the family of a version of IP.
fn family_number(version: IpVersion) -> u8
    ensures { result ≡ family_number version }
{
    match version {
        IpVersion::V4 => 2,
        IpVersion::V6 => 10,
    }
}

/// A comment of these words.
fn note(words: Vec<u8>) -> Change
    ensures { change_of result ≡ record { deed = Deed.Note; block = any_address; words = words.items } }
{
    Change {
        deed: Deed::Note,
        prefix: Prefix::any(),
        words,
    }
}

/// The change of a route that stands.
fn put_route(
    alloc: Global,
    prefix: Prefix,
    body: &[u8],
) -> Result<Result<Change, Unsaid>, AllocError>
    ensures { IfOk result (λ change. IsRead change (put_by prefix (route_way body.now))) }
{
    let kind = byte_at(body, 7);
    let mut words = Vec::new(alloc);
    match put_way(&mut words, kind, attributes_of(body))? {
        Ok(()) => {}
        Err(reason) => return Ok(Err(reason)),
    }
    match fit(kind, words.as_slice()) {
        Ok(()) => Ok(Ok(Change {
            deed: Deed::Put,
            prefix,
            words,
        })),
        Err(reason) => Ok(Err(reason)),
    }
}

/// The change of a route of this table and version.
fn by_fields(
    alloc: Global,
    version: IpVersion,
    gone: bool,
    body: &[u8],
) -> Result<Result<Change, Unsaid>, AllocError>
    ensures { IfOk result (λ change. IsRead change (by_fields version gone body.now)) }
{
    let sender = byte_at(body, 2);
    if sender != 0 {
        return Ok(Err(Unsaid {
            why: Why::Sender,
            number: u32::from(sender),
        }));
    }
    let service = byte_at(body, 3);
    if service != 0 {
        return Ok(Err(Unsaid {
            why: Why::Service,
            number: u32::from(service),
        }));
    }
    match prefix_of(version, byte_at(body, 1), attributes_of(body)) {
        Ok(prefix) => change_of_route(alloc, gone, prefix, body),
        Err(reason) => Ok(Err(reason)),
    }
}

/// The change of a route of this prefix.
fn change_of_route(
    alloc: Global,
    gone: bool,
    prefix: Prefix,
    body: &[u8],
) -> Result<Result<Change, Unsaid>, AllocError>
    ensures { IfOk result (λ change. IsRead change (change_by gone body.now (Ok prefix))) }
{
    if gone {
        return Ok(Ok(Change {
            deed: Deed::Drop,
            prefix,
            words: Vec::new(alloc),
        }));
    }
    put_route(alloc, prefix, body)
}

/// The change of a route of a version of IP.
fn by_table(
    alloc: Global,
    version: IpVersion,
    gone: bool,
    body: &[u8],
) -> Result<Result<Change, Unsaid>, AllocError>
    ensures { IfOk result (λ change. IsRead change (by_table version gone body.now)) }
{
    let table = route_table(body);
    let mut words = Vec::new(alloc);
    if !is_main(table) {
        words.extend_from_slice(b"another table: ")?;
        put_number(&mut words, u64::from(table))?;
        return Ok(Ok(note(words)));
    }
    if byte_at(body, 0) != family_number(version) {
        words.extend_from_slice(b"another version")?;
        return Ok(Ok(note(words)));
    }
    by_fields(alloc, version, gone, body)
}

/// The change of a message of a route.
fn route_change(
    alloc: Global,
    version: IpVersion,
    gone: bool,
    body: &[u8],
) -> Result<Result<Change, Unsaid>, AllocError>
    ensures { IfOk result (λ change. IsRead change (route_change version gone body.now)) }
{
    if is_short(body, 12) {
        return Ok(Err(Unsaid {
            why: Why::Length,
            number: 24,
        }));
    }
    let family = byte_at(body, 0);
    if family == 2 || family == 10 {
        return match check(Place::Route, attributes_of(body)) {
            Ok(()) => by_table(alloc, version, gone, body),
            Err(reason) => Ok(Err(reason)),
        };
    }
    Ok(Err(Unsaid {
        why: Why::Family,
        number: u32::from(family),
    }))
}

/// The comment on a next hop's object of this number.
fn object_note(
    alloc: Global,
    gone: bool,
    attributes: &[u8],
    number: u32,
) -> Result<Result<Change, Unsaid>, AllocError>
    ensures { IfOk result (λ change. IsRead change (noted (fitting 0 (Ok (object_words gone attributes.now number))))) }
{
    let mut words = Vec::new(alloc);
    put_object_name(&mut words, number)?;
    if gone {
        words.extend_from_slice(b" gone")?;
    } else {
        words.extend_from_slice(b" = ")?;
        put_object(&mut words, attributes)?;
    }
    match fit(0, words.as_slice()) {
        Ok(()) => Ok(Ok(note(words))),
        Err(reason) => Ok(Err(reason)),
    }
}

/// The change of a message of a next hop's object.
fn object_change(
    alloc: Global,
    gone: bool,
    body: &[u8],
) -> Result<Result<Change, Unsaid>, AllocError>
    ensures { IfOk result (λ change. IsRead change (object_change gone body.now)) }
{
    if is_short(body, 8) {
        return Ok(Err(Unsaid {
            why: Why::Length,
            number: 104,
        }));
    }
    let attributes = behind(body, 8);
    match check(Place::Object, attributes) {
        Ok(()) => {}
        Err(reason) => return Ok(Err(reason)),
    }
    match find(1, attributes) {
        Some(value) => object_note(alloc, gone, attributes, four_at(0, value)),
        None => Ok(Err(Unsaid {
            why: Why::Length,
            number: 104,
        })),
    }
}

/// The change of a message of this kind.
fn message_change(
    alloc: Global,
    version: IpVersion,
    kind: u16,
    body: &[u8],
) -> Result<Result<Change, Unsaid>, AllocError>
    ensures { IfOk result (λ change. IsRead change (message_change version kind body.now)) }
{
    match kind {
        24 => route_change(alloc, version, false, body),
        25 => route_change(alloc, version, true, body),
        104 => object_change(alloc, false, body),
        105 => object_change(alloc, true, body),
        _ => Ok(Err(Unsaid {
            why: Why::Message,
            number: u32::from(kind),
        })),
    }
}

/// The first message: what it has behind its head, and what stands behind it. None: it isn't there as a whole.
fn message_part(bytes: &[u8]) -> Option<(&[u8], &[u8])>
    ensures { MatchOption result (part_of 16 (four_at 0 bytes.now) bytes.now ≡ None) (λ part. part_of 16 (four_at 0 bytes.now) bytes.now ≡ Some (record { inside = part.0.now; rest = part.1.now })) }
{
    part_of(16, four_at(0, bytes), bytes)
}

/// The change of the first message, which has this behind its head.
fn first_change(
    alloc: Global,
    version: IpVersion,
    bytes: &[u8],
    body: &[u8],
) -> Result<Result<Change, Unsaid>, AllocError>
    ensures { IfOk result (λ change. IsRead change (message_change version (two_at 4 bytes.now) body.now)) }
{
    message_change(alloc, version, two_at(4, bytes), body)
}

/// Puts what the messages of a frame change behind what is there. The answer is why the first one isn't said that can't be.
pub(crate) fn read_changes(
    alloc: Global,
    version: IpVersion,
    messages: &[u8],
    changes: &mut Vec<Change>,
) -> Result<Result<(), Unsaid>, AllocError>
    ensures { IfOk result (λ done. IsMade Changing done (map change_of changes.old.items) (map change_of changes.new.items) (frame_changes version messages.now)) }
{
    let mut rest = messages;
    let mut left = messages.len();
    while left > 0 {
        if is_done(rest) {
            return Ok(Ok(()));
        }
        let (body, more) = match message_part(rest) {
            None => {
                return Ok(Err(Unsaid {
                    why: Why::Cut,
                    number: four_at(0, rest),
                }));
            }
            Some(part) => part,
        };
        match first_change(alloc, version, rest, body)? {
            Ok(change) => changes.push(change)?,
            Err(reason) => return Ok(Err(reason)),
        }
        rest = more;
        left -= 1;
    }
    Ok(Ok(()))
}
