//! The attributes of a message.

ghost use Rattle.std.specs.Prelude.{◌≡◌, ◌==◌, ◌||◌, None, Some, Ok, Err, MatchOption, length};
ghost use Rattle.fpm_routes.specs.Attributes.{attribute_at, attribute_of, check, find, is_passed, object_attribute, of_length, only_once, route_attribute, unsaid, way_attribute};

use crate::bytes::{is_done, part_of, two_at};
use crate::why::{Unsaid, Why};

/// What attributes are of.
#[derive(Clone, Copy, Debug, PartialEq, Eq)]
pub(crate) enum Place {
    /// A route.
    Route,
    /// A member of a set of next hops.
    Member,
    /// A next hop's object.
    Object,
}

/// The flag beside the kind of an attribute that has others in it, which zebra sets.
const NESTED: u16 = 32768;

/// The first attribute, if it is there as a whole: its kind without that flag, its value, and what stands behind it.
fn attribute_of(bytes: &[u8]) -> Option<(u16, &[u8], &[u8])>
    ensures { MatchOption result (attribute_of bytes.now ≡ None) (λ a. attribute_of bytes.now ≡ Some (record { kind = a.0; value = a.1.now; rest = a.2.now })) }
{
    match part_of(4, u32::from(two_at(0, bytes)), bytes) {
        Some((value, rest)) => Some((two_at(2, bytes) % NESTED, value, rest)),
        None => None,
    }
}

/// The value of the first attribute of a kind.
pub(crate) fn find(kind: u16, bytes: &[u8]) -> Option<&[u8]>
    ensures { MatchOption result (find kind bytes.now ≡ None) (λ value. find kind bytes.now ≡ Some value.now) }
{
    let mut rest = bytes;
    let mut left = bytes.len();
    while left > 0 {
        let (found, value, more) = match attribute_of(rest) {
            None => return None,
            Some(attribute) => attribute,
        };
        if found == kind {
            return Some(value);
        }
        rest = more;
        left -= 1;
    }
    None
}

/// Why a frame isn't said.
fn unsaid(why: Why, number: u32) -> Result<(), Unsaid>
    ensures { result ≡ unsaid why number }
{
    Err(Unsaid { why, number })
}

/// Whether an attribute of a route has no part in the answer.
fn is_passed(kind: u16) -> bool
    ensures { result ≡ is_passed kind }
{
    kind == 6 || kind == 7 || kind == 8 || kind == 12 || kind == 20 || kind == 23
}

/// Whether this holds, or the length of an attribute of this kind is at fault.
fn of_length(holds: bool, kind: u16) -> Result<(), Unsaid>
    ensures { result ≡ of_length holds kind }
{
    if holds {
        return Ok(());
    }
    unsaid(Why::Length, u32::from(kind))
}

/// Whether an attribute of a route is known.
fn route_attribute(kind: u16, size: usize) -> Result<(), Unsaid>
    ensures { result ≡ route_attribute kind size }
{
    if is_passed(kind) || kind == 9 {
        return Ok(());
    }
    if kind == 4 || kind == 15 || kind == 30 {
        return of_length(size == 4, kind);
    }
    if kind == 1 {
        return of_length(size == 4 || size == 16, kind);
    }
    if kind == 2 {
        return unsaid(Why::Sender, 2);
    }
    way_attribute(kind, size)
}

/// Whether an attribute says by which address, as one of a member of a set does.
fn way_attribute(kind: u16, size: usize) -> Result<(), Unsaid>
    ensures { result ≡ way_attribute kind size }
{
    if kind == 5 {
        return of_length(size == 4 || size == 16, kind);
    }
    if kind == 18 {
        return of_length(size == 6 || size == 18, kind);
    }
    if kind == 21 || kind == 22 {
        return unsaid(Why::Encapsulation, u32::from(kind));
    }
    unsaid(Why::Attribute, u32::from(kind))
}

/// Whether an attribute of a next hop's object is known.
fn object_attribute(kind: u16, size: usize) -> Result<(), Unsaid>
    ensures { result ≡ object_attribute kind size }
{
    if kind == 2 || kind == 3 || kind == 4 {
        return Ok(());
    }
    if kind == 1 || kind == 5 {
        return of_length(size == 4, kind);
    }
    if kind == 6 {
        return of_length(size == 4 || size == 16, kind);
    }
    if kind == 7 || kind == 8 {
        return unsaid(Why::Encapsulation, u32::from(kind));
    }
    unsaid(Why::Attribute, u32::from(kind))
}

/// Whether an attribute of this place is known.
fn attribute_at(at: Place, kind: u16, size: usize) -> Result<(), Unsaid>
    ensures { result ≡ attribute_at at kind size }
{
    match at {
        Place::Route => route_attribute(kind, size),
        Place::Member => way_attribute(kind, size),
        Place::Object => object_attribute(kind, size),
    }
}

/// Whether an attribute is known, and none of its kind stands behind it.
fn only_once(at: Place, kind: u16, value: &[u8], rest: &[u8]) -> Result<(), Unsaid>
    ensures { result ≡ only_once at (record { kind = kind; value = value.now; rest = rest.now }) }
{
    if find(kind, rest).is_some() {
        return unsaid(Why::Twice, u32::from(kind));
    }
    attribute_at(at, kind, value.len())
}

/// Whether all attributes of this place are known, each there once and as a whole.
pub(crate) fn check(at: Place, bytes: &[u8]) -> Result<(), Unsaid>
    ensures { result ≡ check at bytes.now }
{
    let mut rest = bytes;
    let mut left = bytes.len();
    while left > 0 {
        if is_done(rest) {
            return Ok(());
        }
        let (kind, value, more) = match attribute_of(rest) {
            None => return unsaid(Why::Cut, u32::from(two_at(0, rest))),
            Some(attribute) => attribute,
        };
        match only_once(at, kind, value, more) {
            Ok(()) => {}
            Err(reason) => return Err(reason),
        }
        rest = more;
        left -= 1;
    }
    Ok(())
}
