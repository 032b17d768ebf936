//! Numbers in messages, and the parts that a message is of.

ghost use Rattle.std.specs.Prelude.{◌≡◌, ◌≤◌, None, Some, drop, slice_index, MatchOption};
ghost use Rattle.fpm_routes.specs.Bytes.{aligned, four_at, is_done, is_short, is_there, part_of, two_at};

/// The byte at a place, 0 where there is none.
pub(crate) fn byte_at(bytes: &[u8], place: usize) -> u8
    ensures { result ≡ slice_index bytes.now place }
{
    match bytes.get(place) {
        Some(byte) => *byte,
        None => 0,
    }
}

/// The number of two bytes at a place, the low one first.
pub(crate) fn two_at(place: u8, bytes: &[u8]) -> u16
    ensures { result ≡ two_at place bytes.now }
{
    let place = usize::from(place);
    u16::from(byte_at(bytes, place)) + 256 * u16::from(byte_at(bytes, place + 1))
}

/// The number of four bytes at a place, the low one first.
pub(crate) fn four_at(place: u8, bytes: &[u8]) -> u32
    requires { place ≤ 200 }
    ensures { result ≡ four_at place bytes.now }
{
    u32::from(two_at(place, bytes)) + 65536 * u32::from(two_at(place + 2, bytes))
}

/// What stands behind so many bytes.
pub(crate) fn behind(bytes: &[u8], count: usize) -> &[u8]
    ensures { result.now ≡ drop count bytes.now }
{
    if count < bytes.len() {
        return &bytes[count..];
    }
    &[]
}

/// Whether there are none.
pub(crate) fn is_done(bytes: &[u8]) -> bool
    ensures { result ≡ is_done bytes.now }
{
    bytes.is_empty()
}

/// Whether there are fewer than so many.
pub(crate) fn is_short(bytes: &[u8], count: usize) -> bool
    ensures { result ≡ is_short bytes.now count }
{
    bytes.len() < count
}

/// So many bytes, and as many more as the next part begins behind.
fn aligned(size: u32) -> usize
    ensures { result ≡ aligned size }
{
    (size as usize + 3) / 4 * 4
}

/// Whether a part of so many bytes has its head, and is there as a whole.
fn is_there(head: usize, whole: usize, held: usize) -> bool
    ensures { result ≡ is_there head whole held }
{
    head <= whole && whole <= held
}

/// The first part, of so many bytes, the head among them: what it has behind the head, and what stands behind it. None: it isn't
/// there as a whole.
pub(crate) fn part_of(head: u8, size: u32, bytes: &[u8]) -> Option<(&[u8], &[u8])>
    ensures { MatchOption result (part_of head size bytes.now ≡ None) (λ part. part_of head size bytes.now ≡ Some (record { inside = part.0.now; rest = part.1.now })) }
{
    let head = usize::from(head);
    let whole = size as usize;
    if !is_there(head, whole, bytes.len()) {
        return None;
    }
    Some((&bytes[..whole][head..], behind(bytes, aligned(size))))
}
