//! Interfaces, by their names.

ghost use Rattle.std.specs.Prelude.{◌≡◌, ◌≤◌, [], length, take};
ghost use Rattle.iptables.specs.Faces.{face_in, has_odd, names_face};

use crate::words::is_named;
use std::marker::Model;

/// The most bytes of a name: a kernel has room for 16, the last of them its end.
const NAME_BYTES: usize = 15;

/// The name of the interface by which packets come in, in fixed room. Contracts see its bytes.
#[derive(Drop)]
pub struct FaceName {
    bytes: [u8; NAME_BYTES],
    len: u8,
}

impl Model for FaceName {
    ghost use Rattle.std.specs.Prelude.{ℕ, ◌≤◌, List, take};

    ghost Value = { List ℕ };

    ghost view = { λ n. take n.len n.bytes };

    ghost invariant = { λ n. n.len ≤ 15 };
}

impl FaceName {
    /// No name: packets come in by any interface.
    pub fn none() -> FaceName
        ensures { result ≡ [] }
    {
        FaceName {
            bytes: [0; NAME_BYTES],
            len: 0,
        }
    }

    /// A name as the kernel takes it: 15 printable bytes at most, without a blank, a slash or a colon.
    pub fn new(name: &[u8]) -> Option<FaceName>
        ensures { result ≡ face_in name.now }
    {
        if name.len() > NAME_BYTES || has_odd(name) {
            return None;
        }
        Some(FaceName::of(name))
    }

    /// A name that isn't longer.
    fn of(name: &[u8]) -> FaceName
        requires { length name.now ≤ 15 }
        ensures { result ≡ name.now }
    {
        let mut bytes = [0; NAME_BYTES];
        put_front(&mut bytes, name);
        FaceName {
            bytes,
            len: name.len() as u8,
        }
    }

    /// Its bytes.
    pub fn as_bytes(&self) -> &[u8]
        ensures { result.now ≡ self.now }
    {
        &self.bytes[..usize::from(self.len)]
    }
}

/// Puts these bytes at the front.
fn put_front(bytes: &mut [u8; NAME_BYTES], name: &[u8])
    requires { length name.now ≤ 15 }
    ensures { take (length name.now) bytes.new ≡ name.now }
{
    bytes[..name.len()].copy_from_slice(name);
}

/// Whether a byte isn't one of a name.
fn has_odd(name: &[u8]) -> bool
    ensures { result ≡ has_odd name.now }
{
    name.iter().any(|byte| *byte < 33 || *byte > 126 || *byte == b'/' || *byte == b':')
}

/// Whether a rule's word names an interface: by its name, or by a `+` behind what its name begins with.
pub(crate) fn names_face(word: &[u8], name: &[u8]) -> bool
    ensures { result ≡ names_face word.now name.now }
{
    if word.is_empty() || word[word.len() - 1] != b'+' {
        return is_named(word, name);
    }
    name.starts_with(&word[..word.len() - 1])
}
