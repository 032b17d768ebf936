//! The name of a list, as a command line has it.

ghost use Rattle.std.specs.Prelude.{◌≡◌, ◌≤◌, [], length, take};
ghost use Rattle.import_cli.specs.ListName.{name_in};

use std::marker::Model;

/// The most bytes of a name.
const NAME_BYTES: usize = 64;

/// The name of a list, in fixed room. Contracts see its bytes.
#[derive(Drop)]
pub struct ListName {
    bytes: [u8; NAME_BYTES],
    len: u8,
}

impl Model for ListName {
    ghost use Rattle.std.specs.Prelude.{ℕ, ◌≤◌, List, take};

    ghost Value = { List ℕ };

    ghost view = { λ n. take n.len n.bytes };

    ghost invariant = { λ n. n.len ≤ 64 };
}

impl ListName {
    /// No name.
    pub fn none() -> ListName
        ensures { result ≡ [] }
    {
        ListName {
            bytes: [0; NAME_BYTES],
            len: 0,
        }
    }

    /// A name of 64 bytes at most.
    pub fn new(name: &[u8]) -> Option<ListName>
        ensures { result ≡ name_in name.now }
    {
        if name.len() > NAME_BYTES {
            return None;
        }
        Some(ListName::of(name))
    }

    /// A name that isn't longer.
    pub(crate) fn of(name: &[u8]) -> ListName
        requires { length name.now ≤ 64 }
        ensures { result ≡ name.now }
    {
        let mut bytes = [0; NAME_BYTES];
        put_front(&mut bytes, name);
        ListName {
            bytes,
            len: name.len() as u8,
        }
    }

    /// Its bytes.
    pub fn as_bytes(&self) -> &[u8]
        ensures { result.now ≡ self.now }
    {
        &self.bytes[..usize::from(self.len)]
    }
}

/// Puts these bytes at the front.
fn put_front(bytes: &mut [u8; NAME_BYTES], name: &[u8])
    requires { length name.now ≤ 64 }
    ensures { take (length name.now) bytes.new ≡ name.now }
{
    bytes[..name.len()].copy_from_slice(name);
}
