//! The words of a line.

ghost use Rattle.std.specs.Prelude.{◌≡◌};
ghost use Rattle.std.specs.Str.{bytes_eq};

use std::marker::Model;

/// What a line says behind its number. Contracts see its bytes.
#[derive(Debug, Drop)]
pub struct Words {
    bytes: Vec<u8>,
}

impl Model for Words {
    ghost use Rattle.std.specs.Prelude.{ℕ, List};

    ghost Value = { List ℕ };

    ghost view = { λ w. w.bytes.items };
}

impl Words {
    /// These bytes.
    pub fn new(bytes: Vec<u8>) -> Words
        ensures { result ≡ bytes.items }
    {
        Words { bytes }
    }

    /// Its bytes.
    pub fn as_bytes(&self) -> &[u8]
        ensures { result.now ≡ self.now }
    {
        self.bytes.as_slice()
    }

    /// Whether two lines say the same.
    pub(crate) fn same(&self, other: &Words) -> bool
        ensures { result ≡ bytes_eq self.now other.now }
    {
        self.bytes.as_slice() == other.bytes.as_slice()
    }
}

/// A line of the older list.
#[derive(Debug, Drop)]
pub struct OlderLine {
    pub number: u32,
    pub words: Words,
}
