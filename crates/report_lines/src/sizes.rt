//! How large a script, its tables and its batches may be.

ghost use Rattle.std.specs.Prelude.{◌≡◌, ◌≤◌};
ghost use Rattle.report_lines.specs.Sizes.{sizes_by};

use rule_store::PENDING_COMMANDS;
use script_lines::{MOST_BYTES, SCRIPT_BYTES};
use slot_order::{MOST_SLOTS, SCRIPT_SLOTS};

/// How many slots a script may ask for, how many changes may wait for one of its commits, and how many bytes it may have.
#[derive(Clone, Copy, Debug, PartialEq, Eq)]
pub struct Sizes {
    pub slots: u32,
    pub commands: u32,
    pub bytes: u32,
}

/// The usual sizes, 4,096 slots, 4,096 changes and 16 MiB, or the large ones, 1,048,576 of either and 256 MiB.
pub fn sizes_by(large: bool) -> Sizes
    ensures sizes { result ≡ sizes_by large }
    ensures slots { result.slots ≤ MOST_SLOTS }
    ensures commands { result.commands ≤ MOST_SLOTS }
    ensures bytes { result.bytes ≤ MOST_BYTES }
{
    if large {
        Sizes {
            slots: MOST_SLOTS,
            commands: MOST_SLOTS,
            bytes: MOST_BYTES,
        }
    } else {
        Sizes {
            slots: SCRIPT_SLOTS,
            commands: PENDING_COMMANDS,
            bytes: SCRIPT_BYTES,
        }
    }
}
