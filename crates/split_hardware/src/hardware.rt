// Hardware with split results that tells nothing.
ghost use Rattle.std.specs.Prelude.{◌≡◌, ℕ, Result};
ghost use Rattle.tcam_device.specs.declared.DeviceFault.{DeviceFault};
ghost use Rattle.split_device.specs.declared.SplitWrite.{SplitWrite};
ghost use Rattle.split_device.specs.State.{IsSplitInUse};

use split_device::SplitWrite;
use tcam_device::DeviceFault;

/// Hardware as the author of a driver writes it: how many slots there are, and how one write is made, of a slot's value and
/// mask, of its result word or of a table's word. Nothing is proved of what it holds. It is trusted in this: it is blank when
/// [`SplitShadowed`](crate::SplitShadowed) takes it, each slot empty and each word of both tables 0, nobody else writes it,
/// a write of a slot leaves the result words and a write of a result word all else, and where `put` answers Ok the write was
/// made, whole, behind those before it. Where `put` answers Err the write was made whole or not at all, and which of the two
/// doesn't matter to a caller that makes the same write next, as the manager's `step` does. And when `drain` returns, no
/// look-up that began before is still to be searched, and none that has found its slot is still to read the result word.
pub trait SplitHardware: Drop {
    /// The number of slots.
    ghost slot_count: { Self → ℕ };

    /// What `put` did: the hardware before it, the write, the answer, and the hardware after it. A driver of which
    /// nothing is known says `λ before write answer after. Unit {0}`. Code over all hardware can't know that, so it can
    /// show this of a write only by the call itself.
    ghost puts: { Self → SplitWrite → Result (Unit {0}) DeviceFault → Self → Type 0 };

    /// What `drain` did: the hardware before it and after it, as `puts` says it of `put`.
    ghost drains: { Self → Self → Type 0 };

    /// The number of slots, which never changes.
    fn slots(&self) -> u32
        ensures { result ≡ slot_count self.now };

    /// Makes one write, of a slot that there is, or answers that it can't tell whether it did.
    fn put(&mut self, write: &SplitWrite) -> Result<(), DeviceFault>
        requires place { IsSplitInUse (slot_count self.old) write.now }
        ensures puts { puts self.old write.now result self.new }
        ensures slots { slot_count self.new ≡ slot_count self.old };

    /// Comes where a drain is made, and returns when no look-up that began before is still to be searched or to read its
    /// result word: a driver with a look-up pipeline waits here, and one whose look-ups are undivided has nothing to do.
    fn drain(&mut self)
        ensures drains { drains self.old self.new }
        ensures slots { slot_count self.new ≡ slot_count self.old };
}
