// What holds of the writes of every device.
ghost use Rattle.std.specs.Prelude.{◌≡◌};
ghost use Rattle.tcam_device.specs.declared.Write.{Write};
ghost use Rattle.tcam_device.specs.State.{State, apply};

/// A write that is made twice, one right after the other, leaves what it leaves once. So a driver may answer that a
/// write failed where it can't know: if the memory had made it, the same write comes next, and changes nothing.
///
/// A law of states and writes alone: there is nothing to run.
pub fn twice_as_once()
    ensures { (state : State) (write : Write) → apply (apply state write) write ≡ apply state write }
{}
