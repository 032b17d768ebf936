// Where bytes go.
ghost use Rattle.std.specs.Prelude.{◌<◌, ◌≤◌, ℕ, Bool, List, Option, length, take, IfOk, OnOk, OnErr};
ghost use Rattle.std.specs.Io.KnownBytes.{Appends};
ghost use Rattle.call_history.specs.Cause.{HasCause};
ghost use Rattle.script_lines.specs.Given.{Accepts, counted};

use crate::Failed;

/// Takes bytes, some at a time.
pub trait Sink {
    /// The bytes so far, where the sink tells them: one over standard output doesn't know what became of
    /// a failed write.
    ghost taken: { Self → Option (List ℕ) };

    /// The bytes that its writes that answered Ok took so far, of each the part that it counts. Every sink
    /// tells this, since it has only to remember. What a failed write took isn't among them.
    ghost accepted: { Self → List ℕ };

    /// How often a write has failed.
    ghost faults: { Self → ℕ };

    /// Takes bytes from the front of `from`, and answers how many: at most its length, and at least one
    /// where it isn't empty. A failed write has taken a part of the front, perhaps none or all of it.
    fn write(&mut self, from: &[u8]) -> Result<usize, Failed>
        ensures some { 0 < length from.now → IfOk result (λ n. 0 < n) }
        ensures count { IfOk result (λ n. n ≤ length from.now) }
        ensures bytes { IfOk result (λ n. Appends (taken self.old) (taken self.new) (take n from.now)) }
        ensures part { OnErr result ((n : ℕ) × (n ≤ length from.now) × Appends (taken self.old) (taken self.new) (take n from.now)) }
        ensures accepted { Accepts (accepted self.old) (accepted self.new) result from.now }
        ensures cause { HasCause (faults self.old) (faults self.new) result };
}

/// Writes the whole of `bytes`, in as many calls as the sink takes. It stops at the first failed write:
/// the sink has then taken a part of the front, perhaps none or all of it, and accepted the part that
/// the writes before it counted.
pub fn write_all<K: Sink>(sink: &mut K, bytes: &[u8]) -> Result<(), Failed>
    ensures whole { (which : Bool) → OnOk result (Appends (counted which (K.taken sink.old) (K.accepted sink.old)) (counted which (K.taken sink.new) (K.accepted sink.new)) bytes.now) }
    ensures part { (which : Bool) → OnErr result ((n : ℕ) × (n ≤ length bytes.now) × Appends (counted which (K.taken sink.old) (K.accepted sink.old)) (counted which (K.taken sink.new) (K.accepted sink.new)) (take n bytes.now)) }
    ensures cause { HasCause (K.faults sink.old) (K.faults sink.new) result }
{
    let mut done = 0;
    while done < bytes.len() {
        match sink.write(&bytes[done..]) {
            Ok(n) => done += n,
            Err(e) => return Err(e),
        }
    }
    Ok(())
}
