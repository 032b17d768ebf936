//! What becomes of a packet that a rule holds.

ghost use Rattle.std.specs.Prelude.{◌≡◌};
ghost use Rattle.iptables.specs.Reading.{jump_to, target_of};

use crate::names::Names;
use crate::words::is_named;
use written_chains::Target;

/// The target of a name: a verdict, a return, or a chain.
pub(crate) fn target_of(word: &[u8], names: &Names) -> Option<Target>
    ensures { result ≡ target_of names.now word.now }
{
    if is_named(word, b"ACCEPT") {
        Some(Target::Decides(true))
    } else if is_named(word, b"DROP") || is_named(word, b"REJECT") {
        Some(Target::Decides(false))
    } else if is_named(word, b"RETURN") {
        Some(Target::Returns)
    } else {
        jump_to(names.number_of(word))
    }
}

/// A jump to a chain, if there is one.
fn jump_to(chain: Option<usize>) -> Option<Target>
    ensures { result ≡ jump_to chain }
{
    match chain {
        Some(number) => Some(Target::Jumps(number)),
        None => None,
    }
}
