//! Laws as calls: they make nothing, and their contracts are the laws.

ghost use Rattle.iptables.specs.Again.{ListsComeAgain};
ghost use Rattle.iptables.specs.Laws.{BlocksHold, EitherHolds, FacesHold, MetHold, PortsHold, ProtosHold, SpansHold};

use written_chains::lists_answer_as_walks;

/// A value's tests hold a packet exactly where it has that value, or hasn't, behind `!`.
pub fn values_hold()
    ensures met { MetHold }
    ensures blocks { BlocksHold }
    ensures spans { SpansHold }
    ensures protos { ProtosHold }
    ensures ports { PortsHold }
    ensures either { EitherHolds }
    ensures faces { FacesHold }
{
    lists_answer_as_walks();
}

/// The script of a list is one of an older list, by which the same list comes again with the same numbers.
pub fn lists_come_again()
    ensures { ListsComeAgain }
{}
