//! A law as a call: it makes nothing, and its contract is the law.

ghost use Rattle.written_chains.specs.Laws.{ListsAnswerAsWalks};

/// A list answers each packet as a walk over the chains does, for all rules, and for whatever those get that no rule decides.
pub fn lists_answer_as_walks()
    ensures { ListsAnswerAsWalks }
{}
