//! What a step did, in a word, and what packets get behind it.
use batch_order::{Field, Step};
use driven_device::Driven;
use rule_model::Key;
use tcam_device::{Device, Write};

/// What one step did.
#[derive(Clone, Copy, Debug, PartialEq, Eq)]
pub enum Told {
    /// It gave a port of a table a word.
    Word(Field, u16, u16),
    /// It put an entry into a slot.
    Put(u32),
    /// It emptied a slot.
    Emptied(u32),
    /// It drained the device, which is no write.
    Drained,
}

/// The results of three packets.
pub type Results = [Option<u32>; 3];

/// No packet hits.
pub const NOTHING: Results = [None, None, None];

/// What a step did: None where it neither wrote nor drained.
pub fn what_it_did(step: &Step) -> Option<Told> {
    match step {
        Step::Wrote(Write::Table(field, port, word)) => Some(Told::Word(*field, *port, *word)),
        Step::Wrote(Write::Slot(slot, Some(_))) => Some(Told::Put(*slot)),
        Step::Wrote(Write::Slot(slot, None)) => Some(Told::Emptied(*slot)),
        Step::Drained => Some(Told::Drained),
        _ => None,
    }
}

/// The result of a packet.
pub fn result_of<D: Device>(driven: &Driven<D>, key: &Key) -> Option<u32> {
    match driven.look(key) {
        Some((_, answer)) => Some(answer),
        None => None,
    }
}

/// The result of a packet by the rules of the set.
pub fn result_by_rules<D: Device>(driven: &Driven<D>, key: &Key) -> Option<u32> {
    match driven.answer(key) {
        Some((_, answer)) => Some(answer),
        None => None,
    }
}

/// The results of three packets.
pub fn results<D: Device>(driven: &Driven<D>, packets: &[Key; 3]) -> Results {
    let [a, b, c] = packets;
    [
        result_of(driven, a),
        result_of(driven, b),
        result_of(driven, c),
    ]
}

/// The results of three packets by the rules of the set.
pub fn results_by_rules<D: Device>(driven: &Driven<D>, packets: &[Key; 3]) -> Results {
    let [a, b, c] = packets;
    [
        result_by_rules(driven, a),
        result_by_rules(driven, b),
        result_by_rules(driven, c),
    ]
}
