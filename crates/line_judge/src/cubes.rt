//! The cubes of words that a line can matter to.

ghost use Rattle.std.specs.Prelude.{◌≡◌, ℕ, ◌<◌, ◌^◌, IsTrue, bit_and, bit_xor};
ghost use Rattle.rule_model.specs.declared.Key.{Key};
ghost use Rattle.rule_model.specs.Key.{IsKey};
ghost use Rattle.rule_model.specs.Rule.{rule_matches};
ghost use Rattle.rule_model.specs.Word as words;
ghost use Rattle.any_order.specs.Touched.{key_port};
ghost use Rattle.word_cubes.specs.Cube.{cube_holds};

use rule_model::{Field, LANES, Piece, Ports, Rule, Word, entry_of};
use word_cubes::{Cube, cube_of, with_lane};

/// A cube that holds the words of all keys that the rule matches: it tests the addresses and the protocol, and no ports.
pub(crate) fn rule_cube(rule: &Rule) -> Cube
    ensures { (key : Key) (src dst : ℕ) → IsKey key → src < 2 ^ 16 → dst < 2 ^ 16 → IsTrue (rule_matches rule.now key)
        → IsTrue (cube_holds result (words.word_of key src dst)) }
{
    let sport = Ports::any();
    let dport = Ports::any();
    let piece = Piece::part_of(rule, sport, dport);
    let entry = entry_of(&piece, rule.priority, rule.result);
    cube_of(&entry)
}

/// A cube that holds the words of all keys with a port.
pub(crate) fn port_cube(field: Field, port: u16) -> Cube
    ensures { (key : Key) (src dst : ℕ) → IsKey key → key_port field key ≡ port → IsTrue (cube_holds result (words.word_of key src dst)) }
{
    let all = Cube {
        value: Word { lane: [0; LANES] },
        mask: Word { lane: [0; LANES] },
    };
    let tested = port_lane(field, port);
    match with_lane(&all, 8, tested.0, tested.1) {
        Some(part) => part,
        None => all,
    }
}

/// What the lane of the ports has where one of them is the port: a value, and where it counts.
fn port_lane(field: Field, port: u16) -> (u32, u32)
    ensures { (key : Key) → IsKey key → key_port field key ≡ port
        → bit_and (bit_xor (words.pair_lane key.sport key.dport) result.0) result.1 ≡ 0 }
{
    match field {
        Field::Src => (u32::from(port) * 65_536, 65_535 * 65_536),
        Field::Dst => (u32::from(port), 65_535),
    }
}
