//! The generator, and the rules that its draws make.

ghost use Rattle.std.specs.Prelude.{◌≡◌, ◌+◌, ◌<◌, ◌≤◌, ◌^◌};
ghost use Rattle.rule_gen.specs.Line.{IsListRule};
ghost use Rattle.rule_gen.specs.Made as made;

use rule_model::{Ports, Prefix, Rule, list_rank};
use std::marker::Model;

// The generator goes from a state to `state * MULTIPLIER + INCREMENT`, of which it keeps 31 bits.
const MULTIPLIER: u64 = 1103515245;

const INCREMENT: u64 = 12345;

const STATES: u64 = 1 << 31;

/// A linear congruential generator, seen as its state, a number below 2^31.
#[derive(Debug, Drop)]
pub(crate) struct Draws {
    state: u32,
}

impl Model for Draws {
    ghost use Rattle.std.specs.Prelude.{ℕ, ◌<◌, ◌^◌};

    ghost Value = { ℕ };

    ghost view = { λ d. d.state };

    ghost invariant = { λ d. d.state < 2 ^ 31 };
}

impl Draws {
    /// The generator in this state.
    pub(crate) fn new(seed: u32) -> Draws
        requires { seed < 2 ^ 31 }
        ensures { result ≡ seed }
    {
        Draws { state: seed }
    }

    /// The next number, below 32,768: the upper bits of the next state, since the lower ones repeat early.
    pub(crate) fn draw(&mut self) -> u32
        ensures state { self.new ≡ made.draw_state self.old 1 }
        ensures number { result ≡ made.draw self.old 1 }
        ensures small { result < 2 ^ 15 }
    {
        let next = (u64::from(self.state) * MULTIPLIER + INCREMENT) % STATES;
        self.state = next as u32;
        self.state / 65536
    }

    /// The rule of a sequence number, from 1, that the next six draws make.
    pub(crate) fn rule(&mut self, sequence: u32) -> Rule
        requires { 0 < sequence }
        ensures state { self.new ≡ made.draw_state self.old 6 }
        ensures rule { result ≡ made.rule_from self.old 0 sequence }
        ensures line { IsListRule result }
    {
        let len = 8 * (1 + self.draw() % 4);
        let address = made_address(self.draw());
        let src = made_source(self.draw() % 3);
        let proto = made_proto(self.draw() % 3);
        let dport = made_ports(self.draw() % 5);
        let answer = self.draw() % 2;
        Rule {
            priority: list_rank(sequence),
            src,
            dst: network(address, len as u8),
            proto,
            sport: Ports::any(),
            dport,
            result: answer,
        }
    }
}

// The block of an IPv4 address with its bits past the length cleared.
fn network(address: u32, len: u8) -> Prefix
    requires some { 0 < len }
    requires fits { len ≤ 32 }
    ensures { result ≡ made.network address len }
{
    let size = 1u32 << (32 - len);
    Prefix::v4(address / size * size, len).unwrap()
}

// The address 10.X.Y.Z of a number, each of the three below 4.
fn made_address(number: u32) -> u32
    ensures { result ≡ made.made_address number }
{
    let (x, y, z) = (number % 4, number / 4 % 4, number / 16 % 4);
    0x0a00_0000 + x * 0x1_0000 + y * 0x100 + z
}

// Any source, or 10.0.0.0/8, or 11.0.0.0/8.
fn made_source(choice: u32) -> Prefix
    ensures { result ≡ made.made_source choice }
{
    match choice {
        0 => Prefix::any(),
        1 => network(0x0a00_0000, 8),
        _ => network(0x0b00_0000, 8),
    }
}

// Any protocol, or TCP, or UDP.
fn made_proto(choice: u32) -> Option<u8>
    ensures { result ≡ made.made_proto choice }
{
    match choice {
        0 => None,
        1 => Some(6),
        _ => Some(17),
    }
}

// Any port, or one of four ranges.
fn made_ports(choice: u32) -> Ports
    ensures { result ≡ made.made_ports choice }
{
    match choice {
        0 => Ports::any(),
        1 => Ports::new(0, 1023).unwrap(),
        2 => Ports::new(1024, 65535).unwrap(),
        3 => Ports::new(80, 443).unwrap(),
        _ => Ports::new(5060, 5061).unwrap(),
    }
}
