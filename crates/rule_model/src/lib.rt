//! Rules, packet keys and the parts that they are made of; the cover of a port range; and the entries of a ternary memory
//! that stand for parts of rules.
//!
//! A rule matches a key where its five conditions hold: two address blocks, a protocol or any, two ranges of ports. A
//! rule is stored as pieces, each with the same five conditions over parts of its ranges. Two rules, or two pieces,
//! overlap where some key matches both.
//!
//! # The one hard idea
//! Whether some key matches both is decided from the conditions alone: each condition speaks of a part of the key of
//! its own, so a key for both is put together from one part for each, and two prefixes meet where one holds the other.
//!
//! # How it stands
//! Prefixes and port ranges are right by their types: no address bit past the length, no first port above the last. The
//! definitions of matching, of covers, of rule sets and what a set answers, and of chains of overlapping rules are in
//! `specs/`; `matches`, `overlaps` and their kin are true exactly where these hold. `port_covers` cuts a range of ports
//! into blocks, and `words` lays out search words and entries.
//!
//! # What it cost
//! Both families of addresses share the types. An IPv4 address stands in the upper 32 bits of 128, so that a prefix of
//! length 8 is the same test for both; each address takes 16 bytes for it. A rank has room for a length and a whole
//! address; contracts see it as one number, and it is ordered as that number is.
//!
//! # What isn't here
//! Sets of rules as a structure, and batches: those are `rule_store`'s.
//!
//! # Decided
//! - **A priority is a [`Rank`] of two parts**, so that of two nested routes the longer is greater. An IPv6 route has
//!   its length and all 128 bits of its address, an IPv4 one its length and 32, so each version has its own rank, rule
//!   and way back, with the same laws: of routes that overlap one is nested in the other, so a chain has a member for
//!   each length at most. `Prefix::v6` tests the length up to 128, then the bits past it, as `v4` does up to 32.
//! - **Contracts see a `Prefix` as a plain block and a `Ports` as a plain range.** That they are right is the type's
//!   invariant, which `addr`, `len`, `lo` and `hi` hand out.
#![tactic(auto)]

mod laws;
mod port_covers;
mod priorities;
mod text;
mod words;

ghost use Rattle.std.specs.Prelude.{ℕ, ◌≡◌, ◌≢◌, ◌<◌, ◌≤◌, ◌^◌, ◌%◌, ◌-◌, ◌*◌, Some, None, Ok, Err, ◌↔◌, IsNone, IfSome, IfOk, IsTrue, not, nat_eq};
ghost use Rattle.std.specs.Ordering.{nat_cmp};
ghost use Rattle.std.specs.Cmp.Rules.{comparing};
ghost use Rattle.std.proofs.Common.{rules};
ghost use Rattle.rule_model.specs.AddressBlock.{AddressBlock, IsAddressBlock, IsIpv4Block, BlocksOverlap, ipv4_address, ipv4_block, any_address, block_holds};
ghost use Rattle.rule_model.specs.PortRange.{IsPortRange, RangesOverlap, any_port, is_block, is_disjoint, range_holds};
ghost use Rattle.rule_model.specs.Rule as spec;
ghost use Rattle.rule_model.specs.Rule.{ProtosOverlap, Overlap, rule_matches, rules_meet, blocks_meet};
ghost use Rattle.rule_model.specs.Piece as pieces;
ghost use Rattle.rule_model.specs.Piece.{PiecesOverlap, pieces_meet};

pub use laws::{
    answers_by_its_best_rule, answers_in_any_order, ipv4_chains_are_short, ipv4_routes_are_nested,
    ipv6_chains_are_short, ipv6_routes_are_nested, key_fields, piece_conditions, rule_conditions,
};
pub use port_covers::{Cover, MOST_BLOCKS, cover, cover_size};
pub use priorities::{
    ipv4_route_of, ipv4_route_rank, ipv6_route_of, ipv6_route_rank, ipv6_route_rule,
    list_number_of, list_rank, route_rule,
};
use std::cmp::Ordering;
use std::marker::Model;
use thiserror::Error;
pub use words::{Entry, LANES, Word, entry_of, hits, word_of};

/// A packet's address: an IPv6 address, or an IPv4 address in the upper 32 bits.
pub type Addr = u128;

/// One thing with three names: of a rule it is the priority, of a rule's pieces the rank, and of an entry in the memory
/// the tag, by which a look-up tells whose entry hit. Ordered by `high`, then by `low`: of a route these are the length
/// and the address, of a rule of an access list 0 and 2^32 less its sequence number.
#[derive(Clone, Copy, Debug)]
pub struct Rank {
    pub high: u8,
    pub low: u128,
}

impl Model for Rank {
    ghost use Rattle.std.specs.Prelude.{ℕ, ◌<◌, ◌^◌};
    ghost use Rattle.rule_model.specs.Rank.{rank_of, high_of, low_of};

    ghost Value = { ℕ };

    ghost view = { λ r. rank_of r.high r.low };

    ghost invariant = { λ r. r.low < 2 ^ 128 };

    ghost inverse = { λ n. record { high = high_of n; low = low_of n } };
}

impl PartialEq for Rank {
    ghost eq = { nat_eq };

    ghost laws = { Prim.search (comparing, rules) };

    fn eq(&self, other: &Rank) -> bool {
        self.high == other.high && self.low == other.low
    }
}

impl Eq for Rank {
    ghost laws = { Prim.search rules };
}

impl PartialOrd for Rank {
    ghost partial_cmp = { λ a b. Some (nat_cmp a b) };

    ghost laws = { Prim.search (comparing, rules) };

    fn partial_cmp(&self, other: &Rank) -> Option<Ordering> {
        Some(self.cmp(other))
    }
}

impl Ord for Rank {
    ghost cmp = { nat_cmp };

    ghost total = { Prim.search rules };

    ghost matches_partial_cmp = { Prim.search rules };

    ghost matches_eq = { Prim.search rules };

    fn cmp(&self, other: &Rank) -> Ordering {
        self.high.cmp(&other.high).then(self.low.cmp(&other.low))
    }
}

/// A version of IP. It decides how addresses are written and which bits of an [`Addr`] they have.
#[derive(Clone, Copy, Debug, PartialEq, Eq)]
pub enum IpVersion {
    /// IPv4 (RFC 791).
    V4,
    /// IPv6 (RFC 8200).
    V6,
}

/// The header fields by which a packet is classified: addresses and protocol (RFC 791, section 3.1, or RFC 8200,
/// section 3) and ports (RFC 9293, section 3.1, or RFC 768).
#[derive(Clone, Copy, Debug, PartialEq, Eq)]
pub struct Key {
    pub src: Addr,
    pub dst: Addr,
    pub proto: u8,
    pub sport: u16,
    pub dport: u16,
}

impl Key {
    /// The key of an IPv4 packet, each address as a number of 32 bits: 10.0.0.1 is 0x0a00_0001. The fields have such a
    /// number in their upper 32 bits, so that a key whose `src` or `dst` is the number itself matches no IPv4 prefix.
    pub fn v4(src: u32, dst: u32, proto: u8, sport: u16, dport: u16) -> Key
        ensures { result ≡ record { src = ipv4_address src; dst = ipv4_address dst; proto = proto; sport = sport; dport = dport } }
    {
        Key {
            src: Addr::from(src) << 96,
            dst: Addr::from(dst) << 96,
            proto,
            sport,
            dport,
        }
    }
}

/// An address block (RFC 4632, section 3.1): the addresses that share its leading `len` bits.
#[derive(Clone, Copy, Debug, PartialEq, Eq)]
pub struct Prefix {
    addr: Addr,
    len: u8,
}

impl Model for Prefix {
    ghost use Rattle.rule_model.specs.AddressBlock.{AddressBlock, IsAddressBlock};

    ghost Value = { AddressBlock };

    ghost view = { λ p. record { addr = p.addr; len = p.len } };

    ghost invariant = { λ p. IsAddressBlock (record { addr = p.addr; len = p.len }) };

    ghost inverse = { λ b. record { addr = b.addr; len = b.len } };
}

impl Prefix {
    /// The block of every address.
    pub fn any() -> Prefix
        ensures { result ≡ any_address }
    {
        Prefix { addr: 0, len: 0 }
    }

    /// The block of an IPv4 address (RFC 791, section 3.1) and a length up to 32. Length comes for a greater
    /// length, and HostBits for one that fits where a bit of the address past it is set (RFC 4632, section 3.1).
    pub fn v4(addr: u32, len: u8) -> Result<Prefix, PrefixFault>
        ensures length { (result ≡ Err PrefixFault.Length) ↔ (32 < len) }
        ensures host_bits { (result ≡ Err PrefixFault.HostBits) ↔ ((len ≤ 32) × (addr % 2 ^ (32 - len) ≢ 0)) }
        ensures block { IfOk result (λ prefix. prefix ≡ ipv4_block addr len) }
        ensures ipv4 { IfOk result (λ prefix. IsIpv4Block prefix) }
    {
        if len > 32 {
            return Err(PrefixFault::Length);
        }
        if u64::from(addr) % (1u64 << (32 - len)) != 0 {
            return Err(PrefixFault::HostBits);
        }
        Ok(Prefix {
            addr: u128::from(addr) << 96,
            len,
        })
    }

    /// The block of an IPv6 address (RFC 4291, section 2) and a length up to 128. Length comes for a greater length,
    /// and HostBits for one that fits where a bit of the address past it is set (RFC 4291, section 2.3).
    pub fn v6(addr: u128, len: u8) -> Result<Prefix, PrefixFault>
        ensures length { (result ≡ Err PrefixFault.Length) ↔ (128 < len) }
        ensures host_bits { (result ≡ Err PrefixFault.HostBits) ↔ ((len ≤ 128) × (addr % 2 ^ (128 - len) ≢ 0)) }
        ensures block { IfOk result (λ prefix. prefix ≡ record { addr = addr; len = len }) }
    {
        if len > 128 {
            return Err(PrefixFault::Length);
        }
        if has_host_bits(addr, len) {
            return Err(PrefixFault::HostBits);
        }
        Ok(Prefix { addr, len })
    }

    /// The address of the block, whose bits past its length are 0.
    pub fn addr(&self) -> Addr
        ensures value { result ≡ self.now.addr }
        ensures fits { result < 2 ^ 128 }
        ensures block { IsAddressBlock self.now }
    {
        self.addr
    }

    /// How many leading bits the addresses of the block share, at most 128.
    pub fn len(&self) -> u8
        ensures value { result ≡ self.now.len }
        ensures fits { result ≤ 128 }
    {
        self.len
    }

    /// Whether the block holds an address.
    pub fn holds(&self, address: Addr) -> bool
        ensures { result ≡ block_holds self.now address }
    {
        if self.len == 0 {
            return true;
        }
        let past = 128 - self.len;
        address >> past == self.addr >> past
    }

    /// Whether some address is in both blocks.
    pub fn meets(&self, other: &Prefix) -> bool
        ensures test { result ≡ blocks_meet self.now other.now }
        ensures exact { IsTrue result ↔ BlocksOverlap self.now other.now }
    {
        if self.len <= other.len {
            self.holds(other.addr)
        } else {
            other.holds(self.addr)
        }
    }
}

/// A range of ports, both ends within it.
#[derive(Clone, Copy, Debug, PartialEq, Eq)]
pub struct Ports {
    lo: u16,
    hi: u16,
}

impl Model for Ports {
    ghost use Rattle.rule_model.specs.PortRange.{PortRange, IsPortRange};

    ghost Value = { PortRange };

    ghost view = { λ p. record { lo = p.lo; hi = p.hi } };

    ghost invariant = { λ p. IsPortRange (record { lo = p.lo; hi = p.hi }) };

    ghost inverse = { λ r. record { lo = r.lo; hi = r.hi } };
}

impl Ports {
    /// Every port.
    pub fn any() -> Ports
        ensures { result ≡ any_port }
    {
        Ports { lo: 0, hi: 65535 }
    }

    /// The ports from `lo` to `hi`. None comes exactly where `lo` is above `hi`.
    pub fn new(lo: u16, hi: u16) -> Option<Ports>
        ensures none { IsNone result ↔ (hi < lo) }
        ensures range { IfSome result (λ ports. ports ≡ record { lo = lo; hi = hi }) }
    {
        if lo > hi {
            None
        } else {
            Some(Ports { lo, hi })
        }
    }

    /// The first port.
    pub fn lo(&self) -> u16
        ensures value { result ≡ self.now.lo }
        ensures ordered { result ≤ self.now.hi }
        ensures range { IsPortRange self.now }
    {
        self.lo
    }

    /// The last port.
    pub fn hi(&self) -> u16
        ensures value { result ≡ self.now.hi }
        ensures ordered { self.now.lo ≤ result }
    {
        self.hi
    }

    /// Whether the range holds a port.
    pub fn holds(&self, port: u16) -> bool
        ensures { result ≡ range_holds self.now port }
    {
        self.lo <= port && port <= self.hi
    }

    /// Whether some port is in both ranges.
    pub fn meets(&self, other: &Ports) -> bool
        ensures test { result ≡ not (is_disjoint self.now other.now) }
        ensures exact { IsTrue result ↔ RangesOverlap self.now other.now }
    {
        self.lo <= other.hi && other.lo <= self.hi
    }

    /// Whether the range is one block: as many ports as some power of two, the first a multiple of their number.
    pub fn block(&self) -> bool
        ensures { result ≡ is_block self.now }
    {
        let first = u32::from(self.lo);
        let size = u32::from(self.hi) - first + 1;
        size.is_power_of_two() && first % size == 0
    }
}

/// Which of a packet's two ports.
#[derive(Clone, Copy, Debug, PartialEq, Eq)]
pub enum Field {
    /// The source port.
    Src,
    /// The destination port.
    Dst,
}

/// A rule: a priority, five conditions on a packet's key (no protocol is any), and a result, which is what a packet
/// gets that the rule decides.
#[derive(Clone, Copy, Debug, PartialEq, Eq)]
pub struct Rule {
    pub priority: Rank,
    pub src: Prefix,
    pub dst: Prefix,
    pub proto: Option<u8>,
    pub sport: Ports,
    pub dport: Ports,
    pub result: u32,
}

/// A part of a rule that one entry of the memory stands for. A port range with a bit is tested by
/// that bit of its translation table, and any other is one block of ports.
#[derive(Clone, Copy, Debug, PartialEq, Eq)]
pub struct Piece {
    pub src: Prefix,
    pub dst: Prefix,
    pub proto: Option<u8>,
    pub sport: Ports,
    pub dport: Ports,
    pub srcbit: Option<u8>,
    pub dstbit: Option<u8>,
}

/// Why an address and a length are no prefix.
#[derive(Clone, Copy, Debug, PartialEq, Eq, Error)]
pub enum PrefixFault {
    /// The length is above that of an address.
    #[error("length past the address")]
    Length,
    /// A bit past the length is set.
    #[error("host bits")]
    HostBits,
}

impl Piece {
    /// The part of a rule with these ranges of its ports, and no bits.
    pub fn part_of(rule: &Rule, sport: Ports, dport: Ports) -> Piece
        ensures { result ≡ pieces.piece_of rule.now sport dport }
    {
        Piece {
            src: rule.src,
            dst: rule.dst,
            proto: rule.proto,
            sport,
            dport,
            srcbit: None,
            dstbit: None,
        }
    }

    /// The one piece of a rule whose ranges are tested as they are, or by bits.
    pub fn whole(rule: &Rule) -> Piece
        ensures { result ≡ pieces.whole_piece rule.now }
    {
        Piece::part_of(rule, rule.sport, rule.dport)
    }
}

/// Whether an address has a bit set past a length. The empty length is apart, since no shift is by all 128 bits.
fn has_host_bits(addr: Addr, len: u8) -> bool
    requires { len ≤ 128 }
    ensures { IsTrue result ↔ (addr % 2 ^ (128 - len) ≢ 0) }
{
    if len == 0 {
        addr != 0
    } else {
        addr % (1u128 << (128 - len)) != 0
    }
}

/// Whether a protocol, or any, is that of a packet.
fn proto_holds(wanted: Option<u8>, proto: u8) -> bool
    ensures { result ≡ spec.proto_holds wanted proto }
{
    match wanted {
        None => true,
        Some(wanted) => wanted == proto,
    }
}

/// Whether some protocol is held by both.
fn protos_meet(a: Option<u8>, b: Option<u8>) -> bool
    ensures test { result ≡ spec.protos_meet a b }
    ensures exact { IsTrue result ↔ ProtosOverlap a b }
{
    match (a, b) {
        (Some(a), Some(b)) => a == b,
        (None, None) | (Some(_), None) | (None, Some(_)) => true,
    }
}

/// Whether the rule matches the key: all five of its conditions hold.
pub fn matches(rule: &Rule, key: &Key) -> bool
    ensures { result ≡ rule_matches rule.now key.now }
{
    piece_matches(&Piece::whole(rule), key)
}

/// Whether two rules overlap: some key matches both.
pub fn overlaps(a: &Rule, b: &Rule) -> bool
    ensures test { result ≡ rules_meet a.now b.now }
    ensures exact { IsTrue result ↔ Overlap a.now b.now }
{
    piece_overlaps(&Piece::whole(a), &Piece::whole(b))
}

/// Whether the piece matches the key, by its five conditions and not by its bits.
pub fn piece_matches(piece: &Piece, key: &Key) -> bool
    ensures { result ≡ pieces.piece_matches piece.now key.now }
{
    piece.src.holds(key.src)
        && piece.dst.holds(key.dst)
        && proto_holds(piece.proto, key.proto)
        && piece.sport.holds(key.sport)
        && piece.dport.holds(key.dport)
}

/// Whether two pieces overlap: some key matches both.
pub fn piece_overlaps(a: &Piece, b: &Piece) -> bool
    ensures test { result ≡ pieces_meet a.now b.now }
    ensures exact { IsTrue result ↔ PiecesOverlap a.now b.now }
{
    a.src.meets(&b.src)
        && a.dst.meets(&b.dst)
        && protos_meet(a.proto, b.proto)
        && a.sport.meets(&b.sport)
        && a.dport.meets(&b.dport)
}
