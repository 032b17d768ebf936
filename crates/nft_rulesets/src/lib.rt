//! `nft -j list ruleset` as a script of an access list: a chain of a table that packets meet first, written out.
//!
//!     {"nftables": [
//!       {"chain": {"family": "inet", "table": "filter", "name": "input", "type": "filter", "policy": "drop", ..}},
//!       {"rule": {.., "chain": "input", "expr": [
//!         {"match": {"op": "==", "left": {"payload": {"protocol": "tcp", "field": "dport"}}, "right": {"set": [22, 80]}}},
//!         {"accept": null}]}}                  acl add 10 permit any any tcp any 22
//!     ..                                       acl add 20 permit any any tcp any 80
//!                                              acl add 30 deny any any any any any
//!                                              commit
//!
//! A rule is read statement by statement. A comparison is a list of tests (`products`): one for each block of addresses,
//! protocol or range of ports that it names, or that it leaves where it is negated. What a rule tests is where one of each
//! of its comparisons holds. A verdict makes rules of a chain of them, as `written_chains` has them, and so does a map, one
//! for each of its values; what comes of the chains is `written_chains`' too.
//!
//! Where fields are compared together (`ip saddr . tcp dport`) an element is where each of its parts holds (`concats`), and a
//! set is one element after the other.
//!
//! Chains, sets and maps are looked for among all items, so that it doesn't matter which comes first. A chain's number is
//! its place among them.
//!
//! # Decided
//! - **The input is read to its end before anything is written**: a text is JSON as a whole, or not at all.
//! - **A key that isn't known isn't passed over**, wherever a rule, a comparison or a set may have one: it may say that the
//!   rule holds for some packets alone.
//! - **`goto` is a jump and a return**: where a packet leaves the other chain, it leaves this one.
//! - **The next header of IPv6 isn't the protocol** that scripts have: extension headers stand between. So `ip6 nexthdr` isn't
//!   said, and `meta l4proto` is.
//! - **A port of any protocol** (`th dport`) is said where the rule tests before it that the packet is of TCP or UDP; among
//!   fields together, where a part before it does.
//! - **Fields together aren't negated**: what no element holds is a list of lines for each of them, met with one another,
//!   and that would be too many already for small sets. A map of them is in the order that it is printed in, which is that
//!   by which the kernel looks: it takes an element into another one only behind it. Where a pair lets packets go on, they go
//!   on behind the map, and in a list they would meet the pairs behind it: a map where one of those has some isn't said.
#![tactic(auto)]

mod asked;
mod concats;
mod defined;
mod fields;
mod items;
mod laws;
mod listing;
mod looks;
mod matches;
mod products;
mod rules;
mod script;
mod spans;
mod text;
mod together;
mod top;
mod values;
mod verdicts;
mod why;

pub use asked::Asked;
pub use laws::{
    blocks_are_the_span, comparisons_hold_what_they_say, elements_hold_together,
    outside_is_the_rest, pairs_are_apart, parts_hold_together,
};
pub use top::import_nft;
