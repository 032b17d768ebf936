//! The lines of reports: how they are made of words and numbers, and how one is handed to a sink.
//!
//! A [`ReportLine`] is made word by word, in fixed room, so that none takes memory. Its words are said by `specs/Text`: how
//! a rule is named, an answer, a device write, the reason of a refusal. A write as people read it is said by `specs/Named`:
//! what it does, by what the slots hold before it ([`Deed`]), and what its entry tests in the words of a script. Which lines
//! a report has is said where the report is: here are those alone that every report may have, the fault of a line and a text
//! as it is (`any_report`).
//!
//! # Decided
//! - **A crate of its own**, below `replay` and `router`: a router's report has other lines of the same words, and its
//!   crate stands on no run over one table.
//! - **What a call hands to a sink is said once** (`HandsOver`, `WritesLine` in `specs/Outside`): that a line is taken whole,
//!   or in part where the sink fails, by either count; and that the failure is counted.
//! - **An entry is told by names whatever it is.** A prefix is as long as its mask has bits, ports go from their value on as
//!   far as their mask leaves open, a protocol that is tested is told whole. Of the entries that a manager writes, whose masks
//!   are prefixes, blocks and whole fields, this is what they test; of another one it is less than that.
//! - **How large scripts, tables and batches may be is said here** ([`Sizes`], `sizes_by`): it is the lowest crate over those
//!   that have the three limits, and what runs scripts of one table or of two stands above it.
//! - **A line has room for 400 bytes.** The longest has 295: a trace line of IPv6. The proofs know no address to be below
//!   `2^32` in the text of an IPv4 one, so two answers in one line ask for more room than they ever fill.
#![tactic(auto)]

ghost use Rattle.std.specs.Prelude.{◌≡◌};
ghost use Rattle.report_lines.specs.Text.{family_version};

mod any_report;
mod deed;
mod named_line;
mod report_line;
mod sizes;

pub use any_report::{write_fault, write_text};
pub use deed::Deed;
pub use report_line::{LINE_ROOM, ReportLine};
use rule_model::IpVersion;
pub use sizes::{Sizes, sizes_by};

/// What the rules of a script are, and of which version of IP. It decides how lines are read, how the report names
/// rules, and which bounds hold: among routes nothing is crossed, and an insertion takes at most 33 writes of IPv4, 129
/// of IPv6.
#[derive(Clone, Copy, Debug, PartialEq, Eq)]
pub enum Family {
    /// Routes of IPv4, named by their prefix.
    Route,
    /// Rules of an access list of IPv4, named by their sequence number.
    Acl,
    /// Routes of IPv6, named by their prefix.
    Route6,
    /// Rules of an access list of IPv6, named by their sequence number.
    Acl6,
}

impl Family {
    /// The version of IP of its addresses, prefixes and frames.
    pub fn version(self) -> IpVersion
        ensures { result ≡ family_version self }
    {
        match self {
            Family::Route | Family::Acl => IpVersion::V4,
            Family::Route6 | Family::Acl6 => IpVersion::V6,
        }
    }
}
