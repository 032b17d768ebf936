//! What is asked for.

use kept_numbers::OlderLine;
use rule_model::IpVersion;

/// A chain, by the family and the name of its table and its own name, and the version of IP of the packets that meet it. Lines
/// of its list that are older ones keep their numbers.
#[derive(Clone, Copy, Debug)]
pub struct Asked<'n> {
    pub version: IpVersion,
    pub family: &'n [u8],
    pub table: &'n [u8],
    pub chain: &'n [u8],
    pub older: &'n [OlderLine],
}
