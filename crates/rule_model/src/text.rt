//! How a priority and a field are written.

use crate::{Field, Rank};
use std::fmt;

/// Its two numbers, as 8/167772160. What a user calls the rule depends on what the set holds.
impl fmt::Display for Rank {
    fn fmt<W: fmt::Write>(&self, f: &mut fmt::Formatter<W>) -> fmt::Result {
        write!(f, "{}/{}", self.high, self.low)
    }
}

/// Its name in reports: `src` or `dst`.
impl fmt::Display for Field {
    fn fmt<W: fmt::Write>(&self, f: &mut fmt::Formatter<W>) -> fmt::Result {
        match self {
            Field::Src => write!(f, "src"),
            Field::Dst => write!(f, "dst"),
        }
    }
}
