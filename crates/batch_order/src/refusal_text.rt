//! The texts of refusals.

ghost use Rattle.std.specs.Prelude.{◌≡◌};

use crate::rule_name::RuleName;
use crate::{BatchFault, Refusal, Rejection};
use rule_model::{IpVersion, Rank};
use std::fmt;

/// The text of a refusal, which names routes as those of a version of IP are named.
#[derive(Clone, Copy, Debug, PartialEq, Eq)]
pub struct RefusalText {
    pub refusal: Refusal,
    pub version: IpVersion,
}

impl Refusal {
    /// Its text where the routes of the set are of this version. A priority alone doesn't tell of which version they
    /// are.
    pub fn for_version(self, version: IpVersion) -> RefusalText
        ensures refusal { result.refusal ≡ self }
        ensures version { result.version ≡ version }
    {
        RefusalText {
            refusal: self,
            version,
        }
    }
}

impl RefusalText {
    /// What the rule of a priority is called.
    fn name(&self, priority: Rank) -> RuleName
        ensures priority { result.priority ≡ priority }
        ensures version { result.version ≡ self.now.version }
    {
        RuleName {
            priority,
            version: self.version,
        }
    }

    /// The text of a batch's fault.
    fn fmt_fault<W: fmt::Write>(
        &self,
        fault: BatchFault,
        f: &mut fmt::Formatter<W>,
    ) -> fmt::Result {
        match fault {
            BatchFault::Twice(priority) => write!(f, "rule {} is named twice", self.name(priority)),
            BatchFault::Taken(priority) => write!(f, "rule {} is taken", self.name(priority)),
            BatchFault::Absent(priority) => write!(f, "rule {} is absent", self.name(priority)),
        }
    }
}

impl fmt::Display for RefusalText {
    fn fmt<W: fmt::Write>(&self, f: &mut fmt::Formatter<W>) -> fmt::Result {
        match self.refusal {
            Refusal::Busy { left } => write!(f, "a plan is held with {left} writes to make"),
            Refusal::Rejected(Rejection::Unsound(fault)) => self.fmt_fault(fault, f),
            // Bits and slots name no rule.
            Refusal::Rejected(rejection) => rejection.fmt(f),
            Refusal::Memory => write!(f, "out of memory"),
        }
    }
}

/// The text where the routes of the set are of IPv4.
impl fmt::Display for Refusal {
    fn fmt<W: fmt::Write>(&self, f: &mut fmt::Formatter<W>) -> fmt::Result {
        self.for_version(IpVersion::V4).fmt(f)
    }
}
