//! A law as a call: it makes nothing, and its contract is the law.

ghost use Rattle.import_lines.specs.Import.{AllAreAccounted, telling};

use crate::LineFormat;

/// Each line of an input is said, left out by name, or the one at which the script stops, by each format and from wherever
/// its import stands. What the lines before the end have in the script is all that it has there, in their order, and the
/// number of those that are left out is the one that stands at its end.
pub fn all_lines_are_accounted_for<F: LineFormat>(_format: &F)
    ensures { AllAreAccounted F (telling F.told F.behind F.closing) }
{}
