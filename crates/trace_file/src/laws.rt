//! Laws as calls: each makes nothing, and its contract is the law.
ghost use Rattle.trace_file.specs.Forms.{LinesAreReadBack, LinesAreUtf8, LinesAreWithin, VersionsAreApart};

/// What is written for a line is read as that line.
pub fn lines_are_read_back()
    ensures { LinesAreReadBack }
{}

/// What is written for a line is UTF-8, where the text of its fault is.
pub fn lines_are_utf8()
    ensures { LinesAreUtf8 }
{}

/// A line that is read has its numbers within their limits.
pub fn lines_are_within()
    ensures { LinesAreWithin }
{}

/// A line that has a rank is one of a single version.
pub fn versions_are_apart()
    ensures { VersionsAreApart }
{}
