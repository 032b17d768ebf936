//! Laws as calls: each makes nothing, and its contract is the law.

ghost use Rattle.line_words.specs.Shown.{PrintedIsReadBack, ShortensTheLongest};

/// An IPv6 address as it is printed is read as that address.
pub fn printed_is_read_back()
    ensures { PrintedIsReadBack }
{}

/// The run of zero groups that is shortened is the longest one, the first of equals.
pub fn shortens_the_longest()
    ensures { ShortensTheLongest }
{}
