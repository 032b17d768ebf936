//! Laws as calls: each makes nothing, and its contract is the law.
ghost use Rattle.json_text.specs.JsonText.{JsonLinesAreTexts, PlainTextsStand};

/// What is printed for a line of a trace is the compact text of its JSON value.
pub fn json_lines_are_texts()
    ensures { JsonLinesAreTexts }
{}

/// A text without control characters, quotation marks and backslashes stands in JSON as it is.
pub fn plain_texts_stand()
    ensures { PlainTextsStand }
{}
