//! What a reader counts is what a script has.

ghost use Rattle.script_lines.specs.Lines.{BytesAreTheScripts};

/// A script that may have so many bytes, `MOST_BYTES` at most, ends at the first byte past that many, and else where its lines
/// do: that others are counted before its first is of no further effect.
pub fn bytes_are_the_scripts()
    ensures { BytesAreTheScripts }
{}
