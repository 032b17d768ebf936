//! Sentences on numbers.

use crate::parts::{is_digits, tell, without_zeros, write_word};
use std::alloc::AllocError;

/// What is wrong with a word that is to be a number in a range, and isn't.
pub(crate) fn tell_number(
    text: &mut String,
    word: &str,
    least: u64,
    most: u64,
) -> Result<(), AllocError> {
    if is_digits(word) {
        return tell_digits(text, word, least, most);
    }
    match word.as_bytes() {
        [] => tell_range(text, "a number is missing", least, most),
        [b'+', ..] | [b'-', ..] => tell(text, word, "numbers have no sign"),
        [b'0', b'x', ..] | [b'0', b'X', ..] => tell(text, word, "numbers are decimal"),
        _ => {
            write_word(text, word)?;
            text.push_str(": ")?;
            tell_range(text, "a number", least, most)
        }
    }
}

/// What is wrong with digits that are no number in a range.
fn tell_digits(text: &mut String, word: &str, least: u64, most: u64) -> Result<(), AllocError> {
    let plain = without_zeros(word);
    if plain.len() < word.len() {
        return write!(text, "{word}: no zeros in front; {plain}?");
    }
    if least == 0 {
        write!(text, "{word}: at most {most}")
    } else {
        write!(text, "{word}: {least} to {most}")
    }
}

/// A range of numbers, behind what it is of.
fn tell_range(text: &mut String, what: &str, least: u64, most: u64) -> Result<(), AllocError> {
    if least == 0 {
        write!(text, "{what}, up to {most}")
    } else {
        write!(text, "{what}, {least} to {most}")
    }
}
