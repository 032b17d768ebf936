//! Parts of sentences: numbers of a word, and words told by their form alone.

use std::alloc::AllocError;

/// Whether a word is decimal digits alone, one at least.
pub(crate) fn is_digits(word: &str) -> bool {
    !word.is_empty() && word.bytes().all(|byte| byte.is_ascii_digit())
}

/// Whether a word is hexadecimal digits alone, one at least.
pub(crate) fn is_hex(word: &str) -> bool {
    !word.is_empty() && word.bytes().all(|byte| byte.is_ascii_hexdigit())
}

/// Digits without the zeros in front, but for the last digit.
pub(crate) fn without_zeros(digits: &str) -> &str {
    let rest = digits.trim_start_matches('0');
    if rest.is_empty() { "0" } else { rest }
}

/// The number that digits are, if they are digits and it has at most 64 bits.
pub(crate) fn value_of(word: &str) -> Option<u64> {
    if !is_digits(word) {
        return None;
    }
    word.parse::<u64>().ok()
}

/// Writes a word that a colon follows: in quotation marks where it is empty or ends in one itself.
pub(crate) fn write_word(text: &mut String, word: &str) -> Result<(), AllocError> {
    if word.is_empty() || word.ends_with(':') {
        write!(text, "\"{word}\"")
    } else {
        text.push_str(word)
    }
}

/// What is wrong with a word, in a sentence.
pub(crate) fn tell(text: &mut String, word: &str, meant: &str) -> Result<(), AllocError> {
    write_word(text, word)?;
    write!(text, ": {meant}")
}
