//! Sentences on actions.

use crate::numbers::tell_number;
use crate::parts::{is_digits, tell};
use std::alloc::AllocError;

/// What is wrong with an action.
pub(crate) fn tell_action(text: &mut String, word: &str) -> Result<(), AllocError> {
    if let Some(number) = word.strip_prefix('=') {
        return tell_number(text, number, 0, 4294967295);
    }
    if is_digits(word) {
        return write!(text, "{word}: a result stands behind =; ={word}?");
    }
    match word {
        "Permit" | "PERMIT" | "allow" | "accept" | "pass" | "ALLOW" | "ACCEPT" => {
            tell(text, word, "permit?")
        }
        "Deny" | "DENY" | "drop" | "reject" | "block" | "DROP" | "REJECT" => {
            tell(text, word, "deny?")
        }
        _ => tell(
            text,
            word,
            "permit, deny, or = and a number up to 4294967295",
        ),
    }
}
