//! The words of a line that `ip` prints: `-o` puts a backslash where a line would end, sometimes without a blank before it.

ghost use Rattle.std.specs.Prelude.{◌≡◌, ◌≤◌, ◌<◌, ◌∷◌, [], false, length, slice_index, MatchOption};
ghost use Rattle.std.specs.List.{position, prefix_len};
ghost use Rattle.ip_routes.specs.Words.{gap_words, is_gap};

/// The first word of a text, and what stands behind it; none where it has no word.
pub fn first_word(text: &[u8]) -> Option<(&[u8], &[u8])>
    ensures { MatchOption result (gap_words text.now ≡ []) (λ found. gap_words text.now ≡ found.0.now ∷ gap_words found.1.now) }
{
    let solid = without_gaps(text);
    if solid.is_empty() {
        return None;
    }
    Some(cut_word(solid))
}

/// A text without the bytes that part words and that it begins with.
fn without_gaps(text: &[u8]) -> &[u8]
    ensures words { gap_words result.now ≡ gap_words text.now }
    ensures solid { 0 < length result.now → is_gap (slice_index result.now 0) ≡ false }
    ensures len { length result.now ≤ length text.now }
{
    &text[leading_gaps(text)..]
}

/// How many such bytes a text begins with.
fn leading_gaps(text: &[u8]) -> usize
    ensures count { result ≡ prefix_len is_gap text.now }
    ensures within { result ≤ length text.now }
    ensures solid { result < length text.now → is_gap (slice_index text.now result) ≡ false }
{
    text.iter().take_while(|byte| is_gap(**byte)).count()
}

/// The word that a text begins with, and what stands behind it.
fn cut_word(text: &[u8]) -> (&[u8], &[u8])
    requires some { 0 < length text.now }
    requires solid { is_gap (slice_index text.now 0) ≡ false }
    ensures { gap_words text.now ≡ result.0.now ∷ gap_words result.1.now }
{
    let end = first_gap(text).unwrap_or(text.len());
    text.split_at(end)
}

/// The place of the first byte of a text that parts words.
fn first_gap(text: &[u8]) -> Option<usize>
    ensures { result ≡ position is_gap text.now }
{
    text.iter().position(|byte| is_gap(*byte))
}

/// Whether a byte parts words: space, tab, carriage return or backslash.
fn is_gap(byte: u8) -> bool
    ensures { result ≡ is_gap byte }
{
    matches!(byte, b' ' | b'\t' | b'\r' | b'\\')
}
