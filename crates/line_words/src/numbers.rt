//! Decimal numbers up to a bound, and the parts of a word.

ghost use Rattle.std.specs.Prelude.{◌≡◌, ◌==◌, ◌≤◌, ◌&&◌, nat_le, [], ◌∷◌, Some, None, IfSome, MatchOption, if◌then◌else◌};
ghost use Rattle.std.specs.List.{list_all, position};
ghost use Rattle.line_words.specs.Kinds.{is_digit, number_value, number_up_to, parts_at};

/// The value of a decimal number: digits alone, without zeros in front, of a value up to the bound.
pub fn number_up_to(bound: u32, word: &[u8]) -> Option<u32>
    ensures value { result ≡ number_up_to bound word.now }
    ensures within { IfSome result (λ number. number ≤ bound) }
{
    match word {
        [] | [b'0', _, ..] => None,
        _ => digits_up_to(bound, word),
    }
}

/// The value of decimal digits, if it is up to the bound.
fn digits_up_to(bound: u32, word: &[u8]) -> Option<u32>
    ensures value { result ≡ (if list_all is_digit word.now && nat_le (number_value word.now) bound then Some (number_value word.now) else None) }
    ensures within { IfSome result (λ number. number ≤ bound) }
{
    let mut value = 0u64;
    for digit in word {
        if !digit.is_ascii_digit() {
            return None;
        }
        value = value * 10 + u64::from(digit - b'0');
        if value > u64::from(bound) {
            return None;
        }
    }
    Some(value as u32)
}

/// A number up to 255.
pub fn number_of_8_bits(word: &[u8]) -> Option<u8>
    ensures { result ≡ number_up_to 255 word.now }
{
    Some(number_up_to(255, word)? as u8)
}

/// A number up to 65535.
pub fn number_of_16_bits(word: &[u8]) -> Option<u16>
    ensures { result ≡ number_up_to 65535 word.now }
{
    Some(number_up_to(65535, word)? as u16)
}

/// What stands before the first separator of a word and what stands behind it, or nothing where it has
/// none.
pub fn split_once(word: &[u8], separator: u8) -> Option<(&[u8], &[u8])>
    ensures { MatchOption result (parts_at separator word.now ≡ word.now ∷ [])
        (λ parts. parts_at separator word.now ≡ parts.0.now ∷ parts_at separator parts.1.now) }
{
    let end = first_place(word, separator)?;
    Some((&word[..end], &word[end + 1..]))
}

/// The place of the first separator of a word.
fn first_place(word: &[u8], separator: u8) -> Option<usize>
    ensures { result ≡ position (λ byte. byte == separator) word.now }
{
    word.iter().position(|byte| *byte == separator)
}
