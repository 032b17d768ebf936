//! Words of a line, and why a value isn't said. Each call puts bytes behind those of a line, and where the value isn't said the
//! reason in their place.

ghost use Rattle.std.specs.Prelude.{◌≡◌, ◌++◌, [], ◌∷◌, IfOk, OnOk, option_map};
ghost use Rattle.import_lines.specs.Import.{IsTold};
ghost use Rattle.json.specs.Value.{value_view};
ghost use Rattle.json_routes.specs.Lines.{bad_value, encapsulated, has_odd, is_odd, is_one_word, named_key, onto, text_line, text_of, unknown_key, value_line, word_line};

use import_lines::Told;
use ip_routes::shortened;
use json::Value;
use std::alloc::AllocError;

/// Whether no word of a line has this byte.
fn is_odd(byte: u8) -> bool
    ensures { result ≡ is_odd byte }
{
    byte < 33 || byte > 126 || byte == b'\\'
}

/// Whether a text is one word of a line.
fn is_one_word(text: &[u8]) -> bool
    ensures { result ≡ is_one_word text.now }
{
    !text.is_empty() && !has_odd(text)
}

/// Whether a text has such a byte.
fn has_odd(text: &[u8]) -> bool
    ensures { result ≡ has_odd text.now }
{
    text.iter().any(|byte| is_odd(*byte))
}

/// What a comment names a key by.
pub fn named_key(key: &[u8]) -> &[u8]
    ensures { result.now ≡ named_key key.now }
{
    if is_one_word(key) {
        return shortened(key);
    }
    b"?"
}

/// Puts a word there, behind a space.
pub(crate) fn put_word(line: &mut Vec<u8>, word: &[u8]) -> Result<(), AllocError>
    ensures { OnOk result (line.new.items ≡ line.old.items ++ word_line word.now) }
{
    line.extend_from_slice(b" ")?;
    line.extend_from_slice(word)?;
    Ok(())
}

/// Puts there that a key isn't known.
pub(crate) fn put_unknown(line: &mut Vec<u8>, key: &str) -> Result<Told, AllocError>
    ensures { IfOk result (λ answer. IsTold answer line.new.items (onto line.old.items (unknown_key key.now))) }
{
    line.clear();
    line.extend_from_slice(b"unknown key: ")?;
    line.extend_from_slice(named_key(key.as_bytes()))?;
    Ok(Told::Unsaid)
}

/// Puts there that the value of a key isn't one that it may have.
pub(crate) fn put_bad(line: &mut Vec<u8>, key: &str) -> Result<Told, AllocError>
    ensures { IfOk result (λ answer. IsTold answer line.new.items (onto line.old.items (bad_value key.now))) }
{
    line.clear();
    line.extend_from_slice(b"bad value: ")?;
    line.extend_from_slice(named_key(key.as_bytes()))?;
    Ok(Told::Unsaid)
}

/// Puts there that packets get another head on their way.
pub(crate) fn put_encapsulated(line: &mut Vec<u8>) -> Result<Told, AllocError>
    ensures { IfOk result (λ answer. IsTold answer line.new.items (onto line.old.items encapsulated)) }
{
    line.clear();
    line.extend_from_slice(b"encapsulation: encap")?;
    Ok(Told::Unsaid)
}

/// The word that a value is: a text, or a number as it is written.
pub fn text_of<'v>(value: &Value<'v>) -> Option<&'v str>
    ensures { option_map (λ text. text.now) result ≡ text_of (value_view value.now) }
{
    match value {
        Value::Number(text) => Some(*text),
        Value::String(text) => Some(*text),
        _ => None,
    }
}

/// Puts the word there that a value is.
pub(crate) fn put_value(line: &mut Vec<u8>, key: &str, value: &Value) -> Result<Told, AllocError>
    ensures { IfOk result (λ answer. IsTold answer line.new.items (onto line.old.items (value_line key.now (value_view value.now)))) }
{
    match text_of(value) {
        Some(text) => put_text(line, key, text),
        None => put_bad(line, key),
    }
}

/// The same of the text of a value.
fn put_text(line: &mut Vec<u8>, key: &str, text: &str) -> Result<Told, AllocError>
    ensures { IfOk result (λ answer. IsTold answer line.new.items (onto line.old.items (text_line key.now (Some text.now)))) }
{
    if is_one_word(text.as_bytes()) {
        put_word(line, text.as_bytes())?;
        return Ok(Told::Said);
    }
    put_bad(line, key)
}
