//! What a line is, by its words: of another table, of another version of IP, or of a route that a router advertised.

ghost use Rattle.std.specs.Prelude.{◌≡◌, None, Some, codes, if◌then◌else◌, MatchOption};
ghost use Rattle.std.specs.Str.{bytes_eq};
ghost use Rattle.ip_routes.specs.Words.{gap_words};
ghost use Rattle.ip_monitor.specs.Events.{by_table, by_version, first_or_none, is_advertised, is_kind, is_main, is_of_other, is_preferred, is_prefix, passed_of, prefix_word, value_of};

use ip_routes::{Reading, first_word, is_another_kind, is_named, kind_of};
use rule_model::IpVersion;

/// Why an event doesn't change the table that a script is of.
#[derive(Clone, Copy, Debug, PartialEq, Eq)]
pub(crate) enum Passed {
    /// It is of another table, which this is the name of.
    Table,
    /// It is of another version of IP, as this prefix is.
    Version,
}

/// The word behind one of this name: not where that is the name of a device, and of none behind an encapsulation.
fn value_of<'t>(text: &'t [u8], name: &[u8]) -> Option<&'t [u8]>
    ensures { MatchOption result (value_of name.now (gap_words text.now) ≡ None) (λ value. value_of name.now (gap_words text.now) ≡ Some value.now) }
{
    let mut rest = text;
    'words: loop {
        let (word, behind) = match first_word(rest) {
            Some(found) => found,
            None => return None,
        };
        let (next, after) = match first_word(behind) {
            Some(found) => found,
            None => return None,
        };
        if is_named(word, b"encap") {
            return None;
        }
        if is_named(word, name) {
            return Some(next);
        }
        rest = behind_word(word, behind, after);
    }
}

/// Where the next name may stand: behind the name of a device, or at the next word.
fn behind_word<'t>(word: &[u8], behind: &'t [u8], after: &'t [u8]) -> &'t [u8]
    ensures { result.now ≡ (if bytes_eq word.now (codes "dev") then after.now else behind.now) }
{
    if is_named(word, b"dev") {
        return after;
    }
    behind
}

/// Whether a word is a kind of route.
fn is_kind(word: &[u8]) -> bool
    ensures { result ≡ is_kind word.now }
{
    kind_of(word).is_some() || is_another_kind(word)
}

/// The word that is to be the prefix: the first one, or the one behind a kind of route.
fn prefix_word(text: &[u8]) -> &[u8]
    ensures { result.now ≡ prefix_word (gap_words text.now) }
{
    match first_word(text) {
        None => b"",
        Some((word, behind)) => {
            if is_kind(word) {
                return word_at(behind);
            }
            word
        }
    }
}

/// The first word of a text, of no bytes where it has none.
fn word_at(text: &[u8]) -> &[u8]
    ensures { result.now ≡ first_or_none (gap_words text.now) }
{
    match first_word(text) {
        None => b"",
        Some((word, _)) => word,
    }
}

/// Whether a word is a prefix of this version.
fn is_prefix(version: IpVersion, word: &[u8]) -> bool
    ensures { result ≡ is_prefix version word.now }
{
    let mut trial = Reading::new(false);
    match trial.read_prefix(word, version) {
        Ok(()) => true,
        Err(_) => false,
    }
}

/// Whether a route of every address has a preference, as one of IPv6 has.
fn is_preferred(text: &[u8]) -> bool
    ensures { result ≡ is_preferred (gap_words text.now) }
{
    value_of(text, b"pref").is_some()
}

/// Whether a line is of the version that this one isn't.
fn is_of_other(version: IpVersion, text: &[u8], prefix: &[u8]) -> bool
    ensures { result ≡ is_of_other version (gap_words text.now) prefix.now }
{
    match version {
        IpVersion::V4 => is_of_six(text, prefix),
        IpVersion::V6 => is_of_four(text, prefix),
    }
}

/// Whether a line is of IPv6.
fn is_of_six(text: &[u8], prefix: &[u8]) -> bool
    ensures { result ≡ is_of_other IpVersion.V4 (gap_words text.now) prefix.now }
{
    if is_named(prefix, b"default") {
        return is_preferred(text);
    }
    is_prefix(IpVersion::V6, prefix)
}

/// Whether a line is of IPv4.
fn is_of_four(text: &[u8], prefix: &[u8]) -> bool
    ensures { result ≡ is_of_other IpVersion.V6 (gap_words text.now) prefix.now }
{
    if is_named(prefix, b"default") {
        return !is_preferred(text);
    }
    is_prefix(IpVersion::V4, prefix)
}

/// Whether a table of this name is the one that a script is of.
fn is_main(table: &[u8]) -> bool
    ensures { result ≡ is_main table.now }
{
    is_named(table, b"main") || is_named(table, b"254")
}

/// Why an event doesn't change the table of this version, and the word, if it doesn't.
pub(crate) fn passed_of<'t>(version: IpVersion, text: &'t [u8]) -> Option<(Passed, &'t [u8])>
    ensures { MatchOption result (passed_of version (gap_words text.now) ≡ None)
        (λ passed. passed_of version (gap_words text.now) ≡ Some (record { by = passed.0; word = passed.1.now })) }
{
    match value_of(text, b"table") {
        Some(table) => by_table(table),
        None => by_version(version, text),
    }
}

/// The same of a line that names this table: one that names the main one is read.
fn by_table<'t>(table: &'t [u8]) -> Option<(Passed, &'t [u8])>
    ensures { MatchOption result (by_table table.now ≡ None) (λ passed. by_table table.now ≡ Some (record { by = passed.0; word = passed.1.now })) }
{
    if is_main(table) {
        return None;
    }
    Some((Passed::Table, table))
}

/// The same of a line that names none.
fn by_version<'t>(version: IpVersion, text: &'t [u8]) -> Option<(Passed, &'t [u8])>
    ensures { MatchOption result (by_version version (gap_words text.now) ≡ None)
        (λ passed. by_version version (gap_words text.now) ≡ Some (record { by = passed.0; word = passed.1.now })) }
{
    let prefix = prefix_word(text);
    if is_of_other(version, text, prefix) {
        return Some((Passed::Version, prefix));
    }
    None
}

/// Whether a router advertised the route.
pub(crate) fn is_advertised(text: &[u8]) -> bool
    ensures { result ≡ is_advertised (gap_words text.now) }
{
    match value_of(text, b"proto") {
        None => false,
        Some(origin) => is_named(origin, b"ra"),
    }
}
