//! IPv6 addresses as text (RFC 5952, section 4).

ghost use Rattle.std.specs.Prelude.{◌≡◌, ◌+◌, ◌-◌, ◌*◌, ◌^◌, ◌==◌, ◌<◌, ◌≤◌, [], ◌∷◌, ◌++◌, length, if◌then◌else◌};
ghost use Rattle.line_words.specs.Shown.{groups_of_number, group_text, hex_digit, ipv6_text, joined_text, longer_run, longest_run, shortened_text};

use arrayvec::ArrayString;
use rule_model::Addr;
use std::marker::Model;

/// The most bytes of an address: eight groups of four digits, and the colons between them.
const TEXT_ROOM: usize = 39;

/// The text of an IPv6 address, in fixed room. Contracts see its bytes.
#[derive(Drop)]
pub struct Ipv6Text {
    text: ArrayString<TEXT_ROOM>,
}

impl Model for Ipv6Text {
    ghost use Rattle.std.specs.Prelude.{ℕ, List};

    ghost Value = { List ℕ };

    ghost view = { λ t. t.text.bytes };
}

/// A run of zero groups: how many groups stand before it, and how many it has.
#[derive(Clone, Copy)]
struct ZeroRun {
    before: usize,
    len: usize,
}

impl Ipv6Text {
    /// The one text of an address that RFC 5952 recommends: lower case, no leading zeros, and two colons in place of
    /// the longest run of two or more zero groups, the first of equals. Takes no memory.
    pub fn new(address: Addr) -> Ipv6Text
        ensures text { result ≡ ipv6_text address }
        ensures len { length result ≤ TEXT_ROOM }
    {
        let groups = groups_of_number(address);
        let run = longest_run(&groups);
        Ipv6Text::shortened(&groups, run)
    }

    /// The text itself, at most 39 bytes.
    pub fn as_str(&self) -> &str
        ensures { result.now ≡ self.now }
    {
        self.text.as_str()
    }

    // The text of eight groups, with two colons in place of a run of two or more.
    fn shortened(groups: &[u16], run: ZeroRun) -> Ipv6Text
        requires eight { length groups.now ≡ 8 }
        requires inside { run.before + run.len ≤ 8 }
        ensures text { result ≡ shortened_text groups.now run }
        ensures len { length result ≤ TEXT_ROOM }
    {
        if run.len < 2 {
            Ipv6Text::empty().groups(groups)
        } else {
            Ipv6Text::empty()
                .groups(&groups[..run.before])
                .text("::")
                .groups(&groups[run.before + run.len..])
        }
    }

    // No text yet.
    fn empty() -> Ipv6Text
        ensures { result ≡ [] }
    {
        Ipv6Text {
            text: ArrayString::new(),
        }
    }

    // The text with another behind it.
    fn text(mut self, text: &str) -> Ipv6Text
        requires { length self + length text.now ≤ TEXT_ROOM }
        ensures text { result ≡ self ++ text.now }
        ensures len { length result ≡ length self + length text.now }
    {
        self.text.push_str(text);
        self
    }

    // The text with groups behind it, and a colon between each two.
    fn groups(self, groups: &[u16]) -> Ipv6Text
        requires { length self + (5 * length groups.now - 1) ≤ TEXT_ROOM }
        ensures text { result ≡ self ++ joined_text groups.now }
        ensures len { length result ≤ length self + (5 * length groups.now - 1) }
    {
        let Some((first, rest)) = groups.split_first() else {
            return self;
        };
        let mut text = self.group(*first);
        for group in rest {
            text = text.text(":").group(*group);
        }
        text
    }

    // The text with a group behind it, in one to four digits.
    fn group(self, group: u16) -> Ipv6Text
        requires { length self + 4 ≤ TEXT_ROOM }
        ensures text { result ≡ self ++ group_text group }
        ensures len { length result ≤ length self + 4 }
    {
        if group < 16 {
            self.digit(group)
        } else if group < 256 {
            self.digit(group / 16).digit(group % 16)
        } else if group < 4096 {
            self.digit(group / 256)
                .digit(group / 16 % 16)
                .digit(group % 16)
        } else {
            self.digit(group / 4096)
                .digit(group / 256 % 16)
                .digit(group / 16 % 16)
                .digit(group % 16)
        }
    }

    // The text with a hexadecimal digit behind it.
    fn digit(mut self, digit: u16) -> Ipv6Text
        requires digit { digit < 16 }
        requires room { length self < TEXT_ROOM }
        ensures text { result ≡ self ++ hex_digit digit ∷ [] }
        ensures len { length result ≡ length self + 1 }
    {
        let code = if digit < 10 {
            b'0' + digit as u8
        } else {
            b'a' - 10 + digit as u8
        };
        self.text.push(char::from(code));
        self
    }
}

/// The eight groups of an address, the most significant first.
fn groups_of_number(address: Addr) -> [u16; 8]
    ensures { result ≡ groups_of_number address }
{
    [
        ((address >> 112) % 65536) as u16,
        ((address >> 96) % 65536) as u16,
        ((address >> 80) % 65536) as u16,
        ((address >> 64) % 65536) as u16,
        ((address >> 48) % 65536) as u16,
        ((address >> 32) % 65536) as u16,
        ((address >> 16) % 65536) as u16,
        (address % 65536) as u16,
    ]
}

/// The longest run of zero groups, the first of equals. It is found from the end, where each group tells how long the
/// run is that begins with it.
fn longest_run(groups: &[u16]) -> ZeroRun
    ensures run { result ≡ longest_run 0 groups.now }
    ensures inside { result.before + result.len ≤ length groups.now }
{
    let mut zeros = 0;
    let mut longest = ZeroRun {
        before: groups.len(),
        len: 0,
    };
    for place in (0..groups.len()).rev() {
        zeros = zeros_from(groups[place], zeros);
        let here = ZeroRun {
            before: place,
            len: zeros,
        };
        longest = longer_run(here, longest);
    }
    longest
}

/// How many zero groups stand together from a group on, by how many do behind it.
fn zeros_from(group: u16, behind: usize) -> usize
    requires { behind < 2 ^ 63 }
    ensures { result ≡ (if group == 0 then behind + 1 else 0) }
{
    if group == 0 { behind + 1 } else { 0 }
}

/// Of a run and the longest later one, the longer, the first of equals.
fn longer_run(here: ZeroRun, later: ZeroRun) -> ZeroRun
    ensures { result ≡ longer_run here later }
{
    if here.len < later.len { later } else { here }
}
