//! A line of a report, made word by word. It stands in fixed room, so that none takes memory.

ghost use Rattle.std.specs.Prelude.{◌≡◌, ◌+◌, ◌<◌, ◌≤◌, ◌%◌, [], ◌∷◌, ◌++◌, decimal, length};
ghost use Rattle.line_words.specs.Shown.{hex_digit, ipv6_prefix_text};
ghost use Rattle.report_lines.specs.Text.{action_text, dotted, answer_words, ipv4_prefix_text, result_name, rule_name, sequence_text, reason_words, field_text, lane_text, family_version, word_text, number_text, tag_text, write_words};
ghost use Rattle.report_lines.specs.Told.{with_words, verdict_told};
ghost use Rattle.report_lines.specs.Outside.{WritesLine};
ghost use Rattle.rule_model.specs.declared.IpVersion.TheVariants as version_is;

use crate::Family;
use arrayvec::ArrayString;
use itoa::{Buffer, Integer};
use line_words::Ipv6Text;
use readback::Rejection;
use rule_model::{Entry, Field, IpVersion, Rank, Word};
use rule_store::BatchFault;
use script_lines::{Failed, Sink, write_all};
use std::marker::Model;
use tcam_device::Write;

/// More bytes than any line has.
pub const LINE_ROOM: usize = 400;

/// A line without its line feed. Contracts see its bytes.
#[derive(Drop)]
pub struct ReportLine {
    text: ArrayString<LINE_ROOM>,
}

impl Model for ReportLine {
    ghost use Rattle.std.specs.Prelude.{ℕ, List};

    ghost Value = { List ℕ };

    ghost view = { λ l. l.text.bytes };
}

impl ReportLine {
    /// A line that begins with a word.
    pub fn new(word: &str) -> ReportLine
        requires { length word.now ≤ LINE_ROOM }
        ensures { result ≡ word.now }
    {
        let mut text = ArrayString::new();
        text.push_str(word);
        ReportLine { text }
    }

    // The line with a text more.
    pub(crate) fn text(mut self, text: &str) -> ReportLine
        requires { length self + length text.now ≤ LINE_ROOM }
        ensures text { result ≡ self ++ text.now }
        ensures len { length result ≡ length self + length text.now }
    {
        self.text.push_str(text);
        self
    }

    // The line with a number more.
    pub(crate) fn digits<I: Integer>(self, number: I) -> ReportLine
        requires { length self + I.MAX_STR_LEN ≤ LINE_ROOM }
        ensures text { result ≡ self ++ I.text number }
        ensures len { length result ≤ length self + I.MAX_STR_LEN }
    {
        let mut digits = Buffer::new();
        self.text(digits.format(number))
    }

    /// The line with a word more, behind a space.
    pub fn word(self, word: &str) -> ReportLine
        requires { length self + length word.now < LINE_ROOM }
        ensures text { result ≡ self ++ 32 ∷ word.now }
        ensures len { length result ≡ length self + length word.now + 1 }
    {
        self.text(" ").text(word)
    }

    /// The line with a number more, in decimal, behind a space.
    pub fn number(self, number: u64) -> ReportLine
        requires { length self + 20 < LINE_ROOM }
        ensures text { result ≡ self ++ 32 ∷ decimal number }
        ensures len { length result ≤ length self + 21 }
    {
        self.text(" ").digits(number)
    }

    /// The line with a number more that may have more than 64 bits, in decimal, behind a space.
    pub fn long_number(self, number: u128) -> ReportLine
        requires { length self + 39 < LINE_ROOM }
        ensures text { result ≡ self ++ 32 ∷ decimal number }
        ensures len { length result ≤ length self + 40 }
    {
        self.text(" ").digits(number)
    }

    // The line with an address in dotted decimal. Only the first part is above 255 where the address is no IPv4 one.
    fn dotted(self, address: u128) -> ReportLine
        requires { length self + 159 ≤ LINE_ROOM }
        ensures text { result ≡ self ++ dotted address }
        ensures len { length result ≤ length self + 159 }
    {
        self.digits(address >> 24)
            .text(".")
            .digits((address >> 16) % 256)
            .text(".")
            .digits((address >> 8) % 256)
            .text(".")
            .digits(address % 256)
    }

    // The line with the prefix of an IPv4 route, behind a space: its length and address are the parts of its priority.
    pub(crate) fn ipv4_prefix(self, priority: Rank) -> ReportLine
        requires { length self + 163 < LINE_ROOM }
        ensures text { result ≡ self ++ 32 ∷ ipv4_prefix_text priority }
        ensures len { length result ≤ length self + 164 }
    {
        self.text(" ")
            .dotted(priority.low)
            .text("/")
            .digits(priority.high)
    }

    // The line with the prefix of an IPv6 route, behind a space.
    pub(crate) fn ipv6_prefix(self, priority: Rank) -> ReportLine
        requires { length self + 43 < LINE_ROOM }
        ensures text { result ≡ self ++ 32 ∷ ipv6_prefix_text priority }
        ensures len { length result ≤ length self + 44 }
    {
        let address = Ipv6Text::new(priority.low);
        self.text(" ")
            .text(address.as_str())
            .text("/")
            .digits(priority.high)
    }

    // The line with the sequence number of a rule of an access list, behind a space.
    pub(crate) fn sequence(self, priority: Rank) -> ReportLine
        requires { length self + 20 < LINE_ROOM }
        ensures text { result ≡ self ++ 32 ∷ sequence_text priority }
        ensures len { length result ≤ length self + 21 }
    {
        self.number(sequence_number(priority))
    }

    // The line with the name of a rule, behind a space.
    pub(crate) fn name(self, family: Family, priority: Rank) -> ReportLine
        requires { length self + 163 < LINE_ROOM }
        ensures text { result ≡ self ++ 32 ∷ rule_name family priority }
        ensures len { length result ≤ length self + 164 }
    {
        match family {
            Family::Route => self.ipv4_prefix(priority),
            Family::Route6 => self.ipv6_prefix(priority),
            Family::Acl | Family::Acl6 => self.sequence(priority),
        }
    }

    // The line with a result, behind a space: the number of a route, or the action of an access list.
    pub(crate) fn result(self, family: Family, answer: u32) -> ReportLine
        requires { length self + 20 < LINE_ROOM }
        ensures text { result ≡ self ++ 32 ∷ result_name family answer }
        ensures len { length result ≤ length self + 21 }
    {
        match family {
            Family::Route | Family::Route6 => self.number(u64::from(answer)),
            Family::Acl | Family::Acl6 => self.action(answer),
        }
    }

    // The line with the action of an access list, behind a space.
    pub(crate) fn action(self, answer: u32) -> ReportLine
        requires { length self + 11 < LINE_ROOM }
        ensures text { result ≡ self ++ 32 ∷ action_text answer }
        ensures len { length result ≤ length self + 12 }
    {
        match answer {
            0 => self.word("deny"),
            1 => self.word("permit"),
            number => self.text(" =").digits(number),
        }
    }

    /// The line with an answer's name and result, or `none`, behind a space.
    pub fn answer(self, family: Family, found: Option<(Rank, u32)>) -> ReportLine
        requires { length self + 185 < LINE_ROOM }
        ensures text { result ≡ with_words self (answer_words family found) }
        ensures len { length result ≤ length self + 185 }
    {
        match found {
            None => self.word("none"),
            Some((priority, answer)) => self.name(family, priority).result(family, answer),
        }
    }

    // The line with the name of a port field, behind a space.
    pub(crate) fn field(self, field: Field) -> ReportLine
        requires { length self + 3 < LINE_ROOM }
        ensures text { result ≡ self ++ 32 ∷ field_text field }
        ensures len { length result ≡ length self + 4 }
    {
        match field {
            Field::Src => self.word("src"),
            Field::Dst => self.word("dst"),
        }
    }

    // The line with the last hexadecimal digit of a number.
    fn hex_digit(mut self, number: u32) -> ReportLine
        requires { length self < LINE_ROOM }
        ensures text { result ≡ self ++ hex_digit (number % 16) ∷ [] }
        ensures len { length result ≡ length self + 1 }
    {
        let digit = (number % 16) as u8;
        let code = if digit < 10 {
            b'0' + digit
        } else {
            b'a' - 10 + digit
        };
        self.text.push(char::from(code));
        self
    }

    // The line with a lane more, in eight hexadecimal digits.
    fn lane(self, lane: u32) -> ReportLine
        requires { length self + 8 ≤ LINE_ROOM }
        ensures text { result ≡ self ++ lane_text lane }
        ensures len { length result ≡ length self + 8 }
    {
        self.hex_digit(lane >> 28)
            .hex_digit(lane >> 24)
            .hex_digit(lane >> 20)
            .hex_digit(lane >> 16)
            .hex_digit(lane >> 12)
            .hex_digit(lane >> 8)
            .hex_digit(lane >> 4)
            .hex_digit(lane)
    }

    /// The line with the lanes of a word that a version has, behind a space.
    pub fn lanes(self, version: IpVersion, word: &Word) -> ReportLine
        requires { length self + 89 ≤ LINE_ROOM }
        ensures text { result ≡ self ++ 32 ∷ word_text version word.now }
        ensures len { length result ≤ length self + 89 }
    {
        match version {
            IpVersion::V4 => self.ipv4_lanes(word),
            IpVersion::V6 => self.ipv6_lanes(word),
        }
    }

    // The line with the five lanes of IPv4, behind a space.
    fn ipv4_lanes(self, word: &Word) -> ReportLine
        requires { length self + 41 ≤ LINE_ROOM }
        ensures text { result ≡ self ++ 32 ∷ word_text version_is.V4 word.now }
        ensures len { length result ≡ length self + 41 }
    {
        self.text(" ")
            .lane(word.lane[0])
            .lane(word.lane[4])
            .lane(word.lane[8])
            .lane(word.lane[9])
            .lane(word.lane[10])
    }

    // The line with all eleven lanes, behind a space.
    fn ipv6_lanes(self, word: &Word) -> ReportLine
        requires { length self + 89 ≤ LINE_ROOM }
        ensures text { result ≡ self ++ 32 ∷ word_text version_is.V6 word.now }
        ensures len { length result ≡ length self + 89 }
    {
        self.text(" ")
            .lane(word.lane[0])
            .lane(word.lane[1])
            .lane(word.lane[2])
            .lane(word.lane[3])
            .lane(word.lane[4])
            .lane(word.lane[5])
            .lane(word.lane[6])
            .lane(word.lane[7])
            .lane(word.lane[8])
            .lane(word.lane[9])
            .lane(word.lane[10])
    }

    // The line with a tag as one number, behind a space. The number may have a bit more than its low part, so its last
    // digit is reckoned apart.
    fn tag_number(self, tag: Rank) -> ReportLine
        requires { length self + 81 ≤ LINE_ROOM }
        ensures text { result ≡ self ++ 32 ∷ number_text tag }
        ensures len { length result ≤ length self + 81 }
    {
        let high = u128::from(tag.high) << 32;
        let ones = high % 10 + tag.low % 10;
        let tens = high / 10 + tag.low / 10 + ones / 10;
        let line = self.text(" ");
        if tens == 0 {
            line.digits(ones % 10)
        } else {
            line.digits(tens).digits(ones % 10)
        }
    }

    /// The line with a tag, behind a space: of IPv4 as one number, of IPv6 as the rule's name.
    pub fn tag(self, family: Family, tag: Rank) -> ReportLine
        requires { length self + 81 ≤ LINE_ROOM }
        ensures text { result ≡ self ++ 32 ∷ tag_text family tag }
        ensures len { length result ≤ length self + 81 }
    {
        match family {
            Family::Route | Family::Acl => self.tag_number(tag),
            Family::Route6 => self.ipv6_prefix(tag),
            Family::Acl6 => self.sequence(tag),
        }
    }

    // The line with an entry's value, mask, tag and result, each behind a space.
    fn entry(self, family: Family, entry: &Entry) -> ReportLine
        requires { length self + 280 < LINE_ROOM }
        ensures text { result ≡ with_words self (word_text (family_version family) entry.now.value ∷ word_text (family_version family) entry.now.mask ∷ tag_text family entry.now.tag ∷ decimal entry.now.result ∷ []) }
        ensures len { length result < LINE_ROOM }
    {
        self.lanes(family.version(), &entry.value)
            .lanes(family.version(), &entry.mask)
            .tag(family, entry.tag)
            .number(u64::from(entry.result))
    }

    /// The line with a device write, behind a space.
    pub fn device_write(self, family: Family, write: &Write) -> ReportLine
        requires { length self < 30 }
        ensures text { result ≡ with_words self (write_words family write.now) }
        ensures len { length result < LINE_ROOM }
    {
        match *write {
            Write::Slot(slot, Some(entry)) => self
                .word("slot")
                .number(u64::from(slot))
                .word("set")
                .entry(family, &entry),
            Write::Slot(slot, None) => self.word("slot").number(u64::from(slot)).word("erase"),
            Write::Table(field, port, word) => self
                .word("table")
                .field(field)
                .number(u64::from(port))
                .number(u64::from(word)),
        }
    }

    /// The line with the reason of a rejection, behind a space.
    pub fn reason(self, family: Family, rejection: &Rejection) -> ReportLine
        requires room { length self + 171 < LINE_ROOM }
        ensures text { result ≡ with_words self (reason_words family (verdict_told rejection.now)) }
        ensures len { length result < LINE_ROOM }
    {
        match *rejection {
            Rejection::Unsound(fault) => match fault {
                BatchFault::Twice(priority) => self.word("twice").name(family, priority),
                BatchFault::Taken(priority) => self.word("taken").name(family, priority),
                BatchFault::Absent(priority) => self.word("absent").name(family, priority),
            },
            Rejection::Bits { field, need, free } => self
                .word("bits")
                .field(field)
                .number(u64::from(need))
                .number(u64::from(free)),
            Rejection::Slots { need, free } => self
                .word("slots")
                .number(u64::from(need))
                .number(u64::from(free)),
        }
    }

    /// Hands the line with its line feed to the sink, as one piece.
    pub fn write<K: Sink>(self, sink: &mut K) -> Result<(), Failed>
        requires { length self < LINE_ROOM }
        ensures { WritesLine K.taken K.accepted K.faults sink.old sink.new (self ++ 10 ∷ []) result }
    {
        let line = self.text("\n");
        write_all(sink, line.text.as_str().as_bytes())
    }
}

// The sequence number of a rule of an access list, by its priority.
fn sequence_number(priority: Rank) -> u64
    ensures { decimal result ≡ sequence_text priority }
{
    4_294_967_296u128.saturating_sub(priority.low) as u64
}
