//! A line of a trace, made piece by piece. It stands in fixed room, so that none takes memory.

ghost use Rattle.std.specs.Prelude.{◌≡◌, ◌+◌, ◌≤◌, [], ◌∷◌, ◌++◌, decimal, length};
ghost use Rattle.json_text.specs.JsonText.{address_text, comma_text, entry_text, json_line, number_line, protocol_text, rank_text, rule_text, lane_numbers};
ghost use Rattle.trace_file.specs.declared.TraceLine.TheVariants as line_is;

use arrayvec::ArrayString;
use itoa::{Buffer, Integer};
use rule_model::{Entry, Field, IpVersion, Ports, Prefix, Rank, Rule, Word};
use std::marker::Model;
use trace_file::TraceLine;

/// More bytes than any line has.
pub(crate) const LINE_ROOM: usize = 384;

/// A line of a trace as text, with its line feed. Contracts see its bytes.
#[derive(Drop)]
pub struct JsonLine {
    text: ArrayString<LINE_ROOM>,
}

impl Model for JsonLine {
    ghost use Rattle.std.specs.Prelude.{ℕ, List};

    ghost Value = { List ℕ };

    ghost view = { λ l. l.text.bytes };
}

impl JsonLine {
    /// The text of a line of a trace of this version. That of a line at fault has this text of the fault, of at most 32
    /// bytes, and no other has any.
    pub fn new(line: &TraceLine, version: IpVersion, fault: &str) -> JsonLine
        requires { length fault.now ≤ 32 }
        ensures { result ≡ json_line version fault.now line.now }
    {
        match line {
            TraceLine::Head {
                version: family,
                acl,
                bits,
                slots,
            } => JsonLine::head(*family, *acl, *bits, *slots),
            TraceLine::Commit(number) => JsonLine::numbered("commit", u64::from(*number)),
            TraceLine::Add(rule) => JsonLine::added(version, rule),
            TraceLine::Set(priority, answer) => JsonLine::changed(version, *priority, *answer),
            TraceLine::Del(priority) => JsonLine::removed(version, *priority),
            TraceLine::Put(slot, entry) => JsonLine::put(version, *slot, entry),
            TraceLine::Erase(slot) => JsonLine::numbered("erase", u64::from(*slot)),
            TraceLine::Table(field, port, word) => JsonLine::table(*field, *port, *word),
            TraceLine::Drain => JsonLine::begin("{\"drain\":true}\n"),
            TraceLine::Done(number) => JsonLine::numbered("done", u64::from(*number)),
            TraceLine::Refused(number) => JsonLine::numbered("refused", u64::from(*number)),
            TraceLine::End(writes) => JsonLine::numbered("end", *writes),
            TraceLine::Fault(number) => JsonLine::begin("{\"fault\":\"")
                .text(fault)
                .text("\",\"line\":")
                .digits(*number)
                .text("}\n"),
        }
    }

    /// Its bytes, with the line feed.
    pub fn as_str(&self) -> &str
        ensures { result.now ≡ self.now }
    {
        self.text.as_str()
    }

    // The first line: the family of the rules, how port ranges are encoded, and the slots in use.
    fn head(version: IpVersion, acl: bool, bits: bool, slots: u32) -> JsonLine
        ensures { result ≡ json_line version [] (line_is.Head version acl bits slots) }
    {
        let family = match version {
            IpVersion::V4 => if acl { "acl" } else { "route" },
            IpVersion::V6 => if acl { "acl6" } else { "route6" },
        };
        let mode = if bits { "bits" } else { "cover" };
        JsonLine::begin("{\"family\":\"")
            .text(family)
            .text("\",\"mode\":\"")
            .text(mode)
            .text("\",\"slots\":")
            .digits(slots)
            .text("}\n")
    }

    // The line of a rule that is added.
    fn added(version: IpVersion, rule: &Rule) -> JsonLine
        ensures { result ≡ json_line version [] (line_is.Add rule.now) }
    {
        let line = JsonLine::begin("{\"add\":[");
        match version {
            IpVersion::V4 => line.rule(rule).text("]}\n"),
            IpVersion::V6 => line.rule6(rule).text("]}\n"),
        }
    }

    // The line of a change of a result.
    fn changed(version: IpVersion, priority: Rank, answer: u32) -> JsonLine
        ensures { result ≡ json_line version [] (line_is.Set priority answer) }
    {
        let line = JsonLine::begin("{\"set\":[");
        match version {
            IpVersion::V4 => line.rank(priority).more(answer).text("]}\n"),
            IpVersion::V6 => line.rank6(priority).more(answer).text("]}\n"),
        }
    }

    // The line of a rule that is removed.
    fn removed(version: IpVersion, priority: Rank) -> JsonLine
        ensures { result ≡ json_line version [] (line_is.Del priority) }
    {
        match version {
            IpVersion::V4 => JsonLine::begin("{\"del\":").rank(priority).text("}\n"),
            IpVersion::V6 => JsonLine::begin("{\"del\":[").rank6(priority).text("]}\n"),
        }
    }

    // The line of an entry that is put into a slot.
    fn put(version: IpVersion, slot: u32, entry: &Entry) -> JsonLine
        ensures { result ≡ json_line version [] (line_is.Put slot entry.now) }
    {
        let line = JsonLine::begin("{\"put\":[");
        let line = match version {
            IpVersion::V4 => line.entry(entry),
            IpVersion::V6 => line.entry6(entry),
        };
        line.text("],\"slot\":").digits(slot).text("}\n")
    }

    // A line of one member, which is a number.
    fn numbered(name: &str, number: u64) -> JsonLine
        requires { length name.now ≤ 32 }
        ensures { result ≡ number_line name.now number }
    {
        JsonLine::begin("{\"")
            .text(name)
            .text("\":")
            .digits(number)
            .text("}\n")
    }

    // The line of a word that is put into a table.
    fn table(field: Field, port: u16, word: u16) -> JsonLine
        ensures { result ≡ json_line IpVersion.V4 [] (line_is.Table field port word) }
    {
        let name = match field {
            Field::Src => "src",
            Field::Dst => "dst",
        };
        JsonLine::begin("{\"port\":")
            .digits(port)
            .text(",\"table\":\"")
            .text(name)
            .text("\",\"word\":")
            .digits(word)
            .text("}\n")
    }

    // A line that begins with a text.
    fn begin(text: &str) -> JsonLine
        requires { length text.now ≤ LINE_ROOM }
        ensures text { result ≡ text.now }
        ensures len { length result ≡ length text.now }
    {
        let mut line = ArrayString::new();
        line.push_str(text);
        JsonLine { text: line }
    }

    /// The line with a text more.
    pub(crate) fn text(mut self, text: &str) -> JsonLine
        requires { length self + length text.now ≤ LINE_ROOM }
        ensures text { result ≡ self ++ text.now }
        ensures len { length result ≡ length self + length text.now }
    {
        self.text.push_str(text);
        self
    }

    /// The line with a number more.
    pub(crate) fn digits<I: Integer>(self, number: I) -> JsonLine
        requires { length self + I.MAX_STR_LEN ≤ LINE_ROOM }
        ensures text { result ≡ self ++ I.text number }
        ensures len { length result ≤ length self + I.MAX_STR_LEN }
    {
        let mut digits = Buffer::new();
        self.text(digits.format(number))
    }

    /// The line with a number more, behind a comma.
    pub(crate) fn more(self, number: u32) -> JsonLine
        requires { length self + 11 ≤ LINE_ROOM }
        ensures text { result ≡ self ++ 44 ∷ decimal number }
        ensures len { length result ≤ length self + 11 }
    {
        self.text(",").digits(number)
    }

    // The line with a priority or a tag more, as one number. The number may have a bit more than its low part, so its
    // last digit is reckoned apart.
    fn rank(self, rank: Rank) -> JsonLine
        requires { length self + 78 ≤ LINE_ROOM }
        ensures text { result ≡ self ++ rank_text rank }
        ensures len { length result ≤ length self + 78 }
    {
        let high = u128::from(rank.high) << 32;
        let ones = high % 10 + rank.low % 10;
        let tens = high / 10 + rank.low / 10 + ones / 10;
        if tens == 0 {
            self.digits(ones % 10)
        } else {
            self.digits(tens).digits(ones % 10)
        }
    }

    // The line with an IPv4 block's address and length more.
    fn block(self, prefix: &Prefix) -> JsonLine
        requires { length self + 51 ≤ LINE_ROOM }
        ensures text { result ≡ self ++ comma_text (address_text prefix.now.addr ∷ decimal prefix.now.len ∷ []) }
        ensures len { length result ≤ length self + 51 }
    {
        self.digits(prefix.addr() >> 96)
            .more(u32::from(prefix.len()))
    }

    /// The line with a protocol more, or null for any.
    pub(crate) fn protocol(self, protocol: Option<u8>) -> JsonLine
        requires { length self + 4 ≤ LINE_ROOM }
        ensures text { result ≡ self ++ protocol_text protocol }
        ensures len { length result ≤ length self + 4 }
    {
        match protocol {
            None => self.text("null"),
            Some(number) => self.digits(number),
        }
    }

    /// The line with the ends of a range more.
    pub(crate) fn ports(self, ports: &Ports) -> JsonLine
        requires { length self + 17 ≤ LINE_ROOM }
        ensures text { result ≡ self ++ comma_text (decimal ports.now.lo ∷ decimal ports.now.hi ∷ []) }
        ensures len { length result ≤ length self + 17 }
    {
        self.digits(ports.lo()).more(u32::from(ports.hi()))
    }

    // The line with the values of an IPv4 rule more.
    fn rule(self, rule: &Rule) -> JsonLine
        requires { length self + 240 ≤ LINE_ROOM }
        ensures text { result ≡ self ++ comma_text (rule_text IpVersion.V4 rule.now) }
        ensures len { length result ≤ length self + 240 }
    {
        self.rank(rule.priority)
            .text(",")
            .block(&rule.src)
            .text(",")
            .block(&rule.dst)
            .text(",")
            .protocol(rule.proto)
            .text(",")
            .ports(&rule.sport)
            .text(",")
            .ports(&rule.dport)
            .more(rule.result)
    }

    // The line with the five lanes of IPv4 more.
    fn word(self, word: &Word) -> JsonLine
        requires { length self + 54 ≤ LINE_ROOM }
        ensures text { result ≡ self ++ comma_text (lane_numbers IpVersion.V4 word.now) }
        ensures len { length result ≤ length self + 54 }
    {
        self.digits(word.lane[0])
            .more(word.lane[4])
            .more(word.lane[8])
            .more(word.lane[9])
            .more(word.lane[10])
    }

    // The line with the values of an IPv4 entry more.
    fn entry(self, entry: &Entry) -> JsonLine
        requires { length self + 200 ≤ LINE_ROOM }
        ensures text { result ≡ self ++ comma_text (entry_text IpVersion.V4 entry.now) }
        ensures len { length result ≤ length self + 200 }
    {
        self.word(&entry.value)
            .text(",")
            .word(&entry.mask)
            .text(",")
            .rank(entry.tag)
            .more(entry.result)
    }
}
