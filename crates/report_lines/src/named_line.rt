//! The words of a write as people read it: what it does, the rule's name, and what its entry tests.

ghost use Rattle.std.specs.Prelude.{◌≡◌, ◌+◌, ◌*◌, ◌<◌, ◌≤◌, ◌^◌, ◌∷◌, ◌++◌, count_ones, decimal, length};
ghost use Rattle.line_words.specs.Shown.{ipv6_text};
ghost use Rattle.report_lines.specs.Text.{dotted};
ghost use Rattle.report_lines.specs.Named as named;
ghost use Rattle.report_lines.specs.Named.{condition_words, deed_words, entry_words, erased_words, listed_words, ports_text, prefix_text, proto_text, rule_words, side_text};
ghost use Rattle.report_lines.specs.Told.{with_words};

use crate::{Deed, Family, LINE_ROOM, ReportLine};
use line_words::Ipv6Text;
use rule_model::{Entry, IpVersion, Rank, Word};

impl ReportLine {
    // The line with an IPv4 address more that is one lane, in dotted decimal.
    fn short_dotted(self, address: u32) -> ReportLine
        requires { length self + 43 ≤ LINE_ROOM }
        ensures text { result ≡ self ++ dotted address }
        ensures len { length result ≤ length self + 43 }
    {
        self.digits(address >> 24)
            .text(".")
            .digits((address >> 16) % 256)
            .text(".")
            .digits((address >> 8) % 256)
            .text(".")
            .digits(address % 256)
    }

    // The line with the IPv4 addresses that a mask leaves, behind a space.
    fn ipv4_side(self, address: u32, mask: u32) -> ReportLine
        requires { length self + 55 ≤ LINE_ROOM }
        ensures text { result ≡ self ++ 32 ∷ prefix_text (dotted address) (count_ones mask) }
        ensures len { length result ≤ length self + 55 }
    {
        let ones = mask.count_ones();
        if ones == 0 {
            return self.word("any");
        }
        self.text(" ").short_dotted(address).text("/").digits(ones)
    }

    // The line with the IPv6 addresses that a mask leaves, behind a space.
    fn ipv6_side(self, address: u128, mask: u128) -> ReportLine
        requires { length self + 55 ≤ LINE_ROOM }
        ensures text { result ≡ self ++ 32 ∷ prefix_text (ipv6_text address) (count_ones mask) }
        ensures len { length result ≤ length self + 55 }
    {
        let ones = mask.count_ones();
        if ones == 0 {
            return self.word("any");
        }
        let address = Ipv6Text::new(address);
        self.text(" ").text(address.as_str()).text("/").digits(ones)
    }

    // The line with the addresses that an entry tests of the side that begins in this lane, behind a space.
    fn side(self, version: IpVersion, entry: &Entry, at: usize) -> ReportLine
        requires place { at ≤ 4 }
        requires room { length self + 55 ≤ LINE_ROOM }
        ensures text { result ≡ self ++ 32 ∷ side_text version entry.now at }
        ensures len { length result ≤ length self + 55 }
    {
        match version {
            IpVersion::V4 => self.ipv4_side(entry.value.lane[at], entry.mask.lane[at]),
            IpVersion::V6 => {
                self.ipv6_side(
                    long_address(&entry.value, at),
                    long_address(&entry.mask, at),
                )
            }
        }
    }

    // The line with the protocols that an entry tests, by their value and mask, behind a space.
    fn protocol(self, value: u32, mask: u32) -> ReportLine
        requires { length self + 11 ≤ LINE_ROOM }
        ensures text { result ≡ self ++ 32 ∷ proto_text value mask }
        ensures len { length result ≤ length self + 11 }
    {
        if mask == 0 {
            return self.word("any");
        }
        match value {
            1 => self.word("icmp"),
            6 => self.word("tcp"),
            17 => self.word("udp"),
            number => self.text(" ").digits(number),
        }
    }

    // The line with the ports that an entry tests, by their value and mask or by bits of their table, behind a space.
    fn ports(self, value: u32, mask: u32, bits: u32) -> ReportLine
        requires value { value < 65536 }
        requires mask { mask < 65536 }
        requires room { length self + 22 ≤ LINE_ROOM }
        ensures text { result ≡ self ++ 32 ∷ ports_text value mask bits }
        ensures len { length result ≤ length self + 22 }
    {
        if bits != 0 {
            return self.word("bits=").digits(bits);
        }
        match mask {
            0 => self.word("any"),
            65535 => self.text(" ").digits(value),
            block => self.port_block(value, value + (65535 - block)),
        }
    }

    // The line with the ports of a block, behind a space.
    fn port_block(self, first: u32, last: u32) -> ReportLine
        requires { length self + 22 ≤ LINE_ROOM }
        ensures text { result ≡ self ++ 32 ∷ (decimal first ++ 45 ∷ decimal last) }
        ensures len { length result ≤ length self + 22 }
    {
        self.text(" ").digits(first).text("-").digits(last)
    }

    // The line with what an entry of an access list tests, in the words of its script, each behind a space.
    fn conditions(self, version: IpVersion, entry: &Entry) -> ReportLine
        requires { length self + 165 ≤ LINE_ROOM }
        ensures text { result ≡ with_words self (condition_words version entry.now) }
        ensures len { length result ≤ length self + 165 }
    {
        let (value, mask) = (&entry.value.lane, &entry.mask.lane);
        self.side(version, entry, 0)
            .side(version, entry, 4)
            .protocol(value[9] >> 24, mask[9] >> 24)
            .ports(value[8] >> 16, mask[8] >> 16, mask[10] >> 16)
            .ports(value[8] % 65536, mask[8] % 65536, mask[10] % 65536)
    }

    // The line with the name of an entry's rule and its result, each behind a space.
    fn rule(self, family: Family, entry: &Entry) -> ReportLine
        requires { length self + 184 < LINE_ROOM }
        ensures text { result ≡ with_words self (rule_words family entry.now) }
        ensures len { length result ≤ length self + 185 }
    {
        self.name(family, entry.tag).result(family, entry.result)
    }

    // The line with the name of an entry's rule, its result and what it tests beside the name, each behind a space.
    fn new_entry(self, family: Family, entry: &Entry) -> ReportLine
        requires { length self + 198 < LINE_ROOM }
        ensures text { result ≡ with_words self (entry_words family entry.now) }
        ensures len { length result ≤ length self + 198 }
    {
        match family {
            Family::Route | Family::Route6 => self.rule(family, entry),
            Family::Acl => self.line_of_list(IpVersion::V4, entry),
            Family::Acl6 => self.line_of_list(IpVersion::V6, entry),
        }
    }

    // The line with the number of an entry's rule, its action and what it tests, each behind a space.
    fn line_of_list(self, version: IpVersion, entry: &Entry) -> ReportLine
        requires { length self + 198 < LINE_ROOM }
        ensures text { result ≡ with_words self (listed_words version entry.now) }
        ensures len { length result ≤ length self + 198 }
    {
        self.sequence(entry.tag)
            .action(entry.result)
            .conditions(version, entry)
    }

    // The line with the name of the rule whose entry an erase takes, behind a space.
    fn erased(self, family: Family, tag: Option<Rank>) -> ReportLine
        requires { length self + 164 < LINE_ROOM }
        ensures text { result ≡ with_words self (erased_words family tag) }
        ensures len { length result ≤ length self + 164 }
    {
        match tag {
            None => self,
            Some(priority) => self.name(family, priority),
        }
    }

    /// The line with what a write does, behind a space.
    pub fn deed(self, family: Family, deed: &Deed) -> ReportLine
        requires { length self < 30 }
        ensures text { result ≡ with_words self (deed_words family deed.now) }
        ensures len { length result < LINE_ROOM }
    {
        match *deed {
            Deed::New { slot, entry } => self
                .word("slot")
                .number(u64::from(slot))
                .word("new")
                .new_entry(family, &entry),
            Deed::Copied { slot, from, entry } => self
                .word("slot")
                .number(u64::from(slot))
                .word("copy")
                .word("from")
                .number(u64::from(from))
                .rule(family, &entry),
            Deed::Rewritten { slot, entry } => self
                .word("slot")
                .number(u64::from(slot))
                .word("result")
                .rule(family, &entry),
            Deed::Erased { slot, tag } => self
                .word("slot")
                .number(u64::from(slot))
                .word("erase")
                .erased(family, tag),
            Deed::Word { field, port, word } => self
                .word("table")
                .field(field)
                .number(u64::from(port))
                .number(u64::from(word)),
        }
    }
}

// The address that begins in a lane of a word of IPv6, of four lanes.
fn long_address(word: &Word, at: usize) -> u128
    requires { at ≤ 4 }
    ensures { result ≡ named.long_address word.now.lane at }
{
    let upper = paired(word.lane[at], word.lane[at + 1]);
    let lower = paired(word.lane[at + 2], word.lane[at + 3]);
    upper * 18_446_744_073_709_551_616 + lower
}

// Two lanes as one number.
fn paired(upper: u32, lower: u32) -> u128
    ensures value { result ≡ upper * 2 ^ 32 + lower }
    ensures fits { result < 2 ^ 64 }
{
    u128::from(upper) * 4_294_967_296 + u128::from(lower)
}
