//! The numbers of a line of a trace of IPv6: a rank has five and an address four, words of 32 bits with the highest first.

ghost use Rattle.std.specs.Prelude.{◌≡◌, ◌+◌, ◌≤◌, [], ◌∷◌, ◌++◌, decimal, length};
ghost use Rattle.json_text.specs.JsonText.{block_numbers, comma_text, entry_text, lane_numbers, parts_text, rank_numbers, rule_text};

use crate::JsonLine;
use crate::json_line::LINE_ROOM;
use rule_model::{Entry, IpVersion, Prefix, Rank, Rule, Word};

impl JsonLine {
    // The line with the four words of a number of 128 bits more.
    fn parts(self, number: u128) -> JsonLine
        requires { length self + 43 ≤ LINE_ROOM }
        ensures text { result ≡ self ++ comma_text (parts_text number) }
        ensures len { length result ≤ length self + 43 }
    {
        let first = (number >> 96) as u32;
        let second = ((number >> 64) % (1 << 32)) as u32;
        let third = ((number >> 32) % (1 << 32)) as u32;
        let fourth = (number % (1 << 32)) as u32;
        self.digits(first).more(second).more(third).more(fourth)
    }

    /// The line with a priority or a tag more: its high part, and the words of its low part.
    pub(crate) fn rank6(self, rank: Rank) -> JsonLine
        requires { length self + 47 ≤ LINE_ROOM }
        ensures text { result ≡ self ++ comma_text (rank_numbers IpVersion.V6 rank) }
        ensures len { length result ≤ length self + 47 }
    {
        self.digits(rank.high).text(",").parts(rank.low)
    }

    // The line with a block's address and length more.
    fn block6(self, prefix: &Prefix) -> JsonLine
        requires { length self + 54 ≤ LINE_ROOM }
        ensures text { result ≡ self ++ comma_text (block_numbers IpVersion.V6 prefix.now) }
        ensures len { length result ≤ length self + 54 }
    {
        self.parts(prefix.addr()).more(u32::from(prefix.len()))
    }

    /// The line with a rule's values more.
    pub(crate) fn rule6(self, rule: &Rule) -> JsonLine
        requires { length self + 240 ≤ LINE_ROOM }
        ensures text { result ≡ self ++ comma_text (rule_text IpVersion.V6 rule.now) }
        ensures len { length result ≤ length self + 240 }
    {
        self.rank6(rule.priority)
            .text(",")
            .block6(&rule.src)
            .text(",")
            .block6(&rule.dst)
            .text(",")
            .protocol(rule.proto)
            .text(",")
            .ports(&rule.sport)
            .text(",")
            .ports(&rule.dport)
            .more(rule.result)
    }

    // The line with the lanes of a word more.
    fn word6(self, word: &Word) -> JsonLine
        requires { length self + 120 ≤ LINE_ROOM }
        ensures text { result ≡ self ++ comma_text (lane_numbers IpVersion.V6 word.now) }
        ensures len { length result ≤ length self + 120 }
    {
        self.digits(word.lane[0])
            .more(word.lane[1])
            .more(word.lane[2])
            .more(word.lane[3])
            .more(word.lane[4])
            .more(word.lane[5])
            .more(word.lane[6])
            .more(word.lane[7])
            .more(word.lane[8])
            .more(word.lane[9])
            .more(word.lane[10])
    }

    /// The line with an entry's values more.
    pub(crate) fn entry6(self, entry: &Entry) -> JsonLine
        requires { length self + 300 ≤ LINE_ROOM }
        ensures text { result ≡ self ++ comma_text (entry_text IpVersion.V6 entry.now) }
        ensures len { length result ≤ length self + 300 }
    {
        self.word6(&entry.value)
            .text(",")
            .word6(&entry.mask)
            .text(",")
            .rank6(entry.tag)
            .more(entry.result)
    }
}
