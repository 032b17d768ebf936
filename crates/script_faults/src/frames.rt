//! Sentences on frames.

use crate::parts::tell;
use line_words::WordFault;
use packet_keys::FrameFault;
use rule_model::IpVersion;
use std::alloc::AllocError;

/// What is wrong with the bytes of a frame, by the reader's fault.
pub(crate) fn tell_frame(
    text: &mut String,
    word: &str,
    fault: WordFault,
    version: IpVersion,
) -> Result<(), AllocError> {
    match fault {
        WordFault::Frame(FrameFault::Version) => tell_frame_version(text, version),
        WordFault::Frame(FrameFault::HeaderLength) => {
            text.push_str("the second digit: a header has five words at least")
        }
        WordFault::Frame(_) => tell_short(text, word, version),
        _ => tell_hex(text, word),
    }
}

/// That the first digit is no right version.
fn tell_frame_version(text: &mut String, version: IpVersion) -> Result<(), AllocError> {
    match version {
        IpVersion::V4 => text.push_str("the first digit: a packet of IPv4 begins with 4"),
        IpVersion::V6 => text.push_str("the first digit: a packet of IPv6 begins with 6"),
    }
}

/// That a frame ends before its header or its ports do.
fn tell_short(text: &mut String, word: &str, version: IpVersion) -> Result<(), AllocError> {
    let bytes = word.len() / 2;
    let header = match version {
        IpVersion::V4 => 20,
        IpVersion::V6 => 40,
    };
    write!(
        text,
        "{bytes} bytes: a header has {header} at least, and behind it tcp and udp have 4 of ports"
    )
}

/// What is wrong with a word that isn't pairs of hexadecimal digits.
fn tell_hex(text: &mut String, word: &str) -> Result<(), AllocError> {
    for (place, letter) in word.char_indices() {
        if !letter.is_ascii_hexdigit() {
            let digit = place.saturating_add(1);
            return write!(
                text,
                "{letter}: digit {digit} of the frame isn't hexadecimal"
            );
        }
    }
    if word.len() % 2 == 1 {
        let digits = word.len();
        return write!(text, "{digits} digits: a byte has two");
    }
    tell(text, word, "the bytes of a packet, in hexadecimal digits")
}
