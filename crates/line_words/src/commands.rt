//! The commands that both kinds of script have.

ghost use Rattle.std.specs.Prelude.{◌≡◌};
ghost use Rattle.line_words.specs.Notations.{notation_for};
ghost use Rattle.line_words.specs.Commands.{commit_of, common_command, frame_of, limit_of};

use crate::WordFault;
use crate::kinds::{count_of, frame_key, key_of};
use crate::words::Words;
use rule_model::{IpVersion, Key};

/// A command that both kinds of script have. A frame is read as a packet with its key.
#[derive(Clone, Copy, Debug, PartialEq, Eq)]
pub enum CommonCommand {
    /// Has the answer of a packet asked for after each later write.
    Probe(Key),
    /// Asks for the answer of a packet.
    Packet(Key),
    /// Carries out the pending batch.
    Commit,
    /// Carries out the pending batch, and takes it back where that takes more than so many writes.
    Trial(u32),
    /// Carries out the pending batch, and has another manager go on where that takes more than so many writes.
    Crash(u32),
}

/// The command of a line that begins with this word, from the words behind it, in the notation of a version of IP.
///
/// UnknownCommand where the word begins no common command, then WordCount where there are more or fewer
/// words than the command has, and else the fault of the leftmost bad one.
pub fn common_command(
    first: &[u8],
    rest: Words<'_>,
    version: IpVersion,
) -> Result<CommonCommand, WordFault>
    ensures { result ≡ common_command (notation_for version) first.now rest.entry }
{
    match first {
        b"probe" => key_of(rest, version).map(CommonCommand::Probe),
        b"packet" => key_of(rest, version).map(CommonCommand::Packet),
        b"frame" => frame_of(rest, version).map(CommonCommand::Packet),
        b"commit" => commit_of(rest),
        b"trial" => limit_of(rest).map(CommonCommand::Trial),
        b"crash" => limit_of(rest).map(CommonCommand::Crash),
        _ => Err(WordFault::UnknownCommand),
    }
}

/// A commit, where no word is left.
fn commit_of(words: Words<'_>) -> Result<CommonCommand, WordFault>
    ensures { result ≡ commit_of words.entry }
{
    words.end()?;
    Ok(CommonCommand::Commit)
}

/// The number of writes behind which a trial turns round or a manager crashes, the one word.
fn limit_of(mut words: Words<'_>) -> Result<u32, WordFault>
    ensures { result ≡ limit_of words.entry }
{
    let limit = words.required()?;
    words.end()?;
    count_of(limit)
}

/// The key of the frame that is the one word.
fn frame_of(mut words: Words<'_>, version: IpVersion) -> Result<Key, WordFault>
    ensures { result ≡ frame_of (notation_for version) words.entry }
{
    let digits = words.required()?;
    words.end()?;
    frame_key(digits, version)
}
