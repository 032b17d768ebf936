//! The next frame of a source.

ghost use Rattle.std.specs.Prelude.{◌≡◌, ◌≤◌, ◌<◌, ℕ, List, Err, length};
ghost use Rattle.call_history.specs.Cause.{IsCounted};
ghost use Rattle.script_lines.specs.Given.{GivesPieces, HasEnd};
ghost use Rattle.fpm_frames.specs.Frames.{Fills, Gains, Reads, ReadsRest, frame_header, header_of, header_why};

use script_lines::Source;

/// What the first four bytes of a frame say.
#[derive(Clone, Copy, Debug, PartialEq, Eq)]
pub(crate) enum Header {
    /// It has so many bytes, these among them.
    Size(usize),
    /// It is of another version than 1.
    Version,
    /// It has other messages than netlink's.
    Kind,
    /// It is said to have fewer bytes than these.
    Short,
}

impl Header {
    /// Why bytes that begin so are no frame.
    pub(crate) fn why(&self) -> &'static str
        ensures { result.now ≡ header_why self.now }
    {
        match self {
            Header::Size(_) => "",
            Header::Version => "version of a frame",
            Header::Kind => "kind of a frame",
            Header::Short => "length of a frame",
        }
    }
}

/// What came behind the frames before.
#[derive(Clone, Copy, Debug, PartialEq, Eq)]
pub(crate) enum Came {
    /// A whole frame.
    Frame,
    /// Nothing: the input is at its end.
    End,
    /// A part of a frame: the input is at its end.
    Cut,
    /// Four bytes with which no frame begins.
    Unknown(Header),
}

/// Why a source wasn't read on.
#[derive(Clone, Copy, Debug, PartialEq, Eq)]
pub(crate) enum Unread {
    /// It failed.
    Fault,
    /// Want of memory.
    Memory,
}

/// How many bytes say how many a frame has.
const HEADER_BYTES: usize = 4;

/// The most bytes that a read asks for.
const PIECE_BYTES: usize = 4096;

/// What these say of a frame.
fn header_of(version: u8, kind: u8, size: usize) -> Header
    ensures { result ≡ header_of version kind size }
{
    if version != 1 {
        return Header::Version;
    }
    if kind != 1 {
        return Header::Kind;
    }
    if size < HEADER_BYTES {
        return Header::Short;
    }
    Header::Size(size)
}

/// What the first four bytes say of a frame.
fn frame_header(bytes: &[u8]) -> Header
    ensures { result ≡ frame_header bytes.now }
{
    if bytes.len() < HEADER_BYTES {
        return Header::Short;
    }
    header_of(
        bytes[0],
        bytes[1],
        usize::from(bytes[2]) * 256 + usize::from(bytes[3]),
    )
}

/// Reads the next frame into room, and nothing behind it.
pub(crate) fn read_frame<S: Source>(source: &mut S, frame: &mut Vec<u8>) -> Result<Came, Unread>
    ensures reads { (pieces : List (List ℕ)) × GivesPieces (S.given source.old) (S.given source.new) (S.left source.old) (S.left source.new) pieces
        × Reads pieces frame.new.items result }
    ensures cause { IsCounted (result ≡ Err Unread.Fault) (S.faults source.old) (S.faults source.new) }
{
    frame.clear();
    let whole = match fill(source, frame, HEADER_BYTES) {
        Ok(whole) => whole,
        Err(why) => return Err(why),
    };
    if whole {
        return read_rest(source, frame);
    }
    let held = frame.len();
    if held == 0 {
        return Ok(Came::End);
    }
    Ok(Came::Cut)
}

/// Reads the rest of a frame of which the first four bytes are in room.
fn read_rest<S: Source>(source: &mut S, frame: &mut Vec<u8>) -> Result<Came, Unread>
    requires { length frame.old.items ≡ 4 }
    ensures reads { (pieces : List (List ℕ)) × GivesPieces (S.given source.old) (S.given source.new) (S.left source.old) (S.left source.new) pieces
        × ReadsRest frame.old.items pieces frame.new.items result }
    ensures cause { IsCounted (result ≡ Err Unread.Fault) (S.faults source.old) (S.faults source.new) }
{
    let size = match frame_header(frame.as_slice()) {
        Header::Size(size) => size,
        Header::Version => return Ok(Came::Unknown(Header::Version)),
        Header::Kind => return Ok(Came::Unknown(Header::Kind)),
        Header::Short => return Ok(Came::Unknown(Header::Short)),
    };
    let whole = match fill(source, frame, size) {
        Ok(whole) => whole,
        Err(why) => return Err(why),
    };
    if whole {
        return Ok(Came::Frame);
    }
    Ok(Came::Cut)
}

/// Reads until room has so many bytes, and answers whether it has, or the input is at its end before that.
fn fill<S: Source>(source: &mut S, room: &mut Vec<u8>, goal: usize) -> Result<bool, Unread>
    requires { length room.old.items ≤ goal }
    ensures fills { (pieces : List (List ℕ)) × GivesPieces (S.given source.old) (S.given source.new) (S.left source.old) (S.left source.new) pieces
        × Fills room.old.items goal pieces room.new.items result }
    ensures cause { IsCounted (result ≡ Err Unread.Fault) (S.faults source.old) (S.faults source.new) }
{
    'reads: loop {
        let held = room.len();
        if held == goal {
            return Ok(true);
        }
        let read = match read_some(source, room, goal - held) {
            Ok(read) => read,
            Err(why) => return Err(why),
        };
        if read == 0 {
            return Ok(false);
        }
    }
}

/// Reads once, at most so many bytes, behind those in room, and answers how many came: none only at the end of the input.
fn read_some<S: Source>(source: &mut S, room: &mut Vec<u8>, wanted: usize) -> Result<usize, Unread>
    requires { 0 < wanted }
    ensures gains { (pieces : List (List ℕ)) × GivesPieces (S.given source.old) (S.given source.new) (S.left source.old) (S.left source.new) pieces
        × Gains room.old.items wanted pieces room.new.items result }
    ensures cause { IsCounted (result ≡ Err Unread.Fault) (S.faults source.old) (S.faults source.new) }
{
    let mut piece = [0; PIECE_BYTES];
    let into = &mut piece[..wanted.min(PIECE_BYTES)];
    match source.read(into) {
        Ok(read) => match room.extend_from_slice(&into[..read]) {
            Ok(()) => Ok(read),
            Err(_) => Err(Unread::Memory),
        },
        Err(_) => Err(Unread::Fault),
    }
}
