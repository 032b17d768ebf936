//! The top call: the words of `tcam explain`, a source and a sink.

ghost use Rattle.std.specs.Prelude.{◌≡◌, ◌≢◌, ℕ, List, IfOk, drop, map, slice_get, string_bytes};
ghost use Rattle.call_history.specs.Cause.{IsCounted};
ghost use Rattle.script_lines.specs.Given.{GivesPieces, MayGive};
ghost use Rattle.tcam_cli.specs.Asked.{asked_by};
ghost use Rattle.tcam_cli.specs.CommandLine.{job_of};
ghost use Rattle.explain_cli.specs.Promise.{EndsWith, IsAnswerOf, IsOfTable, IsReadAs, explained_words, reader_named, reader_of};

use crate::own_texts::EXPLAIN_HELP;
use crate::search::tell_words;
use explain::{Wanted, explain_script};
use explain_router::{RouterWanted, explain_router_script};
use option_words::WordsFault;
use report_lines::write_text;
use router_cli::{RouterAsked, read_router_words};
use script_lines::{Failed, Sink, Source};
use script_runs::Status;
use std::alloc::{AllocError, Global};
use tcam_cli::{Asked, read_words};

/// Who reads a command line, by the word behind the program's name.
#[derive(Clone, Copy, Debug, PartialEq, Eq)]
enum Reader {
    /// The help of `explain` is asked for.
    Help,
    /// The command line of a router's scripts.
    Router,
    /// That of pictures of traces.
    Draw,
    /// That of imports.
    Import,
    /// That of judgements.
    Judge,
    /// That of a command over one table.
    Table,
}

/// What the words of a command line are.
#[derive(Clone, Copy, Debug, PartialEq, Eq)]
enum Words {
    /// The help of `explain` is asked for.
    Help,
    /// Those of a script, which is to be explained so.
    Script(Wanted),
    /// Those of a router's script, which is to be explained so.
    Router(RouterWanted),
    /// A command line of another kind.
    Other,
    /// No command line.
    Wrong,
}

/// Explains a command line: the program's name comes first, then `explain`, and then its words. The sink is handed a line
/// for each wrong word; where none is wrong the script that the source gives is explained, if the words are those of a
/// script of one table.
///
/// Of words of one table `Done` comes exactly where nothing is found wrong, `Script` exactly where something is (`right`); of
/// others it is tested. `ReadFault` and `WriteFault` come exactly where the source or the sink failed, and `Memory` for want
/// of memory alone.
pub fn explain<S: Source, K: Sink>(
    alloc: Global,
    words: &[String],
    source: &mut S,
    sink: &mut K,
) -> Status
    ensures right { IsOfTable (explained_words (map (λ w. string_bytes w) words.now))
        → (pieces : List (List ℕ)) × GivesPieces (S.given source.old) (S.given source.new) (S.left source.old) (S.left source.new) pieces
        × ((text after : List ℕ) → MayGive text pieces after → IsAnswerOf (job_of (explained_words (map (λ w. string_bytes w) words.now))) text after result) }
    ensures read { IsCounted (result ≡ Status.ReadFault) (S.faults source.old) (S.faults source.new) }
    ensures write { IsCounted (result ≡ Status.WriteFault) (K.faults sink.old) (K.faults sink.new) }
{
    let own = own_words(words);
    match kind_of(alloc, own) {
        Ok(Words::Script(wanted)) => explain_script(alloc, wanted, source, sink),
        Ok(Words::Router(wanted)) => explain_router_script(alloc, wanted, source, sink),
        Ok(Words::Help) => tell(sink, EXPLAIN_HELP, Status::Done),
        Ok(Words::Other) => tell(sink, "nothing is wrong\n", Status::Done),
        Ok(Words::Wrong) => tell_wrong(alloc, own, sink),
        Err(AllocError) => Status::Memory,
    }
}

/// The words of the explained command line, where `explain` stands for the program's name.
fn own_words(words: &[String]) -> &[String]
    ensures { map (λ w. string_bytes w) result.now ≡ drop 1 (map (λ w. string_bytes w) words.now) }
{
    if words.is_empty() {
        return words;
    }
    &words[1..]
}

/// What words are, the program's name first, by the reader of the command that they name.
fn kind_of(alloc: Global, words: &[String]) -> Result<Words, AllocError>
    ensures { IsOfTable (map (λ w. string_bytes w) words.now) → IfOk result (IsReadAs (job_of (map (λ w. string_bytes w) words.now))) }
{
    match reader_of(words) {
        Reader::Help => Ok(Words::Help),
        Reader::Router => kind_of_router(alloc, words),
        Reader::Draw => kind_of_draw(alloc, words),
        Reader::Import => kind_of_import(alloc, words),
        Reader::Judge => kind_of_judge(alloc, words),
        Reader::Table => kind_of_table(alloc, words),
    }
}

/// Who reads words, the program's name first.
fn reader_of(words: &[String]) -> Reader
    ensures { result ≡ reader_of (slice_get (map (λ w. string_bytes w) words.now) 1) }
{
    match words.get(1) {
        Some(word) => reader_named(word.as_str()),
        None => Reader::Table,
    }
}

/// Who reads words that begin with this one.
fn reader_named(word: &str) -> Reader
    ensures { result ≡ reader_named word.now }
{
    match word {
        "--help" | "-h" => Reader::Help,
        "router" | "router6" => Reader::Router,
        "draw" => Reader::Draw,
        "import" => Reader::Import,
        "judge" => Reader::Judge,
        _ => Reader::Table,
    }
}

/// What words of a router's command line are.
fn kind_of_router(alloc: Global, words: &[String]) -> Result<Words, AllocError> {
    match read_router_words(alloc, words) {
        Ok(RouterAsked::Script { version, large, .. }) => {
            Ok(Words::Router(RouterWanted { version, large }))
        }
        Ok(RouterAsked::Help) => Ok(Words::Other),
        Err(WordsFault::Usage) => Ok(Words::Wrong),
        Err(WordsFault::Memory) => Err(AllocError),
    }
}

/// What words of the command line of pictures are.
fn kind_of_draw(alloc: Global, words: &[String]) -> Result<Words, AllocError> {
    match trace_draw::read_words(alloc, words) {
        Ok(_) => Ok(Words::Other),
        Err(trace_draw::WordsFault::Usage) => Ok(Words::Wrong),
        Err(trace_draw::WordsFault::Memory) => Err(AllocError),
    }
}

/// What words of the command line of imports are.
fn kind_of_import(alloc: Global, words: &[String]) -> Result<Words, AllocError> {
    match import_cli::read_words(alloc, words) {
        Ok(_) => Ok(Words::Other),
        Err(import_cli::WordsFault::Usage) => Ok(Words::Wrong),
        Err(import_cli::WordsFault::Memory) => Err(AllocError),
    }
}

/// What words of the command line of judgements are.
fn kind_of_judge(alloc: Global, words: &[String]) -> Result<Words, AllocError> {
    match judge_cli::read_words(alloc, words) {
        Ok(_) => Ok(Words::Other),
        Err(judge_cli::WordsFault::Usage) => Ok(Words::Wrong),
        Err(judge_cli::WordsFault::Memory) => Err(AllocError),
    }
}

/// What words of a command over one table are.
fn kind_of_table(alloc: Global, words: &[String]) -> Result<Words, AllocError>
    ensures { IfOk result (IsReadAs (job_of (map (λ w. string_bytes w) words.now))) }
{
    match read_words(alloc, words) {
        Ok(asked) => Ok(kind_asked(asked)),
        Err(WordsFault::Usage) => Ok(Words::Wrong),
        Err(WordsFault::Memory) => Err(AllocError),
    }
}

/// What words are that ask for this.
fn kind_asked(asked: Asked) -> Words
    ensures { IsReadAs (asked_by asked) result }
{
    match asked {
        Asked::Script {
            family,
            slots,
            mode,
            json,
            parts,
            large,
            ..
        } => Words::Script(Wanted {
            family,
            slots,
            mode,
            json,
            parts,
            large,
        }),
        Asked::Made { .. } => Words::Other,
        Asked::Verify => Words::Other,
        Asked::Help(_) => Words::Other,
        Asked::Version => Words::Other,
    }
}

/// Tells which words are wrong.
fn tell_wrong<K: Sink>(alloc: Global, words: &[String], sink: &mut K) -> Status
    ensures kind { EndsWith Status.Script result }
    ensures write { IsCounted (result ≡ Status.WriteFault) (K.faults sink.old) (K.faults sink.new) }
{
    match sentences(alloc, words) {
        Ok(text) => tell(sink, &text, Status::Script),
        Err(AllocError) => Status::Memory,
    }
}

/// A line for each wrong word, or one for all of them.
fn sentences(alloc: Global, words: &[String]) -> Result<String, AllocError> {
    let mut text = String::new(alloc);
    tell_words(&mut text, words)?;
    if text.is_empty() {
        text.push_str("these words are no command line: tcam --help lists what there is\n")?;
    }
    Ok(text)
}

/// Writes a text, and answers the status that follows.
fn tell<K: Sink>(sink: &mut K, text: &str, last: Status) -> Status
    requires { last ≢ Status.WriteFault }
    ensures kind { EndsWith last result }
    ensures write { IsCounted (result ≡ Status.WriteFault) (K.faults sink.old) (K.faults sink.new) }
{
    match write_text(sink, text) {
        Ok(()) => last,
        Err(Failed) => Status::WriteFault,
    }
}
