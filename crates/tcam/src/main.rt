//! The program `tcam`: `tcam_cli`'s `run` over standard input, standard output and a blank device in memory; where the first
//! word behind its name is `router` or `router6`, `router_cli`'s `run_router` over two, where it is `draw`, `trace_draw`'s
//! `draw`, where it is `explain`, `explain_cli`'s `explain`, where it is `import`, `import_cli`'s `run_import`, and where
//! it is `judge`, `judge_cli`'s `run_judge`.
//!
//! An import may name a file by `--since`, the one file that the program opens, and gets what stands in it.
//!
//! What these six promise is proved; of these few lines nothing is said. What std's reader and writer do with the files is
//! trusted.
//!
//! # Decided
//! - **The devices keep no journal**: each is a shadow in memory, `Shadowed` or `SplitShadowed`, over hardware that takes
//!   each write and holds nothing. What the program takes for a write is what its plan keeps of it. Tests have `MemTcam`
//!   and `MemSplit`, whose writes they read.
#![tactic(auto)]

ghost use Rattle.std.specs.Prelude.{◌≤◌};

mod modelled;

use explain_cli::explain;
use import_cli::{Asked, read_words, run_import};
use judge_cli::run_judge;
use memory_tcam::Shadowed;
use modelled::Modelled;
use router_cli::{router_slots_wanted, run_router};
use script_lines::{ReadFrom, Sink, Source, WriteTo};
use slot_order::{MOST_SLOTS, SCRIPT_SLOTS};
use split_hardware::SplitShadowed;
use std::alloc::AllocError;
use std::env::{self, Env};
use std::process::ExitCode;
use std::{fs, io};
use tcam_cli::{Status, run, slots_wanted};
use trace_draw::draw;

/// The words of the process's command line, or none where they can't be had for another cause than memory.
fn process_words<R: Env + AllocGlobal>(rt: &R) -> Result<Vec<String>, AllocError> {
    let mut words = Vec::new(rt.alloc());
    match env::args(rt) {
        Ok(args) => {
            for word in args {
                words.push(word)?;
            }
            Ok(words)
        }
        Err(error) => match error.kind() {
            io::ErrorKind::OutOfMemory => Err(AllocError),
            _ => Ok(words),
        },
    }
}

/// The subcommand that the words begin with, the program's name first.
fn subcommand(words: &[String]) -> &str {
    match words.get(1) {
        Some(word) => word.as_str(),
        None => "",
    }
}

/// Runs the process's words over standard input and standard output.
fn run_process(rt: &HostRuntime) -> Result<Status, AllocError> {
    let words = process_words(rt)?;
    let mut source = ReadFrom::new(rt.stdin());
    let mut sink = WriteTo::new(rt.stdout());
    match subcommand(words.as_slice()) {
        "draw" => Ok(draw(rt.alloc(), words.as_slice(), &mut source, &mut sink)),
        "explain" => Ok(explain(rt.alloc(), words.as_slice(), &mut source, &mut sink)),
        "import" => run_on_file(rt, words.as_slice(), &mut source, &mut sink),
        "judge" => Ok(run_judge(rt.alloc(), words.as_slice(), &mut source, &mut sink)),
        "router" | "router6" => run_on_two(rt, words.as_slice(), &mut source, &mut sink),
        _ => run_on_device(rt, words.as_slice(), &mut source, &mut sink),
    }
}

/// The file that words name by `--since`, if they do.
fn since_file(words: &[String]) -> Option<&str> {
    for place in 0..words.len() {
        let word = words[place].as_str();
        if word == "--since" {
            return words.get(place + 1).map(|next| next.as_str());
        }
        if let Some(file) = word.strip_prefix("--since=") {
            return Some(file);
        }
    }
    None
}

/// Runs the words of an import over a source and a sink, and what stands in the file that they name, if they are such words.
fn run_on_file<S: Source, K: Sink>(
    rt: &HostRuntime,
    words: &[String],
    source: &mut S,
    sink: &mut K,
) -> Result<Status, AllocError> {
    let mut older = Vec::new(rt.alloc());
    if let (Ok(Asked::Import { .. }), Some(file)) = (
        read_words(rt.alloc(), words),
        since_file(words),
    ) {
        match fs::read(rt, file) {
            Ok(bytes) => older = bytes,
            Err(error) => match error.kind() {
                io::ErrorKind::OutOfMemory => return Err(AllocError),
                _ => return Ok(Status::ReadFault),
            },
        }
    }
    Ok(run_import(rt.alloc(), words, older.as_slice(), source, sink))
}

/// How many slots a modelled device has where so many are wanted: as many, and 4,096 at least.
fn device_slots(wanted: u32) -> u32
    requires { wanted ≤ MOST_SLOTS }
    ensures some { 1 ≤ result }
    ensures wanted { wanted ≤ result }
    ensures most { result ≤ MOST_SLOTS }
{
    if wanted < SCRIPT_SLOTS {
        SCRIPT_SLOTS
    } else {
        wanted
    }
}

/// Runs words over a source, a sink and a blank device in memory, of as many slots as they ask for, and 4,096 at least. Its
/// journal is for proofs alone, and takes no memory.
fn run_on_device<S: Source, K: Sink>(
    rt: &HostRuntime,
    words: &[String],
    source: &mut S,
    sink: &mut K,
) -> Result<Status, AllocError> {
    let slots = device_slots(slots_wanted(rt.alloc(), words)?);
    let mut device = Shadowed::new(rt.alloc(), Modelled::new(slots))?;
    Ok(run(rt.alloc(), words, source, sink, &mut device))
}

/// Runs a router's words over a source, a sink and two blank devices in memory, likewise.
fn run_on_two<S: Source, K: Sink>(
    rt: &HostRuntime,
    words: &[String],
    source: &mut S,
    sink: &mut K,
) -> Result<Status, AllocError> {
    let slots = device_slots(router_slots_wanted(rt.alloc(), words)?);
    let mut list = SplitShadowed::new(rt.alloc(), Modelled::new(slots))?;
    let mut routes = SplitShadowed::new(rt.alloc(), Modelled::new(slots))?;
    Ok(run_router(rt.alloc(), words, source, sink, &mut list, &mut routes))
}

fn main(rt: HostRuntime) -> ExitCode {
    match run_process(&rt) {
        Ok(status) => ExitCode::from(status.code()),
        Err(AllocError) => ExitCode::from(Status::Memory.code()),
    }
}
