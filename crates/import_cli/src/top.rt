//! The top call: a command line, a source and a sink.

ghost use Rattle.std.specs.Prelude.{◌≡◌, ◌≢◌, Bool, ℕ, List, IfOk, map, string_bytes};
ghost use Rattle.call_history.specs.Cause.{IsCounted};
ghost use Rattle.script_lines.specs.Given.{GivesPieces, counted};
ghost use Rattle.cisco_lists.specs.Lines.{cisco_after, cisco_closing, cisco_told};
ghost use Rattle.import_lines.specs.Import.{telling};
ghost use Rattle.import_lines.specs.Imported.{ImportsBy};
ghost use Rattle.import_lines.specs.Writes.{LastBy};
ghost use Rattle.import_cli.specs.CommandLine.{Imports, asked_by, import_job};
ghost use Rattle.import_cli.specs.Jobs.{CarriesOut, no_lines, older_fault};

use crate::asked::{Asked, Format, read_words};
use crate::chain_name::ChainName;
use crate::list_name::ListName;
use crate::texts::{IMPORT_HELP, USAGE};
use cisco_lists::CiscoList;
use fpm_frames::import_frames;
use fpm_routes::FpmRoutes;
use import_lines::{import, write_last};
use ip_monitor::IpMonitor;
use ip_routes::IpRoutes;
use iptables::{FaceName, Hook, Iptables};
use itoa::Buffer;
use json_routes::import_json;
use kept_numbers::older_lines;
use nft_rulesets::import_nft;
use option_words::WordsFault;
use rule_model::IpVersion;
use script_lines::{Sink, Source};
use script_runs::Status;
use std::alloc::{AllocError, Global};

/// Does what the words ask for, the program's name first, `import` behind it, and then a format and options: writes the
/// script that the source's lines are to the sink, line by line, or the product's own text. `older` is the script of an older
/// list, empty where the words name none; a line of it that no import writes is named, and nothing is read. The statuses are
/// those of `import_lines::import`; `Usage` comes where the words are no command line, or for want of memory `Memory`. `ReadFault`
/// comes exactly where the source failed, `WriteFault` exactly where the sink did.
pub fn run_import<S: Source, K: Sink>(
    alloc: Global,
    words: &[String],
    older: &[u8],
    source: &mut S,
    sink: &mut K,
) -> Status
    ensures job { (pieces : List (List ℕ)) × GivesPieces (S.given source.old) (S.given source.new) (S.left source.old) (S.left source.new) pieces
        × ((which : Bool) → CarriesOut (import_job (map (λ w. string_bytes w) words.now)) older.now pieces result (counted which (K.taken sink.old) (K.accepted sink.old)) (counted which (K.taken sink.new) (K.accepted sink.new))) }
    ensures read { IsCounted (result ≡ Status.ReadFault) (S.faults source.old) (S.faults source.new) }
    ensures written { IsCounted (result ≡ Status.WriteFault) (K.faults sink.old) (K.faults sink.new) }
{
    match read_words(alloc, words) {
        Ok(asked) => carry_out(alloc, asked, older, source, sink),
        Err(WordsFault::Usage) => write_last(sink, USAGE.as_bytes(), Status::Usage),
        Err(WordsFault::Memory) => Status::Memory,
    }
}

/// Does what is asked for.
fn carry_out<S: Source, K: Sink>(
    alloc: Global,
    asked: Asked,
    older: &[u8],
    source: &mut S,
    sink: &mut K,
) -> Status
    ensures job { (pieces : List (List ℕ)) × GivesPieces (S.given source.old) (S.given source.new) (S.left source.old) (S.left source.new) pieces
        × ((which : Bool) → CarriesOut (asked_by asked) older.now pieces result (counted which (K.taken sink.old) (K.accepted sink.old)) (counted which (K.taken sink.new) (K.accepted sink.new))) }
    ensures read { IsCounted (result ≡ Status.ReadFault) (S.faults source.old) (S.faults source.new) }
    ensures written { IsCounted (result ≡ Status.WriteFault) (K.faults sink.old) (K.faults sink.new) }
{
    match asked {
        Asked::Import {
            format,
            version,
            leave_out,
        } => carry_import(alloc, format, version, leave_out, older, source, sink),
        Asked::Help => write_last(sink, IMPORT_HELP.as_bytes(), Status::Done),
    }
}

/// Imports a format.
fn carry_import<S: Source, K: Sink>(
    alloc: Global,
    format: Format,
    version: IpVersion,
    leave_out: bool,
    older: &[u8],
    source: &mut S,
    sink: &mut K,
) -> Status
    ensures job { (pieces : List (List ℕ)) × GivesPieces (S.given source.old) (S.given source.new) (S.left source.old) (S.left source.new) pieces
        × ((which : Bool) → CarriesOut (Imports format version leave_out) older.now pieces result (counted which (K.taken sink.old) (K.accepted sink.old)) (counted which (K.taken sink.new) (K.accepted sink.new))) }
    ensures read { IsCounted (result ≡ Status.ReadFault) (S.faults source.old) (S.faults source.new) }
    ensures written { IsCounted (result ≡ Status.WriteFault) (K.faults sink.old) (K.faults sink.new) }
{
    match format {
        Format::IpRoutes => {
            let routes = IpRoutes::new(alloc, version);
            import(alloc, routes, leave_out, source, sink)
        }
        Format::IpMonitor => {
            let events = IpMonitor::new(alloc, version);
            import(alloc, events, leave_out, source, sink)
        }
        Format::IpJson => import_json(alloc, version, leave_out, source, sink),
        Format::Cisco(name) => import_named(alloc, &name, leave_out, source, sink),
        Format::Fpm => {
            let messages = FpmRoutes::new(alloc, version);
            import_frames(alloc, messages, leave_out, source, sink)
        }
        Format::Iptables(hook, face) => {
            import_save(alloc, hook, face, version, leave_out, older, source, sink)
        }
        Format::Nft(chain) => import_chain(alloc, &chain, version, leave_out, older, source, sink),
    }
}

/// Imports a chain of a save.
fn import_save<S: Source, K: Sink>(
    alloc: Global,
    hook: Hook,
    face: FaceName,
    version: IpVersion,
    leave_out: bool,
    older: &[u8],
    source: &mut S,
    sink: &mut K,
) -> Status
    ensures job { (pieces : List (List ℕ)) × GivesPieces (S.given source.old) (S.given source.new) (S.left source.old) (S.left source.new) pieces
        × ((which : Bool) → CarriesOut (Imports (Format.Iptables hook face) version leave_out) older.now pieces result (counted which (K.taken sink.old) (K.accepted sink.old)) (counted which (K.taken sink.new) (K.accepted sink.new))) }
    ensures read { IsCounted (result ≡ Status.ReadFault) (S.faults source.old) (S.faults source.new) }
    ensures written { IsCounted (result ≡ Status.WriteFault) (K.faults sink.old) (K.faults sink.new) }
{
    match older_lines(alloc, older) {
        Ok(Ok(lines)) => {
            let chains = Iptables::new(alloc, version, hook, face, lines);
            import(alloc, chains, leave_out, source, sink)
        }
        Ok(Err(number)) => refuse_older(alloc, number, sink),
        Err(_) => Status::Memory,
    }
}

/// Names the line of an older script that no import writes.
fn refuse_older<K: Sink>(alloc: Global, number: usize, sink: &mut K) -> Status
    ensures names { (which : Bool) → LastBy (older_fault number) Status.Script result (counted which (K.taken sink.old) (K.accepted sink.old)) (counted which (K.taken sink.new) (K.accepted sink.new)) }
    ensures kind { result ≢ Status.ReadFault }
    ensures written { IsCounted (result ≡ Status.WriteFault) (K.faults sink.old) (K.faults sink.new) }
{
    match older_fault(alloc, number) {
        Ok(text) => write_last(sink, text.as_slice(), Status::Script),
        Err(_) => Status::Memory,
    }
}

/// The line that names it.
fn older_fault(alloc: Global, number: usize) -> Result<Vec<u8>, AllocError>
    ensures { IfOk result (λ text. text.items ≡ older_fault number) }
{
    let mut text = Vec::new(alloc);
    let mut digits = Buffer::new();
    text.extend_from_slice(b"--since line ")?;
    text.extend_from_slice(digits.format(number as u64).as_bytes())?;
    text.extend_from_slice(b" no line of a list\n")?;
    Ok(text)
}

/// Imports a chain of a ruleset.
fn import_chain<S: Source, K: Sink>(
    alloc: Global,
    chain: &ChainName,
    version: IpVersion,
    leave_out: bool,
    older: &[u8],
    source: &mut S,
    sink: &mut K,
) -> Status
    ensures job { (pieces : List (List ℕ)) × GivesPieces (S.given source.old) (S.given source.new) (S.left source.old) (S.left source.new) pieces
        × ((which : Bool) → CarriesOut (Imports (Format.Nft chain.now) version leave_out) older.now pieces result (counted which (K.taken sink.old) (K.accepted sink.old)) (counted which (K.taken sink.new) (K.accepted sink.new))) }
    ensures read { IsCounted (result ≡ Status.ReadFault) (S.faults source.old) (S.faults source.new) }
    ensures written { IsCounted (result ≡ Status.WriteFault) (K.faults sink.old) (K.faults sink.new) }
{
    match older_lines(alloc, older) {
        Ok(Ok(lines)) => {
            let asked = nft_rulesets::Asked {
                version,
                family: chain.family.as_bytes(),
                table: chain.table.as_bytes(),
                chain: chain.name.as_bytes(),
                older: lines.as_slice(),
            };
            import_nft(alloc, &asked, leave_out, source, sink)
        }
        Ok(Err(number)) => refuse_older(alloc, number, sink),
        Err(_) => Status::Memory,
    }
}

/// Imports a list.
fn import_named<S: Source, K: Sink>(
    alloc: Global,
    name: &ListName,
    leave_out: bool,
    source: &mut S,
    sink: &mut K,
) -> Status
    ensures job { (pieces : List (List ℕ)) × GivesPieces (S.given source.old) (S.given source.new) (S.left source.old) (S.left source.new) pieces
        × ((which : Bool) → ImportsBy (telling cisco_told cisco_after cisco_closing) leave_out (no_lines name.now leave_out) pieces result (counted which (K.taken sink.old) (K.accepted sink.old)) (counted which (K.taken sink.new) (K.accepted sink.new))) }
    ensures read { IsCounted (result ≡ Status.ReadFault) (S.faults source.old) (S.faults source.new) }
    ensures written { IsCounted (result ≡ Status.WriteFault) (K.faults sink.old) (K.faults sink.new) }
{
    match list_named(alloc, name, leave_out) {
        Ok(list) => import(alloc, list, leave_out, source, sink),
        Err(_) => Status::Memory,
    }
}

/// The list of this name, or the only one where it is empty. A second one may be left out.
fn list_named(alloc: Global, name: &ListName, leave_out: bool) -> Result<CiscoList, AllocError>
    ensures { IfOk result (λ list. list ≡ no_lines name.now leave_out) }
{
    let bytes = name.as_bytes();
    if bytes.is_empty() {
        return Ok(CiscoList::new(None, !leave_out));
    }
    Ok(CiscoList::new(Some(Vec::from_slice(alloc, bytes)?), false))
}
