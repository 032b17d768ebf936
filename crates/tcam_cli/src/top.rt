//! The top call: a command line, a source, a sink and a device.

ghost use Rattle.std.specs.Prelude.{Bool, false, ◌≡◌, ◌≢◌, ◌⊎◌, ◌<◌, ◌≤◌, ◌++◌, ℕ, List, Option, [], Ok, Err, Some, None, IsSome, IfNone, IfSome, IfOk, IfErr, length, map, string_bytes};
ghost use Rattle.std.specs.Io.KnownBytes.{Consumes};
ghost use Rattle.call_history.specs.Cause.{IsCounted};
ghost use Rattle.script_lines.specs.Lines.{numbered};
ghost use Rattle.script_lines.specs.Given.{GivesPieces, counted};
ghost use Rattle.script_lines.specs.declared.Over.TheVariants.{Going};
ghost use Rattle.tcam_cli.specs.Given.{IsPromisedByGiven, ReadsInTime};
ghost use Rattle.line_words.specs.Texts.{word_fault_text};
ghost use Rattle.rule_model.specs.Rule.{route_rule};
ghost use Rattle.json_text.specs.JsonText.{IsPlainText};
ghost use Rattle.replay.specs.Run.{start, ending};
ghost use Rattle.replay.specs.Carried.{IsAt};
ghost use Rattle.replay.specs.Outside.{Leaves};
ghost use Rattle.replay.specs.Running.{progress_of, setting_of, routes_of, IsActOf, IsToldIn};
ghost use Rattle.script_runs.specs.Script.{Whole};
ghost use Rattle.report_lines.specs.Text.{family_version};
ghost use Rattle.replay.specs.Reports.{fault_told};
ghost use Rattle.tcam_cli.specs.AllTheWay.{IsHitlessJob};
ghost use Rattle.tcam_cli.specs.CommandLine.{job_of};
ghost use Rattle.tcam_cli.specs.Headline.{IsCarriedOut, HasCauses, Makes, Reads, run_kind, status_of, wanted_slots};
ghost use Rattle.tcam_cli.specs.MadeScript.{made_act};
ghost use Rattle.tcam_cli.specs.Readings.{acl_act, acl_reading, common_act, reading, reading_by, route_act, route_reading, told_by};
ghost use Rattle.script_runs.specs.Rounds.{RoundsBy, outputs};
ghost use Rattle.route_reader.specs.Routes as routes;
ghost use Rattle.tcam_cli.specs.Rounds.{ClosesReport, IsBetweenLines};
ghost use Rattle.tcam_device.specs.View.{journal};

use crate::Status;
use crate::command_line::{Asked, read_words};
use crate::in_two::{apply_by, status_of_fault};
use crate::own_texts::{VERSION, help_of};
use crate::traces::run_verify;
use acl_reader::{AclCommand, read_acl};
use line_words::{CommonCommand, WordFault};
use option_words::WordsFault;
use replay::Family::Acl;
use replay::{Act, ActFault, Family, Run, write_text};
use report_lines::sizes_by;
use route_reader::{RouteCommand, read_route, route_of, route_rank};
use rule_gen::{Made, Maker};
use rule_model::{IpVersion, Prefix, list_rank};
use rule_store::Command;
use script_lines::{Failed, Line, LineFault, Lines, Sink, Source};
use settled_changes::Request;
use std::alloc::Global;
use tcam_device::ReadBack;

/// Runs what the words of a command line ask for, the program's name first, over a blank device of at least as
/// many slots as they ask for (`slots_wanted`) with no word in flight: a script of routes or of an access list from the
/// source, commands of an access list that are made from a seed, of which the same holds as of a script and which leave the
/// source as it is, the check of a trace from the source, or one of the product's own texts.
///
/// After every single device write each packet key has the answer of the set before the commit or of the one after it,
/// and after the last write of a commit that finishes that of the one after it; a refused commit writes nothing. A commit
/// whose removals go first is made in two parts: the same is promised of the writes of both, one after the other, and
/// where sink, device or memory fails the first may be made alone. A trial with more writes than it may make makes so
/// many of them and then undoes each, the last one first: it ends with the set, the live ranges and the device as they
/// were before it. A trial with no more is a commit.
/// A crash with more writes than it may make makes so many of them. Then its manager is dropped, and another one goes
/// on with the commit by what the device shows: the same is promised of the writes of both, one after the other. A
/// crash with no more is a commit.
///
/// A probe's line stands a depth of writes behind the write that it is for, or before a drain or the commit's line
/// where that comes first, and has what the device answers the probe's key at that moment. The device is drained once
/// in a commit that gives new bits, behind the words of its tables, unless it is a trial that is turned round by then,
/// and once more behind a crash that comes before an entry stands that the commit inserts; not otherwise.
///
/// The answer is `Done` or `Refused` where the script was read to its end, `Refused` where some commit was refused;
/// `Script` where a line is at fault, which the last line of the report names. `ReadFault` and `WriteFault` come exactly
/// where the count of failures of source or sink rose. A device write that fails is tried again at once, four times in
/// all; `DeviceFault` comes where the fourth failed too. After any of the three nothing more is read, written or printed.
/// `Memory` comes for want of memory alone, before a commit's first write, or that of its rest, or at its crash. `Usage`
/// comes where the words are no command line, and there nothing else comes but a failing sink and want of memory. The
/// lines of an act are handed to the sink before the next act is carried out. No input is taken in vain: of the lines
/// that were whole before the last read none is at fault or wants memory, journal and accepted report begin with their
/// effects, and no read before it was the end of the input.
///
/// Of a trace one line is printed: the answer is `Done` where it is orderly, and then each write of it is hitless and the
/// input was read to its end; `Refused` where a line of it is the first that breaks the order; `Script` where one is the
/// first that is none of a trace or may not stand there, where the last one is missing, or where a byte is at fault. The
/// device is neither written nor drained, and nothing is read where the bytes before leave only one answer.
pub fn run<S: Source, K: Sink, D: ReadBack>(
    alloc: Global,
    words: &[String],
    source: &mut S,
    sink: &mut K,
    device: &mut D,
) -> Status
    requires slots { wanted_slots (job_of (map (λ w. string_bytes w) words.now)) ≤ (D.view device.old).slots }
    requires blank { (D.view device.old).events ≡ [] }
    requires none_in_flight { (D.view device.old).flight ≡ [] }
    ensures carried_out { IsCarriedOut (job_of (map (λ w. string_bytes w) words.now)) (D.view device.old).slots result
        (S.left source.old) (S.left source.new) (K.taken sink.old) (K.taken sink.new) (D.view device.new).events }
    ensures hitless { IsHitlessJob (job_of (map (λ w. string_bytes w) words.now)) (D.view device.old).slots result
        (S.left source.old) (S.left source.new) (journal (D.view device.new)) }
    ensures given { (which : Bool) → IsPromisedByGiven (job_of (map (λ w. string_bytes w) words.now)) (D.view device.old).slots result
        (S.given source.old) (S.given source.new) (counted which (K.taken sink.old) (K.accepted sink.old)) (counted which (K.taken sink.new) (K.accepted sink.new)) (D.view device.new).events }
    ensures in_time { ReadsInTime (job_of (map (λ w. string_bytes w) words.now)) (D.view device.old).slots result
        (S.given source.old) (S.given source.new) (D.view device.new).events (K.accepted sink.old) (K.accepted sink.new) }
    ensures told { (IsSome (S.left source.old) → IsSome (S.left source.new)) × (IsSome (K.taken sink.old) → IsSome (K.taken sink.new)) }
    ensures slot_count { (D.view device.new).slots ≡ (D.view device.old).slots }
    ensures causes { HasCauses (job_of (map (λ w. string_bytes w) words.now)) (S.left source.old) result
        (S.faults source.old) (S.faults source.new) (K.faults sink.old) (K.faults sink.new) (D.view device.old) (D.view device.new) }
{
    match read_words(alloc, words) {
        Ok(
            Asked::Script {
                family,
                slots,
                mode,
                placement,
                trace,
                depth,
                json,
                names,
                parts,
                large,
            },
        ) => match Run::new(
            alloc, slots, mode, placement, family, trace, depth, json, names,
        ) {
            Ok(run) => {
                let mut run = run.with_removals_first(parts).with_large(large);
                run_script(&mut run, source, sink, device)
            }
            Err(_) => Status::Memory,
        },
        Ok(
            Asked::Made {
                slots,
                mode,
                placement,
                seed,
                rules,
                batches,
            },
        ) => match Run::new(alloc, slots, mode, placement, Acl, false, 0, false, false) {
            Ok(mut run) => run_made(&mut run, seed, rules, batches, sink, device),
            Err(_) => Status::Memory,
        },
        Ok(Asked::Verify) => run_verify(alloc, source, sink),
        Ok(Asked::Help(topic)) => tell(sink, help_of(topic), Status::Done),
        Ok(Asked::Version) => tell(sink, VERSION, Status::Done),
        Err(WordsFault::Usage) => tell(sink, "usage\n", Status::Usage),
        Err(WordsFault::Memory) => Status::Memory,
    }
}

/// Carries out a script to its end or its first fault.
fn run_script<S: Source, K: Sink, D: ReadBack>(
    run: &mut Run,
    source: &mut S,
    sink: &mut K,
    device: &mut D,
) -> Status
    requires slots { run.old.manager.slots ≤ (D.view device.old).slots }
    requires idle { run.old.manager.held ≡ None }
    requires whole { run.old.broken ≡ false }
    requires begun { progress_of (D.view device.old).slots run.old ≡ start (D.view device.old).slots }
    requires blank { (D.view device.old).events ≡ [] }
    requires none_in_flight { (D.view device.old).flight ≡ [] }
    ensures carried_out { IsCarriedOut (Reads (setting_of run.old)) (D.view device.old).slots result
        (S.left source.old) (S.left source.new) (K.taken sink.old) (K.taken sink.new) (D.view device.new).events }
    ensures given { (which : Bool) → IsPromisedByGiven (Reads (setting_of run.old)) (D.view device.old).slots result
        (S.given source.old) (S.given source.new) (counted which (K.taken sink.old) (K.accepted sink.old)) (counted which (K.taken sink.new) (K.accepted sink.new)) (D.view device.new).events }
    ensures in_time { ReadsInTime (Reads (setting_of run.old)) (D.view device.old).slots result
        (S.given source.old) (S.given source.new) (D.view device.new).events (K.accepted sink.old) (K.accepted sink.new) }
    ensures told { (IsSome (S.left source.old) → IsSome (S.left source.new)) × (IsSome (K.taken sink.old) → IsSome (K.taken sink.new)) }
    ensures slot_count { (D.view device.new).slots ≡ (D.view device.old).slots }
    ensures causes { HasCauses (Reads (setting_of run.old)) (S.left source.old) result
        (S.faults source.old) (S.faults source.new) (K.faults sink.old) (K.faults sink.new) (D.view device.old) (D.view device.new) }
{
    let mut lines = Lines::of_at_most(sizes_by(run.is_large()).bytes);
    'acts: loop {
        match round(&mut lines, run, source, sink, device) {
            Some(status) => return status,
            None => {}
        }
    }
}

/// Carries out the next line. None: the run goes on. A line of a commit takes two bytes at least and makes two commits at
/// most, so that no script has more commits than a run counts.
fn round<S: Source, K: Sink, D: ReadBack>(
    lines: &mut Lines,
    run: &mut Run,
    source: &mut S,
    sink: &mut K,
    device: &mut D,
) -> Option<Status>
    requires slots { run.old.manager.slots ≤ (D.view device.old).slots }
    requires none_in_flight { (D.view device.old).flight ≡ [] }
    requires stands { IsBetweenLines lines.old run.old }
    requires at { IsAt (D.view device.old).slots (D.view device.old).events (progress_of (D.view device.old).slots run.old) }
    ensures goes { IfNone result ((lines.old.before < lines.new.before) × IsBetweenLines lines.new run.new) }
    ensures at { IfNone result (IsAt (D.view device.new).slots (D.view device.new).events (progress_of (D.view device.new).slots run.new)) }
    ensures setting { setting_of run.new ≡ setting_of run.old }
    ensures gives { (pieces : List (List ℕ)) × GivesPieces (S.given source.old) (S.given source.new) (S.left source.old) (S.left source.new) pieces
        × ((which : Bool) → RoundsBy (run_kind (setting_of run.old) (D.view device.old).slots) lines.old (progress_of (D.view device.old).slots run.old) pieces result
        lines.new (progress_of (D.view device.old).slots run.new) (outputs (D.view device.old).events (counted which (K.taken sink.old) (K.accepted sink.old))) (outputs (D.view device.new).events (counted which (K.taken sink.new) (K.accepted sink.new)))) }
    ensures rests { lines.old.over ≢ Going → (S.left source.new ≡ S.left source.old) × (lines.new ≡ lines.old) }
    ensures no_usage { result ≢ Some Status.Usage }
    ensures none_in_flight { IfNone result ((D.view device.new).flight ≡ []) }
    ensures read { IsCounted (result ≡ Some Status.ReadFault) (S.faults source.old) (S.faults source.new) }
    ensures leaves { Leaves K.taken K.faults sink.old sink.new (D.view device.old) (D.view device.new) (result ≡ Some Status.WriteFault) (result ≡ Some Status.DeviceFault) }
{
    let line = match lines.next(source) {
        Err(LineFault::Read) => return Some(Status::ReadFault),
        Err(LineFault::ScriptTooLong { line }) => return Some(fault(
            run,
            line,
            "script too long",
            sink,
        )),
        Err(LineFault::TooLong { line }) => return Some(fault(run, line, "line too long", sink)),
        Err(LineFault::BadByte { line }) => return Some(fault(run, line, "bad byte", sink)),
        Ok(None) => return Some(finish(run, sink)),
        Ok(Some(line)) => line,
    };
    let act = match read_act(run, &line) {
        Err(text) => return Some(fault(run, line.number, text, sink)),
        Ok(None) => return None,
        Ok(Some(act)) => act,
    };
    match apply_by(run, &act, sink, device) {
        Ok(()) => None,
        Err(ActFault::BatchFull) => Some(fault(run, line.number, "batch full", sink)),
        Err(ActFault::ChangesPending) => Some(fault(run, line.number, "changes pending", sink)),
        Err(ActFault::ProbesFull) => Some(fault(run, line.number, "too many probes", sink)),
        // The run ends at the device's failure, so no commit is unfinished.
        Err(ActFault::Held { .. }) => unreachable!(),
        Err(ActFault::Stopped(why)) => Some(status_of_fault(&why)),
    }
}

/// Carries out the commands of a seed, of an access list, to their end. There is room for each of them, and there are
/// fewer commits than a run counts.
fn run_made<K: Sink, D: ReadBack>(
    run: &mut Run,
    seed: u32,
    rules: u32,
    batches: u32,
    sink: &mut K,
    device: &mut D,
) -> Status
    requires seed { seed ≤ 2147483647 }
    requires some_rules { 1 ≤ rules }
    requires most_rules { rules ≤ 256 }
    requires some_batches { 1 ≤ batches }
    requires most_batches { batches ≤ 64 }
    requires family { run.old.family ≡ Family.Acl }
    requires words { run.old.json ≡ false }
    requires in_one { run.old.parts ≡ false }
    requires usual { run.old.large ≡ false }
    requires slots { run.old.manager.slots ≤ (D.view device.old).slots }
    requires idle { run.old.manager.held ≡ None }
    requires whole { run.old.broken ≡ false }
    requires begun { progress_of (D.view device.old).slots run.old ≡ start (D.view device.old).slots }
    requires blank { (D.view device.old).events ≡ [] }
    requires none_in_flight { (D.view device.old).flight ≡ [] }
    ensures carried_out { (which : Bool) → (left : Option (List ℕ)) → IsCarriedOut (Makes (setting_of run.old) seed rules batches) (D.view device.old).slots result
        left left (counted which (K.taken sink.old) (K.accepted sink.old)) (counted which (K.taken sink.new) (K.accepted sink.new)) (D.view device.new).events }
    ensures leaves { Leaves K.taken K.faults sink.old sink.new (D.view device.old) (D.view device.new) (result ≡ Status.WriteFault) (result ≡ Status.DeviceFault) }
{
    let mut maker = Maker::new(seed, rules, batches);
    'acts: loop {
        let Some(made) = maker.next() else {
            return finish(run, sink);
        };
        match run.apply(&act_of_made(&made), sink, device) {
            Ok(()) => {}
            Err(ActFault::Stopped(why)) => return status_of_fault(&why),
            // There is room for each, and no commit is unfinished.
            Err(_) => unreachable!(),
        }
    }
}

/// The act that a made command is, in a script of an access list.
fn act_of_made(made: &Made) -> Act
    ensures act { result ≡ made_act made.now }
    ensures list { IsActOf Family.Acl result }
    ensures told { (version : IpVersion) → IsToldIn false version result }
{
    match made {
        Made::Change(command) => Act::Command(*command),
        Made::Commit => Act::Commit,
    }
}

/// What a line does in a script of the run's family, or the text of its fault. With a report in JSON a trial and a crash
/// are faults.
fn read_act(run: &Run, line: &Line) -> Result<Option<Act>, &'static str>
    requires len { line.now.len ≤ 512 }
    ensures ok { IfOk result (λ found. reading_by (setting_of run.now) (numbered line.now).text ≡ Ok found) }
    ensures err { IfErr result (λ text. reading_by (setting_of run.now) (numbered line.now).text ≡ Err text.now) }
    ensures act { IfOk result (λ found. IfSome found (IsActOf run.now.family)) }
    ensures long { IfOk result (λ found. IfSome found (λ _. 2 ≤ line.now.len)) }
    ensures told { IfOk result (λ found. IfSome found (IsToldIn run.now.json (family_version run.now.family))) }
    ensures short { IfErr result (λ text. length text.now ≤ 32) }
    ensures plain { IfErr result (λ text. IsPlainText text.now) }
{
    match read_family_act(run.family(), line) {
        Ok(Some(act)) => told_act(run.is_json(), act),
        Ok(None) => Ok(None),
        Err(text) => Err(text),
    }
}

/// What an act that was read is where the report is in JSON, or in words: in JSON a trial and a crash are faults.
pub fn told_act(json: bool, act: Act) -> Result<Option<Act>, &'static str>
    ensures ok { IfOk result (λ found. told_by json act ≡ Ok found) }
    ensures err { IfErr result (λ text. told_by json act ≡ Err text.now) }
    ensures same { IfOk result (λ found. found ≡ Some act) }
    ensures short { IfErr result (λ text. length text.now ≤ 32) }
{
    match act {
        Act::Command(_) | Act::Ask(_) | Act::All | Act::Probe(_) | Act::Packet(_) | Act::Commit =>
            Ok(Some(act)),
        Act::Trial(_) | Act::Crash(_) => {
            if json {
                Err("not with json")
            } else {
                Ok(Some(act))
            }
        }
    }
}

/// What a line does in a script of a family, or the text of its fault.
pub fn read_family_act(family: Family, line: &Line) -> Result<Option<Act>, &'static str>
    requires { line.now.len ≤ 512 }
    ensures ok { IfOk result (λ found. reading family (numbered line.now).text ≡ Ok found) }
    ensures err { IfErr result (λ text. reading family (numbered line.now).text ≡ Err text.now) }
    ensures act { IfOk result (λ found. IfSome found (IsActOf family)) }
    ensures short { IfErr result (λ text. length text.now ≤ 32) }
{
    match family {
        Family::Route => read_route_act(line, IpVersion::V4),
        Family::Acl => read_acl_act(line, IpVersion::V4),
        Family::Route6 => read_route_act(line, IpVersion::V6),
        Family::Acl6 => read_acl_act(line, IpVersion::V6),
    }
}

/// What a line of a script of routes does, or the text of its fault.
fn read_route_act(line: &Line, version: IpVersion) -> Result<Option<Act>, &'static str>
    requires { line.now.len ≤ 512 }
    ensures ok { IfOk result (λ found. route_reading version (numbered line.now).text ≡ Ok found) }
    ensures err { IfErr result (λ text. route_reading version (numbered line.now).text ≡ Err text.now) }
    ensures act { IfOk result (λ found. IfSome found (IsActOf (routes_of version))) }
    ensures short { IfErr result (λ text. length text.now ≤ 32) }
{
    match read_route(line, version) {
        Ok(None) => Ok(None),
        Ok(Some(command)) => Ok(Some(route_act(&command, version))),
        Err(fault) => Err(fault_text(&fault)),
    }
}

/// What a line of a script of an access list does, or the text of its fault.
fn read_acl_act(line: &Line, version: IpVersion) -> Result<Option<Act>, &'static str>
    requires { line.now.len ≤ 512 }
    ensures ok { IfOk result (λ found. acl_reading version (numbered line.now).text ≡ Ok found) }
    ensures err { IfErr result (λ text. acl_reading version (numbered line.now).text ≡ Err text.now) }
    ensures list { IfOk result (λ found. IfSome found (IsActOf Family.Acl)) }
    ensures list_six { IfOk result (λ found. IfSome found (IsActOf Family.Acl6)) }
    ensures short { IfErr result (λ text. length text.now ≤ 32) }
{
    match read_acl(line, version) {
        Ok(None) => Ok(None),
        Ok(Some(command)) => Ok(Some(acl_act(&command))),
        Err(fault) => Err(fault_text(&fault)),
    }
}

/// The act that a command of an access-list script is.
fn acl_act(command: &AclCommand) -> Act
    ensures act { result ≡ acl_act command.now }
    ensures list { IsActOf Family.Acl result }
    ensures list_six { IsActOf Family.Acl6 result }
{
    match command {
        AclCommand::Add(rule) => Act::Command(Command::Add(*rule)),
        AclCommand::Set(sequence, answer) => Act::Command(Command::Set {
            priority: list_rank(*sequence),
            result: *answer,
        }),
        AclCommand::Del(sequence) => Act::Command(Command::Del(list_rank(*sequence))),
        AclCommand::Put(rule) => Act::Ask(Request::Put(*rule)),
        AclCommand::Drop(sequence) => Act::Ask(Request::Drop(list_rank(*sequence))),
        AclCommand::All => Act::All,
        AclCommand::Common(command) => common_act(command),
    }
}

/// The act that a command of a script of routes is. What it adds or puts is a route of its version
/// of IP.
fn route_act(command: &RouteCommand, version: IpVersion) -> Act
    requires { routes.IsCommandOf version command.now }
    ensures act { result ≡ route_act version command.now }
    ensures route { IsActOf (routes_of version) result }
{
    match command {
        RouteCommand::Add(prefix, answer) => route_addition(*prefix, *answer, version),
        RouteCommand::Set(prefix, answer) => Act::Command(Command::Set {
            priority: route_rank(prefix, version),
            result: *answer,
        }),
        RouteCommand::Del(prefix) => Act::Command(Command::Del(route_rank(prefix, version))),
        RouteCommand::Put(prefix, answer) => route_put(*prefix, *answer, version),
        RouteCommand::Drop(prefix) => Act::Ask(Request::Drop(route_rank(prefix, version))),
        RouteCommand::All => Act::All,
        RouteCommand::Common(command) => common_act(command),
    }
}

/// The act that adds a route of a version of IP.
fn route_addition(prefix: Prefix, answer: u32, version: IpVersion) -> Act
    requires { routes.IsBlockOf version prefix }
    ensures act { result ≡ Act.Command (Command.Add (route_rule (routes.route_rank version prefix) prefix answer)) }
    ensures route { IsActOf (routes_of version) result }
{
    Act::Command(Command::Add(route_of(prefix, answer, version)))
}

/// The act that has a route of a version of IP stand.
fn route_put(prefix: Prefix, answer: u32, version: IpVersion) -> Act
    requires { routes.IsBlockOf version prefix }
    ensures act { result ≡ Act.Ask (Request.Put (route_rule (routes.route_rank version prefix) prefix answer)) }
    ensures route { IsActOf (routes_of version) result }
{
    Act::Ask(Request::Put(route_of(prefix, answer, version)))
}

/// The act that a command of both kinds of script is.
fn common_act(command: &CommonCommand) -> Act
    ensures act { result ≡ common_act command.now }
    ensures family { (family : Family) → IsActOf family result }
{
    match command {
        CommonCommand::Probe(key) => Act::Probe(*key),
        CommonCommand::Packet(key) => Act::Packet(*key),
        CommonCommand::Commit => Act::Commit,
        CommonCommand::Trial(most) => Act::Trial(*most),
        CommonCommand::Crash(after) => Act::Crash(*after),
    }
}

/// The text of a word's fault.
fn fault_text(fault: &WordFault) -> &'static str
    ensures text { result.now ≡ word_fault_text fault.now }
    ensures short { length result.now ≤ 32 }
{
    fault.text()
}

/// Writes the end line of a script that was read to its end.
fn finish<K: Sink>(run: &mut Run, sink: &mut K) -> Status
    requires idle { run.old.manager.held ≡ None }
    requires whole { run.old.broken ≡ false }
    ensures run { run.new ≡ run.old }
    ensures closes { (device_slots : ℕ) → ClosesReport K.taken K.accepted K.faults sink.old sink.new (ending (setting_of run.old) (progress_of device_slots run.old)) (status_of (progress_of device_slots run.old) Whole) result }
    ensures kind { (result ≢ Status.Usage) × (result ≢ Status.ReadFault) × (result ≢ Status.DeviceFault) × (result ≢ Status.Memory) }
{
    match run.finish(sink) {
        Ok(false) => Status::Done,
        Ok(true) => Status::Refused,
        Err(Failed) => Status::WriteFault,
    }
}

/// Writes the line that names the fault of a script's line.
fn fault<K: Sink>(run: &Run, line: u32, text: &str, sink: &mut K) -> Status
    requires short { length text.now ≤ 32 }
    requires plain { IsPlainText text.now }
    ensures closes { ClosesReport K.taken K.accepted K.faults sink.old sink.new (fault_told (setting_of run.now) run.now.commits line text.now) Status.Script result }
    ensures kind { (result ≢ Status.Usage) × (result ≢ Status.ReadFault) × (result ≢ Status.DeviceFault) × (result ≢ Status.Memory) }
{
    match run.finish_at_fault(line, text, sink) {
        Ok(()) => Status::Script,
        Err(Failed) => Status::WriteFault,
    }
}

/// Writes a text, and answers the status that follows, which is no failure of the sink.
fn tell<K: Sink>(sink: &mut K, text: &str, last: Status) -> Status
    requires { last ≢ Status.WriteFault }
    ensures closes { ClosesReport K.taken K.accepted K.faults sink.old sink.new text.now last result }
    ensures kind { (result ≡ last) ⊎ (result ≡ Status.WriteFault) }
{
    match write_text(sink, text) {
        Ok(()) => last,
        Err(Failed) => Status::WriteFault,
    }
}
