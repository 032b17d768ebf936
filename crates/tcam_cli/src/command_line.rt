//! The words of the command line, as `clap` takes them.

ghost use Rattle.std.specs.Prelude.{◌≡◌, ◌≤◌, codes, Err, IfOk, IsErrOf, IfSome, IsNone, None, false, true, map, string_bytes};
ghost use Rattle.clap.specs.Words.{app_of, rule_of, rows_of, found_of, subcommand_rows_of, kind_of};
ghost use Rattle.clap.specs.declared.builder.command.Command.TheViews.{out-Command};
ghost use Rattle.tcam_cli.specs.CommandLine.{job_of, job_of_fault, mode_wanted, topic_in, topic_named, verify_app, acl_app, depth_option, gen_app, json_flag, names_flag, removals_in, removals_option, parted_by, route_app, tcam_app};
ghost use Rattle.tcam_cli.specs.Asked.{IsInRange, asked_by, tested_job, tested_made, tested_script};
ghost use Rattle.tcam_cli.specs.Headline.{NoJob, wanted_slots};

use crate::own_texts::Topic;
use clap::error::ErrorKind;
use clap::{Arg, ArgAction, ArgMatches, Command, Error};
use option_words::{
    WordsFault, large_arg, mode_named, number_arg, number_of, placement_arg, placement_of,
    ranges_arg, slots_arg, text_of, trace_arg,
};
use replay::{Family, Mode, Placement};
use report_lines::sizes_by;
use slot_order::{MOST_SLOTS, SCRIPT_SLOTS};
use std::alloc::{AllocError, Global};

/// What a command line asks for.
#[derive(Clone, Copy, Debug, PartialEq, Eq)]
pub enum Asked {
    /// A script of this family from the source, with so many slots in use, 1 to 4,096, where port ranges are tested as
    /// the mode says and each insertion aims as the placement says, with a trace or without, with the words of probes
    /// searched after so many further writes, at most 15, with a report in JSON or without, with a trace by names or by the
    /// words of the device, with removals first where they may or last, and with the large sizes or not: with them there are
    /// up to 1,048,576 slots, and no report in JSON.
    Script {
        family: Family,
        slots: u32,
        mode: Mode,
        placement: Placement,
        trace: bool,
        depth: u32,
        json: bool,
        names: bool,
        parts: bool,
        large: bool,
    },
    /// Commands of an access list that are made from a seed up to 2,147,483,647, 1 to 64 batches of 1 to 256 rules
    /// each, over so many slots, in this mode and by this placement, and without a trace. No source is read.
    Made {
        slots: u32,
        mode: Mode,
        placement: Placement,
        seed: u32,
        rules: u32,
        batches: u32,
    },
    /// The check of a trace from the source.
    Verify,
    /// The help of a subcommand, or of the program where none is named.
    Help(Option<Topic>),
    /// Name and version.
    Version,
}

/// After how many further writes the words of the probes are searched.
fn depth_arg<'a>(alloc: Global) -> Arg<'a>
    ensures rule { rule_of result ≡ depth_option }
    ensures global { result.global ≡ false }
{
    Arg::new(alloc, "depth")
        .long("depth")
        .action(ArgAction::Set)
        .value_parser(clap::value_parser!(u64).range(0..16))
        .default_value("0")
}

/// Whether the report is in JSON.
fn json_arg<'a>(alloc: Global) -> Arg<'a>
    ensures rule { rule_of result ≡ json_flag }
    ensures global { result.global ≡ false }
{
    Arg::new(alloc, "json")
        .long("json")
        .action(ArgAction::SetTrue)
}

/// Whether a trace is by names.
fn names_arg<'a>(alloc: Global) -> Arg<'a>
    ensures rule { rule_of result ≡ names_flag }
    ensures global { result.global ≡ false }
{
    Arg::new(alloc, "names")
        .long("names")
        .action(ArgAction::SetTrue)
}

/// When removals go.
fn removals_arg<'a>(alloc: Global) -> Arg<'a>
    ensures rule { rule_of result ≡ removals_option }
    ensures global { result.global ≡ false }
{
    Arg::new(alloc, "removals")
        .long("removals")
        .action(ArgAction::Set)
        .default_value("last")
}

/// A subcommand for route scripts, by its name.
fn route_command<'a>(alloc: Global, name: &'a str) -> Result<Command<'a>, AllocError>
    ensures app { IfOk result (λ c. app_of c ≡ route_app name.entry.now) }
    ensures local { IfOk result (λ c. (out-Command c).has_globals ≡ false) }
{
    Ok(
        Command::new(alloc, name)
            .arg(slots_arg(alloc, MOST_SLOTS))?
            .arg(placement_arg(alloc))?
            .arg(trace_arg(alloc))?
            .arg(depth_arg(alloc))?
            .arg(json_arg(alloc))?
            .arg(names_arg(alloc))?
            .arg(removals_arg(alloc))?
            .arg(large_arg(alloc))?,
    )
}

/// A subcommand for access-list scripts, by its name.
fn acl_command<'a>(alloc: Global, name: &'a str) -> Result<Command<'a>, AllocError>
    ensures app { IfOk result (λ c. app_of c ≡ acl_app name.entry.now) }
    ensures local { IfOk result (λ c. (out-Command c).has_globals ≡ false) }
{
    Ok(
        Command::new(alloc, name)
            .arg(slots_arg(alloc, MOST_SLOTS))?
            .arg(ranges_arg(alloc))?
            .arg(placement_arg(alloc))?
            .arg(trace_arg(alloc))?
            .arg(depth_arg(alloc))?
            .arg(json_arg(alloc))?
            .arg(names_arg(alloc))?
            .arg(removals_arg(alloc))?
            .arg(large_arg(alloc))?,
    )
}

/// The subcommand for made commands.
fn gen_command<'a>(alloc: Global) -> Result<Command<'a>, AllocError>
    ensures app { IfOk result (λ c. app_of c ≡ gen_app) }
    ensures local { IfOk result (λ c. (out-Command c).has_globals ≡ false) }
{
    Ok(
        Command::new(alloc, "gen")
            .arg(number_arg(alloc, "seed", 0, 2147483647))?
            .arg(number_arg(alloc, "rules", 1, 256))?
            .arg(number_arg(alloc, "batches", 1, 64))?
            .arg(slots_arg(alloc, SCRIPT_SLOTS))?
            .arg(ranges_arg(alloc))?
            .arg(placement_arg(alloc))?,
    )
}

/// The subcommand for the check of a trace.
fn verify_command<'a>(alloc: Global) -> Command<'a>
    ensures app { app_of result ≡ verify_app }
    ensures local { (out-Command result).has_globals ≡ false }
{
    Command::new(alloc, "verify")
}

/// The declared command line: a required subcommand, help by its flag alone, and a version.
fn tcam_command<'a>(alloc: Global) -> Result<Command<'a>, AllocError>
    ensures { IfOk result (λ c. app_of c ≡ tcam_app) }
{
    Ok(
        Command::new(alloc, "tcam")
            .version("0.2.0")
            .subcommand_required(true)
            .disable_help_subcommand(true)
            .subcommand(route_command(alloc, "route")?)?
            .subcommand(acl_command(alloc, "acl")?)?
            .subcommand(route_command(alloc, "route6")?)?
            .subcommand(acl_command(alloc, "acl6")?)?
            .subcommand(gen_command(alloc)?)?
            .subcommand(verify_command(alloc))?,
    )
}

/// What the words ask for, the program's name first.
///
/// Usage: they are no command line. Memory: there was no room to read them in.
pub fn read_words(alloc: Global, words: &[String]) -> Result<Asked, WordsFault>
    ensures asked { IfOk result (λ job. job_of (map string_bytes words.now) ≡ asked_by job) }
    ensures usage { IsErrOf result WordsFault.Usage → job_of (map string_bytes words.now) ≡ NoJob }
    ensures within { IfOk result IsInRange }
{
    let command = match tcam_command(alloc) {
        Ok(command) => command,
        Err(_) => return Err(WordsFault::Memory),
    };
    match command.try_get_matches_from(words) {
        Ok(matches) => match job_of_matches(&matches) {
            Some(job) => Ok(job),
            None => Err(WordsFault::Usage),
        },
        Err(error) => job_of_error(topic_of(words), &error),
    }
}

/// How many slots of its device what the words ask for uses, the program's name first; 0 where it uses none. It fails only for
/// want of memory.
pub fn slots_wanted(alloc: Global, words: &[String]) -> Result<u32, AllocError>
    ensures wanted { IfOk result (λ slots. wanted_slots (job_of (map string_bytes words.now)) ≤ slots) }
    ensures most { IfOk result (λ slots. slots ≤ MOST_SLOTS) }
{
    match read_words(alloc, words) {
        Ok(asked) => Ok(asked_slots(asked)),
        Err(WordsFault::Usage) => Ok(0),
        Err(WordsFault::Memory) => Err(AllocError),
    }
}

/// How many slots of its device what is asked for uses.
fn asked_slots(asked: Asked) -> u32
    ensures { result ≡ wanted_slots (asked_by asked) }
{
    match asked {
        Asked::Script { slots, .. } => slots,
        Asked::Made { slots, .. } => slots,
        Asked::Verify => 0,
        Asked::Help(_) => 0,
        Asked::Version => 0,
    }
}

/// The job of words that were taken, if they ask for one.
fn job_of_matches(matches: &ArgMatches) -> Option<Asked>
    ensures asked { IfSome result (λ job. tested_job (subcommand_rows_of matches.now) ≡ asked_by job) }
    ensures none { IsNone result → tested_job (subcommand_rows_of matches.now) ≡ NoJob }
    ensures within { IfSome result IsInRange }
{
    match matches.subcommand() {
        Some((name, found)) if name == "route" => job_of_script(Family::Route, found),
        Some((name, found)) if name == "acl" => job_of_script(Family::Acl, found),
        Some((name, found)) if name == "route6" => job_of_script(Family::Route6, found),
        Some((name, found)) if name == "acl6" => job_of_script(Family::Acl6, found),
        Some((name, found)) if name == "gen" => job_of_made(found),
        Some((name, _)) if name == "verify" => Some(Asked::Verify),
        _ => None,
    }
}

/// The job of the arguments of a subcommand for scripts of a family.
fn job_of_script(family: Family, found: &ArgMatches) -> Option<Asked>
    ensures asked { IfSome result (λ job. tested_script family (rows_of (found_of found.now)) ≡ asked_by job) }
    ensures none { IsNone result → tested_script family (rows_of (found_of found.now)) ≡ NoJob }
    ensures within { IfSome result IsInRange }
{
    let large = text_of(found, "large") == "true";
    let json = text_of(found, "json") == "true";
    let slots = number_of(text_of(found, "slots"), 1, sizes_by(large).slots)?;
    let mode = mode_of(family, found)?;
    let placement = placement_of(text_of(found, "placement"))?;
    let depth = number_of(text_of(found, "depth"), 0, 15)?;
    let parts = removals_of(text_of(found, "removals"))?;
    if json && large {
        return None;
    }
    Some(Asked::Script {
        family,
        slots,
        mode,
        placement,
        trace: text_of(found, "trace") == "true",
        depth,
        json,
        names: text_of(found, "names") == "true",
        parts,
        large,
    })
}

/// Whether removals go first, where the word says when they go.
pub fn removals_of(word: &str) -> Option<bool>
    ensures { result ≡ removals_in word.now }
{
    match word {
        "last" => Some(false),
        "first" => Some(true),
        _ => None,
    }
}

/// The job of the arguments of the subcommand for made commands.
fn job_of_made(found: &ArgMatches) -> Option<Asked>
    ensures asked { IfSome result (λ job. tested_made (rows_of (found_of found.now)) ≡ asked_by job) }
    ensures none { IsNone result → tested_made (rows_of (found_of found.now)) ≡ NoJob }
    ensures within { IfSome result IsInRange }
{
    Some(Asked::Made {
        slots: number_of(text_of(found, "slots"), 1, SCRIPT_SLOTS)?,
        seed: number_of(text_of(found, "seed"), 0, 2147483647)?,
        rules: number_of(text_of(found, "rules"), 1, 256)?,
        batches: number_of(text_of(found, "batches"), 1, 64)?,
        mode: mode_of(Family::Acl, found)?,
        placement: placement_of(text_of(found, "placement"))?,
    })
}

/// The mode that is wanted: the ranges of a route are any port, and it has no such option.
fn mode_of(family: Family, found: &ArgMatches) -> Option<Mode>
    ensures { result ≡ mode_wanted family (rows_of (found_of found.now)) }
{
    match family {
        Family::Route | Family::Route6 => Some(Mode::Cover),
        Family::Acl | Family::Acl6 => mode_named(text_of(found, "ranges")),
    }
}

/// Whose help words ask for, the program's name first, if they ask for help: that of the subcommand that follows the
/// name, or the program's own.
fn topic_of(words: &[String]) -> Option<Topic>
    ensures { result ≡ topic_in (map string_bytes words.now) }
{
    topic_by(words.get(1)?.as_str())
}

/// The subcommand that a word names.
fn topic_by(word: &str) -> Option<Topic>
    ensures { result ≡ topic_named word.now }
{
    match word {
        "route" => Some(Topic::Route),
        "acl" => Some(Topic::Acl),
        "route6" => Some(Topic::Route6),
        "acl6" => Some(Topic::Acl6),
        "gen" => Some(Topic::Gen),
        "verify" => Some(Topic::Verify),
        _ => None,
    }
}

/// The job of words that weren't, where their help is that of a topic: help, the version, or none.
fn job_of_error(topic: Option<Topic>, error: &Error) -> Result<Asked, WordsFault>
    ensures asked { IfOk result (λ job. job_of_fault topic (kind_of error.now) ≡ asked_by job) }
    ensures usage { IsErrOf result WordsFault.Usage → job_of_fault topic (kind_of error.now) ≡ NoJob }
    ensures memory { kind_of error.now ≡ ErrorKind.OutOfMemory → result ≡ Err WordsFault.Memory }
    ensures within { IfOk result IsInRange }
{
    match error.kind() {
        ErrorKind::DisplayHelp => Ok(Asked::Help(topic)),
        ErrorKind::DisplayVersion => Ok(Asked::Version),
        ErrorKind::OutOfMemory => Err(WordsFault::Memory),
        _ => Err(WordsFault::Usage),
    }
}
