//! The words of the command line of a router's script, as `clap` takes them.

ghost use Rattle.std.specs.Prelude.{◌≡◌, ◌≤◌, Err, IfOk, IsErrOf, IfSome, IsNone, false, map, string_bytes};
ghost use Rattle.clap.specs.Words.{app_of, rows_of, found_of, subcommand_rows_of, kind_of};
ghost use Rattle.clap.specs.declared.builder.command.Command.TheViews.{out-Command};
ghost use Rattle.router_cli.specs.CommandLine.{NoJob, router_job_of, router_job_of_fault, router_app, router_job, router_line, routes_by, wanted_router_slots};
ghost use Rattle.router_cli.specs.Asked.{IsRouterAskedInRange, router_asked_by};

use clap::error::ErrorKind;
use clap::{ArgMatches, Command, Error};
use option_words::{
    Mode, Placement, WordsFault, large_arg, mode_named, number_of, placement_arg, placement_of,
    ranges_arg, slots_arg, text_of, trace_arg,
};
use report_lines::sizes_by;
use rule_model::IpVersion;
use slot_order::MOST_SLOTS;
use std::alloc::{AllocError, Global};

/// What a command line asks for.
#[derive(Clone, Copy, Debug, PartialEq, Eq)]
pub enum RouterAsked {
    /// A router's script of a version of IP from the source, with so many slots of each device in use, 1 to 4,096, where
    /// port ranges are tested as the mode says and each insertion aims as the placement says, with a trace or without, and
    /// with the large sizes, up to 1,048,576 slots, or the usual ones.
    Script {
        version: IpVersion,
        slots: u32,
        mode: Mode,
        placement: Placement,
        trace: bool,
        large: bool,
    },
    /// The help.
    Help,
}

/// A subcommand for a router's scripts, by its name.
fn router_command<'a>(alloc: Global, name: &'a str) -> Result<Command<'a>, AllocError>
    ensures app { IfOk result (λ c. app_of c ≡ router_app name.entry.now) }
    ensures local { IfOk result (λ c. (out-Command c).has_globals ≡ false) }
{
    Ok(
        Command::new(alloc, name)
            .arg(slots_arg(alloc, MOST_SLOTS))?
            .arg(ranges_arg(alloc))?
            .arg(placement_arg(alloc))?
            .arg(trace_arg(alloc))?
            .arg(large_arg(alloc))?,
    )
}

/// The declared command line: a required subcommand, and help by its flag alone.
fn line_command<'a>(alloc: Global) -> Result<Command<'a>, AllocError>
    ensures { IfOk result (λ c. app_of c ≡ router_line) }
{
    Ok(
        Command::new(alloc, "tcam")
            .subcommand_required(true)
            .disable_help_subcommand(true)
            .subcommand(router_command(alloc, "router")?)?
            .subcommand(router_command(alloc, "router6")?)?,
    )
}

/// What the words ask for, the program's name first.
///
/// Usage: they are no command line. Memory: there was no room to read them in.
pub fn read_router_words(alloc: Global, words: &[String]) -> Result<RouterAsked, WordsFault>
    ensures asked { IfOk result (λ job. router_job (map string_bytes words.now) ≡ router_asked_by job) }
    ensures usage { IsErrOf result WordsFault.Usage → router_job (map string_bytes words.now) ≡ NoJob }
    ensures within { IfOk result IsRouterAskedInRange }
{
    let command = match line_command(alloc) {
        Ok(command) => command,
        Err(_) => return Err(WordsFault::Memory),
    };
    match command.try_get_matches_from(words) {
        Ok(matches) => match job_of_matches(&matches) {
            Some(job) => Ok(job),
            None => Err(WordsFault::Usage),
        },
        Err(error) => job_of_error(&error),
    }
}

/// How many slots of each device what the words ask for uses, the program's name first; 0 where it uses none. It fails only
/// for want of memory.
pub fn router_slots_wanted(alloc: Global, words: &[String]) -> Result<u32, AllocError>
    ensures wanted { IfOk result (λ slots. wanted_router_slots (router_job (map string_bytes words.now)) ≤ slots) }
    ensures most { IfOk result (λ slots. slots ≤ MOST_SLOTS) }
{
    match read_router_words(alloc, words) {
        Ok(asked) => Ok(asked_slots(asked)),
        Err(WordsFault::Usage) => Ok(0),
        Err(WordsFault::Memory) => Err(AllocError),
    }
}

/// How many slots of each device what is asked for uses.
fn asked_slots(asked: RouterAsked) -> u32
    ensures { result ≡ wanted_router_slots (router_asked_by asked) }
{
    match asked {
        RouterAsked::Script { slots, .. } => slots,
        RouterAsked::Help => 0,
    }
}

/// The job of words that were taken, if they ask for one.
fn job_of_matches(matches: &ArgMatches) -> Option<RouterAsked>
    ensures asked { IfSome result (λ job. router_job_of (subcommand_rows_of matches.now) ≡ router_asked_by job) }
    ensures none { IsNone result → router_job_of (subcommand_rows_of matches.now) ≡ NoJob }
    ensures within { IfSome result IsRouterAskedInRange }
{
    match matches.subcommand() {
        Some((name, found)) if name == "router" => job_of_script(IpVersion::V4, found),
        Some((name, found)) if name == "router6" => job_of_script(IpVersion::V6, found),
        _ => None,
    }
}

/// The job of the arguments of the subcommand for scripts of this version.
fn job_of_script(version: IpVersion, found: &ArgMatches) -> Option<RouterAsked>
    ensures asked { IfSome result (λ job. routes_by version (rows_of (found_of found.now)) ≡ router_asked_by job) }
    ensures none { IsNone result → routes_by version (rows_of (found_of found.now)) ≡ NoJob }
    ensures within { IfSome result IsRouterAskedInRange }
{
    let large = text_of(found, "large") == "true";
    Some(RouterAsked::Script {
        version,
        slots: number_of(text_of(found, "slots"), 1, sizes_by(large).slots)?,
        mode: mode_named(text_of(found, "ranges"))?,
        placement: placement_of(text_of(found, "placement"))?,
        trace: text_of(found, "trace") == "true",
        large,
    })
}

/// The job of words that weren't: help, or none.
fn job_of_error(error: &Error) -> Result<RouterAsked, WordsFault>
    ensures asked { IfOk result (λ job. router_job_of_fault (kind_of error.now) ≡ router_asked_by job) }
    ensures usage { IsErrOf result WordsFault.Usage → router_job_of_fault (kind_of error.now) ≡ NoJob }
    ensures memory { kind_of error.now ≡ ErrorKind.OutOfMemory → result ≡ Err WordsFault.Memory }
    ensures within { IfOk result IsRouterAskedInRange }
{
    match error.kind() {
        ErrorKind::DisplayHelp => Ok(RouterAsked::Help),
        ErrorKind::OutOfMemory => Err(WordsFault::Memory),
        _ => Err(WordsFault::Usage),
    }
}
