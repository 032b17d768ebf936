//! What the words of a command line ask for, as `clap` takes them.

ghost use Rattle.std.specs.Prelude.{◌≡◌, codes, false, Err, IfOk, IfSome, IsErrOf, IsNone, map, string_bytes};
ghost use Rattle.clap.specs.Words.{app_of, found_of, kind_of, rows_of, rule_of, subcommand_rows_of};
ghost use Rattle.clap.specs.declared.builder.command.Command.TheViews.{out-Command};
ghost use Rattle.option_words.specs.Options.{has_text};
ghost use Rattle.judge_cli.specs.CommandLine.{NoJob, asked_by, compared_by, judge_app, judge_job, judge_job_of, judge_job_of_fault, judge_line, results_flag};

use clap::error::ErrorKind;
use clap::{Arg, ArgAction, ArgMatches, Command, Error};
use driver_trace::Compared;
use option_words::{WordsFault, text_of};
use std::alloc::{AllocError, Global};

/// What a command line asks for.
#[derive(Clone, Copy, Debug, PartialEq, Eq)]
pub enum Asked {
    /// A judgement, where answers are so compared.
    Judge { by: Compared },
    Help,
}

/// Whether answers are compared by their result alone.
fn results_arg<'a>(alloc: Global) -> Arg<'a>
    ensures rule { rule_of result ≡ results_flag }
    ensures global { result.global ≡ false }
{
    Arg::new(alloc, "results")
        .long("results")
        .action(ArgAction::SetTrue)
}

/// The subcommand for judgements.
fn judge_command<'a>(alloc: Global) -> Result<Command<'a>, AllocError>
    ensures app { IfOk result (λ c. app_of c ≡ judge_app) }
    ensures local { IfOk result (λ c. (out-Command c).has_globals ≡ false) }
{
    Ok(Command::new(alloc, "judge").arg(results_arg(alloc))?)
}

/// The declared command line: a required subcommand, and help by its flag alone.
fn line_command<'a>(alloc: Global) -> Result<Command<'a>, AllocError>
    ensures { IfOk result (λ c. app_of c ≡ judge_line) }
{
    Ok(
        Command::new(alloc, "tcam")
            .subcommand_required(true)
            .disable_help_subcommand(true)
            .subcommand(judge_command(alloc)?)?,
    )
}

/// What the words ask for: the program's name first, and `judge` behind it. `Usage` comes where they are no command line,
/// and `Memory` for want of memory.
pub fn read_words(alloc: Global, words: &[String]) -> Result<Asked, WordsFault>
    ensures asked { IfOk result (λ job. judge_job (map string_bytes words.now) ≡ asked_by job) }
    ensures usage { IsErrOf result WordsFault.Usage → judge_job (map string_bytes words.now) ≡ NoJob }
{
    let command = match line_command(alloc) {
        Ok(command) => command,
        Err(_) => return Err(WordsFault::Memory),
    };
    match command.try_get_matches_from(words) {
        Ok(matches) => match job_of_matches(&matches) {
            Some(job) => Ok(job),
            None => Err(WordsFault::Usage),
        },
        Err(error) => job_of_error(&error),
    }
}

/// The job of words that were taken, if they ask for one.
fn job_of_matches(matches: &ArgMatches) -> Option<Asked>
    ensures asked { IfSome result (λ job. judge_job_of (subcommand_rows_of matches.now) ≡ asked_by job) }
    ensures none { IsNone result → judge_job_of (subcommand_rows_of matches.now) ≡ NoJob }
{
    match matches.subcommand() {
        Some((name, found)) if name == "judge" => Some(Asked::Judge {
            by: compared(found),
        }),
        _ => None,
    }
}

/// By what answers are compared, as the arguments of the subcommand have it.
fn compared(found: &ArgMatches) -> Compared
    ensures { result ≡ compared_by (has_text (codes "results") (codes "true") (rows_of (found_of found.now))) }
{
    if text_of(found, "results") == "true" {
        Compared::Results
    } else {
        Compared::Answers
    }
}

/// The job of words that weren't: help, or none.
fn job_of_error(error: &Error) -> Result<Asked, WordsFault>
    ensures asked { IfOk result (λ job. judge_job_of_fault (kind_of error.now) ≡ asked_by job) }
    ensures usage { IsErrOf result WordsFault.Usage → judge_job_of_fault (kind_of error.now) ≡ NoJob }
    ensures memory { kind_of error.now ≡ ErrorKind.OutOfMemory → result ≡ Err WordsFault.Memory }
{
    match error.kind() {
        ErrorKind::DisplayHelp => Ok(Asked::Help),
        ErrorKind::OutOfMemory => Err(WordsFault::Memory),
        _ => Err(WordsFault::Usage),
    }
}
