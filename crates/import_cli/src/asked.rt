//! What the words of a command line ask for, as `clap` takes them.

ghost use Rattle.std.specs.Prelude.{◌≡◌, false, Err, IfOk, IfSome, IsErrOf, IsNone, map, string_bytes};
ghost use Rattle.clap.specs.Words.{app_of, found_of, kind_of, rows_of, rule_of, subcommand_rows_of};
ghost use Rattle.clap.specs.declared.builder.command.Command.TheViews.{out-Command};
ghost use Rattle.import_cli.specs.CommandLine.{NoJob, asked_by, chain_at, chain_option, face_at, format_in, format_position, hook_face, hook_in, import_app, import_job, import_job_of, import_job_of_fault, import_line, import_of, imports_by, in_option, leave_out_flag, list_at, list_option, since_at, since_option, version_in, version_option};

use crate::chain_name::ChainName;
use crate::list_name::ListName;
use clap::builder::ValueParser;
use clap::error::ErrorKind;
use clap::{Arg, ArgAction, ArgMatches, Command, Error};
use iptables::{FaceName, Hook};
use option_words::{WordsFault, text_of};
use rule_model::IpVersion;
use std::alloc::{AllocError, Global};

/// A format that can be imported.
#[derive(Drop)]
pub enum Format {
    /// The lines of `ip -o route show`.
    IpRoutes,
    /// The lines of `ip -o monitor route`.
    IpMonitor,
    /// The array of `ip -j route show`.
    IpJson,
    /// Extended lists of Cisco IOS and Arista EOS, of which the one of this name is taken, or the only one where it is empty.
    Cisco(ListName),
    /// The frames of a routing daemon's FPM stream.
    Fpm,
    /// The lines of `iptables-save`, of which this chain is told, for the packets that come in by this interface, or by any where
    /// it has no name.
    Iptables(Hook, FaceName),
    /// The ruleset of `nft -j list ruleset`, of which this chain is told.
    Nft(ChainName),
}

/// What a command line asks for.
#[derive(Drop)]
pub enum Asked {
    /// An import of a format and a version of IP; lines that can't be said are left out or end it.
    Import {
        format: Format,
        version: IpVersion,
        leave_out: bool,
    },
    Help,
}

/// The format.
fn format_arg<'a>(alloc: Global) -> Arg<'a>
    ensures rule { rule_of result ≡ format_position }
    ensures global { result.global ≡ false }
{
    Arg::new(alloc, "format")
        .required(true)
        .action(ArgAction::Set)
}

/// The version of IP.
fn version_arg<'a>(alloc: Global) -> Arg<'a>
    ensures rule { rule_of result ≡ version_option }
    ensures global { result.global ≡ false }
{
    Arg::new(alloc, "version")
        .long("version")
        .action(ArgAction::Set)
        .default_value("4")
}

/// Whether a line that can't be said is left out.
fn leave_out_arg<'a>(alloc: Global) -> Arg<'a>
    ensures rule { rule_of result ≡ leave_out_flag }
    ensures global { result.global ≡ false }
{
    Arg::new(alloc, "leave-out")
        .long("leave-out")
        .action(ArgAction::SetTrue)
}

/// The list that is taken.
fn list_arg<'a>(alloc: Global) -> Arg<'a>
    ensures rule { rule_of result ≡ list_option }
    ensures global { result.global ≡ false }
{
    Arg::new(alloc, "list").long("list").action(ArgAction::Set)
}

/// The chain of which a list is told.
fn chain_arg<'a>(alloc: Global) -> Arg<'a>
    ensures rule { rule_of result ≡ chain_option }
    ensures global { result.global ≡ false }
{
    Arg::new(alloc, "chain")
        .long("chain")
        .action(ArgAction::Set)
}

/// The interface by which packets come in.
fn in_arg<'a>(alloc: Global) -> Arg<'a>
    ensures rule { rule_of result ≡ in_option }
    ensures global { result.global ≡ false }
{
    Arg::new(alloc, "in").long("in").action(ArgAction::Set)
}

/// The script of an older list: a file, whose name has a byte at least.
fn since_arg<'a>(alloc: Global) -> Arg<'a>
    ensures rule { rule_of result ≡ since_option }
    ensures global { result.global ≡ false }
{
    Arg::new(alloc, "since")
        .long("since")
        .action(ArgAction::Set)
        .value_parser(ValueParser::NonEmptyString)
}

/// The subcommand for imports.
fn import_command<'a>(alloc: Global) -> Result<Command<'a>, AllocError>
    ensures app { IfOk result (λ c. app_of c ≡ import_app) }
    ensures local { IfOk result (λ c. (out-Command c).has_globals ≡ false) }
{
    Ok(
        Command::new(alloc, "import")
            .arg(format_arg(alloc))?
            .arg(version_arg(alloc))?
            .arg(leave_out_arg(alloc))?
            .arg(list_arg(alloc))?
            .arg(chain_arg(alloc))?
            .arg(in_arg(alloc))?
            .arg(since_arg(alloc))?,
    )
}

/// The declared command line: a required subcommand, and help by its flag alone.
fn line_command<'a>(alloc: Global) -> Result<Command<'a>, AllocError>
    ensures { IfOk result (λ c. app_of c ≡ import_line) }
{
    Ok(
        Command::new(alloc, "tcam")
            .subcommand_required(true)
            .disable_help_subcommand(true)
            .subcommand(import_command(alloc)?)?,
    )
}

/// What the words ask for: the program's name first, and `import` behind it. `Usage` comes where they are no command line,
/// or name a format or a version that there isn't, and `Memory` for want of memory.
pub fn read_words(alloc: Global, words: &[String]) -> Result<Asked, WordsFault>
    ensures asked { IfOk result (λ job. import_job (map string_bytes words.now) ≡ asked_by job) }
    ensures usage { IsErrOf result WordsFault.Usage → import_job (map string_bytes words.now) ≡ NoJob }
{
    let command = match line_command(alloc) {
        Ok(command) => command,
        Err(_) => return Err(WordsFault::Memory),
    };
    match command.try_get_matches_from(words) {
        Ok(matches) => match job_of_matches(&matches) {
            Some(job) => Ok(job),
            None => Err(WordsFault::Usage),
        },
        Err(error) => job_of_error(&error),
    }
}

/// The job of words that were taken, if they ask for one.
fn job_of_matches(matches: &ArgMatches) -> Option<Asked>
    ensures asked { IfSome result (λ job. import_job_of (subcommand_rows_of matches.now) ≡ asked_by job) }
    ensures none { IsNone result → import_job_of (subcommand_rows_of matches.now) ≡ NoJob }
{
    match matches.subcommand() {
        Some((name, found)) if name == "import" => job_of_import(found),
        _ => None,
    }
}

/// The job of the arguments of the subcommand.
fn job_of_import(found: &ArgMatches) -> Option<Asked>
    ensures asked { IfSome result (λ job. imports_by (rows_of (found_of found.now)) ≡ asked_by job) }
    ensures none { IsNone result → imports_by (rows_of (found_of found.now)) ≡ NoJob }
{
    let listed = format_of(
        format_named(text_of(found, "format"))?,
        text_of(found, "list"),
    )?;
    let chained = chain_of(listed, text_of(found, "chain"))?;
    let faced = face_of(chained, text_of(found, "in"))?;
    let format = since_of(faced, text_of(found, "since"))?;
    let version = version_named(text_of(found, "version"))?;
    import_of(format, version, text_of(found, "leave-out") == "true")
}

/// An import of a format and a version of IP: lists of IPv6 aren't taken.
fn import_of(format: Format, version: IpVersion, leave_out: bool) -> Option<Asked>
    ensures asked { IfSome result (λ job. import_of format version leave_out ≡ asked_by job) }
    ensures none { IsNone result → import_of format version leave_out ≡ NoJob }
{
    match format {
        Format::Cisco(name) => import_list(name, version, leave_out),
        Format::IpRoutes => Some(Asked::Import {
            format: Format::IpRoutes,
            version,
            leave_out,
        }),
        Format::IpMonitor => Some(Asked::Import {
            format: Format::IpMonitor,
            version,
            leave_out,
        }),
        Format::IpJson => Some(Asked::Import {
            format: Format::IpJson,
            version,
            leave_out,
        }),
        Format::Fpm => Some(Asked::Import {
            format: Format::Fpm,
            version,
            leave_out,
        }),
        Format::Iptables(hook, face) => Some(Asked::Import {
            format: Format::Iptables(hook, face),
            version,
            leave_out,
        }),
        Format::Nft(chain) => Some(Asked::Import {
            format: Format::Nft(chain),
            version,
            leave_out,
        }),
    }
}

/// An import of a list, of IPv4.
fn import_list(name: ListName, version: IpVersion, leave_out: bool) -> Option<Asked>
    ensures asked { IfSome result (λ job. import_of (Format.Cisco name) version leave_out ≡ asked_by job) }
    ensures none { IsNone result → import_of (Format.Cisco name) version leave_out ≡ NoJob }
{
    match version {
        IpVersion::V4 => Some(Asked::Import {
            format: Format::Cisco(name),
            version,
            leave_out,
        }),
        IpVersion::V6 => None,
    }
}

/// A format, and the list of this name, which is empty where none is asked for: no other format has lists.
fn format_of(format: Format, list: &str) -> Option<Format>
    ensures { result ≡ list_at format list.now }
{
    if list.is_empty() {
        return Some(format);
    }
    match format {
        Format::Cisco(_) => Some(Format::Cisco(ListName::new(list.as_bytes())?)),
        _ => None,
    }
}

/// A format, and the chain of this name, which is empty where none is asked for: no other format has chains.
fn chain_of(format: Format, chain: &str) -> Option<Format>
    ensures { result ≡ chain_at format chain.now }
{
    if chain.is_empty() {
        return Some(format);
    }
    match format {
        Format::Iptables(_, face) => Some(Format::Iptables(hook_named(chain)?, face)),
        Format::Nft(_) => Some(Format::Nft(ChainName::new(chain)?)),
        _ => None,
    }
}

/// A format, and the interface of this name, which is empty where none is asked for: packets of the chain OUTPUT come in by
/// none, and no other format has interfaces.
fn face_of(format: Format, name: &str) -> Option<Format>
    ensures { result ≡ face_at format name.now }
{
    if name.is_empty() {
        return Some(format);
    }
    match format {
        Format::Iptables(hook, _) => hook_face(hook, FaceName::new(name.as_bytes())?),
        _ => None,
    }
}

/// A format, and the file with the script of an older list, whose name is empty where none is asked for: no other format has
/// lists whose numbers are ours.
fn since_of(format: Format, file: &str) -> Option<Format>
    ensures { result ≡ since_at format file.now }
{
    if file.is_empty() {
        return Some(format);
    }
    match format {
        Format::Iptables(hook, face) => Some(Format::Iptables(hook, face)),
        Format::Nft(chain) => Some(Format::Nft(chain)),
        _ => None,
    }
}

/// The packets of a chain that come in by an interface.
fn hook_face(hook: Hook, face: FaceName) -> Option<Format>
    ensures { result ≡ hook_face hook face }
{
    match hook {
        Hook::Output => None,
        Hook::Input => Some(Format::Iptables(Hook::Input, face)),
        Hook::Forward => Some(Format::Iptables(Hook::Forward, face)),
    }
}

/// The format of a name.
fn format_named(name: &str) -> Option<Format>
    ensures { result ≡ format_in name.now }
{
    match name {
        "ip-routes" => Some(Format::IpRoutes),
        "ip-monitor" => Some(Format::IpMonitor),
        "ip-json" => Some(Format::IpJson),
        "cisco" => Some(Format::Cisco(ListName::none())),
        "fpm" => Some(Format::Fpm),
        "iptables" => Some(Format::Iptables(Hook::Input, FaceName::none())),
        "nft" => Some(Format::Nft(ChainName::input())),
        _ => None,
    }
}

/// The chain of a name.
fn hook_named(name: &str) -> Option<Hook>
    ensures { result ≡ hook_in name.now }
{
    match name {
        "INPUT" => Some(Hook::Input),
        "FORWARD" => Some(Hook::Forward),
        "OUTPUT" => Some(Hook::Output),
        _ => None,
    }
}

/// The version of IP of a digit.
fn version_named(digit: &str) -> Option<IpVersion>
    ensures { result ≡ version_in digit.now }
{
    match digit {
        "4" => Some(IpVersion::V4),
        "6" => Some(IpVersion::V6),
        _ => None,
    }
}

/// The job of words that weren't: help, or none.
fn job_of_error(error: &Error) -> Result<Asked, WordsFault>
    ensures asked { IfOk result (λ job. import_job_of_fault (kind_of error.now) ≡ asked_by job) }
    ensures usage { IsErrOf result WordsFault.Usage → import_job_of_fault (kind_of error.now) ≡ NoJob }
    ensures memory { kind_of error.now ≡ ErrorKind.OutOfMemory → result ≡ Err WordsFault.Memory }
{
    match error.kind() {
        ErrorKind::DisplayHelp => Ok(Asked::Help),
        ErrorKind::OutOfMemory => Err(WordsFault::Memory),
        _ => Err(WordsFault::Usage),
    }
}
