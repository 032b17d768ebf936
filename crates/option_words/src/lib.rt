//! The options of runs over scripts, for each command line that has them: what `clap` is to take, and what its answer says.
//!
//!     --slots N            how many slots are in use, 1 to 4096, or to 1048576 with --large
//!     --ranges WORD        how port ranges are tested: cover or bits
//!     --placement WORD     where insertions aim: middle, rank or ends
//!     --trace              a line for each write
//!     --large              larger tables, batches and scripts
//!
//! An option's definition (`specs/Options`) is what `clap` is told, and its reading a function of the rows that `clap`
//! answers. Where `clap` finds no fault, a number is in its range whatever the other arguments are: `proofs/ArgumentRows`
//! and `proofs/TakenRows` show it over any arguments that keep a property of the rows, so that one more number is a few
//! lines of the crate that declares it.
//!
//! # Decided
//! - **`clap` takes any word behind `--ranges` and `--placement`**, and the program says which ones are names: a list of
//!   names in `clap`'s declaration is a reference, and no definition can name the place in memory that it refers to.
//! - **Each number is read again, in its range** (`number_of`), where `clap` has tested it. Where `--large` may stand, `clap`
//!   takes the larger range of `--slots`, and which one holds is said by what words ask for (`slots_given`): a range of
//!   `clap`'s hangs on no other argument.
#![tactic(auto)]

ghost use Rattle.std.specs.Prelude.{◌≡◌, ◌≤◌, false, IfSome};
ghost use Rattle.clap.specs.Words.{rule_of, rows_of, found_of};
ghost use Rattle.option_words.specs.Options.{mode_in, number_position, number_within, placement_in, placement_option, ranges_option, slots_option, text_of as text_in, trace_flag, large_flag};

pub use batch_order::Placement;
use clap::builder::ValueParser;
use clap::{Arg, ArgAction, ArgMatches};
pub use rule_store::Mode;
use std::alloc::Global;

/// Why words ask for nothing.
#[derive(Clone, Copy, Debug, PartialEq, Eq)]
pub enum WordsFault {
    /// They are no command line.
    Usage,
    /// Want of memory.
    Memory,
}

/// How many slots are in use, of so many at most.
pub fn slots_arg<'a>(alloc: Global, most: u32) -> Arg<'a>
    ensures rule { rule_of result ≡ slots_option most }
    ensures global { result.global ≡ false }
{
    Arg::new(alloc, "slots")
        .long("slots")
        .action(ArgAction::Set)
        .value_parser(ValueParser::unsigned(1, u64::from(most)))
        .default_value("4096")
}

/// How port ranges are tested.
pub fn ranges_arg<'a>(alloc: Global) -> Arg<'a>
    ensures rule { rule_of result ≡ ranges_option }
    ensures global { result.global ≡ false }
{
    Arg::new(alloc, "ranges")
        .long("ranges")
        .action(ArgAction::Set)
        .default_value("cover")
}

/// Where an insertion aims.
pub fn placement_arg<'a>(alloc: Global) -> Arg<'a>
    ensures rule { rule_of result ≡ placement_option }
    ensures global { result.global ≡ false }
{
    Arg::new(alloc, "placement")
        .long("placement")
        .action(ArgAction::Set)
        .default_value("middle")
}

/// Whether each device write has its line.
pub fn trace_arg<'a>(alloc: Global) -> Arg<'a>
    ensures rule { rule_of result ≡ trace_flag }
    ensures global { result.global ≡ false }
{
    Arg::new(alloc, "trace")
        .long("trace")
        .action(ArgAction::SetTrue)
}

/// Whether tables, batches and scripts may have the large sizes.
pub fn large_arg<'a>(alloc: Global) -> Arg<'a>
    ensures rule { rule_of result ≡ large_flag }
    ensures global { result.global ≡ false }
{
    Arg::new(alloc, "large")
        .long("large")
        .action(ArgAction::SetTrue)
}

/// A required number in a range, which stands behind the subcommand in its order.
pub fn number_arg<'a>(alloc: Global, name: &'a str, least: u64, greatest: u64) -> Arg<'a>
    ensures rule { rule_of result ≡ number_position name.entry.now least greatest }
    ensures global { result.global ≡ false }
{
    Arg::new(alloc, name)
        .required(true)
        .action(ArgAction::Set)
        .value_parser(ValueParser::unsigned(least, greatest))
}

/// The text that an argument was given, or has by default.
pub fn text_of<'a>(found: &ArgMatches<'a>, id: &str) -> &'a str
    ensures { result.now ≡ text_in id.now (rows_of (found_of found.now)) }
{
    found.get_str(id).unwrap_or("")
}

/// A mode from its word, if it names one.
pub fn mode_named(text: &str) -> Option<Mode>
    ensures { result ≡ mode_in text.now }
{
    match text {
        "cover" => Some(Mode::Cover),
        "bits" => Some(Mode::Bits),
        _ => None,
    }
}

/// A placement from its word, if it names one.
pub fn placement_of(text: &str) -> Option<Placement>
    ensures { result ≡ placement_in text.now }
{
    match text {
        "middle" => Some(Placement::Middle),
        "rank" => Some(Placement::Rank),
        "ends" => Some(Placement::Ends),
        _ => None,
    }
}

/// A number in a range from its text, if it is one.
pub fn number_of(text: &str, least: u32, greatest: u32) -> Option<u32>
    ensures number { result ≡ number_within least greatest text.now }
    ensures range { IfSome result (λ n. (least ≤ n) × (n ≤ greatest)) }
{
    match text.parse::<u32>() {
        Ok(number) if least <= number && number <= greatest => Some(number),
        _ => None,
    }
}
