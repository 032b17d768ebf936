//! The command line of importers, `tcam import FORMAT`, and its top call.
//!
//! [`run_import`] reads its words (`asked`), and has what the source gives imported by the format that they name. What is
//! promised of an import is `import_lines`', what a line of a format comes to is that format's.
//!
//! # Decided
//! - **A format is a word and not a subcommand**, and all formats have the same options: an option that a format has no use
//!   for is no command line, as `--list` or `--chain` of one of routes.
//! - **The name of a list, of a chain or of an interface is a part of its format**, in fixed room, so that who reads a command
//!   line needs no memory for it.
//! - **`--version` says which version of IP the input is of**, 4 by default: a line of routes doesn't always show it, as that
//!   of `default` alone.
#![tactic(auto)]

mod asked;
mod chain_name;
mod list_name;
mod texts;
mod top;

pub use asked::{Asked, Format, read_words};
pub use chain_name::ChainName;
pub use iptables::FaceName;
pub use list_name::ListName;
pub use option_words::WordsFault;
pub use top::run_import;
