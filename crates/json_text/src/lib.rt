//! The lines of a trace as text: what a report in JSON prints, line by line.
//!
//! `trace_file` reads these lines by a JSON crate, which takes memory. A report is written where none may be taken, so a
//! [`JsonLine`] is made piece by piece in fixed room. `specs/JsonText` has each line as plain text, and the law
//! [`json_lines_are_texts`] says that it is the compact text of the line's JSON value, where the text of a fault stands in
//! JSON as it is. So `trace_file` reads a line back whose numbers are within those of a trace (`lines_are_read_back`).
//! A rank and an address are written by the version of IP of the trace: of IPv4 as one number, and of IPv6 in words of 32
//! bits.
//!
//! # Decided
//! - **A line is printed whatever its numbers are**, also those that no trace of IPv4 has: a tag's number may have more
//!   bits than a `u128`, so its last digit is reckoned apart. The longest line has fewer than 384 bytes.
//! - **The text of a fault is put into quotation marks as it is.** So whoever prints one has to have a plain text
//!   (`IsPlainText`): one without control characters, quotation marks and backslashes, which stands in JSON as it is
//!   ([`plain_texts_stand`]). Escapes would take more room than a line has, for texts that no report has.
#![tactic(auto)]

mod ipv6_numbers;
mod json_line;
mod laws;

pub use json_line::JsonLine;
pub use laws::{json_lines_are_texts, plain_texts_stand};
