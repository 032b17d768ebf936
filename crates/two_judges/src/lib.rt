//! Two judges in one: by the order of tcam's own commits as long as a trace keeps it, and then by packets.
//!
//! A [`DriverJudge`] takes the lines of any driver's trace. As long as a trace keeps the order of our own commits a checker of
//! traces takes each line (`trace_check`), and then the line is hitless by that order alone, in the time of some walks over
//! columns (`readback`, whose stages answer old or new): no packet is looked at. From the first line on that breaks this
//! order packets are judged (`line_judge`), of this line too, by what was known before it. So a trace that keeps the order costs
//! about as much as its check, and any other one what the packets cost.
//!
//! # Decided
//! - **What breaks the order once is judged by packets from there on**: a checker that doesn't take a line is spent, and a driver that
//!   has another order has it in each commit.
//! - **Both judges know the trace**, each in its own way: its set, the commands and the device are kept twice.
#![tactic(auto)]

mod judge;

pub use judge::DriverJudge;
