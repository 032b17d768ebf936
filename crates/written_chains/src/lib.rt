//! Chains of rules, written out as one list: jumps and returns are gone, and each packet gets the same answer.
//!
//! A packet walks a chain's rules in their order. The first one whose tests hold and that decides is its answer; a jump has
//! it walk another chain, and where it comes back, by a rule that returns or at the end, it goes on behind the jump. A list
//! has no jumps: the first line whose tests hold is the answer.
//!
//!     chain 0: jump 1 where dst is 10.0.0.0/8         permit, src 192.0.2.0/24, dst 10.0.0.0/8, tcp
//!              deny                                   deny, src 192.0.2.0/24, dst 10.0.0.0/8
//!     chain 1: return where src is 192.0.2.0/24       ..
//!     ..
//!
//! A chain is written out from its last rule to its first, so that behind each jump the lines of what follows are there.
//! The lines of the other chain are narrowed to the tests of the jump; and where one of them leaves that chain, the lines of
//! what follows the jump, narrowed to what it holds, stand before it. So a line may leave its chain as a rule may, and no
//! packet passes it.
//!
//! # Decided
//! - **Each rule tests one block of each field.** A line of a firewall that tests several is several rules with one target:
//!   a packet that comes back from a chain comes back from it each time.
//! - **A list has a most number of lines**, and jumps a most depth: behind them the chains aren't written out, and it is said
//!   why. Jumps in a circle are too deep.
//! - **The lines of the chain to which the last rule led are kept**: a line of a firewall that is several rules jumps to the
//!   same chain as often, one rule beside the other, and would have it written out anew for each. Rules that lead by turns to
//!   two chains have both written out each time, so the time may still grow with the ways through nested jumps.
//! - **A law says that a list answers as the walk does** (`lists_answer_as_walks`), for each packet.
#![tactic(auto)]

mod laws;
mod meets;
mod writing;

pub use laws::lists_answer_as_walks;
pub use meets::{Tests, meet};
pub use writing::{ChainRule, Line, Refused, Target, written_out};
