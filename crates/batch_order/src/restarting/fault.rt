//! Why no manager is rebuilt.

use readback::{Rejection, StageFault};
use thiserror::Error;

/// Why no manager could be rebuilt. The device is as it was, and the parts are handed back as they came.
#[derive(Clone, Copy, Debug, PartialEq, Eq, Error)]
pub enum RestartFault {
    /// The batch isn't one that the set takes.
    #[error("the batch is refused: {0}")]
    Refused(Rejection),
    /// The device shows no stage of the batch's commit, or memory is wanting.
    #[error("{0}")]
    Stage(StageFault),
}
