//! Why a memory shows no stage of a commit, for C.

ghost use Rattle.tcam_c.specs.Restart.{IsStageTold};

use crate::plain::{NO_TAG, TcamTag, field_number, tag_of};
use readback::StageFault;

/// Why a memory shows no stage of a commit, by its kind, and where. What the kind doesn't name is 0.
#[repr(C)]
#[derive(Clone, Copy)]
pub struct TcamRestartFault {
    pub kind: u32,
    pub slot: u32,
    pub field: u32,
    pub port: u32,
    pub tag: TcamTag,
}

const NO_STAGE_FAULT: TcamRestartFault = TcamRestartFault {
    kind: 0,
    slot: 0,
    field: 0,
    port: 0,
    tag: NO_TAG,
};

/// A fault, for C.
pub(crate) fn stage_told(fault: &StageFault) -> TcamRestartFault
    ensures { IsStageTold fault.now result }
{
    match *fault {
        StageFault::BitsDiffer(field) => TcamRestartFault {
            kind: 1,
            field: field_number(field),
            ..NO_STAGE_FAULT
        },
        StageFault::Word { field, port } => TcamRestartFault {
            kind: 2,
            field: field_number(field),
            port: u32::from(port),
            ..NO_STAGE_FAULT
        },
        StageFault::Foreign { slot } => TcamRestartFault {
            kind: 3,
            slot,
            ..NO_STAGE_FAULT
        },
        StageFault::Crossed { slot } => TcamRestartFault {
            kind: 4,
            slot,
            ..NO_STAGE_FAULT
        },
        StageFault::Twin { slot } => TcamRestartFault {
            kind: 5,
            slot,
            ..NO_STAGE_FAULT
        },
        StageFault::Gap { priority } => TcamRestartFault {
            kind: 6,
            tag: tag_of(priority),
            ..NO_STAGE_FAULT
        },
        StageFault::Memory => NO_STAGE_FAULT,
    }
}
