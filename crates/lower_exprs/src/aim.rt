//! Where an assignment goes, as it is found out.

use selection::locations::AssignmentTarget;

/// Where an assignment goes, and the place behind the instructions that find it out.
#[derive(Clone, Copy)]
pub(crate) struct Aim {
    pub(crate) target: AssignmentTarget,
    pub(crate) to: u32,
}
