//! Why a world is not opened, and why a step is not made.

ghost use Rattle.std.specs.Prelude.{◌≡◌};
ghost use Rattle.world.specs.Stops.{number_of, reason_number};

use thiserror::Error;

/// Why a world was not opened.
#[derive(Clone, Copy, PartialEq, Eq, Debug, Error)]
pub enum WorldFault {
    /// A growth was refused.
    #[error("out of memory")]
    OutOfMemory,
    /// There are to be 1 to 64 threads.
    #[error("wrong number of threads")]
    WrongThreads,
}

impl WorldFault {
    /// The fault's number: 0 or 72.
    pub fn number(self) -> u32
        ensures { result ≡ number_of self }
    {
        match self {
            WorldFault::OutOfMemory => 0,
            WorldFault::WrongThreads => 72,
        }
    }
}

/// Why a list of steps was not made to its end.
#[derive(Clone, Copy, PartialEq, Eq, Debug, Error)]
pub enum StopReason {
    /// The memory that the step wants was refused.
    #[error("out of memory")]
    OutOfMemory,
    /// The step would swap the lock from its last even value, 2 ^ 64 - 2.
    #[error("sequence used up")]
    SequenceUsedUp,
    /// The step is of a thread that the world has not got.
    #[error("stranger thread")]
    Stranger,
}

impl StopReason {
    /// The fault's number: 0, 70 or 71.
    pub fn number(self) -> u32
        ensures { result ≡ reason_number self }
    {
        match self {
            StopReason::OutOfMemory => 0,
            StopReason::SequenceUsedUp => 70,
            StopReason::Stranger => 71,
        }
    }
}

/// The step of a list that was not made: how many were made before it, and why.
#[derive(Clone, Copy, PartialEq, Eq, Debug, Error)]
#[error("{reason} at step {step}")]
pub struct WorldStop {
    pub step: u64,
    pub reason: StopReason,
}

impl WorldStop {
    /// The fault's number: that of its reason.
    pub fn number(self) -> u32
        ensures { result ≡ reason_number self.reason }
    {
        self.reason.number()
    }
}
