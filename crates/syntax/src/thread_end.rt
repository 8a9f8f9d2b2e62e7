//! Why threads trap, the status of a thread of the machine, and why a thread of the source halts.

ghost use Rattle.std.specs.Prelude.{◌≡◌};
ghost use Rattle.syntax.specs.Numbers.{trap_number};

/// Why a thread traps.
#[derive(Clone, Copy, PartialEq, Eq)]
pub enum Trap {
    /// A signed result that is out of its type's range.
    OutOfRange,
    /// A division by 0.
    ZeroDivisor,
    /// An index that is negative, or not below its array's length.
    Index,
    /// A call while 64 frames are live.
    Frames,
    /// A shift count outside 0 to 31, or outside 0 to 63 if a `long long` is shifted.
    ShiftCount,
}

impl Trap {
    /// The trap's number, as reports print it: 1 to 5.
    pub fn number(self) -> u32
        ensures { result ≡ trap_number self }
    {
        match self {
            Trap::OutOfRange => 1,
            Trap::ZeroDivisor => 2,
            Trap::Index => 3,
            Trap::Frames => 4,
            Trap::ShiftCount => 5,
        }
    }
}

/// The status of a thread of the machine.
#[derive(Clone, Copy, PartialEq, Eq)]
pub enum Status {
    /// The thread is running.
    Running,
    /// The thread has terminated.
    Ended,
    /// The thread has trapped.
    Trapped(Trap),
}

/// Why a thread halts.
#[derive(Clone, Copy, PartialEq, Eq)]
pub enum Halt {
    /// The thread has trapped.
    Trapped(Trap),
    /// The thread is at an outermost transaction, and there is no further memory for it.
    Wants,
    /// The thread is out of fuel: it has no tick left for its next step.
    Spent,
    /// The thread has gone wrong: something that it needs is missing. This never happens in an accepted program.
    Astray,
}
