//! An instruction of a condition as it is made.

use bytecode::Instr;

/// An instruction of a condition, as long as it is not known where the condition leads.
#[derive(Clone, Copy)]
pub enum Draft {
    /// An instruction that is as it will be.
    Whole(Instr),

    /// A jump to where the condition holds, taken where this register is 0, or else where it is not.
    ToTrueExit(bool, u16),

    /// A jump to where the condition does not hold, taken where this register is 0, or else where it is not.
    ToFalseExit(bool, u16),
}
