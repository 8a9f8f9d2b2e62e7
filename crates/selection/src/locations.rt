//! Where values lie, and where control goes.

use lex::token::Scalar;

/// Where a value lies: its register, its type, and the place behind the instructions that give it.
#[derive(Clone, Copy)]
pub struct ValueRegister {
    pub register: u16,
    pub ty: Scalar,
    pub to: u32,
}

/// A value that is tested: its register, whether the condition holds where it is 0, and the place behind its
/// instructions.
#[derive(Clone, Copy)]
pub struct ConditionRegister {
    pub register: u16,
    pub at_zero: bool,
    pub to: u32,
}

/// Where an assignment goes.
#[derive(Clone, Copy)]
pub enum AssignmentTarget {
    /// A local's register.
    Local(u16, Scalar),

    /// A cell.
    Cell(u32, Scalar),

    /// An element: the register of its index, the array's first cell and its length.
    Element(u16, u32, u32, Scalar),

    /// Nowhere: what stands on the left is neither a variable nor an element. No typed program has it.
    Nowhere,
}

/// Where a break and a continue lead, how many transactions are open in the loop and in the function, and the type of
/// what the function returns.
#[derive(Clone, Copy)]
pub struct Exits {
    pub break_to: u32,
    pub continue_to: u32,
    pub in_loop: u32,
    pub in_function: u32,
    /// How many transactions are open from the innermost outer one on, it too; 0 where there is none.
    pub to_outer: u32,
    pub gives: Scalar,
}
