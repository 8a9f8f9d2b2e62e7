//! What a node takes in the list or the box that holds it, in bytes, on a machine of 64 bits.

use crate::asserted::assert_all;
use std::mem::size_of;
use syntax::tree::{Expr, ForHead, Simple, Start, Stmt};

#[test]
fn widths_of_nodes(rt: HostRuntime) {
    assert_all(
        &rt,
        &[
            ("an expression", size_of::<Expr>() == 88),
            ("a simple statement", size_of::<Simple>() == 192),
            ("a start", size_of::<Start>() == 200),
            ("a head of a loop", size_of::<ForHead>() == 496),
            ("a statement", size_of::<Stmt>() == 200),
        ],
    );
}
