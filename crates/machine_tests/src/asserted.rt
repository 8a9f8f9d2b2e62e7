//! What tests assert. The assertions stand here alone: each takes a proof of what it prints.

use std::process::Abort;

/// Asserts that each of these holds, and names one that does not.
pub fn assert_all(rt: &impl Abort, rows: &[(&str, bool)]) {
    for (what, holds) in rows {
        assert!(rt; *holds, "{what}");
    }
}

/// Asserts that something holds.
pub fn assert_that(rt: &impl Abort, holds: bool) {
    assert!(rt; holds);
}

/// Asserts that there is none that is otherwise than it should be.
pub fn assert_none(rt: &impl Abort, other: Option<&str>) {
    assert_eq!(rt; other, None);
}

/// Asserts that no row of a table is otherwise than it should be: this is the number, from 0, of the first one that is.
pub fn assert_no_row(rt: &impl Abort, wrong: Option<usize>) {
    assert_eq!(rt; wrong, None);
}
