//! What tests assert. The assertions stand here alone: each takes a proof of what it prints.

use std::process::Abort;

/// Asserts that something holds.
pub fn assert_that(rt: &impl Abort, holds: bool) {
    assert!(rt; holds);
}
