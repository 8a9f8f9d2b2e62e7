//! 64 frames, each at the greatest depth, fit the stack of a program's main thread.

use crate::of_meaning::run::run;
use meaning::ThreadEnd;
use std::alloc::{AllocError, Global};
use syntax::thread_end::Trap;
use test_programs::accepted_of;

/// A function that calls itself: what stands before its levels, what opens a level, what stands inside them all, what
/// closes a level, what stands behind them, and how many levels give depth 100.
type Shape = (
    &'static str,
    &'static str,
    &'static str,
    &'static str,
    &'static str,
    u32,
);

fn shapes() -> &'static [Shape] {
    static SHAPES: [Shape; 18] = [
        ("int f(int a) { return ", "(", "f(a)", ")", "; }", 96),
        ("int f(int a) { return ", "!", "f(a)", "", "; }", 96),
        ("int f(int a) { return ", "(int)", "f(a)", "", "; }", 96),
        ("int f(int a) { return ", "", "f(a)", " + 1", "; }", 96),
        ("int f(int a) { return ", "", "f(a)", " && 1", "; }", 96),
        ("int f(int a) { return ", "0 ? 1 : ", "f(a)", "", "; }", 96),
        (
            "int g(int a) { return a; } int f(int a) { return ",
            "g(",
            "f(a)",
            ")",
            "; }",
            96,
        ),
        (
            "int x[2]; int f(int a) { __transaction_atomic { return ",
            "x[",
            "f(a)",
            "]",
            "; } }",
            94,
        ),
        (
            "int x[2]; int f(int a) { __transaction_atomic { ",
            "x[",
            "f(a)",
            "]",
            " = 1; } return 0; }",
            94,
        ),
        ("int f(int a) { ", "{", "f(a);", "}", " return a; }", 96),
        (
            "int f(int a) { ",
            "if (1) ",
            "f(a);",
            "",
            " return a; }",
            96,
        ),
        (
            "int f(int a) { ",
            "if (0) ; else ",
            "f(a);",
            "",
            " return a; }",
            96,
        ),
        (
            "int f(int a) { ",
            "while (1) ",
            "f(a);",
            "",
            " return a; }",
            96,
        ),
        (
            "int f(int a) { ",
            "do ",
            "f(a);",
            " while (1);",
            " return a; }",
            96,
        ),
        (
            "int f(int a) { ",
            "for (;;) ",
            "f(a);",
            "",
            " return a; }",
            96,
        ),
        (
            "int f(int a) { ",
            "__transaction_atomic {",
            "f(a);",
            "}",
            " return a; }",
            48,
        ),
        (
            "int f(int a) { ",
            "__transaction_relaxed {",
            "f(a);",
            "}",
            " return a; }",
            48,
        ),
        (
            "int f(int a) { return ",
            "__transaction_atomic (",
            "f(a)",
            ")",
            "; }",
            96,
        ),
    ];
    &SHAPES
}

/// Appends a text so many times.
fn push_times(text: &mut String, piece: &str, times: u32) -> Result<(), AllocError> {
    for _ in 0..times {
        text.push_str(piece)?;
    }
    Ok(())
}

/// Appends so many levels of a shape, and what stands inside them.
fn push_levels(text: &mut String, shape: &Shape, levels: u32) -> Result<(), AllocError> {
    push_times(text, shape.1, levels)?;
    text.push_str(shape.2)?;
    push_times(text, shape.3, levels)
}

/// Appends the program of a shape with so many levels.
fn push_program(text: &mut String, shape: &Shape, levels: u32) -> Result<(), AllocError> {
    text.push_str(shape.0)?;
    push_levels(text, shape, levels)?;
    text.push_str(shape.4)?;
    text.push_str(" void worker(int self) { f(0); }")
}

/// The program of a shape with so many levels.
fn program_of(alloc: Global, shape: &Shape, levels: u32) -> Result<String, AllocError> {
    let mut text = String::new(alloc);
    push_program(&mut text, shape, levels)?;
    Ok(text)
}

/// How the thread of a text ends.
fn end_of(alloc: Global, text: &str) -> Option<ThreadEnd> {
    match run(alloc, text, 0, 1, 1000000) {
        Some(outcome) => Some(outcome.end),
        None => None,
    }
}

/// How the thread of a shape with so many levels ends.
fn end_at(alloc: Global, shape: &Shape, levels: u32) -> Option<ThreadEnd> {
    match program_of(alloc, shape, levels) {
        Ok(text) => end_of(alloc, text.as_str()),
        Err(_) => None,
    }
}

/// Whether a shape with so many levels is an accepted program.
fn is_accepted_at(alloc: Global, shape: &Shape, levels: u32) -> Option<bool> {
    match program_of(alloc, shape, levels) {
        Ok(text) => Some(accepted_of(alloc, text.as_str()).is_some()),
        Err(_) => None,
    }
}

/// Whether 64 frames of a shape fit the stack, and one level more is too deep.
fn is_so(alloc: Global, shape: &Shape) -> bool {
    end_at(alloc, shape, shape.5) == Some(ThreadEnd::Trapped(Trap::Frames))
        && is_accepted_at(alloc, shape, shape.5.saturating_add(1)) == Some(false)
}

/// What stands before and opens the levels of the first shape that is not so.
fn first_other(alloc: Global, shapes: &[Shape]) -> Option<(&'static str, &'static str)> {
    for shape in shapes {
        if !is_so(alloc, shape) {
            return Some((shape.0, shape.1));
        }
    }
    None
}

#[test]
fn deep_frames_fit_the_stack(rt: HostRuntime) {
    assert_eq!(rt; first_other(rt.alloc(), shapes()), None);
}
