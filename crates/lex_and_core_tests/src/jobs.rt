//! Command lines that want files tested. In a line a bar stands between two words; what is wanted, or why nothing is,
//! stands as Rust's `{:?}` writes it.

use crate::asserted::assert_none;
use command::job;
use std::alloc::{AllocError, Global};

/// What a line wants done.
fn job_of_line(alloc: Global, line: &str) -> Result<String, AllocError> {
    let words: Vec<&str> = line.split('|').collect(alloc)?;
    match job(alloc, words.as_slice()) {
        Ok(job) => format!(in alloc; "Ok({job:?})"),
        Err(fault) => format!(in alloc; "Err({fault:?})"),
    }
}

fn rows() -> &'static [(&'static str, &'static str)] {
    static ROWS: [(&str, &str); 6] = [
        (
            "txc|test|a.c",
            r#"Ok(Test(Tests { files: ["a.c"], format: Plain, lists: false }))"#,
        ),
        (
            "txc|test|a.c|--list|-|--format|json|b.c",
            r#"Ok(Test(Tests { files: ["a.c", "-", "b.c"], format: Json, lists: true }))"#,
        ),
        (
            "txc|test|--format=github|a.c|a.c",
            r#"Ok(Test(Tests { files: ["a.c", "a.c"], format: Github, lists: false }))"#,
        ),
        (
            "txc|test|a.c|--format|short",
            r#"Err(Wrong { text: "txc: usage: --format is github or json\n" })"#,
        ),
        (
            "txc|listing|a.c",
            r#"Ok(Serve(Asked { request: Program { file: "a.c", verbose: false, format: Plain, task: Listing }, definitions: [] }))"#,
        ),
        (
            "txc|run|a.c|--threads|65",
            r#"Err(Wrong { text: "txc: usage: --threads is 1 to 64\n" })"#,
        ),
    ];
    &ROWS
}

/// The first line that wants something else than its row says.
fn wants_otherwise(alloc: Global) -> Option<&'static str> {
    for (line, wanted) in rows() {
        match job_of_line(alloc, *line) {
            Ok(found) if found.as_str() == *wanted => {}
            _ => return Some(*line),
        }
    }
    None
}

#[test]
fn reads_jobs(rt: HostRuntime) {
    assert_none(&rt, wants_otherwise(rt.alloc()));
}

/// Whether a line is refused as wrong words, without a file or with an option that `test` does not have.
fn is_wrong(alloc: Global, line: &str) -> bool {
    match job_of_line(alloc, line) {
        Ok(found) => found.as_str().starts_with("Err(Wrong"),
        Err(AllocError) => false,
    }
}

#[test]
fn refuses_other_words(rt: HostRuntime) {
    let lines = ["txc|test", "txc|test|a.c|--threads|2", "txc|tests|a.c"];
    for line in lines {
        assert!(rt; is_wrong(rt.alloc(), line));
    }
}
