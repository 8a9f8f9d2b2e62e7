//! Command lines, and what they ask. In a line a bar stands between two words; what is asked, or why nothing is, stands
//! as Rust's `{:?}` writes it.

use crate::asserted::{assert_none, assert_that};
use command::command;
use std::alloc::{AllocError, Global};

/// What words ask.
fn request_of_words(alloc: Global, words: &[&str]) -> Result<String, AllocError> {
    match command(alloc, words) {
        Ok(asked) if asked.definitions.is_empty() => {
            format!(in alloc; "Ok({:?})", asked.request)
        }
        Ok(asked) => format!(in alloc; "Ok({:?}, {:?})", asked.definitions, asked.request),
        Err(fault) => format!(in alloc; "Err({fault:?})"),
    }
}

/// What a line asks.
fn request_of_line(alloc: Global, line: &str) -> Result<String, AllocError> {
    let words: Vec<&str> = line.split('|').collect(alloc)?;
    request_of_words(alloc, words.as_slice())
}

/// Whether this is what a line asks.
pub(crate) fn asks(alloc: Global, line: &str, wanted: &[u8]) -> bool {
    match request_of_line(alloc, line) {
        Ok(found) => found.as_bytes() == wanted,
        Err(_) => false,
    }
}

/// A line, and the bytes of what it asks.
pub(crate) type Row = (&'static str, &'static [u8]);

/// The first of these lines that asks something else than what stands beside it.
pub(crate) fn ask_otherwise(alloc: Global, rows: &[Row]) -> Option<&'static str> {
    for (line, wanted) in rows {
        if !asks(alloc, line, wanted) {
            return Some(*line);
        }
    }
    None
}

fn runs() -> &'static [Row] {
    static ROWS: [Row; 3] = [
        (
            "txc|run|a.c",
            br#"Ok(Program { file: "a.c", verbose: false, format: Plain, task: Run { threads: 1, budget: 4294967295, counts: false, memory: 4294967295 } })"#,
        ),
        (
            "txc|run|--threads|64|--budget=0|a.c",
            br#"Ok(Program { file: "a.c", verbose: false, format: Plain, task: Run { threads: 64, budget: 0, counts: false, memory: 4294967295 } })"#,
        ),
        (
            "txc|run|a.c|--counts|--format|short",
            br#"Ok(Program { file: "a.c", verbose: false, format: Short, task: Run { threads: 1, budget: 4294967295, counts: true, memory: 4294967295 } })"#,
        ),
    ];
    &ROWS
}

#[test]
fn reads_runs(rt: HostRuntime) {
    assert_none(&rt, ask_otherwise(rt.alloc(), runs()));
}

/// Whether a run of so many threads is asked for, which takes no more memory than there is.
fn asks_for_threads(alloc: Global, threads: u32) -> bool {
    match format!(in alloc; "txc|run|a.c|--threads|{threads}") {
        Ok(line) => has(alloc, line.as_str(), "Ok(Program {", "Run { threads: "),
        Err(_) => false,
    }
}

/// The first number of threads for which no run is asked.
fn threads_not_asked_for(alloc: Global) -> Option<u32> {
    for threads in 1..65 {
        if !asks_for_threads(alloc, threads) {
            return Some(threads);
        }
    }
    None
}

#[test]
fn takes_each_number_of_threads(rt: HostRuntime) {
    assert_that(&rt, threads_not_asked_for(rt.alloc()).is_none());
}

fn words() -> &'static [Row] {
    static ROWS: [Row; 7] = [
        (
            "txc|check|a.c|--format=json",
            br#"Ok(Program { file: "a.c", verbose: false, format: Json, task: Check(CheckOptions { warns: false, all: false }) })"#,
        ),
        (
            "txc|listing|a.c",
            br#"Ok(Program { file: "a.c", verbose: false, format: Plain, task: Listing })"#,
        ),
        (
            "txc|check|--verbose|b.c",
            br#"Ok(Program { file: "b.c", verbose: true, format: Plain, task: Check(CheckOptions { warns: false, all: false }) })"#,
        ),
        ("txc|explain|40", b"Ok(Explain { number: 40 })"),
        (
            "txc|explain|4294967296",
            br#"Ok(ExplainEnd { word: "4294967296", number: None })"#,
        ),
        (
            "txc|explain|waits",
            br#"Ok(ExplainEnd { word: "waits", number: None })"#,
        ),
        (
            "txc|explain|trap|3",
            br#"Ok(ExplainEnd { word: "trap", number: Some(3) })"#,
        ),
    ];
    &ROWS
}

#[test]
fn reads_words(rt: HostRuntime) {
    assert_none(&rt, ask_otherwise(rt.alloc(), words()));
}

fn orders() -> &'static [Row] {
    static ROWS: [Row; 12] = [
        (
            "txc|explore|a.c",
            br#"Ok(Program { file: "a.c", verbose: false, format: Plain, task: Explore { threads: 2, order: [], always: None } })"#,
        ),
        (
            "txc|explore|--threads|3|a.c|--order|0,2|--always|p,q",
            br#"Ok(Program { file: "a.c", verbose: false, format: Plain, task: Explore { threads: 3, order: [0, 2], always: Some("p,q") } })"#,
        ),
        (
            "txc|explore|a.c|--order|0,",
            br#"Err(Wrong { text: "txc: usage: bad --order\n" })"#,
        ),
        (
            "txc|trace|--order|0,1|a.c",
            br#"Ok(Program { file: "a.c", verbose: false, format: Plain, task: Trace { threads: 2, order: [0, 1], property: None, in_full: false } })"#,
        ),
        (
            "txc|trace|a.c|--threads=3|--order=|--property|p|--verbose",
            br#"Ok(Program { file: "a.c", verbose: true, format: Plain, task: Trace { threads: 3, order: [], property: Some("p"), in_full: false } })"#,
        ),
        (
            "txc|trace|--full|a.c|--order=1",
            br#"Ok(Program { file: "a.c", verbose: false, format: Plain, task: Trace { threads: 2, order: [1], property: None, in_full: true } })"#,
        ),
        (
            "txc|source|--order||--threads|2|a.c",
            br#"Ok(Program { file: "a.c", verbose: false, format: Plain, task: Source { threads: 2, order: [], ticks: 100000 } })"#,
        ),
        (
            "txc|source|--order|0|--threads|2|a.c",
            br#"Ok(Program { file: "a.c", verbose: false, format: Plain, task: Source { threads: 2, order: [0], ticks: 100000 } })"#,
        ),
        (
            "txc|source|--order|0,1,0|--threads|2|a.c",
            br#"Ok(Program { file: "a.c", verbose: false, format: Plain, task: Source { threads: 2, order: [0, 1, 0], ticks: 100000 } })"#,
        ),
        (
            "txc|source|--order|4294967295,007|--threads|2|a.c",
            br#"Ok(Program { file: "a.c", verbose: false, format: Plain, task: Source { threads: 2, order: [4294967295, 7], ticks: 100000 } })"#,
        ),
        // a thread that there is not is no matter of the words
        (
            "txc|source|--order|2|--threads|2|a.c",
            br#"Ok(Program { file: "a.c", verbose: false, format: Plain, task: Source { threads: 2, order: [2], ticks: 100000 } })"#,
        ),
        (
            "txc|source|--ticks=0|--threads=64|--order=1|a.c|--verbose",
            br#"Ok(Program { file: "a.c", verbose: true, format: Plain, task: Source { threads: 64, order: [1], ticks: 0 } })"#,
        ),
    ];
    &ROWS
}

#[test]
fn reads_orders(rt: HostRuntime) {
    assert_none(&rt, ask_otherwise(rt.alloc(), orders()));
}

fn outcomes() -> &'static [Row] {
    static ROWS: [Row; 14] = [
        (
            "txc|outcomes|a.c",
            br#"Ok(Program { file: "a.c", verbose: false, format: Plain, task: Outcomes { threads: ThreadRange { first: 2, last: 2 }, steps: 1000000, limit: 1000000, memory: 1024, time: None, traces: false } })"#,
        ),
        (
            "txc|outcomes|--threads=64|--steps=4294967295|--limit=4294967295|a.c|--verbose",
            br#"Ok(Program { file: "a.c", verbose: true, format: Plain, task: Outcomes { threads: ThreadRange { first: 64, last: 64 }, steps: 4294967295, limit: 4294967295, memory: 1024, time: None, traces: false } })"#,
        ),
        (
            "txc|outcomes|a.c|--limit|0|--steps|0|--threads|2",
            br#"Ok(Program { file: "a.c", verbose: false, format: Plain, task: Outcomes { threads: ThreadRange { first: 2, last: 2 }, steps: 0, limit: 0, memory: 1024, time: None, traces: false } })"#,
        ),
        (
            "txc|outcomes|--trace|a.c|--format=json",
            br#"Ok(Program { file: "a.c", verbose: false, format: Json, task: Outcomes { threads: ThreadRange { first: 2, last: 2 }, steps: 1000000, limit: 1000000, memory: 1024, time: None, traces: true } })"#,
        ),
        (
            "txc|outcomes|--threads=0|a.c",
            br#"Err(Wrong { text: "txc: usage: --threads is 1 to 64\n" })"#,
        ),
        (
            "txc|outcomes|--threads=65|a.c",
            br#"Err(Wrong { text: "txc: usage: --threads is 1 to 64\n" })"#,
        ),
        (
            "txc|outcomes|--steps=4294967296|a.c",
            br#"Err(Wrong { text: "txc: usage: --steps is 0 to 4294967295\n" })"#,
        ),
        // the first value that is wrong is told
        (
            "txc|outcomes|--steps=4294967296|--threads=0|a.c",
            br#"Err(Wrong { text: "txc: usage: --threads is 1 to 64\n" })"#,
        ),
        (
            "txc|outcomes|--memory=4294967296|a.c",
            br#"Err(Wrong { text: "txc: usage: --memory is 0 to 4294967295\n" })"#,
        ),
        (
            "txc|outcomes|--memory|0|a.c",
            br#"Ok(Program { file: "a.c", verbose: false, format: Plain, task: Outcomes { threads: ThreadRange { first: 2, last: 2 }, steps: 1000000, limit: 1000000, memory: 0, time: None, traces: false } })"#,
        ),
        (
            "txc|outcomes|--time=4294967295|a.c",
            br#"Ok(Program { file: "a.c", verbose: false, format: Plain, task: Outcomes { threads: ThreadRange { first: 2, last: 2 }, steps: 1000000, limit: 1000000, memory: 1024, time: Some(4294967295), traces: false } })"#,
        ),
        (
            "txc|outcomes|--time|0|--always|p|a.c",
            br#"Ok(Ask { file: "a.c", verbose: false, format: Plain, questions: Questions { threads: ThreadRange { first: 2, last: 2 }, steps: 1000000, limit: 1000000, memory: 1024, time: Some(0), always: Some("p"), last: None, keeps_going: false, traces: false } })"#,
        ),
        (
            "txc|outcomes|--time=1s|a.c",
            br#"Err(Wrong { text: "txc: usage: --time is 0 to 4294967295\n" })"#,
        ),
        (
            "txc|outcomes|--limit=4294967295|--steps=7|a.c",
            br#"Ok(Program { file: "a.c", verbose: false, format: Plain, task: Outcomes { threads: ThreadRange { first: 2, last: 2 }, steps: 7, limit: 4294967295, memory: 1024, time: None, traces: false } })"#,
        ),
    ];
    &ROWS
}

#[test]
fn reads_outcomes(rt: HostRuntime) {
    assert_none(&rt, ask_otherwise(rt.alloc(), outcomes()));
}

/// Orders that the program itself refuses.
fn refused_orders() -> &'static [Row] {
    static ROWS: [Row; 13] = [
        (
            "txc|trace|--order=a|a.c",
            br#"Err(Wrong { text: "txc: usage: bad --order\n" })"#,
        ),
        (
            "txc|source|--order=0,,1|a.c",
            br#"Err(Wrong { text: "txc: usage: bad --order\n" })"#,
        ),
        (
            "txc|source|--order=,|a.c",
            br#"Err(Wrong { text: "txc: usage: bad --order\n" })"#,
        ),
        (
            "txc|source|--order=0,|a.c",
            br#"Err(Wrong { text: "txc: usage: bad --order\n" })"#,
        ),
        (
            "txc|source|--order=+1|a.c",
            br#"Err(Wrong { text: "txc: usage: bad --order\n" })"#,
        ),
        (
            "txc|source|--order=-1|a.c",
            br#"Err(Wrong { text: "txc: usage: bad --order\n" })"#,
        ),
        (
            "txc|source|--order=1 |a.c",
            br#"Err(Wrong { text: "txc: usage: bad --order\n" })"#,
        ),
        (
            "txc|source|--order=a|a.c",
            br#"Err(Wrong { text: "txc: usage: bad --order\n" })"#,
        ),
        (
            "txc|source|--order=4294967296|a.c",
            br#"Err(Wrong { text: "txc: usage: bad --order\n" })"#,
        ),
        (
            "txc|source|--order=a|a.c|--verbose",
            br#"Err(Wrong { text: "txc: usage: bad --order\nan order is thread numbers joined by commas, as 0,1,0\n" })"#,
        ),
        (
            "txc|source|--threads=0|--order=0|a.c",
            br#"Err(Wrong { text: "txc: usage: --threads is 1 to 64\n" })"#,
        ),
        (
            "txc|source|--threads=65|--order=0|a.c",
            br#"Err(Wrong { text: "txc: usage: --threads is 1 to 64\n" })"#,
        ),
        (
            "txc|source|--ticks=1000001|--order=0|a.c",
            br#"Err(Wrong { text: "txc: usage: --ticks is 0 to 1000000\n" })"#,
        ),
    ];
    &ROWS
}

#[test]
fn refuses_orders(rt: HostRuntime) {
    assert_none(&rt, ask_otherwise(rt.alloc(), refused_orders()));
}

/// Numbers that are none, too large or out of their range, and other values that are no such.
fn refused_values() -> &'static [Row] {
    static ROWS: [Row; 10] = [
        (
            "txc|run|a.c|--threads=4294967296",
            br#"Err(Wrong { text: "txc: usage: --threads is 1 to 64\n" })"#,
        ),
        (
            "txc|run|a.c|--threads=-1",
            br#"Err(Wrong { text: "txc: usage: --threads is 1 to 64\n" })"#,
        ),
        (
            "txc|run|a.c|--threads=four",
            br#"Err(Wrong { text: "txc: usage: --threads is 1 to 64\n" })"#,
        ),
        (
            "txc|run|a.c|--budget=99999999999999999999",
            br#"Err(Wrong { text: "txc: usage: --budget is 0 to 4294967295\n" })"#,
        ),
        (
            "txc|replay|a.c|--seed=4294967296",
            br#"Err(Wrong { text: "txc: usage: --seed is 0 to 4294967295\n" })"#,
        ),
        (
            "txc|outcomes|a.c|--limit=4294967296",
            br#"Err(Wrong { text: "txc: usage: --limit is 0 to 4294967295\n" })"#,
        ),
        (
            "txc|source|a.c|--order=0|--ticks=",
            br#"Err(Wrong { text: "txc: usage: --ticks is 0 to 1000000\n" })"#,
        ),
        (
            "txc|explain|20|7",
            br#"Err(Wrong { text: "txc: usage: a fault has one number\n" })"#,
        ),
        (
            "txc|explain|trap|x",
            br#"Err(Wrong { text: "txc: usage: no trap has this number\n" })"#,
        ),
        (
            "txc|check|a.c|--format=long",
            br#"Err(Wrong { text: "txc: usage: --format is short, json or github\n" })"#,
        ),
    ];
    &ROWS
}

#[test]
fn refuses_values(rt: HostRuntime) {
    assert_none(&rt, ask_otherwise(rt.alloc(), refused_values()));
}

/// Replays, and where their steps come from.
fn replays() -> &'static [Row] {
    static ROWS: [Row; 6] = [
        (
            "txc|replay|--picture|--schedule=s|a.c",
            br#"Ok(Program { file: "a.c", verbose: false, format: Plain, task: Picture { threads: 1, from: 0, steps: Schedule { file: "s" } } })"#,
        ),
        (
            "txc|replay|a.c|--schedule|s.txt",
            br#"Ok(Program { file: "a.c", verbose: false, format: Plain, task: Replay { threads: 1, steps: Schedule { file: "s.txt" } } })"#,
        ),
        // with a schedule the number of steps has no effect
        (
            "txc|replay|--steps=5|--schedule=s|a.c",
            br#"Ok(Program { file: "a.c", verbose: false, format: Plain, task: Replay { threads: 1, steps: Schedule { file: "s" } } })"#,
        ),
        (
            "txc|replay|--schedule=s|--timeline|a.c",
            br#"Ok(Program { file: "a.c", verbose: false, format: Plain, task: Timeline { threads: 1, steps: Schedule { file: "s" } } })"#,
        ),
        // one of the files is standard input
        (
            "txc|replay|--schedule=-|a.c",
            br#"Ok(Program { file: "a.c", verbose: false, format: Plain, task: Replay { threads: 1, steps: Schedule { file: "-" } } })"#,
        ),
        (
            "txc|replay|-|--schedule=s",
            br#"Ok(Program { file: "-", verbose: false, format: Plain, task: Replay { threads: 1, steps: Schedule { file: "s" } } })"#,
        ),
    ];
    &ROWS
}

#[test]
fn reads_replays(rt: HostRuntime) {
    assert_none(&rt, ask_otherwise(rt.alloc(), replays()));
}

/// Pictures from an access on.
fn pictures() -> &'static [Row] {
    static ROWS: [Row; 9] = [
        (
            "txc|replay|--picture|--from=0|--schedule=s|a.c",
            br#"Ok(Program { file: "a.c", verbose: false, format: Plain, task: Picture { threads: 1, from: 0, steps: Schedule { file: "s" } } })"#,
        ),
        (
            "txc|replay|--from|401|--picture|--seed=1|a.c",
            br#"Ok(Program { file: "a.c", verbose: false, format: Plain, task: Picture { threads: 1, from: 401, steps: Seed { seed: 1, count: 100000 } } })"#,
        ),
        (
            "txc|replay|--picture|--from=1048576|--order=0|a.c",
            br#"Ok(Program { file: "a.c", verbose: false, format: Plain, task: Picture { threads: 1, from: 1048576, steps: Order { order: [0] } } })"#,
        ),
        (
            "txc|replay|--picture|--from=1048577|--order=0|a.c",
            br#"Err(Wrong { text: "txc: usage: --from is 0 to 1048576\n" })"#,
        ),
        (
            "txc|replay|--picture|--from=first|--order=0|a.c",
            br#"Err(Wrong { text: "txc: usage: --from is 0 to 1048576\n" })"#,
        ),
        // nothing is drawn
        (
            "txc|replay|--from=401|--order=0|a.c",
            br#"Err(Wrong { text: "txc: usage: --from needs --picture\n" })"#,
        ),
        (
            "txc|replay|--from=0|--timeline|--order=0|a.c",
            br#"Err(Wrong { text: "txc: usage: --from needs --picture\n" })"#,
        ),
        (
            "txc|replay|--from=1|--print-schedule|--order=0|a.c",
            br#"Err(Wrong { text: "txc: usage: --from needs --picture\n" })"#,
        ),
        (
            "txc|replay|--from=1|--picture|--timeline|--order=0|a.c",
            br#"Err(Wrong { text: "txc: usage: one of --picture, --print-schedule and --timeline\n" })"#,
        ),
    ];
    &ROWS
}

#[test]
fn reads_pictures(rt: HostRuntime) {
    assert_none(&rt, ask_otherwise(rt.alloc(), pictures()));
}

/// Replays by a seed.
fn seeds() -> &'static [Row] {
    static ROWS: [Row; 4] = [
        (
            "txc|replay|--seed|0|a.c",
            br#"Ok(Program { file: "a.c", verbose: false, format: Plain, task: Replay { threads: 1, steps: Seed { seed: 0, count: 100000 } } })"#,
        ),
        (
            "txc|replay|--threads=64|--seed=4294967295|--steps=0|a.c",
            br#"Ok(Program { file: "a.c", verbose: false, format: Plain, task: Replay { threads: 64, steps: Seed { seed: 4294967295, count: 0 } } })"#,
        ),
        (
            "txc|replay|--threads=2|--steps=1048576|--seed=7|a.c",
            br#"Ok(Program { file: "a.c", verbose: false, format: Plain, task: Replay { threads: 2, steps: Seed { seed: 7, count: 1048576 } } })"#,
        ),
        (
            "txc|replay|--print-schedule|--seed=7|a.c",
            br#"Ok(Program { file: "a.c", verbose: false, format: Plain, task: PrintSchedule { threads: 1, seed: 7, count: 100000 } })"#,
        ),
    ];
    &ROWS
}

#[test]
fn reads_seeds(rt: HostRuntime) {
    assert_none(&rt, ask_otherwise(rt.alloc(), seeds()));
}

/// Replays that the program itself refuses.
fn refused_replays() -> &'static [Row] {
    static ROWS: [Row; 16] = [
        (
            "txc|replay|a.c|--picture|--seed=1|--timeline",
            br#"Err(Wrong { text: "txc: usage: one of --picture, --print-schedule and --timeline\n" })"#,
        ),
        (
            "txc|replay|a.c|--picture|--seed=1|--print-schedule",
            br#"Err(Wrong { text: "txc: usage: one of --picture, --print-schedule and --timeline\n" })"#,
        ),
        (
            "txc|replay|a.c|--timeline",
            br#"Err(Wrong { text: "txc: usage: one of --schedule and --seed\n" })"#,
        ),
        (
            "txc|replay|a.c|--timeline|--seed=1|--print-schedule",
            br#"Err(Wrong { text: "txc: usage: one of --picture, --print-schedule and --timeline\n" })"#,
        ),
        (
            "txc|replay|a.c|--threads=2",
            br#"Err(Wrong { text: "txc: usage: one of --schedule and --seed\n" })"#,
        ),
        (
            "txc|replay|a.c|--print-schedule",
            br#"Err(Wrong { text: "txc: usage: one of --schedule and --seed\n" })"#,
        ),
        (
            "txc|replay|a.c|--print-schedule|--schedule=s",
            br#"Err(Wrong { text: "txc: usage: --print-schedule needs --seed or --order\n" })"#,
        ),
        (
            "txc|replay|a.c|--steps=5",
            br#"Err(Wrong { text: "txc: usage: one of --schedule and --seed\n" })"#,
        ),
        (
            "txc|replay|a.c|--schedule=s|--seed=1",
            br#"Err(Wrong { text: "txc: usage: one of --schedule and --seed\n" })"#,
        ),
        (
            "txc|replay|a.c|--seed=1|--steps=1048577",
            br#"Err(Wrong { text: "txc: usage: --steps is 0 to 1048576\n" })"#,
        ),
        // a number of steps has no effect beside a schedule, and is a number in its range all the same
        (
            "txc|replay|a.c|--schedule=s|--steps=1048577",
            br#"Err(Wrong { text: "txc: usage: --steps is 0 to 1048576\n" })"#,
        ),
        (
            "txc|replay|a.c|--schedule=s|--steps=x",
            br#"Err(Wrong { text: "txc: usage: --steps is 0 to 1048576\n" })"#,
        ),
        (
            "txc|replay|a.c|--schedule=s|--steps=99999999999999999999|--timeline",
            br#"Err(Wrong { text: "txc: usage: --steps is 0 to 1048576\n" })"#,
        ),
        (
            "txc|replay|a.c|--schedule=s|--steps=",
            br#"Err(Wrong { text: "txc: usage: --steps is 0 to 1048576\n" })"#,
        ),
        (
            "txc|replay|-|--schedule=-",
            br#"Err(Wrong { text: "txc: usage: FILE and S can't both be -\n" })"#,
        ),
        (
            "txc|replay|a.c|--seed=1|--threads=65",
            br#"Err(Wrong { text: "txc: usage: --threads is 1 to 64\n" })"#,
        ),
    ];
    &ROWS
}

#[test]
fn refuses_replays(rt: HostRuntime) {
    assert_none(&rt, ask_otherwise(rt.alloc(), refused_replays()));
}

/// Replays of the steps of an order.
fn replayed_orders() -> &'static [Row] {
    static ROWS: [Row; 7] = [
        (
            "txc|replay|a.c|--order|0,1,0|--threads|2",
            br#"Ok(Program { file: "a.c", verbose: false, format: Plain, task: Replay { threads: 2, steps: Order { order: [0, 1, 0] } } })"#,
        ),
        (
            "txc|replay|--order=|a.c|--verbose",
            br#"Ok(Program { file: "a.c", verbose: true, format: Plain, task: Replay { threads: 1, steps: Order { order: [] } } })"#,
        ),
        (
            "txc|replay|a.c|--order=4294967295,007|--timeline",
            br#"Ok(Program { file: "a.c", verbose: false, format: Plain, task: Timeline { threads: 1, steps: Order { order: [4294967295, 7] } } })"#,
        ),
        (
            "txc|replay|--picture|--threads=64|--order=63|a.c",
            br#"Ok(Program { file: "a.c", verbose: false, format: Plain, task: Picture { threads: 64, from: 0, steps: Order { order: [63] } } })"#,
        ),
        (
            "txc|replay|-|--order=1,0|--print-schedule|--threads=2",
            br#"Ok(Program { file: "-", verbose: false, format: Plain, task: PrintOrder { threads: 2, order: [1, 0] } })"#,
        ),
        // with an order the number of steps has no effect
        (
            "txc|replay|a.c|--order=0|--steps=0",
            br#"Ok(Program { file: "a.c", verbose: false, format: Plain, task: Replay { threads: 1, steps: Order { order: [0] } } })"#,
        ),
        // a thread that there is not is no matter of the words
        (
            "txc|replay|a.c|--order=1",
            br#"Ok(Program { file: "a.c", verbose: false, format: Plain, task: Replay { threads: 1, steps: Order { order: [1] } } })"#,
        ),
    ];
    &ROWS
}

#[test]
fn reads_replayed_orders(rt: HostRuntime) {
    assert_none(&rt, ask_otherwise(rt.alloc(), replayed_orders()));
}

/// Replays of orders that the program itself refuses.
fn refused_replayed_orders() -> &'static [Row] {
    static ROWS: [Row; 10] = [
        (
            "txc|replay|a.c|--order=0|--seed=1",
            br#"Err(Wrong { text: "txc: usage: --order takes no --schedule and no --seed\n" })"#,
        ),
        (
            "txc|replay|a.c|--order=|--schedule=s",
            br#"Err(Wrong { text: "txc: usage: --order takes no --schedule and no --seed\n" })"#,
        ),
        (
            "txc|replay|a.c|--order=0|--schedule=s|--seed=1|--picture",
            br#"Err(Wrong { text: "txc: usage: --order takes no --schedule and no --seed\n" })"#,
        ),
        (
            "txc|replay|a.c|--order=0,,1",
            br#"Err(Wrong { text: "txc: usage: bad --order\n" })"#,
        ),
        (
            "txc|replay|a.c|--order=0 1",
            br#"Err(Wrong { text: "txc: usage: bad --order\n" })"#,
        ),
        (
            "txc|replay|a.c|--order=4294967296|--print-schedule",
            br#"Err(Wrong { text: "txc: usage: bad --order\n" })"#,
        ),
        (
            "txc|replay|a.c|--order=x|--verbose",
            br#"Err(Wrong { text: "txc: usage: bad --order\nan order is thread numbers joined by commas, as 0,1,0\n" })"#,
        ),
        // a number of steps has no effect beside an order, and is a number in its range all the same
        (
            "txc|replay|a.c|--order=0|--steps=1048577",
            br#"Err(Wrong { text: "txc: usage: --steps is 0 to 1048576\n" })"#,
        ),
        (
            "txc|replay|a.c|--order=x|--threads=65",
            br#"Err(Wrong { text: "txc: usage: --threads is 1 to 64\n" })"#,
        ),
        (
            "txc|replay|a.c|--order=0|--timeline|--print-schedule",
            br#"Err(Wrong { text: "txc: usage: one of --picture, --print-schedule and --timeline\n" })"#,
        ),
    ];
    &ROWS
}

#[test]
fn refuses_replayed_orders(rt: HostRuntime) {
    assert_none(&rt, ask_otherwise(rt.alloc(), refused_replayed_orders()));
}

/// Claims of reports.
fn claims() -> &'static [Row] {
    static ROWS: [Row; 4] = [
        (
            "txc|certify|a.c|--order-file|s|--report|r",
            br#"Ok(Certify { file: "a.c", verbose: false, format: Plain, claim: Claim { threads: 1, order: "s", report: "r", ticks: None } })"#,
        ),
        (
            "txc|certify|--report=r|--order-file=s|--threads=64|--ticks=0|a.c|--verbose|--format=short",
            br#"Ok(Certify { file: "a.c", verbose: true, format: Short, claim: Claim { threads: 64, order: "s", report: "r", ticks: Some(0) } })"#,
        ),
        // one of the files is standard input
        (
            "txc|certify|-|--order-file=s|--report=r",
            br#"Ok(Certify { file: "-", verbose: false, format: Plain, claim: Claim { threads: 1, order: "s", report: "r", ticks: None } })"#,
        ),
        (
            "txc|certify|a.c|--order-file=s|--report=-",
            br#"Ok(Certify { file: "a.c", verbose: false, format: Plain, claim: Claim { threads: 1, order: "s", report: "-", ticks: None } })"#,
        ),
    ];
    &ROWS
}

#[test]
fn reads_claims(rt: HostRuntime) {
    assert_none(&rt, ask_otherwise(rt.alloc(), claims()));
}

/// Comparisons of outcomes.
fn comparisons() -> &'static [Row] {
    static ROWS: [Row; 18] = [
        (
            "txc|outcomes|a.c|--refines|b.c",
            br#"Ok(Compare { file: "a.c", verbose: false, format: Plain, comparison: Comparison { threads: ThreadRange { first: 2, last: 2 }, steps: 1000000, limit: 1000000, memory: 1024, time: None, against: Refined { file: "b.c" } } })"#,
        ),
        (
            "txc|outcomes|--expect=l|--threads=64|--steps=0|--limit=4294967295|a.c|--verbose|--format=short",
            br#"Ok(Compare { file: "a.c", verbose: true, format: Short, comparison: Comparison { threads: ThreadRange { first: 64, last: 64 }, steps: 0, limit: 4294967295, memory: 1024, time: None, against: Expected { file: "l" } } })"#,
        ),
        // one of the files is standard input
        (
            "txc|outcomes|-|--refines=b.c|--threads=2",
            br#"Ok(Compare { file: "-", verbose: false, format: Plain, comparison: Comparison { threads: ThreadRange { first: 2, last: 2 }, steps: 1000000, limit: 1000000, memory: 1024, time: None, against: Refined { file: "b.c" } } })"#,
        ),
        (
            "txc|outcomes|a.c|--expect=-|--limit=7",
            br#"Ok(Compare { file: "a.c", verbose: false, format: Plain, comparison: Comparison { threads: ThreadRange { first: 2, last: 2 }, steps: 1000000, limit: 7, memory: 1024, time: None, against: Expected { file: "-" } } })"#,
        ),
        // and not both
        (
            "txc|outcomes|-|--refines=-",
            br#"Err(Wrong { text: "txc: usage: FILE and B can't both be -\n" })"#,
        ),
        (
            "txc|outcomes|-|--expect=-",
            br#"Err(Wrong { text: "txc: usage: FILE and LIST can't both be -\n" })"#,
        ),
        (
            "txc|outcomes|a.c|--refines=b.c|--expect=l",
            br#"Err(Wrong { text: "txc: usage: one of --refines and --expect\n" })"#,
        ),
        (
            "txc|outcomes|a.c|--refines=b.c|--threads=65",
            br#"Err(Wrong { text: "txc: usage: --threads is 1 to 64\n" })"#,
        ),
        (
            "txc|outcomes|a.c|--expect=l|--steps=4294967296",
            br#"Err(Wrong { text: "txc: usage: --steps is 0 to 4294967295\n" })"#,
        ),
        (
            "txc|outcomes|a.c|--refines=b.c|--always=p",
            br#"Err(Wrong { text: "txc: usage: --always and --final want no list to compare\n" })"#,
        ),
        // a report
        (
            "txc|outcomes|a.c|--admits|r",
            br#"Ok(Compare { file: "a.c", verbose: false, format: Plain, comparison: Comparison { threads: ThreadRange { first: 2, last: 2 }, steps: 1000000, limit: 1000000, memory: 1024, time: None, against: Admitted { file: "r" } } })"#,
        ),
        (
            "txc|outcomes|a.c|--admits=-|--threads=3|--steps=5|--limit=6|--memory=7|--time=8|--format=json",
            br#"Ok(Compare { file: "a.c", verbose: false, format: Json, comparison: Comparison { threads: ThreadRange { first: 3, last: 3 }, steps: 5, limit: 6, memory: 7, time: Some(8), against: Admitted { file: "-" } } })"#,
        ),
        (
            "txc|outcomes|-|--admits=-",
            br#"Err(Wrong { text: "txc: usage: FILE and REPORT can't both be -\n" })"#,
        ),
        (
            "txc|outcomes|a.c|--admits=r|--expect=l",
            br#"Err(Wrong { text: "txc: usage: one of --expect and --admits\n" })"#,
        ),
        (
            "txc|outcomes|a.c|--admits=r|--refines=b.c",
            br#"Err(Wrong { text: "txc: usage: one of --refines and --admits\n" })"#,
        ),
        (
            "txc|outcomes|a.c|--admits=r|--threads=2..3",
            br#"Err(Wrong { text: "txc: usage: --admits needs one number of threads\n" })"#,
        ),
        (
            "txc|outcomes|a.c|--admits=r|--final=p",
            br#"Err(Wrong { text: "txc: usage: --admits takes no --always and no --final\n" })"#,
        ),
        (
            "txc|outcomes|a.c|--admits=r|--threads=any|--always=p",
            br#"Err(Wrong { text: "txc: usage: --threads any needs --always, and takes no --final, --refines, --expect or --admits\n" })"#,
        ),
    ];
    &ROWS
}

#[test]
fn reads_comparisons(rt: HostRuntime) {
    assert_none(&rt, ask_otherwise(rt.alloc(), comparisons()));
}

/// Functions that are asked whether they hold.
fn questions() -> &'static [Row] {
    static ROWS: [Row; 8] = [
        (
            "txc|outcomes|a.c|--always|p",
            br#"Ok(Ask { file: "a.c", verbose: false, format: Plain, questions: Questions { threads: ThreadRange { first: 2, last: 2 }, steps: 1000000, limit: 1000000, memory: 1024, time: None, always: Some("p"), last: None, keeps_going: false, traces: false } })"#,
        ),
        (
            "txc|outcomes|--final=p,q|--threads=3|--steps=0|--limit=7|a.c|--verbose|--format=json",
            br#"Ok(Ask { file: "a.c", verbose: true, format: Json, questions: Questions { threads: ThreadRange { first: 3, last: 3 }, steps: 0, limit: 7, memory: 1024, time: None, always: None, last: Some("p,q"), keeps_going: false, traces: false } })"#,
        ),
        (
            "txc|outcomes|a.c|--keep-going|--always=p",
            br#"Ok(Ask { file: "a.c", verbose: false, format: Plain, questions: Questions { threads: ThreadRange { first: 2, last: 2 }, steps: 1000000, limit: 1000000, memory: 1024, time: None, always: Some("p"), last: None, keeps_going: true, traces: false } })"#,
        ),
        (
            "txc|outcomes|a.c|--trace|--final=p",
            br#"Ok(Ask { file: "a.c", verbose: false, format: Plain, questions: Questions { threads: ThreadRange { first: 2, last: 2 }, steps: 1000000, limit: 1000000, memory: 1024, time: None, always: None, last: Some("p"), keeps_going: false, traces: true } })"#,
        ),
        (
            "txc|outcomes|-|--final=|--always=p,p",
            br#"Ok(Ask { file: "-", verbose: false, format: Plain, questions: Questions { threads: ThreadRange { first: 2, last: 2 }, steps: 1000000, limit: 1000000, memory: 1024, time: None, always: Some("p,p"), last: Some(""), keeps_going: false, traces: false } })"#,
        ),
        (
            "txc|outcomes|a.c|--limit=9",
            br#"Ok(Program { file: "a.c", verbose: false, format: Plain, task: Outcomes { threads: ThreadRange { first: 2, last: 2 }, steps: 1000000, limit: 9, memory: 1024, time: None, traces: false } })"#,
        ),
        (
            "txc|outcomes|a.c|--always=p|--threads=65",
            br#"Err(Wrong { text: "txc: usage: --threads is 1 to 64\n" })"#,
        ),
        (
            "txc|outcomes|a.c|--final=p|--limit=x",
            br#"Err(Wrong { text: "txc: usage: --limit is 0 to 4294967295\n" })"#,
        ),
    ];
    &ROWS
}

/// Properties for every number of threads.
fn coverages() -> &'static [Row] {
    static ROWS: [Row; 9] = [
        (
            "txc|outcomes|a.c|--threads=any|--always=p",
            br#"Ok(Cover { file: "a.c", verbose: false, format: Plain, coverage: Coverage { steps: 1000000, limit: 1000000, memory: 1024, always: "p" } })"#,
        ),
        (
            "txc|outcomes|a.c|--threads|any|--always|p,q|--steps=7|--limit=8|--memory=9|--verbose",
            br#"Ok(Cover { file: "a.c", verbose: true, format: Plain, coverage: Coverage { steps: 7, limit: 8, memory: 9, always: "p,q" } })"#,
        ),
        (
            "txc|outcomes|a.c|--threads=any",
            br#"Err(Wrong { text: "txc: usage: --threads any needs --always, and takes no --final, --refines, --expect or --admits\n" })"#,
        ),
        (
            "txc|outcomes|a.c|--threads=any|--always=p|--final=p",
            br#"Err(Wrong { text: "txc: usage: --threads any needs --always, and takes no --final, --refines, --expect or --admits\n" })"#,
        ),
        (
            "txc|outcomes|a.c|--threads=any|--always=p|--time=5",
            br#"Err(Wrong { text: "txc: usage: --threads any takes no --time\n" })"#,
        ),
        (
            "txc|outcomes|a.c|--threads=any|--always=p|--refines=b.c",
            br#"Err(Wrong { text: "txc: usage: --threads any needs --always, and takes no --final, --refines, --expect or --admits\n" })"#,
        ),
        (
            "txc|outcomes|a.c|--threads=any|--always=p|-D|N=3",
            br#"Ok([Definition { name: "N", number: Number { is_negative: false, magnitude: 3 } }], Cover { file: "a.c", verbose: false, format: Plain, coverage: Coverage { steps: 1000000, limit: 1000000, memory: 1024, always: "p" } })"#,
        ),
        (
            "txc|outcomes|a.c|--threads=any|--always=p|-D|N=threads",
            br#"Err(Wrong { text: "txc: usage: -D N=threads needs one number of threads\n" })"#,
        ),
        (
            "txc|run|a.c|--threads=any",
            br#"Err(Wrong { text: "txc: usage: --threads is 1 to 64\n" })"#,
        ),
    ];
    &ROWS
}

#[test]
fn reads_coverages(rt: HostRuntime) {
    assert_none(&rt, ask_otherwise(rt.alloc(), coverages()));
}

#[test]
fn reads_questions(rt: HostRuntime) {
    assert_none(&rt, ask_otherwise(rt.alloc(), questions()));
}

/// Whether what a line asks begins with this and has this piece.
fn has(alloc: Global, line: &str, begin: &str, piece: &str) -> bool {
    match request_of_line(alloc, line) {
        Ok(found) => found.starts_with(begin) && found.contains(piece),
        Err(_) => false,
    }
}

/// The first of these lines of which what is asked does not begin with this, or has not this piece.
fn have_not(
    alloc: Global,
    lines: &[&'static str],
    begin: &str,
    piece: &str,
) -> Option<&'static str> {
    for line in lines {
        if !has(alloc, line, begin, piece) {
            return Some(*line);
        }
    }
    None
}

/// What is no command line of the program.
fn wrong_lines() -> &'static [&'static str] {
    static LINES: [&str; 23] = [
        "txc",
        "txc|outcomes",
        "txc|run|a.c|--refines=b.c",
        "txc|outcomes|a.c|--refines",
        "txc|outcomes|a.c|--always",
        "txc|outcomes|a.c|--always=p|--always=q",
        "txc|run|a.c|--always=p",
        "txc|outcomes|a.c|--order=0",
        "txc|run|--budget|-1|a.c",
        "txc|listing|--threads=2|a.c",
        "txc|run|a.c|b.c",
        "txc|source|a.c|--threads=2",
        "txc|source|--order=0|--verbose",
        "txc|trace|a.c|--threads=2",
        "txc|trace|a.c|--order=0|--property",
        "txc|trace|a.c|--order=0|--ticks=5",
        "txc|explain|--verbose|1",
        "txc|explain|1|",
        "txc|replay|a.c|--seed=-1",
        "txc|replay|--seed=1|--order=0",
        "txc|replay|a.c|--order=0|--ticks=5",
        "txc|certify|a.c|--order-file=s",
        "txc|certify|a.c|--report=r|--order=0",
    ];
    &LINES
}

#[test]
fn refuses_words(rt: HostRuntime) {
    assert_none(&rt, have_not(rt.alloc(), wrong_lines(), "Err(Wrong {", ""));
}

/// The begin of what is told where help is asked for.
const HELP: &str = "Err(Help {";

/// Lines that ask for the help of a command.
fn help_lines() -> &'static [&'static str] {
    static LINES: [&str; 9] = [
        "txc|trace|--help",
        "txc|help|run",
        "txc|outcomes|--help",
        "txc|run|--help",
        "txc|check|--help",
        "txc|replay|--help",
        "txc|source|--help",
        "txc|certify|--help",
        "txc|explain|-h",
    ];
    &LINES
}

#[test]
fn helps(rt: HostRuntime) {
    assert_none(&rt, have_not(rt.alloc(), help_lines(), HELP, "Usage: txc"));
    let examples = have_not(rt.alloc(), help_lines(), HELP, r":\n  txc ");
    assert_none(&rt, examples);
    assert_that(&rt, has(rt.alloc(), "txc|--help", HELP, ""));
}

/// The ranges and defaults that the help of each command gives, as its numbers are taken.
fn told_ranges() -> &'static [(&'static str, &'static str)] {
    static ROWS: [(&str, &str); 14] = [
        ("txc|trace|--help", "1 to 64 [default: 2]"),
        ("txc|run|--help", "1 to 64 [default: 1]"),
        ("txc|run|--help", "0 to 4294967295 [default: 4294967295]"),
        ("txc|replay|--help", "1 to 64 [default: 1]"),
        ("txc|replay|--help", "0 to 4294967295"),
        ("txc|replay|--help", "0 to 1048576 [default: 100000]"),
        (
            "txc|replay|--help",
            "0 to 1048576; a picture shows 400 [default: 0]",
        ),
        ("txc|source|--help", "1 to 64 [default: 1]"),
        ("txc|source|--help", "0 to 1000000 [default: 100000]"),
        ("txc|outcomes|--help", "1 to 64 [default: 2]"),
        (
            "txc|outcomes|--help",
            "the code after it, 0 to 4294967295 [default: 1000000]",
        ),
        (
            "txc|outcomes|--help",
            "states explored, 0 to 4294967295 [default: 1000000]",
        ),
        ("txc|outcomes|--help", "0 to 4294967295 [default: 1024]"),
        ("txc|certify|--help", "0 to 4294967295 [default: no limit]"),
    ];
    &ROWS
}

/// The first of these lines whose help has not these words.
fn lacks(alloc: Global, rows: &[(&'static str, &'static str)]) -> Option<&'static str> {
    for row in rows {
        if !has(alloc, row.0, HELP, row.1) {
            return Some(row.0);
        }
    }
    None
}

#[test]
fn helps_with_ranges(rt: HostRuntime) {
    assert_none(&rt, lacks(rt.alloc(), told_ranges()));
}

#[test]
fn tells_its_version(rt: HostRuntime) {
    let told = br#"Err(Help { text: "txc 0.2.0\n" })"#;
    assert_that(&rt, asks(rt.alloc(), "txc|--version", told.as_slice()));
}

/// Numbers in place of names.
fn definitions() -> &'static [Row] {
    static ROWS: [Row; 10] = [
        (
            "txc|explore|a.c|-D|N=threads",
            br#"Ok([Definition { name: "N", number: Number { is_negative: false, magnitude: 2 } }], Program { file: "a.c", verbose: false, format: Plain, task: Explore { threads: 2, order: [], always: None } })"#,
        ),
        (
            "txc|listing|a.c|-D|N=3|-DM=-4",
            br#"Ok([Definition { name: "N", number: Number { is_negative: false, magnitude: 3 } }, Definition { name: "M", number: Number { is_negative: true, magnitude: 4 } }], Program { file: "a.c", verbose: false, format: Plain, task: Listing })"#,
        ),
        (
            "txc|source|a.c|--threads|7|--order||-D|N=threads",
            br#"Ok([Definition { name: "N", number: Number { is_negative: false, magnitude: 7 } }], Program { file: "a.c", verbose: false, format: Plain, task: Source { threads: 7, order: [], ticks: 100000 } })"#,
        ),
        (
            "txc|trace|a.c|--order||-D|N=threads",
            br#"Ok([Definition { name: "N", number: Number { is_negative: false, magnitude: 2 } }], Program { file: "a.c", verbose: false, format: Plain, task: Trace { threads: 2, order: [], property: None, in_full: false } })"#,
        ),
        // a range of numbers of threads is no number
        (
            "txc|outcomes|a.c|--threads|2..4|-D|N=threads",
            br#"Err(Wrong { text: "txc: usage: -D N=threads needs one number of threads\n" })"#,
        ),
        (
            "txc|check|a.c|-D|N=1|-D|N=1",
            br#"Err(Wrong { text: "txc: usage: -D N is given twice\n" })"#,
        ),
        (
            "txc|check|a.c|-D|int=1",
            br#"Err(Wrong { text: "txc: usage: -D int=1 is no NAME=VALUE: a name of FILE, and a whole number or `threads`\n" })"#,
        ),
        (
            "txc|check|a.c|-D|N=+1",
            br#"Err(Wrong { text: "txc: usage: -D N=+1 is no NAME=VALUE: a name of FILE, and a whole number or `threads`\n" })"#,
        ),
        (
            "txc|check|a.c|-D|N=9223372036854775808",
            br#"Err(Wrong { text: "txc: usage: -D N=9223372036854775808 is no NAME=VALUE: a name of FILE, and a whole number or `threads`\n" })"#,
        ),
        (
            "txc|check|a.c|-D|N",
            br#"Err(Wrong { text: "txc: usage: -D N is no NAME=VALUE: a name of FILE, and a whole number or `threads`\n" })"#,
        ),
    ];
    &ROWS
}

#[test]
fn reads_definitions(rt: HostRuntime) {
    assert_none(&rt, ask_otherwise(rt.alloc(), definitions()));
}
