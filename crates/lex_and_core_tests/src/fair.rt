//! Command lines that ask whether every fair schedule terminates.

use crate::asserted::assert_none;
use crate::words::{Row, ask_otherwise};

fn rows() -> &'static [Row] {
    static ROWS: [Row; 11] = [
        (
            "txc|outcomes|a.c|--fair",
            br#"Ok(Fair { file: "a.c", verbose: false, format: Plain, search: FairSearch { threads: 2, steps: 1000000, limit: 1000000, memory: 1024, time: None, traces: false } })"#,
        ),
        (
            "txc|outcomes|a.c|--fair|--threads=3|--steps=7|--limit=8|--memory=9|--time=10|--trace|--verbose|--format=json",
            br#"Ok(Fair { file: "a.c", verbose: true, format: Json, search: FairSearch { threads: 3, steps: 7, limit: 8, memory: 9, time: Some(10), traces: true } })"#,
        ),
        (
            "txc|outcomes|a.c|--fair|-D|N=threads",
            br#"Ok([Definition { name: "N", number: Number { is_negative: false, magnitude: 2 } }], Fair { file: "a.c", verbose: false, format: Plain, search: FairSearch { threads: 2, steps: 1000000, limit: 1000000, memory: 1024, time: None, traces: false } })"#,
        ),
        (
            "txc|outcomes|a.c|--fair|--always=p",
            br#"Err(Wrong { text: "txc: usage: --fair takes no --always, --final, --refines, --expect or --admits\n" })"#,
        ),
        (
            "txc|outcomes|a.c|--fair|--final=p",
            br#"Err(Wrong { text: "txc: usage: --fair takes no --always, --final, --refines, --expect or --admits\n" })"#,
        ),
        (
            "txc|outcomes|a.c|--fair|--refines=b.c",
            br#"Err(Wrong { text: "txc: usage: --fair takes no --always, --final, --refines, --expect or --admits\n" })"#,
        ),
        (
            "txc|outcomes|a.c|--fair|--expect=l",
            br#"Err(Wrong { text: "txc: usage: --fair takes no --always, --final, --refines, --expect or --admits\n" })"#,
        ),
        (
            "txc|outcomes|a.c|--fair|--threads=2..4",
            br#"Err(Wrong { text: "txc: usage: --threads: this command takes one number, 1 to 64\n" })"#,
        ),
        (
            "txc|outcomes|a.c|--fair|--threads=any",
            br#"Err(Wrong { text: "txc: usage: --threads is 1 to 64\n" })"#,
        ),
        (
            "txc|outcomes|a.c|--fair|--threads=65",
            br#"Err(Wrong { text: "txc: usage: --threads is 1 to 64\n" })"#,
        ),
        (
            "txc|outcomes|a.c|--fair|--time=x",
            br#"Err(Wrong { text: "txc: usage: --time is 0 to 4294967295\n" })"#,
        ),
    ];
    &ROWS
}

#[test]
fn reads_fair(rt: HostRuntime) {
    assert_none(&rt, ask_otherwise(rt.alloc(), rows()));
}
