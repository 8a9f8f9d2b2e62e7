//! Pictures of replays: what boxes say of the source, the order at the foot, and which accesses are drawn.

use std::alloc::{AllocError, Global};
use std::sync::Wait;
use std::thread::Threads;
use test_serving::{ADDS, serve_line};

/// A command line, the source and the schedule of its files, a text, and how often it stands in what is drawn.
type Row = (
    &'static str,
    &'static [u8],
    &'static [u8],
    &'static [u8],
    usize,
);

/// How often a text stands among bytes.
fn count_of(bytes: &[u8], text: &[u8]) -> usize {
    let mut count = 0usize;
    for at in 0..bytes.len() {
        if bytes[at..].starts_with(text) {
            count = count.saturating_add(1);
        }
    }
    count
}

/// How often a text stands in what is drawn. Nothing is told where the words are wrong or nothing was drawn.
fn drawn<H: Threads + Wait + Sync>(
    rt: &H,
    alloc: Global,
    line: &str,
    source: &[u8],
    schedule: &[u8],
    text: &[u8],
) -> Option<usize> {
    match serve_line(rt, alloc, line, source, schedule, false) {
        Some(served) if served.out.starts_with(b"<svg ") => {
            Some(count_of(served.out.as_slice(), text))
        }
        _ => None,
    }
}

/// The first row that is not so: its text, and how often that stands there.
fn wrong_row<H: Threads + Wait + Sync>(
    rt: &H,
    alloc: Global,
    rows: &'static [Row],
) -> Option<(&'static [u8], Option<usize>)> {
    for (line, source, schedule, text, wanted) in rows {
        let found = drawn(rt, alloc, line, source, schedule, text);
        if found != Some(*wanted) {
            return Some((*text, found));
        }
    }
    None
}

/// A source with what XML and a terminal would take otherwise: brackets, `&`, quotes, tabs, carriage returns, a control
/// character and a character that is not ASCII.
const HOSTILE: &[u8] =
    b"int x;\r\nvoid worker(int self) {\r\n\t__transaction_atomic { /* \"<a>\" & ]]> \xc3\xa9\x01 */\r\n\t\tif (x < 2 && !x) x = 1;\r\n\t}\r\n}\r\n";

/// A transaction with an attribute, one inside it, and one that is an expression.
const NESTED: &[u8] =
    b"int x;\nvoid worker(int self) {\n    int a;\n    __transaction_atomic [[outer]] {\n        x = 1;\n        \
__transaction_atomic { x = x + 1; }\n    }\n    a = __transaction_atomic(x * 2);\n}\n";

fn boxes() -> &'static [Row] {
    static ROWS: [Row; 12] = [
        // each attempt says its line and its first words, and the whole transaction
        (
            "txc replay a.c --threads 2 --order 0,1 --picture",
            ADDS,
            b"",
            b">line 1: x = x + 1;</text>",
            2,
        ),
        (
            "txc replay a.c --threads 2 --order 0,1 --picture",
            ADDS,
            b"",
            b"<g><title>line 1:\n__transaction_atomic { x = x + 1; }</title>\n<rect",
            2,
        ),
        // the picture's own, two boxes, and the glyphs of six accesses each
        (
            "txc replay a.c --threads 2 --order 0,1 --picture",
            ADDS,
            b"",
            b"<title",
            15,
        ),
        (
            "txc replay a.c --threads 2 --order 1,0 --picture",
            ADDS,
            b"",
            b">--order 1,0</text>",
            1,
        ),
        // what an attempt is dropped for
        (
            "txc replay a.c --threads 2 --schedule s.txt --picture",
            ADDS,
            b"1 a3\n0 a6\n1 a3\n",
            b">line 1: x = x + 1;</text>",
            2,
        ),
        (
            "txc replay a.c --order 0 --picture",
            HOSTILE,
            b"",
            b"<title>line 3:\n__transaction_atomic { /* \"&lt;a&gt;\" &amp; ]]&gt; ?? */\n\t\tif (x &lt; 2 &amp;&amp; !x) x = 1;\n\t}</title>",
            1,
        ),
        (
            "txc replay a.c --order 0 --picture",
            HOSTILE,
            b"",
            b">line 3: if (x &lt; 2 &amp;&amp; ..</text>",
            1,
        ),
        (
            "txc replay a.c --order 0,0 --picture",
            NESTED,
            b"",
            b"<title>line 4:\n__transaction_atomic [[outer]] {\n        x = 1;\n        __transaction_atomic { x = x + 1; }\n    }</title>",
            1,
        ),
        (
            "txc replay a.c --order 0,0 --picture",
            NESTED,
            b"",
            b">line 4: x = 1; ..</text>",
            1,
        ),
        (
            "txc replay a.c --order 0,0 --picture",
            NESTED,
            b"",
            b"<title>line 6:\n__transaction_atomic { x = x + 1; }</title>",
            1,
        ),
        (
            "txc replay a.c --order 0,0 --picture",
            NESTED,
            b"",
            b">line 6: x = x + 1;</text>",
            1,
        ),
        (
            "txc replay a.c --order 0,0 --picture",
            NESTED,
            b"",
            b"<title>line 8:\n__transaction_atomic(x * 2)</title>",
            1,
        ),
    ];
    &ROWS
}

#[test]
fn boxes_say_their_transactions(rt: HostRuntime) {
    assert_eq!(rt; wrong_row(&rt, rt.alloc(), boxes()), None);
}

/// A thread that prints, and then makes 600 accesses.
const LONG: &[u8] =
    b"int x; void worker(int self) { int i; printf(\"a\"); for (i = 0; i < 100; i++) { __transaction_atomic { x = x + 1; } } }";

fn windows() -> &'static [Row] {
    static ROWS: [Row; 18] = [
        // all from the beginning, before the first access too
        (
            "txc replay a.c --schedule s.txt --picture",
            LONG,
            b"0 9999\n",
            b"<title>0 0 ",
            1,
        ),
        (
            "txc replay a.c --schedule s.txt --picture --from 0",
            LONG,
            b"0 9999\n",
            b"<title>0 0 ",
            1,
        ),
        (
            "txc replay a.c --schedule s.txt --picture --from 1",
            LONG,
            b"0 9999\n",
            b"<title>0 0 ",
            0,
        ),
        (
            "txc replay a.c --schedule s.txt --picture --from 1",
            LONG,
            b"0 9999\n",
            b"<title>1 0 ",
            1,
        ),
        (
            "txc replay a.c --schedule s.txt --picture",
            LONG,
            b"0 9999\n",
            b"<title>400 0 ",
            1,
        ),
        (
            "txc replay a.c --schedule s.txt --picture",
            LONG,
            b"0 9999\n",
            b"<title>401 0 ",
            0,
        ),
        (
            "txc replay a.c --schedule s.txt --picture",
            LONG,
            b"0 9999\n",
            b">200 further accesses are not drawn here: --from 401 goes on</text>",
            1,
        ),
        (
            "txc replay a.c --schedule s.txt --picture --from 400",
            LONG,
            b"0 9999\n",
            b"<title>399 0 ",
            0,
        ),
        (
            "txc replay a.c --schedule s.txt --picture --from 400",
            LONG,
            b"0 9999\n",
            b"<title>400 0 ",
            1,
        ),
        (
            "txc replay a.c --schedule s.txt --picture --from 401",
            LONG,
            b"0 9999\n",
            b"<title>400 0 ",
            0,
        ),
        (
            "txc replay a.c --schedule s.txt --picture --from 401",
            LONG,
            b"0 9999\n",
            b"<title>401 0 ",
            1,
        ),
        (
            "txc replay a.c --schedule s.txt --picture --from 401",
            LONG,
            b"0 9999\n",
            b": 1 threads, accesses 401 to 600 of 600</title>",
            1,
        ),
        // the transaction that is under way has its box, and there are 33 behind it
        (
            "txc replay a.c --schedule s.txt --picture --from 401",
            LONG,
            b"0 9999\n",
            b"<title>line 1:\n__transaction_atomic { x = x + 1; }</title>",
            34,
        ),
        (
            "txc replay a.c --schedule s.txt --picture --from 600",
            LONG,
            b"0 9999\n",
            b"<title",
            3,
        ),
        // beyond the end nothing is drawn but the head
        (
            "txc replay a.c --schedule s.txt --picture --from 601",
            LONG,
            b"0 9999\n",
            b"<title",
            1,
        ),
        (
            "txc replay a.c --schedule s.txt --picture --from 1048576",
            LONG,
            b"0 9999\n",
            b": 1 threads, none of 600 accesses</title>",
            1,
        ),
        // an attempt that began before, and is dropped for a store that is drawn
        (
            "txc replay a.c --threads 2 --schedule s.txt --picture --from 8",
            ADDS,
            b"1 a3\n0 a6\n1 a3\n",
            b"<title>access 8, then access 12</title>",
            1,
        ),
        // and for one that is not
        (
            "txc replay a.c --threads 2 --schedule s.txt --picture --from 9",
            ADDS,
            b"1 a3\n0 a6\n1 a3\n",
            b"<title>access ",
            0,
        ),
    ];
    &ROWS
}

#[test]
fn accesses_are_drawn_from_one_on(rt: HostRuntime) {
    assert_eq!(rt; wrong_row(&rt, rt.alloc(), windows()), None);
}

/// A source whose transaction has so many blanks.
fn source_with_blanks(alloc: Global, blanks: usize) -> Result<Vec<u8>, AllocError> {
    let mut source = Vec::new(alloc);
    source.extend_from_slice(b"int x; void worker(int self) { __transaction_atomic { x = 1;")?;
    for _ in 0..blanks {
        source.push(b' ')?;
    }
    source.extend_from_slice(b"} }")?;
    Ok(source)
}

/// How often the picture of a source with so many blanks has a text.
fn drawn_with_blanks<H: Threads + Wait + Sync>(
    rt: &H,
    alloc: Global,
    blanks: usize,
    text: &[u8],
) -> Option<usize> {
    match source_with_blanks(alloc, blanks) {
        Ok(source) => drawn(
            rt,
            alloc,
            "txc replay a.c --order 0 --picture",
            source.as_slice(),
            b"",
            text,
        ),
        Err(_) => None,
    }
}

/// 1,000 bytes of a transaction are shown whole, and of a longer one as many.
#[test]
fn long_transactions_are_cut(rt: HostRuntime) {
    assert_eq!(rt;
        drawn_with_blanks(&rt, rt.alloc(), 970, b"} ..</title>"),
        Some(0)
    );
    assert_eq!(rt;
        drawn_with_blanks(&rt, rt.alloc(), 970, b" }</title>"),
        Some(1)
    );
    assert_eq!(rt;
        drawn_with_blanks(&rt, rt.alloc(), 971, b"  ..</title>"),
        Some(1)
    );
}
