//! Replays of schedules and seeds.

use command::{Format, Request, Steps, Task};
use std::alloc::{AllocError, Global};
use std::str;
use std::sync::Wait;
use std::thread::Threads;
use test_serving::{
    ADDS, Broken, Row, ServeResult, Served, answers, is_answer, request_of, serve_bytes,
    serve_line, wrong_row,
};

fn schedules() -> &'static [Row] {
    static ROWS: [Row; 23] = [
        // a lost swap, and a validation that fails
        (
            "txc replay a.c --threads 2 --schedule s.txt",
            b"int x; void worker(int self) { __transaction_atomic { x = x + 1; } }",
            b"0 a1\n1 a1\n0 a1\n1 a1\n0 a1\n1 a1\n0 a1\n1 a1\n0 a1\n1 a1\n0 a2\n1 a9\n",
            (
                0,
                b"== events\n11 0 commit\n13 1 abort\n19 1 commit\n== thread 0: ended\n== thread 1: ended\n== memory\nx = 2\n",
                b"",
            ),
        ),
        // a lost swap, and a validation that passes: the word was stored anew and is the same
        (
            "txc replay a.c --threads 2 --schedule s.txt",
            b"int x = 5, y; void worker(int self) { __transaction_atomic { if (self == 0) x = 5; else y = x; } }",
            b"1 a3\n0 a5\n1 a8\n",
            (
                0,
                b"== events\n7 0 commit\n14 1 commit\n== thread 0: ended\n== thread 1: ended\n== memory\nx = 5\ny = 5\n",
                b"",
            ),
        ),
        // x goes 1, 2, 1 between the reads
        (
            "txc replay a.c --threads 2 --schedule s.txt",
            b"int x = 1, y, s; void worker(int self) { if (self == 0) { __transaction_atomic { x = 2; } __transaction_atomic { x = 1; y = 7; } } else { __transaction_atomic { s = x * 10 + y; } } }",
            b"1 a3\n0 a10\n1 a11\n",
            (
                0,
                b"== events\n7 0 commit\n12 0 commit\n22 1 commit\n== thread 0: ended\n== thread 1: ended\n== memory\nx = 1\ny = 7\ns = 17\n",
                b"",
            ),
        ),
        // an attempt that will be dropped never divides by the 0 that no memory had
        (
            "txc replay a.c --threads 2 --schedule s.txt",
            b"int x = 3, y = 3, q; void worker(int self) { if (self == 0) { __transaction_atomic { x = 4; y = 4; } } else { __transaction_atomic { q = 100 / (1 + x - y); } } }",
            b"1 a3\n0 a4\n1 a3\n0 a2\n1 a11\n",
            (
                0,
                b"== events\n11 0 commit\n13 1 abort\n21 1 commit\n== thread 0: ended\n== thread 1: ended\n== memory\nx = 4\ny = 4\nq = 100\n",
                b"",
            ),
        ),
        // a transaction that only reads commits late, and what it read was there
        (
            "txc replay a.c --threads 2 --schedule s.txt",
            b"int x = 1; void worker(int self) { int v; if (self == 0) { __transaction_atomic { x = 2; } } else { __transaction_atomic { v = x; } printf(\"%d\\n\", v); } }",
            b"1 a3\n0 a5\n1 a1\n",
            (
                0,
                b"== events\n7 0 commit\n7 1 commit\n== thread 0: ended\n== thread 1: ended\n1\n== memory\nx = 2\n",
                b"",
            ),
        ),
        // what a cancelled transaction has read is still validated
        (
            "txc replay a.c --threads 2 --schedule s.txt",
            b"int f, g = 1, h; void worker(int self) { if (self == 0) { __transaction_atomic { f = 1; h = 1; } } else { __transaction_atomic { __transaction_atomic { if (f == 0) { g = 9; __transaction_cancel; } g = 5; } g = g + h; } } }",
            b"1 a5\n0 a6\n1 a13\n",
            (
                0,
                b"== events\n3 1 cancel\n10 0 commit\n14 1 abort\n22 1 commit\n== thread 0: ended\n== thread 1: ended\n== memory\nf = 1\ng = 6\nh = 1\n",
                b"",
            ),
        ),
        // an attempt is dropped before it prints
        (
            "txc replay a.c --threads 2 --schedule s.txt",
            b"int x; void worker(int self) { __transaction_relaxed { x = x + 1; printf(\"%d\\n\", x); } }",
            b"0 a3\n1 a3\n0 a1\n1 a2\n0 a3\n1 a9\n",
            (
                0,
                b"== events\n11 0 commit\n13 1 abort\n19 1 commit\n== thread 0: ended\n1\n== thread 1: ended\n2\n== memory\nx = 2\n",
                b"",
            ),
        ),
        // a thread that has the lock
        (
            "txc replay a.c --threads 1 --schedule s.txt",
            b"int x; void worker(int self) { __transaction_relaxed { x = x + 1; printf(\"%d\\n\", x); } }",
            b"0 a5\n",
            (
                4,
                b"== events\n== thread 0: running\n1\n== memory: lock held by thread 0\n",
                b"",
            ),
        ),
        // a trap releases the lock and stores nothing
        (
            "txc replay a.c --threads 1 --schedule s.txt",
            b"int x = 2147483647, y; void worker(int self) { __transaction_relaxed { y = 3; printf(\"go\\n\"); x = x + 1; } }",
            b"0 a10\n",
            (
                3,
                b"== events\n4 0 trap 1\n== thread 0: trap 1\ngo\n== memory\nx = 2147483647\ny = 0\n",
                b"",
            ),
        ),
        // an inner cancel
        (
            "txc replay a.c --threads 1 --schedule s.txt",
            b"int x = 1, y; void worker(int self) { __transaction_atomic { x = 2; __transaction_atomic { x = 3; y = x; __transaction_cancel; } y = x + y; } }",
            b"0 a20\n",
            (
                0,
                b"== events\n1 0 cancel\n7 0 commit\n== thread 0: ended\n== memory\nx = 2\ny = 2\n",
                b"",
            ),
        ),
        // the lock is taken before the first print
        (
            "txc replay a.c --threads 1 --schedule s.txt",
            b"int x = 4; void worker(int self) { __transaction_relaxed { x = x + 1; printf(\"%d \", x); x = x * 2; printf(\"%d\", x); } }",
            b"0 a20\n",
            (
                0,
                b"== events\n6 0 commit\n== thread 0: ended\n5 10\n== memory\nx = 10\n",
                b"",
            ),
        ),
        // a cancel while the lock is kept
        (
            "txc replay a.c --threads 1 --schedule s.txt",
            b"int x = 4, y = 7; void worker(int self) { __transaction_relaxed { printf(\"go\"); x = y; __transaction_atomic { y = 1; __transaction_cancel; } } }",
            b"0 a20\n",
            (
                0,
                b"== events\n3 0 cancel\n5 0 commit\n== thread 0: ended\ngo\n== memory\nx = 7\ny = 7\n",
                b"",
            ),
        ),
        // a stranger: the steps before it stand
        (
            "txc replay a.c --threads 2 --schedule s.txt",
            b"void worker(int self) { }",
            b"0 1000\n7 1\n1 100\n",
            (
                4,
                b"== events\n== thread 0: ended\n== thread 1: running\n== memory\n",
                b"txc: fault 71 at step 1000\n",
            ),
        ),
        // a stranger when all threads have ended, or one has trapped
        (
            "txc replay a.c --threads 1 --schedule s.txt",
            b"void worker(int self) { }",
            b"0 5\n1 a1\n",
            (
                4,
                b"== events\n== thread 0: ended\n== memory\n",
                b"txc: fault 71 at step 5\n",
            ),
        ),
        (
            "txc replay a.c --threads 1 --schedule s.txt",
            b"void worker(int self) { 1 << 32; }",
            b"0 9\n4294967295 1\n",
            (
                4,
                b"== events\n0 0 trap 5\n== thread 0: trap 5\n== memory\n",
                b"txc: fault 71 at step 9\n",
            ),
        ),
        // a stranger of whom no step is asked
        (
            "txc replay a.c --threads 1 --schedule s.txt",
            b"void worker(int self) { }",
            b"7 0\n0 5\n",
            (0, b"== events\n== thread 0: ended\n== memory\n", b""),
        ),
        // as many steps as a schedule may ask for, none, and no line
        (
            "txc replay a.c --threads 1 --schedule s.txt",
            b"void worker(int self) { }",
            b"0 1048576\n",
            (0, b"== events\n== thread 0: ended\n== memory\n", b""),
        ),
        (
            "txc replay a.c --threads 1 --schedule s.txt",
            b"void worker(int self) { }",
            b"0 a0\n",
            (4, b"== events\n== thread 0: running\n== memory\n", b""),
        ),
        (
            "txc replay a.c --threads 1 --schedule s.txt",
            b"int x; void worker(int self) { __transaction_atomic { x = x + 1; } }",
            b"\n",
            (
                4,
                b"== events\n== thread 0: running\n== memory\nx = 0\n",
                b"",
            ),
        ),
        // spaces round the two, leading zeros, blank lines, and CR before LF
        (
            "txc replay a.c --threads 1 --schedule s.txt",
            b"int x; void worker(int self) { __transaction_atomic { x = x + 1; } }",
            b"  0   a004  \r\n\r\n   \n0 a9",
            (
                0,
                b"== events\n6 0 commit\n== thread 0: ended\n== memory\nx = 1\n",
                b"",
            ),
        ),
        // words of 64 bits: one that has changed above its lower half is another one, and a cancel undoes all of it
        (
            "txc replay a.c --threads 2 --schedule s.txt",
            b"long long x; void worker(int self) { __transaction_atomic { x = x + 4294967296; } }",
            b"0 a1\n1 a1\n0 a1\n1 a1\n0 a1\n1 a1\n0 a1\n1 a1\n0 a1\n1 a1\n0 a2\n1 a9\n",
            (
                0,
                b"== events\n11 0 commit\n13 1 abort\n19 1 commit\n== thread 0: ended\n== thread 1: ended\n== memory\nx = 8589934592\n",
                b"",
            ),
        ),
        (
            "txc replay a.c --schedule s.txt",
            b"long long x = 1, y; void worker(int self) { __transaction_atomic { x = 4294967298; __transaction_atomic { x = 3; y = x; __transaction_cancel; } y = y - x; } }",
            b"0 a20\n",
            (
                0,
                b"== events\n1 0 cancel\n7 0 commit\n== thread 0: ended\n== memory\nx = 4294967298\ny = -4294967298\n",
                b"",
            ),
        ),
        (
            "txc replay a.c --schedule s.txt --timeline",
            b"long long x = -1; void worker(int self) { __transaction_atomic { x = x * 4294967296 - 1; } }",
            b"0 a9\n",
            (
                0,
                b"== timeline\n1 0 0 begin >8; load lock = 0\n2 0 1 rd r1 @0; load @0 = 18446744073709551615\n3 0 1 rd r1 @0; load lock = 0\n3 0 2 const r2 #4294967296\n3 0 3 mul.l r1 r1 r2\n3 0 4 const r2 #1\n3 0 5 sub.l r1 r1 r2\n3 0 6 wr @0 r1\n4 0 7 commit; swap lock 0: won\n5 0 7 commit; store @0 = 18446744069414584319\n6 0 7 commit; store lock = 2; commit\n6 0 8 ret\n== events\n6 0 commit\n== thread 0: ended\n== memory\nx = -4294967297\n",
                b"",
            ),
        ),
    ];
    &ROWS
}

#[test]
fn replays_schedules(rt: HostRuntime) {
    assert_eq!(rt; wrong_row(&rt, rt.alloc(), schedules()), None);
}

/// A schedule that is refused, what is told of it, and what follows on a terminal.
type Refusal = (&'static [u8], &'static [u8], &'static [u8]);

fn refusals() -> &'static [Refusal] {
    static ROWS: [Refusal; 9] = [
        (
            b"0 x",
            b"txc: fault 80 at line 1\n",
            b"0 x\n^^^\nbad schedule line\ntxc explain 80 says more\n",
        ),
        (
            b"0 1\n\n  1 b2 \n0 1\n",
            b"txc: fault 80 at line 3\n",
            b"  1 b2 \n^^^^^^^\nbad schedule line\ntxc explain 80 says more\n",
        ),
        (
            b"0 1\r\n-1 1\r\n",
            b"txc: fault 80 at line 2\n",
            b"-1 1\n^^^^\nbad schedule line\ntxc explain 80 says more\n",
        ),
        (
            b"0 4294967296\n",
            b"txc: fault 80 at line 1\n",
            b"0 4294967296\n^^^^^^^^^^^^\nbad schedule line\ntxc explain 80 says more\n",
        ),
        (
            b"-1 1",
            b"txc: fault 80 at line 1\n",
            b"-1 1\n^^^^\nbad schedule line\ntxc explain 80 says more\n",
        ),
        (
            b"0\t1",
            b"txc: fault 80 at line 1\n",
            b"0\t1\n^^^\nbad schedule line\ntxc explain 80 says more\n",
        ),
        (
            b"0 1048576\n0 1\n",
            b"txc: fault 81\n",
            b"schedule too long\ntxc explain 81 says more\n",
        ),
        // the first of two faults decides
        (
            b"0 1048576\n0 1\n0 x\n",
            b"txc: fault 81\n",
            b"schedule too long\ntxc explain 81 says more\n",
        ),
        (b"0 \xff", b"txc: s.txt is not UTF-8\n", b""),
    ];
    &ROWS
}

/// Whether this is what was served of a schedule that is refused: its fault, and this behind it.
fn is_refused_so(served: &Served, told: &[u8], shown: &[u8]) -> bool {
    let err = served.err.as_slice();
    served.status == 2
        && served.out.is_empty()
        && err.starts_with(told)
        && err.get(told.len()..) == Some(shown)
}

/// Whether a schedule is refused so, on a terminal or not.
fn is_refused<H: Threads + Wait + Sync>(
    rt: &H,
    alloc: Global,
    schedule: &[u8],
    is_terminal: bool,
    told: &[u8],
    shown: &[u8],
) -> bool {
    let line = "txc replay a.c --schedule s.txt";
    match serve_line(rt, alloc, line, ADDS, schedule, is_terminal) {
        Some(served) => is_refused_so(&served, told, shown),
        None => false,
    }
}

/// The first schedule of the table that is not refused so on a terminal, and without what is shown elsewhere.
fn not_refused<H: Threads + Wait + Sync>(rt: &H, alloc: Global) -> Option<&'static [u8]> {
    for (schedule, told, shown) in refusals() {
        if !is_refused(rt, alloc, schedule, true, told, shown)
            || !is_refused(rt, alloc, schedule, false, told, b"")
        {
            return Some(*schedule);
        }
    }
    None
}

#[test]
fn refuses_schedules(rt: HostRuntime) {
    assert_eq!(rt; not_refused(&rt, rt.alloc()), None);
}

/// A source that is refused, and what is answered.
const BARE: &[u8] = b"int x; void worker(int self) { x = 1; }";

const BARE_ANSWER: ServeResult<'static> = (
    1,
    b"",
    b"txc: fault 50 at 1:32: shared access outside a transaction\n",
);

/// A source is refused before its schedule is read.
#[test]
fn refuses_a_source_first(rt: HostRuntime) {
    let line = "txc replay a.c --threads 1 --schedule s.txt";
    assert!(rt; answers(&rt, rt.alloc(), line, BARE, b"0 x", false, BARE_ANSWER));
}

/// Whether this is told of a schedule that cannot be read.
fn is_unread<H: Threads + Wait + Sync>(rt: &H, alloc: Global, line: &str, told: &[u8]) -> bool {
    match request_of(alloc, line) {
        Ok(request) => is_answer(
            &serve_bytes(rt, alloc, &request, ADDS, Broken, false),
            (2, b"", told),
        ),
        Err(_) => false,
    }
}

#[test]
fn a_schedule_that_cannot_be_read(rt: HostRuntime) {
    let line = "txc replay a.c --schedule=s.txt --verbose";
    let told = b"txc: cannot read s.txt (permission denied)\n";
    assert!(rt; is_unread(&rt, rt.alloc(), line, told));
}

/// The steps of seed 7 for three threads, by PCG-XSH-RR 64/32 as it was published.
const SEED_7: &[u8] =
    b"2 2\n1 1\n0 3\n2 1\n1 1\n2 1\n0 2\n1 1\n2 1\n1 2\n0 3\n1 1\n2 1\n0 1\n2 1\n0 1\n1 1\n0 1\n2 1\n1 1\n2 2\n1 1\n2 2\n1 1\n0 1\n1 1\n0 2\n2 1\n1 1\n0 1\n2 1\n0 2\n1 4\n2 2\n0 1\n1 3\n0 3\n1 1\n0 3";

/// Three threads that add, and show what they find.
const SHOWS: &[u8] =
    b"int x = 1; void worker(int self) { int i; for (i = 0; i < 2; i++) { int v; __transaction_atomic { v = x; x = x * 3 + self; } printf(\"%d \", v); } }";

/// What is served to a command line with a source and no schedule.
fn serve_alone<H: Threads + Wait + Sync>(
    rt: &H,
    alloc: Global,
    line: &str,
    source: &[u8],
) -> Option<Served> {
    serve_line(rt, alloc, line, source, b"", false)
}

/// Whether a replay of a schedule by three threads is answered as another one was.
fn is_replayed_alike<H: Threads + Wait + Sync>(
    rt: &H,
    alloc: Global,
    schedule: &[u8],
    other: &Served,
) -> bool {
    let line = "txc replay a.c --threads 3 --schedule s.txt";
    let wanted = (other.status, other.out.as_slice(), other.err.as_slice());
    answers(rt, alloc, line, SHOWS, schedule, false, wanted)
}

/// The status of the replay that a line asks, where that of a schedule is answered alike.
fn status_as_of<H: Threads + Wait + Sync>(
    rt: &H,
    alloc: Global,
    line: &str,
    schedule: &[u8],
) -> Option<u8> {
    let seeded = serve_alone(rt, alloc, line, SHOWS)?;
    if seeded.err.is_empty() && is_replayed_alike(rt, alloc, schedule, &seeded) {
        Some(seeded.status)
    } else {
        None
    }
}

/// The status of what a line is answered.
fn status_of<H: Threads + Wait + Sync>(rt: &H, alloc: Global, line: &str) -> Option<u8> {
    match serve_alone(rt, alloc, line, SHOWS) {
        Some(served) => Some(served.status),
        None => None,
    }
}

#[test]
fn replays_seeds(rt: HostRuntime) {
    let first = "txc replay a.c --threads=3 --seed=7 --steps=60";
    assert!(rt; status_as_of(&rt, rt.alloc(), first, SEED_7) == Some(4));
    let whole = "txc replay a.c --threads=3 --seed=7";
    assert!(rt; status_of(&rt, rt.alloc(), whole) == Some(0));
}

fn printed_schedules() -> &'static [Row] {
    static ROWS: [Row; 2] = [
        (
            "txc replay a.c --threads=3 --seed=7 --steps=5 --print-schedule",
            SHOWS,
            b"",
            (0, b"2 1\n2 1\n1 1\n0 1\n0 1\n", b""),
        ),
        (
            "txc replay a.c --threads=3 --seed=7 --steps=5 --print-schedule",
            BARE,
            b"",
            BARE_ANSWER,
        ),
    ];
    &ROWS
}

#[test]
fn prints_schedules(rt: HostRuntime) {
    assert_eq!(rt; wrong_row(&rt, rt.alloc(), printed_schedules()), None);
}

/// Whether the steps of a seed, which one line replays and the other prints as a schedule, are read back to the same
/// report.
fn reads_back<H: Threads + Wait + Sync>(rt: &H, alloc: Global, replay: &str, print: &str) -> bool {
    match serve_alone(rt, alloc, print, SHOWS) {
        Some(printed) => status_as_of(rt, alloc, replay, printed.out.as_slice()).is_some(),
        None => false,
    }
}

#[test]
fn reads_back_what_is_printed(rt: HostRuntime) {
    let replay = "txc replay a.c --threads=3 --seed=4294967295";
    let print = "txc replay a.c --threads=3 --seed=4294967295 --print-schedule";
    assert!(rt; reads_back(&rt, rt.alloc(), replay, print));
}

/// A request of so many threads and steps.
fn seeded_request(alloc: Global, threads: u32, count: u32) -> Result<Request, AllocError> {
    let file = String::from_str(alloc, "a.c")?;
    let steps = Steps::Seed { seed: 1, count };
    Ok(Request::Program {
        file,
        verbose: false,
        format: Format::Plain,
        task: Task::Replay { threads, steps },
    })
}

/// Whether a request of so many threads and steps of a seed is answered so.
fn is_answered<H: Threads + Wait + Sync>(
    rt: &H,
    alloc: Global,
    threads: u32,
    count: u32,
    wanted: ServeResult,
) -> bool {
    let none = b"".as_slice();
    match seeded_request(alloc, threads, count) {
        Ok(request) => is_answer(&serve_bytes(rt, alloc, &request, ADDS, none, false), wanted),
        Err(_) => false,
    }
}

/// What no words ask for, and a caller may all the same.
#[test]
fn refuses_requests(rt: HostRuntime) {
    let wrong_threads = (4, b"".as_slice(), b"txc: fault 72\n".as_slice());
    assert!(rt; is_answered(&rt, rt.alloc(), 0, 5, wrong_threads));
    assert!(rt; is_answered(&rt, rt.alloc(), 65, 5, wrong_threads));
    let too_many_steps = (2, b"".as_slice(), b"txc: fault 81\n".as_slice());
    assert!(rt; is_answered(&rt, rt.alloc(), 1, 1048577, too_many_steps));
}

/// A loop of transactions, and a print after each.
const COUNTS: &[u8] =
    b"int x; void worker(int self) { int i; for (i = 0; i < 100; i++) { __transaction_atomic { x = x + 1; } printf(\"%d \", i); } }";

/// The thread of a commit that a line tells.
fn committer(line: &str) -> Option<&str> {
    let told = line.strip_suffix(" commit")?;
    let (_, thread) = told.split_once(' ')?;
    Some(thread)
}

/// One more of the threads that commas join at the end of a command line.
fn push_thread(line: &mut String, thread: &str) -> Result<(), AllocError> {
    if !line.as_str().ends_with(' ') {
        line.push_str(",")?;
    }
    line.push_str(thread)
}

/// The threads of the commits that a report tells, in their order.
fn push_order(line: &mut String, report: &str) -> Result<(), AllocError> {
    for told in report.lines() {
        if told.starts_with("== thread") {
            break;
        }
        if let Some(thread) = committer(told) {
            push_thread(line, thread)?;
        }
    }
    Ok(())
}

/// What a report says that a thread has printed, behind the line that begins so.
fn text_of<'a>(report: &'a str, begins: &str) -> Option<&'a str> {
    let (_, line) = report.split_once(begins)?;
    let (_, behind) = line.split_once('\n')?;
    let (text, _) = behind.split_once("== ")?;
    Some(text.strip_suffix("\n").unwrap_or(text))
}

/// Whether the text of one thread in a replay begins that in a run of the source.
fn is_begun(replayed: &str, ran: &str, begins: &str) -> bool {
    match (text_of(replayed, begins), text_of(ran, begins)) {
        (Some(text), Some(whole)) => whole.starts_with(text),
        _ => false,
    }
}

/// Whether a run of the source leaves what a replay does, if that tells it, and each thread's text there begins the one
/// here.
fn agrees(replayed: &str, ran: &str) -> bool {
    let Some((_, left)) = replayed.split_once("== memory\n") else {
        return true;
    };
    for begins in [
        "== thread 0: ",
        "== thread 1: ",
        "== thread 2: ",
        "== thread 3: ",
    ] {
        if !is_begun(replayed, ran, begins) {
            return false;
        }
    }
    ran.ends_with(left)
}

/// Whether the source, run as a line asks, agrees with a replay.
fn runs_alike<H: Threads + Wait + Sync>(rt: &H, alloc: Global, line: &str, replayed: &str) -> bool {
    match serve_alone(rt, alloc, line, COUNTS) {
        Some(ran) => match str::from_utf8(ran.out.as_slice()) {
            Ok(ran) => agrees(replayed, ran),
            Err(_) => false,
        },
        None => false,
    }
}

/// Whether the source agrees with a replay in the order of its commits.
fn runs_in_its_order<H: Threads + Wait + Sync>(rt: &H, alloc: Global, replayed: &str) -> bool {
    match String::from_str(alloc, "txc source a.c --threads=4 --order ") {
        Ok(mut line) => {
            push_order(&mut line, replayed).is_ok()
                && runs_alike(rt, alloc, line.as_str(), replayed)
        }
        Err(_) => false,
    }
}

/// Whether the source agrees with the replay that a line asks, in the order of its commits.
fn runs_as_replayed<H: Threads + Wait + Sync>(rt: &H, alloc: Global, line: &str) -> bool {
    match serve_alone(rt, alloc, line, COUNTS) {
        Some(replayed) => match str::from_utf8(replayed.out.as_slice()) {
            Ok(replayed) => runs_in_its_order(rt, alloc, replayed),
            Err(_) => false,
        },
        None => false,
    }
}

/// Whether the source agrees with a replay of the steps of a seed, in the order of its commits.
fn runs_as_seeded<H: Threads + Wait + Sync>(rt: &H, alloc: Global, seed: u32) -> bool {
    match format!(in alloc; "txc replay a.c --threads=4 --seed={seed} --steps=100000") {
        Ok(line) => runs_as_replayed(rt, alloc, line.as_str()),
        Err(_) => false,
    }
}

/// The first seed up to 20 with which the source does not agree with the replay.
fn disagreeing_seed<H: Threads + Wait + Sync>(rt: &H, alloc: Global) -> Option<u32> {
    for seed in 1..21u32 {
        if !runs_as_seeded(rt, alloc, seed) {
            return Some(seed);
        }
    }
    None
}

/// What the source leaves and prints in the order of the commits is what the replay does.
#[test]
fn the_source_agrees_in_the_order_of_commits(rt: HostRuntime) {
    assert_eq!(rt; disagreeing_seed(&rt, rt.alloc()), None);
}
