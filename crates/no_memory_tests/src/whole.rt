//! The whole way of five programs, with each of its growths refused once.

use crate::accepted::accepted_of;
use crate::codes::code_of;
use crate::halls::work;
use crate::meant::{carry, founds_of, mean, mean_in_order};
use crate::seen::Seen;
use crate::steps::make;
use bytecode::Code;
use lower::lower;
use separation::Accepted;
use std::alloc::{Allocator, Global};
use std::process::Abort;
use test_memory::{Refusing, growths};

/// A program, how many transactions its thread 1 makes, the order of its threads as single steps, a schedule, and some
/// lines of what is seen of its meaning and of its code.
struct Row {
    text: &'static str,
    transactions: usize,
    order: &'static [u32],
    schedule: &'static str,
    meant: &'static [&'static str],
    made: &'static [&'static str],
}

/// A half of a program's way.
#[derive(Clone, Copy)]
enum Half {
    /// From a program's text to what it means and to its code.
    Meant,
    /// From a program's code to what its threads do, by single steps, in a world and on real words.
    Made,
}

/// A transaction in another one is cancelled, and what it has read is validated still.
fn cancels() -> &'static Row {
    static ROW: Row = Row {
        text: "int f, g = 1, h; void worker(int self) { if (self == 0) { __transaction_atomic { f = 1; h = 1; } } else { \
__transaction_atomic { __transaction_atomic { if (f == 0) { g = 9; __transaction_cancel; } g = 5; } g = g + h; } } }",
        transactions: 1,
        order: &[0, 1],
        schedule: "1 a5\n0 a6\n1 a13",
        meant: &["left [0, 1, 0]", "cell [6]", "end"],
        made: &[
            "event [3, 1]",
            "event [10, 0]",
            "event [14, 1]",
            "event [22, 1]",
            "replay [1, 6, 1]",
            "end",
        ],
    };
    &ROW
}

/// A swap is lost, the validation behind it fails, and the transaction is made again.
fn loses_a_swap() -> &'static Row {
    static ROW: Row = Row {
        text: "int x; void worker(int self) { __transaction_atomic { x = x + 1; } }",
        transactions: 1,
        order: &[0, 1],
        schedule: "0 a1\n1 a1\n0 a1\n1 a1\n0 a1\n1 a1\n0 a1\n1 a1\n0 a1\n1 a1\n0 a2\n1 a9",
        meant: &["left [1]", "ended []", "cell [2]", "end"],
        made: &[
            "event [11, 0]",
            "event [13, 1]",
            "event [19, 1]",
            "replay [2]",
            "end",
        ],
    };
    &ROW
}

/// A relaxed transaction takes the lock before it prints.
fn prints() -> &'static Row {
    static ROW: Row = Row {
        text: "int x; void worker(int self) { __transaction_relaxed { x = x + 1; printf(\"%d\\n\", x); } }",
        transactions: 1,
        order: &[0, 1],
        schedule: "0 a3\n1 a3\n0 a1\n1 a2\n0 a3\n1 a9",
        meant: &[
            "left [1]",
            "ended [49, 10]",
            "ended [50, 10]",
            "cell [2]",
            "end",
        ],
        made: &[
            "event [11, 0]",
            "event [13, 1]",
            "event [19, 1]",
            "replay [49, 10]",
            "replay [50, 10]",
            "replay [2]",
            "end",
        ],
    };
    &ROW
}

/// Thread 0 makes 64 frames, and thread 1 is trapped at the 65th.
fn calls_deep() -> &'static Row {
    static ROW: Row = Row {
        text: "void down(int k) { if (k > 0) down(k - 1); } void worker(int self) { down(62 + self); }",
        transactions: 1,
        order: &[],
        schedule: "0 a1\n1 a1",
        meant: &["ended []", "trapped []", "end"],
        made: &["trapped []", "end"],
    };
    &ROW
}

/// A program with all that the language has.
fn says_all() -> &'static Row {
    static ROW: Row = Row {
        text: "int x = -2, a[3] = {1, 2,}, y; unsigned u, w = 5; \
[[transaction_safe]] int f(int b, unsigned) __attribute__((transaction_callable)); \
int f(int b, unsigned c) { int d = b; { int e = d, k; int b; k = e; b = k; } return c ? b : (int)c; } \
void g(int n) { int c = n, d = c; if (n > 0) g(d - 1); else ; y += n; } \
void h(int b) { printf(\"%d!%u\", b, 7u); } \
void worker(int self) { int i, c = f(self, 2) ? 3 : 2; \
for (int j = 0; j < 2 && self; j++) { int k = j, l; l = k; if (l < 0) continue; \
__transaction_relaxed { a[j] += f(j, x); printf(\"%d!%u\", a[j], u); } } \
while (c) { c--; if (c > 5) break; } do c = 1; while (!c); \
if (__transaction_atomic (x) + __transaction_atomic (a[__transaction_atomic (x & 1)])) \
__transaction_atomic [[outer]] { __transaction_atomic { x++; if (c) __transaction_cancel [[outer]]; } } \
__transaction_atomic { g(self); x = y; w = w * 2; } \
i = __transaction_relaxed (f(__transaction_atomic (a[1]), 5)) * 7; h(-i); printf(\"%d\", c && i | 1); \
{ long long v = 4294967299 * i; i = v; printf(\"%lld\", v); } return; }",
        transactions: 7,
        order: &[0, 1],
        schedule: "0 a7\n1 a9\n0 a9999\n1 a9999\n0 a9999",
        meant: &[
            "left [1, 1, 2, 0, 1, 0, 10]",
            "ended [49, 33, 48, 51, 33, 48, 45, 49, 52, 33, 55, 49, 54, 48, 49, 50, 57, 53, 52, 50, 49, 56, 54]",
            "cell [4294967294]",
            "end",
        ],
        made: &[
            "instructions [213]",
            "event [25, 0]",
            "event [58, 1]",
            "replay [1, 1, 2, 0, 1, 0, 20]",
            "closed [1, 1, 3, 0, 1, 0, 20]",
            "end",
        ],
    };
    &ROW
}

/// What a program means, and its code.
fn show_program<A: Allocator + Copy>(
    alloc: A,
    row: &Row,
    accepted: &Accepted<A>,
    founds: &[Vec<u64, A>],
    seen: &mut Seen,
) -> Option<()> {
    let Some(()) = mean(alloc, accepted, founds, seen) else {
        return None;
    };
    let Some(()) = mean_in_order(alloc, accepted, row.order, seen) else {
        return None;
    };
    match code_of(alloc, accepted, seen) {
        Some(_) => seen.line("end"),
        None => None,
    }
}

/// From a text to its program, which is this one, and on.
fn show_text<A: Allocator + Copy>(
    alloc: A,
    row: &Row,
    wanted: &Accepted<A>,
    founds: &[Vec<u64, A>],
    seen: &mut Seen,
) -> Option<()> {
    match accepted_of(alloc, row.text, wanted, seen) {
        Some(accepted) => show_program(alloc, row, &accepted, founds, seen),
        None => None,
    }
}

/// What a code's threads do, by single steps, in a world and on real words.
fn show_code<A: Allocator + Copy>(
    alloc: A,
    row: &Row,
    code: &Code<A>,
    founds: &[Vec<u64, A>],
    seen: &mut Seen,
) -> Option<()> {
    let Some(found) = founds.first() else {
        return None;
    };
    let Some(()) = carry(alloc, code, found.as_slice(), seen) else {
        return None;
    };
    let Some(()) = make(alloc, code, row.schedule, seen) else {
        return None;
    };
    match work(alloc, code, seen) {
        Some(()) => seen.line("end"),
        None => None,
    }
}

/// Half of the way of a program, with growth `nth` of it refused, which is refused behind what it is compared with and
/// begins with. `None` where a call goes wrong, behind what those before it gave.
fn show_refused<'a>(
    alloc: &'a Refusing<Global>,
    row: &Row,
    half: Half,
    wanted: &Accepted<&'a Refusing<Global>>,
    nth: u64,
    seen: &mut Seen,
) -> Option<()> {
    let Ok(code) = lower(alloc, wanted) else {
        return None;
    };
    match founds_of(alloc, &code, row.transactions) {
        Ok(founds) => {
            alloc.refuse(nth);
            match half {
                Half::Meant => show_text(alloc, row, wanted, founds.as_slice(), seen),
                Half::Made => show_code(alloc, row, &code, founds.as_slice(), seen),
            }
        }
        Err(_) => None,
    }
}

/// What is seen on half of the way of a program, with growth `nth` of it refused.
fn seen_at(inner: Global, alloc: &Refusing<Global>, row: &Row, half: Half, nth: u64) -> Seen {
    let mut seen = Seen::new(inner);
    if let Some(wanted) = test_programs::accepted_of(alloc, row.text) {
        let _end = show_refused(alloc, row, half, &wanted, nth, &mut seen);
    }
    seen
}

/// How many growths are met, each of which was refused once and left the end as it is without a refusal; or the first
/// that did not.
fn growths_met(inner: Global, row: &Row, half: Half, wanted: &Seen) -> Result<u64, u64> {
    growths(inner, 5000, |alloc, nth| {
        seen_at(inner, alloc, row, half, nth).text() == wanted.text()
    })
}

/// Asserts that half of the way of a program shows these lines and meets more growths than 50, each of which may be
/// refused once.
fn assert_goes_on(rt: &impl Abort, inner: Global, row: &Row, half: Half, lines: &[&str]) {
    let wanted = seen_at(inner, &Refusing::new(inner, 0), row, half, 0);
    for line in lines {
        let has_line = wanted.text().lines().any(|found| found == *line);
        assert!(rt; has_line, "no line {line} in {:?}", wanted.text());
    }
    match growths_met(inner, row, half, &wanted) {
        Ok(count) => assert!(rt; count > 50, "{count} growths"),
        Err(nth) => {
            let found = seen_at(inner, &Refusing::new(inner, 0), row, half, nth);
            assert_eq!(rt; found.text(), wanted.text(), "growth {nth} refused");
        }
    }
}

#[test]
fn a_cancel_is_meant(rt: HostRuntime) {
    assert_goes_on(&rt, rt.alloc(), cancels(), Half::Meant, cancels().meant);
}

#[test]
fn a_cancel_is_made(rt: HostRuntime) {
    assert_goes_on(&rt, rt.alloc(), cancels(), Half::Made, cancels().made);
}

#[test]
fn a_lost_swap_is_meant(rt: HostRuntime) {
    assert_goes_on(
        &rt,
        rt.alloc(),
        loses_a_swap(),
        Half::Meant,
        loses_a_swap().meant,
    );
}

#[test]
fn a_lost_swap_is_made(rt: HostRuntime) {
    assert_goes_on(
        &rt,
        rt.alloc(),
        loses_a_swap(),
        Half::Made,
        loses_a_swap().made,
    );
}

#[test]
fn prints_are_meant(rt: HostRuntime) {
    assert_goes_on(&rt, rt.alloc(), prints(), Half::Meant, prints().meant);
}

#[test]
fn prints_are_made(rt: HostRuntime) {
    assert_goes_on(&rt, rt.alloc(), prints(), Half::Made, prints().made);
}

#[test]
fn deep_calls_are_meant(rt: HostRuntime) {
    assert_goes_on(
        &rt,
        rt.alloc(),
        calls_deep(),
        Half::Meant,
        calls_deep().meant,
    );
}

#[test]
fn deep_calls_are_made(rt: HostRuntime) {
    assert_goes_on(&rt, rt.alloc(), calls_deep(), Half::Made, calls_deep().made);
}

#[test]
fn all_is_meant(rt: HostRuntime) {
    assert_goes_on(&rt, rt.alloc(), says_all(), Half::Meant, says_all().meant);
}

#[test]
fn all_is_made(rt: HostRuntime) {
    assert_goes_on(&rt, rt.alloc(), says_all(), Half::Made, says_all().made);
}
