//! Sources with what is warned of them, and ones of which nothing is.

use crate::asserted::assert_none;
use lex::place;
use lex::token::Span;
use std::alloc::{AllocError, Global};
use test_programs::accepted_of;
use warnings::{Warning, warnings};

/// A source, and a line for each warning: its name and place, and where the other thing stands that it speaks of.
type Row = (&'static str, &'static str);

/// The rows are in three functions, so that no proof but their own looks at them, and each proof is short.
fn first_rows() -> &'static [Row] {
    static ROWS: [Row; 36] = [
        // waits
        (
            "int x; void worker(int self) { __transaction_atomic { while (x == 0) ; } }",
            "endless-wait 1:62\n",
        ),
        (
            "int x; void worker(int self) { __transaction_atomic { while (x != self) { int k = 1; k++; } } }",
            "endless-wait 1:62\n",
        ),
        (
            "int x, y; void worker(int self) { __transaction_relaxed { do y++; while (x < 3); for (; x < 3; ) y++; } }",
            "endless-wait 1:74\nendless-wait 1:89\n",
        ),
        (
            "int a[4]; void worker(int self) { __transaction_atomic { while (a[self]) ; } }",
            "endless-wait 1:65\n",
        ),
        (
            "int x; void worker(int self) { __transaction_atomic { while (__transaction_atomic (x) == 0) ; } }",
            "endless-wait 1:62\n",
        ),
        (
            "int x; void wait(void) { while (x == 0) ; } void worker(int self) { __transaction_atomic { wait(); } }",
            "endless-wait 1:33\n",
        ),
        // what is written in the loop, by its step, or by a function that is called
        (
            "int x; void worker(int self) { __transaction_atomic { while (x == 0) x = 1; for (; x < 3; x++) ; } }",
            "",
        ),
        (
            "int a[4]; void worker(int self) { __transaction_atomic { while (a[self]) a[0] = 0; } }",
            "",
        ),
        (
            "int x; void worker(int self) { int i = 0; __transaction_atomic { while (x == i) i++; } }",
            "",
        ),
        (
            "int x; void f(void) { x = 1; } void worker(int self) { __transaction_atomic { while (x == 0) f(); } }",
            "",
        ),
        // a way out, and nothing shared
        (
            "int x; void worker(int self) { __transaction_atomic { while (x == 0) { if (self) break; } } }",
            "",
        ),
        (
            "void worker(int self) { __transaction_atomic { while (self) ; } }",
            "",
        ),
        // waits for another thread in a transaction, which sees none
        (
            "int x; void worker(int self) { if (self) __transaction_atomic { while (x == 0) ; } __transaction_atomic { x = 1; } }",
            "transaction-wait 1:72\n",
        ),
        (
            "int x; int ready(void) { return x; } void worker(int self) { if (self) __transaction_atomic { while (!ready()) ; } __transaction_atomic { x = 1; } }",
            "transaction-wait 1:102\n",
        ),
        (
            "int x; void worker(int self) { if (self) __transaction_atomic { int ok; do { ok = x > 2; } while (!ok); } __transaction_atomic { x = 3; } }",
            "transaction-wait 1:99\n",
        ),
        (
            "int x; void wait(void) { while (x == 0) ; } void worker(int self) { if (self) __transaction_atomic { wait(); } __transaction_atomic { x = 1; } }",
            "transaction-wait 1:33\n",
        ),
        (
            "int x; void wait(void) { while (!__transaction_atomic (x)) ; } void worker(int self) { wait(); __transaction_atomic { wait(); } __transaction_atomic { x = 1; } }",
            "transaction-wait 1:119 1:33\n",
        ),
        (
            "int x; void wait(void) { while (!__transaction_atomic (x)) ; } void both(void) { wait(); wait(); } void worker(int self) { wait(); both(); __transaction_atomic { both(); } __transaction_atomic { x = 1; } }",
            "transaction-wait 1:163 1:33\n",
        ),
        (
            "int x; void take(void) { int ok = 0; while (!ok) { __transaction_atomic { ok = !x; if (ok) x = 1; } } } void worker(int self) { take(); __transaction_atomic { x = 0; } __transaction_atomic { take(); } }",
            "transaction-wait 1:192 1:45\n",
        ),
        // which the loop ends itself, also by a call
        (
            "int x; int next(void) { x++; return x > 3; } void worker(int self) { __transaction_atomic { while (!next()) ; } __transaction_atomic { x = 0; } }",
            "",
        ),
        (
            "int x; void add(void) { x++; } void more(void) { add(); } void worker(int self) { __transaction_atomic { while (x < 3) more(); } __transaction_atomic { x = 0; } }",
            "",
        ),
        // waits for what no thread writes
        (
            "int x; void worker(int self) { while (__transaction_atomic (x) == 0) ; }",
            "endless-wait 1:39\n",
        ),
        (
            "int x; void worker(int self) { while (__transaction_atomic (x) < 3) ; }",
            "endless-wait 1:39\n",
        ),
        (
            "int x, y; void worker(int self) { __transaction_atomic { x = 0; } while (!__transaction_atomic (x)) ; __transaction_atomic { y = 1; } }",
            "endless-wait 1:74\n",
        ),
        (
            "int x = 1, y; void worker(int self) { int busy = 1; while (busy) { __transaction_atomic { busy = x != 0; } } __transaction_atomic { y = 1; } }",
            "endless-wait 1:60\n",
        ),
        (
            "int x; int look(void) { int seen; __transaction_atomic { seen = x; } return seen; } void worker(int self) { while (!look()) ; }",
            "endless-wait 1:116\n",
        ),
        (
            "int x; int f(int n) { return n ? f(n - 1) : x; } void worker(int self) { __transaction_atomic { while (f(2) == 0) ; } }",
            "endless-wait 1:104\n",
        ),
        (
            "int x; int odd(int n); int even(int n) { return n ? odd(n - 1) : x; } int odd(int n) { return n ? even(n - 1) : 0; } void worker(int self) { __transaction_atomic { while (even(self) == 0) ; } }",
            "endless-wait 1:172\n",
        ),
        // what some thread writes, or the loop counts
        (
            "int x; void set(int to) { __transaction_atomic { x = to; } } void worker(int self) { if (self) while (!__transaction_atomic (x)) ; else set(1); }",
            "",
        ),
        (
            "int x; void worker(int self) { int i = 0; while (i < __transaction_atomic (x)) i++; }",
            "",
        ),
        (
            "int x; int odd(int n); int even(int n) { return n ? odd(n - 1) : x; } int odd(int n) { x = n; return n ? even(n - 1) : 0; } void worker(int self) { __transaction_atomic { while (even(self) == 0) ; } }",
            "",
        ),
        (
            "int x; int unused(void) { while (!__transaction_atomic (x)) ; return 1; } void worker(int self) { __transaction_atomic { x = 1; } }",
            "",
        ),
        // locks that no thread gives back
        (
            "int x, n; void worker(int self) { int mine = 0; while (!mine) { __transaction_atomic { mine = !x; if (mine) x = 1; } } __transaction_atomic { n++; } }",
            "kept-lock 1:56 1:109\n",
        ),
        (
            "int x, n; int try(void) { int ok; __transaction_atomic { ok = x == 0; if (ok) x = 1; } return ok; } void worker(int self) { while (!try()) ; __transaction_atomic { n++; } }",
            "kept-lock 1:132 1:79\n",
        ),
        (
            "int x[3], n; void take(int i) { int ok = 0; while (!ok) { __transaction_atomic { ok = !x[i]; x[i] = 1; } } } void worker(int self) { take(self % 3); __transaction_atomic { n++; } }",
            "kept-lock 1:52 1:94\n",
        ),
        // one that is given back, and a flag that is set once
        (
            "int x[3], n; void take(int i) { int ok = 0; while (!ok) { __transaction_atomic { ok = !x[i]; if (ok) x[i] = 1; } } } void worker(int self) { take(self % 3); __transaction_atomic { n++; } __transaction_atomic { x[self % 3] = 0; } }",
            "",
        ),
    ];
    &ROWS
}

/// More rows.
fn middle_rows() -> &'static [Row] {
    static ROWS: [Row; 36] = [
        (
            "int x; void worker(int self) { int first; __transaction_atomic { first = !x; x = 1; } while (!__transaction_atomic (x)) ; }",
            "",
        ),
        // writes that are undone
        (
            "int x; void worker(int self) { __transaction_atomic { x++; __transaction_cancel; } }",
            "undone-write 1:55 1:60\n",
        ),
        (
            "int x, y; void worker(int self) { __transaction_atomic { x++; if (x > 3) { y = 1; __transaction_cancel; } } }",
            "undone-write 1:76 1:83\n",
        ),
        (
            "int x; void worker(int self) { int no = 0; __transaction_atomic { x++; if (x > 3) { no = 1; __transaction_cancel; } } }",
            "undone-write 1:85 1:93\n",
        ),
        (
            "int a[4]; void worker(int self) { __transaction_atomic { { a[self] = 1; } { __transaction_cancel; } } }",
            "undone-write 1:60 1:77\n",
        ),
        (
            "int x, y; void worker(int self) { __transaction_atomic [[outer]] { y = 2; __transaction_atomic { x = 1; __transaction_cancel [[outer]]; } } }",
            "undone-write 1:68 1:105\nundone-write 1:98 1:105\n",
        ),
        (
            "int x, y; void worker(int self) { __transaction_atomic { y = 2; __transaction_atomic { x = 1; __transaction_cancel; } } }",
            "undone-write 1:88 1:95\n",
        ),
        // the cancel may not come, or a way out comes before it
        (
            "int x; void worker(int self) { __transaction_atomic { x++; if (x > 3) __transaction_cancel; } }",
            "",
        ),
        (
            "int x; void worker(int self) { __transaction_atomic { if (x > 3) { x = 1; return; } __transaction_cancel; } }",
            "",
        ),
        // a local of the transaction itself
        (
            "int x; void worker(int self) { __transaction_atomic { int no = 0; x++; if (x > 3) { no = 1; __transaction_cancel; } } }",
            "",
        ),
        // reads that are stale where they decide
        (
            "int x; void worker(int self) { int f; __transaction_atomic { f = x > 0; } if (f) { __transaction_atomic { x = x - 1; } } }",
            "stale-read 1:66 1:107\n",
        ),
        (
            "int x; void worker(int self) { int f = __transaction_atomic (x); __transaction_atomic { x = f + 1; } }",
            "stale-read 1:62 1:89\n",
        ),
        (
            "int x; void worker(int self) { int f; __transaction_atomic { f = x; } f++; __transaction_atomic { x = f; } }",
            "stale-read 1:66 1:99\n",
        ),
        (
            "int x; void worker(int self) { if (__transaction_atomic (x) > 0) __transaction_atomic { x--; } }",
            "stale-read 1:58 1:89\n",
        ),
        (
            "int x; void worker(int self) { if (__transaction_atomic (x) == 0) return; __transaction_atomic { x--; } }",
            "stale-read 1:58 1:98\n",
        ),
        (
            "int x; void f(void) { int y; __transaction_atomic { y = x; } __transaction_atomic { x = y + 1; } } void worker(int self) { f(); }",
            "stale-read 1:57 1:85\n",
        ),
        // read again where it is written
        (
            "int x; void worker(int self) { if (__transaction_atomic (x) > 0) __transaction_atomic { if (x > 0) x--; } }",
            "",
        ),
        (
            "int x; void worker(int self) { int y = __transaction_atomic (x); __transaction_atomic { if (x == y) x = y + 1; } }",
            "",
        ),
        // the transaction that reads writes too, or all is done in one, or something else is written
        (
            "int x; void worker(int self) { int f; __transaction_atomic { f = x > 0; if (f) x = x - 1; } if (f) __transaction_atomic { x = x + 1; } }",
            "",
        ),
        (
            "int x; void worker(int self) { int i; for (i = 0; i < 3; i++) { int p; __transaction_atomic { p = x / 8; x = x - p; } } }",
            "",
        ),
        (
            "int x, y; void worker(int self) { int f; __transaction_atomic { f = x > 0; } if (f) { __transaction_atomic { y = 1; } } }",
            "",
        ),
        // a wait for one's turn
        (
            "int x; void worker(int self) { while (__transaction_atomic (x) != self) ; __transaction_atomic { x = self + 1; } }",
            "",
        ),
        // a function that runs in transactions alone
        (
            "int x; void f(void) { int y; __transaction_atomic { y = x; } __transaction_atomic { x = y + 1; } } void worker(int self) { __transaction_atomic { f(); } }",
            "",
        ),
        // through calls
        (
            "int x; int look(void) { return __transaction_atomic (x); } void set(int to) { __transaction_atomic { x = to; } } void worker(int self) { set(look() + 1); }",
            "stale-read 1:142 1:102\n",
        ),
        (
            "int x; int look(void) { int y; __transaction_atomic { y = x; } return y > 0; } void buy(void) { __transaction_atomic { x--; } } void worker(int self) { if (look()) buy(); }",
            "stale-read 1:157 1:120\n",
        ),
        (
            "int x; int look(void) { if (__transaction_atomic (x) > 0) return 1; return 0; } void buy(void) { __transaction_atomic { x--; } } void worker(int self) { int free = look(); if (free) { buy(); } }",
            "stale-read 1:165 1:121\n",
        ),
        (
            "int x; int look(void) { return x; } void set(int to) { x = to; } void worker(int self) { int y; __transaction_atomic { y = look(); } __transaction_atomic { set(y + 1); } }",
            "stale-read 1:124 1:56\n",
        ),
        (
            "int x; void set(int to) { __transaction_atomic { x = to; } } void change(int to) { set(to + 1); } void worker(int self) { change(__transaction_atomic (x)); }",
            "stale-read 1:152 1:50\n",
        ),
        (
            "int x; void down(int n, int to) { if (n) down(n - 1, to); else __transaction_atomic { x = to; } } void worker(int self) { down(3, __transaction_atomic (x)); }",
            "stale-read 1:153 1:87\n",
        ),
        // through calls, in one transaction, checked again, or of an element that was taken
        (
            "int x; int look(void) { return x; } void set(int to) { x = to; } void worker(int self) { __transaction_atomic { set(look() + 1); } }",
            "",
        ),
        (
            "int x; int look(void) { return __transaction_atomic (x); } void buy(void) { __transaction_atomic { if (x > 0) x--; } } void worker(int self) { if (look()) buy(); }",
            "",
        ),
        (
            "int x; int look(void) { return __transaction_atomic (x); } int may(void) { return x > 0; } void buy(void) { __transaction_atomic { if (may()) x--; } } void worker(int self) { if (look()) buy(); }",
            "",
        ),
        (
            "int x; int take(void) { int ok; __transaction_atomic { ok = x > 0; if (ok) x--; } return ok; } void give(void) { __transaction_atomic { x++; } } void worker(int self) { if (take()) give(); }",
            "",
        ),
        (
            "int a[9], n; int pop(void) { int r; __transaction_atomic { n--; r = a[n]; } return r; } void push(int v) { __transaction_atomic { a[n] = v; n++; } } void worker(int self) { push(pop() + 1); }",
            "",
        ),
        // an element that each thread has for itself, and one that others write
        (
            "int a[64]; void worker(int self) { int t = __transaction_atomic (a[self]); __transaction_atomic { a[self] = t + 1; } }",
            "",
        ),
        (
            "int a[64]; void add(int me) { int t = __transaction_atomic (a[me]); __transaction_atomic { a[me] = t + 1; } } void worker(int self) { add(self); add(self); }",
            "",
        ),
    ];
    &ROWS
}

/// More rows.
fn last_rows() -> &'static [Row] {
    static ROWS: [Row; 35] = [
        (
            "int a[64]; void worker(int self) { int t = __transaction_atomic (a[self]); __transaction_atomic { a[self] = t + 1; } __transaction_atomic { a[0] = 0; } }",
            "stale-read 1:66 1:99\n",
        ),
        (
            "int a[64]; void add(int me) { int t = __transaction_atomic (a[me]); __transaction_atomic { a[me] = t + 1; } } void worker(int self) { add(self); add(1 - self); }",
            "stale-read 1:61 1:92\n",
        ),
        // a wait for what each thread may take
        (
            "int x; void worker(int self) { while (!__transaction_atomic (x > 0)) ; __transaction_atomic { x = x - 1; } }",
            "stale-read 1:39 1:95\n",
        ),
        (
            "int x; void worker(int self) { int mine = 0; while (!mine) { __transaction_atomic { mine = !x; } } __transaction_atomic { x = 1; } __transaction_atomic { x = 0; } }",
            "stale-read 1:53 1:123\n",
        ),
        (
            "int x; void wait(void) { while (__transaction_atomic (x)) ; } void worker(int self) { while (__transaction_atomic (x)) ; __transaction_atomic { x = 1; } __transaction_atomic { x = 0; } wait(); }",
            "stale-read 1:94 1:145\n",
        ),
        // one that looks again, one of a single thread, and one that another thread ends again
        (
            "int x; void worker(int self) { while (!__transaction_atomic (x > 0)) ; __transaction_atomic { if (x > 0) x = x - 1; } }",
            "",
        ),
        (
            "int x; void take(void) { while (!__transaction_atomic (x)) ; __transaction_atomic { x = 0; } } void worker(int self) { if (self == 0) __transaction_atomic { x = 1; } else take(); }",
            "",
        ),
        (
            "int x, y; void worker(int self) { while (!__transaction_atomic (x)) ; __transaction_atomic { y = x; } __transaction_atomic { x = 1; } }",
            "",
        ),
        // comparisons
        (
            "void worker(int self) { unsigned i; for (i = 3; i >= 0; i--) ; }",
            "never-negative 1:49\n",
        ),
        (
            "void worker(int self) { unsigned u = 1; if (u < 0) u = 1; if (0 <= u) u = 2; if (0 > (u + 1)) u = 3; }",
            "never-negative 1:45\nnever-negative 1:63\nnever-negative 1:82\n",
        ),
        (
            "void worker(int self) { int i; unsigned u = 1; for (i = 3; i >= 0; i--) ; if (u > 0) u = 1; if (0 < u) u = 2; if (1u >= 0) u = 3; }",
            "",
        ),
        (
            "void worker(int self) { unsigned u = 1; if (u > -1) u = 2; }",
            "negative-as-unsigned 1:45\n",
        ),
        (
            "void worker(int self) { unsigned u = 1; if (u > -1) u = 2; if ((-2) == u) u = 3; }",
            "negative-as-unsigned 1:45\nnegative-as-unsigned 1:64\n",
        ),
        (
            "void worker(int self) { unsigned u = 1; if (u == -1LL) u = 2; if (self == -1) u = 3; if (u == (unsigned) -1) u = 4; }",
            "",
        ),
        // sure traps
        (
            "void worker(int self) { int a = self / 0; }",
            "zero-divisor 1:33\n",
        ),
        (
            "void worker(int self) { int a = self / 0; a = self % (1 - 1); a /= 0; }",
            "zero-divisor 1:33\nzero-divisor 1:47\nzero-divisor 1:68\n",
        ),
        (
            "void worker(int self) { int a = self / 2; a %= 2; a = 1 / (self <= 1); }",
            "",
        ),
        (
            "int a[4]; void worker(int self) { __transaction_atomic { a[4] = 1; } }",
            "index-outside 1:60\n",
        ),
        (
            "int a[4]; void worker(int self) { __transaction_atomic { a[4] = a[-1]; } }",
            "index-outside 1:60\nindex-outside 1:67\n",
        ),
        (
            "int a[4]; void worker(int self) { __transaction_atomic { a[3] = a[self]; } }",
            "",
        ),
        // a thread's own element
        (
            "int a[2], b[4]; void worker(int self) { __transaction_atomic { a[self] = b[self]; } }",
            "own-index 1:64 1:74\n",
        ),
        (
            "int a[2], x; void put(int me) { __transaction_atomic { a[me] = 1; } } void worker(int self) { put(self); if (self == 3) __transaction_atomic { x = 1; } }",
            "own-index 1:56 1:110\n",
        ),
        (
            "int a[2], x; void put(int me) { if (me < 2) __transaction_atomic { a[me] = 1; } } void worker(int self) { put(self); if (self == 3) __transaction_atomic { x = 1; } }",
            "",
        ),
        (
            "int a[2], x; void worker(int self) { __transaction_atomic { a[self] = 1; } if (self == 1) __transaction_atomic { x = 1; } }",
            "",
        ),
        (
            "void worker(int self) { int a = 1 << 32; }",
            "shift-outside 1:33\n",
        ),
        (
            "void worker(int self) { int a = 1 << 32; a = 1 << -1; a <<= 40; long long b = 1LL << 64; }",
            "shift-outside 1:33\nshift-outside 1:46\nshift-outside 1:61\nshift-outside 1:79\n",
        ),
        (
            "void worker(int self) { int a = self >> 31; long long b = self; b >>= 63; b = b << 32; }",
            "",
        ),
        // functions that may end without a return
        (
            "int f(int a) { if (a) return 1; } void worker(int self) { f(self); }",
            "missing-return 1:5\n",
        ),
        (
            "int f(int a) { while (1) { if (a) break; } } void worker(int self) { f(self); }",
            "missing-return 1:5\n",
        ),
        (
            "int x; int f(int a) { __transaction_atomic { if (x) __transaction_cancel; return 1; } } void worker(int self) { f(self); }",
            "missing-return 1:12\n",
        ),
        (
            "int f(int a) { if (a) return 1; else return 2; } void worker(int self) { f(self); }",
            "",
        ),
        (
            "int f(int a) { for (;;) { if (a) return 1; a++; } } int g(int a) { do { return 1; } while (a); } void worker(int self) { f(self); g(self); }",
            "",
        ),
        (
            "int x; int f(int a) { __transaction_atomic { x++; return 1; } } void worker(int self) { f(self); }",
            "",
        ),
        // branches
        (
            "void worker(int self) { if (self) ; printf(\"a\"); }",
            "empty-if 1:29\n",
        ),
        (
            "void worker(int self) { if (self) ; else printf(\"a\"); if (self) { } while (self) ; }",
            "",
        ),
    ];
    &ROWS
}

/// Adds where a span begins, behind a space.
fn put_place(to: &mut String, alloc: Global, text: &str, span: Span) -> Result<(), AllocError> {
    let (line, column) = place(text, span.start.min(text.len()));
    to.push_str(format!(in alloc; " {line}:{column}")?.as_str())
}

/// Adds the line of a warning.
fn put_warning(
    to: &mut String,
    alloc: Global,
    text: &str,
    warning: Warning,
) -> Result<(), AllocError> {
    to.push_str(warning.kind.name())?;
    put_place(to, alloc, text, warning.span)?;
    if let Some(other) = warning.other {
        put_place(to, alloc, text, other)?;
    }
    to.push_str("\n")
}

/// A line for each warning of a source.
fn lines_of(alloc: Global, text: &str, found: &[Warning]) -> Result<String, AllocError> {
    let mut told = String::new(alloc);
    for warning in found {
        put_warning(&mut told, alloc, text, *warning)?;
    }
    Ok(told)
}

/// A line for each warning of a source; none where it is not accepted, or memory is refused.
fn told_of(alloc: Global, text: &str) -> Option<String> {
    let accepted = accepted_of(alloc, text)?;
    match warnings(alloc, &accepted) {
        Ok(found) => lines_of(alloc, text, found.as_slice()).ok(),
        Err(AllocError) => None,
    }
}

/// Whether this is told of a source.
fn is_told(alloc: Global, text: &str, wanted: &str) -> bool {
    match told_of(alloc, text) {
        Some(told) => told.as_str() == wanted,
        None => false,
    }
}

/// The first source of these rows of which something else is told.
fn told_otherwise(alloc: Global, rows: &[Row]) -> Option<&'static str> {
    'rows: for row in rows {
        if !is_told(alloc, row.0, row.1) {
            return Some(row.0);
        }
    }
    None
}

#[test]
fn sources_are_warned_of(rt: HostRuntime) {
    assert_none(&rt, told_otherwise(rt.alloc(), first_rows()));
    assert_none(&rt, told_otherwise(rt.alloc(), middle_rows()));
    assert_none(&rt, told_otherwise(rt.alloc(), last_rows()));
}
