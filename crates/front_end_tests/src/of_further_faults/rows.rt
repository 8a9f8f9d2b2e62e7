//! Sources with all faults that are told of them.

use crate::asserted::assert_none;
use further_faults::{Fault, MOST_FAULTS, further_faults};
use lex::place;
use std::alloc::{AllocError, Global};
use test_programs::{Piece, text_of};

/// A source, and a line for each fault: its number and place.
type Row = (&'static str, &'static str);

/// The rows stand in a function, so that no proof but its own looks at them.
fn rows() -> &'static [Row] {
    static ROWS: [Row; 13] = [
        // one of each phase, the second in a place that the first one does not touch
        (
            "int x; void worker(int self) { y = 1; x = 1; __transaction_atomic { printf(\"a\"); } break; }",
            "20 1:32\n50 1:39\n40 1:69\n26 1:84\n",
        ),
        // a name that is not known is told once
        (
            "int x; void worker(int self) { y = 1; y = 2; int k = y + z; k = z; }",
            "20 1:32\n20 1:65\n",
        ),
        // declared twice, wrong counts, what is not assignable, returns
        (
            "int x, x; int f(int a, int a) { return; } void worker(int self) { f(1); f(1, 2); f = 2; 1 = 2; int k = f; return 1; }",
            "21 1:8\n21 1:28\n22 1:33\n23 1:67\n24 1:82\n24 1:89\n22 1:104\n22 1:107\n",
        ),
        // what is declared wrongly is not looked at where it is used
        (
            "int a[0], b[2] = {1, 2, 3}; void worker(int self) { __transaction_atomic { a[0] = 1; b = 1; c = 2; } }",
            "25 1:7\n25 1:25\n20 1:93\n",
        ),
        // a function without a body, and none that is called worker
        (
            "void f(void); int x; void worker(int self) { f(); x = 1; __transaction_cancel; __transaction_atomic { __transaction_relaxed { printf(\"a\"); } } }",
            "29 1:6\n50 1:51\n42 1:58\n41 1:103\n",
        ),
        (
            "int x; void other(int self) { y = x; __transaction_atomic { printf(\"a\"); } }",
            "20 1:31\n40 1:61\n28 1:77\n",
        ),
        // a claim that is not so hides no call
        (
            "int x; __attribute__((transaction_safe)) void f(void) { printf(\"a\"); } void worker(int self) { __transaction_atomic { f(); } x++; }",
            "43 1:47\n40 1:119\n50 1:126\n",
        ),
        // calls that touch, and outer transactions
        (
            "int x; int get(void) { return x; } void f(void) { __transaction_atomic [[outer]] { } } void worker(int self) { int k = get() + x; if (get()) k = 1; __transaction_atomic { f(); __transaction_cancel [[outer]]; } }",
            "51 1:120\n51 1:135\n44 1:172\n45 1:177\n",
        ),
        // other types than before, where the calls and the prototype are not looked at
        (
            "int x; void f(int); void f(unsigned u) { } void worker(int self) { f(1, 2); x = 1; }",
            "22 1:26\n50 1:77\n",
        ),
        // formats, heads of loops, and branches
        (
            "int x; void worker(int self) { long long l = 1; printf(\"%d\\n\", l); printf(\"%d\\n\"); for (int i = n; i < x; i++) { q = 1; } if (k) ; else do m = 2; while (x); }",
            "27 1:64\n27 1:75\n20 1:97\n50 1:104\n20 1:114\n20 1:127\n20 1:140\n50 1:154\n",
        ),
        // none, and one
        (
            "int x; void worker(int self) { __transaction_atomic { x = 1; } }",
            "",
        ),
        ("int x; void worker(int self) { x = 1; }", "50 1:32\n"),
        // what is no program by its grammar
        ("int x; void worker(int self) { y = 1; x = ; }", ""),
    ];
    &ROWS
}

/// Adds the line of a fault.
fn put_fault(to: &mut String, alloc: Global, text: &str, fault: Fault) -> Result<(), AllocError> {
    let number = fault.number;
    let (line, column) = place(text, fault.span.start.min(text.len()));
    to.push_str(format!(in alloc; "{number} {line}:{column}\n")?.as_str())
}

/// A line for each of the faults of a source.
fn lines_of(alloc: Global, text: &str, found: &[Fault]) -> Result<String, AllocError> {
    let mut told = String::new(alloc);
    for fault in found {
        put_fault(&mut told, alloc, text, *fault)?;
    }
    Ok(told)
}

/// A line for each fault of a source.
fn told_of(alloc: Global, text: &str) -> Result<String, AllocError> {
    let found = further_faults(alloc, text)?;
    lines_of(alloc, text, found.as_slice())
}

/// Whether this is told of a source.
fn is_told(alloc: Global, text: &str, wanted: &str) -> bool {
    match told_of(alloc, text) {
        Ok(told) => told.as_str() == wanted,
        Err(AllocError) => false,
    }
}

/// The first source of which something else is told.
fn told_otherwise(alloc: Global) -> Option<&'static str> {
    for (text, wanted) in rows() {
        if !is_told(alloc, text, wanted) {
            return Some(*text);
        }
    }
    None
}

#[test]
fn sources_have_several_faults(rt: HostRuntime) {
    assert_none(&rt, told_otherwise(rt.alloc()));
}

/// How many faults are told of a source of pieces.
fn count_of(alloc: Global, pieces: &[Piece]) -> Option<usize> {
    let text = text_of(alloc, pieces).ok()?;
    let found = further_faults(alloc, text.as_str()).ok()?;
    Some(found.len())
}

/// Of so many accesses outside of transactions at most some are told, and none of a source that is too long.
#[test]
fn some_of_many_faults_are_told(rt: HostRuntime) {
    let begin = Piece::Times("int x; void worker(int k) { ", 1);
    let end = Piece::Times("}", 1);
    let many = [begin, Piece::Times("x = 1; ", 100), end];
    let long = [begin, Piece::Times("x = 1; ", 10000), end];
    assert_eq!(rt; count_of(rt.alloc(), &many), Some(MOST_FAULTS));
    assert_eq!(rt; count_of(rt.alloc(), &long), Some(0));
}
