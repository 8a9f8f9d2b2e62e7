//! What a thread of the source shows tick by tick is what its code's thread shows instruction by instruction: the
//! memory that it has left, how it is found, and what it has printed. Thread 3 runs, and each of its transactions finds
//! the memory that the one before it left.

ghost use Rattle.std.specs.Prelude.{IfSome};
ghost use Rattle.atomic_code.specs.Threads.{IsAtomicThreadOf};

use crate::asserted::assert_none;
use crate::of_lower::codes::code_of;
use crate::of_lower::examples::examples;
use crate::of_lower::listed::{Listed, rows};
use atomic_code::{AtomicThread, is_memory};
use bytecode::Code;
use meaning::{SourceOutcome, ThreadEnd, run_order};
use separation::Accepted;
use std::alloc::{AllocError, Global};
use syntax::thread_end::{Status, Trap};
use test_programs::accepted_of;

fn trap_number(trap: Trap) -> u8 {
    match trap {
        Trap::OutOfRange => 1,
        Trap::ZeroDivisor => 2,
        Trap::Index => 3,
        Trap::Frames => 4,
        Trap::ShiftCount => 5,
    }
}

/// How a thread of the source is found: a trap's number, or one that no trap has.
fn source_end(end: ThreadEnd) -> u8 {
    match end {
        ThreadEnd::Ended => 6,
        ThreadEnd::Spent => 7,
        ThreadEnd::Wants => 8,
        ThreadEnd::Trapped(trap) => trap_number(trap),
    }
}

/// How a thread of the code is found: a trap's number, or one that no trap has. It runs where one of the source would
/// have no ticks left.
fn code_end(status: Status) -> u8 {
    match status {
        Status::Ended => 6,
        Status::Running => 7,
        Status::Trapped(trap) => trap_number(trap),
    }
}

/// Adds a line behind others, where it is not the last one already: where the last one begins then.
fn add(lines: &mut String, last: usize, line: &str) -> Result<usize, AllocError> {
    if lines.as_bytes().get(last..) == Some(line.as_bytes()) {
        return Ok(last);
    }
    let at = lines.len();
    lines.push_str(line)?;
    Ok(at)
}

/// What is seen of thread 3 of four, in a line.
fn source_line(alloc: Global, outcome: &SourceOutcome) -> Result<String, AllocError> {
    let memory = outcome.memory.as_slice();
    match outcome.threads.as_slice().get(3) {
        None => Ok(String::new(alloc)),
        Some(thread) => {
            let (end, text) = (source_end(thread.end), thread.text.as_slice());
            format!(in alloc; "{memory:?} {end} {text:?}\n")
        }
    }
}

/// What is seen of thread 3 of a program within so many ticks, and within 40 transactions.
fn source_after(alloc: Global, accepted: &Accepted, ticks: u64) -> Result<String, AllocError> {
    match run_order(alloc, accepted, 4, &[3u32; 40], ticks) {
        Ok(outcome) => source_line(alloc, &outcome),
        Err(_) => Err(AllocError),
    }
}

/// Adds what is seen within so many ticks: where the last line begins then.
fn add_after(
    alloc: Global,
    accepted: &Accepted,
    ticks: u64,
    lines: &mut String,
    last: usize,
) -> Result<usize, AllocError> {
    let line = source_after(alloc, accepted, ticks)?;
    add(lines, last, line.as_str())
}

/// Adds what is seen of a program's thread within fewer ticks than these, one line for each change.
fn add_source(
    alloc: Global,
    accepted: &Accepted,
    ticks: u64,
    lines: &mut String,
) -> Result<(), AllocError> {
    let mut last = 0;
    for n in 0..ticks {
        last = add_after(alloc, accepted, n, lines, last)?;
    }
    Ok(())
}

/// The lines of what is seen of a program's thread within so many ticks.
fn source_lines(alloc: Global, accepted: &Accepted, ticks: u64) -> Option<String> {
    let mut lines = String::new(alloc);
    match add_source(alloc, accepted, ticks, &mut lines) {
        Ok(()) => Some(lines),
        Err(_) => None,
    }
}

/// A thread at its beginning.
fn begin(alloc: Global, code: &Code) -> Option<AtomicThread>
    ensures { IfSome result (λ t. IsAtomicThreadOf code.now t.thread) }
{
    match AtomicThread::new(alloc, code, 3) {
        Ok(thread) => Some(thread),
        Err(_) => None,
    }
}

/// One instruction of a thread, which finds this memory or leaves another there.
fn step(thread: &mut AtomicThread, code: &Code, memory: &mut Vec<u64>) -> Result<(), AllocError>
    requires { IsAtomicThreadOf code.now thread.old.thread }
    ensures { IsAtomicThreadOf code.now thread.new.thread }
{
    if thread.steps() > 1_000_000 {
        return Ok(());
    }
    if !is_memory(code, memory.as_slice()) {
        return Ok(());
    }
    match thread.go(code, memory.as_slice(), 1) {
        Ok(ran) => {
            if let Some(left) = ran.left {
                *memory = left;
            }
            Ok(())
        }
        Err(refused) => Err(refused),
    }
}

/// What is seen of a thread over this memory, in a line.
fn code_line(alloc: Global, thread: &AtomicThread, memory: &[u64]) -> Result<String, AllocError> {
    let (end, text) = (code_end(thread.status()), thread.output().as_bytes());
    format!(in alloc; "{memory:?} {end} {text:?}\n")
}

/// Adds what is seen of a thread over this memory: where the last line begins then.
fn add_code_line(
    alloc: Global,
    thread: &AtomicThread,
    memory: &[u64],
    lines: &mut String,
    last: usize,
) -> Result<usize, AllocError> {
    let line = code_line(alloc, thread, memory)?;
    add(lines, last, line.as_str())
}

/// Adds what is seen of a thread within so many instructions, one line for each change.
fn carry_on(
    alloc: Global,
    thread: &mut AtomicThread,
    code: &Code,
    memory: &mut Vec<u64>,
    lines: &mut String,
    steps: u32,
) -> Result<(), AllocError>
    requires { IsAtomicThreadOf code.now thread.old.thread }
{
    let mut last = 0;
    'steps: for _ in 0..steps {
        last = add_code_line(alloc, thread, memory.as_slice(), lines, last)?;
        step(thread, code, memory)?;
    }
    Ok(())
}

/// Adds what is seen of a new thread over a memory within so many instructions, one line for each change.
fn add_thread(
    alloc: Global,
    code: &Code,
    memory: &mut Vec<u64>,
    lines: &mut String,
    steps: u32,
) -> Result<(), AllocError> {
    match begin(alloc, code) {
        None => Err(AllocError),
        Some(mut thread) => carry_on(alloc, &mut thread, code, memory, lines, steps),
    }
}

/// Adds what is seen of a new thread over the memory that a code begins with, one line for each change within so many
/// instructions.
fn add_code(alloc: Global, code: &Code, lines: &mut String, steps: u32) -> Result<(), AllocError> {
    let mut memory = Vec::new(alloc);
    code.push_initial(&mut memory)?;
    add_thread(alloc, code, &mut memory, lines, steps)
}

/// What is seen of a code's thread within so many instructions, one line for each change.
fn code_lines(alloc: Global, code: &Code, steps: u32) -> Option<String> {
    let mut lines = String::new(alloc);
    match add_code(alloc, code, &mut lines, steps) {
        Ok(()) => Some(lines),
        Err(_) => None,
    }
}

/// What is seen of the thread of an accepted text.
fn of_source(alloc: Global, text: &str, ticks: u64) -> Option<String> {
    match accepted_of(alloc, text) {
        None => None,
        Some(accepted) => source_lines(alloc, &accepted, ticks),
    }
}

/// What is seen of the thread of a text's code.
fn of_code(alloc: Global, text: &str, steps: u32) -> Option<String> {
    match code_of(alloc, text) {
        Err(_) => None,
        Ok(code) => code_lines(alloc, &code, steps),
    }
}

/// Whether these are more lines than one.
fn are_many(lines: &str) -> bool {
    lines.as_bytes().iter().filter(|byte| **byte == 10).count() > 1
}

/// Whether this is seen of a text's code within so many instructions.
fn is_seen(alloc: Global, text: &str, steps: u32, wanted: &str) -> bool {
    match of_code(alloc, text, steps) {
        Some(code) => code.as_str() == wanted,
        None => false,
    }
}

/// Whether more than one thing is seen of a text's thread within so many ticks, and the same of its code's within so
/// many instructions.
fn show_the_same(alloc: Global, text: &str, ticks: u64, steps: u32) -> bool {
    match of_source(alloc, text, ticks) {
        Some(source) => {
            are_many(source.as_str()) && is_seen(alloc, text, steps, source.as_str())
        }
        None => false,
    }
}

/// The first of these texts whose code does not show what its source shows, within so many ticks and instructions.
fn show_others(
    alloc: Global,
    texts: &[&'static str],
    ticks: u64,
    steps: u32,
) -> Option<&'static str> {
    for text in texts {
        if !show_the_same(alloc, text, ticks, steps) {
            return Some(*text);
        }
    }
    None
}

/// The first of the texts that stand beside their listings whose code does not show what its source shows.
fn listed_show_others(alloc: Global, rows: &[Listed]) -> Option<&'static str> {
    for (text, _) in rows {
        if !show_the_same(alloc, text, 300, 1000) {
            return Some(*text);
        }
    }
    None
}

/// Programs with one way of ending, of printing, of jumping or of leaving loops each.
fn texts() -> &'static [&'static str] {
    static TEXTS: [&str; 15] = [
        "void worker(int self) { for (int i = 0; i < self; i++) { if (i == 1) continue; printf(\"%d;\", i); } }",
        "int f(int n) { if (n < 2) return n; printf(\"f\"); return f(n - 1) + f(n - 2); } void worker(int self) { printf(\"%d %u\", f(self + 1), 7u); }",
        "void worker(int self) { int v = 2147483640; do { v += self; printf(\"%d\\n\", v); } while (1); }",
        "int g(int n) { return g(n + 1); } void worker(int self) { printf(\"a\"); g(0); printf(\"b\"); }",
        "void worker(int self) { int k = 3; while (k >= 0) { printf(\"%d\", 6 / k); k--; } }",
        "void worker(int self) { unsigned u = 1; for (;;) { u = u << self; printf(\"%u \", u); if (u > 100u && !(u == 512u)) break; self = self * 3; } }",
        "int x; void worker(int self) { printf(\"%d\", self > 2 ? self || 1 / 0 : 0); __transaction_atomic { x = 1; } printf(\"z\"); }",
        "void worker(int self) { int a = 1, b; b = a > 0 && self; while (1) { if (b) { { int a = 5; b = a - 5; } continue; } break; } printf(\"%d%d\", a, b); }",
        "void worker(int self) { for (int i = 0; i < 8; i++) { int a = i & 1, b = i & 2, c = i & 4; if (a && b || !(c || b != 0)) printf(\"%d\", i); while ((a || b) && !(c && a)) { a = 0; b = 0; } printf(\"%d%d\", a ? b || c : c && self, (a && (b || c)) == 0 ? 1 : 2); } }",
        "int x = 1; int a[3] = {4, 5, 6}; void worker(int self) { while (__transaction_atomic (x < self)) { __transaction_atomic { if (__transaction_atomic (x) == 2) x = 9; else x++; } } int v = __transaction_atomic (a[__transaction_atomic (x & 1)]); printf(\"%d%d\", v, __transaction_atomic (x) ? __transaction_atomic (x + 1) : __transaction_atomic (0)); __transaction_atomic (v); }",
        "int x = 2; int f(int n) { return __transaction_atomic (x * n); } int g(void) { __transaction_relaxed { printf(\"g\"); return __transaction_relaxed (x + 1); } } void worker(int self) { printf(\"%d\", f(self) + __transaction_relaxed (f(4))); int a = 3; printf(\"%d\", a * 100 + __transaction_relaxed (g() * 10 + __transaction_atomic (x))); a = a && __transaction_atomic (x) || __transaction_relaxed (!x); for (; __transaction_atomic (a < 9 ? x : 0); a = __transaction_atomic (x + a)) printf(\"%d\", a); }",
        "int x = 2147483645; int f(void) { __transaction_atomic { x = x + 1; return x; } } void worker(int self) { printf(\"a\"); while (1) { int v = 1 + __transaction_atomic (f() - __transaction_atomic (f())); printf(\"%d\", v + __transaction_atomic (x + 1)); } }",
        "int x; int g(void) { printf(\"g\"); return 6 / (2 - x); } void worker(int self) { while (1) { int v = __transaction_relaxed (g() + __transaction_atomic (x)); printf(\"%d\", v); __transaction_atomic { x++; } } }",
        "int x; void worker(int self) { int i, n; for (i = 0; i < 3; i++) { int k = i; __transaction_atomic [[outer]] { n = n + 1; x = x + 1; __transaction_atomic { n = n + 10; __transaction_atomic { k = 99; x = x + 100; if (i == 1) __transaction_cancel [[outer]]; if (i == 2) __transaction_cancel; } x = x + k; } } printf(\"%d %d,\", n, k); } }",
        "int x = 1; int f(void) { __transaction_atomic [[outer]] { x = x + 1; while (1) { __transaction_atomic { x = x + x; if (x > 40) __transaction_cancel [[outer]]; if (x > 20) break; } } x++; } return __transaction_atomic (x); } void worker(int self) { printf(\"%d\", f() + __transaction_relaxed (f())); __transaction_relaxed { x = 3; printf(\"b\"); __transaction_atomic [[outer]] { x = 2; __transaction_atomic { __transaction_cancel [[outer]]; } } x = x + 4; } }",
    ];
    &TEXTS
}

/// Programs with `long long`: operators where numbers end, conversions, indices, conditions, loops and cancels.
fn wide_texts() -> &'static [&'static str] {
    static TEXTS: [&str; 23] = [
        "long long m(int i) { return i == 0 ? 9223372036854775807 : i == 1 ? -9223372036854775807 - 1 : i == 2 ? 2147483648 : 4294967295u; } void worker(int self) { for (int i = 0; i < 4; i++) for (long long j = 0; j < 4; j++) { long long a = m(i), b = m(j); printf(\"%lld %lld %lld %lld;\", a & b, a | b, a ^ b, ~a); printf(\"%d%d%d%d%d%d \", a < b, a > b, a <= b, a >= b, a == b, a != b); } }",
        "long long m(int i) { return i == 0 ? 9223372036854775807 : i == 1 ? -9223372036854775807 - 1 : i == 2 ? -4294967296 : 1u; } void worker(int self) { for (int i = 0; i < 4; i++) for (int j = 0; j < 4; j++) { long long a = m(i), b = m(j); printf(\"%lld %lld \", a / (b | 3), a % (b | 3)); printf(\"%lld %lld;\", a / 2 + b / 2, a / 2 - b / 2); } }",
        "void worker(int self) { long long a = 3037000499, b = -4294967296; printf(\"%lld %lld \", a * a, b * 2147483648); printf(\"%lld %lld %lld\", a * -1, b * self, a * 4294967295u); printf(\" %lld\", a * (a + 1)); }",
        "void worker(int self) { long long a = -9223372036854775807, b = 9223372036854775806; printf(\"%lld %lld %lld \", a - 1, b + 1, -b); a--; b++; printf(\"%lld %lld \", a, b); printf(\"%lld\", a / -1); }",
        "void worker(int self) { long long a = -9223372036854775807 - 1; printf(\"%lld %lld \", a / 1, a % 1); printf(\"%lld\", a % -1); }",
        "void worker(int self) { long long a = 9223372036854775807; printf(\"%lld \", -a); printf(\"%lld\", -(-a - 1)); }",
        "void worker(int self) { int i = -2147483647 - 1; printf(\"%lld %lld \", i / -1LL, i % -1LL); i += 4294967295; printf(\"%d \", i); i += 1LL; printf(\"%d \", i); i *= 4294967297; printf(\"%d \", i); i /= -1; }",
        "void worker(int self) { long long a = -2, b = 1; unsigned u = 4294967295u; printf(\"%lld %lld %lld %lld \", b << 62, a >> 63LL, a << 62, a >> self); printf(\"%d %u %d \", self << 3LL, u >> 31LL, -8 >> 1LL); while (1) { b <<= 7LL; printf(\"%lld;\", b); } }",
        "void worker(int self) { long long k = 63; printf(\"%lld \", -1LL << k); k++; printf(\"%lld\", -1LL << k); }",
        "void worker(int self) { long long k = 4294967297; printf(\"%u \", 1u << (int)k); printf(\"%u\", 1u << k); }",
        "void worker(int self) { long long k = 4294967296; printf(\"%d \", 1 >> (unsigned)k); printf(\"%d\", 1 >> k); }",
        "void worker(int self) { printf(\"%lld \", 4294967296 >> 32u); printf(\"%lld\", 4294967296 >> -1LL); }",
        "int i; unsigned u; long long l; void worker(int self) { __transaction_atomic { l = -1; u = l; i = u; l += u; } printf(\"%d\", __transaction_atomic (i)); __transaction_atomic { i = 4294967301; u += 4294967299 + i; l = l - u * i; i = l; l = i; } printf(\"%u %lld\", __transaction_atomic (u), __transaction_atomic (l)); __transaction_atomic { u = -i; l = u; i = -l; u -= 9223372036854775807; l = u | i; } }",
        "int i[2] = {-1, 7}; unsigned u[2] = {4294967295u, 0x80000000}; long long l[3] = {-0x80000000, -9223372036854775807, 1u}; void worker(int self) { for (long long k = 0; k < 2; k++) __transaction_atomic { l[k] ^= i[1 - k]; i[k] = l[1 + k]; u[k] = l[k] >> 1; l[k + 1] = u[k] + l[k]; } }",
        "long long f(long long a, unsigned b, int c) { return a + b + c; } int g(long long a) { return a; } unsigned h(int a) { return a; } long long d(int a) { return a; } void worker(int self) { printf(\"%lld %d \", f(-1, -1, 4294967297), g(-4294967295)); printf(\"%u %lld %lld\", h(4294967295), d(4294967295u), h(-1) + 0LL); self = f(d(g(2147483648)), h(g(self)), d(-self)); printf(\" %d\", self); }",
        "int a = -1; unsigned b = 1; long long c = -2; void worker(int self) { for (int i = 0; i < 3; i++) { printf(\"%lld %u \", __transaction_atomic (i ? a : c), __transaction_atomic (i == 1 ? a : b)); long long v = i == 2 ? __transaction_atomic (b) : -self; printf(\"%lld %d \", v, v < 1u ? 1 : v > -1); } printf(\"%d %d %d\", -1 < 1u, -1LL < 1u, -1 < 1LL); }",
        "int a[3] = {1, 2, 3}; long long k = 4294967296; void worker(int self) { __transaction_atomic { a[k - 4294967294] = 7; } printf(\"%d\", __transaction_atomic (a[k >> 32])); __transaction_atomic { a[2LL]++; a[1u] = 4; a[k] = 9; } }",
        "long long a[2]; void worker(int self) { __transaction_atomic { a[1] = -4294967296; } printf(\"%lld\", __transaction_atomic (a[1])); __transaction_atomic { a[0] = 1; a[a[1]] = 2; } }",
        "void worker(int self) { long long x = 4294967296, y = x << 8; if (x) printf(\"a\"); if (!x) printf(\"b\"); else printf(\"c\"); while (y) { printf(\"%lld;\", y); y = y >> 20; } do { x -= 1073741824; printf(\"%d%d%d \", x && 1, x || 0, !!x); } while (x); for (x = 8589934592; x; x = x & x - 1) printf(\"%d\", x ? 1 : 2); }",
        "void worker(int self) { long long s = 0; unsigned u = 4294967290u; for (long long i = 4294967290; i < 4294967300; i++) { s = s * 10 + i - 4294967290; u += 1LL; if (u == 2) break; } printf(\"%lld %u\", s, u); int n = 0; while (n < 3LL) n += 1; for (; s > 5; s /= 7) n ^= s; printf(\" %d\", n); }",
        "void worker(int self) { long long p = 1; for (int n = 1; n < 30; n++) { p *= n; if (n > 17) printf(\"%lld \", p); } }",
        "long long x = 4294967295; void worker(int self) { long long k = 1; for (int i = 0; i < 3; i++) { __transaction_atomic [[outer]] { k += x; x *= 2; __transaction_atomic { k = -k; x++; if (i == 1) __transaction_cancel [[outer]]; if (i == 2) __transaction_cancel; } } printf(\"%lld \", k); } printf(\"%lld\", __transaction_atomic (x) * 2u + __transaction_relaxed (self)); }",
        "long long x = 9223372036854775800; void worker(int self) { while (1) { int v = __transaction_atomic (x); printf(\"%d,\", v); __transaction_atomic { x += self; } } }",
    ];
    &TEXTS
}

#[test]
fn small_programs_show_the_same(rt: HostRuntime) {
    assert_none(&rt, show_others(rt.alloc(), texts(), 300, 1000));
}

#[test]
fn programs_with_long_long_show_the_same(rt: HostRuntime) {
    assert_none(&rt, show_others(rt.alloc(), wide_texts(), 400, 3000));
}

#[test]
fn listed_programs_show_the_same(rt: HostRuntime) {
    assert_none(&rt, listed_show_others(rt.alloc(), rows()));
}

#[test]
fn examples_show_the_same(rt: HostRuntime) {
    assert_none(&rt, show_others(rt.alloc(), examples(), 1500, 5000));
}
