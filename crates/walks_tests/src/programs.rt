//! Programs whose states are counted.

/// Each thread reads in one transaction, and adds 1 to what it read in the next.
pub const ADDS: &str = "int x; void worker(int self) {
    int t;
    __transaction_atomic { t = x; }
    __transaction_atomic { x = t + 1; }
}";

/// A ticket lock; each thread enters twice.
pub const TICKETS: &str = "int next, serving, inside, most, entered; void worker(int self) {
    int i, mine, ok;
    for (i = 0; i < 2; i++) {
        __transaction_atomic { mine = next; next = next + 1; }
        ok = 0;
        while (!ok) { __transaction_atomic { ok = serving == mine; } }
        __transaction_atomic { inside = inside + 1; if (inside > most) most = inside; }
        __transaction_atomic { inside = inside - 1; entered = entered + 1; serving = serving + 1; }
    }
}";

/// Five philosophers, each of whom takes the fork on its left first.
pub const DINES: &str = "int fork[5], meals, n = 5;
void take(int f) {
    int ok = 0;
    while (!ok) { __transaction_atomic { if (fork[f] == 0) { fork[f] = 1; ok = 1; } } }
}
void worker(int self) {
    int right = self + 1;
    __transaction_atomic { if (right == n) right = 0; }
    take(self);
    take(right);
    __transaction_atomic { meals = meals + 1; fork[self] = 0; fork[right] = 0; }
}";

/// One thread waits for the other's flag.
pub const WAITS: &str = "int flag, data, seen; void worker(int self) {
    int f = 0;
    if (self == 0) {
        __transaction_atomic { data = 42; }
        __transaction_atomic { flag = 1; }
    } else {
        while (!f) { __transaction_atomic { f = flag; } }
        __transaction_atomic { seen = data; }
    }
}";

/// Two locks taken in two orders.
pub const LOCKS: &str = "int a, b, done;
void take(int which) {
    int ok = 0;
    while (!ok) {
        __transaction_atomic {
            if (which == 0) { if (a == 0) { a = 1; ok = 1; } }
            else { if (b == 0) { b = 1; ok = 1; } }
        }
    }
}
void worker(int self) {
    take(self);
    take(1 - self);
    __transaction_atomic { done = done + 1; a = 0; b = 0; }
}";

/// Three transactions on one's own element.
pub const APART: &str = "int a[16]; void worker(int self) {
    __transaction_atomic { a[self] = 1; }
    __transaction_atomic { a[self] = a[self] + 1; }
    __transaction_atomic { a[self] = a[self] + 1; }
}";

/// What a thread has found is in its text alone.
pub const PRINTS: &str = "int x; void worker(int self) {
    __transaction_relaxed { printf(\"%d\", x); x = 1; }
}";

/// The thread that finds 0 traps.
pub const TRAPS: &str = "int x; void worker(int self) {
    int k = 0;
    __transaction_atomic { k = x; x = 1; }
    k = 1 / k;
}";

/// Each thread waits for what none does.
pub const SPINS: &str = "int x; void worker(int self) {
    int k = 0;
    while (!k) { __transaction_atomic { k = x; } }
}";

/// Each thread looks until what it finds changes, which no thread does.
pub const LOOKS: &str = "int v = 5; void worker(int self) {
    int k;
    do { __transaction_atomic { k = v; } } while (k == 5);
}";

/// Each thread writes its number, which a cancel has brought back.
pub const FORGETS: &str = "int y; void worker(int self) {
    int k = self;
    __transaction_atomic { k = 7; __transaction_cancel; }
    __transaction_atomic { y = k; }
}";

/// The same with an outer cancel.
pub const FORGETS_ALL: &str = "int y; void worker(int self) {
    int k = self;
    __transaction_atomic [[outer]] {
        k = 7;
        __transaction_atomic { __transaction_cancel [[outer]]; }
    }
    __transaction_atomic { y = k; }
}";

/// Thread 1 does not leave its transaction.
pub const LOOPS: &str = "int x; void worker(int self) {
    __transaction_atomic { x = 5; while (self) { } }
}";

/// Thread 1 does not come to its first transaction.
pub const LATE: &str = "int x; void worker(int self) {
    while (self) { }
    __transaction_atomic { x = 5; }
}";
