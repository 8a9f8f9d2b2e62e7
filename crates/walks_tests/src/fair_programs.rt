//! Programs that terminate under every fair schedule, and programs that do not.

/// A test-and-set lock; each thread enters twice.
pub const TEST_AND_SET: &str = "int taken, entered;
void worker(int self) {
    int i, ok;
    for (i = 0; i < 2; i++) {
        do { __transaction_atomic { ok = !taken; if (ok) taken = 1; } } while (!ok);
        __transaction_atomic { entered = entered + 1; }
        __transaction_atomic { taken = 0; }
    }
}";

/// Thread 0 enters a test-and-set lock until another thread has: it may enter again and again.
pub const SERVES_TWICE: &str = "int taken, stop;
void worker(int self) {
    int ok, s = 0;
    do {
        do { __transaction_atomic { ok = !taken; if (ok) taken = 1; } } while (!ok);
        __transaction_atomic { if (self) stop = 1; s = stop; }
        __transaction_atomic { taken = 0; }
    } while (!s);
}";

/// Each thread steps back if the other one wants to enter.
pub const POLITE: &str = "int wants[2], entered;
void worker(int self) {
    int wait;
    do {
        __transaction_atomic { wants[self] = 1; }
        __transaction_atomic { wait = wants[1 - self]; }
        if (wait) { __transaction_atomic { wants[self] = 0; } }
    } while (wait);
    __transaction_atomic { entered = entered + 1; }
    __transaction_atomic { wants[self] = 0; }
}";

/// Dekker's lock, in which a turn decides who steps back.
pub const TURNS: &str = "int wants[2], turn, entered;
void worker(int self) {
    int wait, mine, other = 1 - self;
    __transaction_atomic { wants[self] = 1; }
    do {
        __transaction_atomic { wait = wants[other]; mine = turn == self; }
        if (wait) {
            if (!mine) {
                __transaction_atomic { wants[self] = 0; }
                do { __transaction_atomic { mine = turn == self; } } while (!mine);
                __transaction_atomic { wants[self] = 1; }
            }
        }
    } while (wait);
    __transaction_atomic { entered = entered + 1; }
    __transaction_atomic { turn = other; }
    __transaction_atomic { wants[self] = 0; }
}";

/// Peterson's lock; each thread enters twice.
pub const PETERSON: &str = "int wants[2], turn, inside;
void worker(int self) {
    int i, wait, other = 1 - self;
    for (i = 0; i < 2; i++) {
        __transaction_atomic { wants[self] = 1; }
        __transaction_atomic { turn = other; }
        do { __transaction_atomic { wait = wants[other]; } if (wait) { __transaction_atomic { wait = turn == other; } } } while (wait);
        __transaction_atomic { inside = inside + 1; }
        __transaction_atomic { inside = inside - 1; }
        __transaction_atomic { wants[self] = 0; }
    }
}";

/// Philosophers who put the first fork back if the second one is taken.
pub const RETRIES: &str = "int fork[3], meals;
void worker(int self) {
    int ok, right = (self + 1) % 3;
    do {
        do { __transaction_atomic { ok = !fork[self]; if (ok) fork[self] = 1; } } while (!ok);
        __transaction_atomic { ok = !fork[right]; if (ok) fork[right] = 1; }
        if (!ok) { __transaction_atomic { fork[self] = 0; } }
    } while (!ok);
    __transaction_atomic { meals = meals + 1; fork[self] = 0; fork[right] = 0; }
}";

/// Philosophers who take both forks at once: two of them can keep them from the third.
pub const CONSPIRES: &str = "int fork[3], fed;
void worker(int self) {
    int ok, f = 0, right = (self + 1) % 3;
    do {
        do { __transaction_atomic { ok = !fork[self] && !fork[right]; if (ok) { fork[self] = 1; fork[right] = 1; } } } while (!ok);
        __transaction_atomic { if (self == 1) fed = 1; f = fed; fork[self] = 0; fork[right] = 0; }
    } while (!f);
}";

/// Threads wait for a flag that is raised.
pub const RAISES: &str = "int data, ready, seen;
void worker(int self) {
    int ok;
    if (self == 0) { __transaction_atomic { data = 7; } __transaction_atomic { ready = 1; } }
    else { do { __transaction_atomic { ok = ready; } } while (!ok); __transaction_atomic { seen = seen + data; } }
}";

/// The flag is lowered again.
pub const LOWERS: &str = "int ready, seen;
void worker(int self) {
    int ok;
    if (self == 0) { __transaction_atomic { ready = 1; } __transaction_atomic { ready = 0; } }
    else { do { __transaction_atomic { ok = ready; } } while (!ok); __transaction_atomic { seen = seen + 1; } }
}";

/// The flag is raised and lowered until it was seen.
pub const TOGGLES: &str = "int up, seen;
void worker(int self) {
    int ok;
    if (self == 0) { do { __transaction_atomic { up = 1; } __transaction_atomic { up = 0; ok = seen; } } while (!ok); }
    else { do { __transaction_atomic { ok = up; } } while (!ok); __transaction_atomic { seen = 1; } }
}";

/// Each thread takes the ownership away from the others.
pub const OWNS: &str = "int owner, done;
void worker(int self) {
    int ok;
    do {
        __transaction_atomic { owner = self; }
        __transaction_atomic { ok = owner == self; if (ok) done = done + 1; }
    } while (!ok);
}";

/// Readers read until the writer has written.
pub const READS: &str = "int readers, written;
void worker(int self) {
    int ok, w;
    if (self == 0) { do { __transaction_atomic { ok = readers == 0; if (ok) written = 1; } } while (!ok); }
    else do {
        __transaction_atomic { readers = readers + 1; }
        __transaction_atomic { w = written; readers = readers - 1; }
    } while (!w);
}";

/// One thread takes one item more than the other puts into a queue.
pub const TAKES_ONE_MORE: &str = "int slots[2], head, count, sum;
void worker(int self) {
    int i, ok;
    for (i = 0; i < 2 + self; i++) do {
        __transaction_atomic {
            if (self % 2 == 0) { ok = count < 2; if (ok) { slots[(head + count) % 2] = i + 1; count = count + 1; } }
            else { ok = count > 0; if (ok) { sum = sum + slots[head]; head = (head + 1) % 2; count = count - 1; } }
        }
    } while (!ok);
}";

/// Strict turns; thread 0 comes twice more than thread 1.
pub const ALTERNATES: &str = "int turn;
void worker(int self) {
    int i, ok;
    for (i = 0; i < 3 - 2 * self; i++) {
        do { __transaction_atomic { ok = turn == self; } } while (!ok);
        __transaction_atomic { turn = 1 - self; }
    }
}";
