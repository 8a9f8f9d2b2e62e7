//! The words of each warning, by its name.

/// The texts of a warning.
#[derive(Clone, Copy)]
pub struct WarningWords {
    /// The problem at its place.
    pub what: &'static str,
    /// The words before its other place, if it has one.
    pub besides: &'static str,
    /// What may be done.
    pub advice: &'static str,
}

/// The texts of a warning, by its name; `unknown warning` if no warning has the name.
pub fn warning_words(name: &str) -> WarningWords {
    let (what, besides, advice) = match name {
        "endless-wait" => (
            "no other thread can end this wait",
            "",
            "no thread writes what would end it",
        ),
        "transaction-wait" => (
            "a transaction waits here for another thread",
            "the wait is at ",
            "only an abort can end it: wait outside the transaction, as in while (!__transaction_atomic (ready)) ;",
        ),
        "kept-lock" => (
            "no thread gives this lock back",
            "it is taken at ",
            "a thread that takes it next waits for ever",
        ),
        "undone-write" => (
            "a cancel always undoes this write",
            "the cancel is at ",
            "write what must survive after the transaction",
        ),
        "stale-read" => (
            "a later transaction relies on this value, which another thread may have changed",
            "the write is at ",
            "read it again in the transaction that writes; txc outcomes shows what can go wrong",
        ),
        "never-negative" => (
            "an unsigned is never below 0",
            "",
            "the comparison has the same result for every value: an int can be below 0",
        ),
        "negative-as-unsigned" => (
            "a negative number is compared as unsigned",
            "",
            "next to an unsigned operand, -1 is 4294967295",
        ),
        "zero-divisor" => (
            "division by 0",
            "",
            "a thread that gets here ends with trap 2",
        ),
        "index-outside" => (
            "an index outside its array",
            "",
            "a thread that gets here ends with trap 3: an array of N cells has the indices 0 to N - 1",
        ),
        "own-index" => (
            "an index that is too large for some threads",
            "code for more threads is at ",
            "a thread whose number is not below the length of the array ends here with trap 3",
        ),
        "shift-outside" => (
            "a shift count out of range",
            "",
            "a thread that gets here ends with trap 5: the count is 0 to 63 for a long long, and 0 to 31 otherwise",
        ),
        "missing-return" => (
            "the function may end without a return",
            "",
            "it then returns 0",
        ),
        "empty-if" => (
            "this if does nothing",
            "",
            "the ; after its condition is all it controls",
        ),
        _ => ("unknown warning", "", ""),
    };
    WarningWords {
        what,
        besides,
        advice,
    }
}
