//! Hints for words of other languages that txc's C does not have.

use crate::tokens::next_declaration;
use lex::token::{Kind, Token};

/// A word, and its hint.
type Row = (&'static str, &'static str);

pub(crate) const TYPES: &str = "the types are int, unsigned and long long";

const NO_TYPES: &str = "the only types are int, unsigned and long long";

const SWITCH: &str = "there is no switch: use if and else";

const NO_WORD: &str = "this keyword is not supported: leave it out";

const DECLARATIONS: &str = "write declarations as in C: int x = 1; and int f(int a) { .. }";

const TRANSACTIONS: &str =
    "the keywords are __transaction_atomic, __transaction_relaxed and __transaction_cancel";

const OPERATORS: &str = "the logical operators are &&, || and !";

const LIBRARY: &str = "printf is the only function of C's library";

const TRUTH: &str = "only numbers are constants: write 0 or 1";

const LIMITS: &str = "only numbers are constants: write the number";

const LOCKS: &str = "there are no locks: access shared variables in __transaction_atomic { .. }";

const SHARED: &str =
    "a shared variable is an ordinary global: access it in __transaction_atomic { .. }";

const THREADS: &str = "the option --threads T starts threads, and transactions replace locks";

const WAITS: &str = "to wait, repeat a transaction: while (!done) { __transaction_atomic { .. } }";

const OWN: &str = "all threads share each global: use a local variable for a thread's own data";

/// Reserved words of C that txc's C does not use.
fn reserved() -> &'static [Row] {
    static ROWS: [Row; 21] = [
        ("char", TYPES),
        ("short", TYPES),
        ("float", TYPES),
        ("double", TYPES),
        ("struct", NO_TYPES),
        ("union", NO_TYPES),
        ("enum", NO_TYPES),
        ("typedef", NO_TYPES),
        ("switch", SWITCH),
        ("case", SWITCH),
        ("default", SWITCH),
        (
            "goto",
            "there is no goto: use a loop with break or continue",
        ),
        ("sizeof", "there is no sizeof: write the number"),
        (
            "static",
            "there is no static: leave it out, or make the variable global",
        ),
        ("const", NO_WORD),
        ("extern", NO_WORD),
        ("inline", NO_WORD),
        ("volatile", NO_WORD),
        ("register", NO_WORD),
        ("restrict", NO_WORD),
        (
            "auto",
            "there is no auto: declare the variable as int, unsigned or long long",
        ),
    ];
    &ROWS
}

/// Names for which txc's C has another way.
fn foreign_names() -> &'static [Row] {
    static ROWS: [Row; 51] = [
        ("bool", TYPES),
        ("_Bool", TYPES),
        ("size_t", TYPES),
        ("int8_t", TYPES),
        ("int16_t", TYPES),
        ("int32_t", TYPES),
        ("int64_t", TYPES),
        ("uint8_t", TYPES),
        ("uint16_t", TYPES),
        ("uint32_t", TYPES),
        ("uint64_t", TYPES),
        ("pthread_mutex_t", LOCKS),
        ("mtx_t", LOCKS),
        ("sem_t", LOCKS),
        ("pthread_t", THREADS),
        ("thrd_t", THREADS),
        ("_Atomic", SHARED),
        ("atomic_int", SHARED),
        ("atomic_uint", SHARED),
        ("atomic_bool", SHARED),
        ("thread_local", OWN),
        ("_Thread_local", OWN),
        ("__thread", OWN),
        ("FILE", LIBRARY),
        ("using", LIBRARY),
        ("fn", DECLARATIONS),
        ("def", DECLARATIONS),
        ("func", DECLARATIONS),
        ("function", DECLARATIONS),
        ("let", DECLARATIONS),
        ("var", DECLARATIONS),
        ("class", DECLARATIONS),
        ("atomic", TRANSACTIONS),
        ("atomic_noexcept", TRANSACTIONS),
        ("atomic_cancel", TRANSACTIONS),
        ("atomic_commit", TRANSACTIONS),
        ("synchronized", TRANSACTIONS),
        ("cancel", TRANSACTIONS),
        ("retry", TRANSACTIONS),
        ("rollback", TRANSACTIONS),
        ("__transaction", TRANSACTIONS),
        ("transaction_atomic", TRANSACTIONS),
        ("_transaction_atomic", TRANSACTIONS),
        ("transaction_relaxed", TRANSACTIONS),
        ("_transaction_relaxed", TRANSACTIONS),
        ("transaction_cancel", TRANSACTIONS),
        ("_transaction_cancel", TRANSACTIONS),
        ("and", OPERATORS),
        ("or", OPERATORS),
        ("not", OPERATORS),
        (
            "then",
            "there is no then: a statement follows the condition of an if",
        ),
    ];
    &ROWS
}

/// Functions and constants of C's library.
fn library() -> &'static [Row] {
    static ROWS: [Row; 26] = [
        ("scanf", LIBRARY),
        ("malloc", LIBRARY),
        ("free", LIBRARY),
        ("rand", LIBRARY),
        ("srand", LIBRARY),
        ("puts", LIBRARY),
        ("putchar", LIBRARY),
        ("getchar", LIBRARY),
        ("fprintf", LIBRARY),
        ("sprintf", LIBRARY),
        ("exit", LIBRARY),
        ("abort", LIBRARY),
        (
            "assert",
            "there is no assert: 1 / (x > 0); traps if x > 0 is false",
        ),
        ("sleep", LIBRARY),
        ("usleep", LIBRARY),
        ("abs", LIBRARY),
        ("memset", LIBRARY),
        ("memcpy", LIBRARY),
        ("NULL", TRUTH),
        ("true", TRUTH),
        ("false", TRUTH),
        ("INT_MAX", LIMITS),
        ("INT_MIN", LIMITS),
        ("UINT_MAX", LIMITS),
        ("LLONG_MAX", LIMITS),
        ("LLONG_MIN", LIMITS),
    ];
    &ROWS
}

/// Prefixes of names, and the hints for names that begin so.
fn beginnings() -> &'static [Row] {
    static ROWS: [Row; 19] = [
        ("__transaction", TRANSACTIONS),
        ("_transaction", TRANSACTIONS),
        ("__tm_", TRANSACTIONS),
        ("pthread_mutex_", LOCKS),
        ("pthread_rwlock_", LOCKS),
        ("pthread_spin", LOCKS),
        ("mtx_", LOCKS),
        ("sem_", LOCKS),
        ("pthread_cond", WAITS),
        ("pthread_barrier", WAITS),
        ("cnd_", WAITS),
        (
            "pthread_self",
            "a thread's number is the parameter of worker",
        ),
        ("pthread_", THREADS),
        (
            "thrd_current",
            "a thread's number is the parameter of worker",
        ),
        ("thrd_", THREADS),
        ("atomic_flag", LOCKS),
        ("atomic_", SHARED),
        ("__atomic_", SHARED),
        ("__sync_", SHARED),
    ];
    &ROWS
}

/// The hint of some rows for a word.
fn told_of(rows: &[Row], word: &str) -> Option<&'static str> {
    'rows: for row in rows {
        if row.0 == word {
            return Some(row.1);
        }
    }
    None
}

/// The hint for a reserved word of C that txc's C does not use.
pub(crate) fn of_reserved(word: &str) -> &'static str {
    told_of(reserved(), word).unwrap_or("it is not a keyword of txc's C")
}

/// The hint for a token that is a foreign name, which the source does not declare.
pub(crate) fn of_foreign(tokens: &[Token<'_>], kind: Option<Kind<'_>>) -> Option<&'static str> {
    match kind {
        Some(Kind::Name(name)) if next_declaration(tokens, name, 0).is_none() => {
            told_of(foreign_names(), name)
        }
        _ => None,
    }
}

/// The hint for an unknown name, if it is one of C's library or a foreign one.
pub(crate) fn of_unknown(name: &str) -> Option<&'static str> {
    match told_of(library(), name) {
        Some(words) => Some(words),
        None => told_of(foreign_names(), name),
    }
}

/// The hint for a token by the prefix of its name, which the source does not declare.
pub(crate) fn of_beginning(tokens: &[Token<'_>], kind: Option<Kind<'_>>) -> Option<&'static str> {
    let Some(Kind::Name(name)) = kind else {
        return None;
    };
    if next_declaration(tokens, name, 0).is_some() {
        return None;
    }
    'rows: for row in beginnings() {
        if name.starts_with(row.0) {
            return Some(row.1);
        }
    }
    None
}

/// The hint for a call by the token of its function's name, which the source does not declare.
pub(crate) fn of_called(tokens: &[Token<'_>], kind: Option<Kind<'_>>) -> Option<&'static str> {
    match kind {
        Some(Kind::Name(name)) if next_declaration(tokens, name, 0).is_none() => {
            match of_unknown(name) {
                Some(words) => Some(words),
                None => of_beginning(tokens, kind),
            }
        }
        _ => None,
    }
}
