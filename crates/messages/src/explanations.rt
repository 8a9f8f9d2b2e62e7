//! The explanation of each fault and of each end of a thread: written by scripts/faults.py from docs/ERRORS.md.

/// The explanation of a fault: when it is reported, its place, an example and a fix, in lines that end with LF. `None`
/// if no fault has the number.
pub fn explanation(number: u32) -> Option<&'static str> {
    match number {
        0 => Some(
            "fault 00: out of memory\nWhen: an allocation failed; nothing has changed, and the call may be repeated\nSeen as: `txc: out of memory`, exit status 4\n",
        ),
        1 => Some(
            "fault 01: bad character\nWhen: a character that begins no token; a `#` after something else on its line; a letter, digit, `_` or `.` directly after a constant and its suffix\nPlace: the character\nExample: int x$;\nReported at: 1:6\nFix: use letters, digits and `_` in names: `int x;`\n",
        ),
        2 => Some(
            "fault 02: constant too large\nWhen: a constant that is too large for every type it may have\nPlace: the constant\nExample: int x = 9223372036854775808;\nReported at: 1:9\nFix: use a constant that fits its type: `long long x = 9223372036854775807;`\n",
        ),
        3 => Some(
            "fault 03: open comment\nWhen: `/*` without `*/`\nPlace: from `/*`\nExample: void worker(int self) { } /* end\nReported at: 1:27\nFix: close the comment: `/* end */`\n",
        ),
        4 => Some(
            "fault 04: bad string\nWhen: a string with an illegal character or escape, or without its end\nPlace: from the opening `\"`\nExample: void worker(int self) { printf(\"a\nReported at: 1:32\nFix: use printable ASCII, the escapes `\\n`, `\\t`, `\\\"` and `\\\\`, and a closing quotation mark: `printf(\"a\\n\");`\n",
        ),
        5 => Some(
            "fault 05: file too long\nWhen: more than 1,048,576 bytes; checked before everything else\nPlace: empty, at the beginning\nExample: 1048577 times ` `\nReported at: 1:1\nFix: write a shorter program: it is a single file\n",
        ),
        6 => Some(
            "fault 06: directive\nWhen: a directive other than `#include`\nPlace: the `#`\nExample: #define A 1\nReported at: 1:1\nFix: write the number instead of a macro, or use a global\n",
        ),
        10 => Some(
            "fault 10: unexpected token\nWhen: the first token that cannot continue any program\nPlace: the token\nExample: int x y;\nReported at: 1:7\nFix: `int x, y;`. The language has the types `int`, `unsigned` and `long long`, functions, one-dimensional global arrays, `if`, `while`, `do`, `for`, and transactions. It has no pointers, structures, `char`, `switch`, `goto`, comma operator, `sizeof`, macros or local arrays, and no `++`, `--` or assignment within an expression\n",
        ),
        11 => Some(
            "fault 11: nested too deep\nWhen: every program that begins with the tokens up to this place nests deeper than 100\nPlace: a token\nExample: `void worker(int self) { `, 98 times `(`, `1`, 98 times `)`, `; }`\nReported at: 1:123\nFix: move a part of the expression or block into a function\n",
        ),
        12 => Some(
            "fault 12: unexpected end\nWhen: the source ends in the middle of a program\nPlace: empty, after the last token\nExample: void worker(int self) {\nReported at: 1:24\nFix: add what is missing: a `}`, a `;`\n",
        ),
        20 => Some(
            "fault 20: unknown name\nWhen: a name that is not declared, or not in scope\nPlace: the name\nExample: void worker(int self) { __transaction_atomic { z = 1; } }\nReported at: 1:48\nFix: declare it first: `int z;`\n",
        ),
        21 => Some(
            "fault 21: declared twice\nWhen: a second declaration in one scope, a second definition, or a global and a function of one name\nPlace: the name\nExample: int x, x; void worker(int self) { }\nReported at: 1:8\nFix: use another name, or a single declaration: `int x, y;`\n",
        ),
        22 => Some(
            "fault 22: wrong type\nWhen: `void`, an array's name or a function's name used as a value; an index on something that is not an array; a call of something that is not a function; `return` with or without a value, against the function's type; a function declared again with different types\nPlace: the expression; the keyword `return`; the later name\nExample: void f(void) { } void worker(int self) { int v = f(); }\nReported at: 1:50\nFix: use a value where one is needed: `x`, not `x[0]`, if x is not an array; `return 1;` in an `int` function and `return;` in a `void` one\n",
        ),
        23 => Some(
            "fault 23: wrong number of arguments\nWhen: a call with more or fewer arguments than parameters\nPlace: the called name\nExample: void f(void) { } void worker(int self) { f(1); }\nReported at: 1:42\nFix: pass as many arguments as there are parameters: `f();`\n",
        ),
        24 => Some(
            "fault 24: not assignable\nWhen: the left side of an assignment is neither a variable nor an array element\nPlace: the left side\nExample: void worker(int self) { 1 = 2; }\nReported at: 1:25\nFix: assign to a variable or an array element: `x = 2;`, `a[1] = 2;`\n",
        ),
        25 => Some(
            "fault 25: bad array length\nWhen: a length of 0 or over 4,096; more initialisers than cells; more than 4,096 cells in all globals together\nPlace: the length; the first extra initialiser, with its minus; the name\nExample: int a[0]; void worker(int self) { }\nReported at: 1:7\nFix: use a length from 1 to 4096: `int a[4] = {1, 2};`\n",
        ),
        26 => Some(
            "fault 26: break or continue outside a loop\nWhen: `break` or `continue` outside a loop of its function\nPlace: the keyword\nExample: void worker(int self) { break; }\nReported at: 1:25\nFix: use `return`, or a variable tested by an `if`\n",
        ),
        27 => Some(
            "fault 27: bad format\nWhen: a conversion other than `%d`, `%u`, `%lld` and `%%`; a wrong number of arguments; an argument of the wrong type\nPlace: the string; the argument\nExample: void worker(int self) { printf(\"%x\", 1); }\nReported at: 1:32\nFix: `printf(\"%d %u %lld\\n\", i, u, l);` with an `int`, an `unsigned` and a `long long`\n",
        ),
        28 => Some(
            "fault 28: no worker\nWhen: no function `void worker(int)`\nPlace: empty, after the last token\nExample: int x;\nReported at: 1:7\nFix: define `void worker(int self) { .. }`, which each thread runs with its number\n",
        ),
        29 => Some(
            "fault 29: not defined\nWhen: a function that is declared but never defined\nPlace: its first name\nExample: void f(void); void worker(int self) { }\nReported at: 1:6\nFix: define the function: `void f(void) { }`\n",
        ),
        40 => Some(
            "fault 40: unsafe in atomic\nWhen: a `printf`, or a call of a function that is not safe, in an atomic transaction\nPlace: the word `printf`; the called name\nExample: void worker(int self) { __transaction_atomic { printf(\"a\"); } }\nReported at: 1:48\nFix: store the value in a local and print it after the transaction, or use `__transaction_relaxed { .. }`\n",
        ),
        41 => Some(
            "fault 41: relaxed in atomic\nWhen: a relaxed transaction in the text of an atomic one\nPlace: its keyword\nExample: void worker(int self) { __transaction_atomic { __transaction_relaxed { } } }\nReported at: 1:48\nFix: use one of the two: a relaxed transaction around everything, or an atomic one without prints\n",
        ),
        42 => Some(
            "fault 42: cancel outside atomic\nWhen: a cancel that is not in the text of an atomic transaction\nPlace: its keyword\nExample: void worker(int self) { __transaction_relaxed { __transaction_cancel; } }\nReported at: 1:49\nFix: move the cancel into the text of the atomic transaction that it undoes\n",
        ),
        43 => Some(
            "fault 43: transaction_safe on an unsafe function\nWhen: a function declared safe that is not\nPlace: its name in the definition\nExample: __attribute__((transaction_safe)) void f(void) { printf(\"a\"); } void worker(int self) { }\nReported at: 1:40\nFix: remove what cannot be undone, or the attribute\n",
        ),
        44 => Some(
            "fault 44: outer in atomic\nWhen: an outer transaction, or a call of a function that may begin one, in the text of an atomic transaction\nPlace: its keyword; the called name\nExample: void worker(int self) { __transaction_atomic { __transaction_atomic [[outer]] { } } }\nReported at: 1:48\nFix: move the outer transaction out of the others\n",
        ),
        45 => Some(
            "fault 45: outer cancel outside outer\nWhen: an outer cancel that is not in the text of an outer transaction\nPlace: its keyword\nExample: void worker(int self) { __transaction_atomic { __transaction_cancel [[outer]]; } }\nReported at: 1:48\nFix: mark the transaction too: `__transaction_atomic [[outer]] { .. }`\n",
        ),
        50 => Some(
            "fault 50: shared access outside a transaction\nWhen: an access to a global in `worker` outside any transaction\nPlace: the name\nExample: int x; void worker(int self) { x = 1; }\nReported at: 1:32\nFix: put it in a transaction: `__transaction_atomic { x = 1; }`, `int v = __transaction_atomic (x);`\n",
        ),
        51 => Some(
            "fault 51: call touches shared data outside a transaction\nWhen: a call in `worker`, outside any transaction, of a function that touches shared data\nPlace: the called name\nExample: int x; int get(void) { return x; } void worker(int self) { get(); }\nReported at: 1:60\nFix: put the call in a transaction: `int v = __transaction_atomic (get());`\n",
        ),
        55 => Some(
            "fault 55: stranger thread in an order\nWhen: an order names a thread that does not exist\nSeen as: `source FILE --order 1`, with one thread\n",
        ),
        60 => Some(
            "fault 60: too many registers\nWhen: the code of a function needs more than 65,535 registers\nPlace: the function's name\nExample: a function with 65,536 variables\nReported at: its name\nFix: split the function: each function has its own registers\n",
        ),
        61 => Some(
            "fault 61: too much code\nWhen: the code has more than 1,048,576 instructions\nPlace: the name of the function that exceeds the limit\nExample: a program with more code\nReported at: that name\nFix: write a shorter program: use loops instead of repeated text\n",
        ),
        62 => Some(
            "fault 62: transactions nested too deep\nWhen: more than 16 transactions nested in the text of a function\nPlace: the keyword of the 17th\nExample: `void worker(int self) { `, 17 times `__transaction_atomic { `, 17 times `} `, `}`\nReported at: 1:393\nFix: move inner transactions into functions\n",
        ),
        70 => Some(
            "fault 70: sequence used up\nWhen: a transaction would take the lock at 18446744073709551614\nSeen as: a thread's end `stop 70`\n",
        ),
        71 => Some(
            "fault 71: stranger thread\nWhen: a replay names a thread that does not exist; the steps before it have been executed\nSeen as: `txc: fault 71 at step I`, after the report; with 2 threads, `0 1000` followed by the line `7 1`: step 1000\n",
        ),
        72 => Some(
            "fault 72: wrong number of threads\nWhen: a world, a hall or a run of the source is requested with no threads or more than 64; the command line checks this first\nSeen as: `World::new` with 0 threads\n",
        ),
        73 => Some(
            "fault 73: thread not started\nWhen: the system did not start a thread\nSeen as: txc: fault 73\n",
        ),
        80 => Some(
            "fault 80: bad schedule line\nWhen: a schedule line that is not `T COUNT` or `T aCOUNT`, or whose numbers exceed 4294967295\nSeen as: the schedule `0 x`: line 1\n",
        ),
        81 => Some(
            "fault 81: schedule too long\nWhen: the counts of a schedule, or the steps needed for an order, exceed 1,048,576 in all\nSeen as: `0 1048576`, followed by the line `0 1`\n",
        ),
        90 => Some(
            "fault 90: lock held\nWhen: a hall is closed while a thread holds the lock; hall and workers are returned\nSeen as: `Hall::close` while a worker is between winning the lock and releasing it\n",
        ),
        91 => Some(
            "fault 91: worker missing\nWhen: a hall is closed without all its workers; checked before 90\nSeen as: `Hall::close` with an empty list\n",
        ),
        _ => None,
    }
}

/// The explanation of a trap, in the same form.
fn trap_explanation(number: u32) -> Option<&'static str> {
    match number {
        1 => Some(
            "trap 1: a signed result out of range\nWhen: `+`, `-`, `*`, `/`, `%`, `<<` or unary `-` has a result that its type cannot hold; `unsigned` wraps instead\nExample: `int m = 2147483647; m = m + 1;`\n",
        ),
        2 => Some(
            "trap 2: a division by 0\nWhen: the right operand of `/` or `%` is 0\nExample: `int z = 0; z = 7 / z;`\n",
        ),
        3 => Some(
            "trap 3: an index outside its array\nWhen: an index of a read or write is negative, or not below the array's length\nExample: `int a[5];` and `a[5] = 1;` in a transaction\n",
        ),
        4 => Some(
            "trap 4: too many nested calls\nWhen: 64 calls are active, `worker` included, and one more is made\nExample: `void f(void) { f(); }`\n",
        ),
        5 => Some(
            "trap 5: a shift too far\nWhen: the right operand of `<<` or `>>` is negative, or not below 32 (64 for a `long long`)\nExample: `int s = 32; s = 1 << s;`\n",
        ),
        _ => None,
    }
}

/// The explanation of an end of a thread, by its word in a report.
fn word_explanation(word: &str) -> Option<&'static str> {
    match word {
        "trap" => Some(
            "trap 1: a signed result out of range\nWhen: `+`, `-`, `*`, `/`, `%`, `<<` or unary `-` has a result that its type cannot hold; `unsigned` wraps instead\nExample: `int m = 2147483647; m = m + 1;`\ntrap 2: a division by 0\nWhen: the right operand of `/` or `%` is 0\nExample: `int z = 0; z = 7 / z;`\ntrap 3: an index outside its array\nWhen: an index of a read or write is negative, or not below the array's length\nExample: `int a[5];` and `a[5] = 1;` in a transaction\ntrap 4: too many nested calls\nWhen: 64 calls are active, `worker` included, and one more is made\nExample: `void f(void) { f(); }`\ntrap 5: a shift too far\nWhen: the right operand of `<<` or `>>` is negative, or not below 32 (64 for a `long long`)\nExample: `int s = 32; s = 1 << s;`\n",
        ),
        "budget" => Some(
            "budget: the step limit is used up\nWhen: the thread needs more steps than B of `txc run --budget B` (default 4,294,967,295): it waits in a loop for something no other thread does, or B is too small\nExample: `txc run FILE --budget 50` of `while (1) ;`\n",
        ),
        "spent" => Some(
            "spent: the fuel is used up\nWhen: the thread needs more than N units of `txc source --ticks N` (default 100,000)\nExample: `txc source FILE --order 0 --ticks 9` of `while (1) ;`\n",
        ),
        "waits" => Some(
            "waits: the thread is about to begin a transaction\nWhen: the order, given to `txc source` or reported as stuck by `txc outcomes`, contains no further step of this thread\nExample: `txc source FILE --order 0` of two transactions\n",
        ),
        "running" => Some(
            "running: the thread could continue\nWhen: the steps of the replay are used up\nExample: `txc replay FILE --seed 1 --steps 1`\n",
        ),
        "stop" => Some(
            "stop: a step could not be executed\nWhen: memory ran out (`stop 00`), or the lock has no value left (`stop 70`)\nExample: `txc explain 00`, `txc explain 70`\n",
        ),
        _ => None,
    }
}

/// The explanation of an end of a thread, by its word in a report and, for a trap, by its number; without a number, of
/// all traps. Lines that end with LF. `None` if there is no such end.
pub fn end_explanation(word: &str, number: Option<u32>) -> Option<&'static str> {
    match number {
        None => word_explanation(word),
        Some(number) => {
            if word == "trap" {
                trap_explanation(number)
            } else {
                None
            }
        }
    }
}
