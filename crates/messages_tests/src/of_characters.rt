//! Characters, constants, strings and directives.

use crate::told::{Row, assert_none, told_otherwise};

fn rows() -> &'static [Row] {
    static ROWS: [Row; 48] = [
        (
            "#define N 4\nint a[N];",
            "06 at 1:1",
            "there are no macros, and #include lines are ignored: write the number, or a global\n",
        ),
        (
            "#ifdef A\n#endif\n",
            "06 at 1:1",
            "there are no macros, and #include lines are ignored: write the number, or a global\n",
        ),
        (
            "#pragma once\n",
            "06 at 1:1",
            "there are no macros, and #include lines are ignored: write the number, or a global\n",
        ),
        (
            "int x; #include <stdio.h>\n",
            "01 at 1:8",
            "a directive must be alone on its line\n",
        ),
        (
            "void worker(int self) { printf(\"\\x41\"); }",
            "04 at 1:32",
            "the escapes are \\n, \\t, \\\" and \\\\\n",
        ),
        (
            "void worker(int self) { printf(\"\u{f6}\"); }",
            "04 at 1:32",
            "a string may contain only printable ASCII characters\n",
        ),
        (
            "void worker(int self) { printf(\"a\n\"); }",
            "04 at 1:32",
            "a string must end on its line, with a quotation mark\n",
        ),
        (
            "void worker(int self) { printf(\"a",
            "04 at 1:32",
            "a string must end on its line, with a quotation mark\n",
        ),
        (
            "int x = 09;",
            "01 at 1:10",
            "a constant that begins with 0 is octal: its digits are 0 to 7\n",
        ),
        (
            "int x = 0b1;",
            "01 at 1:10",
            "there are no binary constants: use decimal, or 0x\n",
        ),
        (
            "void worker(int self) { self = 1 + \\\n 2; }",
            "01 at 1:36",
            "a backslash does not continue a line, and escapes are allowed only in strings\n",
        ),
        (
            "void worker(int self) { printf(\"\\a\"); }",
            "04 at 1:32",
            "the escapes are \\n, \\t, \\\" and \\\\\n",
        ),
        (
            "void worker(int self) { printf(\"\\0\"); }",
            "04 at 1:32",
            "the escapes are \\n, \\t, \\\" and \\\\\n",
        ),
        (
            "void worker(int self) { self = 'a'; }",
            "01 at 1:32",
            "there are no character constants: write the number, or put the character in a format\n",
        ),
        (
            "void worker(int self) { printf('a'); }",
            "01 at 1:32",
            "there are no character constants: write the number, or put the character in a format\n",
        ),
        (
            "int x = 08;",
            "01 at 1:10",
            "a constant that begins with 0 is octal: its digits are 0 to 7\n",
        ),
        (
            "int x = 1.5;",
            "01 at 1:10",
            "there are no floating constants\n",
        ),
        (
            "int x = .5;",
            "01 at 1:9",
            "there are no floating constants\n",
        ),
        (
            "int x = 1'000;",
            "01 at 1:10",
            "a constant's digits have no separators\n",
        ),
        (
            "int x = 1_000;",
            "01 at 1:10",
            "a constant's digits have no separators\n",
        ),
        (
            "int x = 1e3;",
            "01 at 1:10",
            "there are no floating constants\n",
        ),
        (
            "void worker(int self) { printf(\"\t\"); }",
            "04 at 1:32",
            "a string may contain only printable ASCII characters\n",
        ),
        (
            "int x = 0x;",
            "01 at 1:10",
            "hexadecimal digits must follow 0x\n",
        ),
        (
            "int x = 0xg;",
            "01 at 1:10",
            "hexadecimal digits must follow 0x\n",
        ),
        (
            "int 2x;",
            "01 at 1:6",
            "a constant's suffix is u or ll, and a name begins with a letter or _\n",
        ),
        (
            "int x = 10ull;",
            "01 at 1:12",
            "a constant's suffix is u or ll\n",
        ),
        (
            "int x = 1U;",
            "28 at 1:12",
            "thread T runs worker(T), defined as void worker(int self)\n",
        ),
        (
            "int x = 10k;",
            "01 at 1:11",
            "a constant's suffix is u or ll, and a name begins with a letter or _\n",
        ),
        (
            "void worker(int self) { printf(\"a\\\nb\"); }",
            "04 at 1:32",
            "a string must end on its line, with a quotation mark\n",
        ),
        (
            "void worker(int self) { printf(\"%d\\r\\n\", self); }",
            "04 at 1:32",
            "the escapes are \\n, \\t, \\\" and \\\\\n",
        ),
        (
            "\u{feff}int x;",
            "01 at 1:1",
            "U+FEFF, a byte order mark: save the file without it\n",
        ),
        (
            "int\u{a0}x;",
            "01 at 1:4",
            "U+00A0, a no-break space: use an ordinary space\n",
        ),
        (
            "void worker(int self) { printf(\u{201c}a\u{201d}); }",
            "01 at 1:32",
            "a typographic quotation mark: a string begins and ends with \"\n",
        ),
        (
            "void worker(int self) { printf(\u{2018}a\u{2019}); }",
            "01 at 1:32",
            "a typographic quotation mark, and there are no character constants\n",
        ),
        (
            "void worker(int self) { self = 1 \u{2013} 2; }",
            "01 at 1:34",
            "a typographic dash: minus is -\n",
        ),
        (
            "int x\u{200b};",
            "01 at 1:6",
            "U+200B, a zero-width space: remove it\n",
        ),
        (
            "int gr\u{f6}\u{df}e;",
            "01 at 1:7",
            "only comments may contain characters outside ASCII\n",
        ),
        (
            "void worker(int self) { self = self @ 1; }",
            "01 at 1:37",
            "no name or operator contains this character\n",
        ),
        (
            "int x$;",
            "01 at 1:6",
            "no name or operator contains this character\n",
        ),
        (
            "void worker(int self) { `self`; }",
            "01 at 1:25",
            "no name or operator contains this character\n",
        ),
        (
            "int x = 1;\u{37e}",
            "01 at 1:11",
            "only comments may contain characters outside ASCII\n",
        ),
        (
            "void worker(int self) { self = 2 \u{d7} 3; }",
            "01 at 1:34",
            "only comments may contain characters outside ASCII\n",
        ),
        (
            "void worker(int self) { self = self ** 2; }",
            "10 at 1:38",
            "there are no pointers, and no power operator\nexpected an expression\n",
        ),
        (
            "void worker(int self) { if (self \u{2264} 2) { } }",
            "01 at 1:34",
            "only comments may contain characters outside ASCII\n",
        ),
        (
            "int x; #\n",
            "01 at 1:8",
            "a directive must be alone on its line\n",
        ),
        (
            "void worker(int self) { self = self ? 1 : 2 : 3; }",
            "10 at 1:45",
            "expected ';' or an operator\n",
        ),
        (
            "\u{c}int x",
            "12 at 1:7",
            "expected ';', ',', '(', '[' or '='\n",
        ),
        (
            "void worker(int self) { self = \u{1}; }",
            "01 at 1:32",
            "a control character: only white space is allowed here\n",
        ),
    ];
    &ROWS
}

#[test]
fn characters_are_told(rt: HostRuntime) {
    assert_none(&rt, told_otherwise(rt.alloc(), rows()));
}
