//! Tokens that are missing, and statements that are written as values.

use crate::told::{Row, assert_none, told_otherwise};

fn rows() -> &'static [Row] {
    static ROWS: [Row; 38] = [
        (
            "int x\nvoid worker(int self) { }",
            "10 at 2:1",
            "expected ';', ',', '(', '[' or '='\na ';' may be missing at 1:6\n",
        ),
        (
            "void worker(int self) {\n    int a = 1\n    a = 2;\n}",
            "10 at 3:5",
            "expected ';', ',' or an operator\na ';' may be missing at 2:14\n",
        ),
        (
            "void worker(int self) {\n    int a = 1;\n    a = 2\n}",
            "10 at 4:1",
            "expected ';' or an operator\na ';' may be missing at 3:10\n",
        ),
        (
            "void worker(int self) {\n    printf(\"a\")\n}",
            "10 at 3:1",
            "expected ';'\na ';' may be missing at 2:16\n",
        ),
        (
            "void worker(int self) {\n    return\n}",
            "10 at 3:1",
            "expected ';' or an expression\na ';' may be missing at 2:11\n",
        ),
        (
            "int x y;",
            "10 at 1:7",
            "expected ';', ',', '(', '[' or '='\n",
        ),
        (
            "void worker(int self) {\n    if (self == 1 {\n    }\n}",
            "10 at 2:19",
            "expected ')' or an operator\nunclosed '(' at 2:8\n",
        ),
        (
            "int a[4];\nvoid worker(int self) {\n    __transaction_atomic { a[0 = 1; }\n}",
            "10 at 3:32",
            "expected ']' or an operator\nunclosed '[' at 3:29\n",
        ),
        (
            "void worker(int self) {\n    if (self) {\n        self = 1;\n}\n",
            "12 at 4:2",
            "expected '}', 'else', a declaration or a statement\nunclosed '{' at 1:23\n",
        ),
        (
            "void worker(int self) {\n    self = (1 + 2;\n}",
            "10 at 2:18",
            "expected ')' or an operator\nunclosed '(' at 2:12\n",
        ),
        (
            "int a[4;\nvoid worker(int self) { }",
            "10 at 1:8",
            "expected ']'\nunclosed '[' at 1:6\n",
        ),
        (
            "int f(int a {\n    return a;\n}\nvoid worker(int self) { }",
            "10 at 1:13",
            "expected ',' or ')'\nunclosed '(' at 1:6\n",
        ),
        (
            "void worker(int self) {\n    __transaction_atomic {\n    self = 1;\n}\nint g(void) { return 1; }\n",
            "10 at 5:6",
            "functions do not nest: a } may be missing before this one\nexpected ';', ',' or '='\n",
        ),
        (
            "void worker(int self) {\n    printf(\"%d\\n\", self;\n}",
            "10 at 2:24",
            "expected ',', ')', '(', '[' or an operator\nunclosed '(' at 2:11\n",
        ),
        (
            "void worker(int self) { self = 1) ; }",
            "10 at 1:33",
            "expected ';' or an operator\n",
        ),
        (
            "void worker(int self) { } }",
            "10 at 1:27",
            "expected a declaration\n",
        ),
        (
            "void worker(int self) { int b = self++; }",
            "10 at 1:37",
            "++ and -- are statements and have no value: write one before or after this statement\nexpected ';', ',', '(', '[' or an operator\n",
        ),
        (
            "int a[4];\nvoid worker(int self) { int i = 0; __transaction_atomic { a[i++] = 1; } }",
            "10 at 2:62",
            "++ and -- are statements and have no value: write one before or after this statement\nexpected ']', '(', '[' or an operator\n",
        ),
        (
            "void worker(int self) { if (++self == 2) { } }",
            "10 at 1:29",
            "++ and -- are statements and have no value: write one before or after this statement\nexpected an expression\n",
        ),
        (
            "void worker(int self) { while (self--) { } }",
            "10 at 1:36",
            "++ and -- are statements and have no value: write one before or after this statement\nexpected ')', '(', '[' or an operator\n",
        ),
        (
            "void worker(int self) { printf(\"%d\", self++); }",
            "10 at 1:42",
            "++ and -- are statements and have no value: write one before or after this statement\nexpected ',', ')', '(', '[' or an operator\n",
        ),
        (
            "int f(int a) { return a; }\nvoid worker(int self) { self = f(self++); }",
            "10 at 2:38",
            "++ and -- are statements and have no value: write one before or after this statement\nexpected ',', ')', '(', '[' or an operator\n",
        ),
        (
            "int f(int a) { return a++; }\nvoid worker(int self) { }",
            "10 at 1:24",
            "++ and -- are statements and have no value: write one before or after this statement\nexpected ';', '(', '[' or an operator\n",
        ),
        (
            "void worker(int self) { int a = --self; }",
            "10 at 1:33",
            "++ and -- are statements and have no value: write one before or after this statement\nexpected an expression\n",
        ),
        (
            "int a[2][3];",
            "10 at 1:9",
            "an array has one dimension: write a[6] for a[2][3], and a[i * 3 + j] for a[i][j]\nexpected ';', ',' or '='\n",
        ),
        (
            "int a[] = {1, 2};",
            "10 at 1:7",
            "an array's length must be a number\nexpected a number\n",
        ),
        (
            "int n;\nint a[n];",
            "10 at 2:7",
            "an array's length must be a number\nexpected a number\n",
        ),
        (
            "int x = 2 + 3;",
            "10 at 1:11",
            "only a number is allowed here: write the result\nexpected ';' or ','\n",
        ),
        (
            "int x = 2 * 3;",
            "10 at 1:11",
            "only a number is allowed here: write the result\nexpected ';' or ','\n",
        ),
        (
            "void worker(int self) { int a[4]; }",
            "10 at 1:30",
            "arrays must be global\nexpected ';', ',' or '='\n",
        ),
        (
            "int a[N];",
            "10 at 1:7",
            "an array's length must be a number\nexpected a number\n",
        ),
        ("int x = -(3);", "10 at 1:10", "expected a number\n"),
        ("int y = x;", "10 at 1:9", "expected a number\n"),
        (
            "int a[2 * 4];",
            "10 at 1:9",
            "only a number is allowed here: write the result\nexpected ']'\n",
        ),
        (
            "int a[1 << 4];",
            "10 at 1:9",
            "only a number is allowed here: write the result\nexpected ']'\n",
        ),
        (
            "int a[4];\nvoid worker(int self) { __transaction_atomic { a[1][2] = 1; } }",
            "10 at 2:52",
            "an array has one dimension: write a[6] for a[2][3], and a[i * 3 + j] for a[i][j]\nexpected ';', an assignment or an operator\n",
        ),
        (
            "int a[4] = {0, 1,};",
            "28 at 1:20",
            "thread T runs worker(T), defined as void worker(int self)\n",
        ),
        ("int a[4] = {};", "10 at 1:13", "expected a number\n"),
    ];
    &ROWS
}

fn more_rows() -> &'static [Row] {
    static ROWS: [Row; 39] = [
        ("int a[4] = 0;", "10 at 1:12", "expected '{'\n"),
        (
            "void worker(int self) { int a[] = {1}; }",
            "10 at 1:30",
            "arrays must be global\nexpected ';', ',' or '='\n",
        ),
        (
            "int f(int a[]) { return 0; }",
            "10 at 1:12",
            "arrays must be global\nexpected ',' or ')'\n",
        ),
        (
            "int f(int a[4]) { return 0; }",
            "10 at 1:12",
            "arrays must be global\nexpected ',' or ')'\n",
        ),
        (
            "void worker(int self) { if (self = 1) { } }",
            "10 at 1:34",
            "an assignment is a statement and has no value: use == to compare\nexpected ')', '(', '[' or an operator\n",
        ),
        (
            "void worker(int self) { int a, b; a = b = 1; }",
            "10 at 1:41",
            "an assignment is a statement and has no value: write one for each variable\nexpected ';', '(', '[' or an operator\n",
        ),
        (
            "void worker(int self) { int a = (1, 2); }",
            "10 at 1:35",
            "there is no comma operator: write two statements\nexpected ')' or an operator\n",
        ),
        (
            "void worker(int self) { for (int i = 0, j = 0; i < 1; i++, j++) { } }",
            "10 at 1:58",
            "there is no comma operator: write two statements\nexpected ')'\n",
        ),
        (
            "void worker(int self) { 1 = 2; }",
            "24 at 1:25",
            "the left side of an assignment must be a variable or an element of an array\n",
        ),
        (
            "void worker(int self) { self + 1 = 2; }",
            "24 at 1:25",
            "the left side of an assignment must be a variable or an element of an array\n",
        ),
        (
            "void worker(int self) { while ((self = 1) > 0) { } }",
            "10 at 1:38",
            "an assignment is a statement and has no value: use == to compare\nexpected ')', '(', '[' or an operator\n",
        ),
        (
            "void worker(int self) { f() = 1; }",
            "20 at 1:25",
            "it is not declared anywhere\n",
        ),
        (
            "void worker(int self) { 5++; }",
            "24 at 1:25",
            "the left side of an assignment must be a variable or an element of an array\n",
        ),
        (
            "void worker(int self) { self =< 2; }",
            "10 at 1:31",
            "the comparisons are <, >, <=, >=, == and !=\nexpected an expression\n",
        ),
        (
            "void worker(int self) { (self) = 1; }",
            "24 at 1:25",
            "the left side of an assignment must be a variable or an element of an array\n",
        ),
        (
            "void worker(int self) { self = self <> 1; }",
            "10 at 1:38",
            "the comparisons are <, >, <=, >=, == and !=\nexpected an expression\n",
        ),
        (
            "void worker(int self) { if (self == 1 && ) { } }",
            "10 at 1:42",
            "expected an expression\n",
        ),
        (
            "void worker(int self) { if self == 1 { } }",
            "10 at 1:28",
            "expected '('\n",
        ),
        (
            "void worker(int self) { if (self == 1) then { } }",
            "10 at 1:45",
            "there is no then: a statement follows the condition of an if\nexpected ';', '(', '[', an assignment or an operator\n",
        ),
        (
            "void worker(int self) { if (self and 1) { } }",
            "10 at 1:34",
            "the logical operators are &&, || and !\nexpected ')', '(', '[' or an operator\n",
        ),
        (
            "void worker(int self) { elif (self) { } }",
            "10 at 1:37",
            "write else if\nexpected ';', an assignment or an operator\n",
        ),
        (
            "void worker(int self) { if (self) { } elseif (1) { } }",
            "10 at 1:50",
            "write else if\nexpected ';', an assignment or an operator\n",
        ),
        (
            "void worker(int self) { do { } while (self) }",
            "10 at 1:45",
            "expected ';'\n",
        ),
        (
            "void worker(int self) { for (;;;) { } }",
            "10 at 1:32",
            "expected ')' or an expression\nunclosed '(' at 1:29\n",
        ),
        (
            "void worker(int self) { for (int i = 0; i < 4, i++) { } }",
            "10 at 1:46",
            "there is no comma operator: write two statements\nexpected ';' or an operator\n",
        ),
        (
            "void worker(int self) { for (i = 0; i < 4; i++) { } }",
            "20 at 1:30",
            "it is not declared anywhere\n",
        ),
        (
            "void worker(int self) { return 1 2; }",
            "10 at 1:34",
            "expected ';' or an operator\n",
        ),
        (
            "void worker(int self) { int 1a; }",
            "01 at 1:30",
            "a constant's suffix is u or ll, and a name begins with a letter or _\n",
        ),
        (
            "void worker(int self) { { self = 1;  }",
            "12 at 1:39",
            "expected '}', a declaration or a statement\nunclosed '{' at 1:23\n",
        ),
        (
            "void worker(int self) { int if = 1; }",
            "10 at 1:29",
            "expected a name\n",
        ),
        (
            "void worker(int self) { break; }",
            "26 at 1:25",
            "it must be inside a loop of the same function\n",
        ),
        (
            "void worker(int self) { if (self) { continue; } }",
            "26 at 1:37",
            "it must be inside a loop of the same function\n",
        ),
        (
            "void worker(int self) { do self = 1; while (0) self = 2; }",
            "10 at 1:48",
            "expected ';'\n",
        ),
        (
            "void worker(int self) { int i; for (i = 0; i < 3; i++ { } }",
            "10 at 1:55",
            "expected ')'\nunclosed '(' at 1:36\n",
        ),
        (
            "void worker(int self) { int n = 0; if (++n == self) { } }",
            "10 at 1:40",
            "++ and -- are statements and have no value: write one before or after this statement\nexpected an expression\n",
        ),
        (
            "void worker(int self) { int n\n    = self\n    printf(\"%d\", n); }",
            "10 at 3:5",
            "expected ';', ',', '(', '[' or an operator\na ';' may be missing at 2:11\n",
        ),
        (
            "void worker(int self) { int n = self\n    ++n; }",
            "10 at 2:5",
            "expected ';', ',', '(', '[' or an operator\na ';' may be missing at 1:37\n",
        ),
        (
            "int a[4] = {{0, 1}, {2, 3}};",
            "10 at 1:13",
            "an array has one dimension: write its values in one list\nexpected a number\n",
        ),
        (
            "int a[4] = {0, {1, 2}};",
            "10 at 1:16",
            "an array has one dimension: write its values in one list\nexpected '}' or a number\n",
        ),
    ];
    &ROWS
}

#[test]
fn tokens_are_told(rt: HostRuntime) {
    assert_none(&rt, told_otherwise(rt.alloc(), rows()));
}

#[test]
fn more_tokens_are_told(rt: HostRuntime) {
    assert_none(&rt, told_otherwise(rt.alloc(), more_rows()));
}
