//! Words of other C and of other languages.

use crate::told::{Row, assert_none, told_otherwise};

fn rows() -> &'static [Row] {
    static ROWS: [Row; 65] = [
        (
            "bool b;",
            "10 at 1:1",
            "the types are int, unsigned and long long\nexpected a declaration\n",
        ),
        (
            "char c;",
            "10 at 1:1",
            "the types are int, unsigned and long long\nexpected a declaration\n",
        ),
        (
            "float f;",
            "10 at 1:1",
            "the types are int, unsigned and long long\nexpected a declaration\n",
        ),
        (
            "short s;",
            "10 at 1:1",
            "the types are int, unsigned and long long\nexpected a declaration\n",
        ),
        (
            "uint32_t u;",
            "10 at 1:1",
            "the types are int, unsigned and long long\nexpected a declaration\n",
        ),
        (
            "size_t n;",
            "10 at 1:1",
            "the types are int, unsigned and long long\nexpected a declaration\n",
        ),
        (
            "_Bool b;",
            "10 at 1:1",
            "the types are int, unsigned and long long\nexpected a declaration\n",
        ),
        (
            "double d;",
            "10 at 1:1",
            "the types are int, unsigned and long long\nexpected a declaration\n",
        ),
        (
            "int64_t l;",
            "10 at 1:1",
            "the types are int, unsigned and long long\nexpected a declaration\n",
        ),
        (
            "fn worker(self) { }",
            "10 at 1:1",
            "write declarations as in C: int x = 1; and int f(int a) { .. }\nexpected a declaration\n",
        ),
        (
            "def worker(self): ",
            "10 at 1:1",
            "write declarations as in C: int x = 1; and int f(int a) { .. }\nexpected a declaration\n",
        ),
        (
            "class A { };",
            "10 at 1:1",
            "write declarations as in C: int x = 1; and int f(int a) { .. }\nexpected a declaration\n",
        ),
        (
            "let x = 1;",
            "10 at 1:1",
            "write declarations as in C: int x = 1; and int f(int a) { .. }\nexpected a declaration\n",
        ),
        (
            "var x = 1;",
            "10 at 1:1",
            "write declarations as in C: int x = 1; and int f(int a) { .. }\nexpected a declaration\n",
        ),
        (
            "function f() { }",
            "10 at 1:1",
            "write declarations as in C: int x = 1; and int f(int a) { .. }\nexpected a declaration\n",
        ),
        (
            "void worker(int self) { bool b = 1; }",
            "10 at 1:30",
            "the types are int, unsigned and long long\nexpected ';', '(', '[', an assignment or an operator\n",
        ),
        (
            "void worker(int self) { auto a = 1; }",
            "10 at 1:25",
            "there is no auto: declare the variable as int, unsigned or long long\nexpected '}', a declaration or a statement\n",
        ),
        (
            "void worker(int self) { let a = 1; }",
            "10 at 1:29",
            "write declarations as in C: int x = 1; and int f(int a) { .. }\nexpected ';', '(', '[', an assignment or an operator\n",
        ),
        (
            "int f(char c) { return 0; }",
            "10 at 1:7",
            "the types are int, unsigned and long long\nexpected ')' or a declaration\n",
        ),
        (
            "void worker(int self) { int a = (char)self; }",
            "10 at 1:34",
            "the types are int, unsigned and long long\nexpected a declaration or an expression\n",
        ),
        ("long x;", "10 at 1:6", "write long long\nexpected 'long'\n"),
        (
            "long int x;",
            "10 at 1:6",
            "long is allowed only in long long, which is signed\nexpected 'long'\n",
        ),
        (
            "unsigned long long x;",
            "10 at 1:10",
            "long is allowed only in long long, which is signed\nexpected a name\n",
        ),
        (
            "unsigned long x;",
            "10 at 1:10",
            "long is allowed only in long long, which is signed\nexpected a name\n",
        ),
        (
            "void worker(int self) { long n = 1; }",
            "10 at 1:30",
            "write long long\nexpected 'long'\n",
        ),
        (
            "long long unsigned x;",
            "10 at 1:11",
            "long is allowed only in long long, which is signed\nexpected a name\n",
        ),
        (
            "int x = 1ul;",
            "01 at 1:11",
            "a constant's suffix is u or ll\n",
        ),
        (
            "int x = 1L;",
            "01 at 1:10",
            "a constant's suffix is u or ll\n",
        ),
        (
            "long long x = 5l;",
            "01 at 1:16",
            "a constant's suffix is u or ll\n",
        ),
        (
            "void worker(int self) { switch (self) { } }",
            "10 at 1:25",
            "there is no switch: use if and else\nexpected '}', a declaration or a statement\n",
        ),
        (
            "void worker(int self) { goto out; }",
            "10 at 1:25",
            "there is no goto: use a loop with break or continue\nexpected '}', a declaration or a statement\n",
        ),
        (
            "static int x;",
            "10 at 1:1",
            "there is no static: leave it out, or make the variable global\nexpected a declaration\n",
        ),
        (
            "const int x = 1;",
            "10 at 1:1",
            "this keyword is not supported: leave it out\nexpected a declaration\n",
        ),
        (
            "void worker(int self) { self = sizeof(int); }",
            "10 at 1:32",
            "there is no sizeof: write the number\nexpected an expression\n",
        ),
        (
            "void worker(int self) { int a = &self; }",
            "10 at 1:33",
            "there are no pointers: return a value, or set a global\nexpected an expression\n",
        ),
        (
            "int *p;",
            "10 at 1:5",
            "there are no pointers: return a value, or set a global\nexpected a name\n",
        ),
        (
            "struct a { int b; };",
            "10 at 1:1",
            "the only types are int, unsigned and long long\nexpected a declaration\n",
        ),
        (
            "typedef int t;",
            "10 at 1:1",
            "the only types are int, unsigned and long long\nexpected a declaration\n",
        ),
        (
            "void worker(int self) { self = *self; }",
            "10 at 1:32",
            "there are no pointers: return a value, or set a global\nexpected an expression\n",
        ),
        (
            "void worker(int self) { *self = 1; }",
            "10 at 1:25",
            "there are no pointers: return a value, or set a global\nexpected '}', a declaration or a statement\n",
        ),
        (
            "enum { A, B };",
            "10 at 1:1",
            "the only types are int, unsigned and long long\nexpected a declaration\n",
        ),
        (
            "union u { int a; };",
            "10 at 1:1",
            "the only types are int, unsigned and long long\nexpected a declaration\n",
        ),
        (
            "extern int x;",
            "10 at 1:1",
            "this keyword is not supported: leave it out\nexpected a declaration\n",
        ),
        (
            "volatile int x;",
            "10 at 1:1",
            "this keyword is not supported: leave it out\nexpected a declaration\n",
        ),
        (
            "inline int f(void) { return 1; }",
            "10 at 1:1",
            "this keyword is not supported: leave it out\nexpected a declaration\n",
        ),
        (
            "int f(int *p) { return 0; }",
            "10 at 1:11",
            "there are no pointers: return a value, or set a global\nexpected ',', ')' or a name\n",
        ),
        (
            "void worker(int self) { self->a = 1; }",
            "10 at 1:30",
            "there are no pointers, and no structs\nexpected an expression\n",
        ),
        (
            "void worker(int self) { self.a = 1; }",
            "01 at 1:29",
            "there are no structs: use one array per member\n",
        ),
        (
            "void worker(int self) { out: self = 1; }",
            "10 at 1:28",
            "there are no labels\nexpected ';', '(', '[', an assignment or an operator\n",
        ),
        (
            "void worker(int self) { case 1: self = 1; }",
            "10 at 1:25",
            "there is no switch: use if and else\nexpected '}', a declaration or a statement\n",
        ),
        (
            "void worker(int self) { register int a; }",
            "10 at 1:25",
            "this keyword is not supported: leave it out\nexpected '}', a declaration or a statement\n",
        ),
        (
            "int f() { return 1; }",
            "28 at 1:22",
            "thread T runs worker(T), defined as void worker(int self)\n",
        ),
        (
            "void worker(int self, int n) { }",
            "28 at 1:33",
            "worker has a different type at 1:6\nthread T runs worker(T), defined as void worker(int self)\n",
        ),
        (
            "void worker(int self) { ; else self = 1; }",
            "10 at 1:27",
            "expected '}', a declaration or a statement\n",
        ),
        (
            "__attribute__((noinline)) int f(void) { return 1; }",
            "10 at 1:16",
            "the attributes are transaction_safe, transaction_unsafe and transaction_callable (functions) and outer (transactions)\n",
        ),
        (
            "[[noreturn]] void f(void) { }",
            "10 at 1:3",
            "the attributes are transaction_safe, transaction_unsafe and transaction_callable (functions) and outer (transactions)\n",
        ),
        (
            "int f(void) __attribute__((pure));",
            "10 at 1:28",
            "the attributes are transaction_safe, transaction_unsafe and transaction_callable (functions) and outer (transactions)\n",
        ),
        (
            "__attribute__((transaction_pure)) int f(void);",
            "10 at 1:16",
            "the attributes are transaction_safe, transaction_unsafe and transaction_callable (functions) and outer (transactions)\n",
        ),
        (
            "__attribute__((transaction_callable)) int f(void);",
            "29 at 1:43",
            "it is declared but never defined\n",
        ),
        (
            "__attribute__ ((unused)) int x;",
            "10 at 1:17",
            "the attributes are transaction_safe, transaction_unsafe and transaction_callable (functions) and outer (transactions)\n",
        ),
        (
            "__attribute__((transaction_saf)) int f(void);",
            "10 at 1:16",
            "the attributes are transaction_safe, transaction_unsafe and transaction_callable (functions) and outer (transactions)\n",
        ),
        (
            "[[nodiscard]] int f(void);",
            "10 at 1:3",
            "the attributes are transaction_safe, transaction_unsafe and transaction_callable (functions) and outer (transactions)\n",
        ),
        (
            "__attribute__(transaction_safe) int f(void);",
            "10 at 1:15",
            "expected '('\n",
        ),
        (
            "void f(void) transaction_safe;",
            "10 at 1:14",
            "expected ';', '{' or '['\n",
        ),
        (
            "int x;\nvoid worker(int self) { int y = &x; }",
            "10 at 2:33",
            "there are no pointers: return a value, or set a global\nexpected an expression\n",
        ),
    ];
    &ROWS
}

/// Words of threads, of C++ and of C's library, and functions and parameters without a type or a name.
fn more_rows() -> &'static [Row] {
    static ROWS: [Row; 53] = [
        (
            "int f(int n, ...) { return n; }",
            "01 at 1:14",
            "there is no ...: a function has a fixed number of parameters\n",
        ),
        (
            "void worker(int self) { try { } catch (...) { } }",
            "01 at 1:40",
            "there is no ...: a function has a fixed number of parameters\n",
        ),
        (
            "void worker(int self) { std::cout << 1; }",
            "10 at 1:28",
            "there is no ::, and printf is the only function of C's library\nexpected ';', '(', '[', an assignment or an operator\n",
        ),
        (
            "void worker(int self) { self = std::max(self, 1); }",
            "10 at 1:35",
            "there is no ::, and printf is the only function of C's library\nexpected ';', '(', '[' or an operator\n",
        ),
        (
            "void worker(int self) { self = self ? std::max(self, 1) : 2; }",
            "10 at 1:43",
            "there is no ::, and printf is the only function of C's library\nexpected an expression\n",
        ),
        (
            "std::mutex m;",
            "10 at 1:1",
            "there is no ::, and printf is the only function of C's library\nexpected a declaration\n",
        ),
        (
            "using namespace std;",
            "10 at 1:1",
            "printf is the only function of C's library\nexpected a declaration\n",
        ),
        (
            "int m;\nvoid worker(int self) { pthread_mutex_lock(&m); }",
            "10 at 2:44",
            "there are no locks: access shared variables in __transaction_atomic { .. }\nexpected ')' or an expression\n",
        ),
        (
            "int m;\nvoid worker(int self) { pthread_mutex_lock(m); }",
            "20 at 2:25",
            "there are no locks: access shared variables in __transaction_atomic { .. }\n",
        ),
        (
            "int m;\nvoid worker(int self) { mtx_lock(&m); }",
            "10 at 2:34",
            "there are no locks: access shared variables in __transaction_atomic { .. }\nexpected ')' or an expression\n",
        ),
        (
            "int s;\nvoid worker(int self) { sem_wait(&s); }",
            "10 at 2:34",
            "there are no locks: access shared variables in __transaction_atomic { .. }\nexpected ')' or an expression\n",
        ),
        (
            "int x;\nvoid worker(int self) { atomic_fetch_add(&x, 1); }",
            "10 at 2:42",
            "a shared variable is an ordinary global: access it in __transaction_atomic { .. }\nexpected ')' or an expression\n",
        ),
        (
            "int x;\nvoid worker(int self) { atomic_fetch_add(x, 1); }",
            "20 at 2:25",
            "a shared variable is an ordinary global: access it in __transaction_atomic { .. }\n",
        ),
        (
            "int x;\nvoid worker(int self) { self = __sync_fetch_and_add(&x, 1); }",
            "10 at 2:53",
            "a shared variable is an ordinary global: access it in __transaction_atomic { .. }\nexpected ')' or an expression\n",
        ),
        (
            "int x;\nvoid worker(int self) { self = __atomic_load_n(&x, 5); }",
            "10 at 2:48",
            "a shared variable is an ordinary global: access it in __transaction_atomic { .. }\nexpected ')' or an expression\n",
        ),
        (
            "int t;\nvoid worker(int self) { pthread_create(&t, 0, self, 0); }",
            "10 at 2:40",
            "the option --threads T starts threads, and transactions replace locks\nexpected ')' or an expression\n",
        ),
        (
            "int x;\nvoid worker(int self) { free(&x); }",
            "10 at 2:30",
            "printf is the only function of C's library\nexpected ')' or an expression\n",
        ),
        (
            "void atomic_add(int a) { }\nint x;\nvoid worker(int self) { atomic_add(&x); }",
            "10 at 3:36",
            "there are no pointers: return a value, or set a global\nexpected ')' or an expression\n",
        ),
        (
            "pthread_mutex_t m;",
            "10 at 1:1",
            "there are no locks: access shared variables in __transaction_atomic { .. }\nexpected a declaration\n",
        ),
        (
            "void worker(int self) { pthread_mutex_t m; }",
            "10 at 1:41",
            "there are no locks: access shared variables in __transaction_atomic { .. }\nexpected ';', '(', '[', an assignment or an operator\n",
        ),
        (
            "mtx_t m;",
            "10 at 1:1",
            "there are no locks: access shared variables in __transaction_atomic { .. }\nexpected a declaration\n",
        ),
        (
            "sem_t s;",
            "10 at 1:1",
            "there are no locks: access shared variables in __transaction_atomic { .. }\nexpected a declaration\n",
        ),
        (
            "pthread_rwlock_t m;",
            "10 at 1:1",
            "there are no locks: access shared variables in __transaction_atomic { .. }\nexpected a declaration\n",
        ),
        (
            "pthread_t t;",
            "10 at 1:1",
            "the option --threads T starts threads, and transactions replace locks\nexpected a declaration\n",
        ),
        (
            "thrd_t t;",
            "10 at 1:1",
            "the option --threads T starts threads, and transactions replace locks\nexpected a declaration\n",
        ),
        (
            "atomic_int x;",
            "10 at 1:1",
            "a shared variable is an ordinary global: access it in __transaction_atomic { .. }\nexpected a declaration\n",
        ),
        (
            "_Atomic int x;",
            "10 at 1:1",
            "a shared variable is an ordinary global: access it in __transaction_atomic { .. }\nexpected a declaration\n",
        ),
        (
            "_Atomic(int) x;",
            "10 at 1:1",
            "a shared variable is an ordinary global: access it in __transaction_atomic { .. }\nexpected a declaration\n",
        ),
        (
            "void worker(int self) { _Atomic(int) x; }",
            "10 at 1:33",
            "a shared variable is an ordinary global: access it in __transaction_atomic { .. }\nexpected ')' or an expression\n",
        ),
        (
            "atomic_bool b;",
            "10 at 1:1",
            "a shared variable is an ordinary global: access it in __transaction_atomic { .. }\nexpected a declaration\n",
        ),
        (
            "atomic_llong l;",
            "10 at 1:1",
            "a shared variable is an ordinary global: access it in __transaction_atomic { .. }\nexpected a declaration\n",
        ),
        (
            "int sum(atomic_int a) { return 1; }",
            "10 at 1:9",
            "a shared variable is an ordinary global: access it in __transaction_atomic { .. }\nexpected ')' or a declaration\n",
        ),
        (
            "thread_local int x;",
            "10 at 1:1",
            "all threads share each global: use a local variable for a thread's own data\nexpected a declaration\n",
        ),
        (
            "_Thread_local int x;",
            "10 at 1:1",
            "all threads share each global: use a local variable for a thread's own data\nexpected a declaration\n",
        ),
        (
            "void worker(int self) { __thread int x; }",
            "10 at 1:34",
            "all threads share each global: use a local variable for a thread's own data\nexpected ';', '(', '[', an assignment or an operator\n",
        ),
        (
            "FILE *f;",
            "10 at 1:1",
            "printf is the only function of C's library\nexpected a declaration\n",
        ),
        (
            "void worker(int self) { (void)self; }",
            "10 at 1:26",
            "a cast is to int, unsigned or long long: an unused value needs no cast\nexpected a declaration or an expression\n",
        ),
        (
            "void f(void) { }\nvoid worker(int self) { f(void); }",
            "10 at 2:27",
            "a call without arguments has empty parentheses: f()\nexpected ')' or an expression\n",
        ),
        (
            "f() { }",
            "10 at 1:1",
            "a function needs a return type, or void, in front, as in int f(int a) { .. }\nexpected a declaration\n",
        ),
        (
            "int x;\nf(int a) { return a; }",
            "10 at 2:1",
            "a function needs a return type, or void, in front, as in int f(int a) { .. }\nexpected a declaration\n",
        ),
        (
            "worker(int self) { }",
            "10 at 1:1",
            "a function needs a return type, or void, in front, as in int f(int a) { .. }\nexpected a declaration\n",
        ),
        (
            "void worker(int) { }",
            "10 at 1:18",
            "a parameter needs a type and a name, as in int f(int a) { .. }\nexpected ';' or '['\n",
        ),
        (
            "void worker(int, int b) { }",
            "10 at 1:25",
            "a parameter needs a type and a name, as in int f(int a) { .. }\nexpected ';' or '['\n",
        ),
        (
            "int f(int a, b) { return a; }",
            "10 at 1:14",
            "a parameter needs a type (int, unsigned or long long), as in int f(int a)\nexpected a declaration\n",
        ),
        (
            "auto x = 1;",
            "10 at 1:1",
            "there is no auto: declare the variable as int, unsigned or long long\nexpected a declaration\n",
        ),
        (
            "int x = 1\natomic_llong y;",
            "10 at 2:1",
            "expected ';' or ','\na ';' may be missing at 1:10\n",
        ),
        (
            "int atomic_count;\nvoid worker(int self) { atomic_count 5; }",
            "10 at 2:38",
            "expected ';', '(', '[', an assignment or an operator\n",
        ),
        ("f();", "10 at 1:1", "expected a declaration\n"),
        (
            "__attribute__((transaction_callabl)) int f(void);",
            "10 at 1:16",
            "the attributes are transaction_safe, transaction_unsafe and transaction_callable (functions) and outer (transactions)\n",
        ),
        (
            "pthread_cond_t c;",
            "10 at 1:1",
            "to wait, repeat a transaction: while (!done) { __transaction_atomic { .. } }\nexpected a declaration\n",
        ),
        (
            "int ops, atomic_ops;\nvoid worker(int self) { __transaction_atomic { ops = atomic_ops\natomic_ops = 1; } }",
            "10 at 3:1",
            "expected ';', '(', '[' or an operator\na ';' may be missing at 2:64\n",
        ),
        (
            "void worker(int self) { printf(\"%d\", pthread_self()); }",
            "20 at 1:38",
            "a thread's number is the parameter of worker\n",
        ),
        (
            "void worker(int self) { thrd_create(self); }",
            "20 at 1:25",
            "the option --threads T starts threads, and transactions replace locks\n",
        ),
    ];
    &ROWS
}

#[test]
fn words_are_told(rt: HostRuntime) {
    assert_none(&rt, told_otherwise(rt.alloc(), rows()));
}

#[test]
fn more_words_are_told(rt: HostRuntime) {
    assert_none(&rt, told_otherwise(rt.alloc(), more_rows()));
}
