//! Programs with `long long`.

use test_serving::{Row, wrong_row};

const RUN: &str = "txc run a.c";

/// The rows are in a function, so that only their own proofs evaluate them.
fn wide() -> &'static [Row] {
    static ROWS: [Row; 26] = [
        (
            RUN,
            b"long long x = 9223372036854775807; void worker(int self) { __transaction_atomic { x = x + 1; } }",
            b"",
            (
                3,
                b"== thread 0: trap 1\n== memory\nx = 9223372036854775807\n",
                b"",
            ),
        ),
        (
            RUN,
            b"int a = 2147483647; long long b; void worker(int self) { __transaction_atomic { b = a + 1LL; } }",
            b"",
            (
                0,
                b"== thread 0: ended\n== memory\na = 2147483647\nb = 2147483648\n",
                b"",
            ),
        ),
        (
            RUN,
            b"long long x; void worker(int self) { __transaction_atomic { x = 1LL << 40; } printf(\"%lld\", 1LL << 62); }",
            b"",
            (
                0,
                b"== thread 0: ended\n4611686018427387904\n== memory\nx = 1099511627776\n",
                b"",
            ),
        ),
        (
            RUN,
            b"void worker(int self) { printf(\"%d %d\", -1 < 4294967295u, -1LL < 4294967295u); }",
            b"",
            (0, b"== thread 0: ended\n0 1\n== memory\n", b""),
        ),
        (
            RUN,
            b"int x = 9223372036854775808;",
            b"",
            (1, b"", b"txc: fault 02 at 1:9: constant too large\n"),
        ),
        (
            RUN,
            b"// 64 bits by xor and shifts (Marsaglia, 13, 7, 17), in signed arithmetic: the bit that `<<` moves to the sign is put there apart.\nlong long state = 88172645463325252;\nlong long shifted(long long x, int k) {\n  return (x & ((1LL << (63 - k)) - 1)) << k | (x >> (63 - k) & 1 ? -9223372036854775807 - 1 : 0);\n}\nlong long low(long long x, int k) { return x >> k & (1LL << (64 - k)) - 1; }\nvoid worker(int self) {\n  int i;\n  for (i = 0; i < 5; i++) {\n    long long x;\n    __transaction_atomic {\n      x = state;\n      x ^= shifted(x, 13);\n      x ^= low(x, 7);\n      x ^= shifted(x, 17);\n      state = x;\n    }\n    printf(\"%lld\\n\", x);\n  }\n}\n",
            b"",
            (
                0,
                b"== thread 0: ended\n8748534153485358512\n3040900993826735515\n3453997556048239312\n-2015011221783540763\n8204724074003728306\n== memory\nstate = 8204724074003728306\n",
                b"",
            ),
        ),
        (
            RUN,
            b"// FNV-1a with 32-bit halves in `long long`, since a product of two 64-bit numbers traps.\nlong long hash;\nint text[5] = {104, 101, 108, 108, 111};\nvoid worker(int self) {\n  long long high = 3421674724, low = 2216829733;\n  int i;\n  for (i = 0; i < 5; i++) {\n    long long carry;\n    __transaction_atomic { low ^= text[i]; }\n    carry = low * 435;\n    high = high * 435 + (carry >> 32) + (low << 8) & 0xFFFFFFFF;\n    low = carry & 0xFFFFFFFF;\n  }\n  __transaction_atomic { hash = low | (high & 0x7FFFFFFF) << 32; if (high >> 31) hash = hash | -9223372036854775807 - 1; }\n  printf(\"%u %u\", (unsigned)high, (unsigned)low);\n}\n",
            b"",
            (
                0,
                b"== thread 0: ended\n2754664518 2158673163\n== memory\nhash = -6615550055289275125\ntext = 104 101 108 108 111\n",
                b"",
            ),
        ),
        (
            RUN,
            b"long long product = 1;\nint n = 1;\nvoid worker(int self) {\n  while (1) {\n    long long p;\n    __transaction_atomic { n++; product *= n; p = product; }\n    printf(\"%lld \", p);\n  }\n}\n",
            b"",
            (
                3,
                b"== thread 0: trap 1\n2 6 24 120 720 5040 40320 362880 3628800 39916800 479001600 6227020800 87178291200 1307674368000 20922789888000 355687428096000 6402373705728000 121645100408832000 2432902008176640000 \n== memory\nproduct = 2432902008176640000\nn = 20\n",
                b"",
            ),
        ),
        (
            RUN,
            b"long long a, b = 1;\nint n = 1;\nvoid worker(int self) { for (;;) { __transaction_atomic { long long c = a + b; a = b; b = c; n++; } } }\n",
            b"",
            (
                3,
                b"== thread 0: trap 1\n== memory\na = 4660046610375530309\nb = 7540113804746346429\nn = 92\n",
                b"",
            ),
        ),
        (
            RUN,
            b"int i = -1;\nunsigned u = 4294967295;\nlong long l = -1, m, z[3] = {1, -0x80000000, 4294967295};\nlong long twice(long long x) { return x + x; }\nint narrow(long long x) { return x; }\nunsigned bits(int x) { return x; }\nvoid worker(int self) {\n  __transaction_atomic {\n    m = self ? u : l;\n    i = z[2];\n    u = z[1] - 1;\n    l += u;\n  }\n  printf(\"%u %d %d\\n\", 1 ? -1 : 1u, -1 < 1u, -1LL < 1u);\n  printf(\"%lld %lld %lld\\n\", (1 ? -1 : 1u) + 0LL, (1 ? -1 : 1LL), (0 ? 1u : -1) + 0LL);\n  printf(\"%lld %d %u %lld\\n\", twice(-1), narrow(4294967297), bits(-1), bits(-1) + 0LL);\n  printf(\"%lld %lld %d\\n\", 1LL << 40LL, -1LL >> 63, 1 << 3LL);\n  printf(\"%lld %lld %u\\n\", ~0LL, -0x80000000 + 0LL, ~0u);\n  printf(\"%d %d %d\\n\", 1LL << 32 ? 1 : 2, !(1LL << 32), (1LL << 32) && 1);\n}\n",
            b"",
            (
                0,
                b"== thread 0: ended\n4294967295 0 1\n4294967295 -1 4294967295\n-2 1 4294967295 4294967295\n1099511627776 -1 8\n-1 2147483648 4294967295\n1 0 1\n== memory\ni = -1\nu = 2147483647\nl = 2147483646\nm = -1\nz = 1 2147483648 4294967295\n",
                b"",
            ),
        ),
        (
            RUN,
            b"// two threads and more: a sum of 64 bits that no `int` holds\nlong long sum = 4294967295;\nint turns;\nvoid worker(int self) {\n  int i;\n  for (i = 0; i < 1000; i++) { __transaction_atomic { sum += 2147483647; turns++; } }\n}\n",
            b"",
            (
                0,
                b"== thread 0: ended\n== memory\nsum = 2151778614295\nturns = 1000\n",
                b"",
            ),
        ),
        (
            RUN,
            b"long long x;\nint i = -2147483647;\nvoid worker(int self) {\n  __transaction_atomic { x = (i - 1LL) / -1; i = (i - 1LL) % -1; }\n  __transaction_atomic { x = (-9223372036854775807 - 1) % -1; }\n}\n",
            b"",
            (
                3,
                b"== thread 0: trap 1\n== memory\nx = 2147483648\ni = 0\n",
                b"",
            ),
        ),
        (
            RUN,
            b"int x;\nvoid worker(int self) { __transaction_atomic { x = 1 << 32LL; } }\n",
            b"",
            (3, b"== thread 0: trap 5\n== memory\nx = 0\n", b""),
        ),
        (
            RUN,
            b"long long x;\nvoid worker(int self) { __transaction_atomic { x = 1LL << 62; } __transaction_atomic { x = 1LL << 63; } }\n",
            b"",
            (
                3,
                b"== thread 0: trap 1\n== memory\nx = 4611686018427387904\n",
                b"",
            ),
        ),
        (
            RUN,
            b"int a[3] = {1, 2, 3};\nlong long k = 4294967296;\nvoid worker(int self) { __transaction_atomic { a[k - 4294967294] = 7; } __transaction_atomic { a[k] = 9; } }\n",
            b"",
            (
                3,
                b"== thread 0: trap 3\n== memory\na = 1 2 7\nk = 4294967296\n",
                b"",
            ),
        ),
        (
            RUN,
            b"void worker(int self) { printf(\"%d\", 1LL); }\n",
            b"",
            (1, b"", b"txc: fault 27 at 1:38: bad format\n"),
        ),
        (
            RUN,
            b"unsigned long long x;\nvoid worker(int self) { }\n",
            b"",
            (1, b"", b"txc: fault 10 at 1:10: unexpected token\n"),
        ),
        (
            RUN,
            b"long int x;\nvoid worker(int self) { }\n",
            b"",
            (1, b"", b"txc: fault 10 at 1:6: unexpected token\n"),
        ),
        (
            RUN,
            b"long long a = -1, b[3] = {-0x80000000, -2147483648, 9223372036854775807}; int c = 4294967297, d[2] = {-2147483648, 2147483648}; unsigned e = -1LL, f[2] = {4294967296, 4294967295}; void worker(int self) { }",
            b"",
            (
                0,
                b"== thread 0: ended\n== memory\na = -1\nb = 2147483648 -2147483648 9223372036854775807\nc = 1\nd = -2147483648 -2147483648\ne = 4294967295\nf = 0 4294967295\n",
                b"",
            ),
        ),
        // operators at the limits of numbers, conversions, conditions, loops and cancels
        (
            RUN,
            b"long long m(int i) { return i == 0 ? 9223372036854775807 : i == 1 ? -9223372036854775807 - 1 : i == 2 ? 2147483648 : 4294967295u; } void worker(int self) { for (int i = 0; i < 4; i++) for (long long j = 0; j < 4; j++) { long long a = m(i), b = m(j); printf(\"%lld %lld %lld %lld;\", a & b, a | b, a ^ b, ~a); printf(\"%d%d%d%d%d%d \", a < b, a > b, a <= b, a >= b, a == b, a != b); } }",
            b"",
            (
                0,
                b"== thread 0: ended\n9223372036854775807 9223372036854775807 0 -9223372036854775808;001110 0 -1 -1 -9223372036854775808;010101 2147483648 9223372036854775807 9223372034707292159 -9223372036854775808;010101 4294967295 9223372036854775807 9223372032559808512 -9223372036854775808;010101 0 -1 -1 9223372036854775807;101001 -9223372036854775808 -9223372036854775808 0 9223372036854775807;001110 0 -9223372034707292160 -9223372034707292160 9223372036854775807;101001 0 -9223372032559808513 -9223372032559808513 9223372036854775807;101001 2147483648 9223372036854775807 9223372034707292159 -2147483649;101001 0 -9223372034707292160 -9223372034707292160 -2147483649;010101 2147483648 2147483648 0 -2147483649;001110 2147483648 4294967295 2147483647 -2147483649;101001 4294967295 9223372036854775807 9223372032559808512 -4294967296;101001 0 -9223372032559808513 -9223372032559808513 -4294967296;010101 2147483648 4294967295 2147483647 -4294967296;010101 4294967295 4294967295 0 -4294967296;001110 \n== memory\n",
                b"",
            ),
        ),
        (
            RUN,
            b"long long m(int i) { return i == 0 ? 9223372036854775807 : i == 1 ? -9223372036854775807 - 1 : i == 2 ? -4294967296 : 1u; } void worker(int self) { for (int i = 0; i < 4; i++) for (int j = 0; j < 4; j++) { long long a = m(i), b = m(j); printf(\"%lld %lld \", a / (b | 3), a % (b | 3)); printf(\"%lld %lld;\", a / 2 + b / 2, a / 2 - b / 2); } }",
            b"",
            (
                0,
                b"== thread 0: ended\n1 0 9223372036854775806 0;-1 2 -1 9223372036854775807;-2147483649 2147483650 4611686016279904255 4611686020574871551;3074457345618258602 1 4611686018427387903 4611686018427387903;-1 -1 -1 -9223372036854775807;1 -3 -9223372036854775808 0;2147483649 -2147483651 -4611686020574871552 -4611686016279904256;-3074457345618258602 -2 -4611686018427387904 -4611686018427387904;0 -4294967296 4611686016279904255 -4611686020574871551;0 -4294967296 -4611686020574871552 4611686016279904256;1 -3 -4294967296 0;-1431655765 -1 -2147483648 -2147483648;0 1 4611686018427387903 -4611686018427387903;0 1 -4611686018427387904 4611686018427387904;0 1 -2147483648 2147483648;0 1 0 0;\n== memory\n",
                b"",
            ),
        ),
        (
            RUN,
            b"int i[2] = {-1, 7}; unsigned u[2] = {4294967295u, 0x80000000}; long long l[3] = {-0x80000000, -9223372036854775807, 1u}; void worker(int self) { for (long long k = 0; k < 2; k++) __transaction_atomic { l[k] ^= i[1 - k]; i[k] = l[1 + k]; u[k] = l[k] >> 1; l[k + 1] = u[k] + l[k]; } }",
            b"",
            (
                0,
                b"== thread 0: ended\n== memory\ni = 1 1\nu = 1073741827 1610612741\nl = 2147483655 3221225483 4831838224\n",
                b"",
            ),
        ),
        (
            RUN,
            b"long long f(long long a, unsigned b, int c) { return a + b + c; } int g(long long a) { return a; } unsigned h(int a) { return a; } long long d(int a) { return a; } void worker(int self) { printf(\"%lld %d \", f(-1, -1, 4294967297), g(-4294967295)); printf(\"%u %lld %lld\", h(4294967295), d(4294967295u), h(-1) + 0LL); self = f(d(g(2147483648)), h(g(self)), d(-self)); printf(\" %d\", self); }",
            b"",
            (
                0,
                b"== thread 0: ended\n4294967295 1 4294967295 -1 4294967295 -2147483648\n== memory\n",
                b"",
            ),
        ),
        (
            RUN,
            b"void worker(int self) { long long x = 4294967296, y = x << 8; if (x) printf(\"a\"); if (!x) printf(\"b\"); else printf(\"c\"); while (y) { printf(\"%lld;\", y); y = y >> 20; } do { x -= 1073741824; printf(\"%d%d%d \", x && 1, x || 0, !!x); } while (x); for (x = 8589934592; x; x = x & x - 1) printf(\"%d\", x ? 1 : 2); }",
            b"",
            (
                0,
                b"== thread 0: ended\nac1099511627776;1048576;1;111 111 111 000 1\n== memory\n",
                b"",
            ),
        ),
        (
            RUN,
            b"void worker(int self) { long long s = 0; unsigned u = 4294967290u; for (long long i = 4294967290; i < 4294967300; i++) { s = s * 10 + i - 4294967290; u += 1LL; if (u == 2) break; } printf(\"%lld %u\", s, u); int n = 0; while (n < 3LL) n += 1; for (; s > 5; s /= 7) n ^= s; printf(\" %d\", n); }",
            b"",
            (
                0,
                b"== thread 0: ended\n1234567 2 1050703\n== memory\n",
                b"",
            ),
        ),
        (
            RUN,
            b"long long x = 4294967295; void worker(int self) { long long k = 1; for (int i = 0; i < 3; i++) { __transaction_atomic [[outer]] { k += x; x *= 2; __transaction_atomic { k = -k; x++; if (i == 1) __transaction_cancel [[outer]]; if (i == 2) __transaction_cancel; } } printf(\"%lld \", k); } printf(\"%lld\", __transaction_atomic (x) * 2u + __transaction_relaxed (self)); }",
            b"",
            (
                0,
                b"== thread 0: ended\n-4294967296 -4294967296 4294967295 34359738364\n== memory\nx = 17179869182\n",
                b"",
            ),
        ),
    ];
    &ROWS
}

/// Programs with `long long`: their output and memory, their traps, and the reasons for refusals.
#[test]
fn serves_sources_with_long_long(rt: HostRuntime) {
    assert_eq!(rt; wrong_row(&rt, rt.alloc(), wide()), None);
}
