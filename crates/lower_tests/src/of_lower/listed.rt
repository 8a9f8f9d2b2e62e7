//! The codes of small programs, as they are listed: each was read by eye, so that a change in what is picked is seen.

use crate::asserted::assert_none;
use crate::of_lower::codes::listing_of;
use std::alloc::Global;

/// A program, and the listing of its code.
pub type Listed = (&'static str, &'static str);

/// The rows stand in a function, so that no proof but its own looks at them.
pub fn rows() -> &'static [Listed] {
    static ROWS: [Listed; 18] = [
        (
            "int x; void worker(int self) { __transaction_atomic { x = x + 1; } }",
            "function worker registers 3\n0 begin >6\n1 rd r1 @0\n2 const r2 #1\n3 add.s r1 r1 r2\n4 wr @0 r1\n5 commit\n6 ret\n",
        ),
        (
            "int a[4]; int f(int n) { if (n > 1 && n) return f(n); return 0; } void worker(int self) { for (int i = 0; i < 3; i++) __transaction_relaxed { a[i] += f(i); printf(\"%d!\", a[i]); break; } }",
            "function f registers 2\n0 const r1 #1\n1 lt.s r1 r1 r0\n2 jz r1 >6\n3 jz r0 >6\n4 call f r1 r0\n5 ret r1\n6 const r1 #0\n7 ret r1\n8 ret\nfunction worker registers 6\n9 const r4 #3\n10 const r5 #1\n11 const r1 #0\n12 const r1 #0\n13 jump >29\n14 jump >31\n15 jump >28\n16 begin >28\n17 rdx r2 @0 #4 r1\n18 call f r3 r1\n19 add.s r2 r2 r3\n20 wrx @0 #4 r1 r2\n21 irrevocable\n22 rdx r2 @0 #4 r1\n23 print.s r2\n24 print.t #0\n25 commit\n26 jump >14\n27 commit\n28 add.s r1 r1 r5\n29 lt.s r2 r1 r4\n30 jnz r2 >16\n31 ret\ntext 0 \"!\"\n",
        ),
        (
            "void worker(int self) { int v = 7; while (!(v != 0)) v = v * 2 - (v ? 1 : self); do { v -= 3; if (v == 4) continue; } while (v > 0 || self == v); return; }",
            "function worker registers 8\n0 const r4 #0\n1 const r5 #4\n2 const r6 #3\n3 const r7 #2\n4 const r1 #0\n5 const r1 #7\n6 jump >14\n7 jump >15\n8 mul.s r2 r1 r7\n9 jz r1 >12\n10 const r3 #1\n11 jump >13\n12 move r3 r0\n13 sub.s r1 r2 r3\n14 jz r1 >8\n15 jump >18\n16 jump >26\n17 jump >22\n18 sub.s r1 r1 r6\n19 eq r2 r1 r5\n20 jz r2 >22\n21 jump >17\n22 lt.s r2 r4 r1\n23 jnz r2 >18\n24 eq r2 r0 r1\n25 jnz r2 >18\n26 ret\n27 ret\n",
        ),
        (
            "unsigned u[3], w; void worker(int self) { __transaction_atomic { u[self] = -5 >> w; __transaction_atomic { w = ~u[1] % 7u; if (w) __transaction_cancel; } } }",
            "function worker registers 3\n0 begin >19\n1 check r0 #3\n2 const r1 #5\n3 neg.s r1 r1\n4 rd r2 @3\n5 shr.s r1 r1 r2\n6 wrx @0 #3 r0 r1\n7 begin >18\n8 const r1 #1\n9 rdx r1 @0 #3 r1\n10 not r1 r1\n11 const r2 #7\n12 rem.u r1 r1 r2\n13 wr @3 r1\n14 rd r1 @3\n15 jz r1 >17\n16 cancel\n17 commit\n18 commit\n19 ret\n",
        ),
        (
            "int x; int f(void) { __transaction_atomic { for (;;) { __transaction_atomic { if (x > 3) break; if (x == 2) return x; x++; } } } return 1; } void worker(int self) { if (f() <= self) f(); else f(); }",
            "function f registers 5\n0 const r2 #1\n1 const r3 #2\n2 const r4 #3\n3 begin >26\n4 jump >24\n5 jump >25\n6 jump >24\n7 begin >24\n8 rd r0 @0\n9 lt.s r0 r4 r0\n10 jz r0 >13\n11 commit\n12 jump >5\n13 rd r0 @0\n14 eq r0 r0 r3\n15 jz r0 >20\n16 rd r0 @0\n17 commit\n18 commit\n19 ret r0\n20 rd r0 @0\n21 add.s r0 r0 r2\n22 wr @0 r0\n23 commit\n24 jump >7\n25 commit\n26 const r0 #1\n27 ret r0\n28 ret\nfunction worker registers 2\n29 call f r1\n30 le.s r1 r1 r0\n31 jz r1 >34\n32 call f r1\n33 jump >35\n34 call f r1\n35 ret\n",
        ),
        (
            "int g(int a, unsigned b, int c) { return a - c; } void worker(int self) { int r = g(1, g(self, 2u, 3), self + self); r = g(r, r, r); }",
            "function g registers 4\n0 sub.s r3 r0 r2\n1 ret r3\n2 ret\nfunction worker registers 5\n3 const r1 #0\n4 const r2 #1\n5 const r3 #2\n6 const r4 #3\n7 call g r3 r0 r3 r4\n8 add.s r4 r0 r0\n9 call g r1 r2 r3 r4\n10 call g r1 r1 r1 r1\n11 ret\n",
        ),
        (
            "int q[5], n; void worker(int self) { __transaction_atomic { if (n >= 5) __transaction_cancel; q[n] = self; ++n; q[q[0]] *= n; n--; } }",
            "function worker registers 4\n0 begin >24\n1 rd r1 @5\n2 const r2 #5\n3 le.s r1 r2 r1\n4 jz r1 >6\n5 cancel\n6 rd r1 @5\n7 check r1 #5\n8 wrx @0 #5 r1 r0\n9 rd r1 @5\n10 const r2 #1\n11 add.s r1 r1 r2\n12 wr @5 r1\n13 const r1 #0\n14 rdx r1 @0 #5 r1\n15 rdx r2 @0 #5 r1\n16 rd r3 @5\n17 mul.s r2 r2 r3\n18 wrx @0 #5 r1 r2\n19 rd r1 @5\n20 const r2 #1\n21 sub.s r1 r1 r2\n22 wr @5 r1\n23 commit\n24 ret\n",
        ),
        (
            "void worker(int self) { printf(\"%u of %d%%\\n\", 7u, self); printf(\"\"); printf(\"end\"); }",
            "function worker registers 2\n0 irrevocable\n1 const r1 #7\n2 print.u r1\n3 print.t #0\n4 print.s r0\n5 print.t #1\n6 irrevocable\n7 irrevocable\n8 print.t #2\n9 ret\ntext 0 \" of \"\ntext 1 \"%\\n\"\ntext 2 \"end\"\n",
        ),
        (
            "unsigned m = 4294967295u; void worker(int self) { unsigned t; __transaction_atomic { t = m; } int k; for (k = 0; k < 3; k++) { if (k == 1) continue; t = t / 3u & (unsigned) k | t ^ 1u; } }",
            "function worker registers 7\n0 const r5 #3\n1 const r6 #1\n2 const r1 #0\n3 begin >6\n4 rd r1 @0\n5 commit\n6 const r2 #0\n7 const r2 #0\n8 jump >19\n9 jump >21\n10 jump >18\n11 eq r3 r2 r6\n12 jz r3 >14\n13 jump >10\n14 div.u r3 r1 r5\n15 and r3 r3 r2\n16 xor r4 r1 r6\n17 or r1 r3 r4\n18 add.s r2 r2 r6\n19 lt.s r3 r2 r5\n20 jnz r3 >11\n21 ret\n",
        ),
        (
            "void worker(int self) { int a, b = 2, c; { int a = b; b = a; } c = a < b && (b < c || !c); c = -c + +a - ~b; }",
            "function worker registers 6\n0 const r1 #0\n1 const r2 #0\n2 const r2 #2\n3 const r3 #0\n4 const r4 #0\n5 move r4 r2\n6 move r2 r4\n7 lt.s r4 r1 r2\n8 jz r4 >14\n9 lt.s r4 r2 r3\n10 jnz r4 >12\n11 jnz r3 >14\n12 const r3 #1\n13 jump >15\n14 const r3 #0\n15 neg.s r4 r3\n16 add.s r4 r4 r1\n17 not r5 r2\n18 sub.s r3 r4 r5\n19 ret\n",
        ),
        (
            "void worker(int self) { int a = self & 4, b = 0; while (!(a && b) && (a || self)) { if ((a || b) == 0) a = 1; else b = a && self ? 2 : 3; } }",
            "function worker registers 3\n0 const r1 #0\n1 const r2 #4\n2 and r1 r0 r2\n3 const r2 #0\n4 const r2 #0\n5 jump >16\n6 jump >20\n7 jnz r1 >11\n8 jnz r2 >11\n9 const r1 #1\n10 jump >16\n11 jz r1 >15\n12 jz r0 >15\n13 const r2 #2\n14 jump >16\n15 const r2 #3\n16 jz r1 >18\n17 jnz r2 >20\n18 jnz r1 >7\n19 jnz r0 >7\n20 ret\n",
        ),
        (
            "void worker(int n) { do n = n + 1 + 2 + 3 + 4 + 5 + 6 + 7 + 8 + 9 + 10 + 11 + 12 + 13 + 14 + 15 + 16 + 17; while (!n); }",
            "function worker registers 19\n0 const r3 #17\n1 const r4 #16\n2 const r5 #15\n3 const r6 #14\n4 const r7 #13\n5 const r8 #12\n6 const r9 #11\n7 const r10 #10\n8 const r11 #9\n9 const r12 #8\n10 const r13 #7\n11 const r14 #6\n12 const r15 #5\n13 const r16 #4\n14 const r17 #3\n15 const r18 #2\n16 jump >19\n17 jump >38\n18 jump >37\n19 const r1 #1\n20 add.s r1 r0 r1\n21 add.s r1 r1 r18\n22 add.s r1 r1 r17\n23 add.s r1 r1 r16\n24 add.s r1 r1 r15\n25 add.s r1 r1 r14\n26 add.s r1 r1 r13\n27 add.s r1 r1 r12\n28 add.s r1 r1 r11\n29 add.s r1 r1 r10\n30 add.s r1 r1 r9\n31 add.s r1 r1 r8\n32 add.s r1 r1 r7\n33 add.s r1 r1 r6\n34 add.s r1 r1 r5\n35 add.s r1 r1 r4\n36 add.s r0 r1 r3\n37 jz r0 >19\n38 ret\n",
        ),
        (
            "int a[3], i; int f(int n) { return __transaction_atomic (a[__transaction_atomic (i)] * n); } void worker(int self) { while (__transaction_atomic (i < self)) { int v = __transaction_relaxed (f(7) + __transaction_atomic (i)); if (!__transaction_atomic (v) || self) __transaction_atomic { i++; } } __transaction_atomic (i); }",
            "function f registers 2\n0 begin >7\n1 begin >4\n2 rd r1 @3\n3 commit\n4 rdx r1 @0 #3 r1\n5 mul.s r1 r1 r0\n6 commit\n7 ret r1\n8 ret\nfunction worker registers 5\n9 const r4 #1\n10 jump >30\n11 jump >35\n12 const r1 #0\n13 begin >21\n14 const r2 #7\n15 call f r2 r2\n16 begin >19\n17 rd r3 @3\n18 commit\n19 add.s r1 r2 r3\n20 commit\n21 begin >23\n22 commit\n23 jz r1 >25\n24 jz r0 >30\n25 begin >30\n26 rd r2 @3\n27 add.s r2 r2 r4\n28 wr @3 r2\n29 commit\n30 begin >34\n31 rd r1 @3\n32 lt.s r1 r1 r0\n33 commit\n34 jnz r1 >12\n35 begin >38\n36 rd r1 @3\n37 commit\n38 ret\n",
        ),
        (
            "int x = 2; unsigned u = 2; void worker(int self) { int v = 4; v = __transaction_atomic (x); for (; v && __transaction_atomic (x) != 0; v = __transaction_atomic (u) > 1 ? __transaction_atomic (-v + 2) : v) printf(\"%d%u\", __transaction_relaxed (v + x), __transaction_relaxed (u)); }",
            "function worker registers 6\n0 const r4 #2\n1 const r5 #1\n2 const r1 #0\n3 const r1 #4\n4 begin >7\n5 rd r1 @0\n6 commit\n7 jump >30\n8 jump >35\n9 jump >20\n10 irrevocable\n11 begin >15\n12 rd r2 @0\n13 add.s r2 r1 r2\n14 commit\n15 begin >18\n16 rd r3 @1\n17 commit\n18 print.s r2\n19 print.u r3\n20 begin >23\n21 rd r2 @1\n22 commit\n23 lt.u r2 r5 r2\n24 jz r2 >30\n25 begin >29\n26 neg.s r2 r1\n27 add.s r1 r2 r4\n28 commit\n29 jump >30\n30 jz r1 >35\n31 begin >34\n32 rd r2 @0\n33 commit\n34 jnz r2 >10\n35 ret\n",
        ),
        (
            "int x; void worker(int self) { int i, n; for (i = 0; i < 3; i++) { __transaction_atomic [[outer]] { n = n + 1; __transaction_atomic { if (i) __transaction_cancel; __transaction_atomic { x = x + n; if (x > 1) __transaction_cancel [[outer]]; } } if (n == 4) __transaction_cancel [[outer]]; } } }",
            "function worker registers 8\n0 const r5 #3\n1 const r6 #1\n2 const r7 #4\n3 const r1 #0\n4 const r2 #0\n5 const r1 #0\n6 jump >29\n7 jump >31\n8 jump >28\n9 begin >28\n10 add.s r2 r2 r6\n11 begin >24\n12 jz r1 >14\n13 cancel\n14 begin >23\n15 rd r3 @0\n16 add.s r3 r3 r2\n17 wr @0 r3\n18 rd r3 @0\n19 lt.s r3 r6 r3\n20 jz r3 >22\n21 cancelx #3\n22 commit\n23 commit\n24 eq r3 r2 r7\n25 jz r3 >27\n26 cancel\n27 commit\n28 add.s r1 r1 r6\n29 lt.s r3 r1 r5\n30 jnz r3 >9\n31 ret\n",
        ),
        (
            "int x; long long y; unsigned u; void worker(int self) { __transaction_atomic { y = x + 1; x = y - 4294967296; y += x; u = y; y = u; } }",
            "function worker registers 3\n0 begin >20\n1 rd r1 @0\n2 const r2 #1\n3 add.s r1 r1 r2\n4 ext r1 r1\n5 wr @1 r1\n6 rd r1 @1\n7 const r2 #4294967296\n8 sub.l r1 r1 r2\n9 wr @0 r1\n10 rd r1 @1\n11 rd r2 @0\n12 ext r2 r2\n13 add.l r1 r1 r2\n14 wr @1 r1\n15 rd r1 @1\n16 wr @2 r1\n17 rd r1 @2\n18 wr @1 r1\n19 commit\n20 ret\n",
        ),
        (
            "long long f(long long a, int b) { return b; } void worker(int self) { long long v = self; int n = v; v = f(self, v) << 3LL; v = self ? v : 1u; printf(\"%lld %d\", v + 1, (int)v); }",
            "function f registers 3\n0 ext r2 r1\n1 ret r2\n2 ret\nfunction worker registers 5\n3 const r1 #0\n4 ext r1 r0\n5 const r2 #0\n6 low r2 r1\n7 ext r3 r0\n8 low r4 r1\n9 call f r3 r3 r4\n10 const r4 #3\n11 shl.l r1 r3 r4\n12 jz r0 >14\n13 jump >15\n14 const r1 #1\n15 irrevocable\n16 const r3 #1\n17 add.l r3 r1 r3\n18 low r4 r1\n19 print.l r3\n20 print.t #0\n21 print.s r4\n22 ret\ntext 0 \" \"\n",
        ),
        (
            "void worker(int self) { int v = 1 + 1 + 1 + 1 + 1 + 1 + 1 + 1 + 1 + 1 + 1 + 1 + 1 + 1 + 1 + 1 + 1 + 1 + 1 + 1 + 1 + 1 + 1 + 1 + 1 + 1 + 1 + 1 + 1 + 1 + 1 + 1 + 1 + 1 + 1 + 1 + 1 + 1 + 1 + 1 + 1 + 1 + 1 + 1 + 1 + 1 + 1 + 1 + 1 + 1 + 1 + 1 + 1 + 1 + 1 + 1 + 1 + 1 + 1 + 1 + 1 + 1 + 1 + 1 + 1 + 1 + 1 + 1 + 1 + 1 + 1 + 1 + 1 + 1 + 1 + 1 + 1 + 1 + 1 + 1 + 1 + 1 + 1 + 1 + 1 + 1 + 1 + 1 + 1 + 1; }",
            "function worker registers 4\n0 const r1 #0\n1 const r2 #1\n2 const r3 #1\n3 add.s r2 r2 r3\n4 const r3 #1\n5 add.s r2 r2 r3\n6 const r3 #1\n7 add.s r2 r2 r3\n8 const r3 #1\n9 add.s r2 r2 r3\n10 const r3 #1\n11 add.s r2 r2 r3\n12 const r3 #1\n13 add.s r2 r2 r3\n14 const r3 #1\n15 add.s r2 r2 r3\n16 const r3 #1\n17 add.s r2 r2 r3\n18 const r3 #1\n19 add.s r2 r2 r3\n20 const r3 #1\n21 add.s r2 r2 r3\n22 const r3 #1\n23 add.s r2 r2 r3\n24 const r3 #1\n25 add.s r2 r2 r3\n26 const r3 #1\n27 add.s r2 r2 r3\n28 const r3 #1\n29 add.s r2 r2 r3\n30 const r3 #1\n31 add.s r2 r2 r3\n32 const r3 #1\n33 add.s r2 r2 r3\n34 const r3 #1\n35 add.s r2 r2 r3\n36 const r3 #1\n37 add.s r2 r2 r3\n38 const r3 #1\n39 add.s r2 r2 r3\n40 const r3 #1\n41 add.s r2 r2 r3\n42 const r3 #1\n43 add.s r2 r2 r3\n44 const r3 #1\n45 add.s r2 r2 r3\n46 const r3 #1\n47 add.s r2 r2 r3\n48 const r3 #1\n49 add.s r2 r2 r3\n50 const r3 #1\n51 add.s r2 r2 r3\n52 const r3 #1\n53 add.s r2 r2 r3\n54 const r3 #1\n55 add.s r2 r2 r3\n56 const r3 #1\n57 add.s r2 r2 r3\n58 const r3 #1\n59 add.s r2 r2 r3\n60 const r3 #1\n61 add.s r2 r2 r3\n62 const r3 #1\n63 add.s r2 r2 r3\n64 const r3 #1\n65 add.s r2 r2 r3\n66 const r3 #1\n67 add.s r2 r2 r3\n68 const r3 #1\n69 add.s r2 r2 r3\n70 const r3 #1\n71 add.s r2 r2 r3\n72 const r3 #1\n73 add.s r2 r2 r3\n74 const r3 #1\n75 add.s r2 r2 r3\n76 const r3 #1\n77 add.s r2 r2 r3\n78 const r3 #1\n79 add.s r2 r2 r3\n80 const r3 #1\n81 add.s r2 r2 r3\n82 const r3 #1\n83 add.s r2 r2 r3\n84 const r3 #1\n85 add.s r2 r2 r3\n86 const r3 #1\n87 add.s r2 r2 r3\n88 const r3 #1\n89 add.s r2 r2 r3\n90 const r3 #1\n91 add.s r2 r2 r3\n92 const r3 #1\n93 add.s r2 r2 r3\n94 const r3 #1\n95 add.s r2 r2 r3\n96 const r3 #1\n97 add.s r2 r2 r3\n98 const r3 #1\n99 add.s r2 r2 r3\n100 const r3 #1\n101 add.s r2 r2 r3\n102 const r3 #1\n103 add.s r2 r2 r3\n104 const r3 #1\n105 add.s r2 r2 r3\n106 const r3 #1\n107 add.s r2 r2 r3\n108 const r3 #1\n109 add.s r2 r2 r3\n110 const r3 #1\n111 add.s r2 r2 r3\n112 const r3 #1\n113 add.s r2 r2 r3\n114 const r3 #1\n115 add.s r2 r2 r3\n116 const r3 #1\n117 add.s r2 r2 r3\n118 const r3 #1\n119 add.s r2 r2 r3\n120 const r3 #1\n121 add.s r2 r2 r3\n122 const r3 #1\n123 add.s r2 r2 r3\n124 const r3 #1\n125 add.s r2 r2 r3\n126 const r3 #1\n127 add.s r2 r2 r3\n128 const r3 #1\n129 add.s r2 r2 r3\n130 const r3 #1\n131 add.s r2 r2 r3\n132 const r3 #1\n133 add.s r2 r2 r3\n134 const r3 #1\n135 add.s r2 r2 r3\n136 const r3 #1\n137 add.s r2 r2 r3\n138 const r3 #1\n139 add.s r2 r2 r3\n140 const r3 #1\n141 add.s r2 r2 r3\n142 const r3 #1\n143 add.s r2 r2 r3\n144 const r3 #1\n145 add.s r2 r2 r3\n146 const r3 #1\n147 add.s r2 r2 r3\n148 const r3 #1\n149 add.s r2 r2 r3\n150 const r3 #1\n151 add.s r2 r2 r3\n152 const r3 #1\n153 add.s r2 r2 r3\n154 const r3 #1\n155 add.s r2 r2 r3\n156 const r3 #1\n157 add.s r2 r2 r3\n158 const r3 #1\n159 add.s r2 r2 r3\n160 const r3 #1\n161 add.s r2 r2 r3\n162 const r3 #1\n163 add.s r2 r2 r3\n164 const r3 #1\n165 add.s r2 r2 r3\n166 const r3 #1\n167 add.s r2 r2 r3\n168 const r3 #1\n169 add.s r2 r2 r3\n170 const r3 #1\n171 add.s r2 r2 r3\n172 const r3 #1\n173 add.s r2 r2 r3\n174 const r3 #1\n175 add.s r2 r2 r3\n176 const r3 #1\n177 add.s r2 r2 r3\n178 const r3 #1\n179 add.s r1 r2 r3\n180 ret\n",
        ),
    ];
    &ROWS
}

/// Whether this is the listing of a program's code.
fn is_listed(alloc: Global, text: &str, wanted: &str) -> bool {
    match listing_of(alloc, text) {
        Ok(found) => found.as_str() == wanted,
        Err(_) => false,
    }
}

/// The first program that has another listing.
fn has_another(alloc: Global, rows: &[Listed]) -> Option<&'static str> {
    for (text, wanted) in rows {
        if !is_listed(alloc, text, wanted) {
            return Some(*text);
        }
    }
    None
}

#[test]
fn small_programs_have_these_codes(rt: HostRuntime) {
    assert_none(&rt, has_another(rt.alloc(), rows()));
}
