//! The texts whose trees the tests look at.

/// A program with each kind of node. It stands in a function, so that no proof but its own looks at it.
pub fn each_node() -> &'static str {
    "int g[2] = {-7}, h; [[transaction_safe]] int f(unsigned); void worker(int self) { \
    int v; ; __transaction_atomic [[outer]] { __transaction_cancel; __transaction_cancel [[outer]]; } __transaction_relaxed { } \
    for (int i = g; i; i--) { break; continue; } for (;;) ; for (v = 1;;) ; \
    if (v) printf(\"a\", v); else while (v) do v += v; while (v); if (v) ; return; \
    __transaction_relaxed (v); v = __transaction_atomic (g[v] + 1); return !(v) && (int) f(v) ? g[v] : 7u + v; }"
}
