//! Tests of the output of `txc explore`: refusals, and the places, words and accesses that no contract covers.

use std::alloc::Global;
use test_serving::{ADDS, Row, serve_line, wrong_row};

/// A program that can't be shown on a page, or a command line that is wrong.
fn refused() -> &'static [Row] {
    static ROWS: [Row; 6] = [
        (
            "txc explore a.c --order 0,2",
            ADDS,
            b"",
            (2, b"", b"txc: fault 55\n"),
        ),
        (
            "txc explore a.c --always none",
            ADDS,
            b"",
            (
                2,
                b"",
                b"txc: usage: --always none: no function of the file\n",
            ),
        ),
        (
            "txc explore a.c --always worker",
            ADDS,
            b"",
            (
                2,
                b"",
                b"txc: usage: --always worker: it is not of the form int NAME(void)\n",
            ),
        ),
        (
            "txc explore a.c",
            b"void worker(int self) { y = 1; }",
            b"",
            (1, b"", b"txc: fault 20 at 1:25: unknown name\n"),
        ),
        (
            "txc explore a.c",
            b"int x; void worker(int self) { __transaction_atomic { while (1) { } } }",
            b"",
            (
                4,
                b"",
                b"txc: a thread executes more than 1000000 instructions in one turn, the limit of a page\n",
            ),
        ),
        (
            "txc explore a.c --threads 1",
            b"int x; void worker(int self) { while (1) { __transaction_atomic { x = x + 1; } } }",
            b"",
            (
                4,
                b"",
                b"txc: more than 20000 states, the limit of a page: with --order, the page has one order\n",
            ),
        ),
    ];
    &ROWS
}

#[test]
fn refuses_pages(rt: HostRuntime) {
    assert_eq!(rt; wrong_row(&rt, rt.alloc(), refused()), None);
}

/// The data of a page, if the page is whole and has three scripts.
fn data_of(alloc: Global, page: &str) -> Option<String> {
    if !page.starts_with("<!doctype html>\n") || !page.ends_with("</script>\n</html>\n") {
        return None;
    }
    let parts: Vec<&str> = page.split("</script>").collect(alloc).ok()?;
    if parts.len() != 4 {
        return None;
    }
    let (_, data) = parts[0].split_once("<script type=\"application/json\" id=\"data\">")?;
    String::from_str(alloc, data).ok()
}

/// A command line, the source, and the data of the page.
type PageRow = (&'static str, &'static [u8], &'static str);

fn pages() -> &'static [PageRow] {
    static ROWS: [PageRow; 5] = [
        (
            "txc explore a.c --threads 1",
            ADDS,
            r#"{"file":"a.c","options":"","source":"int x; void worker(int self) { __transaction_atomic { x = x + 1; } }","threads":1,"order":[],"cells":["x"],"are_all":true,"states":[[[0],[0],[1],[0]],[[1],[1],[1],[1]]],"rests":[{"line":1,"column":32,"words":"x = x + 1","end":"","printed":""},{"line":0,"column":0,"words":"","end":"ended","printed":""}],"touched":[[[0],[0]],[[],[]]],"properties":[]}"#,
        ),
        // HTML, quotes and non-ASCII characters of a source are text
        (
            "txc explore a.c --threads 1 --order 0",
            b"// </script><!-- \"\\' \xc3\xa9 &amp;\nvoid worker(int self) { __transaction_relaxed { printf(\"<b>\\n\"); } }\n",
            r#"{"file":"a.c","options":"","source":"// \u003c/script>\u003c!-- \"\\' é &amp;\nvoid worker(int self) { __transaction_relaxed { printf(\"\u003cb>\\n\"); } }\n","threads":1,"order":[0],"cells":[],"are_all":true,"states":[[[],[0],[1],[0]],[[],[1],[1],[0]]],"rests":[{"line":2,"column":25,"words":"printf(\"\u003cb>\\n\")","end":"","printed":""},{"line":0,"column":0,"words":"","end":"ended","printed":"\u003cb>\n"}],"touched":[[[],[]]],"properties":[]}"#,
        ),
        // a trap undoes the writes of its transaction; a long number is a text
        (
            "txc explore a.c --threads 1 --always small",
            b"long long a[2] = {9007199254740993, -1}; int small(void) { return a[1] < 0; }\nvoid worker(int self) { __transaction_atomic { a[1] = 5; a[0] = a[0] / self; } }",
            r#"{"file":"a.c","options":"","source":"long long a[2] = {9007199254740993, -1}; int small(void) { return a[1] \u003c 0; }\nvoid worker(int self) { __transaction_atomic { a[1] = 5; a[0] = a[0] / self; } }","threads":1,"order":[],"cells":["a[0]","a[1]"],"are_all":true,"states":[[["9007199254740993","-1"],[0],[1],[0]],[["9007199254740993","-1"],[1],[1],[1]]],"rests":[{"line":2,"column":25,"words":"a[1] = 5; a[0] = a[0] / self","end":"","printed":""},{"line":0,"column":0,"words":"","end":"trap 2","printed":""}],"touched":[[[0],[]],[[],[]]],"properties":[{"name":"small","values":"11"}]}"#,
        ),
        // an inner cancel undoes one write, and a read after a write is not a read of memory
        (
            "txc explore a.c --threads 1",
            b"int x, y; void worker(int self) { __transaction_atomic { y = 1; __transaction_atomic { x = 9; __transaction_cancel; } y = x + y; } }",
            r#"{"file":"a.c","options":"","source":"int x, y; void worker(int self) { __transaction_atomic { y = 1; __transaction_atomic { x = 9; __transaction_cancel; } y = x + y; } }","threads":1,"order":[],"cells":["x","y"],"are_all":true,"states":[[[0,0],[0],[1],[0]],[[0,1],[1],[1],[1]]],"rests":[{"line":1,"column":35,"words":"y = 1; __transaction_atomic { x = 9; ..","end":"","printed":""},{"line":0,"column":0,"words":"","end":"ended","printed":""}],"touched":[[[0],[1]],[[],[]]],"properties":[]}"#,
        ),
        // above the limit, the page has the states of the order and those one turn from it
        (
            "txc explore a.c --threads 1 --order 0",
            b"int x; void worker(int self) { while (1) { __transaction_atomic { x = x + 1; } } }",
            r#"{"file":"a.c","options":"","source":"int x; void worker(int self) { while (1) { __transaction_atomic { x = x + 1; } } }","threads":1,"order":[0],"cells":["x"],"are_all":false,"states":[[[0],[0],[1],[0]],[[1],[0],[2],[0]],[[2],[0],[null],[1]]],"rests":[{"line":1,"column":44,"words":"x = x + 1","end":"","printed":""}],"touched":[[[0],[0]],[[],[]]],"properties":[]}"#,
        ),
    ];
    &ROWS
}

/// The first row whose page has other data, and that data.
fn wrong_page<H: std::thread::Threads + std::sync::Wait + Sync>(
    rt: &H,
    alloc: Global,
    rows: &[PageRow],
) -> Option<(usize, Option<String>)> {
    for (number, (line, source, wanted)) in rows.iter().enumerate() {
        let data = match serve_line(rt, alloc, line, source, b"", false) {
            Some(served) => match String::from_utf8(served.out) {
                Ok(page) => data_of(alloc, page.as_str()),
                Err(_) => None,
            },
            None => None,
        };
        match data {
            Some(text) if text.as_str() == *wanted => {}
            other => return Some((number, other)),
        }
    }
    None
}

#[test]
fn writes_pages(rt: HostRuntime) {
    assert_eq!(rt; wrong_page(&rt, rt.alloc(), pages()), None);
}
