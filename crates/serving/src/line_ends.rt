//! Reports whether two texts differ only in line ends, after their first difference. No contract covers this.

use std::io::Write;

/// Reports whether two texts differ only in carriage returns, or only in the last line end.
pub(crate) fn tell_line_ends<E: Write>(due: &[u8], found: &[u8], err: &mut E) {
    if is_one_line_end_longer(due, found) || is_one_line_end_longer(found, due) {
        let _ = err.write_all(b"txc: they differ only in the last line end\n");
    } else if are_same_without_returns(due, found) {
        let _ = err.write_all(b"txc: they differ only in carriage returns\n");
    }
}

/// Whether a text is another one followed by a line end.
fn is_one_line_end_longer(text: &[u8], other: &[u8]) -> bool {
    match text {
        [others @ .., b'\n'] => others == other,
        _ => false,
    }
}

/// Whether texts are equal without their carriage returns.
fn are_same_without_returns(due: &[u8], found: &[u8]) -> bool {
    let mut rest = found;
    'bytes: for byte in due {
        if *byte != b'\r' {
            let [first, others @ ..] = without_returns(rest) else {
                return false;
            };
            if *first != *byte {
                return false;
            }
            rest = others;
        }
    }
    without_returns(rest).is_empty()
}

/// A text without its leading carriage returns.
fn without_returns(text: &[u8]) -> &[u8] {
    'bytes: for (at, byte) in text.iter().enumerate() {
        if *byte != b'\r' {
            return text.get(at..text.len()).unwrap_or(b"");
        }
    }
    b""
}
