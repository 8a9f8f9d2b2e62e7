//! Hints for a character that begins no token, and for a bad string.

const NO_FLOATING: &str = "there are no floating constants";

/// The hint for a letter or digit directly after a constant, which ends in the byte before it.
fn of_letter(before: u8, byte: u8) -> &'static str {
    match (before, byte) {
        (b'0', b'x' | b'X') => "hexadecimal digits must follow 0x",
        (b'0', b'b' | b'B') => "there are no binary constants: use decimal, or 0x",
        (_, b'8' | b'9') => "a constant that begins with 0 is octal: its digits are 0 to 7",
        (_, b'e' | b'E' | b'f' | b'F') => NO_FLOATING,
        (_, b'l' | b'L' | b'u' | b'U') => "a constant's suffix is u or ll",
        (_, b'_' | b'\'') => "a constant's digits have no separators",
        _ => "a constant's suffix is u or ll, and a name begins with a letter or _",
    }
}

/// The hint for a byte of ASCII that begins no token.
fn of_byte(byte: u8) -> Option<&'static str> {
    match byte {
        b'\'' => Some(
            "there are no character constants: write the number, or put the character in a format",
        ),
        b'.' => Some("there are no structs: use one array per member"),
        b'\\' => Some(
            "a backslash does not continue a line, and escapes are allowed only in strings",
        ),
        b'#' => Some("a directive must be alone on its line"),
        b'@' | b'$' | b'`' => Some("no name or operator contains this character"),
        0..=0x1f | 0x7f => Some("a control character: only white space is allowed here"),
        _ => None,
    }
}

/// The hint for characters outside ASCII, by their bytes in UTF-8: those that editors and word processors write.
fn of_bytes(bytes: &[u8]) -> &'static str {
    match bytes {
        [0xef, 0xbb, 0xbf, ..] => "U+FEFF, a byte order mark: save the file without it",
        [0xc2, 0xa0, ..] => "U+00A0, a no-break space: use an ordinary space",
        [0xe2, 0x80, 0x98 | 0x99, ..] =>
            "a typographic quotation mark, and there are no character constants",
        [0xe2, 0x80, 0x9c | 0x9d, ..] =>
            "a typographic quotation mark: a string begins and ends with \"",
        [0xe2, 0x80, 0x93 | 0x94, ..] | [0xe2, 0x88, 0x92, ..] => "a typographic dash: minus is -",
        [0xe2, 0x80, 0x8b, ..] => "U+200B, a zero-width space: remove it",
        _ => "only comments may contain characters outside ASCII",
    }
}

/// The hint for a character at an offset, which begins no token.
pub(crate) fn of_character(text: &[u8], offset: usize) -> Option<&'static str> {
    let from = text.get(offset..text.len()).unwrap_or(b"");
    let before = match offset.checked_sub(1) {
        Some(at) => text.get(at).copied().unwrap_or(b' '),
        None => b' ',
    };
    match from {
        [0x80..=0xff, ..] => Some(of_bytes(from)),
        [
            letter @ (b'0'..=b'9' | b'A'..=b'Z' | b'a'..=b'z' | b'_'),
            ..
        ] => Some(of_letter(before, *letter)),
        [b'\'', ..] if before.is_ascii_digit() => Some(of_letter(before, b'\'')),
        [b'.', b'0'..=b'9', ..] => Some(NO_FLOATING),
        [b'.', ..] if before.is_ascii_digit() => Some(NO_FLOATING),
        [b'.', b'.', b'.', ..] => Some(
            "there is no ...: a function has a fixed number of parameters",
        ),
        [first, ..] => of_byte(*first),
        [] => None,
    }
}

/// The hint for a bad string, by the text from its quotation mark on.
pub(crate) fn of_string(from: &[u8]) -> &'static str {
    let mut is_escaped = false;
    'bytes: for (at, byte) in from.iter().enumerate() {
        if at > 0 {
            match *byte {
                b'\n' => return "a string must end on its line, with a quotation mark",
                b'\\' if !is_escaped => is_escaped = true,
                b'n' | b't' | b'"' | b'\\' if is_escaped => is_escaped = false,
                _ if is_escaped => return "the escapes are \\n, \\t, \\\" and \\\\",
                0..=0x1f | 0x7f..=0xff =>
                    return "a string may contain only printable ASCII characters",
                _ => {}
            }
        }
    }
    "a string must end on its line, with a quotation mark"
}
