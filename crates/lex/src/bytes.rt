//! The classes of bytes, and how many bytes of a class are at the front of a text.

ghost use Rattle.std.specs.Prelude.{◌≡◌, ◌<◌, ◌≤◌, ◌^◌, length};
ghost use Rattle.std.specs.List.{prefix_len};
ghost use Rattle.lex.specs.Bytes as spec;
ghost use Rattle.lex.specs.Faults as faults;

/// White space: space, tab, LF, vertical tab, form feed, CR (C11 6.4).
pub(crate) fn is_white(b: u8) -> bool
    ensures { result ≡ spec.is_white b }
{
    b == b' ' || (b'\t' <= b && b <= b'\r')
}

/// A byte that may precede a directive on its line: space or tab.
pub(crate) fn is_blank(b: u8) -> bool
    ensures { result ≡ spec.is_blank b }
{
    b == b' ' || b == b'\t'
}

/// digit: one of `0` to `9` (C11 6.4.2.1).
pub(crate) fn is_digit(b: u8) -> bool
    ensures { result ≡ spec.is_digit b }
{
    b'0' <= b && b <= b'9'
}

/// octal-digit: one of `0` to `7` (C11 6.4.4.1).
pub(crate) fn is_octal(b: u8) -> bool
    ensures { result ≡ spec.is_octal b }
{
    b'0' <= b && b <= b'7'
}

/// hexadecimal-digit: a digit, `a` to `f` or `A` to `F` (C11 6.4.4.1).
pub(crate) fn is_hexadecimal(b: u8) -> bool
    ensures { result ≡ spec.is_hexadecimal b }
{
    is_digit(b) || (b'a' <= b && b <= b'f') || (b'A' <= b && b <= b'F')
}

/// nondigit: a letter or `_` (C11 6.4.2.1).
pub(crate) fn is_letter(b: u8) -> bool
    ensures { result ≡ spec.is_letter b }
{
    (b'a' <= b && b <= b'z') || (b'A' <= b && b <= b'Z') || b == b'_'
}

/// A byte that continues a word: nondigit or digit.
pub(crate) fn is_part(b: u8) -> bool
    ensures { result ≡ spec.is_part b }
{
    is_letter(b) || is_digit(b)
}

/// A byte that denotes itself in a string: printable, but no quote and no backslash.
pub(crate) fn is_plain(b: u8) -> bool
    ensures { result ≡ spec.is_plain b }
{
    b' ' <= b && b <= b'~' && b != b'"' && b != b'\\'
}

/// A byte that may follow a backslash in a string.
pub(crate) fn is_escape(b: u8) -> bool
    ensures { result ≡ spec.is_escape b }
{
    b == b'n' || b == b't' || b == b'\\' || b == b'"'
}

/// A continuation byte of a character (UTF-8).
fn is_continuation(b: u8) -> bool
    ensures { result ≡ spec.is_continuation b }
{
    0x80 <= b && b < 0xC0
}

/// Any byte but LF.
fn is_in_line(b: u8) -> bool
    ensures { result ≡ spec.in_line b }
{
    b != b'\n'
}

/// Whether the front can't follow a constant: a letter, a digit, `_` or `.`.
pub(crate) fn is_glued(rest: &[u8]) -> bool
    ensures { result ≡ spec.starts spec.is_glue rest.now }
{
    match rest {
        [b, ..] => is_part(*b) || *b == b'.',
        [] => false,
    }
}

/// Whether the front continues a word.
pub(crate) fn starts_part(rest: &[u8]) -> bool
    ensures { result ≡ spec.starts spec.is_part rest.now }
{
    match rest {
        [b, ..] => is_part(*b),
        [] => false,
    }
}

/// How many bytes at the front continue a word.
pub(crate) fn word_len(rest: &[u8]) -> usize
    ensures value { result ≡ prefix_len spec.is_part rest.now }
    ensures within { result ≤ length rest.now }
{
    rest.iter().take_while(|b| is_part(**b)).count()
}

/// How many bytes at the front precede an LF.
pub(crate) fn line_len(rest: &[u8]) -> usize
    ensures value { result ≡ prefix_len spec.in_line rest.now }
    ensures within { result ≤ length rest.now }
{
    rest.iter().take_while(|b| is_in_line(**b)).count()
}

/// How many spaces and tabs are at the front.
pub(crate) fn blanks_len(rest: &[u8]) -> usize
    ensures value { result ≡ prefix_len spec.is_blank rest.now }
    ensures within { result ≤ length rest.now }
{
    rest.iter().take_while(|b| is_blank(**b)).count()
}

/// How many continuation bytes are at the front.
fn continuations_len(rest: &[u8]) -> usize
    ensures value { result ≡ prefix_len spec.is_continuation rest.now }
    ensures within { result ≤ length rest.now }
{
    rest.iter().take_while(|b| is_continuation(**b)).count()
}

/// The length in bytes of the character at the front.
pub(crate) fn character_len(rest: &[u8]) -> usize
    requires { length rest.now < 2 ^ 62 }
    ensures value { result ≡ faults.character_len rest.now }
    ensures within { result ≤ length rest.now }
{
    match rest {
        [] => 0,
        [_, more @ ..] => 1 + continuations_len(more),
    }
}
