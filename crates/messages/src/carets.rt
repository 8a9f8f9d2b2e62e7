//! The source line of a fault, with carets.

ghost use Rattle.std.specs.Prelude.{◌≤◌, length};

use lex::token::Span;
use std::alloc::{AllocError, Allocator};
use std::io;
use std::io::Write;
use unicode_width::UnicodeWidthChar;

/// The most bytes of a line that are shown before an offset.
const MOST_BEFORE: usize = 100;

/// The most bytes of a line that are shown from an offset on.
const MOST_BEHIND: usize = 200;

/// Whether a byte continues a character.
fn is_continuation(byte: u8) -> bool {
    (0x80..0xc0).contains(&byte)
}

/// Where what is shown before an offset begins: with its line, or with a character at most so many bytes before it.
fn shown_from(text: &[u8], offset: usize) -> usize
    requires { offset ≤ length text.now }
    ensures { result ≤ offset }
{
    let mut from = offset;
    'before: for at in (offset.saturating_sub(MOST_BEFORE)..offset).rev() {
        if text[at] == b'\n' {
            return from;
        }
        if !is_continuation(text[at]) {
            from = at;
        }
    }
    from
}

/// Where what is shown from an offset on ends: with its line, or with a character at most so many bytes after it.
fn shown_to(text: &[u8], offset: usize) -> usize
    requires { offset ≤ length text.now }
    ensures from { offset ≤ result }
    ensures to { result ≤ length text.now }
{
    let most = text.len().min(offset.saturating_add(MOST_BEHIND));
    let mut to = offset;
    'behind: for at in offset..most {
        if text[at] == b'\n' || text[at] == b'\r' {
            return at;
        }
        if !is_continuation(text[at]) {
            to = at;
        }
    }
    if most == text.len() { most } else { to }
}

/// How a character of untrusted text is shown: a control character as `?`, except these.
fn shown_as(c: char, but: &str) -> char {
    if c.is_control() && !but.contains(c) {
        '?'
    } else {
        c
    }
}

/// Writes untrusted text, such as a file's name, with `?` for control characters, except these.
pub fn write_shown<W: Write>(text: &str, but: &str, to: &mut W) -> io::Result<()> {
    'characters: for c in text.chars() {
        write!(to, "{}", shown_as(c, but))?;
    }
    Ok(())
}

/// Writes untrusted text as a string of JSON (RFC 8259).
pub fn write_quoted<W: Write>(text: &str, to: &mut W) -> io::Result<()> {
    to.write_all(b"\"")?;
    'characters: for c in text.chars() {
        match c {
            '"' => to.write_all(b"\\\"")?,
            '\\' => to.write_all(b"\\\\")?,
            _ => {
                if c.is_control() {
                    write!(to, "\\u{:04x}", u32::from(c))?;
                } else {
                    write!(to, "{c}")?;
                }
            }
        }
    }
    to.write_all(b"\"")
}

/// Adds a part of a line; a control character is shown as `?`, and a tab stays.
pub(crate) fn push_shown<A: Allocator>(
    shown: &mut String<A>,
    part: &str,
) -> Result<(), AllocError> {
    'characters: for c in part.chars() {
        shown.push(shown_as(c, "\t"))?;
    }
    Ok(())
}

/// Adds a sign so many times.
fn push_times<A: Allocator>(
    shown: &mut String<A>,
    sign: char,
    times: usize,
) -> Result<(), AllocError> {
    'times: for _ in 0..times {
        shown.push(sign)?;
    }
    Ok(())
}

/// Adds a sign for each column that a part of a line takes on a terminal; a tab stays if the sign is a space.
fn push_under<A: Allocator>(
    shown: &mut String<A>,
    part: &str,
    sign: char,
) -> Result<(), AllocError> {
    'characters: for c in part.chars() {
        if c == '\t' && sign == ' ' {
            shown.push(c)?;
        } else {
            push_times(shown, sign, c.width().unwrap_or(1))?;
        }
    }
    Ok(())
}

/// Adds carets under a part of a line, one where it takes no column.
fn push_carets<A: Allocator>(shown: &mut String<A>, part: &str) -> Result<(), AllocError> {
    let before = shown.len();
    push_under(shown, part, '^')?;
    if shown.len() == before {
        shown.push('^')?;
    }
    Ok(())
}

/// Adds the line of a text that a span begins in, and carets.
fn push_underlined<A: Allocator>(
    shown: &mut String<A>,
    text: &str,
    span: Span,
) -> Result<(), AllocError> {
    let offset = span.start.min(text.len());
    let from = shown_from(text.as_bytes(), offset);
    let to = shown_to(text.as_bytes(), offset);
    let end = span.end.clamp(offset, to);
    push_shown(shown, text.get(from..to).unwrap_or(""))?;
    shown.push('\n')?;
    push_under(shown, text.get(from..offset).unwrap_or(""), ' ')?;
    push_carets(shown, text.get(offset..end).unwrap_or(""))?;
    shown.push('\n')
}

/// The line of a text that a span begins in, and a line with a caret under each column of the span in it, or one
/// caret where there is none.
///
/// Of a long line at most 100 bytes before the offset and 200 from it on are shown. Both lines end with LF.
pub fn underline<A: Allocator>(alloc: A, text: &str, span: Span) -> Result<String<A>, AllocError> {
    let mut shown = String::new(alloc);
    push_underlined(&mut shown, text, span)?;
    Ok(shown)
}
