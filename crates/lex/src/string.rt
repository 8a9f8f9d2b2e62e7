//! Strings.

ghost use Rattle.std.specs.Prelude.{◌≡◌, ◌+◌, ◌<◌, ◌^◌, length, slice_index, take};
ghost use Rattle.lex.specs.inner.Answers.{AnswersPiece};
ghost use Rattle.lex.specs.inner.Strings.{GivesInside};

use crate::bytes::{is_escape, is_plain};
use crate::fault::LexFault;
use crate::token::{Kind, Span};

/// How many bytes precede the quote that closes a string, if there is one.
fn inside_len(rest: &[u8]) -> Option<usize>
    requires { length rest.now < 2 ^ 62 }
    ensures { GivesInside rest.now result }
{
    let mut at = 0;
    'inside: while at < rest.len() {
        if is_plain(rest[at]) {
            at += 1;
        } else if rest[at] == b'\\' && at + 1 < rest.len() && is_escape(rest[at + 1]) {
            at += 2;
        } else if rest[at] == b'"' {
            return Some(at);
        } else {
            return None;
        }
    }
    None
}

/// The string literal at the offset.
///
/// string = `"` {plain | `\` ("n" | "t" | `\` | `"`)} `"` (C11 6.4.5, without prefixes)
pub(crate) fn string<'a>(text: &'a str, at: usize) -> Result<(Option<Kind<'a>>, usize), LexFault>
    requires within { at < length text.now }
    requires fits { length text.now < 2 ^ 62 }
    requires begins { slice_index text.now at ≡ 34 }
    ensures { AnswersPiece text.now at result }
{
    let (_, behind) = text.as_bytes().split_at(at + 1);
    match inside_len(behind) {
        Some(len) => Ok((
            Some(Kind::StringLiteral(&text[at + 1..at + 1 + len])),
            len + 2,
        )),
        None => Err(LexFault::BadString(Span {
            start: at,
            end: at + 1,
        })),
    }
}
