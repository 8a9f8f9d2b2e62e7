//! Comments and directives.

ghost use Rattle.std.specs.Prelude.{◌≡◌, ◌≢◌, ℕ, List, ◌++◌, codes, ◌+◌, ◌<◌, ◌≤◌, ◌^◌, true, length, slice_index};
ghost use Rattle.std.specs.Prelude.{take, MatchOption};
ghost use Rattle.std.specs.Bool.{MatchBool};
ghost use Rattle.lex.specs.Pieces.{ClosesComment, FirstOnLine, IsInclude};
ghost use Rattle.lex.specs.inner.Answers.{AnswersPiece};

use crate::bytes::{blanks_len, is_blank, line_len, starts_part};
use crate::fault::LexFault;
use crate::token::{Kind, Span};

/// The index of the first `*/` from the third byte on.
fn close(rest: &[u8]) -> Option<usize>
    requires { length rest.now < 2 ^ 62 }
    ensures { MatchOption result ((k : ℕ) → 2 ≤ k → k + 2 ≤ length rest.now → ClosesComment rest.now k → ⊥)
        (λ n. (2 ≤ n) × (n + 2 ≤ length rest.now) × ClosesComment rest.now n
        × ((k : ℕ) → 2 ≤ k → k < n → ClosesComment rest.now k → ⊥)) }
{
    let mut k = 2;
    'close: while k + 1 < rest.len() {
        if rest[k] == b'*' && rest[k + 1] == b'/' {
            return Some(k);
        }
        k += 1;
    }
    None
}

/// The comment that `/*` opens at the offset: up to the first `*/` after it (C11 6.4.9).
pub(crate) fn comment<'a>(text: &'a str, at: usize) -> Result<(Option<Kind<'a>>, usize), LexFault>
    requires within { at + 1 < length text.now }
    requires fits { length text.now < 2 ^ 62 }
    requires begins { (slice_index text.now at ≡ 47) × (slice_index text.now (at + 1) ≡ 42) }
    ensures { AnswersPiece text.now at result }
{
    let (_, rest) = text.as_bytes().split_at(at);
    match close(rest) {
        Some(k) => Ok((None, k + 2)),
        None => Err(LexFault::OpenComment(Span {
            start: at,
            end: text.len(),
        })),
    }
}

/// The comment that `//` opens at the offset: up to the end of its line (C11 6.4.9).
pub(crate) fn line_comment<'a>(
    text: &'a str,
    at: usize,
) -> Result<(Option<Kind<'a>>, usize), LexFault>
    requires within { at + 1 < length text.now }
    requires fits { length text.now < 2 ^ 62 }
    requires begins { (slice_index text.now at ≡ 47) × (slice_index text.now (at + 1) ≡ 47) }
    ensures { AnswersPiece text.now at result }
{
    let (_, rest) = text.as_bytes().split_at(at);
    Ok((None, line_len(rest)))
}

/// Whether only spaces and tabs follow the last LF.
fn is_first_on_line(before: &[u8]) -> bool
    ensures { MatchBool result (FirstOnLine before.now) (FirstOnLine before.now → ⊥) }
{
    let mut k = before.len();
    'back: while k > 0 {
        if before[k - 1] == b'\n' {
            return true;
        }
        if !is_blank(before[k - 1]) {
            return false;
        }
        k -= 1;
    }
    true
}

/// The rest after `include`, if the text begins with it.
fn after_include(word: &[u8]) -> Option<&[u8]>
    ensures { MatchOption result ((more : List ℕ) → word.now ≢ codes "include" ++ more)
        (λ rest. word.now ≡ codes "include" ++ rest.now) }
{
    match word {
        [b'i', b'n', b'c', b'l', b'u', b'd', b'e', rest @ ..] => Some(rest),
        _ => None,
    }
}

/// Whether `include` follows the `#` and its spaces and tabs, as a word.
fn is_include(line: &[u8]) -> bool
    requires some { 0 < length line.now }
    requires begins { slice_index line.now 0 ≡ 35 }
    ensures { MatchBool result (IsInclude line.now) (IsInclude line.now → ⊥) }
{
    let (_, behind) = line.split_at(1);
    let (_, word) = behind.split_at(blanks_len(behind));
    match after_include(word) {
        Some(rest) => !starts_part(rest),
        None => false,
    }
}

/// The line at the offset from its `#` on.
///
/// directive = "#" {space | tab} "include" [what no letter, digit or `_` begins], first on its line (C11 6.10.2)
pub(crate) fn directive<'a>(text: &'a str, at: usize) -> Result<(Option<Kind<'a>>, usize), LexFault>
    requires within { at < length text.now }
    requires fits { length text.now < 2 ^ 62 }
    requires begins { slice_index text.now at ≡ 35 }
    ensures { AnswersPiece text.now at result }
{
    let (before, rest) = text.as_bytes().split_at(at);
    let span = Span {
        start: at,
        end: at + 1,
    };
    if !is_first_on_line(before) {
        return Err(LexFault::BadCharacter(span));
    }
    let len = line_len(rest);
    let (line, _) = rest.split_at(len);
    if !is_include(line) {
        return Err(LexFault::Directive(span));
    }
    Ok((None, len))
}
