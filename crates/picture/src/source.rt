//! The source of a picture: its transactions, their lines and first words, and how their text is spelled.

ghost use Rattle.std.specs.Prelude.{◌≡◌, ◌≤◌, ◌++◌, [], OnOk, IsTrue, codes, drop, if◌then◌else◌, length, nat_lt, take};
ghost use Rattle.picture.specs.Boxes.{is_transaction, passage_title, shown_text, source_escape, source_xml};

use crate::pieces::{Piece, push_pieces, put_byte, put_number};
use lex::place;
use lex::token::{Keyword, Kind, Punctuator, Token};
use std::alloc::{AllocError, Allocator, Global};

/// The bytes of a transaction that a title shows at most.
const MOST_SHOWN: usize = 1000;

/// The bytes of a transaction's first words that are kept at most, before they are cut to the room that there is.
const MOST_KEPT: usize = 40;

/// A part of a source.
#[derive(Clone, Copy)]
pub(crate) struct Passage {
    /// The offset of its first byte.
    pub start: usize,
    /// How many bytes it has.
    pub count: usize,
}

/// A passage without a byte.
pub(crate) fn no_passage() -> Passage {
    Passage { start: 0, count: 0 }
}

/// A transaction in a source.
#[derive(Drop)]
pub(crate) struct Transaction<A: Allocator = Global> {
    pub passage: Passage,
    /// The line on which it begins, from 1.
    line: u64,
    /// The words of its body, up to some 40 bytes, with a blank for whatever parts them.
    words: Vec<u8, A>,
}

/// Adds a byte of a source.
fn put_source_byte<A: Allocator>(to: &mut Vec<u8, A>, byte: u8) -> Result<(), AllocError>
    ensures { OnOk result (to.new.items ≡ to.old.items ++ source_escape byte) }
{
    match byte {
        b'\n' | b'\t' => Ok(to.push(byte)?),
        b'\r' | 128..=191 => Ok(()),
        _ => put_byte(to, byte),
    }
}

/// Adds bytes of a source, as XML wants them.
fn put_source<A: Allocator>(to: &mut Vec<u8, A>, bytes: &[u8]) -> Result<(), AllocError>
    ensures { OnOk result (to.new.items ≡ to.old.items ++ source_xml bytes.now) }
{
    'bytes: for byte in bytes {
        put_source_byte(to, *byte)?;
    }
    Ok(())
}

/// The bytes of a text from an offset on.
fn behind(text: &str, offset: usize) -> &[u8]
    ensures { result.now ≡ drop offset text.now }
{
    let (_, behind) = text.as_bytes().split_at(offset.min(text.len()));
    behind
}

/// The first of these bytes.
fn first_of(bytes: &[u8], count: usize) -> &[u8]
    ensures { result.now ≡ take count bytes.now }
{
    let (first, _) = bytes.split_at(count.min(bytes.len()));
    first
}

/// Whether a passage begins with a transaction's keyword.
pub(crate) fn is_transaction(text: &str, passage: Passage) -> bool
    ensures is { result ≡ is_transaction text.now passage }
    ensures within { IsTrue result → passage.start ≤ length text.now }
{
    behind(text, passage.start).starts_with(b"__transaction_")
}

/// Says that there is more of a passage of so many bytes than is shown, where there is.
fn put_more<A: Allocator>(to: &mut Vec<u8, A>, count: usize) -> Result<(), AllocError>
    ensures { OnOk result (to.new.items ≡ to.old.items ++ (if nat_lt 1000 count then codes " .." else [])) }
{
    if count > MOST_SHOWN {
        to.extend_from_slice(b" ..")
    } else {
        Ok(())
    }
}

/// Adds what is shown of a passage.
fn put_shown<A: Allocator>(
    to: &mut Vec<u8, A>,
    text: &str,
    passage: Passage,
) -> Result<(), AllocError>
    ensures { OnOk result (to.new.items ≡ to.old.items ++ shown_text text.now passage) }
{
    let first = first_of(behind(text, passage.start), passage.count.min(MOST_SHOWN));
    put_source(to, first)?;
    put_more(to, passage.count)
}

/// Adds the title of a passage of a text.
pub(crate) fn put_passage<A: Allocator>(
    to: &mut Vec<u8, A>,
    text: &str,
    passage: Passage,
) -> Result<(), AllocError>
    requires { passage.start ≤ length text.now }
    ensures { OnOk result (to.new.items ≡ to.old.items ++ passage_title text.now passage) }
{
    let (line, _) = place(text, passage.start);
    to.extend_from_slice(b"line ")?;
    put_number(to, line as u64)?;
    to.extend_from_slice(b":\n")?;
    put_shown(to, text, passage)
}

/// Whether a token opens a bracket.
fn opens(kind: Kind<'_>) -> bool {
    matches!(
        kind,
        Kind::Punctuator(Punctuator::OpenBrace | Punctuator::OpenParen | Punctuator::OpenBracket)
    )
}

/// Whether a token closes a bracket.
fn closes(kind: Kind<'_>) -> bool {
    matches!(
        kind,
        Kind::Punctuator(Punctuator::CloseBrace | Punctuator::CloseParen | Punctuator::CloseBracket)
    )
}

/// Whether a bracket that opens outside others behind a transaction's keyword opens its body: a brace does, and a
/// parenthesis right behind the keyword.
fn opens_body(kind: Kind<'_>, is_next: bool) -> bool {
    match kind {
        Kind::Punctuator(Punctuator::OpenBrace) => true,
        Kind::Punctuator(Punctuator::OpenParen) => is_next,
        _ => false,
    }
}

/// Between which of the tokens the body of a transaction stands, by the number of its keyword.
fn body_of(tokens: &[Token<'_>], keyword: usize) -> Option<(usize, usize)> {
    let first = keyword.saturating_add(1);
    let mut depth = 0usize;
    let mut opening = None;
    'tokens: for number in first..tokens.len() {
        let kind = tokens[number].kind;
        if opens(kind) {
            if depth == 0 && opens_body(kind, number == first) {
                opening = Some(number);
            }
            depth = depth.saturating_add(1);
        } else if closes(kind) {
            depth = depth.saturating_sub(1);
            if let (0, Some(opening)) = (depth, opening) {
                return Some((opening, number));
            }
        }
    }
    None
}

/// The words between two of the tokens.
fn words_between<A: Allocator>(
    alloc: A,
    text: &str,
    tokens: &[Token<'_>],
    body: (usize, usize),
) -> Result<Vec<u8, A>, AllocError> {
    let mut words = Vec::new(alloc);
    let mut end = None;
    'tokens: for number in body.0.saturating_add(1)..body.1 {
        let Some(token) = tokens.get(number) else {
            return Ok(words);
        };
        let span = token.span;
        if end.is_some() && end != Some(span.start) {
            words.push(b' ')?;
        }
        let count = span.end.saturating_sub(span.start).min(MOST_KEPT);
        words.extend_from_slice(first_of(behind(text, span.start), count))?;
        end = Some(span.end);
        if words.len() >= MOST_KEPT {
            return Ok(words);
        }
    }
    Ok(words)
}

/// Whether a token is a transaction's keyword.
fn begins(kind: Kind<'_>) -> bool {
    matches!(kind, Kind::Keyword(Keyword::Atomic | Keyword::Relaxed))
}

/// How many line feeds there are among bytes.
fn line_feeds(bytes: &[u8]) -> u64 {
    bytes.iter().filter(|byte| **byte == b'\n').count() as u64
}

/// The transaction whose keyword is the token of this number, on a line.
fn transaction_of<A: Allocator>(
    alloc: A,
    text: &str,
    tokens: &[Token<'_>],
    keyword: usize,
    line: u64,
) -> Result<Option<Transaction<A>>, AllocError> {
    let Some(body) = body_of(tokens, keyword) else {
        return Ok(None);
    };
    let (Some(first), Some(last)) = (tokens.get(keyword), tokens.get(body.1)) else {
        return Ok(None);
    };
    let start = first.span.start;
    let count = last.span.end.saturating_sub(start);
    Ok(Some(Transaction {
        passage: Passage { start, count },
        line,
        words: words_between(alloc, text, tokens, body)?,
    }))
}

/// The transactions of a source, in their order.
pub(crate) fn transactions_of<A: Allocator + Copy>(
    alloc: A,
    text: &str,
    tokens: &[Token<'_>],
) -> Result<Vec<Transaction<A>, A>, AllocError> {
    let mut found = Vec::new(alloc);
    let (mut line, mut seen) = (1u64, 0usize);
    'tokens: for (number, token) in tokens.iter().enumerate() {
        if begins(token.kind) {
            let start = token.span.start;
            let between = first_of(behind(text, seen), start.saturating_sub(seen));
            line = line.saturating_add(line_feeds(between));
            seen = start;
            if let Some(transaction) = transaction_of(alloc, text, tokens, number, line)? {
                found.push(transaction)?;
            }
        }
    }
    Ok(found)
}

/// Where the last blank stands among the first of these bytes, from which on they are left out.
fn last_blank(words: &[u8], most: usize) -> Option<usize> {
    let mut last = None;
    'words: for (at, byte) in words.iter().enumerate() {
        if at > most {
            return last;
        }
        if *byte == b' ' {
            last = Some(at);
        }
    }
    last
}

impl<A: Allocator> Transaction<A> {
    /// Adds the line, and the first words as far as there is room for all in so many characters.
    pub(crate) fn put_heading(
        &self,
        to: &mut Vec<u8, A>,
        characters: usize,
    ) -> Result<(), AllocError> {
        let before = to.len();
        push_pieces(
            to,
            &[
                Piece::Plain(b"line "),
                Piece::Number(self.line),
                Piece::Plain(b": "),
            ],
        )?;
        let room = characters.saturating_sub(to.len().saturating_sub(before));
        let words = self.words.as_slice();
        if words.len() <= room {
            return to.extend_from_slice(words);
        }
        match last_blank(words, room.saturating_sub(3)) {
            Some(at) => {
                to.extend_from_slice(first_of(words, at))?;
                to.extend_from_slice(b" ..")
            }
            None => {
                to.extend_from_slice(first_of(words, room.saturating_sub(2)))?;
                to.extend_from_slice(b"..")
            }
        }
    }
}
