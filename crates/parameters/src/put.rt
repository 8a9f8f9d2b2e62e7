//! A text with numbers in place of names.

ghost use Rattle.std.specs.Prelude.{◌≡◌, ◌++◌, ◌-◌, ◌≤◌, drop, take, IfOk, OnOk, true, false, length, option_map, decimal};
ghost use Rattle.lex.specs.Laws.{Lie};
ghost use Rattle.lex.specs.Tokens.{terminal, toks};
ghost use Rattle.parameters.specs.Puts.{IsPutIn, IsUsedIn, has_name, is_of_name, number_for, padded, put_from, put_token};
ghost use Rattle.parameters.specs.Puts.{written};

use crate::definition::{Definition, Number, is_memory};
use itoa::Buffer;
use lex::lex;
use lex::token::{Kind, Token};
use std::alloc::{AllocError, Allocator};

/// Adds bytes.
fn push_bytes<A: Allocator>(text: &mut Vec<u8, A>, bytes: &[u8]) -> Result<(), AllocError>
    ensures { OnOk result (text.new.items ≡ text.old.items ++ bytes.now) }
{
    text.extend_from_slice(bytes)
}

/// A number as it is written in a source. A blank parts the minus of a negative one from a minus before it.
fn number_text<A: Allocator>(alloc: A, number: Number) -> Result<Vec<u8, A>, AllocError>
    ensures { IfOk result (λ v. v.items ≡ written number) }
{
    let mut text = Vec::new(alloc);
    if number.is_negative {
        push_bytes(&mut text, b" -")?;
    }
    push_bytes(&mut text, Buffer::new().format(number.magnitude).as_bytes())?;
    Ok(text)
}

/// A number as it is written in a source, with blanks after it up to a width.
fn padded_text<A: Allocator>(
    alloc: A,
    number: Number,
    width: usize,
) -> Result<Vec<u8, A>, AllocError>
    ensures { IfOk result (λ v. v.items ≡ padded (written number) width) }
{
    let mut text = number_text(alloc, number)?;
    let more = width.saturating_sub(text.len());
    'blanks: for _ in 0..more {
        text.push(b' ')?;
    }
    Ok(text)
}

/// The number that replaces a name, if one does.
fn number_for(definitions: &[Definition], name: &str) -> Option<Number>
    ensures { result ≡ number_for definitions.now name.now }
{
    'definitions: for definition in definitions {
        if definition.name.as_str() == name {
            return Some(definition.number);
        }
    }
    None
}

/// Adds a token: the number in its place, or its bytes.
fn push_token<A: Allocator + Copy>(
    alloc: A,
    definitions: &[Definition],
    kind: Kind<'_>,
    bytes: &[u8],
    text: &mut Vec<u8, A>,
) -> Result<(), AllocError>
    ensures { OnOk result (text.new.items
        ≡ text.old.items ++ put_token definitions.now (terminal kind.entry) bytes.now) }
{
    match kind {
        Kind::Name(name) => match number_for(definitions, name) {
            Some(number) => { push_bytes(text, padded_text(alloc, number, name.len())?.as_slice()) }
            None => push_bytes(text, bytes),
        },
        _ => push_bytes(text, bytes),
    }
}

/// Bytes of a text, from an offset up to another.
fn part(text: &str, from: usize, to: usize) -> &[u8]
    requires order { from ≤ to }
    requires within { to ≤ length text.now }
    ensures { result.now ≡ take (to - from) (drop from text.now) }
{
    &text.as_bytes()[from..to]
}

/// The bytes of a text from an offset on.
fn rest(text: &str, from: usize) -> &[u8]
    requires { from ≤ length text.now }
    ensures { result.now ≡ drop from text.now }
{
    &text.as_bytes()[from..]
}

/// A text with numbers in place of names among its tokens.
fn put_tokens<A: Allocator + Copy>(
    alloc: A,
    definitions: &[Definition],
    text: &str,
    tokens: &[Token<'_>],
) -> Result<Vec<u8, A>, AllocError>
    requires { Lie text.now 0 (length text.now) (toks tokens.now) }
    ensures { IfOk result (λ v. v.items ≡ put_from definitions.now text.now 0 (toks tokens.now)) }
{
    let mut new = Vec::new(alloc);
    let mut from = 0;
    'tokens: for token in tokens {
        let span = token.span;
        push_bytes(&mut new, part(text, from, span.start))?;
        let token_bytes = part(text, span.start, span.end);
        push_token(alloc, definitions, token.kind, token_bytes, &mut new)?;
        from = span.end;
    }
    push_bytes(&mut new, rest(text, from))?;
    Ok(new)
}

/// The bytes of a text.
fn copied<A: Allocator>(alloc: A, text: &str) -> Result<Vec<u8, A>, AllocError>
    ensures { IfOk result (λ v. v.items ≡ text.now) }
{
    let mut bytes = Vec::new(alloc);
    push_bytes(&mut bytes, text.as_bytes())?;
    Ok(bytes)
}

/// A text with numbers in place of the names that are defined. A text that has no tokens stays as it is.
pub fn put_in<A: Allocator + Copy>(
    alloc: A,
    definitions: &[Definition],
    text: &str,
) -> Result<Vec<u8, A>, AllocError>
    ensures { IfOk result (λ v. IsPutIn definitions.now text.now v.items) }
{
    match lex(alloc, text) {
        Ok(tokens) => put_tokens(alloc, definitions, text, tokens.as_slice()),
        Err(fault) => {
            if is_memory(fault) {
                Err(AllocError)
            } else {
                copied(alloc, text)
            }
        }
    }
}

/// Whether a token is this name.
fn is_of_name(kind: Kind<'_>, name: &str) -> bool
    ensures { result ≡ is_of_name name.now (terminal kind.entry) }
{
    match kind {
        Kind::Name(found) => found == name,
        _ => false,
    }
}

/// Whether one of these tokens is this name.
pub(crate) fn has_name(tokens: &[Token<'_>], name: &str) -> bool
    ensures { result ≡ has_name name.now (toks tokens.now) }
{
    'tokens: for token in tokens {
        if is_of_name(token.kind, name) {
            return true;
        }
    }
    false
}

/// Whether a text uses a name: one of its tokens is this name. Nothing is said of a text that has no tokens, so that its
/// fault is reported.
pub fn uses<A: Allocator + Copy>(alloc: A, text: &str, name: &str) -> Result<bool, AllocError>
    ensures yes { IfOk result (λ b. b ≡ true → IsUsedIn text.now name.now) }
    ensures no { IfOk result (λ b. b ≡ false → IsUsedIn text.now name.now → ⊥) }
{
    match lex(alloc, text) {
        Ok(tokens) => Ok(has_name(tokens.as_slice(), name)),
        Err(fault) => {
            if is_memory(fault) {
                Err(AllocError)
            } else {
                Ok(true)
            }
        }
    }
}
