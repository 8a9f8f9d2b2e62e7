//! A whole list of tokens: a translation unit (C11 6.9).

ghost use Rattle.std.specs.Prelude.{◌≡◌, ◌≤◌, ◌<◌, ◌^◌, List, map, IfOk, IfErr, IsErr};
ghost use Rattle.lex.specs.Tokens.{Tok, toks};
ghost use Rattle.syntax.specs.Views.{item_of};
ghost use Rattle.syntax.specs.Phrases.{end_of};
ghost use Rattle.syntax.specs.Grammar.{ParsedSource, Spells, source_depth, deepest_program};
ghost use Rattle.parse.specs.inner.Reading.{Gives};
ghost use Rattle.parse.specs.inner.Items.{shared_from, item_at, whole_program};
ghost use Rattle.parse.specs.inner.Headings.{heading_of};
ghost use Rattle.parse.specs.Faults.{IsParseFaultOf, Finds, source_of};
ghost use Rattle.parse.specs.Keys.{key_of};

use crate::cursor::{count_tokens, is_next};
use crate::fault::{ParseFailure, ParseFault};
use crate::functions::{Heading, function, header};
use crate::globals::globals;
use containers::Items;
use lex::token::{Fixed, Kind, Punctuator, Span, Token};
use std::alloc::Allocator;
use std::hash::{DefaultHasher, Hash, Hasher};
use syntax::tree::{Item, Unit};

/// How deep a program may be.
const DEEPEST: usize = 100;

/// Globals, behind a header that has a type and no attributes.
fn shared_globals<'t, 'a, A: Allocator + Copy>(
    alloc: A,
    tokens: &'t [Token<'a>],
    heading: Heading<A>,
) -> Result<(Item<A>, &'t [Token<'a>]), ParseFailure<'t, 'a>>
    ensures { Gives (λ x. (item_of x.0, toks x.1.now)) result (shared_from (heading_of heading) (toks tokens.now)) }
{
    if !heading.attributes.is_empty() {
        return Err(ParseFailure::Wrong(tokens));
    }
    match heading.result {
        Some(ty) => globals(alloc, tokens, ty, heading.name),
        None => Err(ParseFailure::Wrong(tokens)),
    }
}

/// `header function` or `header globals`
fn item<'t, 'a, A: Allocator + Copy>(
    alloc: A,
    tokens: &'t [Token<'a>],
    depth: usize,
) -> Result<(Item<A>, &'t [Token<'a>]), ParseFailure<'t, 'a>>
    requires { depth < 2 ^ 32 }
    ensures { Gives (λ x. (item_of x.0, toks x.1.now)) result (item_at depth (toks tokens.now)) }
{
    let (heading, rest) = header(alloc, tokens)?;
    if is_next(rest, Fixed::Punctuator(Punctuator::OpenParen)) {
        return function(alloc, rest, depth, heading);
    }
    shared_globals(alloc, rest, heading)
}

/// `{ item }`, up to the last token.
fn program<'t, 'a, A: Allocator + Copy>(
    alloc: A,
    tokens: &'t [Token<'a>],
    depth: usize,
) -> Result<Items<Item<A>, A>, ParseFailure<'t, 'a>>
    requires { depth < 2 ^ 32 }
    ensures { Gives (λ x. map item_of x) result (whole_program depth (toks tokens.now)) }
{
    let (mut rest, count) = count_tokens(tokens);
    let mut all = Items::new(alloc);
    'turns: for _turn in 0..count {
        if rest.is_empty() {
            return Ok(all);
        }
        let (one, after) = item(alloc, rest, depth)?;
        all.push(one)?;
        rest = after;
    }
    if rest.is_empty() {
        Ok(all)
    } else {
        Err(ParseFailure::Wrong(rest))
    }
}

/// Where the last token ends, or 0 where there is none.
fn end_of(tokens: &[Token]) -> usize
    ensures { result ≡ end_of (toks tokens.now) }
{
    match tokens {
        [.., last] => last.span.end,
        [] => 0,
    }
}

/// The hash of all names among the tokens, in order: so no name can be chosen for the key that it will have a part in.
fn key_of(tokens: &[Token]) -> u64
    ensures { result ≡ key_of (toks tokens.now) }
{
    let mut hasher = DefaultHasher::new();
    'each: for token in tokens {
        match token.kind {
            Kind::Name(name) => name.hash(&mut hasher),
            _ => {}
        }
    }
    hasher.finish()
}

/// The program that the tokens spell, all of them.
///
/// The tree owns its names: it outlives the tokens and their text. Only a refused growth can stop it where the tokens
/// spell a program within the depth of 100.
pub fn parse<A: Allocator + Copy>(alloc: A, tokens: &[Token<'_>]) -> Result<Unit<A>, ParseFault>
    // The tokens spell the program, within the depth.
    ensures found { IfOk result
        (λ u. Spells (source_of u) (toks tokens.now) × (source_depth (source_of u) ≤ deepest_program)) }
    // The key of the program is made of all names.
    ensures key { IfOk result (λ u. u.key ≡ key_of (toks tokens.now)) }
    // Which fault comes, and at which token.
    ensures fault { IfErr result (λ f. IsParseFaultOf (toks tokens.now) f) }
    // What is spelled within the depth is found.
    ensures complete { (s : ParsedSource) → Spells s (toks tokens.now) → source_depth s ≤ deepest_program
        → Finds s result }
    // What is spelled deeper is refused.
    ensures refused { (s : ParsedSource) → Spells s (toks tokens.now) → deepest_program < source_depth s
        → IsErr result }
{
    match program(alloc, tokens, DEEPEST) {
        Ok(items) => Ok(Unit {
            items,
            end: end_of(tokens),
            key: key_of(tokens),
        }),
        Err(ParseFailure::Memory) => Err(ParseFault::OutOfMemory),
        Err(ParseFailure::Wrong([])) => {
            let end = end_of(tokens);
            Err(ParseFault::Unfinished(Span { start: end, end }))
        }
        Err(ParseFailure::Wrong([token, ..])) => Err(ParseFault::Unexpected(token.span)),
        Err(ParseFailure::Deep([token, ..])) => Err(ParseFault::TooDeep(token.span)),
        Err(ParseFailure::Deep([])) => unreachable!(),
    }
}

/// No list of tokens spells two programs.
pub fn one_tree()
    ensures { (ts : List Tok) (a b : ParsedSource) → Spells a ts → Spells b ts → a ≡ b }
{}
