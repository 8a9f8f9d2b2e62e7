//! What is said of a function's safety: the attributes of the C++ draft on transactions 1.1.

ghost use Rattle.std.specs.Prelude.{◌≡◌, ◌++◌, IfOk};
ghost use Rattle.lex.specs.Tokens.{toks};
ghost use Rattle.lex.specs.declared.token.Fixed.TheVariants as token;
ghost use Rattle.lex.specs.declared.token.Keyword.TheVariants as key;
ghost use Rattle.lex.specs.declared.token.Punctuator.TheVariants as punct;
ghost use Rattle.syntax.specs.declared.tree.Attribute.{Attribute};
ghost use Rattle.syntax.specs.Grammar.{the_attribute, attribute_named};
ghost use Rattle.parse.specs.inner.Reading.{Gives, take, head, behind, before};
ghost use Rattle.parse.specs.inner.Items.{words, bracket_attributes, gnu_attributes, attribute_list, is_plain};
ghost use Rattle.parse.specs.inner.Items.{attributes};

use crate::cursor::{count_tokens, expect, expect_close, is_next};
use crate::fault::ParseFailure;
use crate::list::{Element, comma_list};
use containers::Items;
use lex::token::{Fixed, Keyword, Kind, Punctuator, Token};
use std::alloc::{AllocError, Allocator};
use syntax::tree::Attribute;

/// Attributes, and the tokens after them.
type ReadAttributes<'t, 'a, A> = (Items<Attribute, A>, &'t [Token<'a>]);

/// The attribute that a word names, if it names one.
fn attribute_of(text: &str) -> Option<Attribute>
    ensures { result ≡ attribute_named text.now }
{
    match text {
        "transaction_safe" => Some(Attribute::Safe),
        "transaction_unsafe" => Some(Attribute::Unsafe),
        "transaction_callable" => Some(Attribute::Callable),
        _ => None,
    }
}

/// A word that names an attribute: `transaction_safe`, `transaction_unsafe` or `transaction_callable`
fn word<'t, 'a>(
    tokens: &'t [Token<'a>],
) -> Result<(Attribute, &'t [Token<'a>]), ParseFailure<'t, 'a>>
    ensures { Gives (λ x. (x.0, toks x.1.now)) result (take the_attribute (toks tokens.now)) }
{
    let [first, rest @ ..] = tokens else {
        return Err(ParseFailure::Wrong(tokens));
    };
    let Kind::Name(text) = first.kind else {
        return Err(ParseFailure::Wrong(tokens));
    };
    match attribute_of(text) {
        Some(word) => Ok((word, rest)),
        None => Err(ParseFailure::Wrong(tokens)),
    }
}

/// How the words of a list are read.
#[derive(Drop)]
struct EachWord {}

impl Element<Attribute> for EachWord {
    ghost Plain = { Attribute };

    ghost plain = { λ x. x };

    ghost can = { λ each. Unit {0} };

    ghost reads = { λ each. take the_attribute };

    fn read<'t, 'a>(
        &self,
        tokens: &'t [Token<'a>],
    ) -> Result<(Attribute, &'t [Token<'a>]), ParseFailure<'t, 'a>> {
        word(tokens)
    }
}

/// `word { , word }`
fn words<'t, 'a, A: Allocator + Copy>(
    alloc: A,
    tokens: &'t [Token<'a>],
) -> Result<ReadAttributes<'t, 'a, A>, ParseFailure<'t, 'a>>
    ensures { Gives (λ x. (x.0, toks x.1.now)) result (words (toks tokens.now)) }
{
    comma_list(alloc, &EachWord {}, tokens)
}

/// Words between two opening tokens and two closing ones.
fn doubly_enclosed_words<'t, 'a, A: Allocator + Copy>(
    alloc: A,
    tokens: &'t [Token<'a>],
    opening: Fixed,
    closing: Fixed,
) -> Result<ReadAttributes<'t, 'a, A>, ParseFailure<'t, 'a>>
    ensures { Gives (λ x. (x.0, toks x.1.now)) result
        (behind opening (behind opening (before closing (before closing words))) (toks tokens.now)) }
{
    let rest = expect(tokens, opening)?;
    let rest = expect(rest, opening)?;
    expect_close(expect_close(words(alloc, rest), closing), closing)
}

/// `[[ .. ]]`
fn bracket_attributes<'t, 'a, A: Allocator + Copy>(
    alloc: A,
    tokens: &'t [Token<'a>],
) -> Result<ReadAttributes<'t, 'a, A>, ParseFailure<'t, 'a>>
    ensures { Gives (λ x. (x.0, toks x.1.now)) result (bracket_attributes (toks tokens.now)) }
{
    doubly_enclosed_words(
        alloc,
        tokens,
        Fixed::Punctuator(Punctuator::OpenBracket),
        Fixed::Punctuator(Punctuator::CloseBracket),
    )
}

/// `__attribute__((..))`
fn gnu_attributes<'t, 'a, A: Allocator + Copy>(
    alloc: A,
    tokens: &'t [Token<'a>],
) -> Result<ReadAttributes<'t, 'a, A>, ParseFailure<'t, 'a>>
    ensures { Gives (λ x. (x.0, toks x.1.now)) result (gnu_attributes (toks tokens.now)) }
{
    let rest = expect(tokens, Fixed::Keyword(Keyword::Attribute))?;
    doubly_enclosed_words(
        alloc,
        rest,
        Fixed::Punctuator(Punctuator::OpenParen),
        Fixed::Punctuator(Punctuator::CloseParen),
    )
}

/// `[[ words ]]` or `__attribute__ (( words ))`
fn attribute_list<'t, 'a, A: Allocator + Copy>(
    alloc: A,
    tokens: &'t [Token<'a>],
) -> Result<ReadAttributes<'t, 'a, A>, ParseFailure<'t, 'a>>
    ensures { Gives (λ x. (x.0, toks x.1.now)) result (attribute_list (toks tokens.now)) }
{
    if is_next(tokens, Fixed::Punctuator(Punctuator::OpenBracket)) {
        bracket_attributes(alloc, tokens)
    } else {
        gnu_attributes(alloc, tokens)
    }
}

/// Whether no attribute begins here.
fn is_plain(tokens: &[Token]) -> bool
    ensures { result ≡ is_plain (head (toks tokens.now)) }
{
    !is_next(tokens, Fixed::Punctuator(Punctuator::OpenBracket))
        && !is_next(tokens, Fixed::Keyword(Keyword::Attribute))
}

/// The attributes of one list, and then those of another.
pub fn append_attributes<A: Allocator>(
    front: Items<Attribute, A>,
    back: Items<Attribute, A>,
) -> Result<Items<Attribute, A>, AllocError>
    ensures { IfOk result (λ all. all ≡ front ++ back) }
{
    let mut all = front.into_vec();
    all.extend_from_slice(back.as_slice())?;
    Ok(Items::from_vec(all))
}

/// `{ attribute_list }`: all words of all lists, in their order.
pub fn attributes<'t, 'a, A: Allocator + Copy>(
    alloc: A,
    tokens: &'t [Token<'a>],
) -> Result<ReadAttributes<'t, 'a, A>, ParseFailure<'t, 'a>>
    ensures { Gives (λ x. (x.0, toks x.1.now)) result (attributes (toks tokens.now)) }
{
    let (mut rest, count) = count_tokens(tokens);
    let mut all = Items::new(alloc);
    'turns: for _turn in 0..count {
        if is_plain(rest) {
            return Ok((all, rest));
        }
        let (more, after) = attribute_list(alloc, rest)?;
        all = append_attributes(all, more)?;
        rest = after;
    }
    if is_plain(rest) {
        Ok((all, rest))
    } else {
        Err(ParseFailure::Wrong(rest))
    }
}
