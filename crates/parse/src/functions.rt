//! Prototypes and definitions of functions (C11 6.7.6.3, 6.9.1).

ghost use Rattle.std.specs.Prelude.{◌≡◌, ◌<◌, ◌^◌, map, option_map};
ghost use Rattle.lex.specs.Tokens.{toks};
ghost use Rattle.lex.specs.declared.token.Fixed.TheVariants as token;
ghost use Rattle.lex.specs.declared.token.Keyword.TheVariants as key;
ghost use Rattle.lex.specs.declared.token.Punctuator.TheVariants as punct;
ghost use Rattle.syntax.specs.Tree as Tree;
ghost use Rattle.syntax.specs.Views.{parameter_of, stmts_of, item_of};
ghost use Rattle.syntax.specs.Grammar.{the_name};
ghost use Rattle.parse.specs.inner.Reading.{Gives, head};
ghost use Rattle.parse.specs.inner.Expressions.{says};
ghost use Rattle.parse.specs.inner.Items.{parameter, parameter_list, parameters, are_named, body_at, function_at};
ghost use Rattle.parse.specs.inner.Items.{header};
ghost use Rattle.parse.specs.inner.Items as items;
ghost use Rattle.parse.specs.inner.Headings.{heading_of};

use crate::attributes::{append_attributes, attributes};
use crate::cursor::{eat, expect, expect_close, is_next, name};
use crate::fault::ParseFailure;
use crate::list::{Element, comma_list};
use crate::scalar::scalar;
use crate::stmt::block;
use containers::Items;
use lex::token::{Fixed, Keyword, Kind, Punctuator, Scalar, Token};
use std::alloc::Allocator;
use syntax::tree::{Attribute, Function, Item, Name, Parameter, Stmt};

/// What stands before a function's parameters, or up to the first global's name.
#[derive(Drop)]
pub struct Heading<A: Allocator> {
    pub attributes: Items<Attribute, A>,

    /// `None` for `void`.
    pub result: Option<Scalar>,
    pub name: Name<A>,
}

/// `void` or `type`: the type of a function's value.
fn result<'t, 'a>(
    tokens: &'t [Token<'a>],
) -> Result<(Option<Scalar>, &'t [Token<'a>]), ParseFailure<'t, 'a>>
    ensures { Gives (λ x. (x.0, toks x.1.now)) result (items.result (toks tokens.now)) }
{
    if let Some(rest) = eat(tokens, Fixed::Keyword(Keyword::Void)) {
        return Ok((None, rest));
    }
    let (ty, rest) = scalar(tokens)?;
    Ok((Some(ty), rest))
}

/// `attributes result name`
pub fn header<'t, 'a, A: Allocator + Copy>(
    alloc: A,
    tokens: &'t [Token<'a>],
) -> Result<(Heading<A>, &'t [Token<'a>]), ParseFailure<'t, 'a>>
    ensures { Gives (λ x. (heading_of x.0, toks x.1.now)) result (header (toks tokens.now)) }
{
    let (attributes, rest) = attributes(alloc, tokens)?;
    let (result, rest) = result(rest)?;
    let (name, rest) = name(alloc, rest)?;
    Ok((
        Heading {
            attributes,
            result,
            name,
        },
        rest,
    ))
}

/// Whether a name begins here.
fn is_name(tokens: &[Token]) -> bool
    ensures { result ≡ says the_name (head (toks tokens.now)) }
{
    match tokens {
        [first, ..] => matches!(first.kind, Kind::Name(_)),
        [] => false,
    }
}

/// `type [name]`
fn parameter<'t, 'a, A: Allocator + Copy>(
    alloc: A,
    tokens: &'t [Token<'a>],
) -> Result<(Parameter<A>, &'t [Token<'a>]), ParseFailure<'t, 'a>>
    ensures { Gives (λ x. (parameter_of x.0, toks x.1.now)) result (parameter (toks tokens.now)) }
{
    let (ty, rest) = scalar(tokens)?;
    if is_name(rest) {
        let (name, rest) = name(alloc, rest)?;
        let name = Some(name);
        return Ok((Parameter { ty, name }, rest));
    }
    Ok((Parameter { ty, name: None }, rest))
}

/// How the parameters of a list are read.
#[derive(Drop)]
struct EachParameter<A: Allocator> {
    alloc: A,
}

impl<A: Allocator + Copy> Element<Parameter<A>> for EachParameter<A> {
    ghost Plain = { Tree.Parameter };

    ghost plain = { parameter_of };

    ghost can = { λ each. Unit {0} };

    ghost reads = { λ each. parameter };

    fn read<'t, 'a>(
        &self,
        tokens: &'t [Token<'a>],
    ) -> Result<(Parameter<A>, &'t [Token<'a>]), ParseFailure<'t, 'a>> {
        parameter(self.alloc, tokens)
    }
}

/// `[void | parameter { , parameter }]`
fn parameter_list<'t, 'a, A: Allocator + Copy>(
    alloc: A,
    tokens: &'t [Token<'a>],
) -> Result<(Items<Parameter<A>, A>, &'t [Token<'a>]), ParseFailure<'t, 'a>>
    ensures { Gives (λ x. (map parameter_of x.0, toks x.1.now)) result (parameter_list (toks tokens.now)) }
{
    if is_next(tokens, Fixed::Punctuator(Punctuator::CloseParen)) {
        return Ok((Items::new(alloc), tokens));
    }
    if let Some(rest) = eat(tokens, Fixed::Keyword(Keyword::Void)) {
        return Ok((Items::new(alloc), rest));
    }
    comma_list(alloc, &EachParameter { alloc }, tokens)
}

/// `( parameter_list )`
fn parameters<'t, 'a, A: Allocator + Copy>(
    alloc: A,
    tokens: &'t [Token<'a>],
) -> Result<(Items<Parameter<A>, A>, &'t [Token<'a>]), ParseFailure<'t, 'a>>
    ensures { Gives (λ x. (map parameter_of x.0, toks x.1.now)) result (parameters (toks tokens.now)) }
{
    let rest = expect(tokens, Fixed::Punctuator(Punctuator::OpenParen))?;
    expect_close(
        parameter_list(alloc, rest),
        Fixed::Punctuator(Punctuator::CloseParen),
    )
}

/// Whether each parameter has a name.
fn are_named<A: Allocator>(parameters: &[Parameter<A>]) -> bool
    ensures { result ≡ are_named (map parameter_of parameters.now) }
{
    parameters.iter().all(|parameter| parameter.name.is_some())
}

/// `;` or, where each parameter has a name, `block`
fn body<'t, 'a, A: Allocator + Copy>(
    alloc: A,
    tokens: &'t [Token<'a>],
    depth: usize,
    parameters: &[Parameter<A>],
) -> Result<(Option<Items<Stmt<A>, A>>, &'t [Token<'a>]), ParseFailure<'t, 'a>>
    requires { depth < 2 ^ 32 }
    ensures { Gives (λ x. (option_map stmts_of x.0, toks x.1.now)) result
        (body_at depth (map parameter_of parameters.now) (toks tokens.now)) }
{
    if !is_next(tokens, Fixed::Punctuator(Punctuator::OpenBrace)) {
        let rest = expect(tokens, Fixed::Punctuator(Punctuator::Semicolon))?;
        return Ok((None, rest));
    }
    if !are_named(parameters) {
        return Err(ParseFailure::Wrong(tokens));
    }
    let (body, rest) = block(alloc, tokens, depth)?;
    Ok((Some(body), rest))
}

/// `parameters attributes body`, behind a header.
pub fn function<'t, 'a, A: Allocator + Copy>(
    alloc: A,
    tokens: &'t [Token<'a>],
    depth: usize,
    heading: Heading<A>,
) -> Result<(Item<A>, &'t [Token<'a>]), ParseFailure<'t, 'a>>
    requires { depth < 2 ^ 32 }
    ensures { Gives (λ x. (item_of x.0, toks x.1.now)) result
        (function_at depth (heading_of heading) (toks tokens.now)) }
{
    let (parameters, rest) = parameters(alloc, tokens)?;
    let (more, rest) = attributes(alloc, rest)?;
    let (body, rest) = body(alloc, rest, depth, parameters.as_slice())?;
    Ok((
        Item::Function(Function {
            attributes: append_attributes(heading.attributes, more)?,
            result: heading.result,
            name: heading.name,
            parameters,
            body,
        }),
        rest,
    ))
}
