//! Lists with commas between their elements.

ghost use Rattle.std.specs.Prelude.{◌≡◌, [], ◌∷◌, ◌++◌, map, IfOk};
ghost use Rattle.lex.specs.Tokens.{toks};
ghost use Rattle.lex.specs.declared.token.Fixed.TheVariants as token;
ghost use Rattle.lex.specs.declared.token.Punctuator.TheVariants as punct;
ghost use Rattle.parse.specs.inner.Reading.{Gives, Parser, behind, is_other, comma_list, many_until, map_parser};

use crate::cursor::{count_tokens, eat, is_next};
use crate::fault::ParseFailure;
use containers::Items;
use lex::token::{Fixed, Punctuator, Token};
use std::alloc::{AllocError, Allocator};

/// How one element of a list is read, with what reading it needs.
pub trait Element<T> {
    ghost Plain: { Type 0 };

    ghost plain: { T → Plain };

    ghost can: { Self → Type 0 };

    ghost reads: { Self → Parser Plain };

    /// The element at the front.
    fn read<'t, 'a>(
        &self,
        tokens: &'t [Token<'a>],
    ) -> Result<(T, &'t [Token<'a>]), ParseFailure<'t, 'a>>
        requires { can self.now }
        ensures { Gives (λ x. (plain x.0, toks x.1.now)) result (reads self.now (toks tokens.now)) };
}

/// A list of one item. Where memory ends, the list is dropped here, whatever its type: the drop of one of trees,
/// written out at each place, is dear to prove.
pub fn one<T: Drop, A: Allocator>(alloc: A, item: T) -> Result<Items<T, A>, AllocError>
    ensures { IfOk result (λ all. all ≡ item ∷ []) }
{
    let mut all = Items::new(alloc);
    all.push(item)?;
    Ok(all)
}

/// `{ , element }`: adds further elements to those that were read.
pub fn further<'t, 'a, T: Drop, E: Element<T>, A: Allocator>(
    element: &E,
    read: Items<T, A>,
    tokens: &'t [Token<'a>],
) -> Result<(Items<T, A>, &'t [Token<'a>]), ParseFailure<'t, 'a>>
    requires { E.can element.now }
    ensures { Gives (λ x. (map E.plain x.0, toks x.1.now)) result
        (map_parser (λ xs. map E.plain read ++ xs)
        (many_until (is_other (token.Punctuator punct.Comma))
        (behind (token.Punctuator punct.Comma) (E.reads element.now)))
        (toks tokens.now)) }
{
    let (mut rest, count) = count_tokens(tokens);
    let mut all = read;
    'turns: for _turn in 0..count {
        let Some(inner) = eat(rest, Fixed::Punctuator(Punctuator::Comma)) else {
            return Ok((all, rest));
        };
        let (one, after) = element.read(inner)?;
        all.push(one)?;
        rest = after;
    }
    if is_next(rest, Fixed::Punctuator(Punctuator::Comma)) {
        return Err(ParseFailure::Wrong(rest));
    }
    Ok((all, rest))
}

/// `element { , element }`
pub fn comma_list<'t, 'a, T: Drop, E: Element<T>, A: Allocator + Copy>(
    alloc: A,
    element: &E,
    tokens: &'t [Token<'a>],
) -> Result<(Items<T, A>, &'t [Token<'a>]), ParseFailure<'t, 'a>>
    requires { E.can element.now }
    ensures { Gives (λ x. (map E.plain x.0, toks x.1.now)) result (comma_list (E.reads element.now) (toks tokens.now)) }
{
    let (first, rest) = element.read(tokens)?;
    let all = one(alloc, first)?;
    further(element, all, rest)
}
