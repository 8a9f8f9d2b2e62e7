//! Definitions: names, and the numbers that stand in their places.

ghost use Rattle.std.specs.Prelude.{◌≡◌, ◌≢◌, ℕ, IfOk, MatchOption, true, false};
ghost use Rattle.lex.specs.Tokens.{toks};
ghost use Rattle.parameters.specs.Definitions.{IsDefinition, IsMagnitude, IsName, IsNameAlone, IsValue, IsSigned};
ghost use Rattle.parameters.specs.declared.definition.Definition.{Definition};
ghost use Rattle.parameters.specs.declared.definition.Number.{Number};

use crate::put::has_name;
use lex::token::Token;
use lex::{LexFault, lex};
use std::alloc::{AllocError, Global};

/// A whole number of the language, from -9223372036854775807 to 9223372036854775807.
#[derive(Clone, Copy, Debug)]
pub struct Number {
    pub is_negative: bool,
    pub magnitude: u64,
}

/// A name of a source, and the number that replaces it.
#[derive(Debug, Drop)]
pub struct Definition {
    pub name: String,
    pub number: Number,
}

/// One more than the greatest number.
const LIMIT: u64 = 9223372036854775808;

/// The number of decimal digits alone.
fn magnitude(digits: &str) -> Option<u64>
    ensures { MatchOption result ((n : ℕ) → IsMagnitude digits.now n → ⊥) (IsMagnitude digits.now) }
{
    if digits.starts_with('+') {
        return None;
    }
    match digits.parse::<u64>() {
        Ok(number) if number < LIMIT => Some(number),
        _ => None,
    }
}

/// The number of decimal digits, with an optional minus first.
fn signed(value: &str) -> Option<Number>
    ensures { MatchOption result ((n : Number) → IsSigned value.now n → ⊥) (IsSigned value.now) }
{
    match value.strip_prefix('-') {
        Some(digits) => match magnitude(digits) {
            Some(magnitude) => Some(Number {
                is_negative: true,
                magnitude,
            }),
            None => None,
        },
        None => match magnitude(value) {
            Some(magnitude) => Some(Number {
                is_negative: false,
                magnitude,
            }),
            None => None,
        },
    }
}

/// The number of a value: the number of threads if there is a single one, or the number that is written.
fn number_of(value: &str, threads: Option<u32>) -> Option<Number>
    ensures { MatchOption result ((n : Number) → IsValue threads value.now n → ⊥) (IsValue threads value.now) }
{
    let Some(threads) = threads else {
        return signed(value);
    };
    if value == "threads" {
        Some(Number {
            is_negative: false,
            magnitude: u64::from(threads),
        })
    } else {
        signed(value)
    }
}

/// Whether tokens are a single one, which is this name.
fn is_name_alone(tokens: &[Token<'_>], word: &str) -> bool
    ensures yes { result ≡ true → IsNameAlone word.now (toks tokens.now) }
    ensures no { result ≡ false → IsNameAlone word.now (toks tokens.now) → ⊥ }
{
    tokens.len() == 1 && has_name(tokens, word)
}

/// Whether memory was refused, which says nothing of a text.
pub(crate) fn is_memory(fault: LexFault) -> bool
    ensures { result ≡ false → fault ≢ LexFault.OutOfMemory }
{
    match fault {
        LexFault::OutOfMemory => true,
        LexFault::BadCharacter(_)
        | LexFault::ConstantTooLarge(_)
        | LexFault::OpenComment(_)
        | LexFault::BadString(_)
        | LexFault::FileTooLong
        | LexFault::Directive(_) => false,
    }
}

/// Whether a word is a name of the language, and no keyword.
fn is_name(alloc: Global, word: &str) -> Result<bool, AllocError>
    ensures yes { IfOk result (λ b. b ≡ true → IsName word.now) }
    ensures no { IfOk result (λ b. b ≡ false → IsName word.now → ⊥) }
{
    match lex(alloc, word) {
        Ok(tokens) => Ok(is_name_alone(tokens.as_slice(), word)),
        Err(fault) => {
            if is_memory(fault) {
                Err(AllocError)
            } else {
                Ok(false)
            }
        }
    }
}

/// What `NAME=VALUE` defines, if it is that. The value `threads` is the number of threads, if there is a single
/// one.
pub fn read_definition(
    alloc: Global,
    word: &str,
    threads: Option<u32>,
) -> Result<Option<Definition>, AllocError>
    ensures { IfOk result (λ o. MatchOption o ((d : Definition) → IsDefinition threads word.now d → ⊥)
        (IsDefinition threads word.now)) }
{
    let Some((name, value)) = word.split_once('=') else {
        return Ok(None);
    };
    match number_of(value, threads) {
        Some(number) => {
            if is_name(alloc, name)? {
                Ok(Some(Definition {
                    name: String::from_str(alloc, name)?,
                    number,
                }))
            } else {
                Ok(None)
            }
        }
        None => Ok(None),
    }
}
