//! Formats, and whether the arguments of a print are of their types.

ghost use Rattle.std.specs.Prelude.{◌≡◌, ◌&&◌, ◌==◌, length};
ghost use Rattle.syntax.specs.Views.{expr_of, exprs_of};
ghost use Rattle.syntax.specs.Formats.{is_format, pieces, specifiers};
ghost use Rattle.syntax.specs.FormatDirectives.{says};
ghost use Rattle.syntax.specs.Typing.{span_of};
ghost use Rattle.syntax.specs.Types.{type_of};
ghost use Rattle.syntax.specs.Typing.{first_unmet, demand, HaveTypes, IsTypedPrint};
ghost use Rattle.types.specs.inner.Unmet.{unmet_in};
ghost use Rattle.types.specs.inner.Known.{known_in};
ghost use Rattle.types.specs.inner.Specifiers.{is_fitting};

use crate::expr::{check_numbers, count_of};
use crate::expr_type::type_of;
use crate::fault::demand;
use crate::table::ScopeTable;
use lex::token::{Scalar, Span};
use std::alloc::Allocator;
use syntax::format::{FormatDirective, directive_at};
use syntax::spans::span_of;
use syntax::tree::Expr;
use syntax::types::same_type;
use syntax::violation::{Rule, Violation};

/// Whether so many bytes say a byte of literal text: two a percent sign, and one any other.
fn says(bytes: usize, byte: u8) -> bool
    ensures { result ≡ says bytes byte }
{
    if byte == b'%' { bytes == 2 } else { bytes == 1 }
}

/// Whether behind each `%` stands a number or a `%` (C11 7.21.6.1).
fn is_format(format: &[u8]) -> bool
    ensures { result ≡ is_format format.now }
{
    let mut i = 0;
    'directives: while i < format.len() {
        match directive_at(format, i) {
            FormatDirective::Byte(byte, next) => {
                if !says(next - i, byte) {
                    return false;
                }
                i = next;
                continue;
            }
            FormatDirective::Specifier(_, next) => {
                i = next;
            }
        }
    }
    true
}

/// The number of numbers that a format prints.
fn count_specifiers(format: &[u8]) -> usize
    ensures { result ≡ length (specifiers (pieces format.now)) }
{
    let mut count: usize = 0;
    let mut i = 0;
    'directives: while i < format.len() {
        match directive_at(format, i) {
            FormatDirective::Byte(_, next) => {
                i = next;
                continue;
            }
            FormatDirective::Specifier(_, next) => {
                count += 1;
                i = next;
            }
        }
    }
    count
}

/// Whether an argument is of the type that is printed. One that gives no number breaks another rule.
fn is_fitting(ty: Scalar, given: Option<Scalar>) -> bool
    ensures { result ≡ is_fitting ty given }
{
    match given {
        Some(given) => same_type(given, ty),
        None => true,
    }
}

/// An argument is of the type that is printed.
fn check_specifier<'a, A: Allocator + Copy>(
    names: &ScopeTable<'a, A>,
    ty: Scalar,
    arg: &'a Expr<A>,
) -> Result<(), Violation>
    ensures { unmet_in result
        ≡ first_unmet
        (demand 27 (span_of (expr_of arg.now)) (is_fitting ty (type_of (known_in names.now) (expr_of arg.now)))) }
{
    let given = type_of(names, arg);
    let fits = is_fitting(ty, given);
    demand(fits, Rule::BadFormat, span_of(arg))
}

/// Each argument is of the type that is printed in its place.
fn check_specifiers<'a, A: Allocator + Copy>(
    names: &ScopeTable<'a, A>,
    format: &[u8],
    args: &'a [Expr<A>],
) -> Result<(), Violation>
    ensures { unmet_in result
        ≡ first_unmet (HaveTypes (known_in names.now) (specifiers (pieces format.now)) (exprs_of args.now)) }
{
    let mut next: usize = 0;
    let mut i = 0;
    'directives: while i < format.len() {
        match directive_at(format, i) {
            FormatDirective::Byte(_, behind) => {
                i = behind;
                continue;
            }
            FormatDirective::Specifier(ty, behind) => {
                let Some(arg) = args.get(next) else {
                    return Ok(());
                };
                check_specifier(names, ty, arg)?;
                next += 1;
                i = behind;
            }
        }
    }
    Ok(())
}

/// Whether a format is one, and prints so many numbers.
fn is_right(format: &[u8], count: usize) -> bool
    ensures { result ≡ (is_format format.now && (length (specifiers (pieces format.now)) == count)) }
{
    is_format(format) && count_specifiers(format) == count
}

/// A print: its arguments, the format, and the arguments' types.
pub(crate) fn check_print<'a, A: Allocator + Copy>(
    names: &ScopeTable<'a, A>,
    format: &'a str,
    span: Span,
    args: &'a [Expr<A>],
) -> Result<(), Violation>
    ensures { unmet_in result ≡ first_unmet (IsTypedPrint (known_in names.now) format.now span (exprs_of args.now)) }
{
    check_numbers(names, args)?;
    let bytes = format.as_bytes();
    let right = is_right(bytes, count_of(args));
    demand(right, Rule::BadFormat, span)?;
    check_specifiers(names, bytes, args)
}
