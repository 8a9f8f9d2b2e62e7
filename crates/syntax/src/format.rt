//! The directive at an index of a format.

ghost use Rattle.std.specs.Prelude.{◌≡◌, ◌<◌, ◌≤◌, ◌+◌, length, drop, IfSome};
ghost use Rattle.syntax.specs.Formats.{specifier_at};
ghost use Rattle.syntax.specs.FormatDirectives.{IsDirectiveAt};

use lex::token::Scalar;

/// A byte of literal text or a number, and the index after its directive.
pub enum FormatDirective {
    Byte(u8, usize),
    Specifier(Scalar, usize),
}

/// The number specifier at an index after a percent sign: its type, and its length in bytes (C11 7.21.6.1).
fn specifier_at(format: &[u8], i: usize) -> Option<(Scalar, usize)>
    requires { i < length format.now }
    ensures is { result ≡ specifier_at (drop i format.now) }
    ensures fits { IfSome result (λ f. i + f.1 ≤ length format.now) }
{
    let (_, rest) = format.split_at(i);
    match rest {
        [b'd', ..] => Some((Scalar::Int, 1)),
        [b'u', ..] => Some((Scalar::Unsigned, 1)),
        [b'l', b'l', b'd', ..] => Some((Scalar::LongLong, 3)),
        _ => None,
    }
}

/// The directive at an index of a format.
pub fn directive_at(format: &[u8], i: usize) -> FormatDirective
    requires { i < length format.now }
    ensures { IsDirectiveAt result format.now i }
{
    let byte = format[i];
    if byte != b'%' || format.len() - i == 1 {
        return FormatDirective::Byte(byte, i + 1);
    }
    match specifier_at(format, i + 1) {
        Some((ty, count)) => FormatDirective::Specifier(ty, i + 1 + count),
        None => FormatDirective::Byte(format[i + 1], i + 2),
    }
}
