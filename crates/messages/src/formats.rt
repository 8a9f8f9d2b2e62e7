//! Hints for a format that `printf` rejects (C11 7.21.6.1), and for counts.

use crate::lines::Line;
use crate::tokens::{commas, is_punctuator, kind_at, kind_before, kind_up, open_bracket, parts};
use lex::token::{Keyword, Kind, Punctuator, Token};

/// The hint for conversions and for arguments of other types.
pub(crate) const CONVERSIONS: &str =
    "the conversions are %d (int), %u (unsigned) and %lld (long long), with one argument each";

/// Whether a byte may be between the `%` and the last byte of a specifier.
fn is_inside(byte: u8) -> bool {
    matches!(
        byte,
        b' ' | b'-' | b'+' | b'#' | b'.' | b'0'..=b'9' | b'h' | b'l' | b'L' | b'j' | b'z' | b't'
    )
}

/// Where the specifier ends that begins at an offset of a format.
fn specifier_end(format: &[u8], start: usize) -> usize {
    'bytes: for at in start.saturating_add(1)..format.len() {
        if !is_inside(format[at]) {
            return at.saturating_add(1);
        }
    }
    format.len()
}

/// The conversions of a format except `%%`: how many there are, the one of a number, and the first that does not exist
/// in txc.
#[derive(Clone, Copy)]
struct Conversions<'t> {
    count: u64,
    wanted: &'t str,
    unknown: &'t str,
}

/// These conversions of a format and one more of it.
fn with_one<'t>(found: Conversions<'t>, conversion: &'t str, wanted: u64) -> Conversions<'t> {
    let is_unknown = found.unknown.is_empty() && printed(conversion).is_none();
    Conversions {
        count: found.count.saturating_add(1),
        wanted: if found.count == wanted {
            conversion
        } else {
            found.wanted
        },
        unknown: if is_unknown {
            conversion
        } else {
            found.unknown
        },
    }
}

/// Reads a format; the wanted conversion is given by its number, from 0.
fn read_format(format: &str, wanted: u64) -> Conversions<'_> {
    let bytes = format.as_bytes();
    let mut found = Conversions {
        count: 0,
        wanted: "",
        unknown: "",
    };
    let mut next = 0usize;
    'bytes: for (at, byte) in bytes.iter().enumerate() {
        if at >= next && *byte == b'%' {
            next = specifier_end(bytes, at);
            let conversion = format.get(at..next).unwrap_or("%");
            if conversion != "%%" {
                found = with_one(found, conversion, wanted);
            }
        }
    }
    found
}

/// The hint for an argument of another type than the one that a conversion prints.
fn printed(conversion: &str) -> Option<&'static str> {
    match conversion {
        "%d" => Some("%d prints it and needs an int"),
        "%u" => Some("%u prints it and needs an unsigned"),
        "%lld" => Some("%lld prints it and needs a long long"),
        _ => None,
    }
}

/// Whether an unknown conversion is a `%` by itself.
fn is_alone(conversion: &str) -> bool {
    match conversion.as_bytes() {
        [_, b' ', ..] => true,
        [_, second, ..] => !is_inside(*second) && !second.is_ascii_alphabetic(),
        _ => true,
    }
}

/// The hint for an unknown conversion.
fn of_unknown(conversion: &str) -> Line<'_> {
    match conversion {
        "%c" | "%s" => Line::Words("there is no %c or %s: put the characters in the format"),
        _ if is_alone(conversion) => Line::Words("write %% for a percent sign"),
        _ => Line::Named("there is no conversion ", conversion),
    }
}

/// The hint for a format: which conversion does not exist, or how many arguments it needs.
fn of_format<'t>(tokens: &[Token<'_>], number: usize, format: &'t str) -> Option<Line<'t>> {
    let found = read_format(format, 0);
    if !found.unknown.is_empty() {
        return Some(of_unknown(found.unknown));
    }
    // (the format is an argument too)
    let given = parts(tokens, number.saturating_sub(1))?.saturating_sub(1);
    if given == found.count {
        None
    } else {
        Some(Line::Counted((found.count, "conversion"), (given, "argument")))
    }
}

/// The hint for an argument of `printf`, by its first token: which conversion prints it.
fn of_argument(tokens: &[Token<'_>], number: usize) -> Option<Line<'static>> {
    let first = open_bracket(tokens, number)?.saturating_add(1);
    let Some(Kind::StringLiteral(format)) = kind_at(tokens, first) else {
        return None;
    };
    let before = (commas(tokens, first, number) as u64).saturating_sub(1);
    let words = printed(read_format(format, before).wanted)?;
    Some(Line::Words(words))
}

/// The hint for a format or an argument of `printf`, by its first token.
pub(crate) fn of_printed<'t>(tokens: &[Token<'t>], number: usize) -> Option<Line<'t>> {
    match (kind_at(tokens, number), kind_up(tokens, number, 2)) {
        (Some(Kind::StringLiteral(format)), Some(Kind::Keyword(Keyword::Printf))) => {
            of_format(tokens, number, format)
        }
        _ => of_argument(tokens, number),
    }
}

/// The hint for the values of an array, by the first token of one of them: how many cells there are and
/// how many values.
pub(crate) fn of_values(tokens: &[Token<'_>], number: usize) -> Option<Line<'static>> {
    let open = open_bracket(tokens, number)?;
    let is_list = is_punctuator(kind_at(tokens, open), Punctuator::OpenBrace)
        && is_punctuator(kind_before(tokens, open), Punctuator::Assign);
    let given = parts(tokens, open)?;
    match kind_up(tokens, open, 3) {
        Some(Kind::Constant(cells, _)) if is_list => {
            Some(Line::Counted((cells, "cell"), (given, "value")))
        }
        _ => None,
    }
}
