//! Each call once with ample memory, each fault with its span, and a refused growth.

use crate::asserted::{assert_all, assert_growths, assert_none};
use lex::token::{Keyword, Kind, Scalar, Span, Token};
use lex::{lex, place, unescape};
use std::alloc::{Allocator, Global};
use test_memory::{Refusing, growths};

/// A text, the number of its fault, and where the fault's span starts and ends.
type Refused<'a> = (&'a str, u32, usize, usize);

/// Whether a text is refused so.
pub fn is_refused(alloc: Global, row: &Refused) -> bool {
    match lex(alloc, row.0) {
        Ok(_) => false,
        Err(fault) => {
            let span = Span {
                start: row.2,
                end: row.3,
            };
            fault.number() == row.1 && fault.span() == Some(span)
        }
    }
}

/// The first of these texts that is not refused so.
fn refused_otherwise(alloc: Global, rows: &[Refused<'static>]) -> Option<&'static str> {
    for row in rows {
        if !is_refused(alloc, row) {
            return Some(row.0);
        }
    }
    None
}

/// Whether a token stands at a place.
fn stands_at(token: &Token, place: &(usize, usize)) -> bool {
    token.span.start == place.0 && token.span.end == place.1
}

/// Whether tokens stand at these places.
fn are_at(tokens: &[Token], places: &[(usize, usize)]) -> bool {
    for (token, place) in tokens.iter().zip(places) {
        if !stands_at(token, place) {
            return false;
        }
    }
    tokens.len() == places.len()
}

/// Whether the text's tokens stand at these places.
pub fn stand_at(alloc: Global, text: &str, places: &[(usize, usize)]) -> bool {
    match lex(alloc, text) {
        Ok(tokens) => are_at(tokens.as_slice(), places),
        Err(_) => false,
    }
}

/// Whether these are the tokens of `#include <stdio.h>`, and below it `int x=0x1FU;// c` and `char "a\n"`.
fn are_told(tokens: &[Token]) -> bool {
    let int = matches!(
        tokens.get(0),
        Some(Token {
            kind: Kind::Keyword(Keyword::Int),
            ..
        })
    );
    let name = matches!(
        tokens.get(1),
        Some(Token {
            kind: Kind::Name("x"),
            span: Span { start: 23, end: 24 }
        })
    );
    let constant = matches!(
        tokens.get(3),
        Some(Token {
            kind: Kind::Constant(31, Scalar::Unsigned),
            ..
        })
    );
    let char = matches!(
        tokens.get(5),
        Some(Token {
            kind: Kind::Reserved,
            ..
        })
    );
    let string = matches!(
        tokens.get(6),
        Some(Token {
            kind: Kind::StringLiteral("a\\n"),
            ..
        })
    );
    int && name && constant && char && string && tokens.len() == 7
}

/// Whether a text's tokens are those of `are_told`.
fn tells_them(alloc: Global, text: &str) -> bool {
    match lex(alloc, text) {
        Ok(tokens) => are_told(tokens.as_slice()),
        Err(_) => false,
    }
}

#[test]
fn tokens_say_what_they_are(rt: HostRuntime) {
    let text = "#include <stdio.h>\nint x=0x1FU;// c\nchar \"a\\n\"";
    assert_all(&rt, &[(text, tells_them(rt.alloc(), text))]);
}

/// A text, and the places of its tokens.
type Row = (&'static str, &'static [(usize, usize)]);

/// The first of these texts whose tokens stand at other places.
fn stand_otherwise(alloc: Global, rows: &[Row]) -> Option<&'static str> {
    for row in rows {
        if !stand_at(alloc, row.0, row.1) {
            return Some(row.0);
        }
    }
    None
}

fn punctuators() -> &'static [Row] {
    static ROWS: [Row; 3] = [
        ("a>>=b", &[(0, 1), (1, 4), (4, 5)]),
        ("a>> =b", &[(0, 1), (1, 3), (4, 5), (5, 6)]),
        ("a+++b", &[(0, 1), (1, 3), (3, 4), (4, 5)]),
    ];
    &ROWS
}

#[test]
fn the_longest_punctuator_comes_first(rt: HostRuntime) {
    assert_none(&rt, stand_otherwise(rt.alloc(), punctuators()));
}

fn gap_rows() -> &'static [Row] {
    static ROWS: [Row; 2] = [
        (
            "/***/a/*/*/b//c\n\t# include /* x\nd",
            &[(5, 6), (11, 12), (32, 33)],
        ),
        ("a//*\nb/**/c", &[(0, 1), (5, 6), (10, 11)]),
    ];
    &ROWS
}

#[test]
fn comments_and_lines_of_include_are_skipped(rt: HostRuntime) {
    assert_none(&rt, stand_otherwise(rt.alloc(), gap_rows()));
}

fn bad() -> &'static [Refused<'static>] {
    static ROWS: [Refused<'static>; 25] = [
        ("int @", 1, 4, 5),
        ("08", 1, 1, 2),
        ("0x", 1, 1, 2),
        ("1ul", 1, 2, 3),
        ("1.5", 1, 1, 2),
        ("1l", 1, 1, 2),
        ("1L", 1, 1, 2),
        ("1lL", 1, 1, 2),
        ("1Ll", 1, 1, 2),
        ("1lu", 1, 1, 2),
        ("1ull", 1, 2, 3),
        ("1uLL", 1, 2, 3),
        ("1uu", 1, 2, 3),
        ("1llu", 1, 3, 4),
        ("1LLU", 1, 3, 4),
        ("1lll", 1, 3, 4),
        ("1ll1", 1, 3, 4),
        ("1LL.5", 1, 3, 4),
        ("08ll", 1, 1, 2),
        ("0xll", 1, 1, 2),
        ("0x1lLL", 1, 3, 4),
        ("2147483648l", 1, 10, 11),
        ("\u{feff}int", 1, 0, 3),
        ("/* c */ #include <a>", 1, 8, 9),
        ("x #include", 1, 2, 3),
    ];
    &ROWS
}

#[test]
fn bad_characters(rt: HostRuntime) {
    assert_none(&rt, refused_otherwise(rt.alloc(), bad()));
}

fn too_large() -> &'static [Refused<'static>] {
    static ROWS: [Refused<'static>; 33] = [
        ("x = 9223372036854775808;", 2, 4, 23),
        ("18446744073709551616", 2, 0, 20),
        ("9223372036854775808ll", 2, 0, 21),
        ("0x8000000000000000", 2, 0, 18),
        ("0x8000000000000000LL", 2, 0, 20),
        ("0xffffffffffffffffffffffffffffffffffff", 2, 0, 38),
        ("01000000000000000000000", 2, 0, 23),
        ("01000000000000000000000ll", 2, 0, 25),
        ("4294967296u", 2, 0, 11),
        ("0x100000000U", 2, 0, 12),
        ("040000000000u", 2, 0, 13),
        ("9223372036854775807u", 2, 0, 20),
        ("9223372036854775808", 2, 0, 19),
        ("9223372036854775809", 2, 0, 19),
        ("4294967297u", 2, 0, 11),
        ("9223372036854775808u", 2, 0, 20),
        ("9223372036854775809U", 2, 0, 20),
        ("9223372036854775809ll", 2, 0, 21),
        ("0X8000000000000001", 2, 0, 18),
        ("0X100000001U", 2, 0, 12),
        ("0x7fffffffffffffffu", 2, 0, 19),
        ("0x8000000000000000U", 2, 0, 19),
        ("0X8000000000000001u", 2, 0, 19),
        ("0X8000000000000001LL", 2, 0, 20),
        ("01000000000000000000001", 2, 0, 23),
        ("040000000001u", 2, 0, 13),
        ("0777777777777777777777U", 2, 0, 23),
        ("01000000000000000000000u", 2, 0, 24),
        ("01000000000000000000001U", 2, 0, 24),
        ("01000000000000000000001ll", 2, 0, 25),
        // what is glued to a constant that is too large is no matter
        ("99999999999999999999x", 2, 0, 20),
        ("9223372036854775808l", 2, 0, 19),
        ("4294967296ull", 2, 0, 11),
    ];
    &ROWS
}

fn largest() -> &'static [Row] {
    static ROWS: [Row; 1] = [(
        "2147483647 4294967295U 037777777777 0 9223372036854775807 0x7FFFFFFFFFFFFFFFll 0777777777777777777777LL",
        &[
            (0, 10),
            (11, 22),
            (23, 35),
            (36, 37),
            (38, 57),
            (58, 78),
            (79, 103),
        ],
    )];
    &ROWS
}

#[test]
fn constants_too_large(rt: HostRuntime) {
    assert_none(&rt, refused_otherwise(rt.alloc(), too_large()));
    assert_none(&rt, stand_otherwise(rt.alloc(), largest()));
}

/// A constant, its value and its type.
type Typed = (&'static str, u64, Scalar);

/// Whether a token is a constant of this value and type.
fn is_constant(token: &Token, value: u64, ty: Scalar) -> bool {
    match token.kind {
        Kind::Constant(found, found_ty) => found == value && found_ty == ty,
        _ => false,
    }
}

/// Whether a text is this constant alone.
fn is_typed(alloc: Global, row: &Typed) -> bool {
    match lex(alloc, row.0) {
        Ok(tokens) => match tokens.as_slice() {
            [token] => is_constant(token, row.1, row.2),
            _ => false,
        },
        Err(_) => false,
    }
}

/// The first of these constants that has another value or another type.
fn typed_otherwise(alloc: Global, rows: &[Typed]) -> Option<&'static str> {
    for row in rows {
        if !is_typed(alloc, row) {
            return Some(row.0);
        }
    }
    None
}

fn constant_rows() -> &'static [Typed] {
    static ROWS: [Typed; 59] = [
        ("0", 0, Scalar::Int),
        ("0u", 0, Scalar::Unsigned),
        ("0ll", 0, Scalar::LongLong),
        ("1LL", 1, Scalar::LongLong),
        ("2147483647", 2147483647, Scalar::Int),
        ("2147483648", 2147483648, Scalar::LongLong),
        ("4294967295", 4294967295, Scalar::LongLong),
        ("4294967296", 4294967296, Scalar::LongLong),
        ("9223372036854775807", 9223372036854775807, Scalar::LongLong),
        ("2147483647u", 2147483647, Scalar::Unsigned),
        ("2147483648U", 2147483648, Scalar::Unsigned),
        ("4294967295u", 4294967295, Scalar::Unsigned),
        ("2147483647ll", 2147483647, Scalar::LongLong),
        ("2147483648LL", 2147483648, Scalar::LongLong),
        ("4294967296ll", 4294967296, Scalar::LongLong),
        (
            "9223372036854775807LL",
            9223372036854775807,
            Scalar::LongLong,
        ),
        ("0x7fffffff", 2147483647, Scalar::Int),
        ("0x80000000", 2147483648, Scalar::Unsigned),
        ("0XFFFFFFFF", 4294967295, Scalar::Unsigned),
        ("0x100000000", 4294967296, Scalar::LongLong),
        ("0x7fffffffffffffff", 9223372036854775807, Scalar::LongLong),
        ("0x7fffffffu", 2147483647, Scalar::Unsigned),
        ("0xffffffffU", 4294967295, Scalar::Unsigned),
        ("0x0ll", 0, Scalar::LongLong),
        ("0x80000000LL", 2147483648, Scalar::LongLong),
        (
            "0X7FFFFFFFFFFFFFFFll",
            9223372036854775807,
            Scalar::LongLong,
        ),
        ("017777777777", 2147483647, Scalar::Int),
        ("020000000000", 2147483648, Scalar::Unsigned),
        ("037777777777", 4294967295, Scalar::Unsigned),
        ("040000000000", 4294967296, Scalar::LongLong),
        (
            "0777777777777777777777",
            9223372036854775807,
            Scalar::LongLong,
        ),
        ("017777777777u", 2147483647, Scalar::Unsigned),
        ("037777777777U", 4294967295, Scalar::Unsigned),
        ("037777777777LL", 4294967295, Scalar::LongLong),
        (
            "0777777777777777777777ll",
            9223372036854775807,
            Scalar::LongLong,
        ),
        // neighbours of 2^31, 2^32 and 2^63 in each form
        ("2147483649", 2147483649, Scalar::LongLong),
        ("4294967297", 4294967297, Scalar::LongLong),
        ("2147483649U", 2147483649, Scalar::Unsigned),
        ("2147483649ll", 2147483649, Scalar::LongLong),
        ("4294967295LL", 4294967295, Scalar::LongLong),
        ("4294967297LL", 4294967297, Scalar::LongLong),
        ("0X80000001", 2147483649, Scalar::Unsigned),
        ("0X100000001", 4294967297, Scalar::LongLong),
        ("0x80000000U", 2147483648, Scalar::Unsigned),
        ("0X80000001u", 2147483649, Scalar::Unsigned),
        ("0x7fffffffLL", 2147483647, Scalar::LongLong),
        ("0X80000001LL", 2147483649, Scalar::LongLong),
        ("0xffffffffll", 4294967295, Scalar::LongLong),
        ("0x100000000LL", 4294967296, Scalar::LongLong),
        ("0X100000001ll", 4294967297, Scalar::LongLong),
        ("020000000001", 2147483649, Scalar::Unsigned),
        ("040000000001", 4294967297, Scalar::LongLong),
        ("020000000000u", 2147483648, Scalar::Unsigned),
        ("020000000001U", 2147483649, Scalar::Unsigned),
        ("017777777777ll", 2147483647, Scalar::LongLong),
        ("020000000000LL", 2147483648, Scalar::LongLong),
        ("020000000001ll", 2147483649, Scalar::LongLong),
        ("040000000000ll", 4294967296, Scalar::LongLong),
        ("040000000001LL", 4294967297, Scalar::LongLong),
    ];
    &ROWS
}

#[test]
fn a_constant_has_the_first_type_that_holds_it(rt: HostRuntime) {
    assert_none(&rt, typed_otherwise(rt.alloc(), constant_rows()));
}

fn open() -> &'static [Refused<'static>] {
    static ROWS: [Refused<'static>; 8] = [
        ("a /* b", 3, 2, 6),
        ("/*/", 3, 0, 3),
        (" \"a\nb\"", 4, 1, 2),
        ("\"\\x\"", 4, 0, 1),
        ("\"a", 4, 0, 1),
        ("a\n \t#define A 1", 6, 4, 5),
        ("#includes", 6, 0, 1),
        ("#", 6, 0, 1),
    ];
    &ROWS
}

#[test]
fn open_comments_bad_strings_and_directives(rt: HostRuntime) {
    assert_none(&rt, refused_otherwise(rt.alloc(), open()));
}

/// Whether the text without its escapes is this; none where memory is refused.
fn becomes<A: Allocator + Copy>(alloc: A, text: &str, wanted: &str) -> Option<bool> {
    match unescape(alloc, text) {
        Ok(found) => Some(found.as_str() == wanted),
        Err(_) => None,
    }
}

/// Whether memory is refused where an escape is sought, and then not.
fn is_refused_once(alloc: &Refusing<Global>) -> bool {
    becomes(alloc, "a", "a").is_none() && becomes(alloc, "a", "a") == Some(true)
}

#[test]
fn an_escape_is_one_character(rt: HostRuntime) {
    let found = becomes(rt.alloc(), "a\\n\\t\\\\\\\"n\u{e4}", "a\n\t\\\"n\u{e4}");
    let alloc = Refusing::new(rt.alloc(), 1);
    assert_all(
        &rt,
        &[
            ("with memory", found == Some(true)),
            ("refused once", is_refused_once(&alloc)),
        ],
    );
}

#[test]
fn a_place_is_a_line_and_a_column_in_bytes(rt: HostRuntime) {
    let text = "a\n/* \u{e4} */ b\r\nc";
    assert_all(
        &rt,
        &[
            ("the first", place(text, 0) == (1, 1)),
            ("of the line's end", place(text, 1) == (1, 2)),
            ("of the next line", place(text, 2) == (2, 1)),
            ("behind two bytes", place(text, 11) == (2, 10)),
            ("of the text's end", place(text, text.len()) == (3, 2)),
        ],
    );
}

/// The number of a text's tokens; of its fault the number and the span.
fn count<A: Allocator + Copy>(alloc: A, text: &str) -> Result<usize, (u32, Option<Span>)> {
    match lex(alloc, text) {
        Ok(tokens) => Ok(tokens.len()),
        Err(fault) => Err((fault.number(), fault.span())),
    }
}

/// Whether growth `nth` is told as out of memory where it is refused, so that the next call has the tokens.
fn tells(alloc: &Refusing<Global>, nth: u64) -> bool {
    alloc.refuse(nth);
    let text = "int x; void worker(int self) { x = x + 1; }";
    match count(alloc, text) {
        Ok(tokens) => alloc.is_waiting() && tokens == 17,
        Err(fault) => fault == (0, None) && count(alloc, text) == Ok(17),
    }
}

#[test]
fn a_refused_growth_is_out_of_memory(rt: HostRuntime) {
    assert_growths(&rt, growths(rt.alloc(), 100, tells), 1);
}
