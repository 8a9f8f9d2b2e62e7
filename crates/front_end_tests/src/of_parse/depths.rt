//! How deep a program may be, and how long.

use crate::asserted::{assert_all, assert_none, assert_that};
use crate::large::{LargeRow, fault_in, faulty_large};
use crate::of_parse::trees::{Shape, has_shape};
use crate::stages::Stage;
use lex::lex;
use lex::token::{Span, Token};
use parse::parse;
use std::alloc::{AllocError, Global};
use test_programs::{Piece, text_of};

/// Whether the tree of pieces is what it is to be.
fn has_shape_in(alloc: Global, pieces: &[Piece], shape: Shape) -> bool {
    match text_of(alloc, pieces) {
        Ok(text) => has_shape(alloc, text.as_str(), shape),
        Err(_) => false,
    }
}

/// Whether pieces are too deep.
fn is_too_deep(alloc: Global, pieces: &[Piece]) -> bool {
    matches!(fault_in(alloc, Stage::Parse, pieces), Some(Some((11, _))))
}

/// A worker with a declaration whose first value stands in so many pairs of parentheses, of which this opens each.
fn nested_parens(open: &'static str, pairs: u32) -> [Piece; 5] {
    [
        Piece::Times("void worker(int self) { int a = ", 1),
        Piece::Times(open, pairs),
        Piece::Times("1", 1),
        Piece::Times(")", pairs),
        Piece::Times("; }", 1),
    ]
}

#[test]
fn a_program_may_be_100_deep(rt: HostRuntime) {
    let one = Span {
        start: 130,
        end: 131,
    };
    let deep = has_shape_in(rt.alloc(), &nested_parens("(", 97), Shape::Depth(100));
    let deeper = fault_in(rt.alloc(), Stage::Parse, &nested_parens("(", 98));
    let atomic = nested_parens("__transaction_atomic (", 97);
    let relaxed = nested_parens("__transaction_relaxed (", 98);
    assert_all(
        &rt,
        &[
            ("100", deep),
            ("101", deeper == Some(Some((11, Some(one))))),
            (
                "100 by transactions",
                has_shape_in(rt.alloc(), &atomic, Shape::Depth(100)),
            ),
            ("101 by transactions", is_too_deep(rt.alloc(), &relaxed)),
        ],
    );
}

/// A worker with so many blocks in one another.
fn blocks(times: u32) -> [Piece; 4] {
    [
        Piece::Times("void worker(int self) { ", 1),
        Piece::Times("{ ", times),
        Piece::Times("} ", times),
        Piece::Times("}", 1),
    ]
}

#[test]
fn blocks_may_be_100_deep(rt: HostRuntime) {
    let deep = fault_in(rt.alloc(), Stage::Parse, &blocks(99));
    let deeper = is_too_deep(rt.alloc(), &blocks(100));
    assert_all(&rt, &[("100", deep == Some(None)), ("101", deeper)]);
}

#[test]
fn a_long_chain_is_too_deep(rt: HostRuntime) {
    let chain = [
        Piece::Times("void worker(int self) { a = 1", 1),
        Piece::Times(" + 1", 1000),
        Piece::Times("; }", 1),
    ];
    assert_that(&rt, is_too_deep(rt.alloc(), &chain));
}

#[test]
fn a_block_may_be_long(rt: HostRuntime) {
    let block = [
        Piece::Times("void worker(int self) { ", 1),
        Piece::Times("a = b[1]; ", 10000),
        Piece::Times("}", 1),
    ];
    let long = has_shape_in(rt.alloc(), &block, Shape::Statements(10000));
    assert_that(&rt, long);
}

/// Parts of a program that may stand in it as often as a text has room for. The rows stand in a function, so that no
/// proof but its own looks at them.
fn long() -> &'static [LargeRow] {
    static ROWS: [LargeRow; 7] = [
        (
            "statements",
            &[
                Piece::Times("void worker(int self) { ", 1),
                Piece::Times(";", 100000),
                Piece::Times("}", 1),
            ],
        ),
        (
            "arguments of a call",
            &[
                Piece::Times("void worker(int self) { f(1", 1),
                Piece::Times(",1", 100000),
                Piece::Times("); }", 1),
            ],
        ),
        (
            "declarators of a declaration",
            &[
                Piece::Times("void worker(int self) { int a", 1),
                Piece::Times(",a", 100000),
                Piece::Times("; }", 1),
            ],
        ),
        (
            "first values of an array",
            &[
                Piece::Times("int a[1] = {1", 1),
                Piece::Times(",1", 100000),
                Piece::Times("};", 1),
            ],
        ),
        (
            "parameters",
            &[
                Piece::Times("void f(int", 1),
                Piece::Times(",int", 100000),
                Piece::Times(");", 1),
            ],
        ),
        (
            "globals of a declaration",
            &[
                Piece::Times("int a", 1),
                Piece::Times(",a", 100000),
                Piece::Times(";", 1),
            ],
        ),
        ("items", &[Piece::Times("int a;", 100000)]),
    ];
    &ROWS
}

#[test]
fn no_list_is_too_long(rt: HostRuntime) {
    assert_none(&rt, faulty_large(rt.alloc(), Stage::Parse, long()));
}

/// Appends tokens so many times.
fn extend_times<'a>(
    to: &mut Vec<Token<'a>>,
    tokens: &[Token<'a>],
    times: usize,
) -> Result<(), AllocError> {
    for _ in 0..times {
        to.extend_from_slice(tokens)?;
    }
    Ok(())
}

/// A text, and how often its tokens stand there.
type Tokens<'a> = (&'a str, usize);

/// Appends the tokens of a text, which stand where they do in it.
fn push_tokens<'a>(
    alloc: Global,
    to: &mut Vec<Token<'a>>,
    piece: &Tokens<'a>,
) -> Result<(), AllocError> {
    let (text, times) = *piece;
    match lex(alloc, text) {
        Ok(tokens) => extend_times(to, tokens.as_slice(), times),
        Err(_) => Err(AllocError),
    }
}

/// The tokens of texts.
fn tokens_of<'a>(alloc: Global, pieces: &[Tokens<'a>]) -> Result<Vec<Token<'a>>, AllocError> {
    let mut tokens = Vec::new(alloc);
    for piece in pieces {
        push_tokens(alloc, &mut tokens, piece)?;
    }
    Ok(tokens)
}

/// Whether the tokens of texts have no fault.
fn are_accepted(alloc: Global, pieces: &[Tokens]) -> bool {
    match tokens_of(alloc, pieces) {
        Ok(tokens) => parse(alloc, tokens.as_slice()).is_ok(),
        Err(_) => false,
    }
}

/// More attributes than a text has room for.
#[test]
fn no_list_of_attributes_is_too_long(rt: HostRuntime) {
    let head = [
        ("[[transaction_safe", 1),
        (",transaction_safe", 100_000),
        ("]] void f(void);", 1),
    ];
    assert_that(&rt, are_accepted(rt.alloc(), &head));
}
