//! What could be at a place: the tokens with which `parse` continues.

use lex::token::{Keyword, Kind, Punctuator, Scalar, Span, Token};
use parse::{ParseFault, parse};
use std::alloc::{AllocError, Allocator};

/// A token.
type Candidate = Kind<'static>;

/// The construct that a token is a part of. The token is not listed by itself if the whole construct could be there.
#[derive(Clone, Copy, PartialEq, Eq)]
enum Part {
    Nothing,
    Declaration,
    Statement,
    Expression,
    Assignment,
}

/// Tokens that are listed by their spelling, and what each is a part of.
fn alone() -> &'static [(Candidate, &'static str, Part)] {
    static ROWS: [(Candidate, &'static str, Part); 16] = [
        (
            Kind::Punctuator(Punctuator::Semicolon),
            "';'",
            Part::Statement,
        ),
        (Kind::Punctuator(Punctuator::Comma), "','", Part::Nothing),
        (
            Kind::Punctuator(Punctuator::CloseParen),
            "')'",
            Part::Nothing,
        ),
        (
            Kind::Punctuator(Punctuator::CloseBracket),
            "']'",
            Part::Nothing,
        ),
        (
            Kind::Punctuator(Punctuator::OpenBrace),
            "'{'",
            Part::Statement,
        ),
        (
            Kind::Punctuator(Punctuator::CloseBrace),
            "'}'",
            Part::Nothing,
        ),
        (
            Kind::Punctuator(Punctuator::OpenParen),
            "'('",
            Part::Expression,
        ),
        (
            Kind::Punctuator(Punctuator::OpenBracket),
            "'['",
            Part::Declaration,
        ),
        (Kind::Punctuator(Punctuator::Colon), "':'", Part::Nothing),
        (
            Kind::Punctuator(Punctuator::Assign),
            "'='",
            Part::Assignment,
        ),
        (Kind::Keyword(Keyword::Else), "'else'", Part::Nothing),
        (Kind::Keyword(Keyword::While), "'while'", Part::Statement),
        (Kind::Keyword(Keyword::Long), "'long'", Part::Declaration),
        (Kind::Name("x"), "a name", Part::Expression),
        (Kind::Constant(1, Scalar::Int), "a number", Part::Expression),
        (Kind::StringLiteral("x"), "a string", Part::Nothing),
    ];
    &ROWS
}

/// What a statement may begin with, among other tokens.
fn statements() -> &'static [Candidate] {
    static ROWS: [Candidate; 5] = [
        Kind::Punctuator(Punctuator::Semicolon),
        Kind::Punctuator(Punctuator::OpenBrace),
        Kind::Keyword(Keyword::If),
        Kind::Keyword(Keyword::Return),
        Kind::Keyword(Keyword::Cancel),
    ];
    &ROWS
}

/// What an expression may begin with, among other tokens.
fn expressions() -> &'static [Candidate] {
    static ROWS: [Candidate; 4] = [
        Kind::Name("x"),
        Kind::Constant(1, Scalar::Int),
        Kind::Punctuator(Punctuator::OpenParen),
        Kind::Punctuator(Punctuator::Minus),
    ];
    &ROWS
}

/// Operators between two expressions, among others.
fn operators() -> &'static [Candidate] {
    static ROWS: [Candidate; 4] = [
        Kind::Punctuator(Punctuator::Star),
        Kind::Punctuator(Punctuator::Plus),
        Kind::Punctuator(Punctuator::LogicalOr),
        Kind::Punctuator(Punctuator::Question),
    ];
    &ROWS
}

/// Operators of assignments, among others.
fn assignments() -> &'static [Candidate] {
    static ROWS: [Candidate; 3] = [
        Kind::Punctuator(Punctuator::Assign),
        Kind::Punctuator(Punctuator::AddAssign),
        Kind::Punctuator(Punctuator::Increment),
    ];
    &ROWS
}

/// Types of variables.
fn types() -> &'static [Candidate] {
    static ROWS: [Candidate; 2] = [
        Kind::Keyword(Keyword::Int),
        Kind::Keyword(Keyword::Unsigned),
    ];
    &ROWS
}

/// Why tokens are no program, if they are none.
fn fault_of<A: Allocator + Copy>(alloc: A, tokens: &[Token<'_>]) -> Option<ParseFault> {
    match parse(alloc, tokens) {
        Ok(_) => None,
        Err(fault) => Some(fault),
    }
}

/// Whether some program begins with these tokens and this one. These tokens begin one.
fn goes_on<A: Allocator + Copy>(
    alloc: A,
    tokens: &mut Vec<Token<'_>, A>,
    kind: Candidate,
) -> Result<bool, AllocError> {
    let end = match tokens.as_slice() {
        [.., last] => last.span.end,
        [] => 0,
    };
    tokens.push(Token {
        kind,
        span: Span { start: end, end },
    })?;
    let fault = fault_of(alloc, tokens.as_slice());
    tokens.pop();
    match fault {
        None | Some(ParseFault::TooDeep(_) | ParseFault::Unfinished(_)) => Ok(true),
        Some(ParseFault::Unexpected(_)) => Ok(false),
        Some(ParseFault::OutOfMemory) => Err(AllocError),
    }
}

/// Whether programs continue with each of these tokens.
fn all_go_on<A: Allocator + Copy>(
    alloc: A,
    tokens: &mut Vec<Token<'_>, A>,
    candidates: &[Candidate],
) -> Result<bool, AllocError> {
    'candidates: for candidate in candidates {
        if !goes_on(alloc, tokens, *candidate)? {
            return Ok(false);
        }
    }
    Ok(true)
}

/// Which constructs with many first tokens could follow tokens that begin a program.
#[derive(Clone, Copy)]
struct Groups {
    declaration: bool,
    statement: bool,
    expression: bool,
    assignment: bool,
    operator: bool,
}

/// Which constructs with many first tokens could follow these tokens.
fn groups_behind<A: Allocator + Copy>(
    alloc: A,
    tokens: &mut Vec<Token<'_>, A>,
) -> Result<Groups, AllocError> {
    Ok(Groups {
        declaration: all_go_on(alloc, tokens, types())?,
        statement: all_go_on(alloc, tokens, statements())?,
        expression: all_go_on(alloc, tokens, expressions())?,
        assignment: all_go_on(alloc, tokens, assignments())?,
        operator: all_go_on(alloc, tokens, operators())?,
    })
}

/// Whether the whole construct that a token is a part of could be there.
fn has_whole(groups: Groups, part: Part) -> bool {
    match part {
        Part::Nothing => false,
        Part::Declaration => groups.declaration,
        Part::Statement => groups.statement,
        Part::Expression => groups.expression,
        Part::Assignment => groups.assignment,
    }
}

/// Adds the single tokens that could follow these, except those that are a part of a construct that could.
fn push_alone<A: Allocator + Copy>(
    alloc: A,
    told: &mut Vec<&'static str, A>,
    tokens: &mut Vec<Token<'_>, A>,
    groups: Groups,
) -> Result<(), AllocError> {
    'alone: for (kind, word, part) in alone() {
        if !has_whole(groups, *part) && goes_on(alloc, tokens, *kind)? {
            told.push(*word)?;
        }
    }
    Ok(())
}

/// Adds the constructs that could be there.
fn push_groups<A: Allocator>(
    told: &mut Vec<&'static str, A>,
    groups: Groups,
) -> Result<(), AllocError> {
    let rows = [
        (groups.declaration, "a declaration"),
        (groups.statement, "a statement"),
        (groups.expression && !groups.statement, "an expression"),
        (groups.assignment, "an assignment"),
        (groups.operator, "an operator"),
    ];
    'groups: for (could_stand, word) in rows {
        if could_stand {
            told.push(word)?;
        }
    }
    Ok(())
}

/// What could follow tokens that begin a program, as it is listed: single tokens, then constructs with many
/// first tokens.
pub(crate) fn expected_tokens<A: Allocator + Copy>(
    alloc: A,
    tokens: &mut Vec<Token<'_>, A>,
) -> Result<Vec<&'static str, A>, AllocError> {
    let groups = groups_behind(alloc, tokens)?;
    let mut told: Vec<&'static str, A> = Vec::new(alloc);
    push_alone(alloc, &mut told, tokens, groups)?;
    push_groups(&mut told, groups)?;
    Ok(told)
}

/// What precedes a word of a list, by its number from 0 and by how many words there are.
fn between(number: usize, count: usize) -> &'static str {
    match (number, count.saturating_sub(number)) {
        (0, _) => "expected ",
        (_, 1) => " or ",
        _ => ", ",
    }
}

/// Adds a line that says what is expected, if anything is.
pub(crate) fn push_expected<A: Allocator>(
    to: &mut String<A>,
    words: &[&str],
) -> Result<(), AllocError> {
    'words: for (number, word) in words.iter().enumerate() {
        to.push_str(between(number, words.len()))?;
        to.push_str(word)?;
    }
    if words.is_empty() {
        Ok(())
    } else {
        to.push('\n')
    }
}
