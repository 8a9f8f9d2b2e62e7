//! Positions among a source's tokens, as far as hints need them.

use lex::token::{Keyword, Kind, Punctuator, Token};

/// The number of the token that begins at an offset.
pub(crate) fn number_at(tokens: &[Token<'_>], offset: usize) -> Option<usize> {
    'tokens: for (number, token) in tokens.iter().enumerate() {
        if token.span.start == offset {
            return Some(number);
        }
    }
    None
}

/// Where the token of a number begins.
pub(crate) fn offset_at(tokens: &[Token<'_>], number: usize) -> usize {
    tokens.get(number).map_or(0, |it| it.span.start)
}

/// The kind of the token at an index.
pub(crate) fn kind_at<'t>(tokens: &[Token<'t>], number: usize) -> Option<Kind<'t>> {
    tokens.get(number).map(|it| it.kind)
}

/// The kind of the token so many before the one at an index.
pub(crate) fn kind_up<'t>(tokens: &[Token<'t>], number: usize, by: usize) -> Option<Kind<'t>> {
    match number.checked_sub(by) {
        Some(before) => kind_at(tokens, before),
        None => None,
    }
}

/// The kind of the token before the one at an index.
pub(crate) fn kind_before<'t>(tokens: &[Token<'t>], number: usize) -> Option<Kind<'t>> {
    kind_up(tokens, number, 1)
}

/// The kind of the token after the one at an index.
pub(crate) fn kind_behind<'t>(tokens: &[Token<'t>], number: usize) -> Option<Kind<'t>> {
    kind_at(tokens, number.saturating_add(1))
}

/// Whether a token is the last word of a type.
pub(crate) fn is_type(kind: Option<Kind<'_>>) -> bool {
    matches!(
        kind,
        Some(Kind::Keyword(
            Keyword::Int | Keyword::Unsigned | Keyword::Signed | Keyword::Long | Keyword::Void
        ))
    )
}

/// Whether a token is a punctuator.
pub(crate) fn is_punctuator(kind: Option<Kind<'_>>, punctuator: Punctuator) -> bool {
    matches!(kind, Some(Kind::Punctuator(other)) if other == punctuator)
}

/// Whether a token is a name.
pub(crate) fn is_name(kind: Option<Kind<'_>>, name: &str) -> bool {
    matches!(kind, Some(Kind::Name(other)) if other == name)
}

/// Whether a token opens a bracket.
fn opens(kind: Kind<'_>) -> bool {
    matches!(
        kind,
        Kind::Punctuator(Punctuator::OpenParen | Punctuator::OpenBracket | Punctuator::OpenBrace)
    )
}

/// Whether a token closes a bracket.
fn closes(kind: Kind<'_>) -> bool {
    matches!(
        kind,
        Kind::Punctuator(Punctuator::CloseParen | Punctuator::CloseBracket | Punctuator::CloseBrace)
    )
}

/// How many brackets are open after a token, if so many are open before it.
fn depth_behind(depth: usize, kind: Kind<'_>) -> usize {
    if opens(kind) {
        depth.saturating_add(1)
    } else if closes(kind) {
        depth.saturating_sub(1)
    } else {
        depth
    }
}

/// The index of the token after the brackets that open at a token.
pub(crate) fn behind_brackets(tokens: &[Token<'_>], open: usize) -> Option<usize> {
    let mut depth = 0usize;
    'tokens: for number in open..tokens.len() {
        depth = depth_behind(depth, tokens[number].kind);
        if depth == 0 {
            return Some(number.saturating_add(1));
        }
    }
    None
}

/// The number of the innermost bracket that is open before a token.
pub(crate) fn open_bracket(tokens: &[Token<'_>], number: usize) -> Option<usize> {
    let mut closed = 0usize;
    'tokens: for at in (0..number.min(tokens.len())).rev() {
        let kind = tokens[at].kind;
        if closes(kind) {
            closed = closed.saturating_add(1);
        } else if opens(kind) {
            if closed == 0 {
                return Some(at);
            }
            closed = closed.saturating_sub(1);
        }
    }
    None
}

/// How many commas are among the tokens from one up to another, outside brackets.
pub(crate) fn commas(tokens: &[Token<'_>], from: usize, to: usize) -> usize {
    let mut depth = 0usize;
    let mut commas = 0usize;
    'tokens: for at in from..to.min(tokens.len()) {
        let kind = tokens[at].kind;
        depth = depth_behind(depth, kind);
        if depth == 0 && is_punctuator(Some(kind), Punctuator::Comma) {
            commas = commas.saturating_add(1);
        }
    }
    commas
}

/// How many parts the bracket that opens at a token has, separated by commas. `void` alone, and nothing, are none,
/// and so is an empty part after the last comma. `None` if the bracket does not close.
pub(crate) fn parts(tokens: &[Token<'_>], open: usize) -> Option<u64> {
    let close = behind_brackets(tokens, open)?.saturating_sub(1);
    let first = open.saturating_add(1);
    let is_last_empty = matches!(
        kind_before(tokens, close),
        Some(Kind::Keyword(Keyword::Void) | Kind::Punctuator(Punctuator::Comma))
    );
    let whole = commas(tokens, first, close) as u64;
    Some(if first == close || is_last_empty {
        whole
    } else {
        whole.saturating_add(1)
    })
}

/// Whether the token at an index declares a name after a type.
pub(crate) fn declares(tokens: &[Token<'_>], number: usize, name: &str) -> bool {
    is_name(kind_at(tokens, number), name) && is_type(kind_before(tokens, number))
}

/// The index of the first token from one on that declares a name after a type.
pub(crate) fn next_declaration(tokens: &[Token<'_>], name: &str, from: usize) -> Option<usize> {
    'tokens: for at in from..tokens.len() {
        if declares(tokens, at, name) {
            return Some(at);
        }
    }
    None
}

/// The index of the last token before one that declares a name after a type.
pub(crate) fn last_declaration(tokens: &[Token<'_>], name: &str, to: usize) -> Option<usize> {
    'tokens: for at in (0..to).rev() {
        if declares(tokens, at, name) {
            return Some(at);
        }
    }
    None
}

/// The declarations of a name found so far in a scope, token by token towards its beginning.
#[derive(Clone, Copy)]
struct Found {
    /// The token that declares it, the first one so far.
    declared: Option<usize>,
    /// The token that declares it after a comma, if it is in a declaration.
    behind_comma: Option<usize>,
}

/// The declarations of a name with one more token before those already searched.
fn found_with(tokens: &[Token<'_>], name: &str, at: usize, found: Found) -> Found {
    let before = kind_before(tokens, at);
    match kind_at(tokens, at) {
        Some(Kind::Punctuator(Punctuator::Semicolon)) => Found {
            behind_comma: None,
            ..found
        },
        Some(Kind::Name(other)) if is_type(before) => Found {
            declared: match found.behind_comma {
                _ if other == name => Some(at),
                Some(behind) => Some(behind),
                None => found.declared,
            },
            behind_comma: None,
        },
        Some(Kind::Name(other)) if other == name && is_punctuator(before, Punctuator::Comma) => {
            Found {
                behind_comma: Some(at),
                ..found
            }
        }
        _ => found,
    }
}

/// The index of the first token that declares a name, from the beginning of a token's scope.
fn first_in_scope(tokens: &[Token<'_>], name: &str, number: usize) -> Option<usize> {
    let mut found = Found {
        declared: None,
        behind_comma: None,
    };
    let mut closed = 0usize;
    'tokens: for at in (0..number.min(tokens.len())).rev() {
        let kind = tokens[at].kind;
        if closes(kind) {
            closed = closed.saturating_add(1);
        } else if opens(kind) {
            if closed == 0 {
                return found.declared;
            }
            closed = closed.saturating_sub(1);
        } else if closed == 0 {
            found = found_with(tokens, name, at, found);
        }
    }
    found.declared
}

/// The number of the token with which a name is first declared, of the innermost scope round a token that declares it.
pub(crate) fn declared(tokens: &[Token<'_>], name: &str, number: usize) -> Option<usize> {
    let mut found = None;
    let mut from = number;
    'scopes: for _ in 0..tokens.len() {
        if let Some(first) = first_in_scope(tokens, name, from) {
            found = Some(first);
        }
        let Some(open) = open_bracket(tokens, from) else {
            return found;
        };
        let before = open.saturating_sub(1);
        // Parameters of a function are declared in the scope of its block.
        let is_body = is_punctuator(kind_at(tokens, open), Punctuator::OpenBrace)
            && is_punctuator(kind_at(tokens, before), Punctuator::CloseParen);
        if found.is_some() && !is_body {
            return found;
        }
        from = if is_body { before } else { open };
    }
    found
}
