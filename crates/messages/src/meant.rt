//! Hints for an unexpected token: by what it is, and by what precedes it.

use crate::foreign::{of_beginning, of_called, of_foreign, of_reserved};
use crate::tokens::{
    behind_brackets, is_punctuator, is_type, kind_at, kind_before, kind_behind, kind_up, offset_at,
    open_bracket,
};
use lex::token::{Keyword, Kind, Punctuator, Token};

/// The classes of tokens that matter here.
#[derive(Clone, Copy)]
enum Class {
    /// Any token, or none.
    Any,
    Name,
    Number,
    Literal,
    /// The last word of a type.
    Type,
    /// A keyword.
    Word(Keyword),
    /// A punctuator.
    Sign(Punctuator),
    /// An operator between two numbers.
    Operator,
    /// `++`, `--`.
    Step,
    /// An assignment's operator.
    Assignment,
    /// What precedes or follows a statement: `;`, `{`, `}`.
    Border,
}

/// Consecutive tokens, the last of which is unexpected, and its hint.
type Row = ([Class; 4], &'static str);

const ATTRIBUTES: &str =
    "the attributes are transaction_safe, transaction_unsafe and transaction_callable (functions) and outer (transactions)";

const VOID: &str =
    "a variable can't be void: void is a function's return type, or its empty list of parameters";

const LONG: &str = "long is allowed only in long long, which is signed";

const NO_POINTERS: &str = "there are no pointers: return a value, or set a global";

const PARAMETER: &str = "a parameter needs a type (int, unsigned or long long), as in int f(int a)";

const COMPARISONS: &str = "the comparisons are <, >, <=, >=, == and !=";

const ONE_LIST: &str = "an array has one dimension: write its values in one list";

const LENGTH: &str = "an array's length must be a number";

/// Hints for tokens by what precedes them; the first row that fits counts.
fn pairs() -> &'static [Row] {
    use Class::{Any, Border, Literal, Name, Number, Operator, Sign, Type, Word};
    use Keyword::{Attribute, Long, Void};
    use Punctuator::{
        Assign, CloseBracket, Colon, Comma, Greater, Less, Minus, OpenBrace, OpenBracket,
        OpenParen, Star,
    };
    static ROWS: [Row; 26] = [
        (
            [Word(Attribute), Sign(OpenParen), Sign(OpenParen), Any],
            ATTRIBUTES,
        ),
        ([Any, Sign(OpenBracket), Sign(OpenBracket), Any], ATTRIBUTES),
        ([Any, Word(Void), Name, Any], VOID),
        ([Any, Any, Word(Void), Name], VOID),
        ([Any, Any, Border, Word(Void)], VOID),
        ([Type, Name, Sign(OpenParen), Name], PARAMETER),
        ([Type, Name, Sign(Comma), Name], PARAMETER),
        (
            [Any, Name, Sign(OpenParen), Word(Void)],
            "a call without arguments has empty parentheses: f()",
        ),
        (
            [Any, Any, Sign(OpenParen), Word(Void)],
            "a cast is to int, unsigned or long long: an unused value needs no cast",
        ),
        ([Any, Border, Name, Sign(Colon)], "there are no labels"),
        ([Any, Any, Word(Long), Name], "write long long"),
        ([Any, Any, Word(Long), Type], LONG),
        ([Any, Any, Name, Sign(OpenBracket)], "arrays must be global"),
        (
            [Any, Any, Number, Operator],
            "only a number is allowed here: write the result",
        ),
        (
            [Any, Any, Literal, Literal],
            "adjacent strings are not joined: write one string",
        ),
        (
            [Any, Any, Sign(Minus), Sign(Greater)],
            "there are no pointers, and no structs",
        ),
        (
            [Any, Any, Sign(Star), Sign(Star)],
            "there are no pointers, and no power operator",
        ),
        ([Any, Any, Sign(Assign), Sign(Less)], COMPARISONS),
        ([Any, Any, Sign(Assign), Sign(Greater)], COMPARISONS),
        ([Any, Any, Sign(Less), Sign(Less)], COMPARISONS),
        ([Any, Any, Sign(Less), Sign(Greater)], COMPARISONS),
        (
            [Any, Any, Sign(CloseBracket), Sign(OpenBracket)],
            "an array has one dimension: write a[6] for a[2][3], and a[i * 3 + j] for a[i][j]",
        ),
        ([Any, Any, Sign(OpenBracket), Sign(CloseBracket)], LENGTH),
        ([Any, Any, Sign(OpenBracket), Name], LENGTH),
        ([Any, Any, Sign(OpenBrace), Sign(OpenBrace)], ONE_LIST),
        ([Any, Any, Sign(Comma), Sign(OpenBrace)], ONE_LIST),
    ];
    &ROWS
}

/// Hints for a token whatever precedes it.
fn alone() -> &'static [(Class, &'static str)] {
    static ROWS: [(Class, &str); 8] = [
        (Class::Word(Keyword::Long), LONG),
        (
            Class::Literal,
            "a string is allowed only as the first argument of printf",
        ),
        (
            Class::Word(Keyword::Printf),
            "printf is a statement and has no value",
        ),
        (Class::Sign(Punctuator::And), NO_POINTERS),
        (Class::Sign(Punctuator::Star), NO_POINTERS),
        (
            Class::Sign(Punctuator::Comma),
            "there is no comma operator: write two statements",
        ),
        (
            Class::Step,
            "++ and -- are statements and have no value: write one before or after this statement",
        ),
        (
            Class::Assignment,
            "an assignment is a statement and has no value: use == to compare",
        ),
    ];
    &ROWS
}

/// Whether a punctuator is an operator between two numbers.
fn is_operator(punctuator: Punctuator) -> bool {
    matches!(
        punctuator,
        Punctuator::Plus
            | Punctuator::Minus
            | Punctuator::Star
            | Punctuator::Slash
            | Punctuator::Percent
            | Punctuator::ShiftLeft
            | Punctuator::Or
    )
}

/// Whether a punctuator is an assignment's operator.
fn is_assignment(punctuator: Punctuator) -> bool {
    matches!(
        punctuator,
        Punctuator::Assign
            | Punctuator::AddAssign
            | Punctuator::SubtractAssign
            | Punctuator::MultiplyAssign
            | Punctuator::DivideAssign
            | Punctuator::RemainderAssign
    )
}

/// Whether a punctuator is of a class.
fn is_sign_of(punctuator: Punctuator, class: Class) -> bool {
    match class {
        Class::Sign(other) => punctuator == other,
        Class::Operator => is_operator(punctuator),
        Class::Assignment => is_assignment(punctuator),
        Class::Step => matches!(punctuator, Punctuator::Increment | Punctuator::Decrement),
        Class::Border => matches!(
            punctuator,
            Punctuator::Semicolon | Punctuator::OpenBrace | Punctuator::CloseBrace
        ),
        _ => false,
    }
}

/// Whether a token, or none, is of a class.
fn is_of(kind: Option<Kind<'_>>, class: Class) -> bool {
    match (kind, class) {
        (_, Class::Any) => true,
        (_, Class::Type) => is_type(kind),
        (Some(Kind::Name(_)), Class::Name) => true,
        (Some(Kind::Constant(..)), Class::Number) => true,
        (Some(Kind::StringLiteral(_)), Class::Literal) => true,
        (Some(Kind::Keyword(keyword)), Class::Word(other)) => keyword == other,
        (Some(Kind::Punctuator(punctuator)), _) => is_sign_of(punctuator, class),
        _ => false,
    }
}

/// Whether the token of a number and those before it are of these classes.
fn fits(tokens: &[Token<'_>], number: usize, classes: &[Class]) -> bool {
    'classes: for (by, class) in classes.iter().rev().enumerate() {
        if !is_of(kind_up(tokens, number, by), *class) {
            return false;
        }
    }
    true
}

/// The hint for the token at an index by what precedes it.
fn of_pairs(tokens: &[Token<'_>], number: usize) -> Option<&'static str> {
    'rows: for row in pairs() {
        if fits(tokens, number, &row.0) {
            return Some(row.1);
        }
    }
    None
}

/// The hint for a token by itself.
fn of_class(kind: Option<Kind<'_>>) -> Option<&'static str> {
    'rows: for row in alone() {
        if is_of(kind, row.0) {
            return Some(row.1);
        }
    }
    None
}

/// The token before the bracket that is closed by the token before the one at an index.
pub(crate) fn called_before<'t>(tokens: &[Token<'t>], number: usize) -> Option<Kind<'t>> {
    let closing = number.checked_sub(1)?;
    if !is_punctuator(kind_at(tokens, closing), Punctuator::CloseParen) {
        return None;
    }
    kind_before(tokens, open_bracket(tokens, closing)?)
}

/// Whether the innermost bracket that is open before a token is this one.
fn is_within(tokens: &[Token<'_>], number: usize, bracket: Punctuator) -> bool {
    match open_bracket(tokens, number) {
        Some(open) => is_punctuator(kind_at(tokens, open), bracket),
        None => false,
    }
}

/// The hint for the brace at an index, by what precedes the bracket before it.
fn of_body(tokens: &[Token<'_>], number: usize) -> Option<&'static str> {
    if !is_punctuator(kind_at(tokens, number), Punctuator::OpenBrace) {
        return None;
    }
    match called_before(tokens, number)? {
        Kind::Name("elif" | "elseif" | "elsif") => Some("write else if"),
        Kind::Name(_) if open_bracket(tokens, number).is_none() => {
            Some("a parameter needs a type and a name, as in int f(int a) { .. }")
        }
        Kind::Keyword(Keyword::Atomic) => Some(
            "a transaction has no condition: put an if inside its block, or around it",
        ),
        _ => None,
    }
}

/// Whether the token of a number begins a statement or a declaration, or a text.
fn is_first(tokens: &[Token<'_>], number: usize) -> bool {
    match kind_before(tokens, number) {
        None => true,
        before => is_of(before, Class::Border),
    }
}

/// The hint for the token at an index by the prefix of its name, if a declaration may begin there.
fn of_first(tokens: &[Token<'_>], number: usize) -> Option<&'static str> {
    if is_first(tokens, number) {
        of_beginning(tokens, kind_at(tokens, number))
    } else {
        None
    }
}

/// The hint for the token at an index if it is the name of a function without a type.
fn of_untyped(tokens: &[Token<'_>], number: usize) -> Option<&'static str> {
    let is_called = is_of(kind_at(tokens, number), Class::Name)
        && is_punctuator(kind_behind(tokens, number), Punctuator::OpenParen);
    if !is_called || !is_first(tokens, number) || open_bracket(tokens, number).is_some() {
        return None;
    }
    let behind = behind_brackets(tokens, number.saturating_add(1))?;
    if is_punctuator(kind_at(tokens, behind), Punctuator::OpenBrace) {
        Some("a function needs a return type, or void, in front, as in int f(int a) { .. }")
    } else {
        None
    }
}

/// The hint for an address or a type among the arguments of a call, by the name of the function.
fn of_argument(tokens: &[Token<'_>], number: usize) -> Option<&'static str> {
    let kind = kind_at(tokens, number);
    let is_asked = is_punctuator(kind, Punctuator::And) || is_type(kind);
    if !is_asked || !is_within(tokens, number, Punctuator::OpenParen) {
        return None;
    }
    of_called(tokens, kind_before(tokens, open_bracket(tokens, number)?))
}

/// Whether the token at an index and the next one are colons.
fn has_colons(tokens: &[Token<'_>], number: usize) -> bool {
    is_punctuator(kind_at(tokens, number), Punctuator::Colon)
        && is_punctuator(kind_behind(tokens, number), Punctuator::Colon)
}

/// Whether the token at an index is one of two colons, or precedes them.
fn is_scoped(tokens: &[Token<'_>], number: usize) -> bool {
    has_colons(tokens, number.saturating_sub(1))
        || has_colons(tokens, number)
        || has_colons(tokens, number.saturating_add(1))
}

/// Whether the token at an index is the bracket after a function's name, within another function.
fn is_inner_function(tokens: &[Token<'_>], number: usize) -> bool {
    is_punctuator(kind_at(tokens, number), Punctuator::OpenParen)
        && matches!(kind_before(tokens, number), Some(Kind::Name(_)))
        && is_type(kind_up(tokens, number, 2))
        && is_within(tokens, number, Punctuator::OpenBrace)
}

/// Whether the token of a number assigns a second time in its statement.
fn assigns_twice(tokens: &[Token<'_>], number: usize) -> bool {
    if !is_of(kind_at(tokens, number), Class::Assignment) {
        return false;
    }
    'tokens: for at in (0..number.min(tokens.len())).rev() {
        let kind = Some(tokens[at].kind);
        if is_of(kind, Class::Border) || is_punctuator(kind, Punctuator::OpenParen) {
            return false;
        }
        if is_of(kind, Class::Assignment) {
            return true;
        }
    }
    false
}

/// Whether a token may end a statement except for its `;`.
fn may_end(kind: Option<Kind<'_>>) -> bool {
    matches!(
        kind,
        Some(
            Kind::Name(_)
                | Kind::Constant(..)
                | Kind::Punctuator(Punctuator::CloseParen | Punctuator::CloseBracket)
        )
    )
}

/// Whether the token at an index begins a line, and the one before it may end a statement: then the likely mistake is
/// before it.
fn begins_line(text: &str, tokens: &[Token<'_>], number: usize) -> bool {
    let before = number.saturating_sub(1);
    let end = tokens.get(before).map_or(0, |it| it.span.end);
    let between = text.get(end..offset_at(tokens, number)).unwrap_or("");
    may_end(kind_at(tokens, before)) && between.contains('\n')
}

/// The hint for an unexpected token, the one at an index.
pub(crate) fn of_token(text: &str, tokens: &[Token<'_>], number: usize) -> Option<&'static str> {
    let kind = kind_at(tokens, number);
    // If an index is not closed before `=`, its bracket is missing rather than a comparison.
    if is_punctuator(kind, Punctuator::Assign)
        && is_within(tokens, number, Punctuator::OpenBracket)
    {
        return None;
    }
    if is_inner_function(tokens, number) {
        return Some("functions do not nest: a } may be missing before this one");
    }
    if assigns_twice(tokens, number) {
        return Some("an assignment is a statement and has no value: write one for each variable");
    }
    if let Some(Kind::Reserved) = kind {
        let span = tokens.get(number)?.span;
        return Some(of_reserved(text.get(span.start..span.end).unwrap_or("")));
    }
    if is_scoped(tokens, number) {
        return Some("there is no ::, and printf is the only function of C's library");
    }
    let told = [
        of_body(tokens, number),
        of_foreign(tokens, kind),
        of_foreign(tokens, kind_before(tokens, number)),
        of_argument(tokens, number),
        of_pairs(tokens, number),
        of_first(tokens, number),
        of_untyped(tokens, number),
    ];
    'told: for words in told {
        if words.is_some() {
            return words;
        }
    }
    if begins_line(text, tokens, number) {
        None
    } else {
        of_class(kind)
    }
}
