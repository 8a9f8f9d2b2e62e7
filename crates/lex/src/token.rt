//! The tokens of a text, with the bytes that each one covers.

ghost use Rattle.std.specs.Prelude.{◌≡◌};
ghost use Rattle.lex.specs.Tokens as tokens;

/// Bytes of the text, from `start` up to but not including `end`, counted from 0.
#[derive(Clone, Copy, Debug, PartialEq, Eq)]
pub struct Span {
    pub start: usize,
    pub end: usize,
}

/// The type of a number, in two's complement if it is signed (C11 6.2.5).
#[derive(Clone, Copy, PartialEq, Eq)]
pub enum Scalar {
    /// -2147483648 to 2147483647.
    Int,
    /// 0 to 4294967295.
    Unsigned,
    /// `long long`: -9223372036854775808 to 9223372036854775807.
    LongLong,
}

/// A keyword (C11 6.4.1, and the transactions of GNU C).
#[derive(Clone, Copy, PartialEq, Eq)]
pub enum Keyword {
    Int,
    Unsigned,
    Signed,
    Long,
    Void,
    If,
    Else,
    While,
    Do,
    For,
    Break,
    Continue,
    Return,
    Printf,
    /// `__transaction_atomic`
    Atomic,
    /// `__transaction_relaxed`
    Relaxed,
    /// `__transaction_cancel`
    Cancel,
    /// `__attribute__`
    Attribute,
}

/// A punctuator (C11 6.4.6).
#[derive(Clone, Copy, PartialEq, Eq)]
pub enum Punctuator {
    OpenBrace,
    CloseBrace,
    OpenParen,
    CloseParen,
    OpenBracket,
    CloseBracket,
    Semicolon,
    Comma,
    Question,
    Colon,
    Assign,
    AddAssign,
    SubtractAssign,
    MultiplyAssign,
    DivideAssign,
    RemainderAssign,
    ShiftLeftAssign,
    ShiftRightAssign,
    AndAssign,
    OrAssign,
    XorAssign,
    Increment,
    Decrement,
    LogicalOr,
    LogicalAnd,
    Or,
    Xor,
    And,
    Equal,
    NotEqual,
    Less,
    Greater,
    LessEqual,
    GreaterEqual,
    ShiftLeft,
    ShiftRight,
    Plus,
    Minus,
    Star,
    Slash,
    Percent,
    /// `!`
    Not,
    /// `~`
    Complement,
}

/// A token with one spelling only.
#[derive(Clone, Copy, PartialEq, Eq)]
pub enum Fixed {
    Keyword(Keyword),
    Punctuator(Punctuator),
}

/// The kind of a token.
#[derive(Clone, Copy)]
pub enum Kind<'a> {
    Name(&'a str),
    /// A whole number, by its value and its type.
    Constant(u64, Scalar),
    /// A string literal, as it is written between its quotes: an escape is kept as its two characters (C11 6.4.5).
    StringLiteral(&'a str),
    Keyword(Keyword),
    Punctuator(Punctuator),
    /// A reserved word of C that this language's grammar does not use.
    Reserved,
}

/// The kind of a token with one spelling.
pub(crate) fn kind_of<'a>(fixed: Fixed) -> Kind<'a>
    ensures { tokens.terminal result ≡ tokens.fixed fixed }
{
    match fixed {
        Fixed::Keyword(keyword) => Kind::Keyword(keyword),
        Fixed::Punctuator(punctuator) => Kind::Punctuator(punctuator),
    }
}

/// A token, with its span.
#[derive(Clone, Copy)]
pub struct Token<'a> {
    pub kind: Kind<'a>,
    pub span: Span,
}
