//! What a first token leads to.

ghost use Rattle.std.specs.Prelude.{◌≡◌};
ghost use Rattle.lex.specs.Tokens.{toks};
ghost use Rattle.syntax.specs.Grammar.{binary_of, logical_of, mode_keyword};
ghost use Rattle.parse.specs.inner.Reading.{head};
ghost use Rattle.parse.specs.inner.Expressions.{infix_of, infix_precedence, operand_at};
ghost use Rattle.parse.specs.inner.Statements.{lead_fixed, lead_at};

use lex::token::{Fixed, Keyword, Kind, Punctuator, Token};
use syntax::tree::{BinaryOp, LogicalOp, Mode};

/// An operator between two operands.
#[derive(Clone, Copy)]
pub enum Infix {
    Computing(BinaryOp),
    Choosing(LogicalOp),
}

/// What kind of operand a token begins.
#[derive(Clone, Copy)]
pub enum Operand {
    Name,
    Constant,
    /// `(`: a cast, or an expression in parentheses.
    Open,
    /// An operator before its operand.
    Prefix,
    /// `__transaction_atomic` or `__transaction_relaxed`: an expression that is a transaction.
    Transaction(Mode),
    None,
}

/// What kind of statement a token begins.
#[derive(Clone, Copy)]
pub enum Lead {
    Empty,
    Block,
    Print,
    If,
    While,
    Do,
    For,
    Break,
    Continue,
    Return,
    /// `__transaction_atomic` or `__transaction_relaxed`: a transaction, or an expression that begins with one, as the
    /// next token says.
    Transaction(Mode),
    Cancel,
    /// An expression or an assignment, if anything.
    Simple,
}

/// The kind of statement that a keyword or punctuator begins.
fn lead_fixed(fixed: Fixed) -> Lead
    ensures { result ≡ lead_fixed fixed }
{
    match fixed {
        Fixed::Punctuator(Punctuator::Semicolon) => Lead::Empty,
        Fixed::Punctuator(Punctuator::OpenBrace) => Lead::Block,
        Fixed::Keyword(Keyword::Printf) => Lead::Print,
        Fixed::Keyword(Keyword::If) => Lead::If,
        Fixed::Keyword(Keyword::While) => Lead::While,
        Fixed::Keyword(Keyword::Do) => Lead::Do,
        Fixed::Keyword(Keyword::For) => Lead::For,
        Fixed::Keyword(Keyword::Break) => Lead::Break,
        Fixed::Keyword(Keyword::Continue) => Lead::Continue,
        Fixed::Keyword(Keyword::Return) => Lead::Return,
        Fixed::Keyword(Keyword::Atomic) => Lead::Transaction(Mode::Atomic),
        Fixed::Keyword(Keyword::Relaxed) => Lead::Transaction(Mode::Relaxed),
        Fixed::Keyword(Keyword::Cancel) => Lead::Cancel,
        _ => Lead::Simple,
    }
}

/// The kind of statement that the first token begins.
pub fn lead_at(tokens: &[Token]) -> Lead
    ensures { result ≡ lead_at (head (toks tokens.now)) }
{
    match tokens {
        [first, ..] => match first.kind {
            Kind::Keyword(keyword) => lead_fixed(Fixed::Keyword(keyword)),
            Kind::Punctuator(punctuator) => lead_fixed(Fixed::Punctuator(punctuator)),
            _ => Lead::Simple,
        },
        [] => Lead::Simple,
    }
}

/// The kind of operand that begins here.
pub fn operand_at(tokens: &[Token]) -> Operand
    ensures { result ≡ operand_at (head (toks tokens.now)) }
{
    match tokens {
        [first, ..] => match first.kind {
            Kind::Name(_) => Operand::Name,
            Kind::Constant(_, _) => Operand::Constant,
            Kind::Punctuator(Punctuator::OpenParen) => Operand::Open,
            Kind::Punctuator(
                Punctuator::Minus | Punctuator::Plus | Punctuator::Not | Punctuator::Complement,
            ) => Operand::Prefix,
            Kind::Keyword(Keyword::Atomic) => Operand::Transaction(Mode::Atomic),
            Kind::Keyword(Keyword::Relaxed) => Operand::Transaction(Mode::Relaxed),
            _ => Operand::None,
        },
        [] => Operand::None,
    }
}

/// The keyword that begins a transaction.
pub fn mode_keyword(mode: Mode) -> Fixed
    ensures { result ≡ mode_keyword mode }
{
    match mode {
        Mode::Atomic => Fixed::Keyword(Keyword::Atomic),
        Mode::Relaxed => Fixed::Keyword(Keyword::Relaxed),
    }
}

/// The operator that a punctuator is between two operands.
pub fn infix_of(fixed: Fixed) -> Option<Infix>
    ensures { result ≡ infix_of (binary_of fixed) (logical_of fixed) }
{
    let op = match fixed {
        Fixed::Punctuator(Punctuator::LogicalOr) => return Some(Infix::Choosing(LogicalOp::OrElse)),
        Fixed::Punctuator(Punctuator::LogicalAnd) => return Some(Infix::Choosing(
            LogicalOp::AndThen,
        )),
        Fixed::Punctuator(Punctuator::Or) => BinaryOp::Or,
        Fixed::Punctuator(Punctuator::Xor) => BinaryOp::Xor,
        Fixed::Punctuator(Punctuator::And) => BinaryOp::And,
        Fixed::Punctuator(Punctuator::Equal) => BinaryOp::Equal,
        Fixed::Punctuator(Punctuator::NotEqual) => BinaryOp::NotEqual,
        Fixed::Punctuator(Punctuator::Less) => BinaryOp::Less,
        Fixed::Punctuator(Punctuator::Greater) => BinaryOp::Greater,
        Fixed::Punctuator(Punctuator::LessEqual) => BinaryOp::LessEqual,
        Fixed::Punctuator(Punctuator::GreaterEqual) => BinaryOp::GreaterEqual,
        Fixed::Punctuator(Punctuator::ShiftLeft) => BinaryOp::ShiftLeft,
        Fixed::Punctuator(Punctuator::ShiftRight) => BinaryOp::ShiftRight,
        Fixed::Punctuator(Punctuator::Plus) => BinaryOp::Add,
        Fixed::Punctuator(Punctuator::Minus) => BinaryOp::Subtract,
        Fixed::Punctuator(Punctuator::Star) => BinaryOp::Multiply,
        Fixed::Punctuator(Punctuator::Slash) => BinaryOp::Divide,
        Fixed::Punctuator(Punctuator::Percent) => BinaryOp::Remainder,
        _ => return None,
    };
    Some(Infix::Computing(op))
}

/// How tightly an operator binds.
pub fn precedence(op: Infix) -> usize
    ensures { result ≡ infix_precedence op }
{
    match op {
        Infix::Choosing(LogicalOp::OrElse) => 1,
        Infix::Choosing(LogicalOp::AndThen) => 2,
        Infix::Computing(op) => match op {
            BinaryOp::Or => 3,
            BinaryOp::Xor => 4,
            BinaryOp::And => 5,
            BinaryOp::Equal | BinaryOp::NotEqual => 6,
            BinaryOp::Less | BinaryOp::Greater | BinaryOp::LessEqual | BinaryOp::GreaterEqual => 7,
            BinaryOp::ShiftLeft | BinaryOp::ShiftRight => 8,
            BinaryOp::Add | BinaryOp::Subtract => 9,
            BinaryOp::Multiply | BinaryOp::Divide | BinaryOp::Remainder => 10,
        },
    }
}
