//! Names, keywords and reserved words.

ghost use Rattle.std.specs.Prelude.{◌≡◌, ◌≢◌, ◌^◌, ◌<◌, true, length, slice_index, MatchOption};
ghost use Rattle.std.specs.Bool.{MatchBool};
ghost use Rattle.lex.specs.declared.token.Fixed.{Fixed};
ghost use Rattle.lex.specs.Spelling.{spelling, Reserved};
ghost use Rattle.lex.specs.Bytes.{is_letter};
ghost use Rattle.lex.specs.Pieces.{IsWord};
ghost use Rattle.lex.specs.inner.Answers.{AnswersPiece};

use crate::bytes::word_len;
use crate::fault::LexFault;
use crate::token::{Fixed, Keyword, Kind, kind_of};

/// The keyword that a word is (C11 6.4.1, and the transactions of GNU C).
fn keyword(word: &str) -> Option<Fixed>
    requires { IsWord word.now }
    ensures { MatchOption result ((m : Fixed) → word.now ≢ spelling m) (λ m. word.now ≡ spelling m) }
{
    match word {
        "int" => Some(Fixed::Keyword(Keyword::Int)),
        "unsigned" => Some(Fixed::Keyword(Keyword::Unsigned)),
        "signed" => Some(Fixed::Keyword(Keyword::Signed)),
        "long" => Some(Fixed::Keyword(Keyword::Long)),
        "void" => Some(Fixed::Keyword(Keyword::Void)),
        "if" => Some(Fixed::Keyword(Keyword::If)),
        "else" => Some(Fixed::Keyword(Keyword::Else)),
        "while" => Some(Fixed::Keyword(Keyword::While)),
        "do" => Some(Fixed::Keyword(Keyword::Do)),
        "for" => Some(Fixed::Keyword(Keyword::For)),
        "break" => Some(Fixed::Keyword(Keyword::Break)),
        "continue" => Some(Fixed::Keyword(Keyword::Continue)),
        "return" => Some(Fixed::Keyword(Keyword::Return)),
        "printf" => Some(Fixed::Keyword(Keyword::Printf)),
        "__transaction_atomic" => Some(Fixed::Keyword(Keyword::Atomic)),
        "__transaction_relaxed" => Some(Fixed::Keyword(Keyword::Relaxed)),
        "__transaction_cancel" => Some(Fixed::Keyword(Keyword::Cancel)),
        "__attribute__" => Some(Fixed::Keyword(Keyword::Attribute)),
        _ => None,
    }
}

/// Whether a word is a keyword of C that this language does not use (C11 6.4.1).
fn is_reserved(word: &str) -> bool
    ensures { MatchBool result (Reserved word.now) (Reserved word.now → ⊥) }
{
    matches!(
        word,
        "auto"
            | "char"
            | "const"
            | "default"
            | "case"
            | "double"
            | "enum"
            | "extern"
            | "float"
            | "goto"
            | "inline"
            | "register"
            | "restrict"
            | "short"
            | "sizeof"
            | "static"
            | "struct"
            | "switch"
            | "typedef"
            | "union"
            | "volatile"
    )
}

/// The word at the offset: a keyword, a reserved word or a name.
///
/// word = nondigit {nondigit | digit} (C11 6.4.2.1)
pub(crate) fn word<'a>(text: &'a str, at: usize) -> Result<(Option<Kind<'a>>, usize), LexFault>
    requires within { at < length text.now }
    requires fits { length text.now < 2 ^ 62 }
    requires begins { is_letter (slice_index text.now at) ≡ true }
    ensures { AnswersPiece text.now at result }
{
    let (_, rest) = text.as_bytes().split_at(at);
    let len = word_len(rest);
    let word = &text[at..at + len];
    let kind = match keyword(word) {
        Some(keyword) => kind_of(keyword),
        None => {
            if is_reserved(word) {
                Kind::Reserved
            } else {
                Kind::Name(word)
            }
        }
    };
    Ok((Some(kind), len))
}
