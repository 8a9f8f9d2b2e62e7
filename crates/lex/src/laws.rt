//! Consequences of the definitions of tokens and faults, stated as functions without code.

ghost use Rattle.std.specs.Prelude.{◌≡◌, ℕ, List, length};
ghost use Rattle.lex.specs.declared.fault.LexFault.{LexFault};
ghost use Rattle.lex.specs.Tokens.{Tok};
ghost use Rattle.lex.specs.Faults.{IsFirst};
ghost use Rattle.lex.specs.Pieces.{IsLexed};
ghost use Rattle.lex.specs.Laws.{Lie};

/// The tokens of a text are in order, none is empty and no two overlap, and each has the kind of the bytes of its
/// span.
pub fn tokens_lie_in_order()
    ensures { (text : List ℕ) (ts : List Tok) → IsLexed text ts → Lie text 0 (length text) ts }
{}

/// A text has at most one list of tokens.
pub fn one_list_of_tokens()
    ensures { (text : List ℕ) (ts us : List Tok) → IsLexed text ts → IsLexed text us → ts ≡ us }
{}

/// A text has at most one fault that is its first.
pub fn one_first_fault()
    ensures { (text : List ℕ) (f g : LexFault) → IsFirst text f → IsFirst text g → f ≡ g }
{}

/// A text that has tokens has no fault.
pub fn tokens_leave_no_fault()
    ensures { (text : List ℕ) (ts : List Tok) (f : LexFault) → IsLexed text ts → IsFirst text f → ⊥ }
{}
