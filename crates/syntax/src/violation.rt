//! The rules of names and types, of safety and of separation, and the report of a violation.

ghost use Rattle.std.specs.Prelude.{◌≡◌};
ghost use Rattle.syntax.specs.Typing.{demand, first_unmet};
ghost use Rattle.syntax.specs.Violations.{number_of, number_in, place_in, returned_in, unmet_in};

use lex::token::Span;
use thiserror::Error;

/// A rule that a program has to keep.
#[derive(Clone, Copy, PartialEq, Eq, Debug, Error)]
pub enum Rule {
    /// A name is known at its use.
    #[error("unknown name")]
    UnknownName,
    /// A name is declared once in a scope, and a function is defined once.
    #[error("declared twice")]
    DeclaredTwice,
    /// A construct has a type that is allowed in its place, and the same type as in earlier declarations.
    #[error("wrong type")]
    WrongType,
    /// A call has as many arguments as its function has parameters; reported at the called name.
    #[error("wrong number of arguments")]
    WrongCount,
    /// The left side of an assignment is a variable or an element.
    #[error("not assignable")]
    NotAssignable,
    /// An array has a length, no more initialisers than cells, and the globals together few cells.
    #[error("bad array length")]
    BadLength,
    /// A `break` or a `continue` is in a loop.
    #[error("break or continue outside a loop")]
    OutsideLoop,
    /// A format is valid, with as many specifiers as arguments, each of its argument's type.
    #[error("bad format")]
    BadFormat,
    /// A function `worker` takes one `int` and returns nothing; reported as an empty span, where the last token ends.
    #[error("no worker")]
    NoWorker,
    /// A declared function is defined; reported at the name of its first prototype.
    #[error("not defined")]
    NotDefined,
    /// An atomic transaction contains no `printf`, and no call of a function that is not safe.
    #[error("unsafe in atomic")]
    UnsafeInAtomic,
    /// An atomic transaction contains no relaxed one.
    #[error("relaxed in atomic")]
    RelaxedInAtomic,
    /// A cancel is in an atomic transaction.
    #[error("cancel outside atomic")]
    CancelOutsideAtomic,
    /// A function that is declared safe is safe; reported at its name in the definition.
    #[error("transaction_safe on an unsafe function")]
    NotSafe,
    /// An atomic transaction contains no outer one, and no call of a function that leads to one.
    #[error("outer in atomic")]
    OuterInAtomic,
    /// An outer cancel is in an outer transaction.
    #[error("outer cancel outside outer")]
    CancelOutsideOuter,
    /// `worker` uses globals only in transactions.
    #[error("shared access outside a transaction")]
    BareAccess,
    /// `worker` calls functions that touch shared data only in transactions.
    #[error("call touches shared data outside a transaction")]
    BareCall,
}

impl Rule {
    /// The number of the fault that violates the rule.
    pub fn number(self) -> u32
        ensures { result ≡ number_of self }
    {
        match self {
            Rule::UnknownName => 20,
            Rule::DeclaredTwice => 21,
            Rule::WrongType => 22,
            Rule::WrongCount => 23,
            Rule::NotAssignable => 24,
            Rule::BadLength => 25,
            Rule::OutsideLoop => 26,
            Rule::BadFormat => 27,
            Rule::NoWorker => 28,
            Rule::NotDefined => 29,
            Rule::UnsafeInAtomic => 40,
            Rule::RelaxedInAtomic => 41,
            Rule::CancelOutsideAtomic => 42,
            Rule::NotSafe => 43,
            Rule::OuterInAtomic => 44,
            Rule::CancelOutsideOuter => 45,
            Rule::BareAccess => 50,
            Rule::BareCall => 51,
        }
    }
}

/// A rule that a program breaks, and where.
#[derive(Clone, Copy, PartialEq, Eq, Debug, Error)]
#[error("{rule}")]
pub struct Violation {
    pub rule: Rule,
    pub at: Span,
}

/// The violation of a rule at this span, if it is not met.
pub fn unless_met(met: bool, rule: Rule, at: Span) -> Option<Violation>
    ensures { unmet_in result ≡ first_unmet (demand (number_of rule) at met) }
{
    if met {
        None
    } else {
        Some(Violation { rule, at })
    }
}

/// Why a check rejects a program, which is returned unchanged.
#[derive(Drop)]
pub enum Refused<T> {
    /// An allocation failure, which says nothing of the program.
    OutOfMemory(T),
    /// The first rule that the program breaks.
    Broken(T, Violation),
}

impl<T> Refused<T> {
    /// The fault's number: 0 for an allocation failure, and else the rule's.
    pub fn number(&self) -> u32
        ensures { result ≡ number_in self.now }
    {
        match self {
            Refused::OutOfMemory(_) => 0,
            Refused::Broken(_, violation) => violation.rule.number(),
        }
    }

    /// The span of the fault in the text. An allocation failure has none.
    pub fn span(&self) -> Option<Span>
        ensures { result ≡ place_in self.now }
    {
        match self {
            Refused::OutOfMemory(_) => None,
            Refused::Broken(_, violation) => Some(violation.at),
        }
    }

    /// Returns the program.
    pub fn into_inner(self) -> T
        ensures { result ≡ returned_in self }
    {
        match self {
            Refused::OutOfMemory(program) => program,
            Refused::Broken(program, _) => program,
        }
    }
}
