//! What a seat knows, and the rule of the table.

ghost use Rattle.std.specs.Prelude.{◌≡◌};

use atomic_table::{Join, Play, Split, TableRule};
use bytecode::Code;
use std::alloc::{Allocator, Global};
use std::marker::Model;

/// What the table is told when it is made: its copy of the code, and how many threads there are.
#[derive(Drop)]
pub struct Setup<A: Allocator = Global> {
    code: Code<A>,
    threads: u32,
}

impl<A: Allocator> Model for Setup<A> {
    ghost use Rattle.shared_words.specs.Setup as plain;

    ghost Value = { plain.Setup };

    ghost view = { λ s. record { code = s.code; threads = s.threads } };
}

impl<A: Allocator> Setup<A> {
    /// The setup of so many threads of this code.
    pub fn new(code: Code<A>, threads: u32) -> Setup<A>
        ensures code { result.code ≡ code }
        ensures threads { result.threads ≡ threads }
    {
        Setup { code, threads }
    }

    /// Lends the code.
    #[inline(always)]
    pub fn code(&self) -> &Code<A>
        ensures { result.now ≡ self.now.code }
    {
        &self.code
    }

    /// How many threads there are.
    pub fn threads(&self) -> u32
        ensures { result ≡ self.now.threads }
    {
        self.threads
    }
}

/// One part for each thread that the seat speaks for. No value of it is made.
pub struct View {
    nothing: u8,
}

impl Model for View {
    ghost use Rattle.std.specs.Prelude.{List, []};
    ghost use Rattle.shared_words.specs.Views.{ViewPart};

    ghost Value = { List ViewPart };

    ghost view = { λ _. [] };
}

/// Word 0 is the lock, and the cells follow.
pub struct Ruled;

impl<A: Allocator> TableRule<(), View, Setup<A>> for Ruled {
    ghost use Rattle.shared_words.specs.Rule.{IsRuled};
    ghost use Rattle.shared_words.specs.Views.{first_view};

    ghost holds = { λ key s. IsRuled key s.words s.views };

    ghost first = { first_view };
}

/// An access of the thread, with the local steps before it.
pub(crate) struct Accessed;

impl Play<(), View> for Accessed {
    ghost use Rattle.shared_words.specs.Rule.{Took};

    ghost then = { λ st m n w. Took m n w };
}

/// The new seat has the first part.
pub(crate) struct FirstRule;

impl Split<View> for FirstRule {
    ghost use Rattle.shared_words.specs.Views.{first_of, without_first};

    ghost left = { without_first };

    ghost right = { first_of };
}

/// The new seat has all parts but the first.
pub(crate) struct Rest;

impl Split<View> for Rest {
    ghost use Rattle.shared_words.specs.Views.{first_of, without_first};

    ghost left = { first_of };

    ghost right = { without_first };
}

/// The new seat has all parts.
pub(crate) struct Whole;

impl Split<View> for Whole {
    ghost use Rattle.std.specs.Prelude.{[]};

    ghost left = { λ _. [] };

    ghost right = { λ v. v };
}

/// A seat takes in all parts of another.
pub(crate) struct Joined;

impl Join<View> for Joined {
    ghost use Rattle.std.specs.Prelude.{[], ◌++◌};

    ghost both = { λ v w. v ++ w };

    ghost spent = { [] };
}

/// A load of the lock for all the seat's threads, which is a floor for their later answers.
pub(crate) struct Met;

impl Play<(), View> for Met {
    ghost use Rattle.shared_words.specs.inner.Floors.{Floored};

    ghost then = { λ st m n w. Floored m n w };
}

/// A seat brings its thread's last local steps into the list. The value that is swapped for itself is the number of all
/// steps that the thread has made.
pub(crate) struct Settling;

impl Play<(), View> for Settling {
    ghost use Rattle.shared_words.specs.Rule.{Settled};

    ghost then = { λ st m n w. Settled st.first m w };
}
