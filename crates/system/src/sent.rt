//! The bytes that a writer took. They exist only in proofs.

ghost use base.Fml.{ftrue};
ghost use Rattle.std.specs.Prelude.{◌≡◌, ◌++◌, [], List, ℕ};
ghost use Rattle.std.specs.Coded.{coded_list, coded_ℕ};

use std::marker::Model;

/// The bytes that a writer took, for proofs alone: it takes no memory.
#[derive(Drop)]
pub struct Sent {
    pub ghost bytes: { List ℕ } by { coded_list coded_ℕ },
}

impl Model for Sent {
    ghost also_owns = { λ _. ftrue };
}

/// Bytes that a writer took.
#[derive(Clone, Copy)]
pub(crate) struct Piece<'p> {
    pub(crate) bytes: &'p [u8],
}

impl Sent {
    /// No bytes.
    pub fn new() -> Sent
        ensures { result.bytes ≡ [] }
    {
        Sent {}
    }

    /// These bytes, followed by a piece.
    pub(crate) fn then(&self, _piece: &Piece<'_>) -> Sent
        ensures { result.bytes ≡ self.now.bytes ++ _piece.now.bytes.now }
    {
        Sent {}
    }
}
