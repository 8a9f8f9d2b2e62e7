//! One access to the lock or the words.

ghost use Rattle.std.specs.Prelude.{◌≡◌, length};
ghost use Rattle.norec_core.specs.Accesses.{cost as cost_spec};
ghost use Rattle.machine.specs.Worlds.{answer as answer_spec, lock_after, words_after};
ghost use Rattle.machine.specs.NamedCells.{IsMakeable};

use norec_core::{Access, Answer};
use std::alloc::Allocator;

/// Makes an access, and gives its answer.
pub(crate) fn make<A: Allocator>(lock: &mut u64, words: &mut Vec<u64, A>, access: Access) -> Answer
    requires { IsMakeable (length words.old.items) access }
    ensures answer { result ≡ answer_spec lock.old words.old.items access }
    ensures lock { lock.new ≡ lock_after lock.old access }
    ensures words { words.new.items ≡ words_after words.old.items access }
{
    match access {
        Access::Local => Answer::Done,
        Access::LoadLock => Answer::Value(*lock),
        Access::LoadWord(cell) => Answer::Value(words[cell as usize]),
        Access::Swap(from) => {
            if *lock != from {
                return Answer::Lost(*lock);
            }
            *lock = from + 1;
            Answer::Won
        }
        Access::StoreWord(cell, word) => {
            words[cell as usize] = word;
            Answer::Done
        }
        Access::StoreLock(value) => {
            *lock = value;
            Answer::Done
        }
    }
}

/// How many accesses to the lock or the words a step with this access makes: none, or one.
pub(crate) fn cost(access: Access) -> u64
    ensures { result ≡ cost_spec access }
{
    match access {
        Access::Local => 0,
        _ => 1,
    }
}
