//! How seats share out threads among them, and how two of them meet.

ghost use Rattle.std.specs.Prelude.{◌≡◌, ◌++◌, ◌<◌, []};
ghost use Rattle.shared_words.specs.Views.{first_of, without_first};
ghost use Rattle.shared_words.specs.Rule.{MeetsBoth, Settled, SitsAfter};
ghost use Rattle.shared_words.specs.inner.Floors.{Floored};

use crate::access::Words;
use crate::rule::{FirstRule, Joined, Met, Rest, Settling, View, Whole};
use atomic_table::Seat;
use std::alloc::Allocator;

/// A new seat takes the first of the threads that the seat speaks for.
pub fn split_first<A: Allocator>(words: &Words<A>, seat: &mut Seat<(), View>) -> Seat<(), View>
    requires { (seat.old.table_id ≡ words.now.table_id) × (0 < words.now.table_id.words) }
    ensures table { (seat.new.table_id ≡ seat.old.table_id) × (result.table_id ≡ seat.old.table_id) }
    ensures seat { seat.new.me ≡ (without_first seat.old.me.0, seat.old.me.1) }
    ensures new { result.me ≡ (first_of seat.old.me.0, []) }
{
    words.split_seat::<FirstRule>(seat)
}

/// The seat takes all threads that another one speaks for.
pub fn join<A: Allocator>(words: &Words<A>, seat: &mut Seat<(), View>, other: Seat<(), View>)
    requires table { (seat.old.table_id ≡ words.now.table_id) × (other.table_id ≡ words.now.table_id)
        × (0 < words.now.table_id.words) }
    requires none { other.me.1 ≡ [] }
    ensures table { seat.new.table_id ≡ seat.old.table_id }
    ensures seat { seat.new.me ≡ (seat.old.me.0 ++ other.me.0, seat.old.me.1) }
{
    words.join_seat::<Joined>(seat, other);
}

/// Loads the lock for all threads that the seat speaks for. The value found is given: it is a floor for their later
/// answers.
fn floor<A: Allocator>(words: &Words<A>, seat: &mut Seat<(), View>) -> u64
    requires { (seat.old.table_id ≡ words.now.table_id) × (0 < words.now.table_id.words) }
    ensures table { seat.new.table_id ≡ seat.old.table_id }
    ensures floor { Floored seat.old.me result seat.new.me }
{
    words.load::<Met>(seat, 0)
}

/// Two seats, which speak for one thread each, meet: the lock is loaded for each of the two, by a seat that speaks for
/// both for that long. The value found last is given: it is a floor for both threads' later answers.
pub fn meet<A: Allocator>(
    words: &Words<A>,
    mine: &mut Seat<(), View>,
    theirs: &mut Seat<(), View>,
) -> u64
    requires table { (mine.old.table_id ≡ words.now.table_id) × (theirs.old.table_id ≡ words.now.table_id)
        × (0 < words.now.table_id.words) }
    ensures table { (mine.new.table_id ≡ mine.old.table_id) × (theirs.new.table_id ≡ theirs.old.table_id) }
    ensures both { MeetsBoth result mine.old.me theirs.old.me mine.new.me theirs.new.me }
{
    let whole = words.split_seat::<Whole>(theirs);
    words.join_seat::<Joined>(mine, whole);
    // One load for each thread; the prover names by it the value of the first one.
    let _first = floor(words, mine);
    let found = floor(words, mine);
    let back = words.split_seat::<Rest>(mine);
    words.join_seat::<Joined>(theirs, back);
    found
}

/// Brings the local steps that the seat's one thread has made since its last access into the list of steps, so that a
/// transaction that took effect in one of them, as one that stores nothing does, stands there from now on. The number
/// of all steps of the thread says which they are; the lock is swapped for itself, if at all.
pub fn settle<A: Allocator>(words: &Words<A>, seat: &mut Seat<(), View>, all: u64)
    requires table { (seat.old.table_id ≡ words.now.table_id) × (0 < words.now.table_id.words) }
    requires sits { SitsAfter words.now.key seat.old.me all }
    ensures table { seat.new.table_id ≡ seat.old.table_id }
    ensures settled { Settled all seat.old.me seat.new.me }
{
    let _found = words.compare_exchange::<Settling>(seat, 0, all, all);
}
