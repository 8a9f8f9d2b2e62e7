//! The steps that threads of the codes of `test_codes` make.

use machine::Event;
use norec_core::Access;
use syntax::thread_end::Trap;

/// What the lock and the cell have, and the access and what happened; none where the lock has no value left for the
/// step.
pub type Row = (u64, u32, Option<(Access, Event)>);

/// The steps of `adds_five`, where the lock moves once between: the first attempt is dropped.
pub fn dropped_once() -> &'static [Row] {
    static ROWS: [Row; 21] = [
        (0, 7, Some((Access::Local, Event::Quiet))),
        (1, 7, Some((Access::LoadLock, Event::Quiet))),
        (0, 7, Some((Access::LoadLock, Event::Quiet))),
        (0, 7, Some((Access::LoadWord(0), Event::Quiet))),
        (0, 7, Some((Access::LoadLock, Event::Quiet))),
        (0, 7, Some((Access::Local, Event::Quiet))),
        (0, 7, Some((Access::Local, Event::Quiet))),
        (2, 8, Some((Access::Swap(0), Event::Quiet))),
        (2, 8, Some((Access::LoadLock, Event::Quiet))),
        (2, 8, Some((Access::LoadWord(0), Event::Abort))),
        (2, 8, Some((Access::LoadLock, Event::Quiet))),
        (2, 8, Some((Access::LoadWord(0), Event::Quiet))),
        (2, 8, Some((Access::LoadLock, Event::Quiet))),
        (2, 8, Some((Access::Local, Event::Quiet))),
        (2, 8, Some((Access::Local, Event::Quiet))),
        (2, 8, Some((Access::Swap(2), Event::Quiet))),
        (3, 8, Some((Access::StoreWord(0, 13), Event::Quiet))),
        (3, 13, Some((Access::StoreLock(4), Event::Commit))),
        (4, 13, Some((Access::Local, Event::Quiet))),
        (4, 13, Some((Access::Local, Event::Quiet))),
        (4, 13, Some((Access::Local, Event::Quiet))),
    ];
    &ROWS
}

/// The steps of `traps`: the lock is taken before the print, the trap gives it back without a store, and no further
/// step does anything.
pub fn trap_rows() -> &'static [Row] {
    static ROWS: [Row; 9] = [
        (0, 7, Some((Access::LoadLock, Event::Quiet))),
        (0, 7, Some((Access::Local, Event::Quiet))),
        (0, 7, Some((Access::Local, Event::Quiet))),
        (0, 7, Some((Access::Swap(0), Event::Quiet))),
        (1, 7, Some((Access::Local, Event::Quiet))),
        (1, 7, Some((Access::Local, Event::Quiet))),
        (1, 7, Some((Access::Local, Event::Quiet))),
        (
            1,
            7,
            Some((Access::StoreLock(2), Event::Trap(Trap::ZeroDivisor))),
        ),
        (2, 7, Some((Access::Local, Event::Quiet))),
    ];
    &ROWS
}
