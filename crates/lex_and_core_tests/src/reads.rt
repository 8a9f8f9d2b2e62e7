//! The read log: pairs in their order, and each growth refused.

use crate::asserted::{assert_growths, assert_that};
use read_log::ReadLog;
use std::alloc::{AllocError, Global};
use test_memory::{Refusing, growths};

/// Pushes a pair, with room that is asked for a second time where it is refused, and says whether it was; none
/// where the log has not as many pairs before as the cell says, or room is refused again.
fn insist(log: &mut ReadLog<&Refusing<Global>>, cell: u32) -> Option<bool> {
    let refused = log.reserve_one().is_err();
    let unchanged = log.len() == cell as usize;
    if log.reserve_one().is_err() {
        return None;
    }
    log.push(cell, 9);
    unchanged.then_some(refused)
}

/// Pushes the pairs of 20 cells, and says whether room was refused.
fn insist_on_each(log: &mut ReadLog<&Refusing<Global>>) -> Option<bool> {
    let mut refused = false;
    for cell in 0..20u32 {
        refused |= insist(log, cell)?;
    }
    Some(refused)
}

/// Whether growth `nth` is one of `reserve_one` where it is refused, and no pair is lost.
fn tells(alloc: &Refusing<Global>, nth: u64) -> bool {
    alloc.refuse(nth);
    let mut log = ReadLog::new(alloc);
    let Some(refused) = insist_on_each(&mut log) else {
        return false;
    };
    let ends = log.get(0) == Some((0, 9)) && log.get(19) == Some((19, 9));
    ends && log.len() == 20 && refused != alloc.is_waiting()
}

#[test]
fn each_growth_is_refused_in_turn(rt: HostRuntime) {
    assert_growths(&rt, growths(rt.alloc(), 100, tells), 1);
}

/// Pushes a pair, with room for it.
fn push(log: &mut ReadLog, cell: u32, word: u64) -> Result<(), AllocError> {
    log.reserve_one()?;
    log.push(cell, word);
    Ok(())
}

/// Whether an empty log keeps two pairs of one cell in their order, and none when it is cleared.
fn keeps_order(log: &mut ReadLog) -> Result<bool, AllocError> {
    push(log, 5, 7)?;
    push(log, 5, 8)?;
    let first = log.get(0) == Some((5, 7));
    let last = log.get(1) == Some((5, 8)) && log.get(2).is_none();
    let both = log.len() == 2;
    log.clear();
    Ok(first && last && both && log.len() == 0)
}

#[test]
fn keeps_each_pair_in_order(rt: HostRuntime) {
    let mut log = ReadLog::new(rt.alloc());
    assert_that(&rt, keeps_order(&mut log) == Ok(true));
}
