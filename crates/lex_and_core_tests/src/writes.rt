//! Tests of the write log: its calls, and that a refused growth leaves it as it was.

ghost use Rattle.std.specs.Prelude.{◌≡◌, ◌+◌, ◌<◌, ◌≤◌, OnOk, length};

use crate::asserted::{assert_all, assert_growths, assert_that};
use std::alloc::{AllocError, Allocator, Global};
use std::marker::Brand;
use std::mem::size_of;
use std::sync::ledger::{Blank, Ledger};
use test_memory::{Refusing, growths};
use write_log::{Looks, WriteLog};

/// Makes room, at the second call where the first one is refused, and says whether it was.
fn make_room<A: Allocator + Copy>(log: &mut WriteLog<A>) -> Result<bool, AllocError>
    ensures ok { OnOk result (0 < log.new.room) }
    ensures put_ok { OnOk result (0 < log.new.put_room) }
    ensures marks { log.new.marks ≡ log.old.marks }
{
    if log.reserve_one().is_ok() {
        return Ok(false);
    }
    log.reserve_one()?;
    Ok(true)
}

/// Writes a word, and says whether the room for it was refused once.
fn write<A: Allocator + Copy>(
    log: &mut WriteLog<A>,
    cell: u32,
    word: u64,
) -> Result<bool, AllocError>
    ensures { log.new.marks ≡ log.old.marks }
{
    let refused = make_room(log)?;
    log.put(cell, word);
    Ok(refused)
}

/// Makes a mark, and says whether the room for it was refused once.
fn mark<A: Allocator + Copy>(log: &mut WriteLog<A>, depth: usize) -> Result<bool, AllocError>
    requires { depth ≤ length log.old.marks }
    ensures { OnOk result (length log.new.marks ≡ depth + 1) }
{
    let refused = make_room(log)?;
    log.mark(depth);
    Ok(refused)
}

fn has_pairs<A: Allocator + Copy>(log: &WriteLog<A>, wanted: &[(u32, u64)]) -> bool {
    if log.len() != wanted.len() {
        return false;
    }
    for (index, pair) in wanted.iter().enumerate() {
        if log.pair_at(index) != *pair {
            return false;
        }
    }
    true
}

/// Writes these words in turn, and says whether the log then has the wanted pairs.
fn comes_to(
    log: &mut WriteLog,
    words: &[(u32, u64)],
    wanted: &[(u32, u64)],
) -> Result<bool, AllocError>
    ensures { log.new.marks ≡ log.old.marks }
{
    'words: for word in words {
        write(log, word.0, word.1)?;
    }
    Ok(has_pairs(log, wanted))
}

/// Whether an empty log has at the end of a mark what it had where the mark was made.
fn goes_back(log: &mut WriteLog) -> Result<bool, AllocError> {
    let first = comes_to(log, &[(3, 1), (5, 2)], &[(3, 1), (5, 2)])?;
    mark(log, 0)?;
    let under = comes_to(
        log,
        &[(3, 9), (7, 4), (5, 8), (3, 10)],
        &[(3, 10), (5, 8), (7, 4)],
    )?;
    log.back_to(0);
    Ok(has_pairs(log, &[(3, 1), (5, 2)]) && first && under)
}

/// Whether a log that has gone back to a mark can be written on, and cleared.
fn goes_on(log: &mut WriteLog) -> Result<bool, AllocError> {
    let last = comes_to(log, &[(7, 6)], &[(3, 1), (5, 2), (7, 6)])?;
    let found = log.get(7) == Some(6) && log.get(4).is_none();
    log.clear();
    Ok(has_pairs(log, &[]) && last && found)
}

#[test]
fn goes_back_to_a_mark_words_included(rt: HostRuntime) {
    let mut log = WriteLog::new(rt.alloc());
    let back = goes_back(&mut log) == Ok(true);
    let on = goes_on(&mut log) == Ok(true);
    assert_all(&rt, &[("back", back), ("on", on)]);
}

/// Makes a mark, and writes a word to cell 1 in it.
fn write_in_mark(log: &mut WriteLog, depth: usize, word: u64) -> Result<(), AllocError>
    requires { depth ≤ length log.old.marks }
    ensures { OnOk result (length log.new.marks ≡ depth + 1) }
{
    mark(log, depth)?;
    write(log, 1, word)?;
    Ok(())
}

/// Whether a second mark in a mark takes the place of the first.
fn forgets(log: &mut WriteLog) -> Result<bool, AllocError> {
    write_in_mark(log, 0, 10)?;
    write_in_mark(log, 1, 11)?;
    write_in_mark(log, 1, 12)?;
    log.back_to(1);
    let word = log.get(1);
    log.back_to(0);
    Ok(word == Some(11) && log.get(1).is_none())
}

#[test]
fn a_mark_forgets_those_that_lay_in_it(rt: HostRuntime) {
    let mut log = WriteLog::new(rt.alloc());
    assert_that(&rt, forgets(&mut log) == Ok(true));
}

#[test]
fn looks_take_no_bytes(rt: HostRuntime) {
    assert_that(&rt, size_of::<Looks<Brand>>() == 0);
}

/// A log as a plain list, searched from its front, with a copy of it for each mark.
#[derive(Drop)]
struct Plain {
    pairs: Vec<(u32, u64)>,
    marks: Vec<Vec<(u32, u64)>>,
}

impl Plain {
    fn put(&mut self, cell: u32, word: u64) -> Result<(), AllocError> {
        for pair in self.pairs.iter_mut() {
            if pair.0 == cell {
                pair.1 = word;
                return Ok(());
            }
        }
        self.pairs.push((cell, word))?;
        Ok(())
    }

    fn get(&self, cell: u32) -> Option<u64> {
        for pair in &self.pairs {
            if pair.0 == cell {
                return Some(pair.1);
            }
        }
        None
    }

    fn mark(&mut self, depth: usize) -> Result<(), AllocError> {
        self.marks.truncate(depth);
        self.marks.push(self.pairs.clone()?)?;
        Ok(())
    }

    fn back_to(&mut self, depth: usize) {
        self.marks.truncate(depth.saturating_add(1));
        if let Some(pairs) = self.marks.pop() {
            self.pairs = pairs;
        }
    }
}

/// Whether the log has the list's pairs, and the list's word for a cell.
fn agrees(log: &WriteLog, plain: &Plain, cell: u32) -> bool {
    has_pairs(log, plain.pairs.as_slice()) && log.get(cell) == plain.get(cell)
}

/// Writes a word in both logs, and says whether they agree.
fn write_both(
    log: &mut WriteLog,
    plain: &mut Plain,
    cell: u32,
    word: u64,
) -> Result<bool, AllocError>
    ensures { log.new.marks ≡ log.old.marks }
{
    write(log, cell, word)?;
    plain.put(cell, word)?;
    Ok(agrees(log, plain, cell))
}

/// Makes a mark in both logs.
fn mark_both(log: &mut WriteLog, plain: &mut Plain, depth: usize) -> Result<(), AllocError>
    requires { depth ≤ length log.old.marks }
    ensures { OnOk result (length log.new.marks ≡ depth + 1) }
{
    mark(log, depth)?;
    plain.mark(depth)
}

/// Goes back in both logs, and says whether they agree.
fn back_to_both(log: &mut WriteLog, plain: &mut Plain, depth: usize, cell: u32) -> bool
    requires { depth < length log.old.marks }
    ensures { length log.new.marks ≡ depth }
{
    log.back_to(depth);
    plain.back_to(depth);
    agrees(log, plain, cell)
}

/// Writes 256 words in both logs under a mark of this depth, and every fourth to a second cell too. Says whether they
/// agreed after each.
fn fill_mark(log: &mut WriteLog, plain: &mut Plain, depth: u32) -> Result<bool, AllocError>
    requires { depth < 16 }
    ensures { log.new.marks ≡ log.old.marks }
{
    let mut agreed = true;
    'writes: for n in 0..256u32 {
        let cell = (depth * 256 + n) * 1365 % 4096;
        agreed &= write_both(log, plain, cell, n as u64)?;
        if n % 4 == 0 {
            agreed &= write_both(log, plain, cell / 2, depth as u64)?;
        }
    }
    Ok(agreed)
}

/// Goes back to the mark of a depth, writes, makes the mark anew and goes back to it. Says whether both logs agreed all
/// along.
fn leave_mark(
    log: &mut WriteLog,
    plain: &mut Plain,
    depth: usize,
    cell: u32,
) -> Result<bool, AllocError>
    requires { depth < length log.old.marks }
    ensures { OnOk result (length log.new.marks ≡ depth) }
{
    let back = back_to_both(log, plain, depth, cell);
    let written = write_both(log, plain, cell, 7)?;
    mark_both(log, plain, depth)?;
    let marked = write_both(log, plain, cell, 8)?;
    Ok(back_to_both(log, plain, depth, cell) && back && written && marked)
}

/// Whether each cell is found at the index of its pair, and no other is found.
fn finds_all<L: Ledger>(log: &WriteLog, plain: &Plain, blank: Blank) -> bool
    requires name { blank.name ≡ L.name }
    requires parts { blank.parts ≡ L.parts }
    requires some { 0 < blank.parts }
{
    let mut looks = Looks::<L>::new(blank);
    for (index, pair) in plain.pairs.iter().enumerate() {
        if log.find(pair.0, &mut looks) != Some(index) {
            return false;
        }
    }
    log.find(5000, &mut looks).is_none()
}

/// Whether each cell is found at the index of its pair, and no other is found, where nobody counts the looks.
fn finds_each(log: &WriteLog, plain: &Plain) -> bool {
    finds_all::<Brand>(log, plain, Blank::new(1))
}

/// Makes 16 marks in both logs, each filled, and says whether they agreed all along.
fn fill_marks(log: &mut WriteLog, plain: &mut Plain) -> Result<bool, AllocError>
    requires { length log.old.marks ≡ 0 }
    ensures { OnOk result (length log.new.marks ≡ 16) }
{
    let mut agreed = true;
    'marks: for depth in 0..16u32 {
        mark_both(log, plain, depth as usize)?;
        agreed &= fill_mark(log, plain, depth)?;
    }
    Ok(agreed)
}

/// Leaves 16 marks, the deepest first, and says whether both logs agreed all along.
fn leave_marks(log: &mut WriteLog, plain: &mut Plain) -> Result<bool, AllocError>
    requires { length log.old.marks ≡ 16 }
{
    let mut agreed = true;
    'marks: for n in 0..16u32 {
        agreed &= leave_mark(log, plain, 15 - n as usize, n * 256)?;
    }
    Ok(agreed)
}

/// Whether both logs agree while marks are filled and left, and each cell is found in between and at the end.
fn agree(log: &mut WriteLog, plain: &mut Plain) -> Result<bool, AllocError>
    requires { length log.old.marks ≡ 0 }
{
    let filled = fill_marks(log, plain)? && log.len() == 4096;
    let found = finds_each(log, plain);
    Ok(leave_marks(log, plain)? && filled && found && finds_each(log, plain))
}

/// 4,096 cells in an order of their own, 256 of them under each of 16 marks, and back again.
#[test]
fn answers_as_a_plain_list(rt: HostRuntime) {
    let mut log = WriteLog::new(rt.alloc());
    let mut plain = Plain {
        pairs: Vec::new(rt.alloc()),
        marks: Vec::new(rt.alloc()),
    };
    assert_that(&rt, agree(&mut log, &mut plain) == Ok(true));
}

/// Makes calls for which the log grows, and says whether a growth was refused.
fn grow<A: Allocator + Copy>(log: &mut WriteLog<A>) -> Result<bool, AllocError> {
    let mut refused = write(log, 30, 1)?;
    refused |= mark(log, 0)?;
    refused |= write_to_each(log, 20)?;
    log.back_to(0);
    Ok(write(log, 5, 2)? || refused)
}

/// Writes a word to each cell below this one, and says whether a growth was refused.
fn write_to_each<A: Allocator + Copy>(log: &mut WriteLog<A>, end: u32) -> Result<bool, AllocError>
    ensures { log.new.marks ≡ log.old.marks }
{
    let mut refused = false;
    'cells: for cell in 0..end {
        refused |= write(log, cell, 9)?;
    }
    Ok(refused)
}

/// Whether growth `nth` is told where it is refused, and leaves the log.
fn tells(alloc: &Refusing<Global>, nth: u64) -> bool {
    alloc.refuse(nth);
    let mut log = WriteLog::new(alloc);
    match grow(&mut log) {
        Ok(refused) => { refused != alloc.is_waiting() && has_pairs(&log, &[(30, 1), (5, 2)]) }
        Err(_) => false,
    }
}

#[test]
fn each_growth_is_refused_in_turn(rt: HostRuntime) {
    // The pairs, their order, the journal and the marks: the first three grow more than once.
    assert_growths(&rt, growths(rt.alloc(), 100, tells), 7);
}
