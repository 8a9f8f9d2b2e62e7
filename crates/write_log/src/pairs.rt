//! The pairs of a write log in order of first write, and by cell.

ghost use Rattle.std.specs.Prelude.{◌≡◌, true, false, ◌+◌, ◌<◌, ◌≤◌, ◌^◌, [], OnOk, OnErr, IfSome, length};
ghost use Rattle.std.specs.Prelude.{ℕ, Err, vec_len, vec_capacity};
ghost use Rattle.std.specs.List.{slice_get, insert};
ghost use Rattle.write_log.specs.Overlay.{with_write, IsDistinct};
ghost use Rattle.write_log.specs.inner.Order.{IsAbove, IsRising, IsSearched, IsFound, IsPlace, IsWithinDigits};
ghost use Rattle.write_log.specs.inner.Order.{AreOrdered, AreBetween, IsOrderOf, IsIndexed, by_cell, IsNumbered};
ghost use Rattle.write_log.specs.inner.Order.{with_entry};
ghost use Rattle.write_log.specs.inner.Journal.{undone, CanUndo};

use crate::looks::Looks;
use std::alloc::{AllocError, Allocator};
use std::cmp::Ordering;
use std::marker::{Brand, Model};
use std::sync::ledger::{Blank, Ledger};

/// What a put has changed: it added the last pair, or replaced the word at an index, which was this.
#[derive(Clone, Copy)]
pub enum Change {
    Added,
    Replaced(usize, u64),
}

/// Each cell with its word, in order of first write. While the cells rise, this is their order by cell too; else
/// (cell, index) of each stands beside it by cell. No cell lies below `least`, nor from `above` on, and both stay where
/// pairs are taken back.
#[derive(Drop)]
pub struct Pairs<A: Allocator> {
    list: Vec<(u32, u64), A>,
    order: Vec<(u32, u64), A>,
    least: u32,
    above: u64,
    /// For how many pairs there is room, in the list and in an order.
    most: usize,
}

impl<A: Allocator> Model for Pairs<A> {
    ghost use Rattle.std.specs.Prelude.{◌-◌, ◌≤◌, vec_len, vec_capacity};
    ghost use Rattle.write_log.specs.inner.Order.{Listed, AreOrdered, AreBetween};

    ghost Value = { Listed };

    ghost view = { λ a. record {
      pairs = a.list.items;
      room = a.most - vec_len a.list;
    } };

    ghost invariant = { λ a. AreOrdered a.list.items a.order.items × AreBetween a.least a.above a.list.items
        × (a.most ≤ vec_capacity a.list) × (a.most ≤ vec_capacity a.order) };
}

/// Where an order has a cell, or where it would be inserted. No cell of it lies below `least`, nor from `above` on.
#[inline(never)]
fn search<L: Ledger>(
    order: &[(u32, u64)],
    least: u32,
    above: u64,
    cell: u32,
    looks: &mut Looks<L>,
) -> Result<usize, usize>
    requires rising { IsRising order.now }
    requires between { AreBetween least above order.now }
    ensures found { IsSearched cell order.now result }
    ensures looks { IsWithinDigits (length order.now) looks.old looks.new }
{
    // The cells rise, so at most `cell - least` of them lie below this one, and fewer than `above - cell`
    // above it. Where they lie close together, little is left to be halved.
    let below = cell.saturating_sub(least) as usize;
    let rest = above.saturating_sub(u64::from(cell)) as usize;
    let mut from = order.len().saturating_sub(rest);
    let mut to = order.len().min(below + 1);
    while from < to {
        let middle = from + (to - from) / 2;
        match looks.compare(order[middle].0, cell) {
            Ordering::Less => from = middle + 1,
            Ordering::Equal => return Ok(middle),
            Ordering::Greater => to = middle,
        }
    }
    Err(from)
}

/// Where an order has a cell, or where it would be inserted. Nothing is searched outside of these bounds, nor where each
/// cell between them has its entry.
#[inline(always)]
fn seek<L: Ledger>(
    order: &[(u32, u64)],
    least: u32,
    above: u64,
    cell: u32,
    looks: &mut Looks<L>,
) -> Result<usize, usize>
    requires rising { IsRising order.now }
    requires between { AreBetween least above order.now }
    ensures found { IsSearched cell order.now result }
    ensures looks { IsWithinDigits (length order.now) looks.old looks.new }
{
    if cell < least {
        return Err(0);
    }
    if above <= u64::from(cell) {
        return Err(order.len());
    }
    if above - u64::from(least) <= order.len() as u64 {
        return Ok((cell - least) as usize);
    }
    search(order, least, above, cell, looks)
}

/// The index of a cell's pair, or where the cell would be inserted by cell.
#[inline(always)]
fn index_of<L: Ledger>(
    list: &[(u32, u64)],
    order: &[(u32, u64)],
    least: u32,
    above: u64,
    cell: u32,
    looks: &mut Looks<L>,
) -> Result<usize, usize>
    requires ordered { AreOrdered list.now order.now }
    requires between { AreBetween least above list.now }
    ensures found { IsIndexed cell list.now order.now result }
    ensures looks { IsWithinDigits (length list.now) looks.old looks.new }
{
    if order.is_empty() {
        return seek(list, least, above, cell, looks);
    }
    match seek(order, least, above, cell, looks) {
        Ok(at) => Ok(order[at].1 as usize),
        Err(at) => Err(at),
    }
}

/// Finds as `index_of` does, with a ledger of its own for the looks.
#[inline(always)]
fn index_uncounted<L: Ledger>(
    list: &[(u32, u64)],
    order: &[(u32, u64)],
    least: u32,
    above: u64,
    cell: u32,
    blank: Blank,
) -> Result<usize, usize>
    requires name { blank.name ≡ L.name }
    requires parts { blank.parts ≡ L.parts }
    requires some { 0 < blank.parts }
    requires ordered { AreOrdered list.now order.now }
    requires between { AreBetween least above list.now }
    ensures { IsIndexed cell list.now order.now result }
{
    index_of(list, order, least, above, cell, &mut Looks::<L>::new(blank))
}

/// Finds as `index_of` does, where nobody counts the looks.
#[inline(always)]
fn slot_of(
    list: &[(u32, u64)],
    order: &[(u32, u64)],
    least: u32,
    above: u64,
    cell: u32,
) -> Result<usize, usize>
    requires ordered { AreOrdered list.now order.now }
    requires between { AreBetween least above list.now }
    ensures { IsIndexed cell list.now order.now result }
{
    index_uncounted::<Brand>(list, order, least, above, cell, Blank::new(1))
}

/// The index of a cell's pair where all cells between the bounds are written and rise, so that nothing is called.
#[inline(always)]
fn dense_index(
    list: &[(u32, u64)],
    order: &[(u32, u64)],
    least: u32,
    above: u64,
    cell: u32,
) -> Option<usize>
    requires ordered { AreOrdered list.now order.now }
    requires between { AreBetween least above list.now }
    ensures { IfSome result (λ index. IsPlace cell list.now index) }
{
    if !order.is_empty() || cell < least || above <= u64::from(cell) {
        return None;
    }
    if above - u64::from(least) > list.len() as u64 {
        return None;
    }
    Some((cell - least) as usize)
}

/// Adds an entry at the end of an order, where one is kept.
#[inline(always)]
fn push_entry<A: Allocator>(order: &mut Vec<(u32, u64), A>, cell: u32, index: usize)
    requires room { vec_len order.old < vec_capacity order.old }
    ensures items { order.new.items ≡ with_entry order.old.items (cell, index) }
    ensures capacity { vec_capacity order.new ≡ vec_capacity order.old }
{
    if !order.is_empty() {
        order.push_reserved((cell, index as u64));
    }
}

/// Makes the order of a list whose cells rise.
#[inline(never)]
fn make_order<A: Allocator>(list: &[(u32, u64)], order: &mut Vec<(u32, u64), A>)
    requires empty { order.old.items ≡ [] }
    requires room { length list.now ≤ vec_capacity order.old }
    ensures numbered { IsNumbered list.now order.new.items }
    ensures capacity { vec_capacity order.new ≡ vec_capacity order.old }
{
    while order.len() < list.len() {
        let index = order.len();
        order.push_reserved((list[index].0, index as u64));
    }
}

/// Makes the order, if none is kept.
fn keep_order<A: Allocator>(list: &[(u32, u64)], order: &mut Vec<(u32, u64), A>)
    requires ordered { AreOrdered list.now order.old.items }
    requires room { length list.now ≤ vec_capacity order.old }
    ensures order { IsOrderOf list.now order.new.items }
    ensures same { (cell at : ℕ) → IsSearched cell (by_cell list.now order.old.items) (Err at) →
        IsSearched cell order.new.items (Err at) }
    ensures capacity { vec_capacity order.new ≡ vec_capacity order.old }
{
    if order.is_empty() {
        make_order(list, order);
    }
}

/// Inserts an entry where there is room.
fn insert_reserved<A: Allocator>(order: &mut Vec<(u32, u64), A>, at: usize, entry: (u32, u64))
    requires within { at ≤ vec_len order.old }
    requires room { vec_len order.old < vec_capacity order.old }
    ensures items { order.new.items ≡ insert order.old.items at entry }
    ensures length { vec_len order.new ≡ vec_len order.old + 1 }
    ensures capacity { vec_capacity order.new ≡ vec_capacity order.old }
{
    if at == order.len() {
        order.push_reserved(entry);
    } else {
        let _ = order.insert(at, entry);
    }
}

/// Makes room for one more item. It is a test where there is some, and no call.
#[inline(always)]
pub fn reserve_one<T, A: Allocator>(list: &mut Vec<T, A>) -> Result<(), AllocError>
    ensures items { list.new.items ≡ list.old.items }
    ensures room { vec_capacity list.old ≤ vec_capacity list.new }
    ensures ok { OnOk result (vec_len list.new < vec_capacity list.new) }
    ensures err { OnErr result (vec_capacity list.new ≡ vec_capacity list.old) }
    ensures full { OnErr result (vec_capacity list.old ≡ vec_len list.old) }
{
    if list.len() < list.capacity() {
        return Ok(());
    }
    list.reserve(1)
}

/// Makes room for so many items in all.
fn reserve_for<T, A: Allocator>(list: &mut Vec<T, A>, length: usize) -> Result<(), AllocError>
    requires { vec_len list.old ≤ length }
    ensures items { list.new.items ≡ list.old.items }
    ensures room { vec_capacity list.old ≤ vec_capacity list.new }
    ensures ok { OnOk result (length ≤ vec_capacity list.new) }
    ensures full { OnErr result (vec_capacity list.old < length) }
{
    if length <= list.capacity() {
        return Ok(());
    }
    list.reserve(length - list.len())
}

impl<A: Allocator + Copy> Pairs<A> {
    /// No pairs. It takes no memory yet.
    pub fn new(alloc: A) -> Pairs<A>
        ensures { result.pairs ≡ [] }
    {
        Pairs {
            list: Vec::new(alloc),
            order: Vec::new(alloc),
            least: u32::MAX,
            above: 0,
            most: 0,
        }
    }

    /// Makes room for one more pair, where there is none.
    pub fn reserve_one(&mut self) -> Result<(), AllocError>
        ensures pairs { self.new.pairs ≡ self.old.pairs }
        ensures room { self.old.room ≤ self.new.room }
        ensures ok { OnOk result (0 < self.new.room) }
        ensures err { OnErr result (self.new ≡ self.old) }
        ensures full { OnErr result (self.old.room ≡ 0) }
    {
        reserve_one(&mut self.list)?;
        reserve_for(&mut self.order, self.list.len() + 1)?;
        self.most = self.list.capacity().min(self.order.capacity());
        Ok(())
    }

    /// Whether there is room for one more pair.
    #[inline(always)]
    pub fn has_room(&self) -> bool
        ensures room { result ≡ true → 0 < self.now.room }
        ensures none { result ≡ false → self.now.room ≡ 0 }
    {
        self.list.len() < self.most
    }

    /// The index of a cell's pair, if any. Outside of all cells it is a test, and no call.
    #[inline(always)]
    pub fn find<L: Ledger>(&self, cell: u32, looks: &mut Looks<L>) -> Option<usize>
        ensures found { IsFound cell self.now.pairs result }
        ensures looks { IsWithinDigits (length self.now.pairs) looks.old looks.new }
        ensures distinct { IsDistinct self.now.pairs }
    {
        if cell < self.least || self.above <= u64::from(cell) {
            return None;
        }
        match index_of(
            self.list.as_slice(),
            self.order.as_slice(),
            self.least,
            self.above,
            cell,
            looks,
        ) {
            Ok(index) => Some(index),
            Err(_) => None,
        }
    }

    /// Whether a cell is above all others, as is known without a search.
    #[inline(always)]
    fn is_above(&self, cell: u32) -> bool
        ensures { result ≡ true → IsAbove cell self.now.pairs }
    {
        self.above <= u64::from(cell)
    }

    /// Writes a word to a cell, and answers what that changed. A cell above all others needs no search.
    #[inline(always)]
    pub fn put(&mut self, cell: u32, word: u64) -> Change
        requires { 0 < self.old.room }
        ensures pairs { self.new.pairs ≡ with_write cell word self.old.pairs }
        ensures undone { undone result self.new.pairs ≡ self.old.pairs }
        ensures can_undo { CanUndo result self.new.pairs }
        ensures room { self.old.room ≤ self.new.room + 1 }
    {
        if self.is_above(cell) {
            push_entry(&mut self.order, cell, self.list.len());
            self.list.push_reserved((cell, word));
            self.least = self.least.min(cell);
            self.above = u64::from(cell) + 1;
            return Change::Added;
        }
        self.put_among(cell, word)
    }

    /// Writes a word to a cell that may be anywhere among the others.
    #[inline(never)]
    fn put_among(&mut self, cell: u32, word: u64) -> Change
        requires { 0 < self.old.room }
        ensures pairs { self.new.pairs ≡ with_write cell word self.old.pairs }
        ensures undone { undone result self.new.pairs ≡ self.old.pairs }
        ensures can_undo { CanUndo result self.new.pairs }
        ensures room { self.old.room ≤ self.new.room + 1 }
    {
        match dense_index(
            self.list.as_slice(),
            self.order.as_slice(),
            self.least,
            self.above,
            cell,
        ) {
            Some(index) => self.replace(index, cell, word),
            None => self.put_searched(cell, word),
        }
    }

    /// Writes a word to the cell of the pair at an index.
    #[inline(always)]
    fn replace(&mut self, index: usize, cell: u32, word: u64) -> Change
        requires { IsPlace cell self.old.pairs index }
        ensures pairs { self.new.pairs ≡ with_write cell word self.old.pairs }
        ensures undone { undone result self.new.pairs ≡ self.old.pairs }
        ensures can_undo { CanUndo result self.new.pairs }
        ensures room { self.new.room ≡ self.old.room }
    {
        let before = self.list[index].1;
        self.list[index] = (cell, word);
        Change::Replaced(index, before)
    }

    /// Writes a word to a cell that is searched.
    #[inline(never)]
    fn put_searched(&mut self, cell: u32, word: u64) -> Change
        requires { 0 < self.old.room }
        ensures pairs { self.new.pairs ≡ with_write cell word self.old.pairs }
        ensures undone { undone result self.new.pairs ≡ self.old.pairs }
        ensures can_undo { CanUndo result self.new.pairs }
        ensures room { self.old.room ≤ self.new.room + 1 }
    {
        match slot_of(
            self.list.as_slice(),
            self.order.as_slice(),
            self.least,
            self.above,
            cell,
        ) {
            Ok(index) => self.replace(index, cell, word),
            Err(at) => {
                keep_order(self.list.as_slice(), &mut self.order);
                insert_reserved(&mut self.order, at, (cell, self.list.len() as u64));
                self.list.push_reserved((cell, word));
                self.least = self.least.min(cell);
                self.above = self.above.max(u64::from(cell) + 1);
                Change::Added
            }
        }
    }

    /// Takes a change back.
    pub fn undo(&mut self, change: Change)
        requires { CanUndo change self.old.pairs }
        ensures pairs { self.new.pairs ≡ undone change self.old.pairs }
        ensures room { self.old.room ≤ self.new.room }
    {
        match change {
            Change::Added => {
                let (cell, _) = self.list.take_last();
                // An order rises, so it is its own order.
                if let Ok(at) = slot_of(self.order.as_slice(), &[], self.least, self.above, cell) {
                    self.order.remove(at);
                }
            }
            Change::Replaced(index, word) => {
                self.list[index].1 = word;
            }
        }
    }

    /// The pair at an index.
    pub fn at(&self, index: usize) -> (u32, u64)
        requires { index < length self.now.pairs }
        ensures pair { slice_get self.now.pairs index ≡ Some result }
        ensures within { index + 1 < 2 ^ 64 }
    {
        self.list[index]
    }

    /// How many pairs there are.
    pub fn len(&self) -> usize
        ensures value { result ≡ length self.now.pairs }
        ensures distinct { IsDistinct self.now.pairs }
    {
        self.list.len()
    }

    /// Takes all pairs out. The room stays.
    pub fn clear(&mut self)
        ensures pairs { self.new.pairs ≡ [] }
        ensures room { self.old.room ≤ self.new.room }
    {
        self.list.clear();
        self.order.clear();
        self.least = u32::MAX;
        self.above = 0;
    }
}
