//! An attempt: its logs and its begins.

ghost use Rattle.std.specs.Prelude.{◌≡◌, ◌⊎◌, ◌+◌, ◌-◌, ◌<◌, ◌≤◌, ◌^◌, suc, [], ◌∷◌, ◌++◌, true, false, if◌then◌else◌};
ghost use Rattle.std.specs.Prelude.{OnOk, OnErr, OnSome, length, take, drop, vec_len};
ghost use Rattle.std.specs.List.{slice_get};
ghost use Rattle.write_log.specs.Overlay.{overlay_word, with_write};
ghost use Rattle.nesting.specs.Nests.{GainsRoom, IsCancelled};

use super::Saved;
use read_log::ReadLog;
use std::alloc::{AllocError, Allocator, Global};
use std::marker::Model;
use std::mem;
use write_log::WriteLog;

/// The two logs of an attempt, what each of its begins saved, and whether the lock is kept.
///
/// Contracts see the begins, with the write log as it was at each inner one; the logs; and beside them what was set
/// aside, and numbers: for how many inner begins, reads and writes there is room. Only the calls named `prepare` take
/// memory. Room stays from one transaction to the next, that of the registers at each depth too.
#[derive(Drop)]
pub struct Attempt<A: Allocator = Global> {
    reads: ReadLog<A>,
    writes: WriteLog<A>,
    /// What the outermost begin saved and what was set aside; where they are turned, the other way round.
    one: Saved<A>,
    other: Saved<A>,
    turned: bool,
    /// The first `depth` are what the open inner begins saved, the outermost one first. The others are room.
    inner: Vec<Saved<A>, A>,
    depth: usize,
    kept: bool,
    alloc: A,
}

impl<A: Allocator> Model for Attempt<A> {
    ghost use Rattle.std.specs.Prelude.{◌-◌, ◌≤◌, if◌then◌else◌, min, [], take, length, vec_len};
    ghost use Rattle.nesting.specs.Nests.{Nest};
    ghost use Rattle.nesting.specs.inner.Checkpoints.{checkpoints};

    ghost Value = { Nest };

    ghost view = { λ a.
        record {
          begins = record {
            saved = if a.turned then a.other else a.one;
            inner = checkpoints [] (take a.depth a.inner.items) a.writes.marks;
          };
          aside = if a.turned then a.one
              else a.other;
          reads = a.reads.pairs;
          writes = a.writes.pairs;
          kept = a.kept;
          begin_room = min a.writes.room (vec_len a.inner - a.depth);
          read_room = a.reads.room;
          write_room = a.writes.put_room;
        } };

    // Each open inner begin has its list and its mark. Marks past those are of inner transactions that have committed.
    ghost invariant = { λ a. (a.depth ≤ vec_len a.inner) × (a.depth ≤ length a.writes.marks) };
}

/// Makes room for what one more inner begin saves.
#[inline(always)]
fn reserve_inner<A: Allocator + Copy>(
    inner: &mut Vec<Saved<A>, A>,
    depth: usize,
    alloc: A,
) -> Result<(), AllocError>
    requires open { depth ≤ vec_len inner.old }
    ensures room { OnOk result (depth < vec_len inner.new) }
    ensures open { take depth inner.new.items ≡ take depth inner.old.items }
    ensures more { vec_len inner.old ≤ vec_len inner.new }
    ensures full { OnErr result (vec_len inner.old ≡ depth) }
{
    if inner.len() == depth {
        inner.push(Saved::new(alloc))?;
    }
    Ok(())
}

/// Swaps what lies there with what was set aside.
#[inline(always)]
fn swap_aside<A: Allocator>(
    there: &mut Saved<A>,
    one: &mut Saved<A>,
    other: &mut Saved<A>,
    turned: bool,
)
    ensures there { there.new ≡ (if turned then one.old else other.old) }
    ensures aside { (if turned then one.new else other.new) ≡ there.old }
    ensures saved { (if turned then other.new else one.new) ≡ (if turned then other.old else one.old) }
{
    if turned {
        mem::swap(there, one);
    } else {
        mem::swap(there, other);
    }
}

impl<A: Allocator + Copy> Attempt<A> {
    /// Nothing is logged, and no begin is open. It takes no memory yet.
    pub fn new(alloc: A) -> Attempt<A>
        ensures inner { result.begins.inner ≡ [] }
        ensures reads { result.reads ≡ [] }
        ensures writes { result.writes ≡ [] }
        ensures kept { result.kept ≡ false }
    {
        Attempt {
            reads: ReadLog::new(alloc),
            writes: WriteLog::new(alloc),
            one: Saved::new(alloc),
            other: Saved::new(alloc),
            turned: false,
            inner: Vec::new(alloc),
            depth: 0,
            kept: false,
            alloc,
        }
    }

    /// Sets aside what the next begin saves, and makes room for that begin. The error comes only where there is no room
    /// for an inner begin, or more registers are to be saved than were set aside before, and the allocator refuses it.
    pub fn prepare_begin(
        &mut self,
        registers: &[u64],
        frames: usize,
        place: u32,
    ) -> Result<(), AllocError>
        ensures room { OnOk result (0 < self.new.begin_room) }
        ensures aside { OnOk result
            (self.new.aside ≡ record { registers = registers.now; frames = frames; place = place }) }
        ensures err { OnErr result (self.new.aside ≡ self.old.aside) }
        ensures others { GainsRoom (record self.old { aside = self.new.aside }) self.new }
        ensures full { OnErr result ((self.old.begin_room ≡ 0)
            ⊎ (length self.old.aside.registers < length registers.now)) }
    {
        reserve_inner(&mut self.inner, self.depth, self.alloc)?;
        self.writes.reserve_one()?;
        self.prepare_outermost(registers, frames, place)
    }

    /// Sets aside what the next outermost begin saves, which needs no room beside that of the registers. The error
    /// comes only where these are more than were set aside before, and the allocator refuses it.
    #[inline(always)]
    pub fn prepare_outermost(
        &mut self,
        registers: &[u64],
        frames: usize,
        place: u32,
    ) -> Result<(), AllocError>
        ensures aside { OnOk result
            (self.new.aside ≡ record { registers = registers.now; frames = frames; place = place }) }
        ensures err { OnErr result (self.new.aside ≡ self.old.aside) }
        ensures others { GainsRoom (record self.old { aside = self.new.aside }) self.new }
        ensures full { OnErr result (length self.old.aside.registers < length registers.now) }
    {
        if self.turned {
            self.one.save(registers, frames, place)
        } else {
            self.other.save(registers, frames, place)
        }
    }

    /// Makes room for one `log_read`. The error comes only where there is none and the allocator refuses it.
    pub fn prepare_read(&mut self) -> Result<(), AllocError>
        ensures room { OnOk result (0 < self.new.read_room) }
        ensures others { GainsRoom self.old self.new }
        ensures full { OnErr result (self.old.read_room ≡ 0) }
    {
        self.reads.reserve_one()
    }

    /// Makes room for one `write`. The error comes only where there is none and the allocator refuses it.
    #[inline(always)]
    pub fn prepare_write(&mut self) -> Result<(), AllocError>
        ensures room { OnOk result (0 < self.new.write_room) }
        ensures others { GainsRoom self.old self.new }
        ensures full { OnErr result (self.old.write_room ≡ 0) }
    {
        if self.writes.has_put_room() {
            return Ok(());
        }
        self.writes.reserve_one()
    }

    /// Begins anew, at an outermost begin that saves what was set aside.
    pub fn begin(&mut self)
        ensures saved { self.new.begins.saved ≡ self.old.aside }
        ensures inner { self.new.begins.inner ≡ [] }
        ensures reads { self.new.reads ≡ [] }
        ensures writes { self.new.writes ≡ [] }
        ensures kept { self.new.kept ≡ false }
        ensures read_room { self.new.read_room ≡ self.old.read_room + length self.old.reads }
        ensures write_room { self.old.write_room ≤ self.new.write_room }
    {
        self.turned = !self.turned;
        self.depth = 0;
        self.reads.clear();
        self.writes.clear();
        self.kept = false;
    }

    /// Opens a begin inside the others that saves what was set aside.
    pub fn begin_inner(&mut self)
        requires { 0 < self.old.begin_room }
        ensures saved { self.new.begins.saved ≡ self.old.begins.saved }
        ensures inner { self.new.begins.inner ≡ record { saved = self.old.aside; writes = self.old.writes }
            ∷ self.old.begins.inner }
        ensures reads { self.new.reads ≡ self.old.reads }
        ensures writes { self.new.writes ≡ self.old.writes }
        ensures kept { self.new.kept ≡ self.old.kept }
    {
        self.writes.mark(self.depth);
        swap_aside(
            &mut self.inner[self.depth],
            &mut self.one,
            &mut self.other,
            self.turned,
        );
        self.depth += 1;
    }

    /// Commits the innermost of the inner begins: what was written since stays.
    pub fn commit_inner(&mut self)
        requires { 0 < length self.old.begins.inner }
        ensures saved { self.new.begins.saved ≡ self.old.begins.saved }
        ensures inner { self.new.begins.inner ≡ drop 1 self.old.begins.inner }
        ensures reads { self.new.reads ≡ self.old.reads }
        ensures writes { self.new.writes ≡ self.old.writes }
        ensures kept { self.new.kept ≡ self.old.kept }
    {
        self.depth -= 1;
    }

    /// Goes back to the inner begin of this depth: the write log is what it was there, and what was saved is set aside.
    /// It and the begins inside it are closed.
    #[inline(always)]
    fn back_to(&mut self, depth: usize)
        requires { depth < length self.old.begins.inner }
        ensures saved { self.new.begins.saved ≡ self.old.begins.saved }
        ensures back { drop (length self.old.begins.inner - suc depth) self.old.begins.inner
            ≡ record { saved = self.new.aside; writes = self.new.writes } ∷ self.new.begins.inner }
        ensures reads { self.new.reads ≡ self.old.reads }
        ensures kept { self.new.kept ≡ self.old.kept }
    {
        self.writes.back_to(depth);
        swap_aside(
            &mut self.inner[depth],
            &mut self.one,
            &mut self.other,
            self.turned,
        );
        self.depth = depth;
    }

    /// Cancels the innermost of the inner begins: the write log is what it was there, and what was saved is set aside.
    /// The read log stays.
    pub fn cancel(&mut self)
        requires { 0 < length self.old.begins.inner }
        ensures saved { self.new.begins.saved ≡ self.old.begins.saved }
        ensures back { self.old.begins.inner ≡ record { saved = self.new.aside; writes = self.new.writes }
            ∷ self.new.begins.inner }
        ensures reads { self.new.reads ≡ self.old.reads }
        ensures kept { self.new.kept ≡ self.old.kept }
    {
        let innermost = self.depth() - 1;
        self.back_to(innermost);
    }

    /// Cancels so many begins as one, the last that were opened; the outermost begin counts. Where it is not among
    /// them, the write log is what it was at the outermost of these, and what was saved there is set aside. Where it
    /// is, this is an abort. The read log stays.
    pub fn cancel_outer(&mut self, levels: usize)
        requires several { 2 ≤ levels }
        requires open { levels ≤ length self.old.begins.inner + 1 }
        ensures back { IsCancelled self.old (drop (levels - 1) self.old.begins.inner) self.new }
        ensures reads { self.new.reads ≡ self.old.reads }
        ensures kept { self.new.kept ≡ self.old.kept }
    {
        let depth = self.depth();
        if levels <= depth {
            self.back_to(depth - levels);
        } else {
            self.abort();
        }
    }

    /// Sets aside what the outermost begin saved, to go back to. The logs stay until the next outermost begin, and are
    /// of no use.
    pub fn abort(&mut self)
        ensures back { self.new.aside ≡ self.old.begins.saved }
        ensures reads { self.new.reads ≡ self.old.reads }
        ensures writes { self.new.writes ≡ self.old.writes }
        ensures kept { self.new.kept ≡ self.old.kept }
    {
        let turned = !self.turned;
        self.turned = turned;
    }

    /// Logs what was found in a shared cell, named by its number.
    pub fn log_read(&mut self, cell: u32, word: u64)
        requires { 0 < self.old.read_room }
        ensures begins { self.new.begins ≡ self.old.begins }
        ensures reads { self.new.reads ≡ self.old.reads ++ (cell, word) ∷ [] }
        ensures writes { self.new.writes ≡ self.old.writes }
        ensures kept { self.new.kept ≡ self.old.kept }
    {
        self.reads.push(cell, word);
    }

    /// Writes a word to a cell.
    pub fn write(&mut self, cell: u32, word: u64)
        requires { 0 < self.old.write_room }
        ensures begins { self.new.begins ≡ self.old.begins }
        ensures reads { self.new.reads ≡ self.old.reads }
        ensures writes { self.new.writes ≡ with_write cell word self.old.writes }
        ensures kept { self.new.kept ≡ self.old.kept }
    {
        self.writes.put(cell, word);
    }

    /// Keeps the lock.
    pub fn keep(&mut self)
        ensures begins { self.new.begins ≡ self.old.begins }
        ensures reads { self.new.reads ≡ self.old.reads }
        ensures writes { self.new.writes ≡ self.old.writes }
        ensures kept { self.new.kept ≡ true }
    {
        self.kept = true;
    }

    /// Whether the lock is kept.
    pub fn is_kept(&self) -> bool
        ensures { result ≡ self.now.kept }
    {
        self.kept
    }

    /// The number of inner begins that are open.
    pub fn depth(&self) -> usize
        ensures { result ≡ length self.now.begins.inner }
    {
        self.depth
    }

    /// What was set aside: by `prepare_begin`, or by a cancel or an abort.
    pub fn aside(&self) -> &Saved<A>
        ensures { result.now ≡ self.now.aside }
    {
        if self.turned { &self.one } else { &self.other }
    }

    /// The word last written to a cell, if any.
    #[inline(always)]
    pub fn written_word(&self, cell: u32) -> Option<u64>
        ensures { result ≡ overlay_word cell self.now.writes }
    {
        self.writes.get(cell)
    }

    /// The pair of the read log at an index, from 0; none past the end.
    pub fn read_at(&self, index: usize) -> Option<(u32, u64)>
        ensures value { result ≡ slice_get self.now.reads index }
        ensures next { OnSome result (index + 1 < 2 ^ 64) }
    {
        self.reads.get(index)
    }

    /// The pair of the write log at an index, from 0, in order of first write; none past the end.
    pub fn write_at(&self, index: usize) -> Option<(u32, u64)>
        ensures value { result ≡ slice_get self.now.writes index }
        ensures next { OnSome result (index + 1 < 2 ^ 64) }
    {
        if index < self.writes.len() {
            Some(self.writes.pair_at(index))
        } else {
            None
        }
    }
}
