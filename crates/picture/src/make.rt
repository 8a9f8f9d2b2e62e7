//! What is drawn of an access to the lock or to a word.

use crate::attempt::{KnownAttempt, Load, NextLoad};
use crate::figure::Figure;
use crate::glyph::Look;
use crate::layout::{BOX, left_of, middle};
use crate::pieces::{Piece, push_pieces};
use crate::sheet::{Effect, Fold, Sheet, Store};
use crate::step::Step;
use crate::words::{put_name, put_value, words, words_of};
use machine::Event;
use norec_core::{Access, Answer};
use std::alloc::{AllocError, Allocator};

/// The first of these loads of a cell.
fn first_load(loads: &[Load], cell: u32) -> Option<Load> {
    'loads: for load in loads {
        if load.cell == cell {
            return Some(*load);
        }
    }
    None
}

impl<'p, A: Allocator + Copy> Sheet<'p, A> {
    /// What a thread's next load of the lock is for, and the moment of its attempt, where it is in one.
    fn phase(&self, thread: u32) -> Option<(NextLoad, u64)> {
        let attempt = self.lanes.get(thread as usize)?.open.as_ref()?;
        Some((attempt.phase, attempt.snapshot))
    }

    /// Sets what a thread's next load of the lock is for.
    fn set_phase(&mut self, thread: u32, phase: NextLoad) {
        let Some(lane) = self.lane(thread) else {
            return;
        };
        if let Some(attempt) = &mut lane.open {
            attempt.phase = phase;
        }
    }

    /// A thread begins an attempt at an even lock.
    fn begin(
        &mut self,
        to: &mut Vec<Figure<A>, A>,
        step: &Step<A>,
        value: u64,
    ) -> Result<(), AllocError> {
        let tries = match self.lane(step.thread) {
            Some(lane) => {
                lane.tries = lane.tries.saturating_add(1);
                lane.tries
            }
            None => 1,
        };
        let mut said = words(
            self.alloc,
            &[Piece::Plain(b"begin at "), Piece::Number(value)],
        )?;
        if tries > 1 {
            push_pieces(&mut said, &[Piece::Plain(b", try "), Piece::Number(tries)])?;
        }
        let row = self.rows;
        if self.is_drawing && self.transaction(step.keyword).is_some() {
            self.leave_row()?;
        }
        self.draw_glyph(
            to,
            step.thread,
            Look::new(b"lock", said.as_slice(), b"b", Some(step.accesses)),
        )?;
        let attempt = KnownAttempt {
            row,
            keyword: step.keyword,
            snapshot: value,
            reads: Vec::new(self.alloc),
            phase: NextLoad::Open,
            inner: Vec::new(self.alloc),
            is_kept: false,
        };
        if let Some(lane) = self.lane(step.thread) {
            lane.open = Some(attempt);
        }
        Ok(())
    }

    /// A thread waits.
    fn wait(&mut self, to: &mut Vec<Figure<A>, A>, step: &Step<A>) -> Result<(), AllocError> {
        let look = Look::new(b"wait", b"waits", b"g", Some(step.accesses));
        self.draw_glyph(to, step.thread, look.fold(Fold::Waits))
    }

    /// A load of the lock that is told by these words.
    fn see_lock(
        &mut self,
        to: &mut Vec<Figure<A>, A>,
        step: &Step<A>,
        what: &[Piece<'_>],
        phase: NextLoad,
    ) -> Result<(), AllocError> {
        self.set_phase(step.thread, phase);
        let said = words(self.alloc, what)?;
        self.draw_glyph(
            to,
            step.thread,
            Look::new(b"lock", said.as_slice(), b"", Some(step.accesses)),
        )
    }

    /// A read is done.
    fn end_read(
        &mut self,
        to: &mut Vec<Figure<A>, A>,
        step: &Step<A>,
        load: Load,
    ) -> Result<(), AllocError> {
        if let Some(lane) = self.lane(step.thread) {
            if let Some(attempt) = &mut lane.open {
                if first_load(attempt.reads.as_slice(), load.cell).is_none() {
                    attempt.reads.push(load)?;
                }
            }
        }
        self.set_phase(step.thread, NextLoad::Open);
        let value = self.snapshot(step.thread);
        let said = words(
            self.alloc,
            &[Piece::Plain(b"lock = "), Piece::Number(value)],
        )?;
        let look = Look::new(b"lock", said.as_slice(), b"g", Some(step.accesses));
        self.draw_glyph(to, step.thread, look.fold(Fold::Read(step.thread)))
    }

    /// The words that were read are of the moment of another lock.
    fn end_validation(
        &mut self,
        to: &mut Vec<Figure<A>, A>,
        step: &Step<A>,
        value: u64,
    ) -> Result<(), AllocError> {
        if let Some(lane) = self.lane(step.thread) {
            if let Some(attempt) = &mut lane.open {
                attempt.snapshot = value;
            }
        }
        let what = [
            Piece::Plain(b"lock = "),
            Piece::Number(value),
            Piece::Plain(b", goes on"),
        ];
        self.see_lock(to, step, &what, NextLoad::Open)
    }

    /// A load of the lock.
    fn load_lock(
        &mut self,
        to: &mut Vec<Figure<A>, A>,
        step: &Step<A>,
        value: u64,
    ) -> Result<(), AllocError> {
        let is_odd = value % 2 == 1;
        let lock = Piece::Plain(b"lock = ");
        match self.phase(step.thread) {
            None if is_odd => self.wait(to, step),
            None => self.begin(to, step, value),
            Some((NextLoad::Check(load), moment)) if value == moment => self.end_read(
                to, step, load,
            ),
            Some((NextLoad::Compare(time), _)) if value == time => self.end_validation(
                to, step, value,
            ),
            Some((NextLoad::Check(_), seen)) | Some((NextLoad::Compare(seen), _)) => {
                let what = [
                    lock,
                    Piece::Number(value),
                    Piece::Plain(b", not "),
                    Piece::Number(seen),
                ];
                self.see_lock(to, step, &what, NextLoad::Wait)
            }
            Some(_) if is_odd => self.wait(to, step),
            Some(_) => {
                let what = [lock, Piece::Number(value), Piece::Plain(b", compares")];
                self.see_lock(to, step, &what, NextLoad::Compare(value))
            }
        }
    }

    /// A load of a word.
    fn load_word(
        &mut self,
        to: &mut Vec<Figure<A>, A>,
        step: &Step<A>,
        cell: u32,
        word: u64,
    ) -> Result<(), AllocError> {
        let (thread, depth) = (step.thread, self.depth(step.thread));
        if step.event == Event::Abort {
            let said = words_of(self.alloc, self.cells, b"again", cell, word, depth)?;
            self.draw_glyph(
                to,
                thread,
                Look::new(b"load", said.as_slice(), b"b", Some(step.accesses)),
            )?;
            return self.drop_attempt(to, step, cell, word);
        }
        if let Some((NextLoad::Compare(_), _)) = self.phase(thread) {
            let look = Look::new(b"load", b"same", b"g", Some(step.accesses));
            return self.draw_glyph(to, thread, look.fold(Fold::Same(thread)));
        }
        let said = words_of(self.alloc, self.cells, b"load", cell, word, depth)?;
        let look = Look::new(b"load", said.as_slice(), b"", Some(step.accesses));
        self.fold = Fold::Never;
        self.draw_glyph(to, thread, look.fold(Fold::Read(thread)))?;
        let row = self.last();
        let Some(lane) = self.lane(thread) else {
            return Ok(());
        };
        if let Some(attempt) = &mut lane.open {
            if !attempt.is_kept {
                attempt.phase = NextLoad::Check(Load { cell, row, word });
            }
        }
        Ok(())
    }

    /// The bracket of a drop, from the read to the load that differs, in the last row.
    fn draw_bracket(&mut self, thread: u32, read: Load) -> Result<(), AllocError> {
        if !self.is_drawing {
            return Ok(());
        }
        let (inner, outer) = (
            left_of(thread).wrapping_add(BOX - 9),
            left_of(thread).wrapping_add(BOX - 4),
        );
        let (from, to) = (middle(read.row), middle(self.last()));
        let points = [(inner, from), (outer, from), (outer, to), (inner, to)];
        self.lines.push(Figure::line(self.alloc, &points, b"was")?)?;
        Ok(())
    }

    /// Tells of a drop in a sentence.
    fn tell_drop(
        &mut self,
        step: &Step<A>,
        cell: u32,
        word: u64,
        read: Load,
        store: Store,
    ) -> Result<(), AllocError> {
        push_pieces(
            &mut self.drop_sentences,
            &[
                Piece::Plain(b" Access "),
                Piece::Number(step.accesses),
                Piece::Plain(b": thread "),
                Piece::Number(u64::from(step.thread)),
                Piece::Plain(b" is dropped; "),
            ],
        )?;
        put_name(&mut self.drop_sentences, self.cells, cell)?;
        self.drop_sentences.extend_from_slice(b" was ")?;
        put_value(&mut self.drop_sentences, self.cells, cell, read.word)?;
        self.drop_sentences.extend_from_slice(b" and is ")?;
        put_value(&mut self.drop_sentences, self.cells, cell, word)?;
        push_pieces(
            &mut self.drop_sentences,
            &[
                Piece::Plain(b", stored by thread "),
                Piece::Number(u64::from(store.thread)),
                Piece::Plain(b" in access "),
                Piece::Number(store.access),
                Piece::Plain(b"."),
            ],
        )
    }

    /// What a thread has read first of a cell.
    fn read_of(&self, thread: u32, cell: u32) -> Option<Load> {
        let attempt = self.lanes.get(thread as usize)?.open.as_ref()?;
        first_load(attempt.reads.as_slice(), cell)
    }

    /// An attempt is dropped, since a word that it has read has changed.
    fn drop_attempt(
        &mut self,
        to: &mut Vec<Figure<A>, A>,
        step: &Step<A>,
        cell: u32,
        word: u64,
    ) -> Result<(), AllocError> {
        self.dropped = self.dropped.saturating_add(1);
        let mut said = words(self.alloc, &[Piece::Plain(b"dropped")])?;
        if let Some(read) = self.read_of(step.thread, cell) {
            said.extend_from_slice(b": was ")?;
            put_value(&mut said, self.cells, cell, read.word)?;
            self.draw_bracket(step.thread, read)?;
            if self.is_drawing {
                if let Some(store) = self.last_store(cell) {
                    self.tell_drop(step, cell, word, read, store)?;
                }
            }
        }
        self.leave(to, step.thread, b"dropped", b"cross", said.as_slice())
    }

    /// A swap of the lock.
    fn swap(
        &mut self,
        to: &mut Vec<Figure<A>, A>,
        step: &Step<A>,
        from: u64,
    ) -> Result<(), AllocError> {
        let swap = Piece::Plain(b"swap ");
        if let Answer::Lost(value) = step.answer {
            self.set_phase(step.thread, NextLoad::Wait);
            let said = words(
                self.alloc,
                &[
                    swap,
                    Piece::Number(from),
                    Piece::Plain(b": lost, "),
                    Piece::Number(value),
                ],
            )?;
            return self.draw_glyph(
                to,
                step.thread,
                Look::new(b"miss", said.as_slice(), b"", Some(step.accesses)),
            );
        }
        let said = words(
            self.alloc,
            &[swap, Piece::Number(from), Piece::Plain(b": won")],
        )?;
        self.draw_glyph(
            to,
            step.thread,
            Look::new(b"take", said.as_slice(), b"b", Some(step.accesses)),
        )?;
        if let Some(lane) = self.lane(step.thread) {
            if let Some(attempt) = &mut lane.open {
                attempt.is_kept = true;
            }
        }
        self.take_lock(step.thread, from.saturating_add(1))
    }

    /// A store of a word.
    fn store_word(
        &mut self,
        to: &mut Vec<Figure<A>, A>,
        step: &Step<A>,
        cell: u32,
        word: u64,
    ) -> Result<(), AllocError> {
        let said = words_of(
            self.alloc,
            self.cells,
            b"store",
            cell,
            word,
            self.depth(step.thread),
        )?;
        self.draw_glyph(
            to,
            step.thread,
            Look::new(b"store", said.as_slice(), b"b", Some(step.accesses)),
        )?;
        let store = Store {
            thread: step.thread,
            access: step.accesses,
        };
        self.add_store(cell, store);
        Ok(())
    }

    /// A store of the lock, with which a transaction took effect.
    fn store_lock(
        &mut self,
        to: &mut Vec<Figure<A>, A>,
        step: &Step<A>,
        value: u64,
    ) -> Result<(), AllocError> {
        let said = words(
            self.alloc,
            &[Piece::Plain(b"store lock = "), Piece::Number(value)],
        )?;
        self.draw_glyph(
            to,
            step.thread,
            Look::new(b"give", said.as_slice(), b"", Some(step.accesses)),
        )?;
        self.release_lock(value)?;
        self.add_effect(Effect {
            snapshot: value.saturating_sub(2),
            took_lock: true,
            thread: step.thread,
            access: step.accesses,
            is_drawn: self.is_drawing,
        })?;
        let number = [Piece::Plain(b", #"), Piece::Number(value / 2)];
        match step.event {
            Event::Trap(trap) => {
                let mut said = words(
                    self.alloc,
                    &[
                        Piece::Plain(b"trap "),
                        Piece::Number(u64::from(trap.number())),
                    ],
                )?;
                push_pieces(&mut said, &number)?;
                self.leave(to, step.thread, b"trapped", b"trap", said.as_slice())
            }
            _ => {
                let mut said = words(self.alloc, &[Piece::Plain(b"commit")])?;
                push_pieces(&mut said, &number)?;
                self.leave(to, step.thread, b"wrote", b"done", said.as_slice())
            }
        }
    }

    /// Draws the glyph of an access.
    pub(crate) fn make(
        &mut self,
        to: &mut Vec<Figure<A>, A>,
        step: &Step<A>,
    ) -> Result<(), AllocError> {
        match (step.access, step.answer) {
            (Access::LoadLock, Answer::Value(value)) => self.load_lock(to, step, value),
            (Access::LoadWord(cell), Answer::Value(word)) => self.load_word(to, step, cell, word),
            (Access::Swap(from), _) => self.swap(to, step, from),
            (Access::StoreWord(cell, word), _) => self.store_word(to, step, cell, word),
            (Access::StoreLock(value), _) => self.store_lock(to, step, value),
            _ => Ok(()),
        }
    }
}
