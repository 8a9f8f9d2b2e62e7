//! What is drawn of a step.

ghost use Rattle.std.specs.Prelude.{◌≡◌};
ghost use Rattle.picture.specs.Glyphs.{is_noted};

use crate::attempt::Inner;
use crate::boxes::Fate;
use crate::figure::Figure;
use crate::glyph::Look;
use crate::layout::CHARACTERS;
use crate::pieces::Piece;
use crate::sheet::{Effect, Fold, Sheet};
use crate::words::words;
use machine::Event;
use norec_core::{Access, Answer};
use std::alloc::{AllocError, Allocator, Global};
use syntax::thread_end::Trap;

/// How many accesses are drawn.
pub(crate) const MOST_ACCESSES: u64 = 400;

/// What the instruction of a local step does, where that has a glyph.
#[derive(Clone, Copy, PartialEq, Eq)]
pub enum LocalAction {
    /// The instruction begins a transaction.
    Begin,
    /// The instruction ends a transaction.
    Commit,
    Print,
    /// The instruction has no glyph.
    Other,
}

/// A step of a replay.
#[derive(Drop)]
pub struct Step<A: Allocator = Global> {
    /// How many accesses all threads had made with the step.
    pub accesses: u64,
    pub thread: u32,
    /// The step's line of the timeline, without the LF.
    pub line: Vec<u8, A>,
    pub action: LocalAction,
    /// How many transactions a cancel in the step takes away.
    pub levels: u32,
    /// The offset of the keyword of the transaction that the step's instruction begins, where it is known.
    pub keyword: Option<usize>,
    pub access: Access,
    pub answer: Answer,
    pub event: Event,
    /// What the step printed.
    pub printed: Vec<u8, A>,
}

impl<A: Allocator> Step<A> {
    /// Whether the step has a glyph: it is an access, something happens in it, or it begins, ends or prints.
    pub fn is_noted(&self) -> bool
        ensures { result ≡ is_noted self.now.access self.now.event self.now.action }
    {
        self.access != Access::Local
            || self.event != Event::Quiet
            || self.action != LocalAction::Other
    }
}

/// Spells a byte that is printed.
fn put_spelled<A: Allocator>(to: &mut Vec<u8, A>, byte: u8) -> Result<(), AllocError> {
    match byte {
        b'\n' => to.extend_from_slice(b"\\n"),
        b'\t' => to.extend_from_slice(b"\\t"),
        _ => Ok(to.push(byte)?),
    }
}

impl<'p, A: Allocator + Copy> Sheet<'p, A> {
    /// A transaction of a thread takes effect: as of its moment, without the lock.
    fn take_effect(&mut self, thread: u32, access: u64) -> Result<(), AllocError> {
        let snapshot = self.snapshot(thread);
        self.add_effect(Effect {
            snapshot,
            took_lock: false,
            thread,
            access,
            is_drawn: self.is_drawing,
        })
    }

    /// The even lock of whose moment a thread's attempt is.
    pub(crate) fn snapshot(&self, thread: u32) -> u64 {
        match self.lanes.get(thread as usize) {
            Some(lane) => match &lane.open {
                Some(attempt) => attempt.snapshot,
                None => 0,
            },
            None => 0,
        }
    }

    /// Whether a thread is in an attempt.
    pub(crate) fn is_open(&self, thread: u32) -> bool {
        match self.lanes.get(thread as usize) {
            Some(lane) => lane.open.is_some(),
            None => false,
        }
    }

    /// The inner begin of a thread.
    fn begin_inner(
        &mut self,
        to: &mut Vec<Figure<A>, A>,
        step: &Step<A>,
    ) -> Result<(), AllocError> {
        let (thread, keyword) = (step.thread, step.keyword);
        let said = self.words_of_inner(thread, keyword)?;
        self.draw_glyph(to, thread, Look::new(b"in", said.as_slice(), b"", None))?;
        let row = self.last();
        let Some(lane) = self.lane(thread) else {
            return Ok(());
        };
        match &mut lane.open {
            Some(attempt) => Ok(attempt.inner.push(Inner { row, keyword })?),
            None => Ok(()),
        }
    }

    /// What is said of an inner transaction of a thread where it begins.
    fn words_of_inner(
        &mut self,
        thread: u32,
        keyword: Option<usize>,
    ) -> Result<Vec<u8, A>, AllocError> {
        let mut said = Vec::new(self.alloc);
        if !self.is_drawing {
            return Ok(said);
        }
        let room = CHARACTERS.saturating_sub(self.depth(thread).min(3));
        match self.inner_transaction(keyword) {
            Some(transaction) => transaction.put_heading(&mut said, room)?,
            None => said.extend_from_slice(b"begin inner")?,
        }
        Ok(said)
    }

    /// The end of a thread's attempt without the lock: what it is called, then of which moment it is.
    fn leave_after(
        &mut self,
        to: &mut Vec<Figure<A>, A>,
        step: &Step<A>,
        class: &'static [u8],
        symbol: &'static [u8],
        what: &[Piece<'_>],
    ) -> Result<(), AllocError> {
        let moment = self.snapshot(step.thread) / 2;
        self.take_effect(step.thread, step.accesses)?;
        let mut said = words(self.alloc, what)?;
        crate::pieces::push_pieces(
            &mut said,
            &[Piece::Plain(b", after #"), Piece::Number(moment)],
        )?;
        self.leave(to, step.thread, class, symbol, said.as_slice())
    }

    /// A print of a thread.
    fn print(&mut self, to: &mut Vec<Figure<A>, A>, step: &Step<A>) -> Result<(), AllocError> {
        let fold = Fold::Print(step.thread);
        let standing = match self.lanes.get(step.thread as usize) {
            Some(lane) if self.fold == fold => lane.standing.unwrap_or(0),
            _ => 0,
        };
        let room = CHARACTERS.saturating_sub(standing);
        let mut spelled = Vec::new(self.alloc);
        'bytes: for byte in step.printed.iter() {
            put_spelled(&mut spelled, *byte)?;
        }
        if spelled.len() > room {
            spelled.truncate(room.saturating_sub(2));
            spelled.extend_from_slice(b"..".get(..room.min(2)).unwrap_or(b""))?;
        }
        let look = Look::new(b"print", spelled.as_slice(), b"i", None);
        self.draw_glyph(to, step.thread, look.fold(fold))
    }

    /// A cancel of a thread.
    fn cancel(&mut self, to: &mut Vec<Figure<A>, A>, step: &Step<A>) -> Result<(), AllocError> {
        if step.levels as usize > self.depth(step.thread) {
            return self.leave_after(to, step, b"cancelled", b"not", &[Piece::Plain(b"cancel")]);
        }
        self.draw_glyph(
            to,
            step.thread,
            Look::new(b"not", b"cancel inner", b"b", None),
        )?;
        'levels: for _ in 0..step.levels {
            self.close_inner(step.thread, self.last(), Fate::Over(b"cancelled"))?;
        }
        Ok(())
    }

    /// A commit of a thread that wrote nothing, or the end of an inner transaction.
    fn commit(&mut self, to: &mut Vec<Figure<A>, A>, step: &Step<A>) -> Result<(), AllocError> {
        if self.depth(step.thread) == 0 {
            return self.leave_after(to, step, b"taken", b"done", &[Piece::Plain(b"commit")]);
        }
        self.draw_glyph(to, step.thread, Look::new(b"done", b"end inner", b"", None))?;
        self.close_inner(step.thread, self.last(), Fate::Over(b"inner"))
    }

    /// A trap of a thread without the lock.
    fn trap(
        &mut self,
        to: &mut Vec<Figure<A>, A>,
        step: &Step<A>,
        number: u64,
    ) -> Result<(), AllocError> {
        let what = [Piece::Plain(b"trap "), Piece::Number(number)];
        if self.is_open(step.thread) {
            return self.leave_after(to, step, b"trapped", b"trap", &what);
        }
        let said = words(self.alloc, &what)?;
        self.draw_glyph(
            to,
            step.thread,
            Look::new(b"trap", said.as_slice(), b"b", None),
        )
    }

    /// Draws the glyph of a step that has one.
    pub(crate) fn draw(
        &mut self,
        to: &mut Vec<Figure<A>, A>,
        step: &Step<A>,
    ) -> Result<(), AllocError> {
        if step.access != Access::Local {
            return self.make(to, step);
        }
        match (step.event, step.action) {
            (Event::Trap(trap), _) => self.trap(to, step, u64::from(trap.number())),
            (Event::Cancel, _) => self.cancel(to, step),
            (_, LocalAction::Begin) => self.begin_inner(to, step),
            (_, LocalAction::Commit) => self.commit(to, step),
            (_, LocalAction::Print) => self.print(to, step),
            _ => Ok(()),
        }
    }
}
