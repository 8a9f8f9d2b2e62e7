//! Boxes: what has become of attempts, and of transactions inside them.

ghost use Rattle.std.specs.Prelude.{◌≡◌, ◌++◌, ◌≤◌, OnOk, flat_map, length, map};
ghost use Rattle.picture.specs.Boxes.{box_text, passage_title};
ghost use Rattle.picture.specs.Figures.{figures_text};
ghost use Rattle.picture.specs.Glyphs.{group_text};
ghost use Rattle.picture.specs.inner.Views.{box_of, figure_of};

use crate::attempt::KnownAttempt;
use crate::figure::{Figure, put_figures};
use crate::glyph::Look;
use crate::layout::{HEADING, ROW, baseline, inset, left_of, right_of, top};
use crate::sheet::Sheet;
use crate::source::{Passage, is_transaction, no_passage, put_passage};
use std::alloc::{AllocError, Allocator, Global};

/// A box is open where its transaction is not over; else it is of a class.
#[derive(Clone, Copy)]
pub(crate) enum Fate {
    Open,
    Over(&'static [u8]),
}

/// The box of a transaction.
#[derive(Drop)]
pub(crate) struct TransactionBox<A: Allocator = Global> {
    /// Where the transaction stands in the source; without a byte where that is not told.
    pub passage: Passage,
    pub figures: Vec<Figure<A>, A>,
}

/// Spells a box whose passage is a transaction's.
fn put_titled<A: Allocator>(
    to: &mut Vec<u8, A>,
    text: &str,
    drawn: &TransactionBox<A>,
) -> Result<(), AllocError>
    requires { drawn.now.passage.start ≤ length text.now }
    ensures { OnOk result (to.new.items ≡ to.old.items
        ++ group_text (passage_title text.now drawn.now.passage)
        (figures_text (map figure_of drawn.now.figures.items))) }
{
    to.extend_from_slice(b"<g><title>")?;
    put_passage(to, text, drawn.passage)?;
    to.extend_from_slice(b"</title>\n")?;
    put_figures(to, drawn.figures.as_slice())?;
    to.extend_from_slice(b"</g>\n")?;
    Ok(())
}

/// Spells a box.
fn put_box<A: Allocator>(
    to: &mut Vec<u8, A>,
    text: &str,
    drawn: &TransactionBox<A>,
) -> Result<(), AllocError>
    ensures { OnOk result (to.new.items ≡ to.old.items ++ box_text text.now (box_of drawn.now)) }
{
    if is_transaction(text, drawn.passage) {
        put_titled(to, text, drawn)
    } else {
        put_figures(to, drawn.figures.as_slice())
    }
}

/// Spells boxes.
pub(crate) fn put_boxes<A: Allocator>(
    to: &mut Vec<u8, A>,
    text: &str,
    boxes: &[TransactionBox<A>],
) -> Result<(), AllocError>
    ensures { OnOk result (to.new.items ≡ to.old.items ++ flat_map (box_text text.now) (map box_of boxes.now)) }
{
    'boxes: for drawn in boxes {
        put_box(to, text, drawn)?;
    }
    Ok(())
}

impl<'p, A: Allocator + Copy> Sheet<'p, A> {
    /// Names a box that has its first row at this height, if it is an outermost one. Gives the passage of its title.
    fn name_box(
        &mut self,
        to: &mut Vec<Figure<A>, A>,
        at: (u64, u64),
        depth: usize,
        keyword: Option<usize>,
    ) -> Result<Passage, AllocError> {
        if depth > 0 {
            return Ok(match self.inner_transaction(keyword) {
                Some(transaction) => transaction.passage,
                None => no_passage(),
            });
        }
        let Some(transaction) = self.transaction(keyword) else {
            return Ok(no_passage());
        };
        let mut said = Vec::new(self.alloc);
        transaction.put_heading(&mut said, HEADING)?;
        to.push(Figure::words(self.alloc, at, b"", said.as_slice())?)?;
        Ok(transaction.passage)
    }

    /// Draws the box of a transaction of a thread from a row to a row. Its keyword begins at this offset of the source.
    fn draw_box(
        &mut self,
        thread: u32,
        rows: (u64, u64),
        fate: Fate,
        depth: usize,
        keyword: Option<usize>,
    ) -> Result<(), AllocError> {
        if !self.is_drawing {
            return Ok(());
        }
        let left = left_of(thread).wrapping_add(inset(depth));
        let right = right_of(thread).wrapping_sub(inset(depth));
        let upper = top(rows.0).wrapping_add(1);
        let lower = top(rows.1.max(rows.0)).wrapping_add(ROW).wrapping_sub(1);
        let size = (right.wrapping_sub(left), lower.wrapping_sub(upper));
        let class: &'static [u8] = match fate {
            Fate::Over(class) => class,
            Fate::Open => b"running",
        };
        let mut figures = Vec::new(self.alloc);
        figures.push(Figure::rectangle((left, upper), size, class))?;
        if let Fate::Open = fate {
            let sides = [(left, lower), (left, upper), (right, upper), (right, lower)];
            figures.push(Figure::line(self.alloc, &sides, b"sides")?)?;
        }
        let at = (left.wrapping_add(4), baseline(rows.0));
        let passage = self.name_box(&mut figures, at, depth, keyword)?;
        self.boxes.push(TransactionBox { passage, figures })?;
        Ok(())
    }

    /// Draws the box of the innermost transaction of a thread that is open, down to a row.
    pub(crate) fn close_inner(
        &mut self,
        thread: u32,
        row: u64,
        fate: Fate,
    ) -> Result<(), AllocError> {
        let depth = self.depth(thread);
        let Some(lane) = self.lane(thread) else {
            return Ok(());
        };
        let Some(attempt) = &mut lane.open else {
            return Ok(());
        };
        let Some(begun) = attempt.inner.pop() else {
            return Ok(());
        };
        self.draw_box(thread, (begun.row, row), fate, depth, begun.keyword)
    }

    /// Draws the boxes of all transactions of a thread that are open inside its attempt.
    pub(crate) fn close_all_inner(
        &mut self,
        thread: u32,
        row: u64,
        fate: Fate,
    ) -> Result<(), AllocError> {
        'inner: for _ in 0..self.depth(thread) {
            self.close_inner(thread, row, fate)?;
        }
        Ok(())
    }

    /// Draws the box of a thread's attempt, down to a row.
    pub(crate) fn close_attempt(
        &mut self,
        thread: u32,
        attempt: &KnownAttempt<A>,
        row: u64,
        fate: Fate,
    ) -> Result<(), AllocError> {
        self.draw_box(thread, (attempt.row, row), fate, 0, attempt.keyword)
    }

    /// Says in a row what has become of a thread's attempt, which ends there.
    pub(crate) fn leave(
        &mut self,
        to: &mut Vec<Figure<A>, A>,
        thread: u32,
        class: &'static [u8],
        symbol: &'static [u8],
        words: &[u8],
    ) -> Result<(), AllocError> {
        self.close_all_inner(thread, self.last(), Fate::Over(class))?;
        self.draw_glyph(to, thread, Look::new(symbol, words, b"b", None))?;
        let row = self.last();
        let Some(lane) = self.lane(thread) else {
            return Ok(());
        };
        if class != b"dropped".as_slice() {
            lane.tries = 0;
        }
        match lane.open.take() {
            Some(attempt) => self.close_attempt(thread, &attempt, row, Fate::Over(class)),
            None => Ok(()),
        }
    }
}
