//! Glyphs: what is drawn of one step, in a row of its own or behind others.

use crate::figure::Figure;
use crate::layout::{BOX, baseline, inset, left_of, middle};
use crate::pieces::Piece;
use crate::sheet::{Fold, Sheet};
use crate::words::words;
use machine::Event;
use norec_core::Access;
use std::alloc::{AllocError, Allocator, Global};

/// The glyph of a step.
#[derive(Drop)]
pub(crate) struct Glyph<A: Allocator = Global> {
    /// How many accesses all threads had made with the step.
    pub accesses: u64,
    pub thread: u32,
    pub access: Access,
    pub event: Event,
    /// The step's line of the timeline, as XML wants it.
    pub title: Vec<u8, A>,
    /// What is drawn of the step, the symbol first.
    pub figures: Vec<Figure<A>, A>,
}

/// How a glyph looks.
#[derive(Clone, Copy)]
pub(crate) struct Look<'a> {
    pub symbol: &'static [u8],
    pub words: &'a [u8],
    /// The class of the glyph's words, or an empty one.
    pub class: &'static [u8],
    /// How many accesses all threads have made, where the step is one.
    pub number: Option<u64>,
    pub fold: Fold,
}

impl<'a> Look<'a> {
    /// A glyph in a row of its own.
    pub(crate) fn new(
        symbol: &'static [u8],
        words: &'a [u8],
        class: &'static [u8],
        number: Option<u64>,
    ) -> Look<'a> {
        Look {
            symbol,
            words,
            class,
            number,
            fold: Fold::Never,
        }
    }

    /// The glyph, where it may stand in the last row.
    pub(crate) fn fold(self, fold: Fold) -> Look<'a> {
        Look { fold, ..self }
    }
}

/// How far to the right of its thread's first glyph in a row a glyph stands, where so many stand there.
fn behind(fold: Fold, standing: usize) -> u64 {
    match fold {
        Fold::Waits => 44u64.wrapping_add((standing as u64).saturating_mul(4).min(96)),
        Fold::Same(_) => 44u64.wrapping_add((standing as u64).saturating_mul(8).min(96)),
        _ => 0,
    }
}

/// Draws a symbol.
fn put_symbol<A: Allocator>(
    to: &mut Vec<Figure<A>, A>,
    name: &'static [u8],
    x: u64,
    y: u64,
) -> Result<(), AllocError> {
    to.push(Figure::Symbol { name, x, y })?;
    Ok(())
}

impl<'p, A: Allocator + Copy> Sheet<'p, A> {
    /// Begins a row.
    fn begin_row(&mut self, look: &Look<'_>) -> Result<(), AllocError> {
        let row = self.rows;
        self.rows = row.saturating_add(1);
        self.fold = look.fold;
        'lanes: for lane in self.lanes.iter_mut() {
            lane.standing = None;
        }
        if let Some(number) = look.number {
            let said = words(self.alloc, &[Piece::Number(number)])?;
            let at = (34, baseline(row));
            self.lines
                .push(Figure::words(self.alloc, at, b"n", said.as_slice())?)?;
        }
        Ok(())
    }

    /// Begins a row in which no glyph stands.
    pub(crate) fn leave_row(&mut self) -> Result<(), AllocError> {
        self.begin_row(&Look::new(b"", b"", b"", None))
    }

    /// Says that a thread has one more glyph in the last row. Gives how much of it stood there before.
    fn stand(&mut self, thread: u32, look: &Look<'_>) -> Option<usize> {
        let row = self.last();
        let lane = self.lane(thread)?;
        let before = lane.standing;
        let more = match look.fold {
            Fold::Print(_) => look.words.len(),
            _ => 1,
        };
        lane.latest = row;
        lane.standing = Some(before.unwrap_or(0).saturating_add(more));
        before
    }

    /// Draws the words of a glyph.
    fn put_look(
        &mut self,
        to: &mut Vec<Figure<A>, A>,
        at: (u64, u64),
        look: &Look<'_>,
    ) -> Result<(), AllocError> {
        to.push(Figure::words(self.alloc, at, look.class, look.words)?)?;
        Ok(())
    }

    /// Draws a glyph of a thread: in a new row, or behind what stands in the last row, where that may go on so. Before
    /// the drawing begins there is none.
    pub(crate) fn draw_glyph(
        &mut self,
        to: &mut Vec<Figure<A>, A>,
        thread: u32,
        look: Look<'_>,
    ) -> Result<(), AllocError> {
        if !self.is_drawing {
            return Ok(());
        }
        let goes_on = look.fold != Fold::Never && look.fold == self.fold;
        if !goes_on {
            self.begin_row(&look)?;
        }
        let row = self.last();
        let moved = inset(self.depth(thread));
        let x = left_of(thread).wrapping_add(10).wrapping_add(moved);
        let y = middle(row);
        match self.stand(thread, &look) {
            None => {
                put_symbol(to, look.symbol, x, y)?;
                self.put_look(to, (x.wrapping_add(11), baseline(row)), &look)
            }
            Some(standing) => match look.fold {
                Fold::Print(_) if look.words.is_empty() => Ok(()),
                Fold::Print(_) => {
                    let at = x
                        .wrapping_add(11)
                        .wrapping_add((standing as u64).wrapping_mul(7));
                    self.put_look(to, (at, baseline(row)), &look)
                }
                Fold::Read(_) => {
                    let x = left_of(thread)
                        .wrapping_add(BOX)
                        .wrapping_sub(14)
                        .wrapping_sub(moved);
                    put_symbol(to, look.symbol, x, y)
                }
                _ => put_symbol(
                    to,
                    look.symbol,
                    x.wrapping_add(behind(look.fold, standing)),
                    y,
                ),
            },
        }
    }
}
