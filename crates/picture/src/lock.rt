//! The column of the lock.

use crate::figure::Figure;
use crate::layout::{ROW, baseline, top};
use crate::pieces::Piece;
use crate::sheet::{Holding, Sheet};
use crate::words::words;
use std::alloc::{AllocError, Allocator};

impl<'p, A: Allocator + Copy> Sheet<'p, A> {
    /// Adds words of the column.
    fn put_at(
        &mut self,
        row: u64,
        class: &'static [u8],
        what: &[Piece<'_>],
    ) -> Result<(), AllocError> {
        let said = words(self.alloc, what)?;
        let at = (46, baseline(row));
        self.lock
            .push(Figure::words(self.alloc, at, class, said.as_slice())?)?;
        Ok(())
    }

    /// Draws the lock while it was free, up to a row, which is not of it.
    pub(crate) fn draw_free(&mut self, end: u64) -> Result<(), AllocError> {
        let (row, value) = self.free;
        if end <= row {
            return Ok(());
        }
        let lower = top(end.saturating_sub(1)).wrapping_add(ROW);
        let size = (50, lower.wrapping_sub(top(row)));
        self.lock
            .push(Figure::rectangle((42, top(row)), size, b"free"))?;
        self.put_at(row, b"", &[Piece::Number(value)])
    }

    /// Draws the lock while a thread had it, down to a row.
    pub(crate) fn draw_held(&mut self, held: Holding, end: u64) -> Result<(), AllocError> {
        if !self.is_drawing {
            return Ok(());
        }
        let lower = top(end.max(held.row)).wrapping_add(ROW);
        let size = (50, lower.wrapping_sub(top(held.row)));
        self.lock
            .push(Figure::rectangle((42, top(held.row)), size, b"held"))?;
        let what = [
            Piece::Number(held.value),
            Piece::Plain(b" T"),
            Piece::Number(u64::from(held.thread)),
        ];
        self.put_at(held.row, b"w", &what)?;
        if end <= held.row {
            return Ok(());
        }
        let number = held.value.saturating_add(1) / 2;
        self.put_at(
            held.row.saturating_add(1),
            b"w",
            &[Piece::Plain(b"#"), Piece::Number(number)],
        )
    }

    /// A thread takes the lock in the last row.
    pub(crate) fn take_lock(&mut self, thread: u32, value: u64) -> Result<(), AllocError> {
        let row = self.last();
        self.draw_free(row)?;
        self.held = Some(Holding { row, thread, value });
        Ok(())
    }

    /// The lock is released in the last row, to this even value.
    pub(crate) fn release_lock(&mut self, value: u64) -> Result<(), AllocError> {
        let row = self.last();
        if let Some(held) = self.held {
            self.draw_held(held, row)?;
        }
        self.held = None;
        self.free = (self.rows, value);
        Ok(())
    }
}
