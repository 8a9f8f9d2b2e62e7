//! Arrows: from the store that changed a word to the load for which an attempt was dropped.

ghost use Rattle.std.specs.Prelude.{◌≡◌, ◌++◌, OnOk, Some, if◌then◌else◌, map, option_to_list};
ghost use Rattle.picture.specs.Arrows.{arrow_title, arrow_to, arrow_way, dot_text, dropped_for, end_at, is_store_to};
ghost use Rattle.picture.specs.Arrows.{arrow_text, last_store, start_of, tip_of};
ghost use Rattle.picture.specs.Glyphs.{height_of};
ghost use Rattle.picture.specs.inner.Views.{figure_of, glyph_of};

use crate::figure::{Figure, put_line, put_measure};
use crate::glyph::Glyph;
use crate::layout::{left_of, right_of};
use crate::pieces::put_number;
use crate::sheet::Sheet;
use machine::Event;
use norec_core::Access;
use std::alloc::{AllocError, Allocator};

/// Where an arrow ends that leads from a glyph or to it.
#[derive(Clone, Copy)]
pub(crate) struct ArrowEnd {
    /// How many accesses all threads had made with the glyph's step.
    pub access: u64,
    pub thread: u32,
    pub height: u64,
}

/// An arrow from a store to a load.
#[derive(Clone, Copy)]
pub(crate) struct Arrow {
    pub store: ArrowEnd,
    pub load: ArrowEnd,
    /// Where the arrow goes up or down.
    pub gutter: u64,
}

/// The height at which a glyph of these figures stands.
fn height_of<A: Allocator>(figures: &[Figure<A>]) -> u64
    ensures { result ≡ height_of (map figure_of figures.now) }
{
    match figures.first() {
        Some(Figure::Symbol { y, .. }) => *y,
        Some(Figure::Words { .. }) => 0,
        Some(Figure::Rectangle { .. }) => 0,
        Some(Figure::Line { .. }) => 0,
        None => 0,
    }
}

/// Where an arrow from or to a glyph ends.
fn end_at<A: Allocator>(glyph: &Glyph<A>) -> ArrowEnd
    ensures { result ≡ end_at (glyph_of glyph.now) }
{
    ArrowEnd {
        access: glyph.accesses,
        thread: glyph.thread,
        height: height_of(glyph.figures.as_slice()),
    }
}

/// The last store to a cell with one more glyph.
fn later_store<A: Allocator>(
    found: Option<ArrowEnd>,
    glyph: &Glyph<A>,
    cell: u32,
) -> Option<ArrowEnd>
    ensures { result ≡ if is_store_to cell glyph.now.access then Some (end_at (glyph_of glyph.now)) else found }
{
    match glyph.access {
        Access::StoreWord(to, _) if to == cell => Some(end_at(glyph)),
        _ => found,
    }
}

/// The last store to a cell among glyphs.
fn last_store<A: Allocator>(glyphs: &[Glyph<A>], cell: u32) -> Option<ArrowEnd>
    ensures { result ≡ last_store cell (map glyph_of glyphs.now) }
{
    let mut found = None;
    'glyphs: for glyph in glyphs {
        found = later_store(found, glyph, cell);
    }
    found
}

/// The cell for whose word an attempt is dropped in a glyph's step.
fn dropped_for<A: Allocator>(glyph: &Glyph<A>) -> Option<u32>
    ensures { result ≡ dropped_for glyph.now.access glyph.now.event }
{
    match (glyph.access, glyph.event) {
        (Access::LoadWord(cell), Event::Abort) => Some(cell),
        _ => None,
    }
}

/// Where the arrow to a glyph behind others begins and ends, if it has one.
fn arrow_to<A: Allocator>(before: &[Glyph<A>], glyph: &Glyph<A>) -> Option<(ArrowEnd, ArrowEnd)>
    ensures { result ≡ arrow_to (map glyph_of before.now) (glyph_of glyph.now) }
{
    let cell = dropped_for(glyph)?;
    let store = last_store(before, cell)?;
    Some((store, end_at(glyph)))
}

impl<'p, A: Allocator + Copy> Sheet<'p, A> {
    /// How many arrows lead to a thread so far. There is one more from now on.
    fn count_arrow(&mut self, thread: u32) -> u64 {
        match self.lane(thread) {
            Some(lane) => {
                let before = lane.drops;
                lane.drops = before.saturating_add(1);
                before
            }
            None => 0,
        }
    }

    /// Where the next arrow from a thread to a thread goes up or down.
    fn gutter(&mut self, from: u32, to: u32) -> u64 {
        let aside = (self.count_arrow(to) % 4).wrapping_mul(4);
        if from < to {
            left_of(to).wrapping_sub(6).wrapping_sub(aside)
        } else {
            right_of(to).wrapping_add(6).wrapping_add(aside)
        }
    }
}

/// Adds the arrow to a glyph behind others, if it has one.
pub(crate) fn add_arrow<A: Allocator + Copy>(
    arrows: &mut Vec<Arrow, A>,
    sheet: &mut Sheet<'_, A>,
    before: &[Glyph<A>],
    glyph: &Glyph<A>,
) -> Result<(), AllocError>
    ensures { OnOk result (map (λ a. (a.store, a.load)) arrows.new.items
        ≡ map (λ a. (a.store, a.load)) arrows.old.items
        ++ option_to_list (arrow_to (map glyph_of before.now) (glyph_of glyph.now))) }
{
    let Some((store, load)) = arrow_to(before, glyph) else {
        return Ok(());
    };
    let gutter = sheet.gutter(store.thread, load.thread);
    arrows.push(Arrow {
        store,
        load,
        gutter,
    })?;
    Ok(())
}

/// The side of the store's lane at which an arrow begins.
fn start_of(arrow: &Arrow) -> u64
    ensures { result ≡ start_of arrow.now }
{
    if arrow.store.thread < arrow.load.thread {
        right_of(arrow.store.thread)
    } else {
        left_of(arrow.store.thread)
    }
}

/// The side of the load's lane at which an arrow ends.
fn tip_of(arrow: &Arrow) -> u64
    ensures { result ≡ tip_of arrow.now }
{
    if arrow.store.thread < arrow.load.thread {
        left_of(arrow.load.thread)
    } else {
        right_of(arrow.load.thread)
    }
}

/// Spells the dot at an arrow's beginning.
fn put_dot<A: Allocator>(to: &mut Vec<u8, A>, x: u64, y: u64) -> Result<(), AllocError>
    ensures { OnOk result (to.new.items ≡ to.old.items ++ dot_text x y) }
{
    to.extend_from_slice(b"<circle")?;
    put_measure(to, b"cx", x)?;
    put_measure(to, b"cy", y)?;
    to.extend_from_slice(b" r=\"2.5\" class=\"dot\"/>\n")
}

/// Spells an arrow's way: across at the store, up or down, and across at the load.
fn put_way<A: Allocator>(to: &mut Vec<u8, A>, arrow: &Arrow) -> Result<(), AllocError>
    ensures { OnOk result (to.new.items ≡ to.old.items ++ arrow_way arrow.now) }
{
    let (start, tip) = (start_of(arrow), tip_of(arrow));
    let (from, below) = (arrow.store.height, arrow.load.height);
    let corners = [
        (start, from),
        (arrow.gutter, from),
        (arrow.gutter, below),
        (tip, below),
    ];
    put_line(to, &corners, b"why")?;
    put_dot(to, start, from)
}

/// Spells an arrow's title: the accesses that it leads from and to.
fn put_title<A: Allocator>(to: &mut Vec<u8, A>, arrow: &Arrow) -> Result<(), AllocError>
    ensures { OnOk result (to.new.items ≡ to.old.items ++ arrow_title arrow.now) }
{
    to.extend_from_slice(b"access ")?;
    put_number(to, arrow.store.access)?;
    to.extend_from_slice(b", then access ")?;
    put_number(to, arrow.load.access)
}

/// Spells an arrow.
pub(crate) fn put_arrow<A: Allocator>(to: &mut Vec<u8, A>, arrow: &Arrow) -> Result<(), AllocError>
    ensures { OnOk result (to.new.items ≡ to.old.items ++ arrow_text arrow.now) }
{
    to.extend_from_slice(b"<g><title>")?;
    put_title(to, arrow)?;
    to.extend_from_slice(b"</title>\n")?;
    put_way(to, arrow)?;
    to.extend_from_slice(b"</g>\n")
}
