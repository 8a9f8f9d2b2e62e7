//! The whole picture.

ghost use Rattle.std.specs.Prelude.{◌≡◌, ◌++◌, OnOk, IfOk, [], flat_map, map};
ghost use Rattle.picture.specs.Arrows.{arrow_text, arrows_among};
ghost use Rattle.picture.specs.Glyphs.{first_drawn, glyph_text, is_among, is_drawn};
ghost use Rattle.picture.specs.Pictures.{IsPicture, head_text, size_text, told_text, view_box};
ghost use Rattle.picture.specs.inner.Views.{HasDrawn, drawn_of, glyph_of, step_of};

use crate::arrow::{Arrow, add_arrow, put_arrow};
use crate::boxes::{Fate, TransactionBox, put_boxes};
use crate::figure::{Figure, put_figures, put_measure};
use crate::foot::put_foot;
use crate::glyph::Glyph;
use crate::layout::{FIRST, HEADED, PITCH, ROW, TOP, foot, heads, left_of};
use crate::legend::{STYLE, put_legend};
use crate::pieces::{Piece, push_pieces, put_number, put_words};
use crate::sheet::{Cell, Sheet};
use crate::source::Transaction;
use crate::step::{MOST_ACCESSES, Step};
use crate::words::words;
use std::alloc::{AllocError, Allocator, Global};
use syntax::thread_end::Status;

/// The first access that is drawn. Where it is 0, all is drawn from the beginning.
fn first_drawn(from: u32) -> u32
    ensures { result ≡ first_drawn from }
{
    if from == 0 { 1 } else { from }
}

/// Whether a step after so many accesses is among those that are drawn.
pub(crate) fn is_among(from: u32, accesses: u64) -> bool
    ensures { result ≡ is_among from accesses }
{
    let end = u64::from(first_drawn(from)) + MOST_ACCESSES;
    u64::from(from) <= accesses && accesses < end
}

/// Whether a step is drawn: it has a glyph, and is made among the accesses that are drawn.
fn is_drawn<A: Allocator>(step: &Step<A>, from: u32) -> bool
    ensures { result ≡ is_drawn from step.now.accesses step.now.access step.now.event step.now.action }
{
    is_among(from, step.accesses) && step.is_noted()
}

/// The drawing of the steps so far. It does not keep the steps: there may be a million.
#[derive(Drop)]
pub(crate) struct Drawing<'p, A: Allocator = Global> {
    pub sheet: Sheet<'p, A>,
    /// The glyphs of the steps that are drawn, in order.
    pub glyphs: Vec<Glyph<A>, A>,
    /// The arrows among these glyphs.
    pub arrows: Vec<Arrow, A>,
}

impl<'p, A: Allocator + Copy> Drawing<'p, A> {
    /// An empty drawing of so many threads. `cells` names the cells of memory, `transactions` has those of the source.
    pub(crate) fn new(
        alloc: A,
        cells: &'p [Cell<A>],
        transactions: &'p [Transaction<A>],
        threads: u32,
    ) -> Result<Drawing<'p, A>, AllocError>
        ensures { IfOk result (λ d. HasDrawn d []) }
    {
        Ok(Drawing {
            sheet: Sheet::new(alloc, cells, transactions, threads)?,
            glyphs: Vec::new(alloc),
            arrows: Vec::new(alloc),
        })
    }
}

/// Makes a step that comes before the first access that is drawn. Nothing is drawn of it.
fn pass<A: Allocator + Copy>(
    sheet: &mut Sheet<'_, A>,
    step: &Step<A>,
    from: u32,
) -> Result<(), AllocError> {
    if step.accesses < u64::from(from) && step.is_noted() {
        let mut nothing = Vec::new(sheet.alloc);
        sheet.draw(&mut nothing, step)?;
    }
    Ok(())
}

/// Draws the glyph of a step.
fn draw_step<A: Allocator + Copy>(
    sheet: &mut Sheet<'_, A>,
    step: &Step<A>,
) -> Result<Glyph<A>, AllocError>
    ensures { IfOk result (λ g. (glyph_of g).step ≡ step_of step.now) }
{
    let mut title = Vec::new(sheet.alloc);
    put_words(&mut title, step.line.as_slice())?;
    let mut figures = Vec::new(sheet.alloc);
    sheet.draw(&mut figures, step)?;
    Ok(Glyph {
        accesses: step.accesses,
        thread: step.thread,
        access: step.access,
        event: step.event,
        title,
        figures,
    })
}

/// Adds the glyph of a step, if it is drawn, and the arrow that leads to it, if one does.
fn add_glyph<A: Allocator + Copy>(
    sheet: &mut Sheet<'_, A>,
    glyphs: &mut Vec<Glyph<A>, A>,
    arrows: &mut Vec<Arrow, A>,
    step: &Step<A>,
    from: u32,
) -> Result<(), AllocError>
    requires { map (λ a. (a.store, a.load)) arrows.old.items ≡ arrows_among (map glyph_of glyphs.old.items) }
    ensures glyphs { OnOk result (map (λ g. (glyph_of g).step) glyphs.new.items
        ≡ map (λ g. (glyph_of g).step) glyphs.old.items ++ drawn_of from step.now) }
    ensures arrows { OnOk result
        (map (λ a. (a.store, a.load)) arrows.new.items ≡ arrows_among (map glyph_of glyphs.new.items)) }
{
    if is_drawn(step, from) {
        sheet.wake();
        let glyph = draw_step(sheet, step)?;
        add_arrow(arrows, sheet, glyphs.as_slice(), &glyph)?;
        glyphs.push(glyph)?;
    }
    Ok(())
}

/// Makes a step, and draws it, if it is drawn.
pub(crate) fn draw<A: Allocator + Copy>(
    drawing: &mut Drawing<'_, A>,
    step: &Step<A>,
    from: u32,
) -> Result<(), AllocError>
    requires { map (λ a. (a.store, a.load)) drawing.old.arrows.items
        ≡ arrows_among (map glyph_of drawing.old.glyphs.items) }
    ensures glyphs { OnOk result (map (λ g. (glyph_of g).step) drawing.new.glyphs.items
        ≡ map (λ g. (glyph_of g).step) drawing.old.glyphs.items ++ drawn_of from step.now) }
    ensures arrows { OnOk result (map (λ a. (a.store, a.load)) drawing.new.arrows.items
        ≡ arrows_among (map glyph_of drawing.new.glyphs.items)) }
{
    pass(&mut drawing.sheet, step, from)?;
    add_glyph(
        &mut drawing.sheet,
        &mut drawing.glyphs,
        &mut drawing.arrows,
        step,
        from,
    )
}

/// Draws what is open at the end.
fn close<A: Allocator + Copy>(sheet: &mut Sheet<'_, A>, threads: u32) -> Result<(), AllocError> {
    sheet.wake();
    let last = sheet.last();
    'threads: for thread in 0..threads {
        sheet.close_all_inner(thread, last, Fate::Open)?;
        let open = match sheet.lane(thread) {
            Some(lane) => lane.open.take(),
            None => None,
        };
        if let Some(attempt) = open {
            sheet.close_attempt(thread, &attempt, last, Fate::Open)?;
        }
    }
    match sheet.held {
        Some(held) => sheet.draw_held(held, last),
        None => sheet.draw_free(last.saturating_add(1)),
    }
}

/// How many transactions stand in a line at the foot.
fn in_a_line(threads: u32) -> u64 {
    u64::from(threads).wrapping_mul(PITCH).wrapping_add(12) / 98
}

/// The line of each thread, and at its end how the thread ended.
fn put_lanes<A: Allocator + Copy>(
    lanes: &mut Vec<Figure<A>, A>,
    heads: &mut Vec<Figure<A>, A>,
    sheet: &Sheet<'_, A>,
    ends: &[Status],
    is_cut: bool,
    lower: u64,
) -> Result<(), AllocError> {
    let alloc = sheet.alloc;
    let mut thread = 0u32;
    'threads: for end in ends {
        let latest = match sheet.lanes.get(thread as usize) {
            Some(lane) => lane.latest,
            None => 0,
        };
        let is_over = !is_cut && *end != Status::Running;
        let y = if is_over { foot(latest) } else { lower };
        let x = left_of(thread).wrapping_add(10);
        lanes.push(Figure::line(alloc, &[(x, TOP + ROW), (x, y)], b"lane")?)?;
        let mut said = Vec::new(alloc);
        if is_cut {
            said.extend_from_slice(b"..")?;
        } else {
            put_end(&mut said, *end)?;
        }
        let at = (left_of(thread).wrapping_add(6), y.wrapping_add(13));
        heads.push(Figure::words(alloc, at, b"b", said.as_slice())?)?;
        thread = thread.wrapping_add(1);
    }
    Ok(())
}

/// The rows of heads.
fn put_heads<A: Allocator + Copy>(
    alloc: A,
    to: &mut Vec<Figure<A>, A>,
    threads: u32,
    rows: u64,
    width: u64,
) -> Result<(), AllocError> {
    'heads: for k in 0..rows.saturating_add(HEADED - 1) / HEADED {
        let y = heads(k.wrapping_mul(HEADED));
        if k == 0 {
            to.push(Figure::words(alloc, (42, y.wrapping_add(12)), b"h", b"lock")?)?;
        } else {
            to.push(Figure::rectangle(
                (FIRST - 8, y.wrapping_add(1)),
                (width.wrapping_sub(FIRST), ROW - 2),
                b"band",
            ))?;
        }
        'threads: for thread in 0..threads {
            let said = words(
                alloc,
                &[Piece::Plain(b"thread "), Piece::Number(u64::from(thread))],
            )?;
            let at = (left_of(thread).wrapping_add(6), y.wrapping_add(12));
            to.push(Figure::words(alloc, at, b"h", said.as_slice())?)?;
        }
    }
    Ok(())
}

/// The last access that is drawn where there are enough of them.
fn last_of(from: u32) -> u64 {
    u64::from(first_drawn(from)).wrapping_add(MOST_ACCESSES - 1)
}

/// The title of a picture: the file, the threads and the accesses that are drawn. So many were made.
fn put_title<A: Allocator>(
    to: &mut Vec<u8, A>,
    file: &[u8],
    threads: u32,
    from: u32,
    accesses: u64,
) -> Result<(), AllocError> {
    let last = accesses.min(last_of(from));
    push_pieces(
        to,
        &[
            Piece::Plain(file),
            Piece::Plain(b": "),
            Piece::Number(u64::from(threads)),
            Piece::Plain(b" threads, "),
        ],
    )?;
    if from <= 1 {
        return push_pieces(to, &[Piece::Number(last), Piece::Plain(b" accesses")]);
    }
    if u64::from(from) > accesses {
        return push_pieces(
            to,
            &[
                Piece::Plain(b"none of "),
                Piece::Number(accesses),
                Piece::Plain(b" accesses"),
            ],
        );
    }
    push_pieces(
        to,
        &[
            Piece::Plain(b"accesses "),
            Piece::Number(u64::from(from)),
            Piece::Plain(b" to "),
            Piece::Number(last),
            Piece::Plain(b" of "),
            Piece::Number(accesses),
        ],
    )
}

/// Adds how a thread is found behind the last step.
fn put_end<A: Allocator>(to: &mut Vec<u8, A>, status: Status) -> Result<(), AllocError> {
    match status {
        Status::Running => to.extend_from_slice(b"running"),
        Status::Ended => to.extend_from_slice(b"ended"),
        Status::Trapped(trap) => push_pieces(
            to,
            &[
                Piece::Plain(b"trap "),
                Piece::Number(u64::from(trap.number())),
            ],
        ),
    }
}

/// What a picture is made of, but for its arrows and glyphs, and for the text in the titles of boxes.
#[derive(Drop)]
pub(crate) struct Page<A: Allocator = Global> {
    pub width: u64,
    pub height: u64,
    pub title: Vec<u8, A>,
    pub description: Vec<u8, A>,
    /// What is drawn beneath the boxes: those that come later are above.
    pub below: Vec<Figure<A>, A>,
    /// The boxes, which are drawn beneath the arrows.
    pub boxes: Vec<TransactionBox<A>, A>,
    /// What is drawn above the arrows and beneath the glyphs.
    pub between: Vec<Figure<A>, A>,
}

/// What a picture says of itself: what took effect, and of each drop why.
fn description_of<A: Allocator + Copy>(sheet: &Sheet<'_, A>) -> Result<Vec<u8, A>, AllocError> {
    let drawn = sheet
        .effects
        .iter()
        .filter(|effect| effect.is_drawn)
        .count();
    let what = [
        Piece::Number(drawn as u64),
        Piece::Plain(b" transactions took effect, "),
        Piece::Number(sheet.dropped),
        Piece::Plain(b" attempts were dropped."),
        Piece::Plain(sheet.drop_sentences.as_slice()),
    ];
    words(sheet.alloc, &what)
}

/// Adds all that is drawn beneath the boxes, with the lanes of threads.
fn put_below<A: Allocator + Copy>(
    to: &mut Vec<Figure<A>, A>,
    sheet: &mut Sheet<'_, A>,
    lanes: &mut Vec<Figure<A>, A>,
    size: (u64, u64),
    title: &[u8],
) -> Result<(), AllocError> {
    to.push(Figure::rectangle((0, 0), size, b"paper"))?;
    to.push(Figure::words(sheet.alloc, (12, 20), b"h", title)?)?;
    put_legend(sheet.alloc, to)?;
    to.append(lanes)?;
    to.append(&mut sheet.lock)
}

/// The boxes of a picture. Those that close first are above.
fn boxes_of<A: Allocator + Copy>(
    sheet: &mut Sheet<'_, A>,
) -> Result<Vec<TransactionBox<A>, A>, AllocError> {
    let mut boxes = Vec::new(sheet.alloc);
    sheet.boxes.reverse();
    boxes.append(&mut sheet.boxes)?;
    Ok(boxes)
}

/// All of a picture but its arrows and glyphs. So many accesses were made.
fn page_of<A: Allocator + Copy>(
    sheet: &mut Sheet<'_, A>,
    ends: &[Status],
    from: u32,
    accesses: u64,
    file: &[u8],
) -> Result<Page<A>, AllocError> {
    let alloc = sheet.alloc;
    let threads = ends.len().min(64) as u32;
    let left = accesses.saturating_sub(last_of(from));
    let lower = foot(sheet.last());
    let count = in_a_line(threads).max(4);
    let wide = left_of(threads);
    let width = wide.max(660);
    let (mut lanes, mut between) = (Vec::new(alloc), Vec::new(alloc));
    between.append(&mut sheet.lines)?;
    put_lanes(&mut lanes, &mut between, sheet, ends, left > 0, lower)?;
    put_heads(alloc, &mut between, threads, sheet.rows.max(1), wide)?;
    let last = last_of(from);
    let height = put_foot(&mut between, sheet, lower, width, count, left, last)?;
    let mut title = Vec::new(alloc);
    put_title(&mut title, file, threads, from, accesses)?;
    let description = description_of(sheet)?;
    let mut below = Vec::new(alloc);
    put_below(
        &mut below,
        sheet,
        &mut lanes,
        (width, height),
        title.as_slice(),
    )?;
    Ok(Page {
        width,
        height,
        title,
        description,
        below,
        boxes: boxes_of(sheet)?,
        between,
    })
}

/// Spells the part of its plane that a picture shows.
fn put_view_box<A: Allocator>(
    to: &mut Vec<u8, A>,
    width: u64,
    height: u64,
) -> Result<(), AllocError>
    ensures { OnOk result (to.new.items ≡ to.old.items ++ view_box width height) }
{
    to.extend_from_slice(b" viewBox=\"0 0 ")?;
    put_number(to, width)?;
    to.extend_from_slice(b" ")?;
    put_number(to, height)?;
    to.extend_from_slice(b"\"")?;
    Ok(())
}

/// Spells the size of a picture.
fn put_size<A: Allocator>(to: &mut Vec<u8, A>, width: u64, height: u64) -> Result<(), AllocError>
    ensures { OnOk result (to.new.items ≡ to.old.items ++ size_text width height) }
{
    put_measure(to, b"width", width)?;
    put_measure(to, b"height", height)?;
    put_view_box(to, width, height)
}

/// Spells what a picture is, in words for people.
fn put_told<A: Allocator>(
    to: &mut Vec<u8, A>,
    title: &[u8],
    description: &[u8],
) -> Result<(), AllocError>
    ensures { OnOk result (to.new.items ≡ to.old.items ++ told_text title.now description.now) }
{
    to.extend_from_slice(b"<title id=\"t\">")?;
    put_words(to, title)?;
    to.extend_from_slice(b"</title>\n<desc id=\"d\">")?;
    put_words(to, description)?;
    to.extend_from_slice(b"</desc>\n")?;
    Ok(())
}

/// Spells the head of a picture.
fn put_head<A: Allocator>(to: &mut Vec<u8, A>, page: &Page<A>) -> Result<(), AllocError>
    ensures { OnOk result (to.new.items ≡ to.old.items
        ++ head_text page.now.width page.now.height page.now.title.items page.now.description.items) }
{
    to.extend_from_slice(b"<svg xmlns=\"http://www.w3.org/2000/svg\"")?;
    put_size(to, page.width, page.height)?;
    to.extend_from_slice(b" role=\"img\" aria-labelledby=\"t d\">\n")?;
    put_told(to, page.title.as_slice(), page.description.as_slice())?;
    to.extend_from_slice(STYLE)?;
    Ok(())
}

/// Spells a glyph.
fn put_glyph<A: Allocator>(to: &mut Vec<u8, A>, glyph: &Glyph<A>) -> Result<(), AllocError>
    ensures { OnOk result (to.new.items ≡ to.old.items ++ glyph_text (glyph_of glyph.now)) }
{
    to.extend_from_slice(b"<g><title>")?;
    to.extend_from_slice(glyph.title.as_slice())?;
    to.extend_from_slice(b"</title>\n")?;
    put_figures(to, glyph.figures.as_slice())?;
    to.extend_from_slice(b"</g>\n")
}

/// Spells glyphs.
fn put_glyphs<A: Allocator>(to: &mut Vec<u8, A>, glyphs: &[Glyph<A>]) -> Result<(), AllocError>
    ensures { OnOk result (to.new.items ≡ to.old.items ++ flat_map glyph_text (map glyph_of glyphs.now)) }
{
    'glyphs: for glyph in glyphs {
        put_glyph(to, glyph)?;
    }
    Ok(())
}

/// Spells arrows.
fn put_arrows<A: Allocator>(to: &mut Vec<u8, A>, arrows: &[Arrow]) -> Result<(), AllocError>
    ensures { OnOk result (to.new.items ≡ to.old.items ++ flat_map arrow_text arrows.now) }
{
    'arrows: for arrow in arrows {
        put_arrow(to, arrow)?;
    }
    Ok(())
}

/// The text of a picture of a source.
fn picture_text<A: Allocator>(
    alloc: A,
    text: &str,
    page: &Page<A>,
    arrows: &[Arrow],
    glyphs: &[Glyph<A>],
) -> Result<Vec<u8, A>, AllocError>
    requires { map (λ a. (a.store, a.load)) arrows.now ≡ arrows_among (map glyph_of glyphs.now) }
    ensures { IfOk result (λ v. IsPicture text.now (map (λ g. (glyph_of g).step) glyphs.now) v.items) }
{
    let mut svg = Vec::new(alloc);
    put_head(&mut svg, page)?;
    put_figures(&mut svg, page.below.as_slice())?;
    put_boxes(&mut svg, text, page.boxes.as_slice())?;
    put_arrows(&mut svg, arrows)?;
    put_figures(&mut svg, page.between.as_slice())?;
    put_glyphs(&mut svg, glyphs)?;
    svg.extend_from_slice(b"</svg>\n")?;
    Ok(svg)
}

/// The picture of a drawing. `ends` has the status of each of its 1 to 64 threads after the steps, in which so many
/// accesses were made. At most 400 of these are drawn, from this one on. `file` is the name of the source.
pub(crate) fn picture<A: Allocator + Copy>(
    drawing: &mut Drawing<'_, A>,
    text: &str,
    from: u32,
    ends: &[Status],
    accesses: u64,
    file: &[u8],
) -> Result<Vec<u8, A>, AllocError>
    requires { map (λ a. (a.store, a.load)) drawing.old.arrows.items
        ≡ arrows_among (map glyph_of drawing.old.glyphs.items) }
    ensures { IfOk result
        (λ v. IsPicture text.now (map (λ g. (glyph_of g).step) drawing.old.glyphs.items) v.items) }
{
    let threads = ends.len().min(64) as u32;
    close(&mut drawing.sheet, threads)?;
    let page = page_of(&mut drawing.sheet, ends, from, accesses, file)?;
    picture_text(
        drawing.sheet.alloc,
        text,
        &page,
        drawing.arrows.as_slice(),
        drawing.glyphs.as_slice(),
    )
}
