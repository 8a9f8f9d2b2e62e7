//! The steps of a replay, as they are drawn.

ghost use Rattle.std.specs.Prelude.{◌≡◌, ◌<◌, ◌++◌, ◌∷◌, [], IfOk, IsTrue, IfSome, OnSome, flat_map, map};
ghost use Rattle.std.specs.Prelude.{slice_get};
ghost use Rattle.world.specs.Simulations.{further};
ghost use Rattle.replay.specs.Replays.{simulation_after, timeline_of};
ghost use Rattle.report.specs.Timeline.{step_words};
ghost use Rattle.picture.specs.Arrows.{arrows_among};
ghost use Rattle.picture.specs.Glyphs.{is_among};
ghost use Rattle.picture.specs.Pictures.{IsPicture};
ghost use Rattle.picture.specs.Replayed.{IsDrawn, action_at, action_of, if_drawn};
ghost use Rattle.picture.specs.inner.Views.{HasDrawn, drawn_of, glyph_of};

use crate::cells::cells_of;
use crate::source::transactions_of;
use crate::step::{LocalAction, Step};
use crate::svg::{Drawing, draw, is_among, picture};
use bytecode::{Code, InstrView};
use lex::lex;
use machine::StepShown;
use report::step_text;
use std::alloc::{AllocError, Allocator};
use syntax::thread_end::Status;
use syntax::tree::Unit;
use world::World;

/// What an instruction does, where a local step of it has a glyph.
fn action_of<A: Allocator>(code: &Code<A>, place: u32) -> LocalAction
    ensures { result ≡ action_of (slice_get code.now.instructions place) }
{
    match code.instr(place as usize) {
        Some(InstrView::Begin(_)) => LocalAction::Begin,
        Some(InstrView::Commit) => LocalAction::Commit,
        Some(InstrView::PrintText(_) | InstrView::PrintNumber(_, _)) => LocalAction::Print,
        _ => LocalAction::Other,
    }
}

/// What the instruction at a thread's place does; a thread that is over does nothing.
fn action_at<A: Allocator>(code: &Code<A>, status: Status, place: u32) -> LocalAction
    ensures { result ≡ action_at code.now status place }
{
    match status {
        Status::Running => action_of(code, place),
        Status::Ended | Status::Trapped(_) => LocalAction::Other,
    }
}

/// How many transactions the instruction at a place takes away, where it cancels.
fn levels_at<A: Allocator>(code: &Code<A>, place: u32) -> u32 {
    match code.instr(place as usize) {
        Some(InstrView::CancelOuter(levels)) => levels,
        _ => 1,
    }
}

/// Where the keyword of the transaction stands that the instruction at a place begins.
fn keyword_at<A: Allocator>(code: &Code<A>, action: LocalAction, place: u32) -> Option<usize> {
    if action != LocalAction::Begin {
        return None;
    }
    match code.span_at(place as usize) {
        Some(span) => Some(span.start),
        None => None,
    }
}

/// The line of a step in the timeline, where the step is made among the accesses that are drawn.
fn line_of<A: Allocator + Copy>(
    alloc: A,
    code: &Code<A>,
    accesses: u64,
    thread: u32,
    shown: &StepShown,
    from: u32,
) -> Result<Vec<u8, A>, AllocError>
    ensures { IfOk result
        (λ v. IsTrue (is_among from accesses) → v.items ≡ step_words code.now (accesses, thread, shown.now)) }
{
    if is_among(from, accesses) {
        step_text(alloc, code, accesses, thread, shown)
    } else {
        Ok(Vec::new(alloc))
    }
}

/// A step as it is drawn, where it is.
fn drawn_step<A: Allocator + Copy>(
    alloc: A,
    code: &Code<A>,
    accesses: u64,
    thread: u32,
    shown: &StepShown,
    printed: Vec<u8, A>,
    from: u32,
) -> Result<Step<A>, AllocError>
    ensures { IfOk result (λ s. drawn_of from s ≡ if_drawn from code.now (accesses, thread, shown.now)) }
{
    let action = action_at(code, shown.status, shown.place);
    Ok(Step {
        accesses,
        thread,
        line: line_of(alloc, code, accesses, thread, shown, from)?,
        action,
        levels: levels_at(code, shown.place),
        keyword: keyword_at(code, action, shown.place),
        access: shown.access,
        answer: shown.answer,
        event: shown.event,
        printed,
    })
}

/// The output of a thread from this byte on.
fn printed_from<A: Allocator + Copy>(
    alloc: A,
    world: &World<A>,
    thread: u32,
    start: usize,
) -> Result<Vec<u8, A>, AllocError>
    requires { thread < world.now.threads }
{
    let output = world.output(thread).as_bytes();
    Vec::from_slice(alloc, &output[start.min(output.len())..])
}

/// Makes the next step of a thread of a world, and returns it as it is drawn.
fn next_step<A: Allocator + Copy>(
    alloc: A,
    code: &Code<A>,
    world: &mut World<A>,
    thread: u32,
    from: u32,
) -> Option<Step<A>>
    ensures made { OnSome result (world.new ≡ further world.old (thread ∷ [])) }
    ensures drawn { IfSome result (λ s. flat_map (if_drawn from code.now) (timeline_of world.new)
        ≡ flat_map (if_drawn from code.now) (timeline_of world.old) ++ drawn_of from s) }
{
    if thread >= world.threads() {
        return None;
    }
    let before = world.output(thread).len();
    let Ok(shown) = world.step_shown(thread) else {
        return None;
    };
    let Ok(printed) = printed_from(alloc, world, thread, before) else {
        return None;
    };
    match drawn_step(alloc, code, world.accesses(), thread, &shown, printed, from) {
        Ok(step) => Some(step),
        Err(_) => None,
    }
}

/// Makes the next step of a thread of a world, and draws it if a picture shows it.
fn draw_next<A: Allocator + Copy>(
    drawing: &mut Drawing<'_, A>,
    code: &Code<A>,
    world: &mut World<A>,
    thread: u32,
    from: u32,
) -> Option<()>
    requires { HasDrawn drawing.old (flat_map (if_drawn from code.now) (timeline_of world.old)) }
    ensures made { OnSome result (world.new ≡ further world.old (thread ∷ [])) }
    ensures drawn { OnSome result
        (HasDrawn drawing.new (flat_map (if_drawn from code.now) (timeline_of world.new))) }
{
    let step = next_step(drawing.sheet.alloc, code, world, thread, from)?;
    match draw(drawing, &step, from) {
        Ok(()) => Some(()),
        Err(_) => None,
    }
}

/// Makes steps of a world that has made none. Draws those that a picture shows on an empty sheet, and keeps no others.
fn draw_all<A: Allocator + Copy>(
    drawing: &mut Drawing<'_, A>,
    code: &Code<A>,
    world: &mut World<A>,
    made: &[u32],
    from: u32,
) -> Option<()>
    requires first { world.old ≡ simulation_after code.now world.old.threads [] }
    requires empty { HasDrawn drawing.old [] }
    ensures { OnSome result (HasDrawn drawing.new (flat_map (if_drawn from code.now)
        (timeline_of (simulation_after code.now world.old.threads made.now)))) }
{
    'steps: for at in 0..made.len() {
        draw_next(drawing, code, world, made[at], from)?;
    }
    Some(())
}

/// Makes these steps of so many threads from their beginnings on, draws those that a picture shows on an empty sheet,
/// and returns the world after them.
fn draw_made<A: Allocator + Copy>(
    drawing: &mut Drawing<'_, A>,
    code: &Code<A>,
    threads: u32,
    made: &[u32],
    from: u32,
) -> Option<World<A>>
    requires { HasDrawn drawing.old [] }
    ensures { OnSome result (HasDrawn drawing.new (flat_map (if_drawn from code.now)
        (timeline_of (simulation_after code.now threads made.now)))) }
{
    let Ok(mut world) = World::new(drawing.sheet.alloc, code, threads) else {
        return None;
    };
    draw_all(drawing, code, &mut world, made, from)?;
    Some(world)
}

/// How each thread of a world is found.
fn ends_of<A: Allocator + Copy>(alloc: A, world: &World<A>) -> Result<Vec<Status, A>, AllocError> {
    let mut ends = Vec::new(alloc);
    'threads: for thread in 0..world.threads() {
        ends.push(world.status(thread))?;
    }
    Ok(ends)
}

/// The picture of a drawing, with the status of each thread of a world.
fn finish<A: Allocator + Copy>(
    drawing: &mut Drawing<'_, A>,
    world: &World<A>,
    text: &str,
    from: u32,
    file: &[u8],
) -> Result<Vec<u8, A>, AllocError>
    requires { map (λ a. (a.store, a.load)) drawing.old.arrows.items
        ≡ arrows_among (map glyph_of drawing.old.glyphs.items) }
    ensures { IfOk result
        (λ v. IsPicture text.now (map (λ g. (glyph_of g).step) drawing.old.glyphs.items) v.items) }
{
    let ends = ends_of(drawing.sheet.alloc, world)?;
    picture(drawing, text, from, ends.as_slice(), world.accesses(), file)
}

/// The picture of these steps of 1 to 64 threads of a program's code. `file` is the program's name, `text` its source.
/// At most 400 accesses are drawn: from the one of the number `from` on, where the first access has number 1, or from
/// the beginning where that is 0. There is no answer where memory was refused, where one of the steps cannot be made, and
/// where the text has no tokens.
pub fn replay_picture<A: Allocator + Copy>(
    alloc: A,
    unit: &Unit<A>,
    code: &Code<A>,
    threads: u32,
    made: &[u32],
    from: u32,
    file: &str,
    text: &str,
) -> Option<Vec<u8, A>>
    ensures { IfSome result
        (λ v. IsDrawn text.now from code.now (timeline_of (simulation_after code.now threads made.now)) v.items) }
{
    let Ok(tokens) = lex(alloc, text) else {
        return None;
    };
    let Ok(cells) = cells_of(alloc, unit) else {
        return None;
    };
    let Ok(transactions) = transactions_of(alloc, text, tokens.as_slice()) else {
        return None;
    };
    let Ok(mut drawing) = Drawing::new(
        alloc,
        cells.as_slice(),
        transactions.as_slice(),
        threads.min(64),
    ) else {
        return None;
    };
    let world = draw_made(&mut drawing, code, threads, made, from)?;
    match finish(&mut drawing, &world, text, from, file.as_bytes()) {
        Ok(svg) => Some(svg),
        Err(_) => None,
    }
}
