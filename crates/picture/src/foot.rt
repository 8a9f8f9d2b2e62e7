//! The foot of a picture: what took effect, in an order that explains it, and what is not drawn.

use crate::figure::Figure;
use crate::layout::ROW;
use crate::pieces::{Piece, push_pieces, put_number};
use crate::sheet::{Effect, Sheet};
use crate::words::words;
use std::alloc::{AllocError, Allocator};

/// How many transactions an order has at most that is written out.
pub(crate) const MOST_LISTED: usize = 1000;

/// Says how a transaction took effect: by the number of its turn where it took the lock, its thread and its end.
fn put_effect<A: Allocator>(to: &mut Vec<u8, A>, effect: &Effect) -> Result<(), AllocError> {
    if effect.took_lock {
        let number = (effect.snapshot / 2).wrapping_add(1);
        push_pieces(
            to,
            &[
                Piece::Plain(b"#"),
                Piece::Number(number),
                Piece::Plain(b" "),
            ],
        )?;
    }
    push_pieces(
        to,
        &[
            Piece::Plain(b"T"),
            Piece::Number(u64::from(effect.thread)),
            Piece::Plain(b" ("),
            Piece::Number(effect.access),
            Piece::Plain(b")"),
        ],
    )
}

/// Adds what took effect in the part that is drawn, in an order that explains it: by its moment, and of equal ones
/// first what was without the lock. Gives the height of the line behind.
fn put_effects<A: Allocator + Copy>(
    to: &mut Vec<Figure<A>, A>,
    sheet: &Sheet<'_, A>,
    upper: u64,
    count: u64,
) -> Result<u64, AllocError> {
    let alloc = sheet.alloc;
    to.push(Figure::words(alloc, (12, upper), b"b", b"In order:")?)?;
    let (mut column, mut y) = (0u64, upper);
    'effects: for effect in sheet.effects.iter() {
        if !effect.is_drawn {
            continue;
        }
        if column >= count {
            column = 0;
            y = y.wrapping_add(ROW);
        }
        let mut said = Vec::new(alloc);
        put_effect(&mut said, effect)?;
        let class: &'static [u8] = if effect.took_lock { b"b" } else { b"" };
        let x = column.wrapping_mul(98).wrapping_add(90);
        to.push(Figure::words(alloc, (x, y), class, said.as_slice())?)?;
        column = column.wrapping_add(1);
    }
    Ok(y.wrapping_add(ROW))
}

/// Adds a line of words, and goes on to the next.
fn put_words_line<A: Allocator + Copy>(
    alloc: A,
    to: &mut Vec<Figure<A>, A>,
    y: &mut u64,
    words: &[u8],
) -> Result<(), AllocError> {
    to.push(Figure::words(alloc, (12, *y), b"", words)?)?;
    *y = y.wrapping_add(ROW);
    Ok(())
}

/// Adds the order of all that took effect up to the end of what is drawn, as `--order` takes it, in lines of so many
/// characters. Gives the height of the line behind.
fn put_list<A: Allocator + Copy>(
    to: &mut Vec<Figure<A>, A>,
    sheet: &Sheet<'_, A>,
    upper: u64,
    characters: u64,
) -> Result<u64, AllocError> {
    let alloc = sheet.alloc;
    let mut y = upper;
    let listed = sheet.effect_count;
    if listed == 0 {
        return Ok(y);
    }
    if listed > MOST_LISTED as u64 {
        let what = [
            Piece::Number(listed),
            Piece::Plain(b" transactions took effect so far: too many to list them for --order"),
        ];
        let said = words(alloc, &what)?;
        put_words_line(alloc, to, &mut y, said.as_slice())?;
        return Ok(y);
    }
    let mut said = Vec::new(alloc);
    said.extend_from_slice(b"--order ")?;
    let mut is_first = true;
    'effects: for effect in sheet.effects.iter() {
        if !is_first {
            said.push(b',')?;
        }
        is_first = false;
        if said.len().saturating_add(4) as u64 > characters {
            put_words_line(alloc, to, &mut y, said.as_slice())?;
            said.clear();
        }
        put_number(&mut said, u64::from(effect.thread))?;
    }
    put_words_line(alloc, to, &mut y, said.as_slice())?;
    Ok(y)
}

/// Says how many accesses are not drawn behind the last one that is, if some are not.
fn put_cut<A: Allocator + Copy>(
    alloc: A,
    to: &mut Vec<Figure<A>, A>,
    left: u64,
    last: u64,
    y: u64,
) -> Result<(), AllocError> {
    if left == 0 {
        return Ok(());
    }
    let what = [
        Piece::Number(left),
        Piece::Plain(b" further accesses are not drawn here: --from "),
        Piece::Number(last.wrapping_add(1)),
        Piece::Plain(b" goes on"),
    ];
    let said = words(alloc, &what)?;
    to.push(Figure::words(alloc, (12, y), b"b", said.as_slice())?)?;
    Ok(())
}

/// Adds the foot below a height, in a picture of a width in whose lines so many transactions stand side by side. So
/// many accesses are left behind the last one that is drawn. Gives the height of the picture.
pub(crate) fn put_foot<A: Allocator + Copy>(
    to: &mut Vec<Figure<A>, A>,
    sheet: &mut Sheet<'_, A>,
    lower: u64,
    width: u64,
    count: u64,
    left: u64,
    last: u64,
) -> Result<u64, AllocError> {
    put_cut(sheet.alloc, to, left, last, lower.wrapping_add(29))?;
    sheet.effects.sort_by_key(|it| (it.snapshot, it.took_lock))?;
    let y = put_effects(to, sheet, lower.wrapping_add(44), count)?;
    let characters = width.saturating_sub(24) / 7;
    let y = put_list(to, sheet, y, characters)?;
    Ok(y.wrapping_sub(6))
}
