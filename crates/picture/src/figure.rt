//! Figures: what is drawn, and how it is spelled.

ghost use Rattle.std.specs.Prelude.{◌≡◌, ◌++◌, OnOk, flat_map, map};
ghost use Rattle.picture.specs.Figures as plain;
ghost use Rattle.picture.specs.Figures.{class_text, figure_text, figures_text, line_text, measure};
ghost use Rattle.picture.specs.Figures.{point_text, reference};
ghost use Rattle.picture.specs.inner.Views.{figure_of};

use crate::pieces::{put_number, put_words};
use std::alloc::{AllocError, Allocator, Global};

/// What is drawn. Its class says how it looks; an empty one is none.
#[derive(Drop)]
pub(crate) enum Figure<A: Allocator = Global> {
    /// Words whose baseline begins at a point.
    Words {
        x: u64,
        y: u64,
        class: &'static [u8],
        words: Vec<u8, A>,
    },
    /// A rectangle, by its upper left corner and its size.
    Rectangle {
        x: u64,
        y: u64,
        width: u64,
        height: u64,
        class: &'static [u8],
    },
    /// A line through points.
    Line {
        points: Vec<(u64, u64), A>,
        class: &'static [u8],
    },
    /// A symbol of a picture's head, at a point.
    Symbol {
        name: &'static [u8],
        x: u64,
        y: u64,
    },
}

impl<A: Allocator> Figure<A> {
    /// Words whose baseline begins at a point.
    pub(crate) fn words(
        alloc: A,
        at: (u64, u64),
        class: &'static [u8],
        words: &[u8],
    ) -> Result<Figure<A>, AllocError> {
        Ok(Figure::Words {
            x: at.0,
            y: at.1,
            class,
            words: Vec::from_slice(alloc, words)?,
        })
    }

    /// A rectangle, by its upper left corner and its size.
    pub(crate) fn rectangle(
        corner: (u64, u64),
        size: (u64, u64),
        class: &'static [u8],
    ) -> Figure<A> {
        Figure::Rectangle {
            x: corner.0,
            y: corner.1,
            width: size.0,
            height: size.1,
            class,
        }
    }

    /// A line through points.
    pub(crate) fn line(
        alloc: A,
        points: &[(u64, u64)],
        class: &'static [u8],
    ) -> Result<Figure<A>, AllocError> {
        Ok(Figure::Line {
            points: Vec::from_slice(alloc, points)?,
            class,
        })
    }
}

/// Spells an attribute whose value is a number.
pub(crate) fn put_measure<A: Allocator>(
    to: &mut Vec<u8, A>,
    name: &[u8],
    value: u64,
) -> Result<(), AllocError>
    ensures { OnOk result (to.new.items ≡ to.old.items ++ measure name.now value) }
{
    to.extend_from_slice(b" ")?;
    to.extend_from_slice(name)?;
    to.extend_from_slice(b"=\"")?;
    put_number(to, value)?;
    to.extend_from_slice(b"\"")
}

/// Spells the attribute of a class, where it has a name.
fn put_class<A: Allocator>(to: &mut Vec<u8, A>, class: &[u8]) -> Result<(), AllocError>
    ensures { OnOk result (to.new.items ≡ to.old.items ++ class_text class.now) }
{
    if class.is_empty() {
        return Ok(());
    }
    to.extend_from_slice(b" class=\"")?;
    put_words(to, class)?;
    to.extend_from_slice(b"\"")
}

/// Spells a point of a line.
fn put_point<A: Allocator>(to: &mut Vec<u8, A>, point: (u64, u64)) -> Result<(), AllocError>
    ensures { OnOk result (to.new.items ≡ to.old.items ++ point_text point) }
{
    put_number(to, point.0)?;
    to.extend_from_slice(b",")?;
    put_number(to, point.1)?;
    to.extend_from_slice(b" ")
}

/// Spells the points of a line.
fn put_points<A: Allocator>(to: &mut Vec<u8, A>, points: &[(u64, u64)]) -> Result<(), AllocError>
    ensures { OnOk result (to.new.items ≡ to.old.items ++ flat_map point_text points.now) }
{
    'points: for point in points {
        put_point(to, *point)?;
    }
    Ok(())
}

/// Spells a line.
pub(crate) fn put_line<A: Allocator>(
    to: &mut Vec<u8, A>,
    points: &[(u64, u64)],
    class: &[u8],
) -> Result<(), AllocError>
    ensures { OnOk result (to.new.items ≡ to.old.items ++ line_text points.now class.now) }
{
    to.extend_from_slice(b"<polyline points=\"")?;
    put_points(to, points)?;
    to.extend_from_slice(b"\"")?;
    put_class(to, class)?;
    to.extend_from_slice(b"/>\n")
}

/// Spells words at a point.
fn put_text<A: Allocator>(
    to: &mut Vec<u8, A>,
    at: (u64, u64),
    class: &[u8],
    words: &[u8],
) -> Result<(), AllocError>
    ensures { OnOk result
        (to.new.items ≡ to.old.items ++ figure_text (plain.Words at.0 at.1 class.now words.now)) }
{
    to.extend_from_slice(b"<text")?;
    put_measure(to, b"x", at.0)?;
    put_measure(to, b"y", at.1)?;
    put_class(to, class)?;
    to.extend_from_slice(b">")?;
    put_words(to, words)?;
    to.extend_from_slice(b"</text>\n")
}

/// Spells a rectangle.
fn put_rectangle<A: Allocator>(
    to: &mut Vec<u8, A>,
    corner: (u64, u64),
    size: (u64, u64),
    class: &[u8],
) -> Result<(), AllocError>
    ensures { OnOk result (to.new.items
        ≡ to.old.items ++ figure_text (plain.Rectangle corner.0 corner.1 size.0 size.1 class.now)) }
{
    to.extend_from_slice(b"<rect")?;
    put_measure(to, b"x", corner.0)?;
    put_measure(to, b"y", corner.1)?;
    put_measure(to, b"width", size.0)?;
    put_measure(to, b"height", size.1)?;
    put_class(to, class)?;
    to.extend_from_slice(b"/>\n")
}

/// Spells the attribute that names a symbol.
fn put_reference<A: Allocator>(to: &mut Vec<u8, A>, name: &[u8]) -> Result<(), AllocError>
    ensures { OnOk result (to.new.items ≡ to.old.items ++ reference name.now) }
{
    to.extend_from_slice(b" href=\"#")?;
    put_words(to, name)?;
    to.extend_from_slice(b"\"")
}

/// Spells a symbol.
fn put_symbol<A: Allocator>(
    to: &mut Vec<u8, A>,
    name: &[u8],
    at: (u64, u64),
) -> Result<(), AllocError>
    ensures { OnOk result (to.new.items ≡ to.old.items ++ figure_text (plain.Symbol name.now at.0 at.1)) }
{
    to.extend_from_slice(b"<use")?;
    put_reference(to, name)?;
    put_measure(to, b"x", at.0)?;
    put_measure(to, b"y", at.1)?;
    to.extend_from_slice(b"/>\n")
}

/// Spells a figure.
fn put_figure<A: Allocator>(to: &mut Vec<u8, A>, figure: &Figure<A>) -> Result<(), AllocError>
    ensures { OnOk result (to.new.items ≡ to.old.items ++ figure_text (figure_of figure.now)) }
{
    match figure {
        Figure::Words { x, y, class, words } => put_text(to, (*x, *y), *class, words.as_slice()),
        Figure::Rectangle {
            x,
            y,
            width,
            height,
            class,
        } => put_rectangle(to, (*x, *y), (*width, *height), *class),
        Figure::Line { points, class } => put_line(to, points.as_slice(), *class),
        Figure::Symbol { name, x, y } => put_symbol(to, *name, (*x, *y)),
    }
}

/// Spells figures.
pub(crate) fn put_figures<A: Allocator>(
    to: &mut Vec<u8, A>,
    figures: &[Figure<A>],
) -> Result<(), AllocError>
    ensures { OnOk result (to.new.items ≡ to.old.items ++ figures_text (map figure_of figures.now)) }
{
    'figures: for figure in figures {
        put_figure(to, figure)?;
    }
    Ok(())
}
