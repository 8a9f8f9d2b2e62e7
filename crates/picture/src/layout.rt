//! Where things stand, in whole pixels. Rows are counted from 0; a row of heads stands before every 40 of them.

ghost use Rattle.std.specs.Prelude.{◌≡◌};
ghost use Rattle.picture.specs.Arrows.{left_of, right_of};

/// The height of a row.
pub(crate) const ROW: u64 = 16;
/// The width of an outermost transaction's box.
pub(crate) const BOX: u64 = 170;
/// From a lane to the next one.
pub(crate) const PITCH: u64 = 198;
/// The first lane.
pub(crate) const FIRST: u64 = 112;
/// The first row of heads.
pub(crate) const TOP: u64 = 106;
/// Rows between two rows of heads.
pub(crate) const HEADED: u64 = 40;
/// Characters of a row's text.
pub(crate) const CHARACTERS: usize = 19;
/// Characters of the row that names a transaction.
pub(crate) const HEADING: usize = 24;

/// The left side of a thread's lane.
pub(crate) fn left_of(thread: u32) -> u64
    ensures { result ≡ left_of thread }
{
    PITCH * u64::from(thread) + FIRST
}

/// The right side of a thread's lane.
pub(crate) fn right_of(thread: u32) -> u64
    ensures { result ≡ right_of thread }
{
    left_of(thread) + BOX
}

/// The upper side of a row.
pub(crate) fn top(row: u64) -> u64 {
    heads(row).wrapping_add(ROW)
}

/// The upper side of the row before a row, which has heads at each 40th.
pub(crate) fn heads(row: u64) -> u64 {
    row.wrapping_add(row / HEADED)
        .wrapping_mul(ROW)
        .wrapping_add(TOP)
}

/// The lower side of a row.
pub(crate) fn foot(row: u64) -> u64 {
    top(row).wrapping_add(ROW)
}

/// The middle of a row.
pub(crate) fn middle(row: u64) -> u64 {
    top(row).wrapping_add(8)
}

/// The baseline of a row's text.
pub(crate) fn baseline(row: u64) -> u64 {
    top(row).wrapping_add(12)
}

/// How far a box of a depth, or what stands in it, is moved to the right. It is 0 in an outermost box.
pub(crate) fn inset(depth: usize) -> u64 {
    match depth {
        0 => 0,
        1 => 4,
        2 => 8,
        _ => 12,
    }
}
