//! One row of a schedule's text.

ghost use Rattle.std.specs.Prelude.{◌≡◌, ◌≤◌, ◌<◌, ◌^◌, [], drop, take, length, MatchOption, ℕ};
ghost use Rattle.std.specs.List.{prefix_len};
ghost use Rattle.std.specs.Str.Parse.{AllDigits};
ghost use Rattle.replay.specs.Schedules.{SpellsNumber};
ghost use Rattle.replay.specs.inner.Rows.{is_space, is_digit, past, digits_of, behind, has_letter, behind_letter};
ghost use Rattle.replay.specs.inner.Rows.{IsCut, IsRow};

use crate::line::Line;

/// What a row says.
#[derive(Clone, Copy)]
pub(crate) enum ScheduleRow {
    /// Nothing: the row has spaces alone.
    Blank,
    /// Which steps are made.
    Steps(Line),
    /// Nothing that can be read.
    Bad,
}

fn is_space(byte: u8) -> bool
    ensures { result ≡ is_space byte }
{
    byte == b' '
}

fn is_digit(byte: u8) -> bool
    ensures { result ≡ is_digit byte }
{
    byte >= b'0' && byte <= b'9'
}

/// How many spaces stand at the front.
fn spaces_len(row: &[u8]) -> usize
    ensures value { result ≡ prefix_len is_space row.now }
    ensures within { result ≤ length row.now }
{
    row.iter().take_while(|b| is_space(**b)).count()
}

/// How many digits stand at the front.
fn digits_len(row: &[u8]) -> usize
    ensures value { result ≡ prefix_len is_digit row.now }
    ensures within { result ≤ length row.now }
{
    row.iter().take_while(|b| is_digit(**b)).count()
}

/// What stands behind the spaces at the front.
fn past(row: &[u8]) -> &[u8]
    ensures { result.now ≡ past row.now }
{
    let (_, behind) = row.split_at(spaces_len(row));
    behind
}

/// The digits at the front, and what stands behind them.
fn cut(row: &[u8]) -> (&[u8], &[u8])
    ensures digits { result.0.now ≡ digits_of row.now }
    ensures behind { result.1.now ≡ behind row.now }
{
    row.split_at(digits_len(row))
}

/// Whether an `a` stands at the front, and what stands behind it.
fn letter(row: &[u8]) -> (bool, &[u8])
    ensures is { result.0 ≡ has_letter row.now }
    ensures behind { result.1.now ≡ behind_letter row.now }
{
    match row {
        [b'a', behind @ ..] => (true, behind),
        _ => (false, row),
    }
}

/// The number that a row of digits writes, where there is one below 2^32.
fn number(digits: &[u8]) -> Option<u32>
    requires { AllDigits 10 digits.now }
    ensures { MatchOption result ((n : ℕ) → SpellsNumber digits.now n → ⊥) (λ n. SpellsNumber digits.now n) }
{
    if digits.is_empty() {
        return None;
    }
    let mut value: u32 = 0;
    'digits: for digit in digits {
        let next = u64::from(value) * 10 + u64::from(*digit - b'0');
        if next > u64::from(u32::MAX) {
            return None;
        }
        value = next as u32;
    }
    Some(value)
}

/// The parts of a row.
#[derive(Clone, Copy)]
struct RowParts<'a> {
    thread: &'a [u8],
    /// Whether a space stands behind the thread.
    apart: bool,
    accesses: bool,
    count: &'a [u8],
    /// What stands behind the spaces after the count.
    over: &'a [u8],
}

/// Cuts a row.
fn cut_row(row: &[u8]) -> RowParts<'_>
    ensures { IsCut row.now result.thread.now result.apart result.accesses result.count.now result.over.now }
{
    let (thread, behind) = cut(past(row));
    let next = past(behind);
    let (accesses, next_digits) = letter(next);
    let (count, over) = cut(next_digits);
    RowParts {
        thread,
        apart: next.len() < behind.len(),
        accesses,
        count,
        over: past(over),
    }
}

/// What a row says.
pub(crate) fn read_row(row: &[u8]) -> ScheduleRow
    ensures { IsRow row.now result }
{
    if past(row).is_empty() {
        return ScheduleRow::Blank;
    }
    let parts = cut_row(row);
    if !parts.apart {
        return ScheduleRow::Bad;
    }
    if !parts.over.is_empty() {
        return ScheduleRow::Bad;
    }
    let Some(thread) = number(parts.thread) else {
        return ScheduleRow::Bad;
    };
    match number(parts.count) {
        Some(count) => ScheduleRow::Steps(Line {
            thread,
            count,
            accesses: parts.accesses,
        }),
        None => ScheduleRow::Bad,
    }
}
