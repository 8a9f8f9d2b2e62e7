//! The first line in which a text differs from the one that is due, as it is told.
#![tactic(auto)]

ghost use Rattle.std.specs.Prelude.{◌≡◌, ◌≢◌, ◌≤◌, ◌++◌, ℕ, false, true, IfOk, IfSome, MatchOption, OnOk, decimal, length, map, option_map};
ghost use Rattle.std.specs.Prelude.{take};
ghost use Rattle.differences.specs.Texts.{DifferFirstAt, IsFirstDifference, shown_byte, side_text, sides_text};
ghost use Rattle.differences.specs.Texts.{text_lines};
ghost use Rattle.differences.specs.Texts as spec;

use itoa::Buffer;
use std::alloc::{AllocError, Allocator};

/// The first line in which a text differs from the one that is due, if there is one: its number, counted from 1, and the
/// line of each behind the name of that, or that it ends before. A line ends at its LF, and nowhere else.
pub fn difference<A: Allocator + Copy>(
    alloc: A,
    name: &[u8],
    due: &[u8],
    other: &[u8],
    found: &[u8],
) -> Result<Option<Vec<u8, A>>, AllocError>
    ensures { IfOk result (λ o. MatchOption o (found.now ≡ due.now)
        (λ v. (at : ℕ) × IsFirstDifference due.now found.now at
        × (v.items ≡ spec.difference_text name.now other.now due.now found.now at))) }
{
    let due_lines = lines_of(alloc, due)?;
    let found_lines = lines_of(alloc, found)?;
    match first_difference(due_lines.as_slice(), found_lines.as_slice()) {
        Some(at) => {
            let text = sides(
                alloc,
                name,
                due_lines.as_slice(),
                other,
                found_lines.as_slice(),
                at,
            )?;
            Ok(Some(text))
        }
        None => Ok(None),
    }
}

/// The first line in which a text differs from the one that is due, if there is one: its number, counted from 0.
pub fn first_line<A: Allocator + Copy>(
    alloc: A,
    due: &[u8],
    found: &[u8],
) -> Result<Option<usize>, AllocError>
    ensures { IfOk result (λ o. MatchOption o (found.now ≡ due.now) (IsFirstDifference due.now found.now)) }
{
    let due_lines = lines_of(alloc, due)?;
    let found_lines = lines_of(alloc, found)?;
    match first_difference(due_lines.as_slice(), found_lines.as_slice()) {
        Some(at) => Ok(Some(at)),
        None => Ok(None),
    }
}

/// The lines of a text.
fn lines_of<'a, A: Allocator>(alloc: A, text: &'a [u8]) -> Result<Vec<&'a [u8], A>, AllocError>
    ensures { IfOk result (λ v. map (λ l. l.now) v.items ≡ text_lines text.now) }
{
    text.split(|b| *b == b'\n').collect(alloc)
}

/// Whether two lines are the same.
fn is_same(line: &[u8], other: &[u8]) -> bool
    ensures yes { result ≡ true → line.now ≡ other.now }
    ensures no { result ≡ false → line.now ≢ other.now }
{
    line == other
}

/// The first place, counted from 0, at which lines are not the same, if there is one.
fn first_difference(due: &[&[u8]], found: &[&[u8]]) -> Option<usize>
    ensures differ { MatchOption result (map (λ l. l.now) found.now ≡ map (λ l. l.now) due.now)
        (DifferFirstAt (map (λ l. l.now) due.now) (map (λ l. l.now) found.now)) }
    ensures within { IfSome result (λ at. at ≤ length due.now) }
{
    let count = due.len().min(found.len());
    'lines: for at in 0..count {
        if !is_same(due[at], found[at]) {
            return Some(at);
        }
    }
    if due.len() == found.len() {
        None
    } else {
        Some(count)
    }
}

/// What is told of a line that is not the same.
fn sides<A: Allocator>(
    alloc: A,
    name: &[u8],
    due: &[&[u8]],
    other: &[u8],
    found: &[&[u8]],
    at: usize,
) -> Result<Vec<u8, A>, AllocError>
    requires { at ≤ length due.now }
    ensures { IfOk result
        (λ v. v.items ≡ sides_text name.now other.now (map (λ l. l.now) due.now) (map (λ l. l.now) found.now) at) }
{
    let mut text = Vec::new(alloc);
    push_bytes(&mut text, b"line ")?;
    push_number(&mut text, at as u64 + 1)?;
    push_bytes(&mut text, b" differs\n")?;
    push_side(&mut text, name, due.get(at))?;
    push_side(&mut text, other, found.get(at))?;
    Ok(text)
}

/// Adds bytes.
fn push_bytes<A: Allocator>(text: &mut Vec<u8, A>, bytes: &[u8]) -> Result<(), AllocError>
    ensures { OnOk result (text.new.items ≡ text.old.items ++ bytes.now) }
{
    text.extend_from_slice(bytes)
}

/// A byte as it is shown: a control character as a question mark.
fn shown(byte: u8) -> u8
    ensures { result ≡ shown_byte byte }
{
    if byte < 32 || byte == 127 { b'?' } else { byte }
}

/// Adds bytes, with `?` for control characters.
fn push_shown<A: Allocator>(text: &mut Vec<u8, A>, bytes: &[u8]) -> Result<(), AllocError>
    ensures { OnOk result (text.new.items ≡ text.old.items ++ map shown_byte bytes.now) }
{
    'bytes: for byte in bytes {
        text.push(shown(*byte))?;
    }
    Ok(())
}

/// Adds a number.
fn push_number<A: Allocator>(text: &mut Vec<u8, A>, number: u64) -> Result<(), AllocError>
    ensures { OnOk result (text.new.items ≡ text.old.items ++ decimal number) }
{
    push_bytes(text, Buffer::new().format(number).as_bytes())
}

/// Adds the line of a text, or that it ends before it.
fn push_side<A: Allocator>(
    text: &mut Vec<u8, A>,
    name: &[u8],
    line: Option<&&[u8]>,
) -> Result<(), AllocError>
    ensures { OnOk result (text.new.items ≡ text.old.items
        ++ side_text name.now (option_map (λ l. l.now.now) line.entry)) }
{
    push_bytes(text, name)?;
    let Some(line) = line else {
        return push_bytes(text, b" ends\n");
    };
    push_bytes(text, b": ")?;
    push_shown(text, *line)?;
    push_bytes(text, b"\n")
}
