//! Lines and columns.

ghost use Rattle.std.specs.Prelude.{◌≡◌, ◌≤◌, ◌<◌, ◌^◌, length, reverse};
ghost use Rattle.std.specs.List.{prefix_len};
ghost use Rattle.lex.specs.Places.{line_of, column_of};
ghost use Rattle.lex.specs.Bytes.{in_line};

/// How many bytes follow the last LF.
fn behind_line_feed(before: &[u8]) -> usize
    ensures value { result ≡ prefix_len in_line (reverse before.now) }
    ensures within { result ≤ length before.now }
{
    before.iter().rev().take_while(|b| **b != b'\n').count()
}

/// The position in a text: the line and the column of an offset, both from 1. A line ends with LF, and a column counts
/// bytes. The offset is one of the text's bytes or its length.
pub fn place(text: &str, offset: usize) -> (usize, usize)
    requires { offset ≤ length text.now }
    ensures line { result.0 ≡ line_of text.now offset }
    ensures column { result.1 ≡ column_of text.now offset }
{
    let (before, _) = text.as_bytes().split_at(offset);
    let line = before.iter().filter(|b| **b == b'\n').count();
    (line + 1, behind_line_feed(before) + 1)
}
