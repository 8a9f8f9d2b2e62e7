//! Pieces of a text, each added at the end of a list.

ghost use Rattle.std.specs.Prelude.{◌≡◌, ◌++◌, OnOk, decimal};
ghost use Rattle.picture.specs.Figures.{xml_escape, xml};

use itoa::Buffer;
use std::alloc::{AllocError, Allocator};

/// A piece of text.
#[derive(Clone, Copy)]
pub(crate) enum Piece<'a> {
    /// Bytes as they are.
    Plain(&'a [u8]),
    /// A number, in decimal.
    Number(u64),
}

/// Adds a byte of words.
pub(crate) fn put_byte<A: Allocator>(to: &mut Vec<u8, A>, byte: u8) -> Result<(), AllocError>
    ensures { OnOk result (to.new.items ≡ to.old.items ++ xml_escape byte) }
{
    match byte {
        b'&' => to.extend_from_slice(b"&amp;"),
        b'<' => to.extend_from_slice(b"&lt;"),
        b'>' => to.extend_from_slice(b"&gt;"),
        b' '..=b'~' => Ok(to.push(byte)?),
        _ => Ok(to.push(b'?')?),
    }
}

/// Adds words for people: `&`, `<` and `>` are written as XML wants them, and what is not printable ASCII as `?`.
pub(crate) fn put_words<A: Allocator>(to: &mut Vec<u8, A>, words: &[u8]) -> Result<(), AllocError>
    ensures { OnOk result (to.new.items ≡ to.old.items ++ xml words.now) }
{
    'bytes: for byte in words {
        put_byte(to, *byte)?;
    }
    Ok(())
}

/// Adds a number.
pub(crate) fn put_number<A: Allocator>(to: &mut Vec<u8, A>, number: u64) -> Result<(), AllocError>
    ensures { OnOk result (to.new.items ≡ to.old.items ++ decimal number) }
{
    to.extend_from_slice(Buffer::new().format(number).as_bytes())
}

/// Adds pieces.
pub(crate) fn push_pieces<A: Allocator>(
    to: &mut Vec<u8, A>,
    pieces: &[Piece<'_>],
) -> Result<(), AllocError> {
    'pieces: for piece in pieces {
        match *piece {
            Piece::Plain(bytes) => to.extend_from_slice(bytes)?,
            Piece::Number(number) => put_number(to, number)?,
        }
    }
    Ok(())
}
