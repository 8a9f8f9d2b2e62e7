//! JSON inside of HTML: no byte of it may end its element.

ghost use Rattle.std.specs.Prelude.{◌≡◌, ◌++◌, OnOk};
ghost use Rattle.pages.specs.Escaped.{escaped_byte, escaped_text};

use std::alloc::{AllocError, Allocator};

/// Adds a byte of JSON: `<`, which stands only in texts, as `\u003c`.
fn push_byte<A: Allocator>(to: &mut Vec<u8, A>, byte: u8) -> Result<(), AllocError>
    ensures { OnOk result (to.new.items ≡ to.old.items ++ escaped_byte byte) }
{
    match byte {
        b'<' => to.extend_from_slice(b"\\u003c"),
        _ => Ok(to.push(byte)?),
    }
}

/// Adds JSON in which each `<` is escaped.
pub(crate) fn push_escaped<A: Allocator>(to: &mut Vec<u8, A>, text: &[u8]) -> Result<(), AllocError>
    ensures { OnOk result (to.new.items ≡ to.old.items ++ escaped_text text.now) }
{
    'bytes: for byte in text {
        push_byte(to, *byte)?;
    }
    Ok(())
}
