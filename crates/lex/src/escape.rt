//! The characters that the escapes of a string denote.

ghost use Rattle.std.specs.Prelude.{◌≡◌, IfOk, string_bytes};
ghost use Rattle.lex.specs.Tokens as spec;

use std::alloc::{AllocError, Allocator};

/// The character that a backslash and this one denote.
fn stands_for(c: char) -> char
    ensures { result ≡ spec.stands_for c }
{
    match c {
        'n' => '\n',
        't' => '\t',
        other => other,
    }
}

/// The text that a string denotes, from its spelling between the quotes: each escape is one character. Allocates
/// memory for its bytes.
pub fn unescape<A: Allocator + Copy>(alloc: A, written: &str) -> Result<String<A>, AllocError>
    ensures { IfOk result (λ s. string_bytes s ≡ spec.string_value written.now) }
{
    let mut text = String::new(alloc);
    let mut is_escaped = false;
    'characters: for c in written.chars() {
        if is_escaped {
            text.push(stands_for(c))?;
            is_escaped = false;
        } else if c == '\\' {
            is_escaped = true;
        } else {
            text.push(c)?;
        }
    }
    if is_escaped {
        text.push('\\')?;
    }
    Ok(text)
}
