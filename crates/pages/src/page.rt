//! The whole page.

ghost use Rattle.std.specs.Prelude.{◌≡◌, IfOk};
ghost use Rattle.pages.specs.Content.{data_of};
ghost use Rattle.pages.specs.Data.{page_bytes};

use crate::content::Page;
use crate::data::data_text;
use crate::escaped::push_escaped;
use crate::text::{HEAD, TAIL};
use std::alloc::{AllocError, Allocator};

/// The page of a program's states and turns: one file that refers to no other one.
pub fn page_text<A: Allocator + Copy>(
    alloc: A,
    page: &Page<'_, A>,
) -> Result<Vec<u8, A>, AllocError>
    ensures { IfOk result (λ page_text. page_text.items ≡ page_bytes (data_of page.now)) }
{
    let data = data_text(alloc, page)?;
    let mut text = Vec::from_slice(alloc, HEAD)?;
    push_escaped(&mut text, data.as_slice())?;
    text.extend_from_slice(TAIL)?;
    Ok(text)
}
