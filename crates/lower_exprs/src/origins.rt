//! Where in the source the instructions come from, noted as they are put.

ghost use Rattle.std.specs.Prelude.{◌≡◌};
ghost use Rattle.lower_exprs.specs.Lists.{lists_of};

use crate::lists::Lists;
use bytecode::Origin;
use lex::token::Span;
use std::alloc::{AllocError, Allocator};

/// So many entries, those that are missing with this one.
fn fill<A: Allocator>(
    origins: &mut Vec<Origin, A>,
    count: usize,
    one: Origin,
) -> Result<(), AllocError> {
    'missing: for _ in origins.len()..count {
        origins.push(one)?;
    }
    Ok(())
}

/// The instructions before this place come from here, but for those of which it is known already. So an instruction
/// comes from the first expression or statement that ends behind it, which is the innermost one, where nothing is noted
/// of it before what stands behind it.
pub fn note<A: Allocator>(lists: &mut Lists<A>, to: u32, at: Span) -> Result<(), AllocError>
    ensures { lists_of lists.new ≡ lists_of lists.old }
{
    fill(&mut lists.origins, to as usize, Origin::new(at))
}
