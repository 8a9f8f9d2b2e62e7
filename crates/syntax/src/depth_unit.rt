//! How deep functions, items and units are.

ghost use Rattle.std.specs.Prelude.{◌≡◌, min, map, option_map};
ghost use Rattle.syntax.specs.Depth.{body_depth, item_depth, program_depth};
ghost use Rattle.syntax.specs.Views.{item_of, program_of, stmts_of};

use crate::depth_stmt::block_depth_of;
use crate::tree::{Function, Item, Unit};
use std::alloc::Allocator;

impl<A: Allocator> Function<A> {
    /// The depth of the block, 0 if a prototype has none; or `usize::MAX` if that is greater.
    pub fn depth(&self) -> usize
        ensures { result ≡ min (body_depth (option_map stmts_of self.now.body)) usize.MAX }
    {
        match &self.body {
            Some(body) => block_depth_of(body.as_slice()),
            None => 0,
        }
    }
}

impl<A: Allocator> Item<A> {
    /// The depth of a function's block, 0 for a prototype and for global variables; or `usize::MAX` if that is
    /// greater.
    pub fn depth(&self) -> usize
        ensures { result ≡ min (item_depth (item_of self.now)) usize.MAX }
    {
        match self {
            Item::Function(f) => f.depth(),
            Item::Globals(_) => 0,
        }
    }
}

fn deepest_item<A: Allocator>(all: &[Item<A>]) -> usize
    ensures { result ≡ min (program_depth (map item_of all.now)) usize.MAX }
{
    let mut most = 0;
    'each: for one in all {
        most = most.max(one.depth());
    }
    most
}

impl<A: Allocator> Unit<A> {
    /// The greatest depth of a function's block, 0 if there is none; or `usize::MAX` if that is greater.
    pub fn depth(&self) -> usize
        ensures { result ≡ min (program_depth (program_of self.now)) usize.MAX }
    {
        deepest_item(self.items.as_slice())
    }
}
