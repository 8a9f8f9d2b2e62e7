//! The globals that a report shows.

ghost use Rattle.std.specs.Prelude.{◌≡◌, ◌++◌, map, take, drop, IfOk, OnOk};
ghost use Rattle.syntax.specs.Views.{program_of, item_of, global_of};
ghost use Rattle.syntax.specs.Names.{globals};
ghost use Rattle.report.specs.Views.{shown_of};
ghost use Rattle.serving.specs.Shows.{shown_global, shown_globals};
ghost use Rattle.serving.specs.inner.Words.{words_beyond};

use containers::{Copied, Items};
use report::Shown;
use std::alloc::{AllocError, Allocator};
use syntax::tree::{Global, Item, Unit};

/// The globals of a program, with the words of their cells.
pub(crate) fn globals_shown<A: Allocator + Copy>(
    alloc: A,
    unit: &Unit<A>,
    words: &[u64],
) -> Result<Items<Shown<A>, A>, AllocError>
    ensures { IfOk result (λ v. map shown_of v ≡ shown_globals (globals (program_of unit.now)) words.now) }
{
    let mut shown = Items::new(alloc);
    push_items(alloc, &mut shown, unit.items.as_slice(), words)?;
    Ok(shown)
}

/// Adds the globals of items.
fn push_items<A: Allocator + Copy>(
    alloc: A,
    shown: &mut Items<Shown<A>, A>,
    items: &[Item<A>],
    words: &[u64],
) -> Result<(), AllocError>
    ensures { OnOk result (map shown_of shown.new ≡ map shown_of shown.old
        ++ shown_globals (globals (map item_of items.now)) words.now) }
{
    let mut rest = words;
    'items: for item in items {
        if let Item::Globals(globals) = item {
            rest = push_globals(alloc, shown, globals.as_slice(), rest)?;
        }
    }
    Ok(())
}

/// Adds globals, and returns the words after theirs.
fn push_globals<'a, A: Allocator + Copy>(
    alloc: A,
    shown: &mut Items<Shown<A>, A>,
    globals: &[Global<A>],
    words: &'a [u64],
) -> Result<&'a [u64], AllocError>
    ensures shown { OnOk result (map shown_of shown.new ≡ map shown_of shown.old
        ++ shown_globals (map global_of globals.now) words.now) }
    ensures rest { IfOk result (λ r. r.now ≡ words_beyond (map global_of globals.now) words.now) }
{
    let mut rest = words;
    'globals: for global in globals {
        let (mine, others) = split(rest, global.cell_count());
        shown.push(global_shown(alloc, global, mine)?)?;
        rest = others;
    }
    Ok(rest)
}

/// A global with the words of its cells.
fn global_shown<A: Allocator + Copy>(
    alloc: A,
    global: &Global<A>,
    words: &[u64],
) -> Result<Shown<A>, AllocError>
    ensures { IfOk result (λ s. shown_of s ≡ shown_global (global_of global.now) words.now) }
{
    let name = global.name.text.copy(alloc)?;
    let words = Vec::from_slice(alloc, words)?;
    Ok(Shown {
        name,
        ty: global.ty,
        words: Items::from_vec(words),
    })
}

/// The first words, and those after them.
fn split(words: &[u64], count: usize) -> (&[u64], &[u64])
    ensures first { result.0.now ≡ take count words.now }
    ensures rest { result.1.now ≡ drop count words.now }
{
    words.split_at(count.min(words.len()))
}
