//! Which globals are typed.

ghost use Rattle.std.specs.Prelude.{◌≡◌, ◌≤◌, ◌+◌, ◌++◌, ◌∷◌, [], map, drop, sum_by, nat_le, true, OnOk};
ghost use Rattle.syntax.specs.Tree as Tree;
ghost use Rattle.syntax.specs.Views.{global_of, item_of};
ghost use Rattle.syntax.specs.Names.{cells};
ghost use Rattle.syntax.specs.Types.{file_scope, known_global};
ghost use Rattle.syntax.specs.Typing.{is_unknown};
ghost use Rattle.syntax.specs.Typing.{demand, first_unmet, IsLength, HaveCells, AreTypedGlobals};
ghost use Rattle.types.specs.inner.Unmet.{AnswersDemands, unmet_in};
ghost use Rattle.types.specs.inner.Known.{known_in, count_in};
ghost use Rattle.types.specs.inner.Scopes.{known_of};

use crate::fault::{TypeFailure, demand};
use crate::symbol::ScopeSymbol;
use crate::table::ScopeTable;
use lex::token::Span;
use std::alloc::{AllocError, Allocator};
use syntax::limits::MOST_CELLS;
use syntax::tree::{Function, Global, Initialiser, Item};
use syntax::violation::{Rule, Violation};

fn symbol_of<'a, A: Allocator>(g: &Global<A>) -> ScopeSymbol<'a, Function<A>>
    ensures { known_of result ≡ known_global (global_of g.now) }
{
    match g.length {
        Some((count, _)) => ScopeSymbol::Array(g.ty, count),
        None => ScopeSymbol::Number(g.ty),
    }
}

/// An array's length, where there is one.
fn check_length(length: &Option<(u64, Span)>) -> Result<(), Violation>
    ensures { unmet_in result ≡ first_unmet (IsLength length.now) }
{
    match length {
        Some((count, span)) => {
            let right = 1 <= *count && *count <= MOST_CELLS as u64;
            demand(right, Rule::BadLength, *span)
        }
        None => Ok(()),
    }
}

/// No initialiser stands where no cell is left for it.
fn check_first(count: u64, first: &[Initialiser]) -> Result<(), Violation>
    ensures { unmet_in result ≡ first_unmet (HaveCells (drop count first.now)) }
{
    match first.get(count as usize) {
        Some(first) => demand(false, Rule::BadLength, first.span),
        None => Ok(()),
    }
}

/// A name that stands for nothing yet.
fn check_new<'a, A: Allocator + Copy>(
    names: &ScopeTable<'a, A>,
    g: &'a Global<A>,
) -> Result<(), Violation>
    ensures { unmet_in result
        ≡ first_unmet (demand 21 g.now.name.span (is_unknown (known_in names.now g.now.name.text))) }
{
    let new = names.look(g.name.text.as_str()).is_unknown();
    demand(new, Rule::DeclaredTwice, g.name.span)
}

/// One global, where so many cells are taken by those before it.
fn check_global<'a, A: Allocator + Copy>(
    names: &ScopeTable<'a, A>,
    taken: u64,
    g: &'a Global<A>,
) -> Result<(), Violation>
    requires { taken ≤ MOST_CELLS }
    ensures { unmet_in result
        ≡ first_unmet
        (demand 21 g.now.name.span (is_unknown (known_in names.now g.now.name.text)) ++ IsLength g.now.length
        ++ HaveCells (drop (cells (global_of g.now)) g.now.first)
        ++ demand 25 g.now.name.span (nat_le (taken + cells (global_of g.now)) MOST_CELLS)) }
{
    check_new(names, g)?;
    check_length(&g.length)?;
    let count = g.cell_count() as u64;
    check_first(count, g.first.as_slice())?;
    let few = taken.saturating_add(count) <= MOST_CELLS as u64;
    demand(few, Rule::BadLength, g.name.span)
}

/// A global's name, known from its declaration on.
fn add_global<'a, A: Allocator + Copy>(
    names: &mut ScopeTable<'a, A>,
    earlier: &[Item<A>],
    before: &[Global<A>],
    g: &'a Global<A>,
) -> Result<(), AllocError>
    requires none { count_in names.old ≡ 0 }
    requires known { known_in names.old
        ≡ file_scope (map item_of earlier.now ++ Tree.Shares (map global_of before.now) ∷ []) }
    requires new { is_unknown (known_in names.old g.now.name.text) ≡ true }
    ensures known { OnOk result
        (known_in names.new
        ≡ file_scope
        (map item_of earlier.now ++ Tree.Shares (map global_of before.now ++ global_of g.now ∷ []) ∷ [])) }
    ensures none { count_in names.new ≡ 0 }
{
    names.define(g.name.text.as_str(), symbol_of(g))
}

/// The globals of one declaration, behind earlier items that take so many cells.
pub(crate) fn check_globals<'a, A: Allocator + Copy>(
    names: &mut ScopeTable<'a, A>,
    taken: &mut u64,
    earlier: &[Item<A>],
    all: &'a [Global<A>],
) -> Result<(), TypeFailure>
    requires none { count_in names.old ≡ 0 }
    requires known { known_in names.old ≡ file_scope (map item_of earlier.now) }
    requires few { taken.old ≤ MOST_CELLS }
    ensures answer { AnswersDemands result
        (AreTypedGlobals (map item_of earlier.now) [] taken.old (map global_of all.now)) }
    ensures known { OnOk result
        (known_in names.new ≡ file_scope (map item_of earlier.now ++ Tree.Shares (map global_of all.now) ∷ [])) }
    ensures none { OnOk result (count_in names.new ≡ 0) }
    ensures taken { OnOk result (taken.new ≡ taken.old + sum_by cells (map global_of all.now)) }
    ensures few { OnOk result (taken.new ≤ MOST_CELLS) }
{
    'each: for i in 0..all.len() {
        let g = &all[i];
        check_global(names, *taken, g)?;
        add_global(names, earlier, &all[..i], g)?;
        *taken += g.cell_count() as u64;
    }
    Ok(())
}
