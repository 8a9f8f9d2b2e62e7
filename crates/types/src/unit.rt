//! Which programs are typed.

ghost use Rattle.std.specs.Prelude.{◌≡◌, ◌≤◌, ◌++◌, ◌∷◌, [], map, codes, None, IfOk, OnOk};
ghost use Rattle.syntax.specs.Views.{item_of};
ghost use Rattle.syntax.specs.Types.{file_scope};
ghost use Rattle.syntax.specs.Typing.{is_worker};
ghost use Rattle.syntax.specs.Typing.{demand, first_unmet, IsTypedItem, AreTypedItems, AreDefined, Meets};
ghost use Rattle.types.specs.Answers.{ChecksTypes};
ghost use Rattle.types.specs.inner.Unmet.{AnswersDemands, unmet_in};
ghost use Rattle.types.specs.inner.Known.{known_in};
ghost use Rattle.types.specs.inner.Bodies.{AreBodies};
ghost use Rattle.types.specs.inner.Found.{IsFound};

use crate::fault::{TypeFailure, demand};
use crate::function::{Bodies, check_function, has_body, is_worker};
use crate::global::check_globals;
use crate::table::ScopeTable;
use crate::typed::Typed;
use lex::token::Span;
use name_tables::Table;
use std::alloc::Allocator;
use syntax::tree::{Item, Unit};
use syntax::violation::{Refused, Rule, Violation};

/// What is found out item by item.
#[derive(Drop)]
struct FoundItems<'a, A: Allocator + Copy> {
    pub(crate) names: ScopeTable<'a, A>,
    pub(crate) bodies: Bodies<'a, A>,
    taken: u64,
}

/// An item behind earlier ones.
fn check_item<'a, A: Allocator + Copy>(
    found: &mut FoundItems<'a, A>,
    earlier: &[Item<A>],
    item: &'a Item<A>,
) -> Result<(), TypeFailure>
    requires { IsFound found.old (map item_of earlier.now) }
    ensures answer { AnswersDemands result (IsTypedItem (map item_of earlier.now) (item_of item.now)) }
    ensures found { OnOk result (IsFound found.new (map item_of earlier.now ++ item_of item.now ∷ [])) }
{
    match item {
        Item::Function(f) => {
            check_function(&mut found.names, &mut found.bodies, earlier, f)?;
            Ok(())
        }
        Item::Globals(all) => {
            check_globals(&mut found.names, &mut found.taken, earlier, all.as_slice())?;
            Ok(())
        }
    }
}

/// The items in order.
fn check_items<'a, A: Allocator + Copy>(
    alloc: A,
    key: u64,
    items: &'a [Item<A>],
) -> Result<FoundItems<'a, A>, TypeFailure>
    ensures answer { AnswersDemands result (AreTypedItems [] (map item_of items.now)) }
    ensures found { IfOk result (λ found. IsFound found (map item_of items.now)) }
{
    let mut found = FoundItems {
        names: ScopeTable::new(alloc, key),
        bodies: Table::new(alloc, key),
        taken: 0,
    };
    'each: for i in 0..items.len() {
        check_item(&mut found, &items[..i], &items[i])?;
    }
    Ok(found)
}

/// Each function that is declared is defined.
fn check_defined<'a, A: Allocator + Copy>(
    bodies: &Bodies<'a, A>,
    items: &'a [Item<A>],
) -> Result<(), Violation>
    requires defined { AreBodies bodies.now (map item_of items.now) }
    requires typed { None ≡ first_unmet (AreTypedItems [] (map item_of items.now)) }
    ensures { unmet_in result ≡ first_unmet (AreDefined (map item_of items.now) [] (map item_of items.now)) }
{
    'each: for item in items {
        match item {
            Item::Function(f) => {
                let defined = has_body(bodies, f.name.text.as_str());
                demand(defined, Rule::NotDefined, f.name.span)?;
            }
            Item::Globals(_) => {}
        }
    }
    Ok(())
}

/// A function that gives nothing and takes one `int` has the name `worker`.
fn check_worker<'a, A: Allocator + Copy>(
    names: &ScopeTable<'a, A>,
    items: &'a [Item<A>],
    end: usize,
) -> Result<(), Violation>
    requires { known_in names.now ≡ file_scope (map item_of items.now) }
    ensures { unmet_in result
        ≡ first_unmet (demand 28 (record { start = end; end = end })
        (is_worker (file_scope (map item_of items.now) (codes "worker")))) }
{
    let symbol = names.look("worker");
    let right = is_worker(&symbol);
    demand(right, Rule::NoWorker, Span { start: end, end })
}

/// The whole of a program, the hashes of whose names are by this key.
fn check_program<A: Allocator + Copy>(
    alloc: A,
    key: u64,
    items: &[Item<A>],
    end: usize,
) -> Result<(), TypeFailure>
    ensures { AnswersDemands result (Meets end (map item_of items.now)) }
{
    let found = check_items(alloc, key, items)?;
    check_defined(&found.bodies, items)?;
    check_worker(&found.names, items, end)?;
    Ok(())
}

/// Checks names and types. The fault is the first rule that the program breaks, in the order of the text; then come
/// functions that are declared and not defined, and last a missing `worker`. The program lies in what is given, or
/// comes back in the fault. Takes memory for the names.
pub fn check<A: Allocator + Copy>(alloc: A, unit: Unit<A>) -> Result<Typed<A>, Refused<Unit<A>>>
    ensures { ChecksTypes unit result }
{
    match check_program(alloc, unit.key, unit.items.as_slice(), unit.end) {
        Ok(()) => Ok(Typed { unit }),
        Err(TypeFailure::OutOfMemory) => Err(Refused::OutOfMemory(unit)),
        Err(TypeFailure::Violation(violation)) => Err(Refused::Broken(unit, violation)),
    }
}
