//! Symbol tables: each call once with ample memory, many names, and each growth refused once.

use crate::asserted::assert_all;
use name_tables::{Keyed, Scope, Table};
use std::alloc::{AllocError, Allocator, Global};
use std::hash::BuildHasher;
use test_memory::Refusing;
use test_programs::unit_of;

/// `count` as 7 and `total` as 8, and once more `count` as 9; whether each was new.
fn declare_three<A: Allocator + Copy>(
    table: &mut Table<'static, u32, A>,
) -> Result<[bool; 3], AllocError> {
    let count = table.declare("count", 7)?;
    let total = table.declare("total", 8)?;
    let again = table.declare("count", 9)?;
    Ok([count, total, again])
}

/// Whether a table has what these were first declared as, and nothing else.
fn has_count_and_total<A: Allocator + Copy>(table: &Table<'static, u32, A>) -> bool {
    let values = table.get("count") == Some(&7) && table.get("total") == Some(&8);
    let indices = table.index_of("count") == Some(0) && table.index_of("total") == Some(1);
    let other = table.get("turn").is_none() && table.index_of("turn").is_none();
    table.len() == 2 && values && indices && other
}

/// Whether a new table tells names that are new, and keeps what they were first declared as.
fn keeps_what_comes_first(alloc: Global, key: u64) -> bool {
    let mut table = Table::new(alloc, key);
    let told = declare_three(&mut table);
    told == Ok([true, true, false]) && has_count_and_total(&table)
}

#[test]
fn the_first_declaration_stays(rt: HostRuntime) {
    assert_all(
        &rt,
        &[
            ("key 0", keeps_what_comes_first(rt.alloc(), 0)),
            ("key 12345", keeps_what_comes_first(rt.alloc(), 12345)),
        ],
    );
}

/// Declares `v` as 1 and `w` as 2, and in a block `v` as 3; the number of declarations before the block.
fn declare_in_a_block<A: Allocator + Copy>(
    scope: &mut Scope<'static, u32, A>,
) -> Result<usize, AllocError> {
    scope.declare("v", 1)?;
    scope.declare("w", 2)?;
    let outer = scope.len();
    scope.declare("v", 3)?;
    Ok(outer)
}

/// Whether a name's newest declaration has this index and this value, or is not there.
fn is_newest<A: Allocator + Copy>(
    scope: &Scope<'static, u32, A>,
    name: &str,
    wanted: Option<(usize, u32)>,
) -> bool {
    scope.newest(name) == wanted
}

/// Whether `v` is hidden in a block, and known again behind it.
fn hides_and_gives_back<A: Allocator + Copy>(scope: &mut Scope<'static, u32, A>) -> bool {
    match declare_in_a_block(scope) {
        Ok(outer) => {
            let inside = is_newest(scope, "v", Some((2, 3)));
            scope.leave(outer.min(scope.len()));
            let behind = is_newest(scope, "v", Some((0, 1))) && is_newest(scope, "w", Some((1, 2)));
            inside && behind && is_newest(scope, "x", None) && scope.len() == 2
        }
        Err(_) => false,
    }
}

/// Whether `v` is hidden in a block of a new scope, and known again behind it, and nothing is known at the end.
fn a_new_one_hides(alloc: Global) -> bool {
    let mut scope = Scope::new(alloc, 0);
    let hides = hides_and_gives_back(&mut scope);
    scope.leave(0);
    hides && is_newest(&scope, "v", None) && scope.len() == 0
}

#[test]
fn a_block_hides_and_gives_back(rt: HostRuntime) {
    assert_all(&rt, &[("v", a_new_one_hides(rt.alloc()))]);
}

/// The hash of `v` by a key.
fn hash_by(key: u64) -> u64 {
    Keyed::new(key).hash_one("v")
}

#[test]
fn another_key_is_another_hash(rt: HostRuntime) {
    assert_all(
        &rt,
        &[
            ("1 and 2", hash_by(1) != hash_by(2)),
            ("1 twice", hash_by(1) == hash_by(1)),
        ],
    );
}

/// The key of a text's tree; none where it is no program.
fn key_of(alloc: Global, text: &str) -> Option<u64> {
    match unit_of(alloc, text) {
        Some(unit) => Some(unit.key),
        None => None,
    }
}

/// Whether two programs have keys, and another one each.
fn have_other_keys(alloc: Global, one: &str, other: &str) -> bool {
    match (key_of(alloc, one), key_of(alloc, other)) {
        (Some(one), Some(other)) => one != other,
        _ => false,
    }
}

#[test]
fn other_names_are_another_key(rt: HostRuntime) {
    let one = "int g; void worker(int a) { int b; }";
    assert_all(
        &rt,
        &[
            (
                "global",
                have_other_keys(rt.alloc(), one, "int h; void worker(int a) { int b; }"),
            ),
            (
                "parameter",
                have_other_keys(rt.alloc(), one, "int g; void worker(int b) { int b; }"),
            ),
            (
                "local",
                have_other_keys(rt.alloc(), one, "int g; void worker(int a) { int a; }"),
            ),
            (
                "parts",
                have_other_keys(rt.alloc(), "int ab, c;", "int a, bc;"),
            ),
            (
                "order",
                have_other_keys(rt.alloc(), "int a, b;", "int b, a;"),
            ),
        ],
    );
}

/// A program with 10,000 globals, whose names have 32 letters: all that begin so have one hash, where a hash multiplies
/// eight bytes by eight with a constant and no key, since behind this beginning one factor is 0.
fn colliding(alloc: Global) -> Result<String, AllocError> {
    let mut text = String::new(alloc);
    text.push_str("int ")?;
    for number in 10000000..10010000u32 {
        text.push_str("aaaaaaaaaaaaassTNo3qMD1o")?;
        text.push_str(format!(in alloc; "{number},")?.as_str())?;
    }
    text.push_str("last;")?;
    Ok(text)
}

/// The name at an index among a program's globals.
fn name_at(text: &str, index: usize) -> Option<&str> {
    let start = index.checked_mul(33)?.checked_add(4)?;
    text.get(start..start.checked_add(32)?)
}

/// Declares each name in a table and in a scope, and the oldest once more, in a block behind them; none where one is
/// refused.
fn declare_each<'a>(
    text: &'a str,
    table: &mut Table<'a, usize, Global>,
    scope: &mut Scope<'a, usize, Global>,
) -> Option<()> {
    for index in 0..10000usize {
        let name = name_at(text, index)?;
        table.declare(name, index).ok()?;
        scope.declare(name, index).ok()?;
    }
    scope.declare(name_at(text, 0)?, 7).ok()
}

/// Whether each name is found at its index.
fn are_at_their_indices<'a>(
    text: &str,
    table: &Table<'a, usize, Global>,
    scope: &Scope<'a, usize, Global>,
) -> Option<bool> {
    for index in 0..10000usize {
        let name = name_at(text, index)?;
        if table.index_of(name) != Some(index) || scope.newest(name) != Some((index, index)) {
            return Some(false);
        }
    }
    Some(true)
}

/// Whether the oldest name is hidden in a block, and each is found behind it, by the key of the program.
fn finds_each(alloc: Global, text: &str) -> Option<bool> {
    let key = key_of(alloc, text)?;
    let mut table = Table::new(alloc, key);
    let mut scope = Scope::new(alloc, key);
    declare_each(text, &mut table, &mut scope)?;
    let hidden = scope.newest(name_at(text, 0)?) == Some((10000, 7));
    scope.leave(scope.len().min(10000));
    let found = are_at_their_indices(text, &table, &scope)?;
    Some(hidden && found)
}

/// Whether colliding names are each found at their indices.
fn many_are_found(alloc: Global) -> bool {
    match colliding(alloc) {
        Ok(text) => finds_each(alloc, text.as_str()) == Some(true),
        Err(_) => false,
    }
}

#[test]
fn colliding_names_are_found(rt: HostRuntime) {
    assert_all(&rt, &[("each", many_are_found(rt.alloc()))]);
}

/// Declares a name in a table, a second time where it is refused, and says whether it was; none where the table did not
/// stay as it was, or the name is not new.
fn declare_again(
    table: &mut Table<'static, u32, &Refusing<Global>>,
    name: &'static str,
    count: usize,
) -> Option<bool> {
    let first = table.declare(name, 1);
    if first.is_ok() {
        return (first == Ok(true)).then_some(false);
    }
    let unchanged = table.len() == count && table.get(name).is_none();
    (unchanged && table.declare(name, 1) == Ok(true)).then_some(true)
}

/// Declares a name in a scope, a second time where it is refused, and says whether it was; none where the scope did not
/// stay as it was.
fn hide_again(
    scope: &mut Scope<'static, u32, &Refusing<Global>>,
    name: &'static str,
    count: usize,
) -> Option<bool> {
    if scope.declare(name, 1) != Err(AllocError) {
        return Some(false);
    }
    let unchanged = scope.len() == count && scope.newest(name).is_none();
    (unchanged && scope.declare(name, 1).is_ok()).then_some(true)
}

/// The names that are declared while growths are refused.
fn names() -> &'static [&'static str] {
    static NAMES: [&'static str; 9] = ["a", "b", "c", "d", "e", "f", "g", "h", "i"];
    &NAMES
}

/// How many declarations of a table were refused, the next growth being refused before each; none where one did not
/// leave the table as it was.
fn refused_in_a_table(alloc: &Refusing<Global>) -> Option<u32> {
    let mut table = Table::new(alloc, 3);
    let mut refused = 0u32;
    for (index, name) in names().iter().enumerate() {
        alloc.refuse(1);
        if declare_again(&mut table, name, index)? {
            refused = refused.saturating_add(1);
        }
    }
    (table.len() == 9).then_some(refused)
}

/// How many declarations of a scope were refused, growth `nth` being refused before each; none where one did not leave
/// the scope as it was.
fn refused_in_a_scope(alloc: &Refusing<Global>, nth: u64) -> Option<u32> {
    let mut scope = Scope::new(alloc, 3);
    let mut refused = 0u32;
    for (index, name) in names().iter().enumerate() {
        alloc.refuse(nth);
        if hide_again(&mut scope, name, index)? {
            refused = refused.saturating_add(1);
        }
    }
    (scope.len() == 9).then_some(refused)
}

#[test]
fn a_refused_declaration_leaves_the_names(rt: HostRuntime) {
    let alloc = Refusing::new(rt.alloc(), 0);
    let table = refused_in_a_table(&alloc).is_some_and(|refused| refused > 0);
    let locals = refused_in_a_scope(&alloc, 1).is_some_and(|refused| refused > 0);
    let numbers = refused_in_a_scope(&alloc, 2).is_some_and(|refused| refused > 0);
    assert_all(
        &rt,
        &[
            ("a table", table),
            ("a scope's locals", locals),
            ("a scope's map", numbers),
        ],
    );
}
