//! Which parts form a valid code.

ghost use Rattle.std.specs.Prelude.{◌≡◌, ◌<◌, ◌≤◌, ◌+◌, MatchOption, IfOk, IfErr, IsTrue, ◌↔◌, fold, flat_map, length};
ghost use Rattle.std.specs.Prelude.{map};
ghost use Rattle.std.specs.Hash as fed;
ghost use Rattle.std.specs.Hash.DefaultHasher as sip;
ghost use Rattle.std.specs.List.{list_all};
ghost use Rattle.syntax.specs.Names.{initial_from};
ghost use Rattle.syntax.specs.Views.{global_of};
ghost use Rattle.bytecode.specs.declared.valid.PartsFault.TheVariants.{OutOfMemory};
ghost use Rattle.bytecode.specs.Valid.{cells_of, end_of, is_shaped, AreWritten, HasDistinctNames, HasWorker};
ghost use Rattle.bytecode.specs.Valid.{IsValidFunction, AreValid, IsValid};
ghost use Rattle.bytecode.specs.Views.{code_of, function_of};
ghost use Rattle.bytecode.specs.inner.Layout.{AreLaidOut};

use crate::code::{Code, FunctionCode, Parts};
use crate::limits::{MOST_INSTRUCTIONS, MOST_REGISTERS};
use crate::walk::walk;
use crate::written::is_written;
use name_tables::Keyed;
use std::alloc::{AllocError, Allocator};
use std::collections::HashSet;
use std::hash::{DefaultHasher, Hash, Hasher};
use syntax::limits::MOST_CELLS;
use syntax::tree::Global;

/// Why the validity of parts is unknown: they are returned unchanged.
#[derive(Drop)]
pub enum PartsFault<A: Allocator = std::alloc::Global> {
    /// An allocation failed. This says nothing about the parts.
    OutOfMemory(Parts<A>),
}

/// Whether a global has 1 to 4,096 cells, and one for each initial value.
fn is_shaped<A: Allocator>(g: &Global<A>) -> bool
    ensures { result ≡ is_shaped (global_of g.now) }
{
    let cells = g.cell_count();
    1 <= cells && cells <= MOST_CELLS && g.first.len() <= cells
}

/// Whether each global has 1 to 4,096 cells, and one for each initial value.
fn are_shaped<A: Allocator>(globals: &[Global<A>]) -> bool
    ensures { result ≡ list_all (λ g. is_shaped (global_of g)) globals.now }
{
    globals.iter().all(|g| is_shaped(g))
}

impl<A: Allocator> PartsFault<A> {
    /// The fault's number: 0.
    pub fn number(&self) -> u32
        ensures { result ≡ 0 }
    {
        match self {
            PartsFault::OutOfMemory(_) => 0,
        }
    }
}

/// The number of all cells, if they are not too many.
fn count_cells<A: Allocator>(globals: &[Global<A>]) -> Option<usize>
    ensures { MatchOption result (MOST_CELLS < length (initial_from (map global_of globals.now)))
        (λ n. (n ≡ length (initial_from (map global_of globals.now))) × (n ≤ MOST_CELLS)) }
{
    let mut count: usize = 0;
    'each: for g in globals {
        let more = g.cell_count();
        if more > MOST_CELLS - count {
            return None;
        }
        count += more;
    }
    Some(count)
}

/// Where a function's code ends.
pub(crate) fn end_of<A: Allocator>(parts: &Parts<A>, number: usize) -> usize
    requires { number < length parts.now.functions }
    ensures { result ≡ end_of (code_of parts.now) number }
{
    match parts.functions.as_slice().get(number + 1) {
        Some(next) => next.first as usize,
        None => parts.instructions.len(),
    }
}

/// Whether the functions' codes lie one after another from 0 on, each with an instruction.
fn are_laid_out<A: Allocator>(parts: &Parts<A>) -> bool
    ensures { IsTrue result ↔ AreLaidOut (code_of parts.now) }
{
    let functions = parts.functions.as_slice();
    let first = match functions.first() {
        Some(f) => f.first as usize,
        None => parts.instructions.len(),
    };
    if first > 0 {
        return false;
    }
    'each: for number in 0..functions.len() {
        if functions[number].first as usize >= end_of(parts, number) {
            return false;
        }
    }
    true
}

/// The hash of all functions' names, in order: so no name can be chosen for the key that it helps to determine.
fn key_of<A: Allocator>(functions: &[FunctionCode<A>]) -> u64
    ensures { result ≡ sip.finish (fold sip.write sip.initial (flat_map (λ f. fed.str f.name) functions.now)) }
{
    let mut hasher = DefaultHasher::new();
    'each: for f in functions {
        f.name.as_str().hash(&mut hasher);
    }
    hasher.finish()
}

/// Whether no two functions have the same name.
fn have_distinct_names<A: Allocator + Copy>(alloc: A, parts: &Parts<A>) -> Result<bool, AllocError>
    ensures { IfOk result (λ b. IsTrue b ↔ HasDistinctNames (code_of parts.now)) }
{
    let functions = parts.functions.as_slice();
    let mut names = HashSet::with_hasher(alloc, Keyed::new(key_of(functions)));
    'each: for f in functions {
        match names.insert(f.name.as_str()) {
            Ok(true) => {}
            Ok(false) => return Ok(false),
            Err(_) => return Err(AllocError),
        }
    }
    Ok(true)
}

/// Whether there is a function `worker` with one parameter.
fn has_worker<A: Allocator>(parts: &Parts<A>) -> bool
    ensures { IsTrue result ↔ HasWorker (code_of parts.now) }
{
    'each: for f in parts.functions.as_slice() {
        if f.name.as_str() == "worker" && f.parameters == 1 {
            return true;
        }
    }
    false
}

/// Whether everything that a function's instructions name exists.
fn are_written<A: Allocator>(
    parts: &Parts<A>,
    f: &FunctionCode<A>,
    behind: usize,
    cells: usize,
) -> bool
    requires ends { behind ≤ length parts.now.instructions }
    requires cells { cells ≡ cells_of (code_of parts.now) }
    ensures { IsTrue result ↔ AreWritten (code_of parts.now) (function_of f.now) behind }
{
    let instrs = parts.instructions.as_slice();
    'each: for at in f.first as usize..behind {
        if !is_written(parts, f, behind, cells, &instrs[at]) {
            return false;
        }
    }
    true
}

/// Whether a function that begins before its end is valid.
fn is_valid_function<A: Allocator + Copy>(
    alloc: A,
    parts: &Parts<A>,
    f: &FunctionCode<A>,
    behind: usize,
    cells: usize,
) -> Result<bool, AllocError>
    requires starts { f.now.first < behind }
    requires ends { behind ≤ length parts.now.instructions }
    requires cells { cells ≡ cells_of (code_of parts.now) }
    ensures { IfOk result (λ b. IsTrue b ↔ IsValidFunction (code_of parts.now) (function_of f.now) behind) }
{
    if f.parameters > f.registers || f.registers > MOST_REGISTERS {
        return Ok(false);
    }
    if !are_written(parts, f, behind, cells) {
        return Ok(false);
    }
    walk(alloc, parts, f, behind)
}

/// Whether functions whose codes lie one after another are valid.
fn are_valid_functions<A: Allocator + Copy>(
    alloc: A,
    parts: &Parts<A>,
    cells: usize,
) -> Result<bool, AllocError>
    requires laid_out { AreLaidOut (code_of parts.now) }
    requires cells { cells ≡ cells_of (code_of parts.now) }
    ensures { IfOk result (λ b. IsTrue b ↔ AreValid (code_of parts.now)) }
{
    let functions = parts.functions.as_slice();
    'each: for number in 0..functions.len() {
        let behind = end_of(parts, number);
        if !is_valid_function(alloc, parts, &functions[number], behind, cells)? {
            return Ok(false);
        }
    }
    Ok(true)
}

/// Whether parts form a valid code.
fn is_valid<A: Allocator + Copy>(alloc: A, parts: &Parts<A>) -> Result<bool, AllocError>
    ensures { IfOk result (λ b. IsTrue b ↔ IsValid (code_of parts.now)) }
{
    if parts.instructions.len() > MOST_INSTRUCTIONS {
        return Ok(false);
    }
    if !are_shaped(parts.globals.as_slice()) {
        return Ok(false);
    }
    match count_cells(parts.globals.as_slice()) {
        None => Ok(false),
        Some(cells) => {
            if !are_laid_out(parts) {
                return Ok(false);
            }
            if !has_worker(parts) {
                return Ok(false);
            }
            if !have_distinct_names(alloc, parts)? {
                return Ok(false);
            }
            are_valid_functions(alloc, parts, cells)
        }
    }
}

/// The code of exactly these parts, or `None` if and only if they are not valid. Allocates an arrival and a place
/// for each of the longest function's instructions and a name for each function; and for the words of a valid code, and
/// the first word of each of its instructions. If that fails, or there are more than 2^32 of these words, the parts are
/// returned.
///
/// Takes time linear in the parts' size, and for each reachable `cancelx #K` also in the minimum of K and the number of
/// begins that are open there. So N instructions may take time quadratic in N: if a third of them are begins that stay
/// open, and another third cancels of them all.
pub fn validate<A: Allocator + Copy>(
    alloc: A,
    parts: Parts<A>,
) -> Result<Option<Code<A>>, PartsFault<A>>
    ensures valid { IfOk result
        (λ o. MatchOption o (¬ IsValid (code_of parts)) (λ c. (c ≡ code_of parts) × IsValid (code_of parts))) }
    ensures refused { IfErr result (λ e. e ≡ OutOfMemory parts) }
{
    match is_valid(alloc, &parts) {
        Ok(true) => match Code::from_valid(alloc, parts) {
            Ok(code) => Ok(Some(code)),
            Err(parts) => Err(PartsFault::OutOfMemory(parts)),
        },
        Ok(false) => Ok(None),
        Err(_) => Err(PartsFault::OutOfMemory(parts)),
    }
}
