//! The data of a page as JSON (RFC 8259).

ghost use Rattle.std.specs.Prelude.{◌≡◌, ◌+◌, ◌/◌, ◌<◌, ◌^◌, ◌∷◌, [], IfOk, OnOk, drop, flat_map, length, map, take};
ghost use Rattle.std.specs.List.{range_with_len};
ghost use Rattle.json.specs.Print.{print};
ghost use Rattle.pages.specs.Content.{data_of, property_data, rest_data};
ghost use Rattle.pages.specs.Data.{Appends, body_tokens, data_tokens, entries_of, head_tokens, listed, number_list};
ghost use Rattle.pages.specs.Data.{number_member, property_object, rest_object, row_list, state_count, state_list};
ghost use Rattle.pages.specs.Data.{table_tokens, target_list, target_token, text_member, touched_list, turn_list};
ghost use Rattle.pages.specs.Data.{types_of};

use crate::cells::{put_memory, put_names, types_of};
use crate::content::{NO_STATE, Page, PropertyShown, RestShown};
use containers::Items;
use json::Writer;
use lex::token::Scalar;
use std::alloc::{AllocError, Allocator};

/// Adds a member of an object whose value is a text.
fn put_text<B: Allocator>(to: &mut Writer<B>, key: &str, text: &str) -> Result<(), AllocError>
    ensures { OnOk result (Appends to.old to.new (text_member key.now text.now)) }
{
    to.key(key)?;
    to.string(text)
}

/// Adds a member of an object whose value is a number.
fn put_number<B: Allocator>(to: &mut Writer<B>, key: &str, number: usize) -> Result<(), AllocError>
    ensures { OnOk result (Appends to.old to.new (number_member key.now number)) }
{
    to.key(key)?;
    to.u64(number as u64)
}

/// Adds numbers as a list.
fn put_numbers<B: Allocator>(to: &mut Writer<B>, numbers: &[u32]) -> Result<(), AllocError>
    ensures { OnOk result (Appends to.old to.new (number_list numbers.now)) }
{
    to.begin_array()?;
    'numbers: for number in numbers {
        to.u64(u64::from(*number))?;
    }
    to.end_array()
}

/// Adds words as a list of numbers.
fn put_words<B: Allocator>(to: &mut Writer<B>, words: &[u64]) -> Result<(), AllocError>
    ensures { OnOk result (Appends to.old to.new (number_list words.now)) }
{
    to.begin_array()?;
    'words: for word in words {
        to.u64(*word)?;
    }
    to.end_array()
}

/// Adds the state after a turn: `null` if the page lacks it.
fn put_target<B: Allocator>(to: &mut Writer<B>, target: u32) -> Result<(), AllocError>
    ensures { OnOk result (Appends to.old to.new (target_token target ∷ [])) }
{
    if target == NO_STATE {
        to.null()
    } else {
        to.u64(u64::from(target))
    }
}

/// Adds the states after turns as a list.
fn put_targets<B: Allocator>(to: &mut Writer<B>, targets: &[u32]) -> Result<(), AllocError>
    ensures { OnOk result (Appends to.old to.new (target_list targets.now)) }
{
    to.begin_array()?;
    'targets: for target in targets {
        put_target(to, *target)?;
    }
    to.end_array()
}

/// Adds how a thread rests.
fn put_rest<A: Allocator, B: Allocator>(
    to: &mut Writer<B>,
    rest: &RestShown<A>,
) -> Result<(), AllocError>
    ensures { OnOk result (Appends to.old to.new (rest_object (rest_data rest.now))) }
{
    let (line, column) = rest.at.unwrap_or((0, 0));
    to.begin_object()?;
    put_number(to, "line", line)?;
    put_number(to, "column", column)?;
    put_text(to, "words", rest.words.as_str())?;
    put_text(to, "end", rest.end.as_str())?;
    put_text(to, "printed", rest.printed.as_str())?;
    to.end_object()
}

/// Adds how threads rest as a list.
fn put_rests<A: Allocator, B: Allocator>(
    to: &mut Writer<B>,
    rests: &[RestShown<A>],
) -> Result<(), AllocError>
    ensures { OnOk result (Appends to.old to.new (listed (flat_map rest_object (map rest_data rests.now)))) }
{
    to.begin_array()?;
    'rests: for rest in rests {
        put_rest(to, rest)?;
    }
    to.end_array()
}

/// Adds the cells that a turn reads, and those that it writes.
fn put_touch<A: Allocator, B: Allocator>(
    to: &mut Writer<B>,
    touched: &(Items<u32, A>, Items<u32, A>),
) -> Result<(), AllocError>
    ensures { OnOk result (Appends to.old to.new (touched_list touched.now)) }
{
    to.begin_array()?;
    put_numbers(to, touched.0.as_slice())?;
    put_numbers(to, touched.1.as_slice())?;
    to.end_array()
}

/// Adds the cells that turns read and write as a list.
fn put_touched<A: Allocator, B: Allocator>(
    to: &mut Writer<B>,
    touched: &[(Items<u32, A>, Items<u32, A>)],
) -> Result<(), AllocError>
    ensures { OnOk result (Appends to.old to.new (listed (flat_map touched_list touched.now))) }
{
    to.begin_array()?;
    'touched: for one in touched {
        put_touch(to, one)?;
    }
    to.end_array()
}

/// This many words of a list, after as many for each of the earlier states; fewer at the list's end.
fn words_of(list: &[u64], count: usize, state: usize) -> &[u64]
    ensures is { result.now ≡ entries_of list.now count state }
    ensures short { length list.now < 2 ^ 64 }
{
    let from = state.saturating_mul(count).min(list.len());
    let to = from.saturating_add(count).min(list.len());
    &list[from..to]
}

/// Likewise, of a list of numbers.
fn numbers_of(list: &[u32], count: usize, state: usize) -> &[u32]
    ensures { result.now ≡ entries_of list.now count state }
{
    let from = state.saturating_mul(count).min(list.len());
    let to = from.saturating_add(count).min(list.len());
    &list[from..to]
}

/// The row of a state.
fn row_of(rows: &[u64], cells: usize, threads: usize, state: usize) -> &[u64]
    ensures { result.now ≡ entries_of rows.now (cells + threads) state }
{
    words_of(rows, cells.saturating_add(threads), state)
}

/// The memory in a row.
fn memory_of(row: &[u64], cells: usize) -> &[u64]
    ensures { result.now ≡ take cells row.now }
{
    &row[..cells.min(row.len())]
}

/// The rests of threads in a row.
fn rests_of(row: &[u64], cells: usize) -> &[u64]
    ensures { result.now ≡ drop cells row.now }
{
    &row[cells.min(row.len())..]
}

/// The number of states that have this many turns each.
fn count_of(turns: usize, threads: usize) -> usize
    ensures { result ≡ turns / threads }
{
    if threads == 0 { 0 } else { turns / threads }
}

/// Adds a row: the memory as a list, and the rests of threads as a list.
fn put_row<B: Allocator>(
    to: &mut Writer<B>,
    types: &[Scalar],
    cells: usize,
    row: &[u64],
) -> Result<(), AllocError>
    ensures { OnOk result (Appends to.old to.new (row_list types.now cells row.now)) }
{
    put_memory(to, types, memory_of(row, cells))?;
    put_words(to, rests_of(row, cells))
}

/// Adds the turns of a state: the states to which they lead as a list, and the numbers of what they touch as a list.
fn put_turns<B: Allocator>(
    to: &mut Writer<B>,
    targets: &[u32],
    turns: &[u32],
    threads: usize,
    state: usize,
) -> Result<(), AllocError>
    ensures { OnOk result (Appends to.old to.new (turn_list targets.now turns.now threads state)) }
{
    put_targets(to, numbers_of(targets, threads, state))?;
    put_numbers(to, numbers_of(turns, threads, state))
}

/// Adds a state: the memory, the rests of its threads, and the turns.
fn put_state<A: Allocator, B: Allocator>(
    to: &mut Writer<B>,
    page: &Page<'_, A>,
    types: &[Scalar],
    state: usize,
) -> Result<(), AllocError>
    requires { types.now ≡ types_of (data_of page.now).globals page.now.cells }
    ensures { OnOk result (Appends to.old to.new (state_list (data_of page.now) state)) }
{
    let threads = page.threads as usize;
    let row = row_of(page.states.rows, page.cells, threads, state);
    to.begin_array()?;
    put_row(to, types, page.cells, row)?;
    put_turns(to, page.states.targets, page.states.turns, threads, state)?;
    to.end_array()
}

/// Adds the states as a list.
fn put_states<A: Allocator, B: Allocator>(
    to: &mut Writer<B>,
    page: &Page<'_, A>,
    types: &[Scalar],
) -> Result<(), AllocError>
    requires { types.now ≡ types_of (data_of page.now).globals page.now.cells }
    ensures { OnOk result (Appends to.old to.new (listed (flat_map (state_list (data_of page.now))
        (range_with_len 0 (state_count (data_of page.now)))))) }
{
    let threads = page.threads as usize;
    let count = count_of(page.states.targets.len(), threads);
    to.begin_array()?;
    'states: for state in 0..count {
        put_state(to, page, types, state)?;
    }
    to.end_array()
}

/// Adds a property.
fn put_property<A: Allocator, B: Allocator>(
    to: &mut Writer<B>,
    property: &PropertyShown<A>,
) -> Result<(), AllocError>
    ensures { OnOk result (Appends to.old to.new (property_object (property_data property.now))) }
{
    to.begin_object()?;
    put_text(to, "name", property.name.as_str())?;
    put_text(to, "values", property.values.as_str())?;
    to.end_object()
}

/// Adds properties as a list.
fn put_properties<A: Allocator, B: Allocator>(
    to: &mut Writer<B>,
    properties: &[PropertyShown<A>],
) -> Result<(), AllocError>
    ensures { OnOk result (Appends to.old to.new (listed (flat_map property_object
        (map property_data properties.now)))) }
{
    to.begin_array()?;
    'properties: for property in properties {
        put_property(to, property)?;
    }
    to.end_array()
}

/// Adds the members of a page that do not depend on its states.
fn put_head<A: Allocator, B: Allocator>(
    to: &mut Writer<B>,
    page: &Page<'_, A>,
) -> Result<(), AllocError>
    ensures { OnOk result (Appends to.old to.new (head_tokens (data_of page.now))) }
{
    put_text(to, "file", page.file)?;
    put_text(to, "options", page.options)?;
    put_text(to, "source", page.text)?;
    put_number(to, "threads", page.threads as usize)?;
    to.key("order")?;
    put_numbers(to, page.order)
}

/// Adds the cells and states of a page.
fn put_body<A: Allocator + Copy, B: Allocator>(
    alloc: A,
    to: &mut Writer<B>,
    page: &Page<'_, A>,
) -> Result<(), AllocError>
    ensures { OnOk result (Appends to.old to.new (body_tokens (data_of page.now))) }
{
    let types = types_of(alloc, page.globals, page.cells)?;
    to.key("cells")?;
    put_names(alloc, to, page.globals, page.cells)?;
    to.key("are_all")?;
    to.boolean(page.states.are_all)?;
    to.key("states")?;
    put_states(to, page, types.as_slice())
}

/// Adds what the states of a page refer to.
fn put_tables<A: Allocator, B: Allocator>(
    to: &mut Writer<B>,
    page: &Page<'_, A>,
) -> Result<(), AllocError>
    ensures { OnOk result (Appends to.old to.new (table_tokens (data_of page.now))) }
{
    to.key("rests")?;
    put_rests(to, page.rests)?;
    to.key("touched")?;
    put_touched(to, page.touched)?;
    to.key("properties")?;
    put_properties(to, page.properties)
}

/// Adds the data of a page as an object.
fn put_data<A: Allocator + Copy, B: Allocator>(
    alloc: A,
    to: &mut Writer<B>,
    page: &Page<'_, A>,
) -> Result<(), AllocError>
    ensures { OnOk result (Appends to.old to.new (data_tokens (data_of page.now))) }
{
    to.begin_object()?;
    put_head(to, page)?;
    put_body(alloc, to, page)?;
    put_tables(to, page)?;
    to.end_object()
}

/// The data of a page as JSON.
pub(crate) fn data_text<A: Allocator + Copy>(
    alloc: A,
    page: &Page<'_, A>,
) -> Result<Vec<u8, A>, AllocError>
    ensures { IfOk result (λ text. text.items ≡ print (data_tokens (data_of page.now))) }
{
    let mut object = Writer::new(Vec::new(alloc));
    put_data(alloc, &mut object, page)?;
    Ok(object.into_inner())
}
