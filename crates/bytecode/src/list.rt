//! The listing of a code.

ghost use Rattle.std.specs.Prelude.{◌≡◌, ◌+◌, ◌-◌, ◌<◌, ◌^◌, ◌++◌, ◌∷◌, [], OnOk, IfOk, string_bytes, codes, decimal};
ghost use Rattle.std.specs.Prelude.{flat_map, map, length};
ghost use Rattle.bytecode.specs.Flat.{instruction_from};
ghost use Rattle.bytecode.specs.Listing.{cut_text, lines_from, listing_escape, functions_text, text_at, texts_text};
ghost use Rattle.bytecode.specs.Listing as spec;
ghost use Rattle.bytecode.specs.Views.{function_of};
ghost use Rattle.bytecode.specs.inner.Stored.{AreWhole};

use crate::code::{Code, FunctionCode};
use crate::cut::cut;
use crate::list_instr::push_instr;
use crate::view::view_at;
use containers::Text;
use itoa::Buffer;
use std::alloc::{AllocError, Allocator};

fn push_lines<A: Allocator>(
    text: &mut String<A>,
    functions: &[FunctionCode<A>],
    words: &[u32],
    firsts: &[u32],
    from: u64,
) -> Result<(), AllocError>
    requires whole { AreWhole words.now firsts.now }
    requires few { from + length firsts.now < 2 ^ 64 }
    ensures { OnOk result (string_bytes text.new ≡ string_bytes text.old
        ++ lines_from (map function_of functions.now) from (map (instruction_from words.now) firsts.now)) }
{
    let mut place = from;
    'each: for first in firsts {
        text.push_str(Buffer::new().format(place))?;
        text.push_str(" ")?;
        push_instr(text, functions, &view_at(words, *first as usize))?;
        text.push_str("\n")?;
        place += 1;
    }
    Ok(())
}

fn push_cut<A: Allocator>(
    text: &mut String<A>,
    code: &Code<A>,
    first: u32,
    end: usize,
) -> Result<(), AllocError>
    ensures { OnOk result (string_bytes text.new ≡ string_bytes text.old ++ cut_text code.now first (end - first)) }
{
    let (words, firsts) = code.flat();
    let count = end.saturating_sub(first as usize);
    let lines = cut(firsts, first as usize, count);
    push_lines(text, code.functions(), words, lines, u64::from(first))
}

fn push_function<A: Allocator>(
    text: &mut String<A>,
    code: &Code<A>,
    f: &FunctionCode<A>,
    end: usize,
) -> Result<(), AllocError>
    ensures { OnOk result (string_bytes text.new ≡ string_bytes text.old ++ codes "function " ++ f.now.name
        ++ codes " registers " ++ decimal f.now.registers ++ 10 ∷ cut_text code.now f.now.first (end - f.now.first)) }
{
    text.push_str("function ")?;
    text.push_str(f.name.as_str())?;
    text.push_str(" registers ")?;
    text.push_str(Buffer::new().format(f.registers))?;
    text.push_str("\n")?;
    push_cut(text, code, f.first, end)
}

fn push_escaped<A: Allocator>(text: &mut String<A>, written: &str) -> Result<(), AllocError>
    ensures { OnOk result (string_bytes text.new ≡ string_bytes text.old ++ flat_map listing_escape written.now) }
{
    'each: for c in written.chars() {
        match c {
            '\n' => text.push_str("\\n")?,
            '\t' => text.push_str("\\t")?,
            '\\' => text.push_str("\\\\")?,
            '"' => text.push_str("\\\"")?,
            c => text.push(c)?,
        }
    }
    Ok(())
}

fn push_texts<A: Allocator>(text: &mut String<A>, texts: &[Text<A>]) -> Result<(), AllocError>
    ensures { OnOk result (string_bytes text.new ≡ string_bytes text.old ++ texts_text 0 texts.now) }
{
    'each: for number in 0..texts.len() {
        text.push_str("text ")?;
        text.push_str(Buffer::new().format(number))?;
        text.push_str(" \"")?;
        push_escaped(text, texts[number].as_str())?;
        text.push_str("\"\n")?;
    }
    Ok(())
}

fn push_functions<A: Allocator>(text: &mut String<A>, code: &Code<A>) -> Result<(), AllocError>
    ensures { OnOk result (string_bytes text.new ≡ string_bytes text.old
        ++ functions_text code.now code.now.functions) }
{
    let functions = code.functions();
    'each: for number in 0..functions.len() {
        let end = match functions.get(number + 1) {
            Some(g) => g.first as usize,
            None => code.len(),
        };
        push_function(text, code, &functions[number], end)?;
    }
    Ok(())
}

/// The text of a code.
pub fn listing<A: Allocator>(alloc: A, code: &Code<A>) -> Result<String<A>, AllocError>
    ensures { IfOk result (λ s. string_bytes s ≡ spec.listing code.now) }
{
    let mut text = String::new(alloc);
    push_functions(&mut text, code)?;
    push_texts(&mut text, code.texts())?;
    Ok(text)
}

/// The text of the instruction at a place; none if there is no such place.
pub fn instruction_text<A: Allocator>(
    alloc: A,
    code: &Code<A>,
    place: u32,
) -> Result<String<A>, AllocError>
    ensures { IfOk result (λ s. string_bytes s ≡ text_at code.now place) }
{
    let mut text = String::new(alloc);
    if let Some(instr) = code.instr(place as usize) {
        push_instr(&mut text, code.functions(), &instr)?;
    }
    Ok(text)
}
