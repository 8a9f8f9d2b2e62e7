//! What a call names.

ghost use Rattle.std.specs.Prelude.{◌≡◌, ℕ, IfSome, IfNone, Some, None, slice_get};
ghost use Rattle.bytecode.specs.Code.{Instr as PlainInstr};
ghost use Rattle.bytecode.specs.Valid.{Has};
ghost use Rattle.bytecode.specs.Views.{function_of};
ghost use Rattle.frames.specs.Stack.{callee_of};

use bytecode::{Code, FunctionCode, kinds};
use std::alloc::Allocator;

/// A call: the register that takes the value, the registers handed over, and the function.
#[derive(Drop)]
pub(crate) struct Call<'c, A: Allocator> {
    pub result: u32,
    pub args: &'c [u32],
    pub callee: &'c FunctionCode<A>,
}

/// The call that stands at a place, if one does.
#[inline(always)]
pub(crate) fn called_at<A: Allocator>(code: &Code<A>, place: u32) -> Option<Call<'_, A>>
    ensures some { IfSome result
        (λ call. (f : ℕ) × (slice_get code.now.instructions place ≡ Some (PlainInstr.Call f call.result call.args.now))
        × Has code.now f (function_of call.callee.now)) }
    ensures none { IfNone result (callee_of code.now (slice_get code.now.instructions place) ≡ None) }
{
    let (words, firsts) = code.flat();
    match firsts.get(place as usize) {
        Some(first) => {
            let w = *first as usize;
            let head = words[w];
            if head % 256 != kinds::CALL {
                return None;
            }
            let behind = w + 1 + (head / 256) as usize;
            match code.functions().get(words[w + 1] as usize) {
                Some(callee) => Some(Call {
                    result: words[w + 2],
                    args: &words[w + 3..behind],
                    callee,
                }),
                None => None,
            }
        }
        None => None,
    }
}
