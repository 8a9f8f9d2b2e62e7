//! Each growth refused in turn.

use crate::asserted::assert_that;
use crate::built::code_of_two;
use crate::of_frames::carried::run;
use bytecode::{Code, Instr};
use frames::Doing;
use std::alloc::{Allocator, Global};
use test_memory::{Refusing, growths};

/// Whether thread 7 ends and has printed this, if memory is there.
fn ends<A: Allocator + Copy>(alloc: A, code: &Code<A>, printed: &str) -> Option<bool> {
    let mut memory = [0u64; 1];
    let mut text = String::new(alloc);
    match run(alloc, code, 7, &mut memory, &mut text) {
        Err(_) => None,
        Ok((doing, _, _)) => Some(doing == Doing::End && text.as_str() == printed),
    }
}

/// `f` gives its parameter back.
fn prints_and_calls() -> &'static [Instr] {
    static CODE: [Instr; 5] = [
        Instr::Call(1, 1, 1, 0),
        Instr::PrintText(0),
        Instr::PrintSigned(1),
        Instr::Return,
        Instr::ReturnValue(0),
    ];
    &CODE
}

/// Whether the thread ends, having printed both, where growth `nth` behind its code's is not met, and else that is
/// told.
fn tells_in<A: Allocator + Copy, B: Allocator>(alloc: A, refusing: &Refusing<B>, nth: u64) -> bool {
    match code_of_two(alloc, prints_and_calls(), 4, (2, 1)) {
        Some(code) => {
            refusing.refuse(nth);
            match ends(alloc, &code, "\"\t\"7") {
                Some(ended) => ended && refusing.is_waiting(),
                None => !refusing.is_waiting(),
            }
        }
        None => false,
    }
}

/// Whether the thread ends where growth `nth` of its allocator, counted behind its code's, is not met, and else that
/// is told.
fn tells(refusing: &Refusing<Global>, nth: u64) -> bool {
    tells_in(refusing, refusing, nth)
}

#[test]
fn each_growth_may_be_refused(rt: HostRuntime) {
    // the first frame, the caller and the callee's registers, the text, the registers at the end
    assert_that(&rt, growths(rt.alloc(), 50, tells).ok() >= Some(4));
}
