//! Laws of frames. A law has no code: its contract is what it says.

ghost use Rattle.bytecode.specs.Code.{Code as Plain};
ghost use Rattle.bytecode.specs.Valid.{IsValid};
ghost use Rattle.frames.specs.Open.{BeginsStayOpen};
ghost use Rattle.frames.specs.Words.{WordsTellConfigurations};

/// A thread of a valid code stands, after each of its instructions, where a thread of that code may stand; and it may
/// keep of each open begin the registers of the frame on top, the number of frames and the place: what is restored by
/// them is the configuration that the begin had.
pub fn begins_stay_open()
    ensures { (code : Plain) → IsValid code → BeginsStayOpen code }
{}

/// Words of frames that go on alike are those of one configuration.
pub fn words_tell_configurations()
    ensures { WordsTellConfigurations }
{}
