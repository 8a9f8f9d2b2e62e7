//! Laws of threads. A law has no code: its contract is what it says.

ghost use Rattle.atomic_code.specs.Resting.{WordsTellThreads};

/// Words of threads outside transactions that are the same are those of threads that have printed the same, are found
/// alike, and stand in one configuration.
pub fn words_tell_threads()
    ensures { WordsTellThreads }
{}
