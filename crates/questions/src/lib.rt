//! The questions that a source asks: lines whose words begin with `//` and `txc:`, and the words behind them.
#![tactic(auto)]

mod asked;
mod expected;
mod spelling;

pub use asked::{Question, questions};
pub use expected::{Expected, answer_expected, without_expected};
pub use spelling::{Position, misspelled};
