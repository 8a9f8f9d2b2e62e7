//! An attempt of a transaction as code: NOrec's read log and write log, what each open begin saves, and whether the
//! lock is kept.
#![tactic(auto)]

mod attempt;
mod saved;

pub use attempt::Attempt;
pub use saved::Saved;
