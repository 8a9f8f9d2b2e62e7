//! Whether each outcome of one program shows what one of another's does, whether an outcome has a report, and how both
//! are told.
#![tactic(auto)]

mod admitted;
mod shown;
mod told;

pub use admitted::{Admission, admission_of};
pub use shown::first_beyond;
pub use told::{beyond_text, refined_text};
