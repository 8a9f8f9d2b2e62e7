//! The verdicts on questions: whether an answer is the expected one, and how it is reported.
#![tactic(auto)]

mod list;
mod notes;
mod report;
mod tally;
mod verdict;

pub use list::{
    list_command, tell_bad_question, tell_long_file, tell_misspelled, tell_no_question,
    tell_unwritten,
};
pub use notes::Notes;
pub use report::{Answered, report_answer, report_tally};
pub use tally::Tally;
pub use verdict::{Verdict, judge};
