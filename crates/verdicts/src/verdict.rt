//! Whether an answer is the expected one.

ghost use Rattle.std.specs.Prelude.{◌≡◌};
ghost use Rattle.questions.specs.Questions.{status_of};

use questions::Expected;

/// A verdict on the answer to a question.
#[derive(Clone, Copy, Debug, PartialEq, Eq)]
pub enum Verdict {
    /// The answer is the expected one.
    Passed,
    /// The answer is another one.
    Failed,
    /// There is no answer: the search stopped early, or an allocation failed.
    Undecided,
    /// The program or a word of the question was refused, or a file could not be read.
    Refused,
}

impl Verdict {
    /// The word for the verdict.
    pub fn name(self) -> &'static str {
        match self {
            Verdict::Passed => "passed",
            Verdict::Failed => "failed",
            Verdict::Undecided => "undecided",
            Verdict::Refused => "refused",
        }
    }
}

/// The verdict on an answer that is not the expected one.
fn other_verdict(status: u8, has_stuck: bool) -> Verdict
    ensures { result ≡ Verdict.Passed → ⊥ }
{
    match status {
        1 | 2 => Verdict::Refused,
        4 if !has_stuck => Verdict::Undecided,
        _ => Verdict::Failed,
    }
}

/// The verdict on an exit status of `txc outcomes`, and on whether it listed a stuck order.
pub fn judge(expected: Expected, status: u8, has_stuck: bool) -> Verdict
    ensures { result ≡ Verdict.Passed → status ≡ status_of expected }
{
    if status != expected.status() {
        return other_verdict(status, has_stuck);
    }
    match expected {
        Expected::Stuck if !has_stuck => Verdict::Undecided,
        _ => Verdict::Passed,
    }
}
