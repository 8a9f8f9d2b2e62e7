//! The number of questions with each verdict.

ghost use Rattle.std.specs.Prelude.{◌≡◌, ◌⊎◌};
ghost use Rattle.verdicts.specs.Verdicts.{HaveAllPassed};

use crate::verdict::Verdict;

/// The number of questions with each verdict.
#[derive(Clone, Copy, Debug)]
pub struct Tally {
    pub passed: u64,
    pub failed: u64,
    pub undecided: u64,
    pub refused: u64,
}

impl Tally {
    /// No questions yet.
    pub fn new() -> Tally
        ensures { HaveAllPassed result }
    {
        Tally {
            passed: 0,
            failed: 0,
            undecided: 0,
            refused: 0,
        }
    }

    /// This tally with one more verdict.
    pub fn with(self, verdict: Verdict) -> Tally
        ensures this { HaveAllPassed result → verdict ≡ Verdict.Passed }
        ensures before { HaveAllPassed result → HaveAllPassed self }
    {
        match verdict {
            Verdict::Passed => Tally {
                passed: self.passed.saturating_add(1),
                ..self
            },
            Verdict::Failed => Tally {
                failed: self.failed.saturating_add(1),
                ..self
            },
            Verdict::Undecided => Tally {
                undecided: self.undecided.saturating_add(1),
                ..self
            },
            Verdict::Refused => Tally {
                refused: self.refused.saturating_add(1),
                ..self
            },
        }
    }

    /// The exit status: 0 if all have passed, and otherwise that of the worst verdict.
    pub fn status(self) -> u8
        ensures passed { result ≡ 0 → HaveAllPassed self }
        ensures others { (result ≡ 0) ⊎ (result ≡ 2) ⊎ (result ≡ 4) ⊎ (result ≡ 5) }
    {
        if self.failed > 0 {
            5
        } else if self.refused > 0 {
            2
        } else if self.undecided > 0 {
            4
        } else {
            0
        }
    }
}
