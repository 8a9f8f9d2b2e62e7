//! The answer that a question expects.

ghost use Rattle.std.specs.Prelude.{◌≡◌, map};
ghost use Rattle.questions.specs.Questions.{expected_by, expected_of, status_of, without_expected};

/// The answer that a question expects.
#[derive(Clone, Copy, Debug, PartialEq, Eq)]
pub enum Expected {
    /// The properties hold, or the outcomes are the expected ones.
    Holds,
    /// A property fails, or the outcomes are not the expected ones: `(fails)`.
    Fails,
    /// A thread traps: `(traps)`.
    Traps,
    /// An order is stuck: `(stuck)`.
    Stuck,
}

impl Expected {
    /// The exit status of `txc outcomes` for this answer.
    pub fn status(self) -> u8
        ensures { result ≡ status_of self }
    {
        match self {
            Expected::Holds => 0,
            Expected::Fails => 5,
            Expected::Traps => 3,
            Expected::Stuck => 4,
        }
    }
}

/// The expected answer, if this is the last word.
fn expected_by(word: &[u8]) -> Expected
    ensures { result ≡ expected_by word.now }
{
    if word == b"(fails)".as_slice() {
        Expected::Fails
    } else if word == b"(traps)".as_slice() {
        Expected::Traps
    } else if word == b"(stuck)".as_slice() {
        Expected::Stuck
    } else {
        Expected::Holds
    }
}

/// The answer that words expect.
pub fn answer_expected(words: &[&[u8]]) -> Expected
    ensures { result ≡ expected_of (map (λ w. w.now) words.now) }
{
    let mut expected = Expected::Holds;
    'words: for word in words {
        expected = expected_by(*word);
    }
    expected
}

/// The words without the one that says which answer is expected.
pub fn without_expected<'w, 't>(words: &'w [&'t [u8]]) -> &'w [&'t [u8]]
    ensures { map (λ w. w.now) result.now ≡ without_expected (map (λ w. w.now) words.now) }
{
    match answer_expected(words) {
        Expected::Holds => words,
        Expected::Fails | Expected::Traps | Expected::Stuck => &words[..words.len() - 1],
    }
}
