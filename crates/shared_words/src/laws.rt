//! What the rule of the table says, in terms of runs. A law has no code: its contract is what it says.

ghost use Rattle.std.specs.Prelude.{ℕ, List};
ghost use Rattle.shared_words.specs.Setup.{Setup};
ghost use Rattle.shared_words.specs.Views.{Views};
ghost use Rattle.shared_words.specs.Rule.{IsRuled};
ghost use Rattle.shared_words.specs.Saying.{InTimeSays, RuleSays};

/// Whatever the words and the views of all seats are, there is a merge of the threads' transactions, and each merge is
/// a run of the code in which each thread stands; the words are its last memory, or while a thread has the lock that
/// memory with what this thread has stored. Each attempt, also one that will be dropped, is where its code's meaning
/// comes on one memory of the run. Some list of steps makes just what the threads did, and in it no thread has been
/// dropped more often than others have taken the lock. Each thread's answers are explained by the run, and no lock
/// value answered after its floor was set is below the floor.
///
/// In which order in time the threads made these steps, `what_was_seen_stands_first` says.
pub fn the_rule_is_explained()
    ensures { (key : Setup) (words : List ℕ) (views : Views) (rule : IsRuled key words views) →
        RuleSays key words views rule }
{}

/// The list of steps grows, and none of it changes: each seat has seen a beginning of it. So what a thread begins after
/// a seat's look stands, in every run, behind all that had taken effect when the seat looked; and two seats that have
/// met have looked at one time.
pub fn what_was_seen_stands_first()
    ensures { (key : Setup) (words : List ℕ) (views : Views) (rule : IsRuled key words views) →
        InTimeSays key rule.trace rule.world views }
{}
