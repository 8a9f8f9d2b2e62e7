//! Tests files by answering each of their questions.

ghost use Rattle.std.specs.Prelude.{◌≡◌, ◌≤◌, ◌⊎◌, IfErr, IfOk, map, string_bytes};
ghost use Rattle.questions.specs.Questions.{questions_of};
ghost use Rattle.system.specs.Kept.{kept_in};
ghost use Rattle.system.specs.Tests.{AnswersTests, AreFilesPassed, AreQuestionsPassed, IsQuestionPassed};
ghost use Rattle.verdicts.specs.Verdicts.{HaveAllPassed};

use crate::kept::{KeptFile, bytes_of};
use crate::question::{answer_question, asked_of, request_words};
use crate::source::WithSource;
use command::{TestFormat, Tests, UsageFault};
use lex::MOST_BYTES;
use questions::{Question, answer_expected, misspelled, questions, without_expected};
use serving::Files;
use std::alloc::{AllocError, Global};
use std::io;
use std::io::Write;
use std::sync::Wait;
use std::thread::Threads;
use std::time::{Clock, Instant};
use verdicts::{
    Answered, Tally, Verdict, judge, list_command, report_answer, report_tally, tell_bad_question,
    tell_long_file, tell_misspelled, tell_no_question, tell_unwritten,
};

/// The exit status after an allocation failure, or if the output can't be written.
const STOPPED: u8 = 4;

/// The exit status if a question is invalid.
const UNUSABLE: u8 = 2;

/// Reports an allocation failure.
fn out_of_memory<E: Write>(err: &mut E) -> u8
    ensures { result ≡ 4 }
{
    let _ = writeln!(err, "txc: out of memory");
    STOPPED
}

/// Reports why a question is invalid.
fn bad_question<E: Write>(
    file: &str,
    question: &Question<'_>,
    fault: &UsageFault,
    err: &mut E,
) -> u8
    ensures { (result ≡ 2) ⊎ (result ≡ 4) }
{
    match fault {
        UsageFault::OutOfMemory => out_of_memory(err),
        UsageFault::Help { text } | UsageFault::Wrong { text } => {
            tell_bad_question(file, question.line, question.column, text.as_str(), err);
            UNUSABLE
        }
    }
}

/// Checks that no comment of a file resembles a question and is none.
fn check_spelling<E: Write>(alloc: Global, file: &KeptFile, err: &mut E) -> Result<(), u8>
    ensures { IfErr result (λ s. (s ≡ 2) ⊎ (s ≡ 4)) }
{
    match misspelled(alloc, file.bytes.as_slice()) {
        Ok(None) => Ok(()),
        Ok(Some(place)) => {
            tell_misspelled(file.name.as_str(), place, err);
            Err(UNUSABLE)
        }
        Err(AllocError) => Err(out_of_memory(err)),
    }
}

/// Checks that a file is whole and its questions are requests, and counts them.
fn check_file<E: Write>(alloc: Global, file: &KeptFile, err: &mut E) -> Result<usize, u8>
    ensures { IfErr result (λ s. (s ≡ 2) ⊎ (s ≡ 4)) }
{
    let name = file.name.as_str();
    if file.bytes.len() > MOST_BYTES {
        tell_long_file(name, MOST_BYTES, err);
        return Err(UNUSABLE);
    }
    check_spelling(alloc, file, err)?;
    let Ok(questions) = questions(alloc, file.bytes.as_slice()) else {
        return Err(out_of_memory(err));
    };
    'questions: for question in questions.as_slice() {
        let words = without_expected(question.words.as_slice());
        if let Err(fault) = asked_of(alloc, name, words) {
            return Err(bad_question(name, question, &fault, err));
        }
    }
    Ok(questions.len())
}

/// Checks that all questions are requests, and that there is at least one.
fn check_all<E: Write>(alloc: Global, files: &[KeptFile], err: &mut E) -> Result<(), u8>
    ensures { IfErr result (λ s. (s ≡ 2) ⊎ (s ≡ 4)) }
{
    let mut has_any = false;
    'files: for file in files {
        if check_file(alloc, file, err)? > 0 {
            has_any = true;
        }
    }
    if has_any {
        Ok(())
    } else {
        tell_no_question(err);
        Err(UNUSABLE)
    }
}

/// Prints the command for a question.
fn list_question<W: Write>(
    alloc: Global,
    file: &str,
    question: &Question<'_>,
    out: &mut W,
) -> io::Result<()> {
    let expected = answer_expected(question.words.as_slice());
    let words = without_expected(question.words.as_slice());
    match request_words(alloc, file, words)? {
        Some(words) => list_command(words.as_slice(), expected, out),
        None => Ok(()),
    }
}

/// Prints a command for each question of a file.
fn list_file<W: Write>(alloc: Global, file: &KeptFile, out: &mut W) -> io::Result<()> {
    let questions = questions(alloc, file.bytes.as_slice())?;
    'questions: for question in questions.as_slice() {
        list_question(alloc, file.name.as_str(), question, out)?;
    }
    Ok(())
}

/// Prints a command for each question of these files.
fn list_files<W: Write>(alloc: Global, files: &[KeptFile], out: &mut W) -> io::Result<()> {
    'files: for file in files {
        list_file(alloc, file, out)?;
    }
    Ok(())
}

/// Prints a command for each question of these files, and returns the exit status.
fn list_all<W: Write, E: Write>(alloc: Global, files: &[KeptFile], out: &mut W, err: &mut E) -> u8
    ensures { (result ≡ 0) ⊎ (result ≡ 4) }
{
    match list_files(alloc, files, out) {
        Ok(()) => 0,
        Err(error) => {
            tell_unwritten(&error, err);
            STOPPED
        }
    }
}

/// The milliseconds since a moment, or 0 if the clock can't be read.
fn milliseconds<C: Clock>(clock: &C, since: Option<Instant>) -> u64 {
    let Some(since) = since else {
        return 0;
    };
    match since.elapsed(clock) {
        Ok(elapsed) => elapsed
            .as_secs()
            .saturating_mul(1000)
            .saturating_add(u64::from(elapsed.subsec_millis())),
        Err(_) => 0,
    }
}

/// Joins words with blanks.
fn joined(alloc: Global, words: &[&[u8]]) -> Result<String, AllocError> {
    let mut all = String::new(alloc);
    'words: for (number, word) in words.iter().enumerate() {
        if number > 0 {
            all.push(' ')?;
        }
        let text = String::from_utf8_lossy(alloc, *word)?;
        all.push_str(text.as_str())?;
    }
    Ok(all)
}

/// Answers a question of a source, reports the answer, and returns the verdict.
fn test_question<H: Threads + Wait + Clock + Sync, F: Files, W: Write>(
    rt: &H,
    alloc: Global,
    source: &WithSource<'_, F>,
    question: &Question<'_>,
    format: TestFormat,
    out: &mut W,
) -> io::Result<Verdict>
    ensures { IfOk result (λ v. v ≡ Verdict.Passed
        → IsQuestionPassed (F.contents source.now.files.now) source.now.name.now source.now.bytes.now
        (map (λ w. w.now) question.now.words.items)) }
{
    let words = question.words.as_slice();
    let expected = answer_expected(words);
    let text = joined(alloc, words)?;
    let since = Instant::now(rt).ok();
    let Ok(asked) = asked_of(alloc, source.name, without_expected(words)) else {
        return Ok(Verdict::Refused);
    };
    let answer = answer_question(rt, alloc, &asked, source);
    let verdict = judge(expected, answer.status, answer.has_stuck);
    let answered = Answered {
        file: source.name,
        line: question.line,
        column: question.column,
        words: text.as_str(),
        expected,
        status: answer.status,
        verdict,
        milliseconds: milliseconds(rt, since),
        notes: answer.notes.notes(),
    };
    report_answer(alloc, &answered, format, out)?;
    Ok(verdict)
}

/// Tests the questions of a source, and adds their verdicts to an earlier tally.
fn test_source<H: Threads + Wait + Clock + Sync, F: Files, W: Write>(
    rt: &H,
    alloc: Global,
    source: &WithSource<'_, F>,
    format: TestFormat,
    before: Tally,
    out: &mut W,
) -> io::Result<Tally>
    ensures before { IfOk result (λ t. HaveAllPassed t → HaveAllPassed before) }
    ensures passed { IfOk result (λ t. HaveAllPassed t
        → AreQuestionsPassed (F.contents source.now.files.now) source.now.name.now source.now.bytes.now
        (questions_of source.now.bytes.now)) }
{
    let questions = questions(alloc, source.bytes)?;
    let mut tally = before;
    'questions: for question in questions.as_slice() {
        let verdict = test_question(rt, alloc, source, question, format, out)?;
        tally = tally.with(verdict);
    }
    Ok(tally)
}

/// Tests the questions of kept files.
fn test_files<H: Threads + Wait + Clock + Sync, F: Files, W: Write>(
    rt: &H,
    alloc: Global,
    tests: &Tests,
    kept: &[KeptFile],
    files: &F,
    out: &mut W,
) -> io::Result<Tally>
    ensures { IfOk result (λ t. HaveAllPassed t
        → AreFilesPassed (F.contents files.now) (kept_in kept.now) (map string_bytes tests.now.files.items)) }
{
    let mut tally = Tally::new();
    'names: for name in tests.files.as_slice() {
        tally = match bytes_of(kept, name.as_str()) {
            Some(bytes) => {
                let source = WithSource {
                    files,
                    name: name.as_str(),
                    bytes,
                };
                test_source(rt, alloc, &source, tests.format, tally, out)?
            }
            None => tally.with(Verdict::Refused),
        };
    }
    Ok(tally)
}

/// Tests the questions of kept files, reports the tally, and returns the exit status.
fn test_all<H: Threads + Wait + Clock + Sync, F: Files, W: Write, E: Write>(
    rt: &H,
    alloc: Global,
    tests: &Tests,
    kept: &[KeptFile],
    files: &F,
    out: &mut W,
    err: &mut E,
) -> u8
    ensures passed { result ≡ 0
        → AreFilesPassed (F.contents files.now) (kept_in kept.now) (map string_bytes tests.now.files.items) }
    ensures others { (result ≡ 0) ⊎ (result ≡ 2) ⊎ (result ≡ 4) ⊎ (result ≡ 5) }
{
    let tally = match test_files(rt, alloc, tests, kept, files, out) {
        Ok(tally) => tally,
        Err(error) => {
            tell_unwritten(&error, err);
            return STOPPED;
        }
    };
    match report_tally(alloc, tally, tests.format, out) {
        Ok(()) => tally.status(),
        Err(error) => {
            tell_unwritten(&error, err);
            STOPPED
        }
    }
}

/// Tests kept files, or lists their questions as commands, and returns the exit status. If a question is invalid,
/// reports it and prints nothing.
pub(crate) fn serve_tests<H: Threads + Wait + Clock + Sync, F: Files, W: Write, E: Write>(
    rt: &H,
    alloc: Global,
    tests: &Tests,
    kept: &[KeptFile],
    files: &F,
    out: &mut W,
    err: &mut E,
) -> u8
    ensures answer { AnswersTests (F.contents files.now) tests.now (kept_in kept.now) result }
    ensures status { result ≤ 5 }
{
    if let Err(status) = check_all(alloc, kept, err) {
        return status;
    }
    if tests.lists {
        list_all(alloc, kept, out, err)
    } else {
        test_all(rt, alloc, tests, kept, files, out, err)
    }
}
