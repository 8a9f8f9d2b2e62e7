//! Lines that ask something of the program that they stand in.

ghost use Rattle.std.specs.Prelude.{◌≡◌, ◌++◌, ◌&&◌, IfOk, MatchOption, None, OnOk, Some, bytes_eq, codes, map};
ghost use Rattle.std.specs.List.{slice_split};
ghost use Rattle.questions.specs.Questions.{asking, is_blank, lines_of, one_of_line, questions_of, words_of};
ghost use Rattle.questions.specs.inner.Found.{pair_of, pairs_of};

use std::alloc::{AllocError, Global};

/// A question: a line that asks something, and its words.
#[derive(Debug, Drop)]
pub struct Question<'t> {
    /// The number of the line, from 1.
    pub line: usize,
    /// The column of `//`, from 1.
    pub column: usize,
    /// The words behind `// txc:`.
    pub words: Vec<&'t [u8]>,
}

/// Whether a byte parts words.
fn is_blank(byte: u8) -> bool
    ensures { result ≡ is_blank byte }
{
    byte == b' ' || byte == b'\t' || byte == b'\r'
}

/// The parts of a line between blanks, of which some may be empty.
fn parts<'t>(alloc: Global, line: &'t [u8]) -> Result<Vec<&'t [u8]>, AllocError>
    ensures { IfOk result (λ v. map (λ p. p.now) v.items ≡ slice_split is_blank line.now) }
{
    line.split(|byte| is_blank(*byte)).collect(alloc)
}

/// The words of a line.
fn words<'t>(alloc: Global, line: &'t [u8]) -> Result<Vec<&'t [u8]>, AllocError>
    ensures { IfOk result (λ v. map (λ p. p.now) v.items ≡ words_of line.now) }
{
    let parts = parts(alloc, line)?;
    let mut words = Vec::new(alloc);
    'parts: for part in parts.as_slice() {
        if !part.is_empty() {
            words.push(*part)?;
        }
    }
    Ok(words)
}

/// The lines of a text.
pub(crate) fn lines<'t>(alloc: Global, text: &'t [u8]) -> Result<Vec<&'t [u8]>, AllocError>
    ensures { IfOk result (λ v. map (λ p. p.now) v.items ≡ lines_of text.now) }
{
    text.split(|byte| *byte == b'\n').collect(alloc)
}

/// Whether two words begin a question.
fn begin_question(first: &[u8], second: &[u8]) -> bool
    ensures { result ≡ (bytes_eq first.now (codes "//") && bytes_eq second.now (codes "txc:")) }
{
    first == b"//".as_slice() && second == b"txc:".as_slice()
}

/// What the words of a line ask, if they ask something.
fn asked<'t>(alloc: Global, words: &[&'t [u8]]) -> Result<Option<Vec<&'t [u8]>>, AllocError>
    ensures { IfOk result (λ o. MatchOption o (asking (map (λ p. p.now) words.now) ≡ None)
        (λ v. asking (map (λ p. p.now) words.now) ≡ Some (map (λ p. p.now) v.items))) }
{
    let [first, second, rest @ ..] = words else {
        return Ok(None);
    };
    if !begin_question(*first, *second) {
        return Ok(None);
    }
    let mut asked = Vec::new(alloc);
    asked.extend_from_slice(rest)?;
    Ok(Some(asked))
}

/// The column in which a line's first word begins, from 1.
fn column(line: &[u8]) -> usize {
    line.iter().take_while(|byte| is_blank(**byte)).count() + 1
}

/// The question that a line is, if it is one.
pub(crate) fn question_of<'t>(
    alloc: Global,
    number: usize,
    line: &'t [u8],
) -> Result<Option<Question<'t>>, AllocError>
    ensures { IfOk result (λ o. pairs_of o ≡ one_of_line number (asking (words_of line.now))) }
{
    let words = words(alloc, line)?;
    match asked(alloc, words.as_slice())? {
        Some(words) => Ok(Some(Question {
            line: number,
            column: column(line),
            words,
        })),
        None => Ok(None),
    }
}

/// Adds a question, if there is one.
fn add<'t>(questions: &mut Vec<Question<'t>>, found: Option<Question<'t>>) -> Result<(), AllocError>
    ensures { OnOk result (map pair_of questions.new.items ≡ map pair_of questions.old.items ++ pairs_of found.entry) }
{
    if let Some(question) = found {
        questions.push(question)?;
    }
    Ok(())
}

/// The questions of a source, in the order of its lines.
pub fn questions<'t>(alloc: Global, text: &'t [u8]) -> Result<Vec<Question<'t>>, AllocError>
    ensures { IfOk result (λ v. map (λ q. (q.line, map (λ w. w.now) q.words.items)) v.items ≡ questions_of text.now) }
{
    let lines = lines(alloc, text)?;
    let mut questions = Vec::new(alloc);
    let mut number = 0;
    'lines: for line in lines.as_slice() {
        number += 1;
        let found = question_of(alloc, number, *line)?;
        add(&mut questions, found)?;
    }
    Ok(questions)
}
