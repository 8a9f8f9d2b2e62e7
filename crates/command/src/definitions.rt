//! Numbers that replace names in sources.

ghost use Rattle.std.specs.Prelude.{◌≡◌, ◌++◌, ◌∷◌, [], OnOk, List, IfOk, IfErr, MatchOption, false, map};
ghost use Rattle.std.specs.Prelude.{string_bytes, true};
ghost use Rattle.clap.specs.Words.{found_of, rows_of};
ghost use Rattle.command.specs.Asked.{AreDefinitions, AreDefinitionsOf, IsCountOfThreads, default_threads, has_twice};
ghost use Rattle.command.specs.Asked.{is_among, words_defining};
ghost use Rattle.command.specs.inner.Refusals.{IsOwn};
ghost use Rattle.parameters.specs.declared.definition.Definition.{Definition};

use crate::given::{NoNumber, read_number, wrong};
use crate::request::UsageFault;
use clap::ArgMatches;
use parameters::{Definition, read_definition};
use std::alloc::{AllocError, Global};

/// The default number of threads of a command.
fn default_threads(name: &str) -> u32
    ensures { result ≡ default_threads name.now }
{
    if name == "outcomes" || name == "trace" || name == "explore" {
        2
    } else {
        1
    }
}

/// The number of threads of a command, if it is a single one. A command without threads has one.
fn thread_count(name: &str, given: &ArgMatches<'_>) -> Option<u32>
    ensures { IsCountOfThreads name.now (rows_of (found_of given.now)) result }
{
    match read_number(given, "threads") {
        Ok(Some(threads)) => Some(threads),
        Ok(None) => Some(default_threads(name)),
        Err(NoNumber) => None,
    }
}

/// Reports that a definition needs a single number of threads.
fn no_single_number(alloc: Global, word: &str) -> UsageFault
    ensures { IsOwn (Unit {0}) result }
{
    match format!(in alloc; "-D {word} needs one number of threads") {
        Ok(why) => wrong(alloc, why.as_str()),
        Err(_) => UsageFault::OutOfMemory,
    }
}

/// Says that a word defines nothing.
fn bad_definition(alloc: Global, word: &str, threads: Option<u32>) -> UsageFault
    ensures { IsOwn (Unit {0}) result }
{
    if threads.is_none() && word.ends_with("=threads") {
        return no_single_number(alloc, word);
    }
    match format!(in alloc;
        "-D {word} is no NAME=VALUE: a name of FILE, and a whole number or `threads`"
    ) {
        Ok(why) => wrong(alloc, why.as_str()),
        Err(_) => UsageFault::OutOfMemory,
    }
}

/// Says that a name is defined twice.
fn defined_twice(alloc: Global, name: &str) -> UsageFault
    ensures { IsOwn (Unit {0}) result }
{
    match format!(in alloc; "-D {name} is given twice") {
        Ok(why) => wrong(alloc, why.as_str()),
        Err(_) => UsageFault::OutOfMemory,
    }
}

/// Adds a definition.
fn add(definitions: &mut Vec<Definition>, definition: Definition) -> Result<(), AllocError>
    ensures { OnOk result (definitions.new.items ≡ definitions.old.items ++ definition ∷ []) }
{
    match definitions.push(definition) {
        Ok(()) => Ok(()),
        Err(refused) => Err(AllocError::from(refused)),
    }
}

/// What words define.
fn read(alloc: Global, words: &[&str], threads: Option<u32>) -> Result<Vec<Definition>, UsageFault>
    ensures ok { IfOk result (λ v. AreDefinitionsOf threads (map (λ w. w.now) words.now) v.items) }
    ensures err { IfErr result
        (IsOwn ((ds : List Definition) → AreDefinitionsOf threads (map (λ w. w.now) words.now) ds → ⊥)) }
{
    let mut definitions = Vec::new(alloc);
    'words: for word in words {
        match read_definition(alloc, *word, threads)? {
            Some(definition) => add(&mut definitions, definition)?,
            None => return Err(bad_definition(alloc, *word, threads)),
        }
    }
    Ok(definitions)
}

/// The definitions given on the command line.
fn read_given(
    alloc: Global,
    given: &ArgMatches<'_>,
    threads: Option<u32>,
) -> Result<Vec<Definition>, UsageFault>
    ensures ok { IfOk result (λ v. AreDefinitionsOf threads (words_defining (rows_of (found_of given.now))) v.items) }
    ensures err { IfErr result (IsOwn ((ds : List Definition)
        → AreDefinitionsOf threads (words_defining (rows_of (found_of given.now))) ds → ⊥)) }
{
    match given.get_strs("define") {
        Some(words) => read(alloc, words, threads),
        None => Ok(Vec::new(alloc)),
    }
}

/// Whether one of these defines a name.
fn is_among(definitions: &[Definition], name: &str) -> bool
    ensures { result ≡ is_among name.now (map (λ d. string_bytes d.name) definitions.now) }
{
    'definitions: for definition in definitions {
        if definition.name.as_str() == name {
            return true;
        }
    }
    false
}

/// A name that is defined twice, if there is one.
fn twice(definitions: &[Definition]) -> Option<&str>
    ensures { let names = map (λ d. string_bytes d.name) definitions.now
        in MatchOption result (has_twice names ≡ false) (λ _. has_twice names ≡ true) }
{
    'definitions: for at in 0..definitions.len() {
        let name = definitions[at].name.as_str();
        if is_among(&definitions[at + 1..], name) {
            return Some(name);
        }
    }
    None
}

/// The definitions of a command line, with distinct names.
pub(crate) fn definitions(
    alloc: Global,
    name: &str,
    given: &ArgMatches<'_>,
) -> Result<Vec<Definition>, UsageFault>
    ensures ok { IfOk result (λ v. AreDefinitions name.now (rows_of (found_of given.now)) v.items) }
    ensures err { IfErr result
        (IsOwn ((ds : List Definition) → AreDefinitions name.now (rows_of (found_of given.now)) ds → ⊥)) }
{
    let definitions = read_given(alloc, given, thread_count(name, given))?;
    match twice(definitions.as_slice()) {
        Some(name) => Err(defined_twice(alloc, name)),
        None => Ok(definitions),
    }
}
