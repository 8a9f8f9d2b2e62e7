//! GitHub annotations: lines that GitHub's workflows show at a line of a file.
#![tactic(auto)]

use std::io;
use std::io::Write;

/// The escape of a character that may not occur in a message.
fn message_escape(c: char) -> Option<&'static str> {
    match c {
        '%' => Some("%25"),
        '\r' => Some("%0D"),
        '\n' => Some("%0A"),
        _ if c.is_control() => Some("?"),
        _ => None,
    }
}

/// The escape of a character that may not occur in a property.
fn property_escape(c: char) -> Option<&'static str> {
    match c {
        ':' => Some("%3A"),
        ',' => Some("%2C"),
        _ => message_escape(c),
    }
}

/// Writes a character, or its escape.
fn write_character<W: Write>(c: char, escape: Option<&str>, out: &mut W) -> io::Result<()> {
    match escape {
        Some(escape) => out.write_all(escape.as_bytes()),
        None => write!(out, "{c}"),
    }
}

/// Begins an annotation of a file. `kind` is `error` or `warning`. Further properties follow, each after a comma, and
/// then the message, after two colons.
pub fn begin_annotation<W: Write>(kind: &str, file: &str, out: &mut W) -> io::Result<()> {
    write!(out, "::{kind} file=")?;
    'characters: for c in file.chars() {
        write_character(c, property_escape(c), out)?;
    }
    Ok(())
}

/// Writes a text as part of a message.
pub fn write_message<W: Write>(text: &str, out: &mut W) -> io::Result<()> {
    'characters: for c in text.chars() {
        write_character(c, message_escape(c), out)?;
    }
    Ok(())
}
