//! What command lines ask for: a line each of a script. Each word has a bar in front, the first of
//! which is the program's name.
//!
//!     |WORD|WORD..                        what the words ask for, or their fault
//!     text |WORD.., text refused          the text of their fault, and that of refused memory
//!     line |WORD.. => LINE                whether that text has this line
//!     part |WORD.. => PART                whether it has this part
//!
//! Each is answered by a line, but for a text that has several.

use bgpdump_command_line::{Mode, Settings, UsageFault, settings};
use mrt_wire::Stamp;
use row_values::{REFUSED, Shown, UNREAD, marks, split_word};
use std::alloc::{AllocError, Global};
use std::str;

/// Appends what is answered to the lines.
pub(crate) fn put_settings(alloc: Global, script: &[u8], text: &mut Shown) {
    for line in str::from_utf8(script).unwrap_or("").lines() {
        put_answer(alloc, line, text);
        text.put(b"\n");
    }
}

/// Appends what is answered to a line.
fn put_answer(alloc: Global, line: &str, text: &mut Shown) {
    let (name, rest) = split_word(line);
    match name {
        "text" if rest == "refused" => put_told(alloc, &UsageFault::Memory, line, text),
        "text" | "line" | "part" => put_fault(alloc, line, rest, text),
        _ if name.is_empty() || name.starts_with("|") => put_asked(alloc, line, text),
        _ => text.put(UNREAD),
    }
}

/// Appends what words ask for.
fn put_asked(alloc: Global, line: &str, text: &mut Shown) {
    match read_words(alloc, line) {
        Ok(words) => put_found(&ask(alloc, words), text),
        Err(AllocError) => text.note(Err(AllocError)),
    }
}

/// The words of a line, each as its own text.
fn read_words(alloc: Global, line: &str) -> Result<Vec<String>, AllocError> {
    let mut words = Vec::new(alloc);
    for word in line.split("|").skip(1) {
        put_word(alloc, word, &mut words)?;
    }
    Ok(words)
}

/// Appends a word.
fn put_word(alloc: Global, word: &str, words: &mut Vec<String>) -> Result<(), AllocError> {
    words.push(String::from_str(alloc, word)?)?;
    Ok(())
}

/// What words ask for.
fn ask(alloc: Global, words: Vec<String>) -> Result<Settings, UsageFault> {
    marks::begin(alloc);
    let found = settings(alloc, words);
    marks::end(alloc);
    found
}

/// Appends settings, or the fault in their place.
fn put_found(found: &Result<Settings, UsageFault>, text: &mut Shown) {
    match found {
        Ok(found) => put_all(found, text),
        Err(UsageFault::Words(_)) => text.put(b"words"),
        Err(UsageFault::Mode) => text.put(b"mode"),
        Err(UsageFault::TwoInputs) => text.put(b"two inputs"),
        Err(UsageFault::Memory) => text.put(REFUSED),
        Err(UsageFault::Help(_)) => text.put(b"help"),
    }
}

/// Appends all that settings say.
fn put_all(found: &Settings, text: &mut Shown) {
    match &found.mode {
        Mode::Lines => text.put(b"lines"),
        Mode::Play(script) => put_name(b"play ", script.as_str(), text),
    }
    match found.stamp {
        Stamp::Dump => text.put(b" dump"),
        Stamp::Change => text.put(b" change"),
    }
    if let Some(output) = &found.output {
        put_name(b" to ", output.as_str(), text);
    }
    put_name(b" from ", found.input.as_str(), text);
}

/// Appends a word and a name, which may be any text.
fn put_name(word: &[u8], name: &str, text: &mut Shown) {
    text.put(word);
    text.put(b"[");
    text.put(name.as_bytes());
    text.put(b"]");
}

/// Appends what a line asks of the text of a fault that its words give.
fn put_fault(alloc: Global, line: &str, rest: &str, text: &mut Shown) {
    let (words, _) = rest.split_once(" => ").unwrap_or((rest, ""));
    match read_words(alloc, words) {
        Ok(words) => put_fault_of(alloc, &ask(alloc, words), line, text),
        Err(AllocError) => text.note(Err(AllocError)),
    }
}

/// Appends what a line asks of the text of a fault, where there is one.
fn put_fault_of(alloc: Global, found: &Result<Settings, UsageFault>, line: &str, text: &mut Shown) {
    match found {
        Ok(_) => text.put(b"no fault"),
        Err(fault) => put_told(alloc, fault, line, text),
    }
}

/// Appends what a line asks of the text of a fault. It has to be the text that the fault carries,
/// where it carries one.
fn put_told(alloc: Global, fault: &UsageFault, line: &str, text: &mut Shown) {
    match format!(in alloc; "{fault}") {
        Ok(told) if is_text_of(fault, told.as_str()) => put_judged(told.as_str(), line, text),
        Ok(_) => text.put(b"another text"),
        Err(_) => text.note(Err(AllocError)),
    }
}

/// Whether a fault carries this text, where it carries any.
fn is_text_of(fault: &UsageFault, told: &str) -> bool {
    match fault {
        UsageFault::Words(text) | UsageFault::Help(text) => text.as_str() == told,
        _ => true,
    }
}

/// Appends a text, or whether it has the line or the part that is asked for.
fn put_judged(told: &str, line: &str, text: &mut Shown) {
    let (front, asked) = line.split_once(" => ").unwrap_or((line, ""));
    match front.split_once(" ") {
        Some(("text", _)) => text.put(told.as_bytes()),
        Some(("line", _)) => put_whether(has_line(told, asked), text),
        Some(("part", _)) => put_whether(told.contains(asked), text),
        _ => text.put(UNREAD),
    }
}

/// Whether a text has this line.
fn has_line(told: &str, asked: &str) -> bool {
    for line in told.lines() {
        if line == asked {
            return true;
        }
    }
    false
}

/// Appends whether it is there.
fn put_whether(is_there: bool, text: &mut Shown) {
    match is_there {
        true => text.put(b"there"),
        false => text.put(b"missing"),
    }
}
