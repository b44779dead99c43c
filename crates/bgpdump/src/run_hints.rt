//! Hints on how the program ended and on its input, which are written to standard error after the last
//! message. `main.rt` calls [`write_ending_hint`] and [`write_input_hints`]; what these can't write is
//! lost.

use crate::command_words::{PipedCommand, ShellQuoted};
use crate::ending::{Ending, InstructionText, OpenFailure};
use crate::hints::{CompressedFormat, FirstOctetsAndError};
use bgpdump_tool::{LONGEST_SCRIPT, Outcome, STANDARD_INPUT, Settings, UsageFault};
use mrt_frames::LONGEST_BODY;
use std::io::{self, ErrorKind};

/// The options of the C program `bgpdump` that select another form of lines, which this program doesn't
/// have.
const OPTIONS_OF_LINES: [&str; 6] = ["-H", "-M", "-T", "-l", "-p", "-u"];

/// The options of the C program `bgpdump` that select where it reports to, which this program doesn't
/// have.
const OPTIONS_OF_REPORTS: [&str; 3] = ["-q", "-s", "-v"];

/// The text of `clap` before an argument that it doesn't know, to find that argument in an error's text.
const BEFORE_OPTION: &str = "unexpected argument '";

/// The text of `clap` after an argument that it doesn't know, to find that argument in an error's text.
const AFTER_OPTION: &str = "' found";

/// The start of `clap`'s advice to write an unknown option as a value, which shows that the argument
/// looks like an option.
const VALUE_ADVICE: &str = "use '-- ";

/// Writes a hint to standard error, such as `bgpdump: only one of SCRIPT and INPUT may be -`, on why
/// the program ends as `ending` states. Writes nothing if the program's last message says it all.
/// What can't be written is lost.
pub fn write_ending_hint(rt: &HostRuntime, ending: &Ending<'_>) {
    let _ = match ending {
        Ending::Usage(UsageFault::Words(text)) => write_option_hint(rt, text.as_str()),
        Ending::Usage(UsageFault::Mode) => eprintln!(rt;
            "bgpdump: for lines type bgpdump -m INPUT, for a script bgpdump --play SCRIPT INPUT"
        ),
        Ending::Usage(UsageFault::TwoInputs) => eprintln!(rt;
            "bgpdump: only one of SCRIPT and INPUT may be -"
        ),
        Ending::NotOpened(name, cause) => write_open_failure(rt, name, cause),
        Ending::NotRead(InstructionText::Words, _) => eprintln!(rt;
            "bgpdump: a word of the command is not UTF-8 text"
        ),
        Ending::NotRead(InstructionText::Script, error) => write_read_error(
            rt,
            "the script",
            error,
        ),
        Ending::Ran(Outcome::ScriptTooLong) => eprintln!(rt;
            "bgpdump: a script has at most {LONGEST_SCRIPT} octets"
        ),
        _ => Ok(()),
    };
}

/// Writes hints to standard error on what seems to be wrong with the input that `settings` name:
/// the last error of its reader, if there was one, and that it looks compressed, or like no MRT
/// file, by its first octets. Both are in `notes`. What can't be written is lost.
pub fn write_input_hints(rt: &HostRuntime, settings: &Settings, notes: &FirstOctetsAndError) {
    if let Some(error) = &notes.error {
        let _ = write_read_error(rt, "the input", error);
    }
    let _ = match (
        notes.front.find_compressed_format(),
        notes.front.find_first_body_size(),
    ) {
        (Some(format), _) => write_compression_hint(rt, settings, format),
        (None, Some(size)) if size > LONGEST_BODY => eprintln!(rt;
            "bgpdump: the input may be no MRT file: its first record would have {size} octets"
        ),
        _ => Ok(()),
    };
}

/// Writes a hint to standard error that the input looks compressed in `format`, with a command that
/// unpacks it for this program, such as
/// `bgpdump: a.gz looks like gzip; try zcat a.gz | bgpdump -m -`. `settings` give the input's name and
/// the options of that command. Fails if standard error can't be written; some of the hint may have been
/// written then.
fn write_compression_hint(
    rt: &HostRuntime,
    settings: &Settings,
    format: CompressedFormat,
) -> io::Result<()> {
    let CompressedFormat {
        name: format,
        printer,
    } = format;
    let command = PipedCommand(settings);
    if settings.input.as_str() == STANDARD_INPUT {
        return eprintln!(rt;
            "bgpdump: standard input looks like {format}; try {printer} FILE | {command}"
        );
    }
    let name = ShellQuoted(settings.input.as_str());
    eprintln!(rt; "bgpdump: {name} looks like {format}; try {printer} {name} | {command}")
}

/// Writes a hint to standard error on an argument of the command line that isn't known: an option
/// of the C program `bgpdump`, any other option, or a second INPUT. `text` is the error message of
/// the parser (`clap`), which names the argument. Writes nothing if it names none, or if there is
/// nothing more to say. Fails if standard error can't be written; some of the hint may have been
/// written then.
fn write_option_hint(rt: &HostRuntime, text: &str) -> io::Result<()> {
    let Some(option) = find_unknown_argument(text) else {
        return Ok(());
    };
    if let Some(of_lines) = find_leading_option(option, &OPTIONS_OF_LINES) {
        eprintln!(rt;
            "bgpdump: there is no {of_lines} here; use -m; see man bgpdump, COMPATIBILITY"
        )
    } else if let Some(of_reports) = find_leading_option(option, &OPTIONS_OF_REPORTS) {
        eprintln!(rt;
            "bgpdump: there is no {of_reports} here; leave it out; 2>/dev/null hides reports"
        )
    } else if text.contains(VALUE_ADVICE) {
        eprintln!(rt; "bgpdump: there is no option {option}; there are -m, --play, -t, -O and -h")
    } else if !option.starts_with('-') {
        eprintln!(rt; "bgpdump: there is one INPUT; of several type cat FILE .. | bgpdump -m -")
    } else {
        Ok(())
    }
}

/// Returns the unknown argument, such as `-H`, that `text` names, an error message of the parser of
/// the command line (`clap`). Returns `None` if it names none.
fn find_unknown_argument(text: &str) -> Option<&str> {
    let (_, behind) = text.split_once(BEFORE_OPTION)?;
    let (option, _) = behind.split_once(AFTER_OPTION)?;
    Some(option)
}

/// Returns the first of `options` with which `argument` begins, such as `-H` for `-Hm`, or `None` if it
/// begins with none.
fn find_leading_option(argument: &str, options: &[&'static str]) -> Option<&'static str> {
    options
        .iter()
        .copied()
        .find(|option| argument.starts_with(*option))
}

/// Writes a hint to standard error on why a file isn't opened, as `cause` states, such as
/// `bgpdump: permission denied`. `name` is the name of the file. It isn't in the hint; only an empty one
/// gets a hint of its own, `bgpdump: the name is empty`. Fails if standard error can't be written; some
/// of the hint may have been written then.
fn write_open_failure(rt: &HostRuntime, name: &str, cause: &OpenFailure) -> io::Result<()> {
    match cause {
        OpenFailure::IsAlsoRead => eprintln!(rt;
            "bgpdump: -O would overwrite what is read; give it another name"
        ),
        OpenFailure::Refused(_) if name.is_empty() => eprintln!(rt; "bgpdump: the name is empty"),
        OpenFailure::Refused(error) => match error.kind() {
            ErrorKind::NotFound => eprintln!(rt; "bgpdump: there is no such file or folder"),
            ErrorKind::PermissionDenied => eprintln!(rt; "bgpdump: permission denied"),
            ErrorKind::IsADirectory => eprintln!(rt; "bgpdump: it is a folder"),
            ErrorKind::NotADirectory => eprintln!(rt;
                "bgpdump: a part of its path is not a folder"
            ),
            _ => eprintln!(rt; "bgpdump: the system says: {error}"),
        },
    }
}

/// Writes a hint to standard error on why `what`, such as `the input`, can't be read: the system's
/// `error`. If that says that it is a directory, the hint also names another cause, a standard stream
/// that was closed, since the program opens a directory in the place of such a stream. Fails if standard
/// error can't be written; some of the hint may have been written then.
fn write_read_error(rt: &HostRuntime, what: &str, error: &io::Error) -> io::Result<()> {
    match error.kind() {
        ErrorKind::IsADirectory => eprintln!(rt; "bgpdump: {what} is a folder or a closed stream"),
        _ => eprintln!(rt; "bgpdump: {what} can't be read: {error}"),
    }
}
