//! The program `bgpdump`: prints an MRT file (RFC 6396) as lines, or executes the commands of a script
//! over it. `main` parses the command line and opens files; [`run`] has the two kinds of work over
//! readers and writers. Read [`run_and_report`] first.
#![tactic(auto)]

mod command_words;
mod ending;
mod files;
mod hints;
mod in_memory;
mod run;
mod run_hints;
mod script_hints;

use bgpdump_tool::{LONGEST_SCRIPT, Mode, Outcome, STANDARD_INPUT, Settings, settings};
use ending::{Ending, InstructionText};
use files::{create, ending_of_read_error, open, read_script, reserve_standard_descriptors};
use hints::{DevicesAndInputNotes, FirstOctetsAndError, are_hints_wanted};
use run::{Devices, dump, play};
use run_hints::{write_ending_hint, write_input_hints};
use script_hints::write_script_hints;
use std::io::{Read, Write};
use std::process::ExitCode;
use std::{env, io};

/// How the program's work over its input ended, with notes of the input, from which hints to the
/// user are made: its first octets, and the last error of its reader.
#[derive(Drop)]
struct OutcomeAndInputNotes {
    /// How it ended.
    outcome: Outcome,
    /// The notes of the input: its first octets, and the last error of its reader.
    notes: FirstOctetsAndError,
}

/// Does what the command line asks for, and returns the program's exit status.
fn main(rt: HostRuntime) -> ExitCode {
    reserve_standard_descriptors(&rt);
    match read_settings(&rt) {
        Ok(settings) => run_and_report(&rt, &settings),
        Err(ending) => end(&rt, &ending),
    }
}

/// Parses the arguments of the command line into the program's settings. Fails with the [`Ending`]
/// of the program if help is requested, the usage is wrong, an argument isn't UTF-8 text, or memory
/// allocation fails.
fn read_settings<'a>(rt: &HostRuntime) -> Result<Settings, Ending<'a>> {
    let words = read_words(rt).map_err(|error| ending_of_read_error(
        InstructionText::Words,
        &error,
    ))?;
    settings(rt.alloc(), words).map_err(|fault| Ending::Usage(fault))
}

/// Returns the arguments of the command line, of which the first is the program's name. Fails if one of
/// them isn't UTF-8 text, or if memory allocation fails.
fn read_words(rt: &HostRuntime) -> io::Result<Vec<String>> {
    Ok(env::args(rt)?.collect(rt.alloc())?)
}

/// Opens the files that `settings` name, does the program's work over them, and returns the exit
/// status. If the program fails, prints a message on the failure to standard error. If the status
/// isn't 0 and standard error is a terminal, hints follow there: on the failure, and on what seems
/// to be wrong with the input (such as that it is compressed).
fn run_and_report(rt: &HostRuntime, settings: &Settings) -> ExitCode {
    match open_files_and_run(rt, settings) {
        Ok(ran) => {
            let ending = Ending::Ran(ran.outcome);
            let status = end(rt, &ending);
            if are_hints_wanted(rt) && ending.status() > 0 {
                write_input_hints(rt, settings, &ran.notes);
            }
            status
        }
        Err(ending) => end(rt, &ending),
    }
}

/// Opens the files that `settings` name (first the script, which is read at once, then the input
/// and the output), and does the program's work over them. Returns the [`Outcome`] of the work,
/// which may be a failure, with the notes of the input (its first octets and last error). Fails
/// with the [`Ending`] of the program if the work doesn't begin: a file can't be opened, the script
/// can't be read, or memory allocation fails.
fn open_files_and_run<'a>(
    rt: &HostRuntime,
    settings: &'a Settings,
) -> Result<OutcomeAndInputNotes, Ending<'a>> {
    let script = read_script_for_mode(rt, &settings.mode)?;
    let name = settings.input.as_str();
    let input: Box<dyn Read + Drop> = if name == STANDARD_INPUT {
        Box::new(rt.alloc(), rt.stdin())?
    } else {
        Box::new(rt.alloc(), open(rt, name)?)?
    };
    open_output_and_run(rt, settings, script.as_deref(), input)
}

/// Reads the script from the file that `mode` names, or from standard input for the name `-`.
/// Returns its octets, of a script that is too long only the first ([`read_script`]), or `None` for
/// `Mode::Lines`, which has no script. Fails with the [`Ending`]
/// of the program if the script can't be opened or read, or if memory allocation fails.
fn read_script_for_mode<'a>(
    rt: &HostRuntime,
    mode: &'a Mode,
) -> Result<Option<Vec<u8>>, Ending<'a>> {
    match mode {
        Mode::Lines => Ok(None),
        Mode::Play(name) if name.as_str() == STANDARD_INPUT => {
            Ok(Some(read_script(rt.alloc(), rt.stdin())?))
        }
        Mode::Play(name) => Ok(Some(read_script(rt.alloc(), open(rt, name.as_str())?)?)),
    }
}

/// Opens the output that `settings` name (standard output if they name none), and does the
/// program's work over `input`: executes the commands of `script`, or prints lines if `script` is
/// `None`. Reports go to standard error. Returns the [`Outcome`] of the work, which may be a
/// failure, with the notes of the input (its first octets and last error). Fails with the
/// [`Ending`] of the program if the work doesn't begin: the output can't be opened, or memory
/// allocation fails.
fn open_output_and_run<'a>(
    rt: &HostRuntime,
    settings: &'a Settings,
    script: Option<&[u8]>,
    input: Box<dyn Read + Drop>,
) -> Result<OutcomeAndInputNotes, Ending<'a>> {
    // In boxes all inputs have one type, and all outputs, so that the program has the run's code once.
    let out: Box<dyn Write + Drop> = match &settings.output {
        Some(name) => Box::new(rt.alloc(), create(rt, settings, name.as_str())?)?,
        None => Box::new(rt.alloc(), rt.stdout())?,
    };
    let (reader, err) = (input, rt.stderr());
    let noted = DevicesAndInputNotes::new(rt.alloc(), Devices { reader, out, err })?;
    let DevicesAndInputNotes { notes, devices } = noted;
    let outcome = match script {
        None => dump(rt.alloc(), settings.stamp, devices).outcome,
        Some(script) => {
            write_bad_line_hints(rt, script);
            play(rt.alloc(), settings.stamp, script, devices).outcome
        }
    };
    let notes = notes.get();
    Ok(OutcomeAndInputNotes { outcome, notes })
}

/// Writes hints to standard error on the lines of `script` that are no commands. Does nothing if standard
/// error is no terminal, or if the script is too long to be executed.
fn write_bad_line_hints(rt: &HostRuntime, script: &[u8]) {
    // This is before the run, since the reports of these lines may come hours later if the input is a stream.
    if are_hints_wanted(rt) && script.len() <= LONGEST_SCRIPT {
        write_script_hints(rt, script);
    }
}

/// Prints the message with which the program ends, if there is one, and returns the exit status.
/// Help goes to standard output, any other message to standard error; a hint may follow there if it
/// is a terminal. If help can't be printed, prints the message of a write fault instead and returns
/// the status of a write fault; any other message that can't be printed is lost.
fn end(rt: &HostRuntime, ending: &Ending<'_>) -> ExitCode {
    let is_printed = ending.print(rt).is_ok();
    if is_printed || ending.status() > 0 {
        if are_hints_wanted(rt) {
            write_ending_hint(rt, ending);
        }
        return ExitCode::from(ending.status());
    }
    let fault = Ending::Ran(Outcome::WriteFault);
    let _ = fault.print(rt);
    ExitCode::from(fault.status())
}
