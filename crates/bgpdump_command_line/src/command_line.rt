//! A parser of the command line. The program calls [`settings`] with its arguments; read that
//! function first, and `usage.rt` for what it returns.

ghost use Rattle.std.specs.Prelude.{◌≡◌, true, is_some, map, option_map, string_bytes, IfOk};
ghost use Rattle.clap.specs.Words.{first_of, found_of, kind_of, rows_of};
ghost use Rattle.bgpdump_command_line.specs.CommandLine.{Answers, MayGiveSettings, has_lines_flag, reads_stdin_twice, input_of, equals_text, selected_stamp};
ghost use Rattle.bgpdump_command_line.specs.Arguments.{GivesMode, IsFaultOf};

use crate::arguments::{CHANGE, INPUT, LINES, OUTPUT, SCRIPT, TIMES, command};
use crate::usage::{Mode, STANDARD_INPUT, Settings, UsageFault};
use clap::ArgMatches;
use clap::error::ErrorKind;
use mrt_events::Stamp;
use std::alloc::Global;

/// Parses the arguments of the command line, `words`, of which the first is the name of the
/// program, into the settings of the program. Fails with the [`UsageFault`] to report: invalid
/// arguments, not exactly one of `-m` and `--play`, standard input as both script and input, or a
/// lack of memory. A request of help fails too, with [`UsageFault::Help`] and its text.
pub fn settings(alloc: Global, words: Vec<String>) -> Result<Settings, UsageFault>
    ensures answers { Answers (map string_bytes words.items) result }
{
    match command(alloc)?.try_get_matches_from(words.as_slice()) {
        Ok(matches) => settings_of(alloc, &matches),
        Err(error) => Err(fault_of_parse_error(alloc, &error)),
    }
}

/// Converts an error of `clap` to a fault with its text: [`UsageFault::Help`] for a request of
/// help, or else [`UsageFault::Words`] for invalid arguments. It is [`UsageFault::Memory`], without
/// a text, if memory allocation failed, here or in `clap`.
fn fault_of_parse_error(alloc: Global, error: &clap::Error) -> UsageFault
    ensures { IsFaultOf (kind_of error.now) result }
{
    match error.kind() {
        ErrorKind::OutOfMemory => UsageFault::Memory,
        kind => match error.to_string(alloc) {
            Ok(text) if kind == ErrorKind::DisplayHelp => UsageFault::Help(text),
            Ok(text) => UsageFault::Words(text),
            Err(refused) => UsageFault::from(refused),
        },
    }
}

/// Returns the settings that the parsed arguments `matches` select. Requires that these have a
/// value of `INPUT`. Fails with [`UsageFault::Mode`] unless exactly one of `-m` and `--play` is
/// there, with [`UsageFault::TwoInputs`] if the script and the input are both `-`, or with
/// [`UsageFault::Memory`] if memory allocation fails.
fn settings_of(alloc: Global, matches: &ArgMatches<'_>) -> Result<Settings, UsageFault>
    requires input { is_some (input_of (rows_of (found_of matches.now))) ≡ true }
    ensures gives { MayGiveSettings (rows_of (found_of matches.now)) result }
{
    let mode = mode_of(alloc, matches)?;
    if reads_stdin_twice(matches) {
        return Err(UsageFault::TwoInputs);
    }
    let Some(input) = value_of(matches, INPUT) else {
        unreachable!()
    };
    Ok(Settings {
        mode,
        stamp: selected_stamp(matches),
        output: value_of(matches, OUTPUT)
            .map(|name| String::from_str(alloc, name))
            .transpose()?,
        input: String::from_str(alloc, input)?,
    })
}

/// Returns the mode that the parsed arguments `matches` select: [`Mode::Lines`] for `-m`, or
/// [`Mode::Play`] with the name of the script for `--play`. Fails with [`UsageFault::Mode`] unless
/// exactly one of them is there, or with [`UsageFault::Memory`] if memory allocation fails.
fn mode_of(alloc: Global, matches: &ArgMatches<'_>) -> Result<Mode, UsageFault>
    ensures { GivesMode (rows_of (found_of matches.now)) result }
{
    match (has_lines_flag(matches), value_of(matches, SCRIPT)) {
        (true, None) => Ok(Mode::Lines),
        (false, Some(script)) => Ok(Mode::Play(String::from_str(alloc, script)?)),
        _ => Err(UsageFault::Mode),
    }
}

/// Returns `true` if `-m` is among the parsed arguments `matches`, and `false` if not.
fn has_lines_flag(matches: &ArgMatches<'_>) -> bool
    ensures { result ≡ has_lines_flag (rows_of (found_of matches.now)) }
{
    matches.get_one::<bool>(LINES).unwrap_or(false)
}

/// Returns `true` if the script and the input are both named `-`, standard input, which can be read
/// only once; `false` if at most one is.
fn reads_stdin_twice(matches: &ArgMatches<'_>) -> bool
    ensures { result ≡ reads_stdin_twice (rows_of (found_of matches.now)) }
{
    has_value(matches, SCRIPT, STANDARD_INPUT) && has_value(matches, INPUT, STANDARD_INPUT)
}

/// Returns which time the routes of a table get, by the value of `-t` in the parsed arguments
/// `matches`: [`Stamp::Change`], when the route last changed, for `change`, or else
/// [`Stamp::Dump`], when the table was dumped.
fn selected_stamp(matches: &ArgMatches<'_>) -> Stamp
    ensures { result ≡ selected_stamp (rows_of (found_of matches.now)) }
{
    if has_value(matches, TIMES, CHANGE) {
        Stamp::Change
    } else {
        Stamp::Dump
    }
}

/// Returns `true` if the argument with the id `argument` has the value `value` in the parsed
/// arguments `matches`, and `false` if it has another one or none.
fn has_value(matches: &ArgMatches<'_>, argument: &str, value: &str) -> bool
    ensures { result ≡ equals_text value.now (first_of argument.now
        (rows_of (found_of matches.now))) }
{
    value_of(matches, argument) == Some(value)
}

/// Returns the value of the argument with the id `argument` in the parsed arguments `matches`, or
/// `None` if that argument has no value.
fn value_of<'a>(matches: &ArgMatches<'a>, argument: &str) -> Option<&'a str>
    ensures { option_map (λ text. text.now) result
        ≡ first_of argument.now (rows_of (found_of matches.now)) }
{
    matches.get_str(argument)
}
