//! The arguments of the command line as `clap` is given them, with the texts of the help. The
//! parser (`command_line.rt`) calls [`command`]; read that function first.

ghost use Rattle.std.specs.Prelude.{◌≡◌, IfOk};
ghost use Rattle.clap.specs.Built.{TakesValue};
ghost use Rattle.clap.specs.Words.{app_of, rule_of};
ghost use Rattle.bgpdump_command_line.specs.Arguments.{IsCommandLine, IsTimesRule, ExcludesNone, TakesInput};
ghost use Rattle.bgpdump_command_line.specs.CommandLine.{input_rule, lines_rule, output_rule, script_rule};

use clap::{Arg, ArgAction, Command};
use std::alloc::{AllocError, Global};

/// The id by which `clap` knows the argument `-m`, which selects the output of lines.
pub(crate) const LINES: &str = "lines";

/// The id by which `clap` knows the argument `--play SCRIPT`, which selects the play of a script.
pub(crate) const SCRIPT: &str = "script";

/// The id by which `clap` knows the argument `-t TIME`, which selects the time of a table's routes.
pub(crate) const TIMES: &str = "times";

/// The id by which `clap` knows the argument `-O FILE`, which names the output.
pub(crate) const OUTPUT: &str = "output";

/// The id by which `clap` knows the argument INPUT, which names the MRT file.
pub(crate) const INPUT: &str = "input";

/// The value of `-t`, its default, with which the routes of tables get the time when the table was
/// dumped.
pub(crate) const DUMP: &str = "dump";

/// The value of `-t` that selects the time at which a route originated, that is its last change.
pub(crate) const CHANGE: &str = "change";

/// The accepted values of `-t`; `clap` refuses all others.
const TIMES_ACCEPTED: &[&str] = &[DUMP, CHANGE];

/// The first line of the help: the name of the program, its version, and what it does. The version
/// is named here, and whatever else names it is compared with this line.
const ABOUT: &str = "\
Rumpleja's bgpdump 1.0.0: reads what BGP routers write (MRT files, RFC 6396).";

/// The usage line of the help, in place of the one that `clap` would make.
const USAGE: &str = "bgpdump (-m | --play SCRIPT) [-t dump|change] [-O FILE] INPUT";

/// The text at the end of the help: examples, and a pointer to the manual page.
const AFTER_HELP: &str = "\
Examples:
  bgpdump -m table.mrt            the lines of a file
  zcat updates.gz | bgpdump -m -  those of what another program gives
  bgpdump --play steps table.mrt  the replies to the commands in `steps`

`man bgpdump` tells the fields of the lines, the commands of a script and the
statuses.";

/// Returns the argument `-m`, a flag that selects writing each route, withdrawal and state change
/// as a line.
fn line_output_flag<'a>(alloc: Global) -> Arg<'a>
    ensures rule { rule_of result ≡ lines_rule }
    ensures alone { ExcludesNone result }
{
    Arg::new(alloc, LINES)
        .short('m')
        .action(ArgAction::SetTrue)
        .help("Prints each route and state change as a line")
}

/// Returns the argument `--play SCRIPT`, which selects carrying out the commands in the file
/// SCRIPT, or in standard input for `-`.
fn script_argument<'a>(alloc: Global) -> Arg<'a>
    ensures rule { rule_of result ≡ script_rule }
    ensures alone { ExcludesNone result }
{
    Arg::new(alloc, SCRIPT)
        .long("play")
        .value_name("SCRIPT")
        .help("Steps through INPUT as the commands in SCRIPT say")
}

/// Returns the argument `-t TIME`, which selects the time that the routes of tables get: `dump`,
/// the default, for when the table was dumped, or `change` for when the route last changed.
fn times_argument<'a>(alloc: Global) -> Arg<'a>
    ensures rule { IsTimesRule (rule_of result) }
    ensures alone { ExcludesNone result }
{
    Arg::new(alloc, TIMES)
        .short('t')
        .value_name("TIME")
        .value_parser(TIMES_ACCEPTED)
        .default_value(DUMP)
        .hide_possible_values(true)
        .help("Time of a table's routes: dump or change")
}

/// Returns the argument `-O FILE`, the name of the file to write to in place of standard output.
fn output_argument<'a>(alloc: Global) -> Arg<'a>
    ensures rule { rule_of result ≡ output_rule }
    ensures alone { ExcludesNone result }
{
    Arg::new(alloc, OUTPUT)
        .short('O')
        .value_name("FILE")
        .help("Writes to FILE, made new or emptied")
}

/// Returns the argument `INPUT`, which must be given: the name of the MRT file, or `-` for standard
/// input.
fn input_argument<'a>(alloc: Global) -> Arg<'a>
    ensures rule { rule_of result ≡ input_rule }
    ensures alone { ExcludesNone result }
    ensures value { TakesValue result }
{
    Arg::new(alloc, INPUT)
        .value_name("INPUT")
        .required(true)
        .action(ArgAction::Set)
        .help("The file to read, or - for standard input")
}

/// Returns the description of the program for `clap`: its help, and all its arguments. Fails if
/// memory allocation fails.
pub(crate) fn command<'a>(alloc: Global) -> Result<Command<'a>, AllocError>
    ensures app { IfOk result (λ command. IsCommandLine (app_of command)) }
    ensures input { IfOk result TakesInput }
{
    Command::new(alloc, "bgpdump")
        .about(ABOUT)
        .override_usage(USAGE)
        .after_help(AFTER_HELP)
        .arg(line_output_flag(alloc))?
        .arg(script_argument(alloc))?
        .arg(times_argument(alloc))?
        .arg(output_argument(alloc))?
        .arg(input_argument(alloc))
}
