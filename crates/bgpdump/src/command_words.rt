//! Commands as a hint shows them, with names that are quoted for a shell. `run_hints.rt` displays them;
//! read [`PipedCommand`] first.

use bgpdump_tool::{Mode, STANDARD_INPUT, Settings};
use mrt_wire::Stamp;
use std::fmt;

/// The word that is shown in place of a file name with control characters, which can't be typed.
const FILE: &str = "FILE";

/// The ASCII characters, besides letters and digits, that a shell takes literally, so that a word of them
/// needs no quotes.
const PLAIN_MARKS: &[u8] = b"%+,-./:@_";

/// The name of a file, displayed as a word of a shell command, with quotes where the shell needs
/// them: `table.mrt`, `'my table.mrt'`, `./-x`.
#[derive(Clone, Copy)]
pub struct ShellQuoted<'a>(pub &'a str);

/// A shell command that runs this program with these settings, but with standard input (`-`) as its
/// input. Displayed such as `bgpdump -m -t change -`, for a hint that pipes unpacked input into it.
#[derive(Clone, Copy)]
pub struct PipedCommand<'a>(pub &'a Settings);

/// Returns `true` if a shell takes this octet literally: an ASCII letter or digit, or one of `%+,-./:@_`.
/// Returns `false` if a word with it needs quotes.
fn needs_no_quotes(octet: u8) -> bool {
    octet.is_ascii_alphanumeric() || PLAIN_MARKS.contains(&octet)
}

impl fmt::Display for ShellQuoted<'_> {
    /// Writes the name, in single quotes unless a shell takes all of it literally, and with `./` ahead if
    /// it begins with `-`, so that it isn't taken for an option. Writes `FILE` for a name with control
    /// characters. Fails if `f` fails.
    fn fmt<W: fmt::Write>(&self, f: &mut fmt::Formatter<W>) -> fmt::Result {
        let name = self.0;
        if name.as_bytes().iter().any(|octet| octet.is_ascii_control()) {
            return f.write_str(FILE);
        }
        let front = if name.starts_with('-') { "./" } else { "" };
        f.write_str(front)?;
        if !name.is_empty() && name.as_bytes().iter().all(|octet| needs_no_quotes(*octet)) {
            return f.write_str(name);
        }
        f.write_str("'")?;
        for (index, part) in name.split('\'').enumerate() {
            let mark = if index > 0 { "'\\''" } else { "" };
            write!(f, "{mark}{part}")?;
        }
        f.write_str("'")
    }
}

impl fmt::Display for PipedCommand<'_> {
    /// Writes the command, such as `bgpdump --play steps -O out -`. A script that is standard input is
    /// written as `SCRIPT`. Fails if `f` fails.
    fn fmt<W: fmt::Write>(&self, f: &mut fmt::Formatter<W>) -> fmt::Result {
        let settings = self.0;
        match &settings.mode {
            Mode::Lines => f.write_str("bgpdump -m")?,
            // Not both the script and the input can be standard input.
            Mode::Play(script) if script.as_str() == STANDARD_INPUT => {
                f.write_str("bgpdump --play SCRIPT")?;
            }
            Mode::Play(script) => {
                let script = ShellQuoted(script.as_str());
                write!(f, "bgpdump --play {script}")?;
            }
        }
        if settings.stamp == Stamp::Change {
            f.write_str(" -t change")?;
        }
        if let Some(output) = &settings.output {
            let output = ShellQuoted(output.as_str());
            write!(f, " -O {output}")?;
        }
        f.write_str(" -")
    }
}
