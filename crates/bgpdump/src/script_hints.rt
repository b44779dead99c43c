//! Hints on the lines of a script that are no commands, which are written to standard error before the
//! script is executed. `main.rt` calls [`write_script_hints`]; what that can't write is lost.

use crate::hints::FirstOctets;
use bgpdump_tool::read_command;
use ip_prefix::{Addr, Prefix, SPACE};
use std::fmt;

/// The number of bad lines, from the first one on, that get a hint: 5.
const MOST_HINTS: usize = 5;

/// The number of octets of a line or a word, from the first one on, that a hint shows: 60.
const SHOWN: usize = 60;

/// The kind of an argument of a script's command: a number, an address or a prefix. A hint on a bad
/// line names the kind that is wanted.
#[derive(Clone, Copy, PartialEq, Eq)]
enum CommandArgumentKind {
    /// A number of steps to move, at least 1: the argument of `next` and `back`. (A step is one played
    /// event.)
    Times,
    /// A number, at least 0: of the steps that `forget` keeps.
    Number,
    /// A position, at least 0, the number of steps before it: the argument of `goto`.
    Step,
    /// The number of an AS, from 0 to `u32::MAX`: the second argument of `table`, `route`, `lookup` and
    /// `lose`.
    AsNumber,
    /// An address: of a peer, or the one that `lookup` looks up.
    Address,
    /// A prefix: the one that `route` asks for.
    Prefix,
}

/// The arguments of a command without any: `where` and `peers`.
const NO_ARGUMENTS: &[CommandArgumentKind] = &[];

/// The argument of `next` and `back`: the number of steps to move.
const TIMES: &[CommandArgumentKind] = &[CommandArgumentKind::Times];

/// The argument of `forget`: the number of steps to keep.
const NUMBER: &[CommandArgumentKind] = &[CommandArgumentKind::Number];

/// The argument of `goto`: the position to go to.
const STEP: &[CommandArgumentKind] = &[CommandArgumentKind::Step];

/// The arguments of `table` and `lose`: the address and the AS number of a peer.
const PEER: &[CommandArgumentKind] = &[CommandArgumentKind::Address, CommandArgumentKind::AsNumber];

/// The arguments of `route`: the address and the AS number of a peer, and a prefix.
const PEER_AND_PREFIX: &[CommandArgumentKind] = &[
    CommandArgumentKind::Address,
    CommandArgumentKind::AsNumber,
    CommandArgumentKind::Prefix,
];

/// The arguments of `lookup`: the address and the AS number of a peer, and an address to look up.
const PEER_AND_ADDRESS: &[CommandArgumentKind] = &[
    CommandArgumentKind::Address,
    CommandArgumentKind::AsNumber,
    CommandArgumentKind::Address,
];

/// The reason for which a line of a script is no command. Displayed, it is the text of a hint.
#[derive(Clone, Copy)]
enum LineFlaw<'a> {
    /// The line ends with a carriage return, as a line of a Windows text file does.
    CarriageReturn,
    /// The line has a tab, where only spaces separate words.
    Tab,
    /// A word is empty: the line has two spaces in a row, or one at an end.
    EmptyWord,
    /// No command has this name, the line's first word.
    NoCommand(EscapedOctets<'a>),
    /// The line ends before an argument of this kind.
    Missing(CommandArgumentKind),
    /// This word isn't of the kind that its place in the line asks for.
    Wrong(&'a [u8], CommandArgumentKind),
    /// This word follows the last argument of the command.
    Extra(EscapedOctets<'a>),
}

/// Octets as a hint shows them: the first 60, with escapes for all but printable ASCII, such as `a\tb`,
/// and `..` after them if there are more.
#[derive(Clone, Copy)]
struct EscapedOctets<'a>(&'a [u8]);

/// Writes a hint to standard error if `script` seems to be a compressed file or an MRT file, or else
/// hints on its first lines that are no commands, if there are any. What can't be written is lost.
pub fn write_script_hints(rt: &HostRuntime, script: &[u8]) {
    let front = FirstOctets::read_from(script);
    if let Some(format) = front.find_compressed_format() {
        let (format, printer) = (format.name, format.printer);
        let _ = eprintln!(rt;
            "bgpdump: the script looks like {format}; unpack it by {printer} first"
        );
    } else if front.has_zero() {
        let _ = eprintln!(rt;
            "bgpdump: the script looks like an MRT file; SCRIPT comes before INPUT"
        );
    } else {
        write_line_hints(rt, script);
    }
}

/// Writes hints to standard error on the first lines of `script` that are no commands, at most five
/// ([`MOST_HINTS`]), such as `bgpdump: script line 3, "nxt": nxt is no command; see man bgpdump,
/// SCRIPTS`. What can't be written is lost.
fn write_line_hints(rt: &HostRuntime, script: &[u8]) {
    let lines = script.split(|octet| *octet == b'\n').zip(1..=u64::MAX);
    for (line, number) in lines.filter(|(line, _)| is_bad(line)).take(MOST_HINTS) {
        if let Some(flaw) = find_flaw(line) {
            let shown = EscapedOctets(line);
            let _ = eprintln!(rt; "bgpdump: script line {number}, \"{shown}\": {flaw}");
        }
    }
}

/// Returns `true` if `line`, a line of a script, is neither empty nor a command, so that executing
/// the script reports it as bad. Returns `false` if it is empty or a command.
fn is_bad(line: &[u8]) -> bool {
    !line.is_empty() && read_command(line).is_none()
}

/// Returns what is wrong with `line`, a line of a script that isn't a command: a carriage return at
/// its end, a tab, or else the first word that is wrong, missing or too many. Returns `None` if
/// none of these is found. For `next` or `back` alone, which is a command, returns that a number is
/// missing.
fn find_flaw(line: &[u8]) -> Option<LineFlaw<'_>> {
    if line.ends_with(b"\r") {
        return Some(LineFlaw::CarriageReturn);
    }
    if line.contains(&b'\t') {
        return Some(LineFlaw::Tab);
    }
    let mut words = line.split(|octet| *octet == SPACE);
    let name = words.next()?;
    if name.is_empty() {
        return Some(LineFlaw::EmptyWord);
    }
    let Some(arguments) = find_argument_kinds(name) else {
        return Some(LineFlaw::NoCommand(EscapedOctets(name)));
    };
    for argument in arguments {
        match words.next() {
            None => return Some(LineFlaw::Missing(*argument)),
            Some(word) if word.is_empty() => return Some(LineFlaw::EmptyWord),
            Some(word) if !argument.accepts(word) => {
                return Some(LineFlaw::Wrong(word, *argument));
            }
            Some(_) => {}
        }
    }
    match words.next()? {
        [] => Some(LineFlaw::EmptyWord),
        word => Some(LineFlaw::Extra(EscapedOctets(word))),
    }
}

/// Returns the kinds of the arguments of the command `name`, in order, or `None` if there is no such
/// command.
fn find_argument_kinds(name: &[u8]) -> Option<&'static [CommandArgumentKind]> {
    match name {
        b"next" | b"back" => Some(TIMES),
        b"goto" => Some(STEP),
        b"forget" => Some(NUMBER),
        b"where" | b"peers" => Some(NO_ARGUMENTS),
        b"table" | b"lose" => Some(PEER),
        b"route" => Some(PEER_AND_PREFIX),
        b"lookup" => Some(PEER_AND_ADDRESS),
        _ => None,
    }
}

/// Returns `true` if `word` consists of one or more ASCII digits, and `false` if not.
fn is_digits(word: &[u8]) -> bool {
    !word.is_empty() && word.iter().all(|octet| octet.is_ascii_digit())
}

/// Returns `true` if `word` consists of two or more ASCII digits, of which the first is 0, and `false` if
/// not.
fn has_leading_zero(word: &[u8]) -> bool {
    is_digits(word) && word.len() > 1 && word[0] == b'0'
}

/// Parses ASCII digits, with or without leading zeros, as a decimal number. Returns `None` if `word` is
/// empty or has another octet, or if the number is above `u32::MAX`.
fn parse_digits(word: &[u8]) -> Option<u32> {
    if !is_digits(word) {
        return None;
    }
    str::from_utf8(word).ok()?.parse().ok()
}

/// Returns the digits after `AS` (in either case) in a `word` of this form, such as `65000` for
/// `as65000`, or `None` if it isn't of this form. A hint asks to leave `AS` out.
fn find_digits_after_as(word: &[u8]) -> Option<&[u8]> {
    let (front, digits) = word.split_at_checked(2)?;
    if front.eq_ignore_ascii_case(b"AS") && is_digits(digits) {
        Some(digits)
    } else {
        None
    }
}

impl CommandArgumentKind {
    /// Returns `true` if `word` is a valid argument of this kind, and `false` if not.
    fn accepts(self, word: &[u8]) -> bool {
        let is_number = parse_digits(word).is_some() && !has_leading_zero(word);
        match self {
            CommandArgumentKind::Times => is_number && parse_digits(word) != Some(0),
            CommandArgumentKind::Number
            | CommandArgumentKind::Step
            | CommandArgumentKind::AsNumber => is_number,
            CommandArgumentKind::Address => Addr::parse(word).is_some(),
            CommandArgumentKind::Prefix => Prefix::parse(word).is_some(),
        }
    }

    /// Returns the name of the kind with an article, such as `an address`, to be shown in a hint.
    fn kind_with_article(self) -> &'static str {
        match self {
            CommandArgumentKind::Times | CommandArgumentKind::Number => "a number",
            CommandArgumentKind::Step => "the number of a step",
            CommandArgumentKind::AsNumber => "an AS number",
            CommandArgumentKind::Address => "an address",
            CommandArgumentKind::Prefix => "a prefix",
        }
    }
}

impl fmt::Display for LineFlaw<'_> {
    fn fmt<W: fmt::Write>(&self, f: &mut fmt::Formatter<W>) -> fmt::Result {
        match self {
            LineFlaw::CarriageReturn => {
                f.write_str("lines end with CR LF; LF alone is wanted (tr -d '\\r')")
            }
            LineFlaw::Tab => f.write_str("a tab stands where a blank is wanted"),
            LineFlaw::EmptyWord => f.write_str("there is a blank too many"),
            LineFlaw::NoCommand(word) => write!(
                f,
                "{word} is no command; see man bgpdump, SCRIPTS"
            ),
            LineFlaw::Missing(argument) => {
                let name = argument.kind_with_article();
                write!(f, "{name} is missing")
            }
            LineFlaw::Wrong(word, argument) => write_wrong_word(f, word, *argument),
            LineFlaw::Extra(word) => write!(f, "{word} is a word too many"),
        }
    }
}

/// Writes to `f` why `word` isn't an argument of the kind `argument`, such as
/// `192.0.2.0/24 is a prefix; an address is wanted`. Call it only if `word` isn't one. Fails if `f`
/// fails.
fn write_wrong_word<W: fmt::Write>(
    f: &mut fmt::Formatter<W>,
    word: &[u8],
    argument: CommandArgumentKind,
) -> fmt::Result {
    let shown = EscapedOctets(word);
    match argument {
        CommandArgumentKind::Address if Prefix::parse(word).is_some() => {
            write!(f, "{shown} is a prefix; an address is wanted")
        }
        CommandArgumentKind::Prefix if Addr::parse(word).is_some() => {
            write!(f, "{shown} is an address; a prefix also has / and a length")
        }
        CommandArgumentKind::Address | CommandArgumentKind::Prefix => {
            let name = argument.kind_with_article();
            write!(f, "{shown} is not {name}")
        }
        CommandArgumentKind::Times if parse_digits(word) == Some(0) && !has_leading_zero(word) => {
            write!(f, "{shown} is too small; the least is 1")
        }
        CommandArgumentKind::Times
        | CommandArgumentKind::Number
        | CommandArgumentKind::Step
        | CommandArgumentKind::AsNumber => { write_wrong_number(f, word, argument) }
    }
}

/// Writes to `f` why `word` isn't a number of the kind `argument`, such as
/// `write 65000 for AS65000`. Call it only if `word` isn't one. Fails if `f` fails.
fn write_wrong_number<W: fmt::Write>(
    f: &mut fmt::Formatter<W>,
    word: &[u8],
    argument: CommandArgumentKind,
) -> fmt::Result {
    let shown = EscapedOctets(word);
    let (name, most) = (argument.kind_with_article(), u32::MAX);
    if let Some(digits) = find_digits_after_as(word) {
        let digits = EscapedOctets(digits);
        write!(f, "write {digits} for {shown}")
    } else if has_leading_zero(word) {
        write!(f, "{shown} has a zero in front")
    } else if is_digits(word) {
        write!(f, "{shown} is too large; the greatest is {most}")
    } else {
        write!(f, "{shown} is not {name}")
    }
}

impl fmt::Display for EscapedOctets<'_> {
    fn fmt<W: fmt::Write>(&self, f: &mut fmt::Formatter<W>) -> fmt::Result {
        let octets = self.0;
        let shown = octets[..octets.len().min(SHOWN)].escape_ascii();
        let end = if octets.len() > SHOWN { ".." } else { "" };
        write!(f, "{shown}{end}")
    }
}
