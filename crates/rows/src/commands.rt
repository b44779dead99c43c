//! What the lines of a script are, as a text.

use bgpdump_tool::{Command, read_command};
use row_values::{Shown, put_peer};

/// Appends a line for each line of a script: the command that it is, in full, or `no command`.
pub fn put_commands(script: &[u8], text: &mut Shown) {
    for line in script
        .strip_suffix(b"\n")
        .unwrap_or(script)
        .split(|octet| *octet == b'\n')
    {
        match read_command(line) {
            Some(command) => put_command(&command, text),
            None => text.put(b"no command"),
        }
        text.put(b"\n");
    }
}

/// Appends a command, with all that it says.
fn put_command(command: &Command, text: &mut Shown) {
    text.put(word_of(command).as_bytes());
    match command {
        Command::Next(count) | Command::Back(count) => text.put_number(u64::from(*count)),
        Command::Goto(count) | Command::Forget(count) => text.put_number(u64::from(*count)),
        Command::Position | Command::Peers => {}
        Command::Table(peer) | Command::Lose(peer) => put_peer(peer, text),
        Command::Route(peer, prefix) => {
            put_peer(peer, text);
            text.put(b" ");
            text.put_prefix(prefix);
        }
        Command::Lookup(peer, address) => {
            put_peer(peer, text);
            text.put(b" ");
            text.put_address(address);
        }
    }
}

/// The word of a command, and a space where more stands behind it.
fn word_of(command: &Command) -> &'static str {
    match command {
        Command::Next(_) => "next ",
        Command::Back(_) => "back ",
        Command::Goto(_) => "goto ",
        Command::Forget(_) => "forget ",
        Command::Position => "where",
        Command::Peers => "peers",
        Command::Table(_) => "table ",
        Command::Lose(_) => "lose ",
        Command::Route(_, _) => "route ",
        Command::Lookup(_, _) => "lookup ",
    }
}
