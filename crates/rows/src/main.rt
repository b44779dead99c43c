//! Reads files of rows, each of which is a call of the libraries with what it has to answer. It
//! carries them out, and prints how many agree and each that differs.
#![tactic(auto)]

mod call;
mod commands;
mod course;
mod file;
mod played;
mod player;

use file::read_rows;
use row_parts::Tally;
use row_values::Names;
use std::alloc::Global;
use std::fs::File;
use std::io::{self, Read};
use std::process::ExitCode;
use std::{env, str};

fn main(rt: HostRuntime) -> ExitCode {
    match run(&rt) {
        Ok(true) => ExitCode::from(0),
        _ => ExitCode::from(1),
    }
}

/// Carries out the rows of the files that the words name, and answers whether all agree. Names of
/// octets that one file gives stand for those behind it too.
fn run(rt: &HostRuntime) -> io::Result<bool> {
    let words: Vec<String> = env::args(rt)?.collect(rt.alloc())?;
    let mut names = Names::new(rt.alloc());
    let mut all_agree = true;
    for name in words.iter().skip(1) {
        all_agree &= run_file(rt, name.as_str(), &mut names)?;
    }
    Ok(all_agree)
}

/// Carries out the rows of a file, prints how many agree, and answers whether all do.
fn run_file(rt: &HostRuntime, name: &str, names: &mut Names) -> io::Result<bool> {
    let octets = octets_of(rt, name)?;
    let tally = tally_of(rt.alloc(), name, &octets, names);
    let agrees = tally.agrees();
    print(rt, &tally.text()?)?;
    Ok(agrees)
}

/// Carries out the rows that octets spell.
fn tally_of<'a>(alloc: Global, name: &'a str, octets: &[u8], names: &mut Names) -> Tally<'a> {
    let mut tally = Tally::new(alloc, name);
    match str::from_utf8(octets) {
        Ok(text) => read_rows(alloc, text, names, &mut tally),
        Err(_) => tally.deny(0, "it is no text"),
    }
    tally.close();
    tally
}

/// The octets of a file.
fn octets_of(rt: &HostRuntime, name: &str) -> io::Result<Vec<u8>> {
    let mut octets = Vec::new(rt.alloc());
    let mut file = File::open(rt, name)?;
    file.read_to_end(&mut octets)?;
    Ok(octets)
}

/// Prints a text, of which it leaves out what isn't UTF-8.
fn print(rt: &HostRuntime, text: &[u8]) -> io::Result<()> {
    let shown = String::from_utf8_lossy(rt.alloc(), text)?;
    print!(rt; "{shown}")
}
