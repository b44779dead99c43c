//! What command lines ask for that are long.

use bgpdump_command_line::{Mode, Settings, UsageFault, settings};
use mrt_wire::Stamp;
use std::alloc::{AllocError, Global};
use std::test::Fail;

/// How many marks a long name has.
const MARKS: u32 = 100_000;

/// How often a word is there.
const TIMES: u32 = 5_000;

/// A name of as many marks as this.
fn long_name(alloc: Global) -> Result<String, AllocError> {
    let mut name = String::new(alloc);
    for _ in 0..MARKS {
        name.push('x')?;
    }
    Ok(name)
}

/// The words, each as its own text.
fn owned(alloc: Global, words: &[&str]) -> Result<Vec<String>, AllocError> {
    let mut own = Vec::new(alloc);
    for word in words {
        own.push(String::from_str(alloc, word)?)?;
    }
    Ok(own)
}

/// What a script, an output and an input with such names ask for.
fn long_settings(alloc: Global) -> Result<Settings, AllocError> {
    Ok(Settings {
        mode: Mode::Play(long_name(alloc)?),
        stamp: Stamp::Dump,
        output: Some(long_name(alloc)?),
        input: long_name(alloc)?,
    })
}

#[test]
fn long_names_are_read(rt: HostRuntime) -> Result<(), Fail> {
    let name = long_name(rt.alloc())?;
    let word = name.as_str();
    let words = owned(rt.alloc(), &["bgpdump", "--play", word, "-O", word, word])?;
    let want = Ok(long_settings(rt.alloc())?);
    assert_eq!(rt; settings(rt.alloc(), words), want);
    Ok(())
}

#[test]
fn many_words_are_read(rt: HostRuntime) -> Result<(), Fail> {
    let mut words = owned(rt.alloc(), &["bgpdump"])?;
    for _ in 0..TIMES {
        words.push(String::from_str(rt.alloc(), "-m")?)?;
    }
    let found = settings(rt.alloc(), words);
    assert!(rt; matches!(found, Err(UsageFault::Words(_))));
    Ok(())
}
