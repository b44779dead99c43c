//! Does a job that users wait for, over an input that is made of a seed, and prints digests of all
//! that was written: `workloads JOB SEED HUNDREDTHS`, or all jobs, one behind the other. It is what
//! `bench/run` times.
#![tactic(auto)]

mod runs;

use runs::{Ran, dumped, played};
use std::alloc::AllocError;
use std::{env, io};
use workload_inputs::File;
use workload_inputs::jobs::{self, Scripted, Size};

/// The jobs.
const JOBS: [&str; 6] = ["tables", "updates", "play", "ask", "forget", "storm"];

fn main(rt: HostRuntime) -> io::Result<()> {
    let words: Vec<String> = env::args(&rt)?.collect(rt.alloc())?;
    do_words(&rt, words.as_slice())
}

/// Does what the words tell.
fn do_words(rt: &HostRuntime, words: &[String]) -> io::Result<()> {
    let [_, job, seed, hundredths] = words else {
        return print_usage(rt);
    };
    let (Ok(seed), Ok(hundredths)) = (seed.parse(), hundredths.parse()) else {
        return print_usage(rt);
    };
    let size = Size { seed, hundredths };
    if job.as_str() == "all" {
        do_all(rt, size)
    } else {
        do_job(rt, job.as_str(), size)
    }
}

/// Does all jobs, one behind the other.
fn do_all(rt: &HostRuntime, size: Size) -> io::Result<()> {
    for job in JOBS {
        do_job(rt, job, size)?;
    }
    Ok(())
}

/// Tells what words the program takes.
fn print_usage(rt: &HostRuntime) -> io::Result<()> {
    println!(rt; "workloads all|tables|updates|play|ask|forget|storm SEED HUNDREDTHS")
}

/// Does the job, and prints what it gave.
fn do_job(rt: &HostRuntime, job: &str, size: Size) -> io::Result<()> {
    let alloc = rt.alloc();
    match job {
        "tables" => {
            print_dump(rt, "table", jobs::table(alloc, size))?;
            print_dump(rt, "old table", jobs::old_table(alloc, size))
        }
        "updates" => {
            print_dump(rt, "updates", jobs::updates(alloc, size, false))?;
            print_dump(rt, "precise updates", jobs::updates(alloc, size, true))
        }
        "play" => print_play(rt, job, jobs::play(alloc, size)),
        "ask" => print_play(rt, job, jobs::ask(alloc, size)),
        "forget" => print_play(rt, job, jobs::forget(alloc, size)),
        "storm" => print_play(rt, job, jobs::storm(alloc, size)),
        _ => print_usage(rt),
    }
}

/// Dumps a file, and prints what that gave.
fn print_dump(rt: &HostRuntime, name: &str, file: Result<File, AllocError>) -> io::Result<()> {
    print_run(rt, name, dumped(rt.alloc(), file?))
}

/// Plays a script over a file, and prints what that gave.
fn print_play(
    rt: &HostRuntime,
    name: &str,
    scripted: Result<Scripted, AllocError>,
) -> io::Result<()> {
    let Scripted { file, script } = scripted?;
    print_run(rt, name, played(rt.alloc(), file, script.as_str()))
}

/// Prints how a run ended, and the digests of what it wrote.
fn print_run(rt: &HostRuntime, name: &str, ran: io::Result<Ran>) -> io::Result<()> {
    let Ran {
        outcome,
        lines,
        reports,
    } = ran?;
    println!(rt;
        "{name}: status {}, lines {:016x} of {}, reports {:016x} of {}",
        outcome.status(),
        lines.number,
        lines.length,
        reports.number,
        reports.length,
    )
}
