//! Opens the files that the command line names, and reads the script. `main.rt` calls these functions;
//! read [`create`] first, which never empties a file that is read.

ghost use Rattle.std.specs.Prelude.{◌≡◌, ◌≢◌, ◌↔◌, ◌+◌, ℕ, List, Some, IsTrue, take, IfOk, IfErr};
ghost use Rattle.std.specs.IoError.{error_kind};
ghost use Rattle.bgpdump.specs.Endings.{IsOutcomeOfReadError, IsEndingOfReadError};

use crate::ending::{Ending, InstructionText, OpenFailure};
use bgpdump_tool::{LONGEST_SCRIPT, Mode, Outcome, STANDARD_INPUT, Settings};
use std::alloc::Global;
use std::fs::{self, File, Metadata};
use std::io::{self, ErrorKind, Read};
use std::os::unix::fs::{FileTypeExt, MetadataExt};
use std::os::unix::io::{AsRawFd, IntoRawFd};

/// The number of standard streams: input, output and error. Their file descriptors are the numbers below
/// it.
const STANDARD_STREAMS: i32 = 3;

/// The paths of standard input, in the order in which they are tried, by which its metadata are found. A
/// system with an empty `/dev` has only the second.
const STANDARD_INPUT_PATHS: [&str; 2] = ["/dev/stdin", "/proc/self/fd/0"];

/// The identity of a file, which is equal for all names of one file: the number of the device that holds
/// it, and the number of its inode there. The identity of a block device is its own device number and
/// inode 0, whatever its path.
#[derive(Clone, Copy, PartialEq, Eq)]
struct FileIdentity {
    device: u64,
    inode: u64,
}

/// Converts an error of reading the command line or the script, or of allocating a buffer, into the
/// outcome of the program: `Memory` for `ErrorKind::OutOfMemory`, or else `ReadFault`.
pub fn outcome_of_setup_error(error: &io::Error) -> Outcome
    ensures memory { (result ≡ Outcome.Memory) ↔ (error_kind error.now ≡ ErrorKind.OutOfMemory) }
    ensures other { IsOutcomeOfReadError result }
{
    match error.kind() {
        ErrorKind::OutOfMemory => Outcome::Memory,
        _ => Outcome::ReadFault,
    }
}

/// Returns the [`Ending`] of the program after the system refused to open the file `name` with `error`:
/// the outcome `Memory` for `ErrorKind::OutOfMemory`, or else [`Ending::NotOpened`].
fn ending_of_open_error<'a>(name: &'a str, error: &io::Error) -> Ending<'a>
    ensures memory { error_kind error.now ≡ ErrorKind.OutOfMemory →
        result ≡ Ending.Ran Outcome.Memory }
    ensures other { error_kind error.now ≢ ErrorKind.OutOfMemory →
        result ≡ Ending.NotOpened name.entry (OpenFailure.Refused error.now) }
{
    match error.kind() {
        ErrorKind::OutOfMemory => Ending::Ran(Outcome::Memory),
        _ => Ending::NotOpened(name, OpenFailure::Refused(*error)),
    }
}

/// Returns the [`Ending`] of the program after reading the command line or the script (`text`)
/// failed with `error`: the outcome `Memory` for `ErrorKind::OutOfMemory`, or else [`Ending::NotRead`].
pub fn ending_of_read_error<'a>(text: InstructionText, error: &io::Error) -> Ending<'a>
    ensures memory { error_kind error.now ≡ ErrorKind.OutOfMemory →
        result ≡ Ending.Ran Outcome.Memory }
    ensures other { error_kind error.now ≢ ErrorKind.OutOfMemory →
        result ≡ Ending.NotRead text error.now }
    ensures either { IsEndingOfReadError text result }
{
    match outcome_of_setup_error(error) {
        Outcome::Memory => Ending::Ran(Outcome::Memory),
        _ => Ending::NotRead(text, *error),
    }
}

/// Opens the root directory on the file descriptor of each standard stream (0 to 2) that is closed,
/// so that no file opened later gets that descriptor, and with it what is written to the stream.
/// Reading from such a stream, or writing to it, fails from then on. Open streams stay as they are.
/// If the directory can't be opened, the closed streams stay closed.
pub fn reserve_standard_descriptors(rt: &HostRuntime) {
    for _ in 0..STANDARD_STREAMS {
        match File::open(rt, "/") {
            Ok(folder) if folder.as_raw_fd() < STANDARD_STREAMS => {
                let _ = folder.into_raw_fd();
            }
            _ => return,
        }
    }
}

/// Opens the file `name` for reading. Fails with the [`Ending`] of the program: [`Ending::NotOpened`]
/// with the system's error, or the outcome `Memory` if that error is `ErrorKind::OutOfMemory`.
pub fn open<'a>(rt: &HostRuntime, name: &'a str) -> Result<File, Ending<'a>> {
    File::open(rt, name).map_err(|error| ending_of_open_error(name, &error))
}

/// Creates the file `name` for writing, or empties it if it exists. Fails with the [`Ending`] of
/// the program if `name` is also the input or the script of `settings`, which is left unchanged
/// then, if the system can't tell whether it is, or if it can't be created.
pub fn create<'a>(
    rt: &HostRuntime,
    settings: &Settings,
    name: &'a str,
) -> Result<File, Ending<'a>> {
    match is_input_or_script(rt, settings, name) {
        Ok(false) => File::create(rt, name).map_err(|error| ending_of_open_error(name, &error)),
        Ok(true) => Err(Ending::NotOpened(name, OpenFailure::IsAlsoRead)),
        Err(error) => Err(ending_of_open_error(name, &error)),
    }
}

/// Returns `true` if the file `name`, which is to be emptied, is the input or the script of `settings`,
/// and `false` if it isn't. Fails with the system's error if the metadata of one of them can't be read.
fn is_input_or_script(rt: &HostRuntime, settings: &Settings, name: &str) -> io::Result<bool> {
    let is_script = match &settings.mode {
        Mode::Lines => false,
        Mode::Play(script) => is_same_file(rt, script.as_str(), name)?,
    };
    Ok(is_script || is_same_file(rt, settings.input.as_str(), name)?)
}

/// Returns `true` if `input`, a file name or `-` for standard input, is the regular file or block device
/// with the name `output`, which writing would overwrite; also if the system can't tell what standard
/// input is. Returns `false` if they are different files, if either doesn't exist, or if `output` is of
/// another type, such as a terminal. Fails with the system's error if metadata can't be read.
fn is_same_file(rt: &HostRuntime, input: &str, output: &str) -> io::Result<bool> {
    let Some(output) = metadata_if_present(rt, output)? else {
        return Ok(false);
    };
    if !output.is_file() && !output.file_type().is_block_device() {
        return Ok(false);
    }
    let is_standard = input == STANDARD_INPUT;
    let input = if is_standard {
        standard_input_metadata(rt)?
    } else {
        metadata_if_present(rt, input)?
    };
    Ok(match input {
        Some(input) => is_same_identity(FileIdentity::of(&input), FileIdentity::of(&output)),
        None => is_standard,
    })
}

/// Returns the metadata of standard input, or `None` if the system has no path for it. Fails with the
/// system's error if a path exists and its metadata can't be read.
fn standard_input_metadata(rt: &HostRuntime) -> io::Result<Option<Metadata>> {
    for path in STANDARD_INPUT_PATHS {
        if let Some(metadata) = metadata_if_present(rt, path)? {
            return Ok(Some(metadata));
        }
    }
    Ok(None)
}

/// Returns the metadata of the file `name`, or `None` if there is no such file. Fails with any other
/// error of the system.
fn metadata_if_present(rt: &HostRuntime, name: &str) -> io::Result<Option<Metadata>> {
    match fs::metadata(rt, name) {
        Ok(metadata) => Ok(Some(metadata)),
        Err(error) if error.kind() == ErrorKind::NotFound => Ok(None),
        Err(error) => Err(error),
    }
}

impl FileIdentity {
    /// Returns the identity of the file that has this metadata.
    fn of(metadata: &Metadata) -> FileIdentity {
        let (device, inode) = if metadata.file_type().is_block_device() {
            (metadata.rdev(), 0)
        } else {
            (metadata.dev(), metadata.ino())
        };
        FileIdentity { device, inode }
    }
}

/// Returns `true` if the two identities are equal, so that both are of one file, and `false` if not.
fn is_same_identity(one: FileIdentity, other: FileIdentity) -> bool
    ensures { IsTrue result ↔ (one ≡ other) }
{
    one == other
}

/// Reads the script from `reader` to its end, or only its first [`LONGEST_SCRIPT`] + 1 octets if it
/// has more, by which a later check sees that it is too long. Fails with the [`Ending`] of the
/// program: [`Ending::NotRead`] if `reader` fails, or the outcome `Memory` if memory allocation
/// fails.
pub fn read_script<'a, R: Read + Drop>(alloc: Global, reader: R) -> Result<Vec<u8>, Ending<'a>>
    ensures octets { IfOk result (λ script. (octets : List ℕ) → R.remaining reader ≡ Some octets →
        script.items ≡ take (LONGEST_SCRIPT + 1) octets) }
    ensures fault { IfErr result (IsEndingOfReadError InstructionText.Script) }
{
    let mut script = Vec::new(alloc);
    let mut front = reader.take(LONGEST_SCRIPT as u64 + 1);
    match front.read_to_end(&mut script) {
        Ok(_) => Ok(script),
        Err(error) => Err(ending_of_read_error(InstructionText::Script, &error)),
    }
}
