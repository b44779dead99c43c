//! What the hints for a person are based on: whether standard error is a terminal, and with which octets
//! the input begins or by which error it fails. `main.rt` reads the input through a [`NotedReader`] that
//! notes these. The hints are in `run_hints.rt` and `script_hints.rt`; read [`FirstOctetsAndError`] first.

ghost use Rattle.std.specs.Prelude.{◌≡◌, IfOk};

use crate::run::Devices;
use mrt_frames::HEADER_SIZE;
use std::alloc::{AllocError, Global};
use std::cell::Cell;
use std::io::{self, IsTerminal, Read};
use std::rc::Rc;

/// The offset in octets from the start of a bzip2 file of the mark of its first block, after `BZh` and
/// the digit of a level: 4.
const BZIP2_BLOCK_OFFSET: usize = 4;

/// Returns `true` if hints are to be written: standard error is a terminal, so that a person reads it.
/// Returns `false` if it is a file or a pipe, which a program may read.
pub fn are_hints_wanted(rt: &HostRuntime) -> bool {
    rt.stderr().is_terminal()
}

/// A format of compressed files, such as gzip, that an input or a script seems to be in. A hint names it
/// to the user, with the program that unpacks it.
#[derive(Clone, Copy, Debug, PartialEq, Eq)]
pub struct CompressedFormat {
    /// The name of the format, such as `gzip`.
    pub name: &'static str,
    /// The program that prints the unpacked content of a file in this format, such as `zcat`.
    pub printer: &'static str,
}

/// The first octets of an input or a script, at most as many as the header of an MRT record has (12; RFC
/// 6396, section 2), to guess its format from.
#[derive(Clone, Copy, Default)]
pub struct FirstOctets {
    /// The octets, followed by zeros.
    octets: [u8; HEADER_SIZE],
    /// The number of octets that are set in `octets`.
    len: usize,
}

impl FirstOctets {
    /// Returns the first octets of an input or a script that begins with `octets`: as many as the header
    /// of an MRT record has (12, [`HEADER_SIZE`]), or all of `octets` if these are fewer.
    pub fn read_from(octets: &[u8]) -> Self {
        let mut front = FirstOctets::default();
        front.add_octets(octets);
        front
    }

    /// Appends `octets`, the next ones of the input, to those added before, until there are 12
    /// ([`HEADER_SIZE`]) in all. Ignores the octets after these.
    fn add_octets(&mut self, octets: &[u8]) {
        for octet in octets {
            if self.len >= HEADER_SIZE {
                return;
            }
            self.octets[self.len] = *octet;
            self.len += 1;
        }
    }

    /// Returns the format in which the input seems to be compressed, by its first octets: gzip, bzip2, xz
    /// or zstd. Returns `None` if they are of none of these, or too few.
    pub fn find_compressed_format(&self) -> Option<CompressedFormat> {
        // MRT records begin with their time in seconds since 1970. As times, the marks of gzip, zstd and
        // xz are in 1986, 1991 and 2104, when no router writes; `BZh` is in 2005, so that the block mark
        // is compared too.
        let front = &self.octets[..self.len.min(HEADER_SIZE)];
        let format = |name, printer| Some(CompressedFormat { name, printer });
        if front.starts_with(b"\x1F\x8B\x08") {
            format("gzip", "zcat")
        } else if front.starts_with(b"BZh")
            && self.octets[BZIP2_BLOCK_OFFSET..].starts_with(b"1AY&SY")
        {
            format("bzip2", "bzcat")
        } else if front.starts_with(b"\xFD7zXZ\0") {
            format("xz", "xzcat")
        } else if front.starts_with(b"\x28\xB5\x2F\xFD") {
            format("zstd", "zstdcat")
        } else {
            None
        }
    }

    /// Returns `true` if one of the first octets is 0, and `false` if none is. The header of each
    /// MRT record has zeros; a text has none.
    pub fn has_zero(&self) -> bool {
        self.octets[..self.len.min(HEADER_SIZE)].contains(&0)
    }

    /// Returns the length in octets of the first MRT record's body, which the record's header
    /// states (RFC 6396, section 2), or `None` if there are fewer octets than a header has (12).
    pub fn find_first_body_size(&self) -> Option<u32> {
        if self.len < HEADER_SIZE {
            return None;
        }
        let size = [
            self.octets[8],
            self.octets[9],
            self.octets[10],
            self.octets[11],
        ];
        Some(u32::from_be_bytes(size))
    }
}

/// What a [`NotedReader`] notes while the input is read: its first octets, and the last error of
/// the reader. Hints to the user are made from these notes after the program's work, such as that
/// the input looks compressed.
#[derive(Clone, Copy, Default)]
pub struct FirstOctetsAndError {
    /// The first octets of the input.
    pub front: FirstOctets,
    /// The last error of its reader, or `None` if it hasn't failed.
    pub error: Option<io::Error>,
}

/// A reader over another one, of type `R`, that notes the first octets read and the last error in
/// [`FirstOctetsAndError`] which it shares with its creator.
#[derive(Drop)]
pub struct NotedReader<R> {
    /// The cell with the notes, shared with whoever made this reader.
    notes: Rc<Cell<FirstOctetsAndError>>,
    /// The reader that is read from.
    pub(crate) reader: R,
}

impl<R> NotedReader<R> {
    /// Returns a reader that reads from `reader`, and updates the [`FirstOctetsAndError`] in `notes` at each
    /// read.
    pub fn new(notes: Rc<Cell<FirstOctetsAndError>>, reader: R) -> Self
        ensures { result.reader ≡ reader }
    {
        NotedReader { notes, reader }
    }

    /// Stores `error` in the shared [`FirstOctetsAndError`] as the last error of the wrapped reader.
    fn note_error(&self, error: io::Error) {
        let mut notes = self.notes.get();
        notes.error = Some(error);
        self.notes.set(notes);
    }

    /// Appends `octets`, which were just read, to the first octets of the input in the shared
    /// [`FirstOctetsAndError`], until there are 12 ([`HEADER_SIZE`]) in all. Ignores the octets after these.
    fn note_octets(&self, octets: &[u8]) {
        let mut notes = self.notes.get();
        notes.front.add_octets(octets);
        self.notes.set(notes);
    }
}

impl<R: Read> Read for NotedReader<R> {
    ghost remaining = { λ noted. R.remaining noted.reader };

    fn read(&mut self, buffer: &mut [u8]) -> io::Result<usize> {
        match self.reader.read(buffer) {
            Ok(count) => {
                self.note_octets(&buffer[..count]);
                Ok(count)
            }
            Err(error) => {
                self.note_error(error);
                Err(error)
            }
        }
    }
}

/// The reader and the writers that the program works with, and notes of what was read: its first
/// octets and the last error. The reader is a [`NotedReader`], which updates these notes as it
/// reads.
#[derive(Drop)]
pub struct DevicesAndInputNotes<R, O, E> {
    /// The notes of the input so far: its first octets, and the last error of its reader.
    pub notes: Rc<Cell<FirstOctetsAndError>>,
    /// The devices. Their reader updates `notes`.
    pub devices: Devices<NotedReader<R>, O, E>,
}

impl<R: Drop, O: Drop, E: Drop> DevicesAndInputNotes<R, O, E> {
    /// Returns `devices` with a [`NotedReader`] in place of their reader, and empty notes. Fails if
    /// memory allocation fails; `devices` are dropped then.
    pub fn new(alloc: Global, devices: Devices<R, O, E>) -> Result<Self, AllocError>
        ensures reader { IfOk result (λ noted. noted.devices.reader.reader ≡ devices.reader) }
        ensures out { IfOk result (λ noted. noted.devices.out ≡ devices.out) }
        ensures err { IfOk result (λ noted. noted.devices.err ≡ devices.err) }
    {
        let notes = Rc::new(alloc, Cell::new(FirstOctetsAndError::default()))?;
        let Devices { reader, out, err } = devices;
        let reader = NotedReader::new(notes.clone()?, reader);
        let devices = Devices { reader, out, err };
        Ok(DevicesAndInputNotes { notes, devices })
    }
}
