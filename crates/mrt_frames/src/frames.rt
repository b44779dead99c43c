//! Reading records one after the other: headers, and the bodies of those types that the caller
//! supports. `mrt_wire` calls [`FrameReader::take_record`] for each record; read that first.

ghost use Rattle.std.specs.Prelude.{◌≡◌, ◌+◌, ◌≤◌, ◌||◌, ℕ, false, Option, IfOk, IsTrue, take, length, vec_len};
ghost use Rattle.mrt_frames.specs.Buffered.{HoldsRecord};
ghost use Rattle.mrt_frames.specs.Taken.{StartsBuffered, is_err_read, source_answer, TakesOctets, AreOctetsOfHeaderOrRest, AreOctetsOfBody, AreOctetsOfSkippedBody, AreOctetsOfRecordOrRest};

use crate::buffer::{fill_body, fill_part, fill_within};
use crate::fault::{RecordKind, SourceFault, TakeFault};
use crate::header::{HEADER_SIZE, Header, LONGEST_BODY, read_header};
use crate::input::Input;
use std::alloc::Global;

/// The largest size, in octets, up to which the buffer of bodies is always kept. A larger one is
/// freed before a body of no more than this is read, so that one long record doesn't occupy memory
/// from then on.
const MOST_KEPT: usize = 1 << 18;

// They are few, since the buffer is filled with zeros for each skipped record.
/// The number of octets of a skipped body that are read at once, into a buffer on the stack. A body
/// of one octet more takes one more read of the input.
const PIECE: usize = 512;

/// Which types and subtypes of MRT records the user of a [`FrameReader`] supports, and the format
/// of the bodies of each. The bodies of other records are skipped.
pub trait RecordTypes {
    /// The format of a body, by which the user of the reader knows how to parse it.
    type BodyFormat: Copy;

    /// In contracts, the format of the bodies of records of a type and subtype, or `None` if such
    /// records aren't supported.
    ghost format_at: { Self → ℕ → ℕ → Option Self.BodyFormat };

    /// Returns the format of the bodies of records of type `kind` and `subtype`, or `None` if such
    /// records aren't supported.
    fn body_format(&self, kind: u16, subtype: u16) -> Option<Self::BodyFormat>
        ensures { result ≡ format_at self.now kind subtype };
}

/// The outcome of reading the header of the next MRT record: the header, or that the input ends
/// before or inside it.
#[derive(Clone, Copy)]
enum NextHeader {
    /// The header of the next record.
    Header(Header),
    /// The input ends before a whole header: `None` if it ends where a record may end, so that
    /// nothing is wrong, or the fault `CutRecord` if it ends inside the header.
    Rest(Option<RecordKind>),
}

/// The outcome of reading the next MRT record: it was read, was skipped as unsupported, or is
/// missing, cut or too long. `F` is the type of the formats of bodies, [`RecordTypes::BodyFormat`],
/// by which the caller knows how to parse a body.
#[derive(Clone, Copy)]
pub enum NextRecord<F> {
    /// The header of a record of a supported type, and the format of its body, as [`RecordTypes`]
    /// gives it. The body was read: [`FrameReader::body`] returns it.
    Record(Header, F),
    /// The header of a record of an unsupported type or subtype, whose body was skipped.
    Skipped(Header),
    /// There is no further record: `None` if the input ends after a whole record, so that nothing
    /// is wrong; or the fault of the octets that are left: the input ends inside a record, or a
    /// header states a body that is too long.
    Rest(Option<RecordKind>),
}

/// A reader of MRT records, header and body, which reads no more than a limit of octets. It doesn't
/// own the input: the caller passes the same one to each call.
#[derive(Drop)]
pub struct FrameReader {
    /// A buffer whose start is the body that was read last. The next body overwrites it.
    body: Vec<u8>,
    /// The greatest number of octets to read in all.
    limit: u64,
    /// The number of octets read so far, which is at most `limit`.
    taken: u64,
    ghost within: { taken ≤ limit },
}

impl FrameReader {
    /// Returns a reader at the start of its input, which reads at most `limit` octets in all: of
    /// all records together, with their headers. An input that has as many or more is an error,
    /// `InputTooLong`, once they are read. It allocates no memory yet.
    pub fn new(alloc: Global, limit: u64) -> Self
        ensures limit { result.limit ≡ limit }
        ensures taken { result.taken ≡ 0 }
    {
        FrameReader {
            body: Vec::new(alloc),
            limit,
            taken: 0,
        }
    }

    /// Returns the number of octets read from the input so far: of headers and bodies, skipped ones
    /// too, and of what was read before an error. It is at most the limit given to
    /// [`FrameReader::new`].
    pub fn taken(&self) -> u64
        ensures taken { result ≡ self.now.taken }
        ensures within { self.now.taken ≤ self.now.limit }
    {
        self.taken
    }

    /// Returns the first `size` octets of the buffer into which bodies are read. To get the body
    /// that [`FrameReader::take_record`] read last, pass the `size` of its header: a smaller one
    /// cuts the body, and a greater one adds octets of earlier records. Requires that the buffer
    /// has `size` octets.
    pub fn body(&self, size: u32) -> &[u8]
        requires { size ≤ vec_len self.now.body }
        ensures { result.now ≡ take size self.now.body.items }
    {
        &self.body[..size as usize]
    }

    /// Reads the next header, or returns [`NextHeader::Rest`] if the input ends before or inside
    /// it. Fails if a read fails, or if the limit given to [`FrameReader::new`] is reached; a part
    /// of the header may have been read then.
    #[inline(always)]
    fn take_header<I: Input>(&mut self, input: &mut I) -> Result<NextHeader, TakeFault>
        ensures octets { TakesOctets (AreOctetsOfHeaderOrRest self.new.limit (source_answer result))
            (I.left input.old) (I.left input.new) self.old.taken self.new.taken }
        ensures failed { I.failed input.new
            ≡ (I.failed input.old || is_err_read (source_answer result)) }
        ensures limit { self.new.limit ≡ self.old.limit }
        ensures buffered { HEADER_SIZE ≤ length (I.buffered input.old) →
            StartsBuffered (I.buffered input.old) (I.buffered input.new) (source_answer result) }
    {
        let mut octets = [0; HEADER_SIZE];
        let count = fill_within(input, &mut octets, &mut self.taken, self.limit)?;
        if count == HEADER_SIZE {
            return Ok(NextHeader::Header(read_header(&octets)));
        }
        Ok(NextHeader::Rest((count > 0).then_some(RecordKind::CutRecord)))
    }

    /// Reads a body of `size` octets into the buffer of bodies. Returns `true` if it was read as a
    /// whole, `false` if the input ends inside it. Fails if a read fails, if the limit given to
    /// [`FrameReader::new`] is reached, or if memory allocation fails; a part of the body may have
    /// been read then. Requires that `size` is at most [`LONGEST_BODY`].
    #[inline(always)]
    fn take_body<I: Input>(&mut self, input: &mut I, size: u32) -> Result<bool, SourceFault>
        requires { size ≤ LONGEST_BODY }
        ensures octets { TakesOctets
            (AreOctetsOfBody self.new.limit self.new.body.items size result)
            (I.left input.old) (I.left input.new) self.old.taken self.new.taken }
        ensures failed { I.failed input.new ≡ (I.failed input.old || is_err_read result) }
        ensures limit { self.new.limit ≡ self.old.limit }
        ensures buffered { size ≤ length (I.buffered input.old) → is_err_read result ≡ false }
    {
        // The buffer of a long body is freed before a short one is read.
        let size = size as usize;
        if size <= MOST_KEPT && self.body.len() > MOST_KEPT {
            self.body = Vec::new(*self.body.allocator());
        }
        if size <= self.body.len() {
            let count = fill_part(input, &mut self.body, 0..size, &mut self.taken, self.limit)?;
            return Ok(count == size);
        }
        let count = fill_body(input, &mut self.body, size, &mut self.taken, self.limit)?;
        Ok(count == size)
    }

    /// Reads a body of `size` octets from the input without keeping it. Returns `true` if all of it
    /// was there, `false` if the input ends inside it. Fails if a read fails, or if the limit given
    /// to [`FrameReader::new`] is reached; a part of the body may have been read then.
    #[inline(never)]
    fn skip_body<I: Input>(&mut self, input: &mut I, size: u32) -> Result<bool, TakeFault>
        ensures octets { TakesOctets (AreOctetsOfSkippedBody self.new.limit size
            (source_answer result))
            (I.left input.old) (I.left input.new) self.old.taken self.new.taken }
        ensures failed { I.failed input.new
            ≡ (I.failed input.old || is_err_read (source_answer result)) }
        ensures limit { self.new.limit ≡ self.old.limit }
        ensures buffered { size ≤ length (I.buffered input.old) →
            is_err_read (source_answer result) ≡ false }
    {
        let mut piece = [0; PIECE];
        let mut ahead = size as usize;
        while ahead > 0 {
            let wanted = ahead.min(PIECE);
            let count = fill_within(input, &mut piece[..wanted], &mut self.taken, self.limit)?;
            if count < wanted {
                return Ok(false);
            }
            ahead -= wanted;
        }
        Ok(true)
    }

    /// Reads the next record from `input`, or returns [`NextRecord::Rest`] if the input ends before
    /// or inside it, or if its body is longer than [`LONGEST_BODY`]. The body is kept for
    /// [`FrameReader::body`], or skipped if `record_types` doesn't support the record. Fails if a
    /// read fails, if the limit given to [`FrameReader::new`] is reached, or if memory allocation
    /// fails; a part of the record may have been read then. No read fails if `input` has the whole
    /// record in its buffer.
    #[inline(always)]
    pub fn take_record<P: RecordTypes, I: Input>(
        &mut self,
        record_types: &P,
        input: &mut I,
    ) -> Result<NextRecord<P::BodyFormat>, SourceFault>
        ensures octets { TakesOctets
            (AreOctetsOfRecordOrRest (P.format_at record_types.now) self.new.limit
            self.new.body.items result)
            (I.left input.old) (I.left input.new) self.old.taken self.new.taken }
        ensures failed { I.failed input.new ≡ (I.failed input.old || is_err_read result) }
        ensures limit { self.new.limit ≡ self.old.limit }
        ensures buffered { HoldsRecord (I.buffered input.old) → is_err_read result ≡ false }
    {
        let header = match self.take_header(input)? {
            NextHeader::Header(header) => header,
            NextHeader::Rest(kind) => return Ok(NextRecord::Rest(kind)),
        };
        if header.size > LONGEST_BODY {
            return Ok(NextRecord::Rest(Some(RecordKind::TooLong(header.size))));
        }
        let Some(form) = record_types.body_format(header.kind, header.subtype) else {
            if self.skip_body(input, header.size)? {
                return Ok(NextRecord::Skipped(header));
            }
            return Ok(NextRecord::Rest(Some(RecordKind::CutRecord)));
        };
        if self.take_body(input, header.size)? {
            return Ok(NextRecord::Record(header, form));
        }
        Ok(NextRecord::Rest(Some(RecordKind::CutRecord)))
    }
}
