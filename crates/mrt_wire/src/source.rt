//! The reader of MRT files, one record after the other. `bgpdump_lines` and `bgpdump_tool` make a
//! [`Source`] and call [`Source::next`] until it returns the end or an error; read that first.
//! `decoding.rt` parses each record.

ghost use Rattle.std.specs.Prelude.{◌≡◌, ◌≤◌, ◌+◌, ◌||◌, ◌↔◌, false, Ok, Err, IsTrue};
ghost use Rattle.mrt_wire.specs.declared.next.Next.{Next};
ghost use Rattle.mrt_frames.specs.Buffered.{HoldsRecord};
ghost use Rattle.mrt_frames.specs.Taken.{is_err_read};
ghost use Rattle.mrt_wire.specs.Results.{start_state};
ghost use Rattle.mrt_wire.specs.Decoding.{decoded_answer, next_of_fault};
ghost use Rattle.mrt_wire.specs.Answered.{IsNextCall, IsFirstResult, state_after_call};

use crate::decoding::{DecodeError, RawRecord, decode_record};
use crate::next::{Next, Phase};
use crate::peers::Peers;
use crate::pool::Pool;
use crate::record_types::SupportedTypes;
use mrt_events::{Event, Stamp};
use mrt_frames::{FrameReader, Input, NextRecord, RecordFault, RecordKind, SourceFault};
use std::alloc::Global;
use std::marker::Model;

/// A reader of the events in an input of MRT records (RFC 6396). It doesn't own the input: the
/// caller passes the same one to each call of [`Source::next`]. In contracts, its value is a
/// `SourceState`: the peers of the last peer index table, the number of records read, the offset in
/// the input and its limit, both in octets, the choice of the time that routes of tables get
/// ([`Stamp`]), and the [`Phase`]: reading, at the end, or failed.
#[derive(Drop)]
pub struct Source {
    alloc: Global,
    /// The reader of record headers and bodies, with the buffer of the current body, the offset in
    /// the input and the limit.
    frames: FrameReader,
    /// The number of records read so far, faulty and unsupported ones included.
    number: u64,
    /// The peers of the last accepted peer index table, or `None` before the first.
    index: Option<Peers>,
    /// Which time the routes of table entries get: the timestamp of the record, or the Originated
    /// Time of the entry.
    stamp: Stamp,
    /// Whether the source still reads, has met the end, or has failed.
    phase: Phase,
    /// Memory that later records are parsed into, and routes that are overwritten once nobody else
    /// holds them.
    pool: Pool,
}

impl Model for Source {
    ghost use Rattle.std.specs.Prelude.{◌*◌, ◌≤◌};
    ghost use Rattle.mrt_frames.specs.declared.header.TheConstants.{HEADER_SIZE};
    ghost use Rattle.mrt_wire.specs.Results.{SourceState};

    ghost Value = { SourceState };

    ghost view = { λ a. record {
      index = a.index;
      number = a.number;
      offset = a.frames.taken;
      limit = a.frames.limit;
      stamp = a.stamp;
      phase = a.phase;
    } };

    ghost invariant = { λ a. HEADER_SIZE * a.number ≤ a.frames.taken };
}

impl Source {
    /// Returns a source at the start of its input. `stamp` selects which time the routes of table
    /// entries get: the timestamp of the record (`Dump`) or the Originated Time of the entry
    /// (`Change`). `limit` is the greatest number of octets of the input to read: if the source
    /// would have to read more, be it only to see the end, [`Source::next`] fails with
    /// `InputTooLong`. Allocates no memory.
    pub fn new(alloc: Global, stamp: Stamp, limit: u64) -> Self
        ensures { result ≡ start_state stamp limit }
    {
        Source {
            alloc,
            frames: FrameReader::new(alloc, limit),
            number: 0,
            index: None,
            stamp,
            phase: Phase::Reading,
            pool: Pool::new(alloc),
        }
    }

    /// Returns the number of octets read from the input so far: after a record, the offset of the
    /// next one. It is at most the limit given to [`Source::new`].
    pub fn offset(&self) -> u64
        ensures offset { result ≡ self.now.offset }
        ensures within { self.now.offset ≤ self.now.limit }
    {
        self.frames.taken()
    }

    /// Returns `true` if the source is in phase [`Phase::Reading`], in which the next call of
    /// [`Source::next`] reads from the input. Returns `false` once it has met the end or has
    /// failed.
    #[inline]
    pub fn is_reading(&self) -> bool
        ensures { IsTrue result ↔ (self.now.phase ≡ Phase.Reading) }
    {
        self.phase == Phase::Reading
    }

    /// Takes back a result of [`Source::next`] that the caller no longer needs, so that later
    /// records are parsed into its memory. What later calls return doesn't depend on it.
    #[inline(always)]
    pub fn recycle(&mut self, answer: Next)
        ensures { self.new ≡ self.old }
    {
        if let Next::Event(event) = answer {
            self.pool.keep_items(event.items.into_vec());
            self.pool.read.routes.drop_shared_after_large_record();
        }
    }

    /// Reads the next record from `input`, and returns its event or its fault, or [`Next::End`] at
    /// the end of the input. Fails with `Read` if the input fails, with `InputTooLong` if the limit
    /// given to [`Source::new`] is met, or with `Memory` if memory allocation fails. Reads nothing
    /// once it has returned the end or an error: each call after the end returns [`Next::End`]
    /// again, and each call after an error fails with `Spent`.
    #[inline(always)]
    pub fn next<I: Input>(&mut self, input: &mut I) -> Result<Next, SourceFault>
        // While it reads: either the octets of one record were taken, its event or fault is
        // returned, and number, offset and peer index are those after it; or what follows the last
        // record was taken, to the end of the input or just a header whose length is too great, its
        // fault or the end is returned, and the phase is `Ended`; or the call failed, having taken
        // the beginning of a record, maybe nothing (with `Memory` maybe a whole one), with
        // `InputTooLong` only at the limit, and the phase is `Spent`. In the last two cases number
        // and peer index stay, and the offset grows by what was taken.
        ensures next { self.old.phase ≡ Phase.Reading →
            IsNextCall self.old self.new (I.left input.old) (I.left input.new) result }

        // In the words of `results`, for inputs that show their octets: an answer is the first
        // result of the octets taken (of the end there is none), whatever octets follow them,
        // provided that none do if it is the end or a record that is cut there.
        ensures first { self.old.phase ≡ Phase.Reading → (answer : Next) → result ≡ Ok answer →
            IsFirstResult self.old (I.left input.old) (I.left input.new) answer }

        // Once what follows the last record was read, its fault included, each call returns the
        // end; after an error each fails with `Spent`. The source and the input don't change.
        ensures ended { self.old.phase ≡ Phase.Ended →
            (result ≡ Ok Next.End) × (self.new ≡ self.old) × (input.new ≡ input.old) }
        ensures spent { self.old.phase ≡ Phase.Spent →
            (result ≡ Err SourceFault.Spent) × (self.new ≡ self.old) × (input.new ≡ input.old) }

        // The input has failed after the call exactly if it had before or the call fails with
        // `Read`.
        ensures failed { I.failed input.new ≡ (I.failed input.old || is_err_read result) }

        // No read fails if the next record is buffered as a whole.
        ensures buffered { HoldsRecord (I.buffered input.old) → is_err_read result ≡ false }

        // No more octets are taken in all than the limit given to [`Source::new`].
        ensures within { self.new.offset ≤ self.new.limit }
    {
        match self.phase {
            Phase::Reading => {
                let answer = self.read(input);
                if answer.is_err() {
                    self.phase = Phase::Spent;
                }
                answer
            }
            Phase::Ended => Ok(Next::End),
            Phase::Spent => Err(SourceFault::Spent),
        }
    }

    /// Reads the next record from `input`, and returns its event or its fault, or [`Next::End`] at
    /// the end of the input. To be called in phase `Reading` only. Fails with `Read` if the input
    /// fails, with `InputTooLong` if the limit given to [`Source::new`] is met, or with `Memory` if
    /// memory allocation fails; the phase is still `Reading` then, and the caller,
    /// [`Source::next`], sets it to `Spent`.
    #[inline(always)]
    fn read<I: Input>(&mut self, input: &mut I) -> Result<Next, SourceFault>
        ensures next { IsNextCall self.old (state_after_call self.new result)
            (I.left input.old) (I.left input.new) result }
        ensures failed { I.failed input.new ≡ (I.failed input.old || is_err_read result) }
        ensures buffered { HoldsRecord (I.buffered input.old) → is_err_read result ≡ false }
    {
        let offset = self.frames.taken();
        match self.frames.take_record(&SupportedTypes, input)? {
            NextRecord::Record(header, form) => {
                let body = self.frames.body(header.size);
                let decoded = decode_record(
                    self.alloc,
                    &mut self.pool,
                    self.stamp,
                    &mut self.index,
                    RawRecord { form, header, body },
                );
                let answer = next_of_record(self.number + 1, offset, decoded)?;
                self.number += 1;
                Ok(answer)
            }
            NextRecord::Skipped(header) => {
                let kind = RecordKind::Unsupported(header.kind, header.subtype);
                let number = self.number + 1;
                self.number = number;
                Ok(next_of_fault(number, offset, kind))
            }
            NextRecord::Rest(kind) => {
                self.phase = Phase::Ended;
                let Some(kind) = kind else {
                    return Ok(Next::End);
                };
                let number = self.number + 1;
                Ok(next_of_fault(number, offset, kind))
            }
        }
    }
}

/// Returns [`Next::Bad`] with the fault `kind` of the record with the number `number`, counted from
/// 1, whose header begins `offset` octets after the start of the input.
#[inline(always)]
fn next_of_fault(number: u64, offset: u64, kind: RecordKind) -> Next
    ensures { result ≡ next_of_fault number offset kind }
{
    Next::Bad(RecordFault {
        number,
        offset,
        kind,
    })
}

/// Converts the result of parsing a record to what [`Source::next`] returns for it: its event, or
/// its fault with the record's number, counted from 1, and the offset of its header in the input,
/// in octets. Fails with `SourceFault::Memory` if memory allocation failed as the record was
/// parsed.
fn next_of_record(
    number: u64,
    offset: u64,
    decoded: Result<Event, DecodeError>,
) -> Result<Next, SourceFault>
    ensures { result ≡ decoded_answer number offset decoded }
{
    match decoded {
        Ok(event) => Ok(Next::Event(event)),
        Err(DecodeError::Fault(kind)) => Ok(next_of_fault(number, offset, kind)),
        Err(DecodeError::Memory) => Err(SourceFault::Memory),
    }
}
