//! Formats the report of a faulty record, a line for standard error. `write.rt` calls [`put_report`]. On
//! error, each function may have appended a part.

ghost use Rattle.std.specs.Prelude.{◌≡◌, ◌++◌, OnOk, decimal};
ghost use Rattle.bgpdump_lines.specs.Run.{fault_kind_text, fault_report};

use ip_prefix::Text;
use mrt_wire::{RecordFault, RecordKind};
use std::alloc::AllocError;

/// Appends `word` and then `number` in decimal, without a space between them, such as
/// `length 20000000` for a `word` that ends with a space. Fails if memory allocation fails; `text`
/// then ends with an unspecified part of them.
fn put_labelled_number(word: &[u8], number: u64, text: &mut Text) -> Result<(), AllocError>
    ensures { OnOk result (text.new ≡ text.old ++ (word.now ++ decimal number)) }
{
    text.extend_from_slice(word)?;
    text.put_decimal_u64(number)?;
    Ok(())
}

/// Appends what is wrong with a record whose fault is `kind`, in words: `cut record`,
/// `length 20000000 too long`, `unsupported type 16 subtype 9`, `malformed`, `no peer index` or
/// `peer index 7`. Fails if memory allocation fails; `text` then ends with an unspecified part of
/// the words.
fn put_fault_description(kind: RecordKind, text: &mut Text) -> Result<(), AllocError>
    ensures { OnOk result (text.new ≡ text.old ++ fault_kind_text kind) }
{
    match kind {
        RecordKind::CutRecord => text.extend_from_slice(b"cut record")?,
        RecordKind::TooLong(size) => {
            put_labelled_number(b"length ", u64::from(size), text)?;
            text.extend_from_slice(b" too long")?;
        }
        RecordKind::Unsupported(kind, subtype) => {
            put_labelled_number(b"unsupported type ", u64::from(kind), text)?;
            put_labelled_number(b" subtype ", u64::from(subtype), text)?;
        }
        RecordKind::Malformed => text.extend_from_slice(b"malformed")?,
        RecordKind::NoIndex => text.extend_from_slice(b"no peer index")?,
        RecordKind::PeerIndex(number) => put_labelled_number(
            b"peer index ",
            u64::from(number),
            text,
        )?,
    }
    Ok(())
}

/// Appends the report of a faulty record to `text`, such as `bgpdump: record 3, byte 120: cut record` and
/// a line feed: the record's number, counted from 1, the offset of its header in octets from the start of
/// the input, and what is wrong. Fails if memory allocation fails; `text` then ends with an unspecified
/// part of the report.
pub(crate) fn put_report(fault: RecordFault, text: &mut Text) -> Result<(), AllocError>
    ensures { OnOk result (text.new ≡ text.old ++ fault_report fault) }
{
    put_labelled_number(b"bgpdump: record ", fault.number, text)?;
    put_labelled_number(b", byte ", fault.offset, text)?;
    text.extend_from_slice(b": ")?;
    put_fault_description(fault.kind, text)?;
    text.push(b'\n')?;
    Ok(())
}
