//! Writing the replies to commands, and the reports of bad lines. `play.rt`, `execution.rt` and the
//! files of `execution` call these functions; read [`write_labelled_numbers`] first.

ghost use Rattle.std.specs.Prelude.{◌≡◌, ◌||◌, map};
ghost use Rattle.bgpdump_lines.specs.WrittenSoFar.{with_outcome_error, Puts, is_output_fault};
ghost use Rattle.bgpdump_tool.specs.Replies.{at_text, none_text, labelled_numbers_text};

use bgpdump_lines::{Outcome, Output, WriteFault, put_all};
use ip_prefix::Text;

/// Writes to `out` each word of `numbers` with the number after it, in decimal, and then `ending`,
/// such as `at 5 floor 2 forgot 1`. The words contain their own spaces (`at `, ` floor `), and the
/// ending the line feed. Overwrites `text`, a buffer. Fails if memory allocation or `out` fails;
/// some of the reply's first octets may have been written then.
pub(crate) fn write_labelled_numbers<O: Output>(
    numbers: &[(&[u8], u64)],
    ending: &[u8],
    out: &mut O,
    text: &mut Text,
) -> Result<(), WriteFault>
    ensures text { Puts (O.written out.old) (O.written out.new)
        (labelled_numbers_text (map (λ part. (part.0.now, part.1)) numbers.now) ending.now) result }
    ensures failed { O.failed out.new ≡ (O.failed out.old || is_output_fault result) }
{
    text.clear();
    'numbers: for (word, number) in numbers {
        text.extend_from_slice(word)?;
        text.put_decimal_u64(*number)?;
    }
    text.extend_from_slice(ending)?;
    put_all(out, text.as_slice())?;
    Ok(())
}

/// Writes to `out` the reply `at 5`, where 5 is `position`, the number of played events before the
/// player's cursor. Writes `at 5 end` if `ended`, which says whether the command met the end of the
/// input. Overwrites `text`, a buffer. Fails if memory allocation or `out` fails; some of the
/// reply's first octets may have been written then.
pub(crate) fn write_position<O: Output>(
    position: u64,
    ended: bool,
    out: &mut O,
    text: &mut Text,
) -> Result<(), WriteFault>
    ensures text { Puts (O.written out.old) (O.written out.new) (at_text position ended) result }
    ensures failed { O.failed out.new ≡ (O.failed out.old || is_output_fault result) }
{
    if ended {
        return write_labelled_numbers(&[(b"at ", position)], b" end\n", out, text);
    }
    write_labelled_numbers(&[(b"at ", position)], b"\n", out, text)
}

/// Writes to `out` the reply of a query that finds nothing: `none` and a line feed. Fails if `out`
/// fails; some of these octets may have been written then.
pub(crate) fn write_none<O: Output>(out: &mut O) -> Result<(), WriteFault>
    ensures text { Puts (O.written out.old) (O.written out.new) none_text result }
    ensures failed { O.failed out.new ≡ (O.failed out.old || is_output_fault result) }
{
    put_all(out, b"none\n")?;
    Ok(())
}

/// Converts the result of writing a reply into the result of a command, whose error is the
/// [`Outcome`] that ends the program: a write fault, or a lack of memory.
pub(crate) fn replied(reply: Result<(), WriteFault>) -> Result<(), Outcome>
    ensures { result ≡ with_outcome_error reply }
{
    Ok(reply?)
}
