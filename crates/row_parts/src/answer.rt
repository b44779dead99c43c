//! What a call answers.

use bgpdump_lines::Outcome;
use row_values::Shown;
use std::alloc::{AllocError, Global};
use test_devices::SlowOutput;

/// What a call wrote, and the status of the program after it.
#[derive(Drop)]
pub struct Answer {
    pub(crate) out: Vec<u8>,
    pub(crate) err: Vec<u8>,
    pub(crate) status: u8,
    /// How a run over devices ended, and how often it finished each output.
    pub(crate) ended: Vec<u8>,
}

impl Answer {
    /// What a call wrote that is no run. Where something was left out of the text, there is none.
    pub fn written(alloc: Global, text: Shown) -> Result<Self, AllocError> {
        Ok(Answer {
            out: text.whole()?,
            err: Vec::new(alloc),
            status: 0,
            ended: Vec::new(alloc),
        })
    }

    /// What a run wrote, and how it ended.
    pub fn of_run(alloc: Global, outcome: Outcome, out: Vec<u8>, err: Vec<u8>) -> Self {
        Answer {
            out,
            err,
            status: outcome.status(),
            ended: Vec::new(alloc),
        }
    }

    /// The same of a run over these outputs, and how often it finished each.
    pub fn of_devices(
        alloc: Global,
        outcome: Outcome,
        out: SlowOutput,
        err: SlowOutput,
    ) -> Result<Self, AllocError> {
        let ended = format!(in alloc; "{outcome:?} {} {}", out.finish_calls, err.finish_calls)?;
        let mut answer = Answer::of_run(alloc, outcome, out.text, err.text);
        answer.ended.extend_from_slice(ended.as_bytes())?;
        Ok(answer)
    }
}
