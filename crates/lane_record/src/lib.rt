// The record of a run, for a loader that does not run the image: its writer and its reader.
#![tactic(auto)]

mod items;
mod reader;
mod rules;
mod writer;

ghost use Rattle.std.specs.Prelude.{◌≡◌, Some};
ghost use Rattle.lane_record.specs.Decode.{decode_record};
ghost use Rattle.lane_record.specs.Texts.{read_text, write_text};
ghost use Rattle.lane_record.specs.Answers.{read_number, write_number, Reads, Exact, Writes, given};

pub use items::{EVENT, EVENT_BYTES, HEADING, HEADING_BYTES, REFUSAL_BYTES, STEP, STEP_BYTES};
use predicate_answer::RecordOutcome;
use std::error::Error;
use std::fmt;

// Why no record is read: 15, or 14.
#[derive(Clone, Copy, Debug, PartialEq, Eq)]
pub enum ReadError {
    RulesBroken,
    TraceTooShort,
}

// Why no record is written: 15, or 16.
#[derive(Clone, Copy, Debug, PartialEq, Eq)]
pub enum WriteError {
    RulesBroken,
    OutputTooShort,
}

impl ReadError {
    pub fn number(self) -> u8
        ensures { result ≡ read_number self }
    {
        match self {
            ReadError::RulesBroken => 15,
            ReadError::TraceTooShort => 14,
        }
    }
}

impl WriteError {
    pub fn number(self) -> u8
        ensures { result ≡ write_number self }
    {
        match self {
            WriteError::RulesBroken => 15,
            WriteError::OutputTooShort => 16,
        }
    }
}

impl fmt::Display for ReadError {
    ghost output = { λ error. Some (read_text error) };

    fn fmt<W: fmt::Write>(&self, f: &mut fmt::Formatter<W>) -> fmt::Result {
        f.write_str(match self {
            ReadError::RulesBroken => "the record's rules are broken",
            ReadError::TraceTooShort => "more steps than trace entries lent",
        })
    }
}

impl Error for ReadError {}

impl fmt::Display for WriteError {
    ghost output = { λ error. Some (write_text error) };

    fn fmt<W: fmt::Write>(&self, f: &mut fmt::Formatter<W>) -> fmt::Result {
        f.write_str(match self {
            WriteError::RulesBroken => "the record's rules are broken",
            WriteError::OutputTooShort => "output too short for the record",
        })
    }
}

impl Error for WriteError {}

// On `Err` the trace is as it was.
pub fn read_record(bytes: &[u8], trace: &mut [u8]) -> Result<RecordOutcome, ReadError>
    ensures { Reads (decode_record bytes.now) trace.old result trace.new × Exact bytes.now }
{
    if little_endian::get::<u8>(bytes, 0) == items::REFUSAL {
        return reader::read_refused(bytes);
    }
    reader::read_accepted(bytes, trace)
}

// How many bytes are written; on `Err` the output is as it was.
pub fn write_record(
    res: RecordOutcome,
    trace: &[u8],
    output: &mut [u8],
) -> Result<usize, WriteError>
    ensures { Writes (given res trace.now) output.old result output.new }
{
    match res.answer {
        Ok(()) => writer::write_accepted(res.execution, res.events, trace, output),
        Err(refusal) => writer::write_refused(refusal, output),
    }
}
