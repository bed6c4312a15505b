// The lists of records that are read, and of outcomes that are written.
use super::show::{
    OUTCOME_WORDS, OUTPUT_BEFORE, TRACE_BEFORE, WORD_BEFORE, WRITTEN_BEFORE, Written, report_bytes,
    report_fields, report_name, report_words,
};
use std::alloc::Global;
use std::io;
use std::io::Read;
use test_support::ListReader;

pub const LENT_BYTES: usize = 1_000;

// What the reader answers, and the words afterwards.
#[derive(Clone, Copy)]
pub struct Reading {
    pub answer: u32,
    pub words: [u32; OUTCOME_WORDS],
}

// Reads a record, and prints the answer and the words, also by name where they were written.
pub fn read_lent(
    out: &impl Print,
    alloc: Global,
    name: &str,
    bytes: &[u8],
    trace: &mut [u8],
) -> io::Result<Reading> {
    let mut words = [WORD_BEFORE; OUTCOME_WORDS];
    let answer = lane_exports::lane_read_record(bytes, trace, &mut words);
    println!(out; "{name}{answer}")?;
    if answer == 0 {
        report_fields(out, &words)?;
    }
    report_words(out, alloc, &words)?;
    Ok(Reading { answer, words })
}

// The next case: name, the trace's size, the bytes. Where the list ends within these, the others are the earlier cases', in `bytes`.
pub fn next_reading<R: Read>(
    out: &impl Print,
    alloc: Global,
    list: &mut ListReader<R>,
    bytes: &mut [u8],
) -> io::Result<()> {
    report_name(out, list)?;
    let mut trace = vec![in alloc; TRACE_BEFORE; list.size(LENT_BYTES)?]?;
    let length = list.bytes(bytes)?;
    read_lent(out, alloc, ": ", &bytes[..length], &mut trace)?;
    report_bytes(out, "  trace", &trace)
}

fn next_words<R: Read>(list: &mut ListReader<R>) -> io::Result<[u32; OUTCOME_WORDS]> {
    let mut words = [0u32; OUTCOME_WORDS];
    for word in words.iter_mut() {
        *word = list.number()?;
    }
    Ok(words)
}

// Writes an outcome's record.
pub fn write_lent(words: &[u32; OUTCOME_WORDS], trace: &[u8], output: &mut [u8]) -> Written {
    let mut count = WRITTEN_BEFORE;
    let answer = lane_exports::lane_write_record(words, trace, output, &mut count);
    Written { answer, count }
}

// The next case: name, words, the output's size, the trace's bytes. Where the list ends within these, the others are the earlier cases',
// in `trace`.
pub fn next_writing<R: Read>(
    out: &impl Print,
    alloc: Global,
    list: &mut ListReader<R>,
    trace: &mut [u8],
) -> io::Result<()> {
    report_name(out, list)?;
    let words = next_words(list)?;
    let mut output = vec![in alloc; OUTPUT_BEFORE; list.size(LENT_BYTES)?]?;
    let length = list.bytes(trace)?;
    println!(out; ": {}", write_lent(&words, &trace[..length], &mut output))?;
    report_bytes(out, "  output", &output)
}
