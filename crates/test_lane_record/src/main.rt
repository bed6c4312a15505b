// Runs the record's reader and writer on an example of a record, on records that break one rule each, on records of other ranges, and on
// lent memory of every length around the border, and prints what they answer: 0 for done, else the number of docs/REFUSALS.md.
#![tactic(auto)]

ghost use Rattle.std.specs.Iterator.{IsFinite};

use little_endian::{get, put};
use predicate_answer::{
    CompiledMmioEvent, PredicateTransducerExecution, RecordOutcome, RecordRefusal,
};
use std::alloc::{AllocError, Global};
use std::io;
use test_support::unlike;

// The example, 49 bytes, and a byte more.
const EXAMPLE: [u8; 50] = [
    0x01, 0x06, 0xFA, 0x00, 0x01, 0x00, 0x00, 0x00, 0x02, 0x00, 0x00, 0x00, 0xF4, 0x01, 0x00, 0x00,
    0x04, 0x00, 0x00, 0x00, 0x00, 0x03, 0x00, 0x00, 0x00, 0x80, 0x13, 0x05, 0x10, 0x00, 0x02, 0x02,
    0x00, 0x00, 0x80, 0x03, 0x02, 0x00, 0x00, 0x80, 0x67, 0x80, 0x00, 0x00, 0x02, 0xFC, 0xFF, 0x1F,
    0x80, 0x00,
];

// Refusal 5, with no role, after 2 steps.
const REFUSED: [u8; 7] = [0x7F, 0x05, 0x00, 0x02, 0x00, 0x00, 0x00];

// A number of a record changed, at its place.
#[derive(Clone, Copy)]
enum Edit {
    Byte(usize, u8),
    Word(usize, u32),
}

// Of the example; each of the first twelve breaks a rule, the others none.
const EDITS: [Edit; 18] = [
    // first input, lanes, lane operations
    Edit::Byte(1, 7),
    Edit::Byte(2, 251),
    Edit::Word(12, 501),
    // written bytes below and above their bounds
    Edit::Word(16, 3),
    Edit::Word(16, 2_097_152),
    // an event counted that is not there; written, it is an event of zeros
    Edit::Byte(20, 1),
    // the kind of a step, which a result has not
    Edit::Byte(21, 2),
    // lengths
    Edit::Byte(30, 3),
    Edit::Byte(44, 0),
    // next counters: unlike the following one, and unlike stop
    Edit::Word(31, 0x8000_0004),
    Edit::Word(36, 0x8000_0004),
    Edit::Word(45, 0x801F_FFF8),
    // return value, written bytes at their upper bound, a word, a length of 4, and the first counter
    Edit::Word(4, 0xFFFF_FFFF),
    Edit::Word(16, 2_097_151),
    Edit::Word(26, 0),
    Edit::Byte(30, 4),
    Edit::Byte(44, 4),
    Edit::Word(22, 1),
];

// Of the refused record; each of the first nine breaks one rule, the others none. Four bytes at 1 are refusal, role and steps.
const REFUSAL_EDITS: [Edit; 13] = [
    // refusal 0, and those above 14, which no record holds
    Edit::Byte(1, 0),
    Edit::Byte(1, 15),
    Edit::Byte(1, 16),
    Edit::Byte(1, 17),
    Edit::Byte(1, 255),
    // a role for 5, none for 6, and one above 10
    Edit::Byte(2, 1),
    Edit::Byte(1, 6),
    Edit::Word(1, 0x0002_0B07),
    // more steps than a run has
    Edit::Word(3, 1_000_001),
    // 6 with role 1, 7 with role 10, refusal 14, and as many steps as a run has
    Edit::Word(1, 0x0002_0106),
    Edit::Word(1, 0x0002_0A07),
    Edit::Byte(1, 14),
    Edit::Word(3, 1_000_000),
];

// First input, lanes, steps and lane operations, in the example; without steps it ends with its heading.
#[derive(Clone, Copy)]
struct Heading(u8, u16, u32, u32);

// Each of the first 17 breaks a rule, the others none.
const HEADINGS: [Heading; 28] = [
    // no lane
    Heading(6, 0, 2, 0),
    Heading(0, 0, 2, 0),
    Heading(7, 0, 0, 0),
    // a last input above 255
    Heading(255, 2, 2, 4),
    Heading(6, 251, 2, 502),
    Heading(0, 257, 2, 514),
    Heading(1, 256, 2, 512),
    Heading(0, 65535, 2, 131070),
    // no steps, and more lanes than one
    Heading(7, 2, 0, 0),
    Heading(6, 250, 0, 0),
    Heading(0, 256, 0, 0),
    // lane operations that are not those of the lanes
    Heading(12, 244, 2, 487),
    Heading(12, 244, 2, 489),
    Heading(12, 244, 2, 500),
    Heading(0, 256, 2, 511),
    Heading(7, 1, 2, 1),
    Heading(7, 1, 0, 1),
    // up to the last byte
    Heading(0, 256, 2, 512),
    Heading(255, 1, 2, 2),
    Heading(12, 244, 2, 488),
    // not up to it
    Heading(6, 249, 2, 498),
    Heading(5, 250, 2, 500),
    Heading(4, 2, 2, 4),
    Heading(7, 1, 2, 2),
    Heading(0, 1, 2, 2),
    // one lane that is at stop from the first
    Heading(0, 1, 0, 0),
    Heading(255, 1, 0, 0),
    NO_STEPS,
];

const NO_STEPS: Heading = Heading(7, 1, 0, 0);

impl Edit {
    fn apply(self, bytes: &mut [u8]) {
        match self {
            Edit::Byte(at, x) => put(bytes, at, x),
            Edit::Word(at, x) => put(bytes, at, x),
        }
    }
}

impl Heading {
    // The example with this heading.
    fn example(self) -> [u8; 50] {
        let Heading(first_input, lanes, steps, operations) = self;
        let mut bytes = EXAMPLE;
        put(&mut bytes, 1, first_input);
        put(&mut bytes, 2, lanes);
        put(&mut bytes, 8, steps);
        put(&mut bytes, 12, operations);
        bytes
    }

    fn has_steps(self) -> bool {
        self.2 != 0
    }

    fn record_bytes(self) -> usize {
        if self.has_steps() { 49 } else { 21 }
    }

    // The trace that is lent has the two entries of the record, or none.
    fn entry_bytes(self) -> usize {
        if self.has_steps() { 26 } else { 0 }
    }
}

// The first n bytes, or all where there are fewer.
fn first(bytes: &[u8], n: usize) -> &[u8] {
    &bytes[..n.min(bytes.len())]
}

fn first_mut(bytes: &mut [u8], n: usize) -> &mut [u8] {
    let n = n.min(bytes.len());
    &mut bytes[..n]
}

fn read(bytes: &[u8], trace: &mut [u8]) -> u8 {
    match lane_record::read_record(bytes, trace) {
        Ok(_) => 0,
        Err(error) => error.number(),
    }
}

fn write(outcome: RecordOutcome, trace: &[u8], output: &mut [u8]) -> u8 {
    match lane_record::write_record(outcome, trace, output) {
        Ok(_) => 0,
        Err(error) => error.number(),
    }
}

fn answer_of(bytes: &[u8]) -> Result<(), RecordRefusal> {
    if get::<u8>(bytes, 0) == 0x7F {
        return Err(RecordRefusal {
            number: get(bytes, 1),
            role: get(bytes, 2),
            steps: get(bytes, 3),
        });
    }
    Ok(())
}

// The outcome that bytes would be the record of, whether or not the rules hold; its events are zeros.
fn outcome_of(bytes: &[u8]) -> RecordOutcome {
    let none = CompiledMmioEvent {
        operation: 0,
        offset: 0,
        value: 0,
        location: 0,
    };
    let execution = PredicateTransducerExecution {
        first_input: get(bytes, 1),
        lane_count: get(bytes, 2),
        return_value: get(bytes, 4),
        symbolic_transitions: get(bytes, 8),
        lane_value_operations: get(bytes, 12),
        sparse_memory_bytes: get(bytes, 16),
        event_count: get(bytes, 20),
    };
    RecordOutcome {
        answer: answer_of(bytes),
        execution,
        events: [none; 32],
    }
}

// The entries of the example's two steps, each without its kind.
fn trace_of(bytes: &[u8; 50]) -> [u8; 26] {
    let mut trace = [0u8; 26];
    trace[..13].copy_from_slice(&bytes[22..35]);
    trace[13..].copy_from_slice(&bytes[36..49]);
    trace
}

// The example's bytes as an outcome and the first m bytes of its trace, written to the first n bytes of an output.
fn write_bytes(bytes: &[u8; 50], m: usize, n: usize) -> u8 {
    let trace = trace_of(bytes);
    let mut output = [0u8; 80];
    write(
        outcome_of(bytes),
        first(&trace, m),
        first_mut(&mut output, n),
    )
}

// The example after an edit, read and written.
fn read_edited(edit: Edit) -> u8 {
    let mut bytes = EXAMPLE;
    edit.apply(&mut bytes);
    read(first(&bytes, 49), &mut [0; 26])
}

fn write_edited(edit: Edit, n: usize) -> u8 {
    let mut bytes = EXAMPLE;
    edit.apply(&mut bytes);
    write_bytes(&bytes, 26, n)
}

fn read_refusal(edit: Edit) -> u8 {
    let mut bytes = REFUSED;
    edit.apply(&mut bytes);
    read(&bytes, &mut [])
}

fn write_refusal(edit: Edit, n: usize) -> u8 {
    let mut bytes = REFUSED;
    let mut output = [0u8; 60];
    edit.apply(&mut bytes);
    write(outcome_of(&bytes), &[], first_mut(&mut output, n))
}

// The first n bytes of the example with another heading, read; and written to the first n bytes of an output.
fn read_heading(heading: Heading, n: usize) -> u8 {
    let mut trace = [0u8; 26];
    let trace = first_mut(&mut trace, heading.entry_bytes());
    read(first(&heading.example(), n), trace)
}

fn write_heading(heading: Heading, n: usize) -> u8 {
    write_bytes(&heading.example(), heading.entry_bytes(), n)
}

fn read_lent(n: usize, m: usize) -> u8 {
    let mut trace = [0u8; 39];
    read(first(&EXAMPLE, n), first_mut(&mut trace, m))
}

// A line of answers.
fn answers<I: Iterator<Item = u8> + Drop>(
    out: &impl Print,
    name: &str,
    answers: I,
) -> io::Result<()>
    requires can { I.can_next answers }
    requires ends { IsFinite (I.remaining answers) }
{
    print!(out; "{name}:")?;
    for answer in answers {
        print!(out; " {answer}")?;
    }
    println!(out)
}

// Reads bytes and writes what was read, and prints the reader's answer, how many bytes were written, 1 if they are the same,
// the byte after them, which was 85, and how many bytes after the steps' entries are not 170 as before.
fn round_trip(out: &impl Print, name: &str, bytes: &[u8]) -> io::Result<()> {
    let mut trace = [170u8; 39];
    match lane_record::read_record(bytes, &mut trace) {
        Ok(outcome) => {
            print!(out; "{name} 0")?;
            write_back(out, outcome, &trace, bytes)?;
            let entries = outcome.execution.symbolic_transitions as usize * 13;
            println!(out; " {}", unlike(&trace[entries.min(39)..], 170))
        }
        Err(error) => println!(out; "{name} {} {}", error.number(), unlike(&trace, 170)),
    }
}

fn write_back(
    out: &impl Print,
    outcome: RecordOutcome,
    trace: &[u8],
    bytes: &[u8],
) -> io::Result<()> {
    let mut output = [85u8; 640];
    if let Ok(n) = lane_record::write_record(outcome, trace, &mut output) {
        print!(out; " {n}")?;
        if n < output.len() {
            print!(out; " {} {}", u8::from(&output[..n] == bytes), output[n])?;
        }
    }
    Ok(())
}

// The example with n events put into it.
fn with_events(alloc: Global, n: u8) -> Result<Vec<u8>, AllocError> {
    let mut bytes = Vec::from_slice(alloc, &EXAMPLE[..20])?;
    bytes.push(n)?;
    for k in 0..n {
        bytes.extend_from_slice(&[2, 0, 0, 0, 0, 0, 0, 0, 0, k, 0, 0, 0, 0, 0, 0, 0])?;
    }
    bytes.extend_from_slice(&EXAMPLE[21..49])?;
    Ok(bytes)
}

fn edits(out: &impl Print) -> io::Result<()> {
    answers(out, "edited, read", EDITS.iter().map(|e| read_edited(*e)))?;
    answers(
        out,
        "edited, written",
        EDITS.iter().map(|e| write_edited(*e, 80)),
    )?;
    answers(
        out,
        "edited, written with no output",
        EDITS.iter().map(|e| write_edited(*e, 0)),
    )?;
    answers(
        out,
        "edited refusal, read",
        REFUSAL_EDITS.iter().map(|e| read_refusal(*e)),
    )?;
    answers(
        out,
        "edited refusal, written",
        REFUSAL_EDITS.iter().map(|e| write_refusal(*e, 7)),
    )?;
    answers(
        out,
        "edited refusal, written with an output a byte short",
        REFUSAL_EDITS.iter().map(|e| write_refusal(*e, 6)),
    )
}

fn headings(out: &impl Print) -> io::Result<()> {
    answers(
        out,
        "other headings, read",
        HEADINGS.iter().map(|h| read_heading(*h, h.record_bytes())),
    )?;
    answers(
        out,
        "other headings, written",
        HEADINGS.iter().map(|h| write_heading(*h, h.record_bytes())),
    )?;
    answers(
        out,
        "other headings, written with no output",
        HEADINGS.iter().map(|h| write_heading(*h, 0)),
    )
}

// The example with another heading, there and back.
fn heading_trips(out: &impl Print) -> io::Result<()> {
    let headings = [
        Heading(0, 256, 2, 512),
        Heading(12, 244, 2, 488),
        Heading(255, 1, 2, 2),
        NO_STEPS,
    ];
    for heading in headings {
        let Heading(first_input, lanes, steps, _) = heading;
        print!(out; "first input, lanes and steps: {first_input} {lanes} {steps}")?;
        round_trip(out, ":", first(&heading.example(), heading.record_bytes()))?;
    }
    Ok(())
}

fn lengths(out: &impl Print) -> io::Result<()> {
    answers(
        out,
        "bytes read, from 0 on",
        (0..51usize).map(|n| read_lent(n, 39)),
    )?;
    answers(
        out,
        "trace lent to the reader, from 0 on",
        (0..40usize).map(|m| read_lent(49, m)),
    )?;
    answers(
        out,
        "trace lent to the writer, from 0 on",
        (0..27usize).map(|m| write_bytes(&EXAMPLE, m, 80)),
    )?;
    answers(
        out,
        "output lent, from 0 on",
        (0..61usize).map(|n| write_bytes(&EXAMPLE, 26, n)),
    )?;
    answers(
        out,
        "bytes read of a record without steps, from 0 on",
        (0..23usize).map(|n| read_heading(NO_STEPS, n)),
    )?;
    answers(
        out,
        "output lent to a record without steps, from 0 on",
        (0..23usize).map(|n| write_heading(NO_STEPS, n)),
    )
}

// How many of the 256 first bytes make a record.
fn first_bytes(out: &impl Print) -> io::Result<()> {
    let accepted = (0..=255u8)
        .filter(|b| read_edited(Edit::Byte(0, *b)) == 0)
        .count();
    let refused = (0..=255u8)
        .filter(|b| read_refusal(Edit::Byte(0, *b)) == 0)
        .count();
    println!(out; "first bytes taken: {accepted} {refused}")
}

fn main(rt: HostRuntime) -> io::Result<()> {
    round_trip(&rt, "document 01:", &EXAMPLE[..49])?;
    edits(&rt)?;
    headings(&rt)?;
    heading_trips(&rt)?;
    lengths(&rt)?;
    first_bytes(&rt)?;
    for n in [32, 33] {
        let bytes = with_events(rt.alloc(), n)?;
        print!(&rt; "events: {n}")?;
        round_trip(&rt, "", &bytes)?;
    }
    Ok(())
}
