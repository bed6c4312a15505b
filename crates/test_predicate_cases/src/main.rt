// Runs the images on standard input, which oracle/predicate_cases makes, on both sides of each edge of the rules and of the ranges of
// inputs, and prints of each run the refusal's number (0: accepted), its role and the completed steps, what an accepted run answers, the
// last completed step, and how many lent bytes are not as they must be.
//
// Loops of 500,000 steps stand in for the bound on steps: no case of the first list is lent entries for more, so past them the entries
// end the run, not the bound. A second list on standard input has the edges of the bound, with the 13 MB of entries that they take.
#![tactic(auto)]

use lane_memory::ROW_BYTES;
use lane_word::InputRange;
use little_endian::get;
use predicate_answer::{CallError, RecordOutcome};
use predicate_semantics::{Rv32Program, Rv32SymbolLayout};
use predicate_trace::ENTRY_BYTES;
use std::alloc::Global;
use std::io;
use std::io::Read;
use test_support::{ListReader, unlike};

// What lent memory holds before a run.
const BEFORE: u8 = 0xa5;

// The most bytes that an image and a trace of a list's cases have.
#[derive(Clone, Copy)]
struct Limits {
    image: usize,
    trace: usize,
}

// A byte more than the largest image; 500,000 entries, and a remainder.
const USUAL: Limits = Limits {
    image: 1_048_577,
    trace: 6_500_005,
};

// Images of a few instructions; as many entries as a run may have steps, and a remainder.
const BOUND: Limits = Limits {
    image: 64,
    trace: 13_000_005,
};

// The rows of 33 events, and a remainder.
const ROWS_BYTES: usize = 106_663;

#[derive(Drop)]
struct Case {
    program: Rv32Program,
    range: InputRange,
    image: Vec<u8>,
    rows: Vec<u8>,
    trace: Vec<u8>,
}

fn next_program<R: Read>(list: &mut ListReader<R>) -> io::Result<Rv32Program> {
    let entry = list.number()?;
    let event_count = list.number()?;
    let events = list.number()?;
    let symbols = Rv32SymbolLayout {
        entry,
        event_count,
        events,
    };
    Ok(Rv32Program { symbols })
}

fn next_range<R: Read>(list: &mut ListReader<R>) -> io::Result<InputRange> {
    let first = (list.number()? % 256) as u8;
    let last = (list.number()? % 256) as u8;
    Ok(InputRange { first, last })
}

// The next text, of at most 64 bytes, as it is.
fn report_name<R: Read>(out: &impl Print, list: &mut ListReader<R>) -> io::Result<()> {
    let mut name = [0u8; 64];
    let length = list.bytes(&mut name)?;
    out.write_all(&name[..length])
}

// The next case after its name: symbols, inputs, the sizes of image, rows and trace, and the bytes that the image begins with; the others
// are 0.
fn next_case<R: Read>(alloc: Global, list: &mut ListReader<R>, limits: Limits) -> io::Result<Case> {
    let program = next_program(list)?;
    let range = next_range(list)?;
    let size = list.size(limits.image)?;
    let rows = vec![in alloc; BEFORE; list.size(ROWS_BYTES)?]?;
    let trace = vec![in alloc; BEFORE; list.size(limits.trace)?]?;
    let mut image = vec![in alloc; 0; limits.image]?;
    list.bytes(&mut image)?;
    image.truncate(size);
    Ok(Case {
        program,
        range,
        image,
        rows,
        trace,
    })
}

fn report_accepted(out: &impl Print, outcome: &RecordOutcome) -> io::Result<()> {
    let execution = outcome.execution;
    print!(out;
        ": 0 0 {}, returns {:08x}, written {}, events {}",
        execution.symbolic_transitions,
        execution.return_value,
        execution.sparse_memory_bytes,
        execution.event_count
    )?;
    print!(out;
        ", from input {}, lanes {}, operations {}",
        execution.first_input, execution.lane_count, execution.lane_value_operations
    )
}

// Number, role and steps, of a refused call a number alone; after an accepted run its answer. How many steps were completed.
fn report_answer(out: &impl Print, run: &Result<RecordOutcome, CallError>) -> io::Result<u32> {
    match run {
        Err(error) => {
            print!(out; ": {} 0 0", error.number())?;
            Ok(0)
        }
        Ok(outcome) => match outcome.answer {
            Err(refusal) => {
                print!(out; ": {} {} {}", refusal.number, refusal.role, refusal.steps)?;
                Ok(refusal.steps)
            }
            Ok(()) => {
                report_accepted(out, outcome)?;
                Ok(outcome.execution.symbolic_transitions)
            }
        },
    }
}

// The entry of the last completed step.
fn report_last(out: &impl Print, trace: &[u8], steps: u32) -> io::Result<()> {
    if steps == 0 {
        return Ok(());
    }
    let at = (steps - 1) as usize * ENTRY_BYTES;
    print!(out;
        ", last {:08x} {:08x} {} {:08x}",
        get::<u32>(trace, at),
        get::<u32>(trace, at + 4),
        get::<u8>(trace, at + 8),
        get::<u32>(trace, at + 9)
    )
}

// Whole rows are zero after a run; their remainder and what lies past the completed steps' entries are as before.
fn unlike_after(rows: &[u8], trace: &[u8], steps: u32) -> usize {
    let end = lane_memory::row_count(rows) * ROW_BYTES;
    let entries = steps as usize * ENTRY_BYTES;
    let (whole, past) = rows.split_at(end.min(rows.len()));
    let (_, unused) = trace.split_at(entries.min(trace.len()));
    unlike(whole, 0)
        .wrapping_add(unlike(past, BEFORE))
        .wrapping_add(unlike(unused, BEFORE))
}

fn report_events(out: &impl Print, outcome: &RecordOutcome) -> io::Result<()> {
    let count = outcome.execution.event_count as usize;
    for event in outcome.events.iter().take(count) {
        println!(out;
            "  event {:08x} {:08x} {:08x} {:08x}",
            event.operation, event.offset, event.value, event.location
        )?;
    }
    Ok(())
}

fn run(out: &impl Print, case: Case) -> io::Result<()> {
    let mut rows = case.rows;
    let mut trace = case.trace;
    let run = riscv32imc_predicate::execute_predicate(
        &case.image,
        case.program,
        case.range,
        &mut rows,
        &mut trace,
    );
    let steps = report_answer(out, &run)?;
    report_last(out, &trace, steps)?;
    println!(out; ", unlike {}", unlike_after(&rows, &trace, steps))?;
    match run {
        Ok(outcome) => report_events(out, &outcome),
        Err(_) => Ok(()),
    }
}

// The cases of one list.
fn cases<R: Read>(
    out: &impl Print,
    alloc: Global,
    list: &mut ListReader<R>,
    limits: Limits,
) -> io::Result<()> {
    for _ in 0..list.number()? {
        report_name(out, list)?;
        run(out, next_case(alloc, list, limits)?)?;
    }
    Ok(())
}

fn main(rt: HostRuntime) -> io::Result<()> {
    let mut list = ListReader { reader: rt.stdin() };
    cases(&rt, rt.alloc(), &mut list, USUAL)?;
    cases(&rt, rt.alloc(), &mut list, BOUND)
}
