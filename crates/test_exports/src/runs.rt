// The list of runs: five functions, whose outcome is a record.
use super::show::{
    OUTPUT_BEFORE, ROWS_BEFORE, TRACE_BEFORE, WRITTEN_BEFORE, Written, report_bytes, report_name,
};
use lane_word::InputRange;
use predicate_semantics::{Rv32Program, Rv32SymbolLayout};
use std::alloc::Global;
use std::io;
use std::io::Read;
use test_support::ListReader;

// A byte more than the largest image.
const IMAGE_BYTES: usize = 1_048_577;

const ROWS_BYTES: usize = 16_000;

const TRACE_BYTES: usize = 1_000;

const OUTPUT_BYTES: usize = 1_000;

// What is called: one of C's functions, or the library's own.
#[derive(Clone, Copy)]
enum Function {
    Run,
    RunImage,
    RunRange,
    RunWithPlain,
    Library,
}

// Which function is called, and the numbers that it is given.
#[derive(Clone, Copy)]
struct Call {
    function: Function,
    symbols: Rv32SymbolLayout,
    range: InputRange,
}

// What is lent to a call. `image` is the whole input for lane_run.
#[derive(Drop)]
struct Lent {
    image: Vec<u8>,
    rows: Vec<u8>,
    trace: Vec<u8>,
    output: Vec<u8>,
}

impl From<u32> for Function {
    fn from(number: u32) -> Function {
        match number {
            0 => Function::Run,
            1 => Function::RunImage,
            2 => Function::RunRange,
            3 => Function::RunWithPlain,
            _ => Function::Library,
        }
    }
}

fn next_symbols<R: Read>(list: &mut ListReader<R>) -> io::Result<Rv32SymbolLayout> {
    let entry = list.number()?;
    let event_count = list.number()?;
    let events = list.number()?;
    Ok(Rv32SymbolLayout {
        entry,
        event_count,
        events,
    })
}

fn next_call<R: Read>(list: &mut ListReader<R>) -> io::Result<Call> {
    let function = Function::from(list.number()?);
    let symbols = next_symbols(list)?;
    let first = (list.number()? % 256) as u8;
    let last = (list.number()? % 256) as u8;
    let range = InputRange { first, last };
    Ok(Call {
        function,
        symbols,
        range,
    })
}

// Zeros, with bytes at the start and bytes at a place that the list names.
fn next_image<R: Read>(alloc: Global, list: &mut ListReader<R>) -> io::Result<Vec<u8>> {
    let mut image = vec![in alloc; 0; list.size(IMAGE_BYTES)?]?;
    list.bytes(&mut image)?;
    let at = list.size(image.len())?;
    list.bytes(&mut image[at..])?;
    Ok(image)
}

fn next_lent<R: Read>(alloc: Global, list: &mut ListReader<R>) -> io::Result<Lent> {
    let rows = vec![in alloc; ROWS_BEFORE; list.size(ROWS_BYTES)?]?;
    let trace = vec![in alloc; TRACE_BEFORE; list.size(TRACE_BYTES)?]?;
    let output = vec![in alloc; OUTPUT_BEFORE; list.size(OUTPUT_BYTES)?]?;
    let image = next_image(alloc, list)?;
    Ok(Lent {
        image,
        rows,
        trace,
        output,
    })
}

// One of the functions that get a range, which have the same arguments.
fn over_range<F>(function: F, call: Call, lent: &mut Lent, count: &mut u64) -> u32
where
    F: Fn(&[u8], u32, u32, u32, u8, u8, &mut [u8], &mut [u8], &mut [u8], &mut u64) -> u32 + Drop,
    requires { F.IsAlwaysCallable function }
{
    function(
        &lent.image,
        call.symbols.entry,
        call.symbols.event_count,
        call.symbols.events,
        call.range.first,
        call.range.last,
        &mut lent.rows,
        &mut lent.trace,
        &mut lent.output,
        count,
    )
}

fn over_invalid_channels(call: Call, lent: &mut Lent, count: &mut u64) -> u32 {
    lane_exports::lane_run_image(
        &lent.image,
        call.symbols.entry,
        call.symbols.event_count,
        call.symbols.events,
        &mut lent.rows,
        &mut lent.trace,
        &mut lent.output,
        count,
    )
}

// The library's own function; a refusal has no count.
fn library(call: Call, lent: &mut Lent, count: &mut u64) -> u32 {
    let program = Rv32Program {
        symbols: call.symbols,
    };
    match lane_library::run_with(
        &lent.image,
        program,
        call.range,
        &mut lent.rows,
        &mut lent.trace,
        &mut lent.output,
    ) {
        Ok(n) => {
            *count = n as u64;
            0
        }
        Err(error) => {
            *count = 0;
            u32::from(error.number())
        }
    }
}

fn run(call: Call, lent: &mut Lent) -> Written {
    let mut count = WRITTEN_BEFORE;
    let answer = match call.function {
        Function::Run => lane_exports::lane_run(
            &lent.image,
            &mut lent.rows,
            &mut lent.trace,
            &mut lent.output,
            &mut count,
        ),
        Function::RunImage => over_invalid_channels(call, lent, &mut count),
        Function::RunRange => over_range(lane_exports::lane_run_range, call, lent, &mut count),
        Function::RunWithPlain => {
            over_range(lane_exports::lane_run_with_plain, call, lent, &mut count)
        }
        Function::Library => library(call, lent, &mut count),
    };
    Written { answer, count }
}

// The next case: name, function, symbols, range, the bytes that are lent, the image's, and what it holds.
pub fn next_run<R: Read>(
    out: &impl Print,
    alloc: Global,
    list: &mut ListReader<R>,
) -> io::Result<()> {
    report_name(out, list)?;
    let call = next_call(list)?;
    let mut lent = next_lent(alloc, list)?;
    println!(out; ": {}", run(call, &mut lent))?;
    report_bytes(out, "  rows", &lent.rows)?;
    report_bytes(out, "  trace", &lent.trace)?;
    report_bytes(out, "  output", &lent.output)
}
