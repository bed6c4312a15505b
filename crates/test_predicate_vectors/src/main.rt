// Runs the images on standard input, which oracle/run_vectors makes of the published tests of loads, stores, branches, jumps,
// FENCE.I and the upper halves of a product and of tests of FENCE, and prints for each operation how many there are and how many
// returned something else.
#![tactic(auto)]

use predicate_semantics::{Rv32Program, Rv32SymbolLayout};
use std::io;
use std::io::Read;
use test_support::{ListReader, read_full};

// Whether the image's run is refused or returns something else.
fn run_differs(image: &[u8], returned: u32) -> bool {
    let symbols = Rv32SymbolLayout {
        entry: 0x8000_0000,
        event_count: 0x8000_1000,
        events: 0x8000_1004,
    };
    let mut rows = [0u8; 26400];
    let mut trace = [0u8; 6500];
    match riscv32imc_predicate::execute_invalid_channel_predicate(
        image,
        Rv32Program { symbols },
        &mut rows,
        &mut trace,
    ) {
        Ok(outcome) => outcome.answer.is_err() || outcome.execution.return_value != returned,
        Err(_) => true,
    }
}

// The next image, of at most 256 bytes, against its result; a longer one is not read, and its run refused.
fn next_differs<R: Read>(list: &mut ListReader<R>) -> io::Result<bool> {
    let mut image = [0u8; 256];
    let returned = list.number()?;
    let length = list.bytes(&mut image)?;
    Ok(run_differs(&image[..length], returned))
}

// The images of one operation.
fn next_operation<R: Read>(out: &impl Print, list: &mut ListReader<R>) -> io::Result<()> {
    let mut name = [0u8; 8];
    read_full(&mut list.reader, &mut name)?;
    let images = list.number()?;
    let mut differing = 0u32;
    for _ in 0..images {
        differing += u32::from(next_differs(list)?);
    }
    out.write_all(&name)?;
    println!(out; "{images} images, {differing} differ")
}

fn main(rt: HostRuntime) -> io::Result<()> {
    let mut list = ListReader { reader: rt.stdin() };
    for _ in 0..list.number()? {
        next_operation(&rt, &mut list)?;
    }
    Ok(())
}
