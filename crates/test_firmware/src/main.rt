// Runs the inputs of examples/, which examples/list-inputs puts on standard input, and prints a line of each one's record.
#![tactic(auto)]

use std::io;
use std::io::Read;
use test_support::{Heading, ListReader};

// A record of 32 events and 2,048 steps.
const RECORD_BYTES: usize = 29_237;

// The next input: its name, and its own bytes. It is run in 200 rows and 2,048 entries.
fn run_next<R: Read>(out: &impl Print, list: &mut ListReader<R>) -> io::Result<()> {
    let mut rows = [0u8; 52800];
    let mut trace = [0u8; 26624];
    let mut output = [0u8; RECORD_BYTES];
    let mut name = [0u8; 64];
    let mut input = [0u8; 1024];
    let length = list.bytes(&mut name)?;
    out.write_all(&name[..length])?;
    let length = list.bytes(&mut input)?;
    match lane_library::run_input(&input[..length], &mut rows, &mut trace, &mut output) {
        Ok(_) => println!(out; ": {}", Heading(&output)),
        Err(_) => println!(out; ": no record"),
    }
}

fn main(rt: HostRuntime) -> io::Result<()> {
    let mut list = ListReader { reader: rt.stdin() };
    for _ in 0..list.number()? {
        run_next(&rt, &mut list)?;
    }
    Ok(())
}
