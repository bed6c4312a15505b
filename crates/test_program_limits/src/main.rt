// Runs the program's function on inputs at its limits and one past them, and prints the first item of each one's record.
#![tactic(auto)]

use std::alloc::{AllocError, Global};
use std::io;
use test_support::Heading;

// Entry at the image's start, event count and events after it.
const SYMBOLS: [u32; 3] = [0x8000_0000, 0x8000_1000, 0x8000_1004];

// addi x0, x0, 0
const NOP: u32 = 0x0000_0013;

// sb x0, 0(x2)
const STORE_BYTE: u32 = 0x0001_0023;

// addi x10, x0, 1 and jalr x0, 0(x1)
const ONE: u32 = 0x0010_0513;

const RETURN: u32 = 0x0000_8067;

// The input whose image is these words.
fn input_of(alloc: Global, image: &[u32]) -> Result<Vec<u8>, AllocError> {
    let mut input = Vec::new(alloc);
    for word in SYMBOLS.iter().chain(image) {
        input.extend_from_slice(&word.to_le_bytes())?;
    }
    Ok(input)
}

// An input of n bytes whose image is a word, and zeros after it.
fn sized(alloc: Global, n: usize, word: u32) -> Result<Vec<u8>, AllocError> {
    let mut input = input_of(alloc, &[word])?;
    input.resize(n, 0)?;
    Ok(input)
}

// Stores 49 words of zeros, so that with stop's four bytes 200 are written; then one more instruction.
fn stores(alloc: Global, last: u32) -> Result<Vec<u8>, AllocError> {
    let image = [
        0x8000_22B7, // lui x5, 0x80002
        0x0310_0313, // addi x6, x0, 49
        0x0002_A023, // sw x0, 0(x5)
        0x0042_8293, // addi x5, x5, 4
        0xFFF3_0313, // addi x6, x6, -1
        0xFE03_1AE3, // bne x6, x0, -12
        last,
        ONE,
        RETURN,
    ];
    input_of(alloc, &image)
}

// Counts down from 1,022, in 2,045 steps; then three more instructions, and a fourth where the third does not return.
fn steps(alloc: Global, second: u32, third: u32) -> Result<Vec<u8>, AllocError> {
    let image = [
        0x3FE0_0313, // addi x6, x0, 1022
        0xFFF3_0313, // addi x6, x6, -1
        0xFE03_1EE3, // bne x6, x0, -4
        NOP,
        second,
        third,
        RETURN,
    ];
    input_of(alloc, &image)
}

fn run(out: &impl Print, name: &str, input: &[u8]) -> io::Result<()> {
    let output = lane_program::run_program(input);
    println!(out; "{name}: {}", Heading(&output.bytes))
}

fn main(rt: HostRuntime) -> io::Result<()> {
    let returns_one = 0x8082_4505; // li a0, 1; ret
    run(&rt, "12 bytes", &sized(rt.alloc(), 12, 0)?)?;
    run(&rt, "13 bytes", &sized(rt.alloc(), 13, 0)?)?;
    run(&rt, "32780 bytes", &sized(rt.alloc(), 32_780, returns_one)?)?;
    run(&rt, "32781 bytes", &sized(rt.alloc(), 32_781, returns_one)?)?;
    run(&rt, "200 rows", &stores(rt.alloc(), NOP)?)?;
    run(&rt, "201 rows", &stores(rt.alloc(), STORE_BYTE)?)?;
    run(&rt, "2048 steps", &steps(rt.alloc(), ONE, RETURN)?)?;
    run(&rt, "2049 steps", &steps(rt.alloc(), NOP, ONE)?)
}
