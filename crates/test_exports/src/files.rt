// The files that the arguments name: each is read, without a trace and with one, and what is a record is written back.
use super::records::{read_lent, write_lent};
use super::show::{OUTCOME_WORDS, OUTPUT_BEFORE, TRACE_BEFORE};
use std::alloc::Global;
use std::rt::{Env, Files};
use std::{env, fs, io};
use test_support::{read_full, unlike};

// As much of a file is read, and no more; the longest of data/ has 65,537 bytes.
const FILE_BYTES: usize = 65_540;

// The entries of 4,097 steps, and a remainder.
const TRACE_BYTES: usize = 53_266;

// A number that another byte changes, and the same byte at another place.
fn sum_of(bytes: &[u8]) -> u32 {
    let mut low = 1u32;
    let mut sum = 0u32;
    for byte in bytes {
        low = low.wrapping_add(u32::from(*byte));
        sum = sum.wrapping_add(low);
    }
    sum
}

// Writes a record to an output that just holds its bytes, and to one that is a byte shorter.
fn write_back(
    out: &impl Print,
    alloc: Global,
    words: &[u32; OUTCOME_WORDS],
    trace: &[u8],
    bytes: &[u8],
) -> io::Result<()> {
    let mut output = vec![in alloc; OUTPUT_BEFORE; bytes.len()]?;
    println!(out; "  written back {}", write_lent(words, trace, &mut output))?;
    println!(out; "  as in the file {}", u8::from(output.as_slice() == bytes))?;
    let mut short = vec![in alloc; OUTPUT_BEFORE; bytes.len().saturating_sub(1)]?;
    println!(out; "  a byte short {}", write_lent(words, trace, &mut short))?;
    println!(out; "  unlike before {}", unlike(&short, OUTPUT_BEFORE))
}

fn show_file(out: &impl Print, alloc: Global, bytes: &[u8]) -> io::Result<()> {
    let mut trace = vec![in alloc; TRACE_BEFORE; TRACE_BYTES]?;
    print!(out; ": {}", bytes.len())?;
    read_lent(out, alloc, " bytes, without a trace ", bytes, &mut [])?;
    let reading = read_lent(out, alloc, "  with one ", bytes, &mut trace)?;
    println!(out; "  trace {:08x}", sum_of(&trace))?;
    if reading.answer == 0 {
        write_back(out, alloc, &reading.words, &trace, bytes)?;
    }
    Ok(())
}

pub fn files(rt: &(impl AllocGlobal + Env + Files + Print)) -> io::Result<()> {
    let mut bytes = vec![in rt.alloc(); 0; FILE_BYTES]?;
    for name in env::args(rt)?.skip(1) {
        print!(rt; "{name}")?;
        let mut file = fs::open(rt, name.as_str())?;
        let length = read_full(&mut file, &mut bytes)?;
        show_file(rt, rt.alloc(), &bytes[..length])?;
    }
    Ok(())
}
