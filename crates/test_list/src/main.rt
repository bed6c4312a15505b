// Reads standard input whole, and prints what a list over its bytes gives and leaves: below a limit, at it and past it, and past the list's end.
#![tactic(auto)]

use std::io;
use test_support::{Listed, read_input};

fn report_left(out: &impl Print, list: &Listed) -> io::Result<()> {
    println!(out; ", left {}", list.left.len())
}

fn report_bytes(out: &impl Print, name: &str, bytes: &[u8], list: &Listed) -> io::Result<()> {
    print!(out; "{name}:")?;
    for byte in bytes {
        print!(out; " {byte}")?;
    }
    report_left(out, list)
}

fn numbers(out: &impl Print, list: &mut Listed) -> io::Result<()> {
    print!(out; "number: {}", list.number())?;
    report_left(out, list)?;
    for name in ["size below 8", "size 8", "size above 8"] {
        print!(out; "{name}: {}", list.size(8))?;
        report_left(out, list)?;
    }
    let mut part = Listed { left: list.take(3) };
    print!(out; "number of 3 bytes: {}", part.number())?;
    report_left(out, &part)
}

fn bytes(out: &impl Print, list: &mut Listed) -> io::Result<()> {
    for name in ["no byte", "below 8 bytes", "8 bytes", "above 8 bytes"] {
        let bytes = list.bytes(8);
        report_bytes(out, name, bytes, list)?;
    }
    let stayed = list.take(9);
    report_bytes(out, "which stayed", stayed, list)?;
    let none = list.take(0);
    report_bytes(out, "take none", none, list)
}

fn end(out: &impl Print, list: &mut Listed) -> io::Result<()> {
    let bytes = list.bytes(8);
    report_bytes(out, "more than there are", bytes, list)?;
    let taken = list.take(1);
    report_bytes(out, "take past the end", taken, list)?;
    print!(out; "number past the end: {}", list.number())?;
    report_left(out, list)?;
    print!(out; "size past the end: {}", list.size(8))?;
    report_left(out, list)?;
    let bytes = list.bytes(8);
    report_bytes(out, "bytes past the end", bytes, list)
}

fn main(rt: HostRuntime) -> io::Result<()> {
    let input = read_input(&rt)?;
    println!(rt; "read {}", input.len())?;
    let mut list = Listed { left: &input };
    numbers(&rt, &mut list)?;
    bytes(&rt, &mut list)?;
    end(&rt, &mut list)
}
