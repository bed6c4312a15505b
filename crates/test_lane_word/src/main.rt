// Prints what the uniform test finds in lane words of each kind, each lane's input over some ranges, and quotients by powers of two.
#![tactic(auto)]

ghost use Rattle.std.specs.Prelude.{◌<◌};
ghost use Rattle.lane_word.specs.Word.{lanes};

use lane_word::{InputRange, LaneWord, UniformError};
use rv32_arithmetic::{Binary, value};
use std::io;

// One value in every lane but one.
fn unlike(value: u32, lane: usize, other: u32) -> LaneWord
    requires { lane < lanes }
{
    let mut values = [value; LaneWord::LANES];
    values[lane] = other;
    LaneWord {
        values,
        known: true,
    }
}

fn report(out: &impl Print, name: &str, word: LaneWord) -> io::Result<()> {
    match word.uniform_known() {
        Ok(value) => println!(out; "{name}: value {value}"),
        Err(UniformError::Unknown) => println!(out; "{name}: unknown"),
        Err(UniformError::Uneven) => println!(out; "{name}: uneven"),
    }
}

fn report_values(out: &impl Print, word: LaneWord) -> io::Result<()> {
    for value in &word.values {
        print!(out; " {value}")?;
    }
    println!(out)
}

// How many inputs a range has, what the uniform test finds, and each lane's value, also of those that have no input of their own.
fn report_range(out: &impl Print, first: u8, last: u8) -> io::Result<()> {
    let range = InputRange { first, last };
    let word = LaneWord::input_domain(range);
    print!(out; "inputs {first} to {last}, count {}", range.count())?;
    report(out, "", word)?;
    report_values(out, word)
}

fn uniform_tests(out: &impl Print, inputs: LaneWord) -> io::Result<()> {
    report(out, "constant 7", LaneWord::constant(7))?;
    report(out, "constant 0", LaneWord::constant(0))?;
    report(out, "unknown zeros", LaneWord::unknown())?;
    report(out, "the inputs", inputs)?;
    report(out, "lane 0 unlike", unlike(5, 0, 4))?;
    report(out, "lane 1 unlike", unlike(5, 1, 4))?;
    report(out, "last lane unlike", unlike(5, LaneWord::LANES - 1, 4))?;
    report(
        out,
        "unknown xor itself",
        LaneWord::unknown().xor(LaneWord::unknown()),
    )?;
    report(
        out,
        "known and unknown",
        LaneWord::constant(7).and(LaneWord::unknown()),
    )?;
    report(out, "the inputs xor themselves", inputs.xor(inputs))?;
    report(
        out,
        "inputs below 256",
        inputs.sltu(LaneWord::constant(256)),
    )?;
    report(
        out,
        "inputs below 255",
        inputs.sltu(LaneWord::constant(255)),
    )?;
    report(out, "inputs below 6", inputs.sltu(LaneWord::constant(6)))?;
    report(out, "inputs below 7", inputs.sltu(LaneWord::constant(7)))
}

fn ranges(out: &impl Print) -> io::Result<()> {
    let ranges = [
        (6, 255),
        (0, 255),
        (0, 0),
        (7, 7),
        (7, 8),
        (12, 255),
        (255, 255),
        (5, 4),
        (255, 0),
    ];
    for (first, last) in ranges {
        report_range(out, first, last)?;
    }
    Ok(())
}

// Some lanes of the quotients of aaaaaaaa, abababab and so on, each byte the lane's number but for the bits of aa: ffffffff in lane 85, 0 in lane 170.
fn report_quotients(out: &impl Print, name: &str, divisor: LaneWord) -> io::Result<()> {
    let every = InputRange {
        first: 0,
        last: 255,
    };
    let bytes = LaneWord::input_domain(every).mul(LaneWord::constant(0x0101_0101));
    let dividend = bytes.xor(LaneWord::constant(0xaaaa_aaaa));
    let quotients = dividend.divu(divisor).values;
    print!(out; "{name}")?;
    for lane in [0, 1, 85, 86, 170, 254, 255] {
        print!(out; " {}", quotients[lane])?;
    }
    println!(out)
}

// By one number in every lane, and of the largest word.
fn report_divided(out: &impl Print, n: u32) -> io::Result<()> {
    print!(out; "by {n}: ffffffff {}", value(Binary::Divu, 0xffff_ffff, n))?;
    report_quotients(out, ", lanes", LaneWord::constant(n))
}

// By each power of two and the numbers beside it.
fn powers(out: &impl Print) -> io::Result<()> {
    for k in 0..32u32 {
        let power = 1u32 << k;
        report_divided(out, power - 1)?;
        report_divided(out, power)?;
        report_divided(out, power + 1)?;
    }
    Ok(())
}

// By divisors of which some are powers of two.
fn uneven_divisors(out: &impl Print, inputs: LaneWord) -> io::Result<()> {
    report_quotients(out, "by 64, in lane 0 by 7:", unlike(64, 0, 7))?;
    report_quotients(out, "by 64, in lane 1 by 7:", unlike(64, 1, 7))?;
    report_quotients(
        out,
        "by 64, in the last lane by 7:",
        unlike(64, LaneWord::LANES - 1, 7),
    )?;
    report_quotients(
        out,
        "by 7, in the last lane by 64:",
        unlike(7, LaneWord::LANES - 1, 64),
    )?;
    report_quotients(
        out,
        "by a power for each input:",
        LaneWord::constant(1).sll(inputs),
    )?;
    report_quotients(out, "by unknown zeros:", LaneWord::unknown())
}

fn main(rt: HostRuntime) -> io::Result<()> {
    let inputs = LaneWord::input_domain(InputRange::invalid_channels());
    uniform_tests(&rt, inputs)?;
    ranges(&rt)?;
    powers(&rt)?;
    uneven_divisors(&rt, inputs)
}
