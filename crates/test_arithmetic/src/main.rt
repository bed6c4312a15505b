// Computes the published operand and result pairs by single words and by lane words, and prints for each operation how many
// pairs there are and how many results differ in each way.
//
// Standard input has the pairs of the published RISC-V tests (riscv-tests, rv32ui and rv32um) that are known here, each
// once; the published files were not at hand. A line is the operation, in six letters, its operands and its result, in
// eight hexadecimal digits each. An immediate stands sign-extended, as the operation takes it; a branch has the result 1
// where it is taken. LUI has the loaded value, and the shift to the right by which its test looks at it. AUIPC has the
// address 80000000, which its test leaves open, and the test's offset. oracle/vectors computes each result anew.
#![tactic(auto)]

ghost use Rattle.std.specs.Prelude.{◌<◌, ◌≤◌, length};

use lane_word::LaneWord;
use rv32_arithmetic::{
    Binary, rv32_add, rv32_and, rv32_div, rv32_divu, rv32_eq, rv32_ge, rv32_geu, rv32_mul,
    rv32_mulh, rv32_mulhsu, rv32_mulhu, rv32_ne, rv32_or, rv32_rem, rv32_remu, rv32_sll, rv32_slt,
    rv32_sltu, rv32_sra, rv32_srl, rv32_sub, rv32_xor, value,
};
use std::{array, io};
use test_support::read_full;

// How many bytes a line has, its end among them.
const LINE: usize = 34;

#[derive(Clone, Copy, Default)]
struct Counts {
    pairs: u64,
    words: u64,
    lanes: u64,
}

// Every byte stands for a digit.
fn digit(b: u8) -> u32
    ensures { result < 16 }
{
    if b < b'a' {
        u32::from(b % 16)
    } else {
        u32::from((b % 16 + 9) % 16)
    }
}

fn word_of(digits: &[u8]) -> u32 {
    let mut word = 0u32;
    for b in digits {
        word = word << 4 | digit(*b);
    }
    word
}

fn left(line: &[u8; LINE]) -> u32 {
    word_of(&line[7..15])
}

fn right(line: &[u8; LINE]) -> u32 {
    word_of(&line[16..24])
}

fn result(line: &[u8; LINE]) -> u32 {
    word_of(&line[25..33])
}

// The lane word of one operand: lane k has that of line `first` + k; after the last line comes the first of all.
fn column<F: Fn(&[u8; LINE]) -> u32>(lines: &[[u8; LINE]], first: usize, operand: F) -> LaneWord
    requires callable { F.IsAlwaysCallable operand }
    requires within { first < length lines.now }
{
    LaneWord {
        values: array::from_fn(|k| operand(&lines[(first + k) % lines.len()])),
        known: true,
    }
}

// What the lane of a line has, with other lines around it.
fn by_lanes<L: Fn(LaneWord, LaneWord) -> LaneWord>(lines: &[[u8; LINE]], k: usize, lanes: &L) -> u32
    requires callable { L.IsAlwaysCallable lanes.now }
    requires within { k < length lines.now }
{
    let lane = k % LaneWord::LANES;
    let lefts = column(lines, k - lane, left);
    let rights = column(lines, k - lane, right);
    lanes(lefts, rights).values[lane]
}

// By words an operation is compared both as the run has it and by its function.
fn count<W: Fn(u32, u32) -> u32, L: Fn(LaneWord, LaneWord) -> LaneWord>(
    lines: &[[u8; LINE]],
    name: &str,
    operation: Binary,
    word: W,
    lanes: L,
) -> Counts
    requires word { W.IsAlwaysCallable word }
    requires lanes { L.IsAlwaysCallable lanes }
{
    let mut counts = Counts::default();
    for (k, line) in lines.iter().enumerate() {
        if &line[..6] == name.as_bytes() {
            let (a, b, c) = (left(line), right(line), result(line));
            counts.pairs += 1;
            counts.words += u64::from(value(operation, a, b) != c || word(a, b) != c);
            counts.lanes += u64::from(by_lanes(lines, k, &lanes) != c);
        }
    }
    counts
}

fn report<W: Fn(u32, u32) -> u32 + Drop, L: Fn(LaneWord, LaneWord) -> LaneWord + Drop>(
    out: &impl Print,
    lines: &[[u8; LINE]],
    name: &str,
    operation: Binary,
    word: W,
    lanes: L,
) -> io::Result<()>
    requires word { W.IsAlwaysCallable word }
    requires lanes { L.IsAlwaysCallable lanes }
{
    let counts = count(lines, name, operation, word, lanes);
    println!(out;
        "{name} pairs {}, different by words {}, by lanes {}",
        counts.pairs, counts.words, counts.lanes
    )
}

fn immediates(out: &impl Print, lines: &[[u8; LINE]]) -> io::Result<()> {
    report(out, lines, "lui   ", Binary::Sra, rv32_sra, LaneWord::sra)?;
    report(out, lines, "auipc ", Binary::Add, rv32_add, LaneWord::add)?;
    report(out, lines, "addi  ", Binary::Add, rv32_add, LaneWord::add)?;
    report(out, lines, "slti  ", Binary::Slt, rv32_slt, LaneWord::slt)?;
    report(
        out,
        lines,
        "sltiu ",
        Binary::Sltu,
        rv32_sltu,
        LaneWord::sltu,
    )?;
    report(out, lines, "xori  ", Binary::Xor, rv32_xor, LaneWord::xor)?;
    report(out, lines, "ori   ", Binary::Or, rv32_or, LaneWord::or)?;
    report(out, lines, "andi  ", Binary::And, rv32_and, LaneWord::and)?;
    report(out, lines, "slli  ", Binary::Sll, rv32_sll, LaneWord::sll)?;
    report(out, lines, "srli  ", Binary::Srl, rv32_srl, LaneWord::srl)?;
    report(out, lines, "srai  ", Binary::Sra, rv32_sra, LaneWord::sra)
}

fn branches(out: &impl Print, lines: &[[u8; LINE]]) -> io::Result<()> {
    report(out, lines, "beq   ", Binary::Eq, rv32_eq, LaneWord::eq)?;
    report(out, lines, "bne   ", Binary::Ne, rv32_ne, LaneWord::ne)?;
    report(out, lines, "blt   ", Binary::Slt, rv32_slt, LaneWord::slt)?;
    report(out, lines, "bge   ", Binary::Ge, rv32_ge, LaneWord::ge)?;
    report(
        out,
        lines,
        "bltu  ",
        Binary::Sltu,
        rv32_sltu,
        LaneWord::sltu,
    )?;
    report(out, lines, "bgeu  ", Binary::Geu, rv32_geu, LaneWord::geu)
}

fn registers(out: &impl Print, lines: &[[u8; LINE]]) -> io::Result<()> {
    report(out, lines, "add   ", Binary::Add, rv32_add, LaneWord::add)?;
    report(out, lines, "sub   ", Binary::Sub, rv32_sub, LaneWord::sub)?;
    report(out, lines, "sll   ", Binary::Sll, rv32_sll, LaneWord::sll)?;
    report(out, lines, "slt   ", Binary::Slt, rv32_slt, LaneWord::slt)?;
    report(
        out,
        lines,
        "sltu  ",
        Binary::Sltu,
        rv32_sltu,
        LaneWord::sltu,
    )?;
    report(out, lines, "xor   ", Binary::Xor, rv32_xor, LaneWord::xor)?;
    report(out, lines, "srl   ", Binary::Srl, rv32_srl, LaneWord::srl)?;
    report(out, lines, "sra   ", Binary::Sra, rv32_sra, LaneWord::sra)?;
    report(out, lines, "or    ", Binary::Or, rv32_or, LaneWord::or)?;
    report(out, lines, "and   ", Binary::And, rv32_and, LaneWord::and)
}

fn products(out: &impl Print, lines: &[[u8; LINE]]) -> io::Result<()> {
    report(out, lines, "mul   ", Binary::Mul, rv32_mul, LaneWord::mul)?;
    report(
        out,
        lines,
        "mulh  ",
        Binary::Mulh,
        rv32_mulh,
        LaneWord::mulh,
    )?;
    report(
        out,
        lines,
        "mulhsu",
        Binary::Mulhsu,
        rv32_mulhsu,
        LaneWord::mulhsu,
    )?;
    report(
        out,
        lines,
        "mulhu ",
        Binary::Mulhu,
        rv32_mulhu,
        LaneWord::mulhu,
    )?;
    report(out, lines, "div   ", Binary::Div, rv32_div, LaneWord::div)?;
    report(
        out,
        lines,
        "divu  ",
        Binary::Divu,
        rv32_divu,
        LaneWord::divu,
    )?;
    report(out, lines, "rem   ", Binary::Rem, rv32_rem, LaneWord::rem)?;
    report(
        out,
        lines,
        "remu  ",
        Binary::Remu,
        rv32_remu,
        LaneWord::remu,
    )
}

fn main(rt: HostRuntime) -> io::Result<()> {
    let mut buffer = [0u8; 65_536];
    let count = read_full(&mut rt.stdin(), &mut buffer)?;
    let (lines, _) = buffer[..count].as_chunks::<LINE>();
    immediates(&rt, lines)?;
    branches(&rt, lines)?;
    registers(&rt, lines)?;
    products(&rt, lines)
}
