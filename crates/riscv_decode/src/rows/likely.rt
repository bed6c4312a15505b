// Guesses at the row that a word matches: a wrong one costs a scan and changes no answer. They name rows, since the
// table read at an index is copied first.
#![tactic(auto, using(crate::proofs::Apart::among_standing), unfolding(crate::specs::Rows::standing_rows, crate::specs::Rows::rows_from, crate::specs::Rows::mask_of, crate::specs::Rows::match_of, crate::specs::Listing::listing, crate::specs::Listing::fixed))]

ghost use Rattle.riscv_decode.specs.Rows.{Stands};

use super::{
    ADD, ADDI, AND, ANDI, AUIPC, BEQ, BGE, BGEU, BLT, BLTU, BNE, DIV, DIVU, FENCE, JAL, JALR, LB,
    LBU, LH, LHU, LUI, LW, MUL, MULH, MULHSU, MULHU, OR, ORI, REM, REMU, SB, SH, SLL, SLLI, SLT,
    SLTI, SLTIU, SLTU, SRA, SRAI, SRL, SRLI, SUB, SW, XOR, XORI,
};
use crate::Row;

fn likely_branch(funct3: u32) -> Row
    ensures { Stands result }
{
    match funct3 {
        0 => BEQ,
        1 => BNE,
        4 => BLT,
        5 => BGE,
        6 => BLTU,
        _ => BGEU,
    }
}

fn likely_load(funct3: u32) -> Row
    ensures { Stands result }
{
    match funct3 {
        0 => LB,
        1 => LH,
        2 => LW,
        4 => LBU,
        _ => LHU,
    }
}

fn likely_store(funct3: u32) -> Row
    ensures { Stands result }
{
    match funct3 {
        0 => SB,
        1 => SH,
        _ => SW,
    }
}

// Opcode 13; bit 30 tells SRAI from SRLI.
fn likely_immediate(funct3: u32, bit30: u32) -> Row
    ensures { Stands result }
{
    match funct3 {
        0 => ADDI,
        1 => SLLI,
        2 => SLTI,
        3 => SLTIU,
        4 => XORI,
        5 => match bit30 {
            0 => SRLI,
            _ => SRAI,
        },
        6 => ORI,
        _ => ANDI,
    }
}

// Opcode 33 with neither bit 25 nor bit 30.
fn likely_plain(funct3: u32) -> Row
    ensures { Stands result }
{
    match funct3 {
        0 => ADD,
        1 => SLL,
        2 => SLT,
        3 => SLTU,
        4 => XOR,
        5 => SRL,
        6 => OR,
        _ => AND,
    }
}

// Opcode 33; bit 25 tells the multiplications and divisions, bit 30 SUB and SRA.
fn likely_register(funct3: u32, bit25: u32, bit30: u32) -> Row
    ensures { Stands result }
{
    if bit25 == 1 {
        return match funct3 {
            0 => MUL,
            1 => MULH,
            2 => MULHSU,
            3 => MULHU,
            4 => DIV,
            5 => DIVU,
            6 => REM,
            _ => REMU,
        };
    }
    if bit30 == 1 {
        return match funct3 {
            0 => SUB,
            _ => SRA,
        };
    }
    likely_plain(funct3)
}

// By opcode, funct3, bit 25 and bit 30.
pub fn likely_row(word: u32) -> Row
    ensures { Stands result }
{
    let funct3 = word / 0x1000 % 8;
    let bit25 = word / 0x200_0000 % 2;
    let bit30 = word / 0x4000_0000 % 2;
    match word % 0x80 {
        0x37 => LUI,
        0x17 => AUIPC,
        0x6f => JAL,
        0x67 => JALR,
        0x63 => likely_branch(funct3),
        0x03 => likely_load(funct3),
        0x23 => likely_store(funct3),
        0x13 => likely_immediate(funct3, bit30),
        0x33 => likely_register(funct3, bit25, bit30),
        0x0f => FENCE,
        _ => LUI,
    }
}
