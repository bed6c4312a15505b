// The expansion of compressed instructions. A field [high:low] is read as h / 2^low % 2^width, the shape of its definition.
ghost use Rattle.std.specs.Prelude.{◌≡◌, ◌+◌, ◌^◌, ◌<◌, ◌≤◌};
ghost use Rattle.riscv32imc.specs.Expansion.{place, expand, rd, rs2, rs1', rs2'};
ghost use Rattle.riscv32imc.specs.Expansion.{addi4spn_imm, cAddi4spn, lw_offset, cLw, cSw, quadrant0};
ghost use Rattle.riscv32imc.specs.Expansion.{addi_imm, cAddi, jOffset, cJump, cLi, addi16sp_imm, cAddi16sp, lui_imm, cLui};
ghost use Rattle.riscv32imc.specs.Expansion.{cShift, cAndi, cOperation, cOperations, cArithmetic, beqz_offset, cBranch, quadrant1};
ghost use Rattle.riscv32imc.specs.Expansion.{cSlli, lwsp_offset, cLwsp, cRegisters, swsp_offset, cSwsp, quadrant2};

use crate::encode::{
    ADD, ALTERNATE, AND, BASE, EQUAL, Field, Funct3, Funct7, JALR, JUMP, LINK, LOAD, LUI,
    NOT_EQUAL, OP_IMM, OR, Register, SHIFT_LEFT, SHIFT_RIGHT, STACK, WORD, XOR, ZERO, encode_b,
    encode_i, encode_j, encode_r, encode_s, encode_u,
};
use rv32_arithmetic::sign_extend;

// Bits `high` down to `low` of a halfword, as the bits of an immediate from `destination` up; no immediate has more than 18.
fn bits(value: u32, high: u32, low: u32, destination: u32) -> u32
    requires { (low ≤ high) × (high < 16) × (high + destination < low + 18) }
    ensures { (result ≡ place value high low destination) × (result < 2 ^ 18) }
{
    (value >> low) % (1u32 << (high + 1 - low)) << destination
}

// One bit of a halfword, likewise.
fn bit(value: u32, source: u32, destination: u32) -> u32
    requires { (source < 16) × (destination < 18) }
    ensures { (result ≡ place value source source destination) × (result < 2 ^ 18) }
{
    bits(value, source, source, destination)
}

fn addi4spn_imm(h: u32) -> u32
    ensures { result ≡ addi4spn_imm h }
{
    bits(h, 12, 11, 4) + bits(h, 10, 7, 6) + bit(h, 6, 2) + bit(h, 5, 3)
}

fn lw_offset(h: u32) -> u32
    ensures { result ≡ lw_offset h }
{
    bits(h, 12, 10, 3) + bit(h, 6, 2) + bit(h, 5, 6)
}

fn addi_imm(h: u32) -> u32
    ensures { result ≡ addi_imm h }
{
    bit(h, 12, 5) + bits(h, 6, 2, 0)
}

fn j_offset(h: u32) -> u32
    ensures { result ≡ jOffset h }
{
    bit(h, 12, 11)
        + bit(h, 11, 4)
        + bits(h, 10, 9, 8)
        + bit(h, 8, 10)
        + bit(h, 7, 6)
        + bit(h, 6, 7)
        + bits(h, 5, 3, 1)
        + bit(h, 2, 5)
}

fn addi16sp_imm(h: u32) -> u32
    ensures { result ≡ addi16sp_imm h }
{
    bit(h, 12, 9) + bit(h, 6, 4) + bit(h, 5, 6) + bits(h, 4, 3, 7) + bit(h, 2, 5)
}

fn lui_imm(h: u32) -> u32
    ensures { result ≡ lui_imm h }
{
    bit(h, 12, 17) + bits(h, 6, 2, 12)
}

fn beqz_offset(h: u32) -> u32
    ensures { result ≡ beqz_offset h }
{
    bit(h, 12, 8) + bits(h, 11, 10, 3) + bits(h, 6, 5, 6) + bits(h, 4, 3, 1) + bit(h, 2, 5)
}

fn lwsp_offset(h: u32) -> u32
    ensures { result ≡ lwsp_offset h }
{
    bit(h, 12, 5) + bits(h, 6, 4, 2) + bits(h, 3, 2, 6)
}

fn swsp_offset(h: u32) -> u32
    ensures { result ≡ swsp_offset h }
{
    bits(h, 12, 9, 2) + bits(h, 8, 7, 6)
}

// A halfword's registers: x0 to x31 by five bits, x8 to x15 by three.
fn rd(h: u32) -> Register
    ensures { result.number ≡ rd h }
{
    Field {
        number: h / 128 % 32,
    }
}

fn rs2(h: u32) -> Register
    ensures { result.number ≡ rs2 h }
{
    Field { number: h / 4 % 32 }
}

fn short_rs1(h: u32) -> Register
    ensures { result.number ≡ rs1' h }
{
    Field {
        number: h / 128 % 8 + 8,
    }
}

fn short_rs2(h: u32) -> Register
    ensures { result.number ≡ rs2' h }
{
    Field {
        number: h / 4 % 8 + 8,
    }
}

#[tactic(auto, unfolding(crate::specs::Expansion::cAddi4spn))]
fn c_addi4spn(h: u32) -> Option<u32>
    ensures { result ≡ cAddi4spn h }
{
    let imm = addi4spn_imm(h);
    (imm != 0).then_some(encode_i(OP_IMM, ADD, short_rs2(h), STACK, imm))
}

fn c_lw(h: u32) -> Option<u32>
    ensures { result ≡ cLw h }
{
    Some(encode_i(LOAD, WORD, short_rs2(h), short_rs1(h), lw_offset(h)))
}

fn c_sw(h: u32) -> Option<u32>
    ensures { result ≡ cSw h }
{
    Some(encode_s(WORD, short_rs1(h), short_rs2(h), lw_offset(h)))
}

#[tactic(auto, unfolding(crate::specs::Expansion::quadrant0))]
fn quadrant_0(h: u32) -> Option<u32>
    ensures { result ≡ quadrant0 h }
{
    match h / 8192 % 8 {
        0 => c_addi4spn(h),
        2 => c_lw(h),
        6 => c_sw(h),
        _ => None,
    }
}

// C.NOP, C.ADDI.
fn c_addi(h: u32) -> Option<u32>
    ensures { result ≡ cAddi h }
{
    let rd = rd(h);
    Some(encode_i(OP_IMM, ADD, rd, rd, sign_extend(addi_imm(h), 6)))
}

// C.JAL links x1, C.J links x0.
fn c_jump(link: Register, h: u32) -> Option<u32>
    ensures { result ≡ cJump link.number h }
{
    Some(encode_j(link, sign_extend(j_offset(h), 12)))
}

fn c_li(h: u32) -> Option<u32>
    ensures { result ≡ cLi h }
{
    let rd = rd(h);
    Some(encode_i(OP_IMM, ADD, rd, ZERO, sign_extend(addi_imm(h), 6)))
}

#[tactic(auto, unfolding(crate::specs::Expansion::cAddi16sp))]
fn c_addi16sp(h: u32) -> Option<u32>
    ensures { result ≡ cAddi16sp h }
{
    let imm = addi16sp_imm(h);
    (imm != 0).then_some(encode_i(OP_IMM, ADD, STACK, STACK, sign_extend(imm, 10)))
}

#[tactic(auto, unfolding(crate::specs::Expansion::cLui))]
fn c_lui(h: u32) -> Option<u32>
    ensures { result ≡ cLui h }
{
    let imm = lui_imm(h);
    (imm != 0).then_some(encode_u(LUI, rd(h), sign_extend(imm, 18)))
}

// C.SRLI with funct7 0, C.SRAI with 0x20.
#[tactic(auto, unfolding(crate::specs::Expansion::cShift))]
fn c_shift(funct7: Funct7, h: u32) -> Option<u32>
    ensures { result ≡ cShift funct7.number h }
{
    let rd = short_rs1(h);
    let amount = funct7.number * 32 + h / 4 % 32;
    let word = encode_i(OP_IMM, SHIFT_RIGHT, rd, rd, amount);
    (h / 4096 % 2 == 0).then_some(word)
}

fn c_andi(h: u32) -> Option<u32>
    ensures { result ≡ cAndi h }
{
    let rd = short_rs1(h);
    Some(encode_i(OP_IMM, AND, rd, rd, sign_extend(addi_imm(h), 6)))
}

// C.SUB, C.XOR, C.OR and C.AND, by the fields of the word.
fn c_operation(funct7: Funct7, base_funct3: Funct3, h: u32) -> Option<u32>
    ensures { result ≡ cOperation funct7.number base_funct3.number h }
{
    let rd = short_rs1(h);
    Some(encode_r(funct7, base_funct3, rd, rd, short_rs2(h)))
}

#[tactic(auto, unfolding(crate::specs::Expansion::cOperations))]
fn c_operations(h: u32) -> Option<u32>
    ensures { result ≡ cOperations h }
{
    match (h / 4096 % 2, h / 32 % 4) {
        (0, 0) => c_operation(ALTERNATE, ADD, h),
        (0, 1) => c_operation(BASE, XOR, h),
        (0, 2) => c_operation(BASE, OR, h),
        (0, _) => c_operation(BASE, AND, h),
        _ => None,
    }
}

#[tactic(auto, unfolding(crate::specs::Expansion::cArithmetic))]
fn c_arithmetic(h: u32) -> Option<u32>
    ensures { result ≡ cArithmetic h }
{
    match h / 1024 % 4 {
        0 => c_shift(BASE, h),
        1 => c_shift(ALTERNATE, h),
        2 => c_andi(h),
        _ => c_operations(h),
    }
}

// C.BEQZ, C.BNEZ.
fn c_branch(base_funct3: Funct3, h: u32) -> Option<u32>
    ensures { result ≡ cBranch base_funct3.number h }
{
    Some(encode_b(
        base_funct3,
        short_rs1(h),
        ZERO,
        sign_extend(beqz_offset(h), 9),
    ))
}

#[tactic(auto, unfolding(crate::specs::Expansion::quadrant1))]
fn quadrant_1(h: u32) -> Option<u32>
    ensures { result ≡ quadrant1 h }
{
    match h / 8192 % 8 {
        0 => c_addi(h),
        1 => c_jump(LINK, h),
        2 => c_li(h),
        3 if rd(h).number == 2 => c_addi16sp(h),
        3 => c_lui(h),
        4 => c_arithmetic(h),
        5 => c_jump(ZERO, h),
        6 => c_branch(EQUAL, h),
        _ => c_branch(NOT_EQUAL, h),
    }
}

#[tactic(auto, unfolding(crate::specs::Expansion::cSlli))]
fn c_slli(h: u32) -> Option<u32>
    ensures { result ≡ cSlli h }
{
    let rd = rd(h);
    (h / 4096 % 2 == 0).then_some(encode_i(OP_IMM, SHIFT_LEFT, rd, rd, h / 4 % 32))
}

#[tactic(auto, unfolding(crate::specs::Expansion::cLwsp))]
fn c_lwsp(h: u32) -> Option<u32>
    ensures { result ≡ cLwsp h }
{
    let rd = rd(h);
    (rd.number != 0).then_some(encode_i(LOAD, WORD, rd, STACK, lwsp_offset(h)))
}

// C.JR, C.MV, C.EBREAK, C.JALR, C.ADD.
#[tactic(auto, unfolding(crate::specs::Expansion::cRegisters))]
fn c_registers(h: u32) -> Option<u32>
    ensures { result ≡ cRegisters h }
{
    let rd = rd(h);
    let rs2 = rs2(h);
    match (h / 4096 % 2, rs2.number, rd.number) {
        (0, 0, 0) => None,
        (0, 0, _) => Some(encode_i(JALR, JUMP, ZERO, rd, 0)),
        (0, _, _) => Some(encode_r(BASE, ADD, rd, ZERO, rs2)),
        (_, 0, 0) => Some(0x0010_0073),
        (_, 0, _) => Some(encode_i(JALR, JUMP, LINK, rd, 0)),
        _ => Some(encode_r(BASE, ADD, rd, rd, rs2)),
    }
}

fn c_swsp(h: u32) -> Option<u32>
    ensures { result ≡ cSwsp h }
{
    Some(encode_s(WORD, STACK, rs2(h), swsp_offset(h)))
}

#[tactic(auto, unfolding(crate::specs::Expansion::quadrant2))]
fn quadrant_2(h: u32) -> Option<u32>
    ensures { result ≡ quadrant2 h }
{
    match h / 8192 % 8 {
        0 => c_slli(h),
        2 => c_lwsp(h),
        4 => c_registers(h),
        6 => c_swsp(h),
        _ => None,
    }
}

// The word that a halfword expands to, or that it is refused.
#[tactic(auto, unfolding(crate::specs::Expansion::expand))]
pub fn decompress(raw: u16) -> Option<u32>
    ensures { result ≡ expand raw }
{
    let h = u32::from(raw);
    match h % 4 {
        0 => quadrant_0(h),
        1 => quadrant_1(h),
        2 => quadrant_2(h),
        _ => None,
    }
}
