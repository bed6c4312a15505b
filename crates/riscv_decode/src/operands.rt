// The operands of a word, by format.
ghost use Rattle.std.specs.Prelude.{◌≡◌};
ghost use Rattle.riscv_decode.specs.Operands.{uType, jType, iType, bType, sType, shift_type, rType};

use crate::{BType, IType, JType, RType, SType, ShiftType, UType};
use rv32_arithmetic::sign_extend;

pub fn u_type(word: u32) -> UType
    ensures { result ≡ uType word }
{
    UType {
        rd: word / 0x80 % 32,
        imm: word / 0x1000 % 0x10_0000 * 0x1000,
    }
}

pub fn j_type(word: u32) -> JType
    ensures { result ≡ jType word }
{
    let imm = word / 0x8000_0000 % 2 * 0x10_0000
        + word / 0x1000 % 256 * 0x1000
        + word / 0x10_0000 % 2 * 0x800
        + word / 0x20_0000 % 1024 * 2;
    JType {
        rd: word / 0x80 % 32,
        imm: sign_extend(imm, 21),
    }
}

pub fn i_type(word: u32) -> IType
    ensures { result ≡ iType word }
{
    IType {
        rd: word / 0x80 % 32,
        rs1: word / 0x8000 % 32,
        imm: sign_extend(word / 0x10_0000 % 4096, 12),
    }
}

pub fn b_type(word: u32) -> BType
    ensures { result ≡ bType word }
{
    let imm = word / 0x8000_0000 % 2 * 0x1000
        + word / 0x80 % 2 * 0x800
        + word / 0x200_0000 % 64 * 0x20
        + word / 0x100 % 16 * 2;
    BType {
        rs1: word / 0x8000 % 32,
        rs2: word / 0x10_0000 % 32,
        imm: sign_extend(imm, 13),
    }
}

pub fn s_type(word: u32) -> SType
    ensures { result ≡ sType word }
{
    let imm = word / 0x200_0000 % 128 * 0x20 + word / 0x80 % 32;
    SType {
        rs1: word / 0x8000 % 32,
        rs2: word / 0x10_0000 % 32,
        imm: sign_extend(imm, 12),
    }
}

pub fn shift_type(word: u32) -> ShiftType
    ensures { result ≡ shift_type word }
{
    ShiftType {
        rd: word / 0x80 % 32,
        rs1: word / 0x8000 % 32,
        shamt: word / 0x10_0000 % 32,
    }
}

pub fn r_type(word: u32) -> RType
    ensures { result ≡ rType word }
{
    RType {
        rd: word / 0x80 % 32,
        rs1: word / 0x8000 % 32,
        rs2: word / 0x10_0000 % 32,
    }
}
