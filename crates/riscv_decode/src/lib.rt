// The 32-bit words of the instruction set: the operations, the table that tells them apart, and the decoder.
#![tactic(auto)]

ghost use Rattle.std.specs.Prelude.{◌≡◌};
ghost use Rattle.riscv_decode.specs.Decode.{decode_with, decode_of};

pub mod operands;
mod operations;
pub mod rows;

use operations::operation_of;
use rows::{Table, find_row, find_standing_row};

// How many operations are accepted.
pub const OPERATIONS: usize = 47;

// Operands, a struct for each of the manual's formats; immediates are sign-extended to 32 bits.
#[derive(Clone, Copy)]
pub struct UType {
    pub rd: u32,
    pub imm: u32,
}

#[derive(Clone, Copy)]
pub struct JType {
    pub rd: u32,
    pub imm: u32,
}

#[derive(Clone, Copy)]
pub struct IType {
    pub rd: u32,
    pub rs1: u32,
    pub imm: u32,
}

#[derive(Clone, Copy)]
pub struct BType {
    pub rs1: u32,
    pub rs2: u32,
    pub imm: u32,
}

#[derive(Clone, Copy)]
pub struct SType {
    pub rs1: u32,
    pub rs2: u32,
    pub imm: u32,
}

#[derive(Clone, Copy)]
pub struct ShiftType {
    pub rd: u32,
    pub rs1: u32,
    pub shamt: u32,
}

#[derive(Clone, Copy)]
pub struct RType {
    pub rd: u32,
    pub rs1: u32,
    pub rs2: u32,
}

// The accepted operations in the order of their numbers, from 1 on, each with its operands.
#[derive(Clone, Copy)]
pub enum Operation {
    Lui(UType),
    Auipc(UType),
    Jal(JType),
    Jalr(IType),
    Beq(BType),
    Bne(BType),
    Blt(BType),
    Bge(BType),
    Bltu(BType),
    Bgeu(BType),
    Lb(IType),
    Lh(IType),
    Lw(IType),
    Lbu(IType),
    Lhu(IType),
    Sb(SType),
    Sh(SType),
    Sw(SType),
    Addi(IType),
    Slti(IType),
    Sltiu(IType),
    Xori(IType),
    Ori(IType),
    Andi(IType),
    Slli(ShiftType),
    Srli(ShiftType),
    Srai(ShiftType),
    Add(RType),
    Sub(RType),
    Sll(RType),
    Slt(RType),
    Sltu(RType),
    Xor(RType),
    Srl(RType),
    Sra(RType),
    Or(RType),
    And(RType),
    Mul(RType),
    Div(RType),
    Divu(RType),
    Rem(RType),
    Remu(RType),
    Fence,
    FenceI,
    Mulh(RType),
    Mulhsu(RType),
    Mulhu(RType),
}

// A fetched instruction; the word is the one after expansion, the length that of its spelling, 2 or 4 bytes.
#[derive(Clone, Copy)]
pub struct Fetched {
    pub operation: Operation,
    pub length: u32,
    pub word: u32,
}

// A row of a decoding table: mask, match and operation number, in a tuple, so that the table has one row to a line. A number, since an operation has
// operands, which only a word gives.
#[derive(Clone, Copy)]
pub struct Row(pub u32, pub u32, pub u32);

// The operation of a word by a table; a word that matches no row is refused.
#[tactic(auto, unfolding(crate::specs::Decode::decode_with))]
pub fn decode_with(rows: Table, word: u32) -> Option<Operation>
    ensures { result ≡ decode_with rows word }
{
    operation_of(find_row(rows, word)?.2, word)
}

// The operation of a word by the standing table.
#[tactic(auto, unfolding(crate::specs::Decode::decode_of, crate::specs::Decode::decode_with))]
pub fn decode(word: u32) -> Option<Operation>
    ensures { result ≡ decode_of word }
{
    operation_of(find_standing_row(word)?.2, word)
}
