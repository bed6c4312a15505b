// The operation of a number.
ghost use Rattle.std.specs.Prelude.{◌≡◌, ◌≤◌, Some};
ghost use Rattle.riscv_decode.specs.Decode.{operation_of};

use crate::Operation;
use crate::operands::{b_type, i_type, j_type, r_type, s_type, shift_type, u_type};

// Jumps, branches, loads and stores, and what puts an address together.
#[tactic(auto, unfolding(crate::specs::Decode::operation_of, crate::specs::Listing::listing, crate::specs::Listing::operation))]
fn transfer_of(number: u32, word: u32) -> Operation
    requires { (1 ≤ number) × (number ≤ 18) }
    ensures { Some result ≡ operation_of number word }
{
    match number {
        1 => Operation::Lui(u_type(word)),
        2 => Operation::Auipc(u_type(word)),
        3 => Operation::Jal(j_type(word)),
        4 => Operation::Jalr(i_type(word)),
        5 => Operation::Beq(b_type(word)),
        6 => Operation::Bne(b_type(word)),
        7 => Operation::Blt(b_type(word)),
        8 => Operation::Bge(b_type(word)),
        9 => Operation::Bltu(b_type(word)),
        10 => Operation::Bgeu(b_type(word)),
        11 => Operation::Lb(i_type(word)),
        12 => Operation::Lh(i_type(word)),
        13 => Operation::Lw(i_type(word)),
        14 => Operation::Lbu(i_type(word)),
        15 => Operation::Lhu(i_type(word)),
        16 => Operation::Sb(s_type(word)),
        17 => Operation::Sh(s_type(word)),
        _ => Operation::Sw(s_type(word)),
    }
}

// What computes, and the fences. A number that is not here nor in `transfer_of` names none.
#[tactic(auto, unfolding(crate::specs::Decode::operation_of, crate::specs::Listing::listing, crate::specs::Listing::operation))]
fn computing_of(number: u32, word: u32) -> Option<Operation>
    requires { 1 ≤ number → 19 ≤ number }
    ensures { result ≡ operation_of number word }
{
    match number {
        19 => Some(Operation::Addi(i_type(word))),
        20 => Some(Operation::Slti(i_type(word))),
        21 => Some(Operation::Sltiu(i_type(word))),
        22 => Some(Operation::Xori(i_type(word))),
        23 => Some(Operation::Ori(i_type(word))),
        24 => Some(Operation::Andi(i_type(word))),
        25 => Some(Operation::Slli(shift_type(word))),
        26 => Some(Operation::Srli(shift_type(word))),
        27 => Some(Operation::Srai(shift_type(word))),
        28 => Some(Operation::Add(r_type(word))),
        29 => Some(Operation::Sub(r_type(word))),
        30 => Some(Operation::Sll(r_type(word))),
        31 => Some(Operation::Slt(r_type(word))),
        32 => Some(Operation::Sltu(r_type(word))),
        33 => Some(Operation::Xor(r_type(word))),
        34 => Some(Operation::Srl(r_type(word))),
        35 => Some(Operation::Sra(r_type(word))),
        36 => Some(Operation::Or(r_type(word))),
        37 => Some(Operation::And(r_type(word))),
        38 => Some(Operation::Mul(r_type(word))),
        39 => Some(Operation::Div(r_type(word))),
        40 => Some(Operation::Divu(r_type(word))),
        41 => Some(Operation::Rem(r_type(word))),
        42 => Some(Operation::Remu(r_type(word))),
        43 => Some(Operation::Fence),
        44 => Some(Operation::FenceI),
        45 => Some(Operation::Mulh(r_type(word))),
        46 => Some(Operation::Mulhsu(r_type(word))),
        47 => Some(Operation::Mulhu(r_type(word))),
        _ => None,
    }
}

// The operation of a number, with the operands that the word has in its format; 0 and what is above the last have none.
// In two parts, as one `match` would be too long a function.
pub fn operation_of(number: u32, word: u32) -> Option<Operation>
    ensures { result ≡ operation_of number word }
{
    match number {
        1..=18 => Some(transfer_of(number, word)),
        _ => computing_of(number, word),
    }
}
