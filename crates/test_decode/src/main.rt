// Runs `decode` on the words of the list on standard input, which oracle/words makes, and compares number and operands.
#![tactic(auto)]

use riscv_decode::{BType, IType, JType, Operation, RType, SType, ShiftType, UType};
use std::io;
use std::io::Read;
use test_support::ListReader;

// Operands, 0 where there is none.
#[derive(Clone, Copy, Default, PartialEq, Eq)]
struct Operands {
    rd: u32,
    rs1: u32,
    rs2: u32,
    imm: u32,
}

impl From<UType> for Operands {
    fn from(v: UType) -> Operands {
        Operands {
            rd: v.rd,
            imm: v.imm,
            ..Operands::default()
        }
    }
}

impl From<JType> for Operands {
    fn from(v: JType) -> Operands {
        Operands {
            rd: v.rd,
            imm: v.imm,
            ..Operands::default()
        }
    }
}

impl From<IType> for Operands {
    fn from(v: IType) -> Operands {
        Operands {
            rd: v.rd,
            rs1: v.rs1,
            imm: v.imm,
            ..Operands::default()
        }
    }
}

impl From<BType> for Operands {
    fn from(v: BType) -> Operands {
        Operands {
            rs1: v.rs1,
            rs2: v.rs2,
            imm: v.imm,
            ..Operands::default()
        }
    }
}

impl From<SType> for Operands {
    fn from(v: SType) -> Operands {
        Operands {
            rs1: v.rs1,
            rs2: v.rs2,
            imm: v.imm,
            ..Operands::default()
        }
    }
}

impl From<ShiftType> for Operands {
    fn from(v: ShiftType) -> Operands {
        Operands {
            rd: v.rd,
            rs1: v.rs1,
            imm: v.shamt,
            ..Operands::default()
        }
    }
}

impl From<RType> for Operands {
    fn from(v: RType) -> Operands {
        Operands {
            rd: v.rd,
            rs1: v.rs1,
            rs2: v.rs2,
            ..Operands::default()
        }
    }
}

// What the list says of a word: the operation's number, 0 where the word is refused, and the operands.
#[derive(Clone, Copy, Default, PartialEq, Eq)]
struct Entry {
    number: u32,
    operands: Operands,
}

fn numbered(number: u32, operands: impl Into<Operands> + Drop) -> Entry {
    Entry {
        number,
        operands: operands.into(),
    }
}

// The operations of two registers, and the fences.
fn of_registers(operation: Operation) -> Entry {
    match operation {
        Operation::Add(v) => numbered(28, v),
        Operation::Sub(v) => numbered(29, v),
        Operation::Sll(v) => numbered(30, v),
        Operation::Slt(v) => numbered(31, v),
        Operation::Sltu(v) => numbered(32, v),
        Operation::Xor(v) => numbered(33, v),
        Operation::Srl(v) => numbered(34, v),
        Operation::Sra(v) => numbered(35, v),
        Operation::Or(v) => numbered(36, v),
        Operation::And(v) => numbered(37, v),
        Operation::Mul(v) => numbered(38, v),
        Operation::Div(v) => numbered(39, v),
        Operation::Divu(v) => numbered(40, v),
        Operation::Rem(v) => numbered(41, v),
        Operation::Remu(v) => numbered(42, v),
        Operation::Mulh(v) => numbered(45, v),
        Operation::Mulhsu(v) => numbered(46, v),
        Operation::Mulhu(v) => numbered(47, v),
        Operation::Fence => numbered(43, Operands::default()),
        _ => numbered(44, Operands::default()),
    }
}

fn of_operation(operation: Operation) -> Entry {
    match operation {
        Operation::Lui(v) => numbered(1, v),
        Operation::Auipc(v) => numbered(2, v),
        Operation::Jal(v) => numbered(3, v),
        Operation::Jalr(v) => numbered(4, v),
        Operation::Beq(v) => numbered(5, v),
        Operation::Bne(v) => numbered(6, v),
        Operation::Blt(v) => numbered(7, v),
        Operation::Bge(v) => numbered(8, v),
        Operation::Bltu(v) => numbered(9, v),
        Operation::Bgeu(v) => numbered(10, v),
        Operation::Lb(v) => numbered(11, v),
        Operation::Lh(v) => numbered(12, v),
        Operation::Lw(v) => numbered(13, v),
        Operation::Lbu(v) => numbered(14, v),
        Operation::Lhu(v) => numbered(15, v),
        Operation::Sb(v) => numbered(16, v),
        Operation::Sh(v) => numbered(17, v),
        Operation::Sw(v) => numbered(18, v),
        Operation::Addi(v) => numbered(19, v),
        Operation::Slti(v) => numbered(20, v),
        Operation::Sltiu(v) => numbered(21, v),
        Operation::Xori(v) => numbered(22, v),
        Operation::Ori(v) => numbered(23, v),
        Operation::Andi(v) => numbered(24, v),
        Operation::Slli(v) => numbered(25, v),
        Operation::Srli(v) => numbered(26, v),
        Operation::Srai(v) => numbered(27, v),
        _ => of_registers(operation),
    }
}

fn next_entry<R: Read>(list: &mut ListReader<R>) -> io::Result<Entry> {
    let number = list.number()?;
    let rd = list.number()?;
    let rs1 = list.number()?;
    let rs2 = list.number()?;
    let imm = list.number()?;
    let operands = Operands { rd, rs1, rs2, imm };
    Ok(Entry { number, operands })
}

fn main(rt: HostRuntime) -> io::Result<()> {
    let mut list = ListReader { reader: rt.stdin() };
    let words = list.number()?;
    let mut refused = 0u32;
    let mut differing = 0u32;
    for _ in 0..words {
        let found = riscv_decode::decode(list.number()?);
        refused += u32::from(found.is_none());
        let listed = next_entry(&mut list)?;
        differing += u32::from(found.map_or(Entry::default(), of_operation) != listed);
    }
    println!(rt;
        "{} words decoded, {refused} refused, {differing} differ from the list",
        words - refused
    )
}
