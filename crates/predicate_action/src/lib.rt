// What an operation does at a program counter, as one of nine forms, and what a form reads.
#![tactic(auto)]

ghost use Rattle.std.specs.Prelude.{◌≡◌};
ghost use Rattle.rv32_arithmetic.specs.Arithmetic.{add};
ghost use Rattle.predicate_action.specs.Meaning.{meaning};
ghost use Rattle.predicate_action.specs.Reading.{of_sources, with_number, reading_of};

use riscv_decode::{BType, IType, Operation, RType, SType, ShiftType};
use rv32_arithmetic::{Binary, rv32_add};

// How a load fills the word.
#[derive(Clone, Copy)]
pub enum Extension {
    Byte,
    Halfword,
    Unchanged,
}

// The forms. But for jumps and branches, the next program counter is that of the following instruction.
#[derive(Clone, Copy)]
pub enum Action {
    Nothing,
    // rd becomes a number.
    Literal {
        rd: u32,
        value: u32,
    },
    // rd becomes a function of two registers.
    Compute {
        rd: u32,
        function: Binary,
        rs1: u32,
        rs2: u32,
    },
    // rd becomes a function of a register and a number.
    ComputeImmediate {
        rd: u32,
        function: Binary,
        rs1: u32,
        immediate: u32,
    },
    // rd becomes the following instruction's address, and the target is next.
    Jump {
        rd: u32,
        target: u32,
    },
    // The same, to the target by a register and an offset.
    JumpTo {
        rd: u32,
        rs1: u32,
        offset: u32,
    },
    // The target is next where the test gives 1, the following instruction where it gives 0.
    Branch {
        test: Binary,
        rs1: u32,
        rs2: u32,
        target: u32,
    },
    // rd becomes the bytes at rs1 + offset, extended.
    Load {
        rd: u32,
        rs1: u32,
        offset: u32,
        width: u32,
        extension: Extension,
    },
    // The low bytes of rs2 go to rs1 + offset.
    Store {
        rs1: u32,
        rs2: u32,
        offset: u32,
        width: u32,
    },
}

// The forms of operations that differ in their function alone. Each takes another format to another form, or, as the two
// formats with a number, reads it from a field of another name.
fn branch_of(test: Binary, v: BType, pc: u32) -> Action
    ensures { result ≡ Action.Branch test v.rs1 v.rs2 (add pc v.imm) }
{
    Action::Branch {
        test,
        rs1: v.rs1,
        rs2: v.rs2,
        target: rv32_add(pc, v.imm),
    }
}

fn load_of(v: IType, width: u32, extension: Extension) -> Action
    ensures { result ≡ Action.Load v.rd v.rs1 v.imm width extension }
{
    Action::Load {
        rd: v.rd,
        rs1: v.rs1,
        offset: v.imm,
        width,
        extension,
    }
}

fn store_of(v: SType, width: u32) -> Action
    ensures { result ≡ Action.Store v.rs1 v.rs2 v.imm width }
{
    Action::Store {
        rs1: v.rs1,
        rs2: v.rs2,
        offset: v.imm,
        width,
    }
}

fn immediate_of(function: Binary, v: IType) -> Action
    ensures { result ≡ Action.ComputeImmediate v.rd function v.rs1 v.imm }
{
    Action::ComputeImmediate {
        rd: v.rd,
        function,
        rs1: v.rs1,
        immediate: v.imm,
    }
}

fn shift_of(function: Binary, v: ShiftType) -> Action
    ensures { result ≡ Action.ComputeImmediate v.rd function v.rs1 v.shamt }
{
    Action::ComputeImmediate {
        rd: v.rd,
        function,
        rs1: v.rs1,
        immediate: v.shamt,
    }
}

fn compute_of(function: Binary, v: RType) -> Action
    ensures { result ≡ Action.Compute v.rd function v.rs1 v.rs2 }
{
    Action::Compute {
        rd: v.rd,
        function,
        rs1: v.rs1,
        rs2: v.rs2,
    }
}

// The operation at a program counter. One `match` with an arm for each operation, longer than other functions, since two
// halves would first have to tell the operations apart.
#[tactic(auto, unfolding(crate::specs::Meaning::meaning))]
pub fn action_of(operation: Operation, pc: u32) -> Action
    ensures { result ≡ meaning operation pc }
{
    match operation {
        Operation::Lui(v) => Action::Literal {
            rd: v.rd,
            value: v.imm,
        },
        Operation::Auipc(v) => Action::Literal {
            rd: v.rd,
            value: rv32_add(pc, v.imm),
        },
        Operation::Jal(v) => Action::Jump {
            rd: v.rd,
            target: rv32_add(pc, v.imm),
        },
        Operation::Jalr(v) => Action::JumpTo {
            rd: v.rd,
            rs1: v.rs1,
            offset: v.imm,
        },
        Operation::Beq(v) => branch_of(Binary::Eq, v, pc),
        Operation::Bne(v) => branch_of(Binary::Ne, v, pc),
        Operation::Blt(v) => branch_of(Binary::Slt, v, pc),
        Operation::Bge(v) => branch_of(Binary::Ge, v, pc),
        Operation::Bltu(v) => branch_of(Binary::Sltu, v, pc),
        Operation::Bgeu(v) => branch_of(Binary::Geu, v, pc),
        Operation::Lb(v) => load_of(v, 1, Extension::Byte),
        Operation::Lh(v) => load_of(v, 2, Extension::Halfword),
        Operation::Lw(v) => load_of(v, 4, Extension::Unchanged),
        Operation::Lbu(v) => load_of(v, 1, Extension::Unchanged),
        Operation::Lhu(v) => load_of(v, 2, Extension::Unchanged),
        Operation::Sb(v) => store_of(v, 1),
        Operation::Sh(v) => store_of(v, 2),
        Operation::Sw(v) => store_of(v, 4),
        Operation::Addi(v) => immediate_of(Binary::Add, v),
        Operation::Slti(v) => immediate_of(Binary::Slt, v),
        Operation::Sltiu(v) => immediate_of(Binary::Sltu, v),
        Operation::Xori(v) => immediate_of(Binary::Xor, v),
        Operation::Ori(v) => immediate_of(Binary::Or, v),
        Operation::Andi(v) => immediate_of(Binary::And, v),
        Operation::Slli(v) => shift_of(Binary::Sll, v),
        Operation::Srli(v) => shift_of(Binary::Srl, v),
        Operation::Srai(v) => shift_of(Binary::Sra, v),
        Operation::Add(v) => compute_of(Binary::Add, v),
        Operation::Sub(v) => compute_of(Binary::Sub, v),
        Operation::Sll(v) => compute_of(Binary::Sll, v),
        Operation::Slt(v) => compute_of(Binary::Slt, v),
        Operation::Sltu(v) => compute_of(Binary::Sltu, v),
        Operation::Xor(v) => compute_of(Binary::Xor, v),
        Operation::Srl(v) => compute_of(Binary::Srl, v),
        Operation::Sra(v) => compute_of(Binary::Sra, v),
        Operation::Or(v) => compute_of(Binary::Or, v),
        Operation::And(v) => compute_of(Binary::And, v),
        Operation::Mul(v) => compute_of(Binary::Mul, v),
        Operation::Div(v) => compute_of(Binary::Div, v),
        Operation::Divu(v) => compute_of(Binary::Divu, v),
        Operation::Rem(v) => compute_of(Binary::Rem, v),
        Operation::Remu(v) => compute_of(Binary::Remu, v),
        Operation::Fence => Action::Nothing,
        Operation::FenceI => Action::Nothing,
        Operation::Mulh(v) => compute_of(Binary::Mulh, v),
        Operation::Mulhsu(v) => compute_of(Binary::Mulhsu, v),
        Operation::Mulhu(v) => compute_of(Binary::Mulhu, v),
    }
}

// What an action reads: the registers that are its sources, and a function of the first and a second operand, which is one number, and
// else the second source.
#[derive(Clone, Copy)]
pub struct Reading {
    pub rs1: u32,
    pub rs2: u32,
    pub function: Binary,
    pub immediate: Option<u32>,
}

fn of_sources(function: Binary, rs1: u32, rs2: u32) -> Reading
    ensures { result ≡ of_sources function rs1 rs2 }
{
    Reading {
        rs1,
        rs2,
        function,
        immediate: None,
    }
}

fn with_number(function: Binary, rs1: u32, rs2: u32, operand: u32) -> Reading
    ensures { result ≡ with_number function rs1 rs2 operand }
{
    Reading {
        rs1,
        rs2,
        function,
        immediate: Some(operand),
    }
}

// A result, a branch's test, a jump's target or an address; 0 for a source that there is not.
pub fn reading_of(action: Action) -> Reading
    ensures { result ≡ reading_of action }
{
    match action {
        Action::Nothing => with_number(Binary::Add, 0, 0, 0),
        Action::Literal { .. } => with_number(Binary::Add, 0, 0, 0),
        Action::Compute {
            function,
            rs1,
            rs2,
            ..
        } => of_sources(function, rs1, rs2),
        Action::ComputeImmediate {
            function,
            rs1,
            immediate,
            ..
        } => with_number(function, rs1, 0, immediate),
        Action::Jump { .. } => with_number(Binary::Add, 0, 0, 0),
        Action::JumpTo { rs1, offset, .. } => with_number(Binary::Target, rs1, 0, offset),
        Action::Branch { test, rs1, rs2, .. } => of_sources(test, rs1, rs2),
        Action::Load { rs1, offset, .. } => with_number(Binary::Add, rs1, 0, offset),
        Action::Store {
            rs1,
            rs2,
            offset,
            ..
        } => with_number(Binary::Add, rs1, rs2, offset),
    }
}
