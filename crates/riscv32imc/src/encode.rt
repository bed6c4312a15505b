// Words from their fields, in the six instruction formats.
ghost use Rattle.std.specs.Prelude.{◌≡◌, ◌<◌, ◌^◌};
ghost use Rattle.riscv32imc.specs.Formats.{encode_i, encode_r, encode_s, encode_b, encode_u, encode_j};

// A field of so many bits.
#[derive(Clone, Copy)]
pub struct Field<const BITS: u32> {
    pub number: u32,
    ghost fits: { number < 2 ^ BITS },
}

pub type Opcode = Field<7>;

pub type Funct3 = Field<3>;

pub type Funct7 = Field<7>;

pub type Register = Field<5>;

// The opcodes of expansions, but for those that a format fixes.
pub const LOAD: Opcode = Field { number: 0x03 };

pub const OP_IMM: Opcode = Field { number: 0x13 };

pub const LUI: Opcode = Field { number: 0x37 };

pub const JALR: Opcode = Field { number: 0x67 };

// Operations by funct3: of arithmetic, of loads and stores, of branches, and of JALR.
pub const ADD: Funct3 = Field { number: 0 };

pub const SHIFT_LEFT: Funct3 = Field { number: 1 };

pub const XOR: Funct3 = Field { number: 4 };

pub const SHIFT_RIGHT: Funct3 = Field { number: 5 };

pub const OR: Funct3 = Field { number: 6 };

pub const AND: Funct3 = Field { number: 7 };

pub const WORD: Funct3 = Field { number: 2 };

pub const EQUAL: Funct3 = Field { number: 0 };

pub const NOT_EQUAL: Funct3 = Field { number: 1 };

pub const JUMP: Funct3 = Field { number: 0 };

// .. and by funct7, which tells SUB from ADD and SRA from SRL.
pub const BASE: Funct7 = Field { number: 0 };

pub const ALTERNATE: Funct7 = Field { number: 0x20 };

// x0, x1 and x2, by their use.
pub const ZERO: Register = Field { number: 0 };

pub const LINK: Register = Field { number: 1 };

pub const STACK: Register = Field { number: 2 };

pub fn encode_i(opcode: Opcode, funct3: Funct3, rd: Register, rs1: Register, imm: u32) -> u32
    ensures { result ≡ encode_i opcode.number funct3.number rd.number rs1.number imm }
{
    imm % 4096 * 0x10_0000
        + rs1.number * 0x8000
        + funct3.number * 0x1000
        + rd.number * 128
        + opcode.number
}

pub fn encode_r(funct7: Funct7, funct3: Funct3, rd: Register, rs1: Register, rs2: Register) -> u32
    ensures { result ≡ encode_r funct7.number funct3.number rd.number rs1.number rs2.number }
{
    funct7.number * 0x200_0000
        + rs2.number * 0x10_0000
        + rs1.number * 0x8000
        + funct3.number * 0x1000
        + rd.number * 128
        + 0x33
}

pub fn encode_s(funct3: Funct3, rs1: Register, rs2: Register, imm: u32) -> u32
    ensures { result ≡ encode_s funct3.number rs1.number rs2.number imm }
{
    imm / 32 % 128 * 0x200_0000
        + rs2.number * 0x10_0000
        + rs1.number * 0x8000
        + funct3.number * 0x1000
        + imm % 32 * 128
        + 0x23
}

pub fn encode_b(funct3: Funct3, rs1: Register, rs2: Register, imm: u32) -> u32
    ensures { result ≡ encode_b funct3.number rs1.number rs2.number imm }
{
    imm / 4096 % 2 * 0x8000_0000
        + imm / 32 % 64 * 0x200_0000
        + rs2.number * 0x10_0000
        + rs1.number * 0x8000
        + funct3.number * 0x1000
        + imm / 2 % 16 * 256
        + imm / 2048 % 2 * 128
        + 0x63
}

pub fn encode_u(opcode: Opcode, rd: Register, imm: u32) -> u32
    ensures { result ≡ encode_u opcode.number rd.number imm }
{
    imm / 4096 % 0x10_0000 * 4096 + rd.number * 128 + opcode.number
}

pub fn encode_j(rd: Register, imm: u32) -> u32
    ensures { result ≡ encode_j rd.number imm }
{
    imm / 0x10_0000 % 2 * 0x8000_0000
        + imm / 2 % 1024 * 0x20_0000
        + imm / 2048 % 2 * 0x10_0000
        + imm / 4096 % 256 * 4096
        + rd.number * 128
        + 0x6f
}
