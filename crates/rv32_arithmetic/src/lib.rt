// The operations on single 32-bit values (the manual's RV32I and M chapters).
#![tactic(auto)]

ghost use Rattle.std.specs.Prelude.{◌≡◌};
ghost use Rattle.rv32_arithmetic.specs.Arithmetic.{add, sub, sll, srl, sra, slt, sltu, and, or, xor, mul, mulh, mulhsu, mulhu, div, divu, rem, remu, beq, bne, bge, bgeu, target};
ghost use Rattle.rv32_arithmetic.specs.Bits.{sign_extend, byte_of, join};
ghost use Rattle.rv32_arithmetic.specs.Correction.{correction};
ghost use Rattle.rv32_arithmetic.specs.Divisor.{power_of};
ghost use Rattle.rv32_arithmetic.specs.Value.{value_of};

pub fn rv32_add(a: u32, b: u32) -> u32
    ensures { result ≡ add a b }
{
    a.wrapping_add(b)
}

pub fn rv32_sub(a: u32, b: u32) -> u32
    ensures { result ≡ sub a b }
{
    a.wrapping_sub(b)
}

pub fn rv32_sll(a: u32, b: u32) -> u32
    ensures { result ≡ sll a b }
{
    a.wrapping_shl(b)
}

pub fn rv32_srl(a: u32, b: u32) -> u32
    ensures { result ≡ srl a b }
{
    a.wrapping_shr(b)
}

pub fn rv32_sra(a: u32, b: u32) -> u32
    ensures { result ≡ sra a b }
{
    a.cast_signed().wrapping_shr(b).cast_unsigned()
}

pub fn rv32_slt(a: u32, b: u32) -> u32
    ensures { result ≡ slt a b }
{
    u32::from(a.cast_signed() < b.cast_signed())
}

pub fn rv32_sltu(a: u32, b: u32) -> u32
    ensures { result ≡ sltu a b }
{
    u32::from(a < b)
}

pub fn rv32_and(a: u32, b: u32) -> u32
    ensures { result ≡ and a b }
{
    a & b
}

pub fn rv32_or(a: u32, b: u32) -> u32
    ensures { result ≡ or a b }
{
    a | b
}

pub fn rv32_xor(a: u32, b: u32) -> u32
    ensures { result ≡ xor a b }
{
    a ^ b
}

// All products are of u64, a rule of this project.
pub fn rv32_mul(a: u32, b: u32) -> u32
    ensures { result ≡ mul a b }
{
    let product = u64::from(a) * u64::from(b);
    (product % 0x1_0000_0000) as u32
}

// What an operand that is read as signed takes from the upper half of the unsigned product: where it is negative, the other operand.
fn sign_correction(operand: u32, other: u32) -> u32
    ensures { result ≡ correction operand other }
{
    if operand < 0x8000_0000 { 0 } else { other }
}

pub fn rv32_mulhu(a: u32, b: u32) -> u32
    ensures { result ≡ mulhu a b }
{
    let product = u64::from(a) * u64::from(b);
    (product / 0x1_0000_0000) as u32
}

#[tactic(auto, using(crate::proofs::Halves::mixed_halves))]
pub fn rv32_mulhsu(a: u32, b: u32) -> u32
    ensures { result ≡ mulhsu a b }
{
    rv32_sub(rv32_mulhu(a, b), sign_correction(a, b))
}

#[tactic(auto, using(crate::proofs::Halves::mixed_halves, crate::proofs::Halves::signed_halves))]
pub fn rv32_mulh(a: u32, b: u32) -> u32
    ensures { result ≡ mulh a b }
{
    rv32_sub(rv32_mulhsu(a, b), sign_correction(b, a))
}

// DIV and REM have the manual's two corner cases: divisor 0, and the one quotient that does not fit, which wraps.
pub fn rv32_div(dividend: u32, divisor: u32) -> u32
    ensures { result ≡ div dividend divisor }
{
    if divisor == 0 {
        return u32::MAX;
    }
    dividend
        .cast_signed()
        .wrapping_div(divisor.cast_signed())
        .cast_unsigned()
}

pub fn rv32_rem(dividend: u32, divisor: u32) -> u32
    ensures { result ≡ rem dividend divisor }
{
    if divisor == 0 {
        return dividend;
    }
    dividend
        .cast_signed()
        .wrapping_rem(divisor.cast_signed())
        .cast_unsigned()
}

// The zeros below the lowest bit are the places if no bit is above it.
#[tactic(auto, using(crate::proofs::Divisor::told))]
pub fn power_of(x: u32) -> Option<u32>
    ensures { result ≡ power_of x }
{
    let places = x.trailing_zeros() % 32;
    (1u32 << places == x).then_some(places)
}

// By a power of two a shift, which costs less than a division.
#[tactic(auto, using(crate::proofs::Divisor::by_places))]
pub fn rv32_divu(a: u32, b: u32) -> u32
    ensures { result ≡ divu a b }
{
    match power_of(b) {
        Some(places) => a >> places,
        None => a.checked_div(b).unwrap_or(u32::MAX),
    }
}

pub fn rv32_remu(a: u32, b: u32) -> u32
    ensures { result ≡ remu a b }
{
    a.checked_rem(b).unwrap_or(a)
}

// The branch tests, 1 where the branch is taken; BLT and BLTU have those of SLT and SLTU.
pub fn rv32_eq(a: u32, b: u32) -> u32
    ensures { result ≡ beq a b }
{
    u32::from(a == b)
}

pub fn rv32_ne(a: u32, b: u32) -> u32
    ensures { result ≡ bne a b }
{
    u32::from(a != b)
}

pub fn rv32_ge(a: u32, b: u32) -> u32
    ensures { result ≡ bge a b }
{
    u32::from(a.cast_signed() >= b.cast_signed())
}

pub fn rv32_geu(a: u32, b: u32) -> u32
    ensures { result ≡ bgeu a b }
{
    u32::from(a >= b)
}

// Where JALR goes: the even address at or below the sum.
pub fn jump_target(base: u32, offset: u32) -> u32
    ensures { result ≡ target base offset }
{
    rv32_add(base, offset) / 2 * 2
}

// One byte of a word, counted from the lowest; 0 above the highest.
#[tactic(auto, using(crate::proofs::Bytes::shifted, crate::proofs::Bytes::above))]
pub fn byte_of(word: u32, place: u32) -> u32
    ensures { result ≡ byte_of word place }
{
    if 4 <= place {
        return 0;
    }
    (word >> (8 * place)) % 256
}

// A word from its lowest byte and the bytes above it.
pub fn join(low: u32, high: u32) -> u32
    ensures { result ≡ join low high }
{
    low.wrapping_add(high << 8)
}

// The low `bits` bits of `value` as a two's complement number, in 32 bits; all of `value` where `bits` is 32 or more.
#[tactic(auto, using(crate::proofs::Extension::whole, crate::proofs::Extension::low_half, crate::proofs::Extension::high_half))]
pub fn sign_extend(value: u32, bits: u32) -> u32
    ensures { result ≡ sign_extend value bits }
{
    if 32 <= bits {
        return value;
    }
    let range = 1u32 << bits;
    let low = value % range;
    if low < range - low {
        low
    } else {
        low.wrapping_sub(range)
    }
}

// The operations of two values. A value and no closure: an action carries it from the fetch to the step, and no function hands a closure out. No
// instruction has the last three, of bytes.
#[derive(Clone, Copy)]
pub enum Binary {
    Add,
    Sub,
    Sll,
    Slt,
    Sltu,
    Xor,
    Srl,
    Sra,
    Or,
    And,
    Mul,
    Mulh,
    Mulhsu,
    Mulhu,
    Div,
    Divu,
    Rem,
    Remu,
    Eq,
    Ne,
    Ge,
    Geu,
    Target,
    SignExtend,
    Byte,
    Join,
}

pub fn value(operation: Binary, a: u32, b: u32) -> u32
    ensures { result ≡ value_of operation a b }
{
    match operation {
        Binary::Add => rv32_add(a, b),
        Binary::Sub => rv32_sub(a, b),
        Binary::Sll => rv32_sll(a, b),
        Binary::Slt => rv32_slt(a, b),
        Binary::Sltu => rv32_sltu(a, b),
        Binary::Xor => rv32_xor(a, b),
        Binary::Srl => rv32_srl(a, b),
        Binary::Sra => rv32_sra(a, b),
        Binary::Or => rv32_or(a, b),
        Binary::And => rv32_and(a, b),
        Binary::Mul => rv32_mul(a, b),
        Binary::Mulh => rv32_mulh(a, b),
        Binary::Mulhsu => rv32_mulhsu(a, b),
        Binary::Mulhu => rv32_mulhu(a, b),
        Binary::Div => rv32_div(a, b),
        Binary::Divu => rv32_divu(a, b),
        Binary::Rem => rv32_rem(a, b),
        Binary::Remu => rv32_remu(a, b),
        Binary::Eq => rv32_eq(a, b),
        Binary::Ne => rv32_ne(a, b),
        Binary::Ge => rv32_ge(a, b),
        Binary::Geu => rv32_geu(a, b),
        Binary::Target => jump_target(a, b),
        Binary::SignExtend => sign_extend(a, b),
        Binary::Byte => byte_of(a, b),
        Binary::Join => join(a, b),
    }
}
