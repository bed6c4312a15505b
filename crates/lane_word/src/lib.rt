// Lane words: a value of 32 bits for each lane, and whether they are known.
#![tactic(auto)]

ghost use Rattle.std.specs.Prelude.{◌≡◌, ◌&&◌, ℕ, length};
ghost use Rattle.rv32_arithmetic.specs.Arithmetic.{add, sub, sll, srl, sra, slt, sltu, and, or, xor, mul, mulh, mulhsu, mulhu, div, divu, rem, remu, beq, bne, bge, bgeu, target};
ghost use Rattle.rv32_arithmetic.specs.Bits.{sign_extend};
ghost use Rattle.rv32_arithmetic.specs.Value.{value_of};
ghost use Rattle.lane_word.specs.Word.{lanes, unknown, constant, domain, zip, unary, binary, uniform_of};
ghost use Rattle.lane_word.specs.Range.{invalid_channels, input_count};
ghost use Rattle.lane_word.specs.Lanewise.{OfValue, OfTwoValues};
ghost use Rattle.lane_word.specs.Spare.{lane_inputs};
ghost use Rattle.lane_word.specs.Told.{word_of, told_by};
ghost use Rattle.lane_word.specs.Divisor.{common_power};

use rv32_arithmetic::{
    Binary, jump_target, power_of, rv32_add, rv32_and, rv32_div, rv32_divu, rv32_eq, rv32_ge,
    rv32_geu, rv32_mul, rv32_mulh, rv32_mulhsu, rv32_mulhu, rv32_ne, rv32_or, rv32_rem, rv32_remu,
    rv32_sll, rv32_slt, rv32_sltu, rv32_sra, rv32_srl, rv32_sub, rv32_xor, sign_extend, value,
};

// One flag serves all lanes: the flags of one word always agree.
#[derive(Clone, Copy)]
pub struct LaneWord {
    pub values: [u32; LaneWord::LANES],
    pub known: bool,
}

// The inputs that the lanes are for: from the first to the last, both of them too.
#[derive(Clone, Copy)]
pub struct InputRange {
    pub first: u8,
    pub last: u8,
}

// Why lanes have no common value.
#[derive(Clone, Copy)]
pub enum UniformError {
    Unknown,
    Uneven,
}

// The uniform test: the flag, then the values, as far as they equal lane 0's. It counts its lanes, since only a `loop`
// is left by `break` with a value. A flag and a slice: it holds of any number of lanes, and a lane word has 256.
pub fn tell(known: bool, values: &[u32]) -> Result<u32, UniformError>
    ensures { result ≡ uniform_of (record { values = values.now; known = known }) }
{
    if !known {
        return Err(UniformError::Unknown);
    }
    if values.is_empty() {
        return Ok(0);
    }
    let first = values[0];
    let mut k: usize = 1;
    loop {
        if values.len() <= k {
            break Ok(first);
        }
        if values[k] != first {
            break Err(UniformError::Uneven);
        }
        k += 1;
    }
}

// The power of two that every lane is. Lane 0 is looked at first: where it is none, the others need not be.
#[tactic(auto, using(crate::proofs::Divisor::none_in_first, crate::proofs::Divisor::none_in_all, crate::proofs::Divisor::all_as_first))]
fn common_power(word: &LaneWord) -> Option<u32>
    ensures { result ≡ common_power word.now }
{
    let power = power_of(word.values[0])?;
    tell(word.known, &word.values).ok()?;
    Some(power)
}

// The word that is told: by one value for all lanes, else by its lanes.
pub fn lanes_of(told: Option<u32>, word: LaneWord) -> LaneWord
    ensures { result ≡ word_of told word }
{
    match told {
        Some(value) => LaneWord::constant(value),
        None => word,
    }
}

// An operation of two told values; of other words only the lanes tell.
pub fn told_by(operation: Binary, left: Option<u32>, right: Option<u32>) -> Option<u32>
    ensures { result ≡ told_by (value_of operation) left right }
{
    Some(value(operation, left?, right?))
}

impl InputRange {
    // The last byte.
    pub const LAST_INPUT: u8 = 255;

    // The bytes that name no channel.
    pub fn invalid_channels() -> InputRange
        ensures { result ≡ invalid_channels }
    {
        InputRange {
            first: LaneWord::FIRST_INPUT,
            last: InputRange::LAST_INPUT,
        }
    }

    // 0 where the first is above the last.
    pub fn count(self) -> u16
        ensures { result ≡ input_count self }
    {
        (u16::from(self.last) + 1).saturating_sub(u16::from(self.first))
    }
}

impl LaneWord {
    // The first byte that names no channel of six.
    pub const FIRST_INPUT: u8 = 6;

    // One for every byte.
    pub const LANES: usize = 256;

    #[tactic(auto, unfolding(crate::specs::Word::unknown))]
    pub fn unknown() -> LaneWord
        ensures { result ≡ unknown lanes }
    {
        LaneWord {
            values: [0; LaneWord::LANES],
            known: false,
        }
    }

    #[tactic(auto, unfolding(crate::specs::Word::constant))]
    pub fn constant(value: u32) -> LaneWord
        ensures { result ≡ constant lanes value }
    {
        LaneWord {
            values: [value; LaneWord::LANES],
            known: true,
        }
    }

    // Each lane's input; a lane without one repeats lane 0's, which no test can tell from that lane alone.
    #[tactic(auto, using(crate::proofs::SpareLaws::laid_step), unfolding(crate::specs::Word::domain, crate::specs::Spare::lane_inputs))]
    pub fn input_domain(range: InputRange) -> LaneWord
        ensures { result ≡ domain (lane_inputs range) }
    {
        let first = u32::from(range.first);
        let mut values = [first; LaneWord::LANES];
        for lane in 0..usize::from(range.count()) {
            values[lane] = first + lane as u32;
        }
        LaneWord {
            values,
            known: true,
        }
    }

    // A function of each value.
    fn map_values<F: Fn(u32) -> u32>(mut self, f: F) -> LaneWord
        requires { F.IsAlwaysCallable f }
        ensures { (operation : ℕ → ℕ) → OfValue (F.post f) operation → result ≡ unary operation self }
    {
        for value in self.values.iter_mut() {
            *value = f(*value);
        }
        self
    }

    // A function of the two values of each lane.
    fn zip_values<F: Fn(u32, u32) -> u32>(mut self, right: LaneWord, f: F) -> LaneWord
        requires { F.IsAlwaysCallable f }
        ensures { (operation : ℕ → ℕ → ℕ) → OfTwoValues (F.post f) operation → result ≡ binary operation self right }
    {
        for (lane, value) in self.values.iter_mut().enumerate() {
            *value = f(*value, right.values[lane]);
        }
        self.known = self.known && right.known;
        self
    }

    // An operation of each value and one number.
    pub fn map_unary(self, operation: Binary, operand: u32) -> LaneWord
        ensures { result ≡ unary (λ v. value_of operation v operand) self }
    {
        self.map_values(|v| value(operation, v, operand))
    }

    // An operation of the two values of each lane.
    pub fn map_binary(self, right: LaneWord, operation: Binary) -> LaneWord
        ensures { result ≡ binary (value_of operation) self right }
    {
        self.zip_values(right, |a, b| value(operation, a, b))
    }

    pub fn add(self, right: LaneWord) -> LaneWord
        ensures { result ≡ binary add self right }
    {
        self.zip_values(right, rv32_add)
    }

    pub fn sub(self, right: LaneWord) -> LaneWord
        ensures { result ≡ binary sub self right }
    {
        self.zip_values(right, rv32_sub)
    }

    pub fn sll(self, right: LaneWord) -> LaneWord
        ensures { result ≡ binary sll self right }
    {
        self.zip_values(right, rv32_sll)
    }

    pub fn slt(self, right: LaneWord) -> LaneWord
        ensures { result ≡ binary slt self right }
    {
        self.zip_values(right, rv32_slt)
    }

    pub fn sltu(self, right: LaneWord) -> LaneWord
        ensures { result ≡ binary sltu self right }
    {
        self.zip_values(right, rv32_sltu)
    }

    pub fn xor(self, right: LaneWord) -> LaneWord
        ensures { result ≡ binary xor self right }
    {
        self.zip_values(right, rv32_xor)
    }

    pub fn srl(self, right: LaneWord) -> LaneWord
        ensures { result ≡ binary srl self right }
    {
        self.zip_values(right, rv32_srl)
    }

    pub fn sra(self, right: LaneWord) -> LaneWord
        ensures { result ≡ binary sra self right }
    {
        self.zip_values(right, rv32_sra)
    }

    pub fn or(self, right: LaneWord) -> LaneWord
        ensures { result ≡ binary or self right }
    {
        self.zip_values(right, rv32_or)
    }

    pub fn and(self, right: LaneWord) -> LaneWord
        ensures { result ≡ binary and self right }
    {
        self.zip_values(right, rv32_and)
    }

    pub fn mul(self, right: LaneWord) -> LaneWord
        ensures { result ≡ binary mul self right }
    {
        self.zip_values(right, rv32_mul)
    }

    pub fn mulh(self, right: LaneWord) -> LaneWord
        ensures { result ≡ binary mulh self right }
    {
        self.zip_values(right, rv32_mulh)
    }

    pub fn mulhsu(self, right: LaneWord) -> LaneWord
        ensures { result ≡ binary mulhsu self right }
    {
        self.zip_values(right, rv32_mulhsu)
    }

    pub fn mulhu(self, right: LaneWord) -> LaneWord
        ensures { result ≡ binary mulhu self right }
    {
        self.zip_values(right, rv32_mulhu)
    }

    pub fn div(self, right: LaneWord) -> LaneWord
        ensures { result ≡ binary div self right }
    {
        self.zip_values(right, rv32_div)
    }

    // By one power of two in every lane, a shift that is chosen once for the word.
    pub fn divu(self, right: LaneWord) -> LaneWord
        ensures { result ≡ binary divu self right }
    {
        match common_power(&right) {
            Some(places) => self.map_values(|v| rv32_srl(v, places)),
            None => self.zip_values(right, rv32_divu),
        }
    }

    pub fn rem(self, right: LaneWord) -> LaneWord
        ensures { result ≡ binary rem self right }
    {
        self.zip_values(right, rv32_rem)
    }

    pub fn remu(self, right: LaneWord) -> LaneWord
        ensures { result ≡ binary remu self right }
    {
        self.zip_values(right, rv32_remu)
    }

    // The branch tests, 1 where the branch is taken; BLT and BLTU have those of SLT and SLTU.
    pub fn eq(self, right: LaneWord) -> LaneWord
        ensures { result ≡ binary beq self right }
    {
        self.zip_values(right, rv32_eq)
    }

    pub fn ne(self, right: LaneWord) -> LaneWord
        ensures { result ≡ binary bne self right }
    {
        self.zip_values(right, rv32_ne)
    }

    pub fn ge(self, right: LaneWord) -> LaneWord
        ensures { result ≡ binary bge self right }
    {
        self.zip_values(right, rv32_ge)
    }

    pub fn geu(self, right: LaneWord) -> LaneWord
        ensures { result ≡ binary bgeu self right }
    {
        self.zip_values(right, rv32_geu)
    }

    // Where JALR goes: the sum with bit 0 cleared.
    pub fn jump_target(self, offset: LaneWord) -> LaneWord
        ensures { result ≡ binary target self offset }
    {
        self.zip_values(offset, jump_target)
    }

    // A loaded byte or halfword by its sign.
    pub fn sign_extend(self, bits: u32) -> LaneWord
        ensures { result ≡ unary (λ v. sign_extend v bits) self }
    {
        self.map_values(|v| sign_extend(v, bits))
    }

    // The value that all lanes share.
    pub fn uniform_known(self) -> Result<u32, UniformError>
        ensures { result ≡ uniform_of self }
    {
        tell(self.known, &self.values)
    }
}
