// Loads and fetches of the lane run, over the image and the written bytes.
#![tactic(auto)]

ghost use Rattle.std.specs.Prelude.{◌≡◌, ℕ, ◌+◌, ◌≤◌, ◌^◌, length};
ghost use Rattle.riscv32imc.specs.Constants.{image_base};
ghost use Rattle.lane_word.specs.Word.{lanes};
ghost use Rattle.predicate_semantics.specs.Program.{Core};
ghost use Rattle.predicate_semantics.specs.Standing.{standing_core};
ghost use Rattle.predicate_semantics.specs.Memory.{read};
ghost use Rattle.predicate_semantics.specs.Lane.{agreed_as, agreed, inside, access, access_agreed, decode_word, expand_halfword, fetch};
ghost use Rattle.lane_memory.specs.Rows.{Joined};
ghost use Rattle.lane_access.specs.Seen.{seen, told_seen, told_read, image_seen};
ghost use Rattle.lane_access.specs.Whole.{FromImage};
ghost use Rattle.lane_access.specs.Parts.{spelling_of, encoding_of};
ghost use Rattle.lane_access.specs.InForce.{InForce};
ghost use Rattle.lane_access.specs.Answers.{tested_of, told_load};
ghost use Rattle.predicate_answer.specs.Refusal.{role_of};

use lane_word::{LaneWord, UniformError};
use predicate_answer::{Role, Rv32Error};
use riscv_decode::Fetched;
use riscv32imc::RV32_IMAGE_BASE;
use rv32_arithmetic::join;

// The address past memory's end.
pub const RV32_MEMORY_END: u32 = RV32_IMAGE_BASE + riscv32imc::MAX_RV32_MEMORY_BYTES as u32;

// Whether the bytes from an address on lie in memory: the first, then the last. Address and width stay two numbers, as in the definitions: a struct of
// them would be made at each call, and taken apart in it.
#[tactic(auto, using(crate::proofs::Loads::inside_below, crate::proofs::Loads::inside_past, crate::proofs::Loads::fits_inside))]
pub fn range_of(address: u32, width: u32) -> Result<(), Rv32Error>
    ensures { tested_of result ≡ inside address width }
{
    if address < RV32_IMAGE_BASE {
        return Err(Rv32Error::BelowMemory);
    }
    if u64::from(RV32_MEMORY_END) < u64::from(address) + u64::from(width) {
        return Err(Rv32Error::PastMemory);
    }
    Ok(())
}

// What a uniform test found, or the refusal in this role.
#[tactic(auto, unfolding(predicate_semantics::specs::Tested::refuse))]
pub fn agreed_in(tested: Result<u32, UniformError>, role: Role) -> Result<u32, Rv32Error>
    ensures { tested_of result ≡ agreed_as (role_of role) tested }
{
    tested.map_err(|error| match error {
        UniformError::Unknown => Rv32Error::Unknown(role),
        UniformError::Uneven => Rv32Error::NotUniform(role),
    })
}

// The lanes' common value, or the refusal in this role.
#[tactic(auto, unfolding(predicate_semantics::specs::Lane::agreed))]
pub fn agree(word: LaneWord, role: Role) -> Result<u32, Rv32Error>
    ensures { tested_of result ≡ agreed (role_of role) word }
{
    agreed_in(word.uniform_known(), role)
}

// The operation of a word, with its length.
#[tactic(auto, using(crate::proofs::Loads::decode_goes, crate::proofs::Loads::decode_fails))]
fn decoded(spelling: Spelling) -> Result<Fetched, Rv32Error>
    ensures { (core : Core) (steps : ℕ) → InForce standing_core core steps → tested_of result ≡ decode_word core steps spelling.word spelling.length }
{
    let Spelling { word, length } = spelling;
    // No `ok_or`: the operation would be copied once more, which a fetch shows.
    match riscv_decode::decode(word) {
        Some(operation) => Ok(Fetched {
            operation,
            length,
            word,
        }),
        None => Err(Rv32Error::Word),
    }
}

// A fetched word with the length of its spelling. Both lengths meet here, so that decoding is called at one place and inlined there.
#[derive(Clone, Copy)]
struct Spelling {
    word: u32,
    length: u32,
}

// A halfword, expanded: a `match`, as in `decoded`.
#[tactic(auto, using(crate::proofs::Loads::expand_goes, crate::proofs::Loads::expand_fails))]
fn expanded(half: u16) -> Result<Spelling, Rv32Error>
    ensures { (core : Core) (steps : ℕ) → InForce standing_core core steps → spelling_of core steps result ≡ expand_halfword core steps half }
{
    match riscv32imc::decompress(half) {
        Some(word) => Ok(Spelling { word, length: 2 }),
        None => Err(Rv32Error::Halfword),
    }
}

// An instruction as it lies in memory: four bytes, or the low two of a number.
#[derive(Clone, Copy)]
enum Encoding {
    Four(u32),
    Two(u32),
}

// The image and the rows stay two parameters: as one struct with methods they go through memory, and a fetch takes twice as long.

// The image's byte at an address, where nothing is written and so no row is looked for: below the image's end. It is 0 below memory.
#[tactic(auto, using(crate::proofs::Loads::image_at, crate::proofs::Loads::image_below, crate::proofs::Loads::image_past))]
fn image_byte(image: &[u8], address: u32) -> Option<u32>
    ensures { result ≡ image_seen image.now address }
{
    // `usize` has no `From` of `u32`.
    let offset = address.saturating_sub(RV32_IMAGE_BASE) as usize;
    if offset < image.len() {
        let byte = if address < RV32_IMAGE_BASE {
            0
        } else {
            image[offset]
        };
        return Some(u32::from(byte));
    }
    None
}

// The byte at an address below the values above it, in their place; whether the byte is known: as in `lane_memory::join_values`.
fn join_at(image: &[u8], rows: &[u8], address: u32, values: &mut [u32]) -> bool
    ensures { Joined (seen image.now rows.now address) values.old result values.new }
{
    match image_byte(image, address) {
        Some(byte) => {
            lane_memory::join_value(byte, values);
            true
        }
        None => lane_memory::join_values(rows, address, 0, values),
    }
}

// The bytes from an address as one word, joined from the highest down. What is required here and below is what `range_of` tests.
#[tactic(auto, using(crate::proofs::Loads::read_first, crate::proofs::Loads::rest_all))]
fn join_bytes(image: &[u8], rows: &[u8], address: u32, width: u32) -> LaneWord
    requires { address + width ≤ 2 ^ 32 }
    ensures { result ≡ read lanes (seen image.now rows.now) width address }
{
    let mut values = [0u32; LaneWord::LANES];
    let mut known = true;
    for k in (0..width).rev() {
        known &= join_at(image, rows, address + k, &mut values);
    }
    LaneWord { values, known }
}

// What one value tells of the byte at an address.
#[tactic(auto, using(crate::proofs::Loads::tells_image, crate::proofs::Loads::tells_rows))]
fn told_at(image: &[u8], rows: &[u8], address: u32) -> Option<u32>
    ensures { result ≡ told_seen image.now rows.now address }
{
    image_byte(image, address).or_else(|| lane_memory::told_byte(rows, address, 0))
}

// What the bytes' values tell, joined as the bytes are; one byte without a value leaves the number to its lanes.
#[tactic(auto, using(crate::proofs::Loads::rest_none, crate::proofs::Loads::told_step, crate::proofs::Loads::told_ends), unfolding(crate::specs::Seen::told_read))]
fn told_join(image: &[u8], rows: &[u8], address: u32, width: u32) -> Option<u32>
    requires { address + width ≤ 2 ^ 32 }
    ensures { result ≡ told_read (told_seen image.now rows.now) width address }
{
    let mut number: u32 = 0;
    for k in (0..width).rev() {
        number = join(told_at(image, rows, address + k)?, number);
    }
    Some(number)
}

// The number that the image holds whole.
fn image_number(image: &[u8], address: u32, width: u32) -> Option<u32>
    ensures { FromImage result image.now address width }
{
    let offset = address.checked_sub(RV32_IMAGE_BASE)? as usize;
    if image.len() <= offset {
        return None;
    }
    let left = image.len() - offset;
    if width == 2 && 2 <= left {
        return Some(u32::from(little_endian::get::<u16>(image, offset)));
    }
    if width == 4 && 4 <= left {
        return Some(little_endian::get::<u32>(image, offset));
    }
    None
}

// What one value tells of the bytes from an address on.
#[tactic(auto, using(crate::proofs::Loads::lies_told))]
fn told_bytes(image: &[u8], rows: &[u8], address: u32, width: u32) -> Option<u32>
    requires { (image_base ≤ address) × (address + width ≤ 2 ^ 32) }
    ensures { result ≡ told_read (told_seen image.now rows.now) width address }
{
    // No `or_else`: `told_join` asks something of its arguments, and of such a call's closure nothing is known.
    match image_number(image, address, width) {
        Some(value) => Some(value),
        None => told_join(image, rows, address, width),
    }
}

// A load: range, then what one value tells; none where its lanes do.
#[tactic(auto, using(crate::proofs::Loads::inside_fits, crate::proofs::Loads::load_told, crate::proofs::Loads::load_refused))]
pub fn load(image: &[u8], rows: &[u8], address: u32, width: u32) -> Result<Option<u32>, Rv32Error>
    ensures { tested_of result ≡ told_load image.now rows.now width address }
{
    range_of(address, width)?;
    Ok(told_bytes(image, rows, address, width))
}

// A load lane by lane: range, then the bytes.
#[tactic(auto, using(crate::proofs::Loads::inside_fits, crate::proofs::Loads::access_outside, crate::proofs::Loads::access_inside))]
pub fn access(image: &[u8], rows: &[u8], address: u32, width: u32) -> Result<LaneWord, Rv32Error>
    ensures { tested_of result ≡ access lanes (seen image.now rows.now) width address }
{
    range_of(address, width)?;
    Ok(join_bytes(image, rows, address, width))
}

// A load that has to be uniform; what one value tells is.
#[tactic(auto, using(crate::proofs::Loads::agreed_told, crate::proofs::Loads::agreed_out, crate::proofs::Loads::agreed_accessed, crate::proofs::Loads::agreed_refused))]
pub fn access_agreed(
    image: &[u8],
    rows: &[u8],
    address: u32,
    width: u32,
    role: Role,
) -> Result<u32, Rv32Error>
    ensures { tested_of result ≡ access_agreed lanes (role_of role) (seen image.now rows.now) width address }
{
    match load(image, rows, address, width)? {
        Some(value) => Ok(value),
        None => agree(access(image, rows, address, width)?, role),
    }
}

// Where the image does not hold four bytes: two, which may be all that can be read, and four where the two say so.
#[tactic(auto, using(crate::proofs::Loads::half_below, crate::proofs::Loads::fetch_refused, crate::proofs::Loads::fetch_whole, crate::proofs::Loads::fetch_half, crate::proofs::Loads::four_whole, crate::proofs::Loads::four_refused))]
fn number_beyond(image: &[u8], rows: &[u8], pc: u32) -> Result<Encoding, Rv32Error>
    ensures { (core : Core) (steps : ℕ) → encoding_of core steps result ≡ fetch lanes core (seen image.now rows.now) steps pc }
{
    let half = access_agreed(image, rows, pc, 2, Role::Fetch)?;
    if half % 4 != 3 {
        return Ok(Encoding::Two(half));
    }
    let word = access_agreed(image, rows, pc, 4, Role::Fetch)?;
    Ok(Encoding::Four(word))
}

// Four bytes of the image at once; a short instruction is the low two. The image may be longer than memory, so the range comes first.
#[tactic(auto, using(crate::proofs::Loads::lies_begins, crate::proofs::Loads::begins_whole, crate::proofs::Loads::begins_half))]
fn number_at(image: &[u8], rows: &[u8], pc: u32) -> Result<Encoding, Rv32Error>
    ensures { (core : Core) (steps : ℕ) → encoding_of core steps result ≡ fetch lanes core (seen image.now rows.now) steps pc }
{
    if range_of(pc, 4).is_ok() {
        if let Some(value) = image_number(image, pc, 4) {
            if value % 4 == 3 {
                return Ok(Encoding::Four(value));
            }
            return Ok(Encoding::Two(value));
        }
    }
    number_beyond(image, rows, pc)
}

// The word of an instruction: its four bytes, or what its two expand to.
fn spelled(image: &[u8], rows: &[u8], pc: u32) -> Result<Spelling, Rv32Error>
    ensures { (core : Core) (steps : ℕ) → InForce standing_core core steps → spelling_of core steps result ≡ fetch lanes core (seen image.now rows.now) steps pc }
{
    match number_at(image, rows, pc)? {
        Encoding::Four(word) => Ok(Spelling { word, length: 4 }),
        // Cut, since `try_from` would have an error that never comes.
        Encoding::Two(number) => expanded((number % 65536) as u16),
    }
}

// Fetch: the instruction's word, then its operation, by the core in force.
pub fn fetch(image: &[u8], rows: &[u8], pc: u32) -> Result<Fetched, Rv32Error>
    ensures { (core : Core) (steps : ℕ) → InForce standing_core core steps → tested_of result ≡ fetch lanes core (seen image.now rows.now) steps pc }
{
    decoded(spelled(image, rows, pc)?)
}
