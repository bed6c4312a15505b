// The loop: steps up to the run's end, over registers that stay here.
ghost use Rattle.std.specs.Prelude.{◌≡◌, length};
ghost use Rattle.rv32_arithmetic.specs.Value.{value_of};
ghost use Rattle.lane_word.specs.Word.{unary, binary, constant, lanes};
ghost use Rattle.predicate_action.specs.Meaning.{extension_of};
ghost use Rattle.lane_memory.specs.Rows.{cleared};
ghost use Rattle.riscv32imc_predicate.specs.Setting.{environment};
ghost use Rattle.riscv32imc_predicate.specs.Tracking.{machine, reached_with, Advances};
ghost use Rattle.riscv32imc_predicate.specs.Register.{slot_of, place_of, operand_told, Stores, LoadsLanes};

use super::decide::decide;
use super::follow::{complete, located};
use super::ready::ready;
use super::{
    Bounds, Change, Ending, FIRST_OPERAND, PLACES, Place, REGISTERS, Reached, Recorded, Registers,
    SECOND_OPERAND, UNREAD,
};
use lane_word::{LaneWord, lanes_of, tell, told_by};
use predicate_action::{Extension, Reading};
use predicate_semantics::Rv32SymbolLayout;
use rv32_arithmetic::Binary;

fn second_operand(reading: Reading, second: Option<u32>) -> Option<u32>
    ensures { result ≡ operand_told reading second }
{
    reading.immediate.or(second)
}

// Where the word of an operand is: one value is laid out at a place of its own.
fn place_of(told: Option<u32>, register: usize, own: usize) -> usize
    ensures { result ≡ place_of told register own }
{
    match told {
        Some(_) => own,
        None => register,
    }
}

// An operation's method; each arm returns, which spares a copy of the word. The last are bytes' operations, which no instruction computes.
fn operate(function: Binary, one: LaneWord, other: LaneWord) -> LaneWord
    ensures { result ≡ binary (value_of function) one other }
{
    match function {
        Binary::Add => return one.add(other),
        Binary::Sub => return one.sub(other),
        Binary::Sll => return one.sll(other),
        Binary::Slt => return one.slt(other),
        Binary::Sltu => return one.sltu(other),
        Binary::Xor => return one.xor(other),
        Binary::Srl => return one.srl(other),
        Binary::Sra => return one.sra(other),
        Binary::Or => return one.or(other),
        Binary::And => return one.and(other),
        Binary::Mul => return one.mul(other),
        Binary::Mulh => return one.mulh(other),
        Binary::Mulhsu => return one.mulhsu(other),
        Binary::Mulhu => return one.mulhu(other),
        Binary::Div => return one.div(other),
        Binary::Divu => return one.divu(other),
        Binary::Rem => return one.rem(other),
        Binary::Remu => return one.remu(other),
        Binary::Eq => return one.eq(other),
        Binary::Ne => return one.ne(other),
        Binary::Ge => return one.ge(other),
        Binary::Geu => return one.geu(other),
        Binary::Target => return one.jump_target(other),
        _ => {}
    }
    one.map_binary(other, function)
}

// Where a register is set; what is set in x0 is read by none.
fn slot_of(rd: u32) -> usize
    ensures { result ≡ slot_of rd }
{
    if rd == 0 {
        return UNREAD;
    }
    // `usize` has no `From` of `u32`.
    if (rd as usize) < REGISTERS {
        return rd as usize;
    }
    UNREAD
}

// Stores a word's bytes; how many of them have no row before.
fn store_lanes(rows: &mut [u8], address: u32, width: u32, word: LaneWord) -> u32
    ensures { Stores rows.old address width word result rows.new }
{
    let new = lane_memory::new_bytes(rows, address, width);
    lane_memory::store(rows, address, width, word);
    new
}

// The same of one value in every lane. Two functions, as `lane_memory` has two.
fn store_told(rows: &mut [u8], address: u32, width: u32, value: u32) -> u32
    ensures { Stores rows.old address width (constant lanes value) result rows.new }
{
    let new = lane_memory::new_bytes(rows, address, width);
    lane_memory::store_value(rows, address, width, value);
    new
}

// A loaded word, filled lane by lane.
fn extend(word: LaneWord, extension: Extension) -> LaneWord
    ensures { (result ≡ unary (extension_of extension) word) × (length result.values ≡ lanes) }
{
    match extension {
        Extension::Byte => word.sign_extend(8),
        Extension::Halfword => word.sign_extend(16),
        Extension::Unchanged => word,
    }
}

// The loaded lanes, extended.
fn load_lanes(image: &[u8], rows: &[u8], address: u32, width: u32, extension: Extension) -> LaneWord
    ensures { LoadsLanes image.now rows.now address width extension result }
{
    match lane_access::access(image, rows, address, width) {
        Ok(word) => extend(word, extension),
        // Not reached where the decision tested the range.
        Err(_) => LaneWord::unknown(),
    }
}

// What a call hands back.
fn reached(
    place: Place,
    ending: Ending,
    recorded: Recorded,
    words: [LaneWord; PLACES],
    tags: [Option<u32>; PLACES],
) -> Reached
    ensures { result ≡ reached_with place ending recorded words tags }
{
    let x10 = lanes_of(tags[10], words[10]);
    Reached {
        place,
        ending,
        recorded,
        words,
        tags,
        x10,
    }
}

// Steps up to stop, the pause or a refusal. The registers stay here, each told by one value or by its lanes; only single words cross calls.
// Long, since a function pays at entry for the lane words among its locals: its parts as functions of their own cost a step of told
// words half as much again.
pub fn advance(
    first: Place,
    start: Registers,
    kept: Recorded,
    image: &[u8],
    symbols: Rv32SymbolLayout,
    rows: &mut [u8],
    trace: &mut [u8],
    bounds: Bounds,
) -> Reached
    ensures advances { Advances (environment image.now symbols bounds) (machine first start kept rows.old trace.old) result rows.new trace.new }
    ensures rows_unchanged { cleared rows.new ≡ cleared rows.old }
{
    let Registers {
        mut words,
        mut tags,
    } = start;
    let mut computed = LaneWord::unknown();
    let mut recorded = kept;
    let mut place = first;
    loop {
        let progress = match ready(place, image, rows, bounds) {
            Ok(progress) => progress,
            Err(ending) => return reached(place, ending, recorded, words, tags),
        };
        let reading = progress.reading;
        let function = reading.function;
        let rs1 = reading.rs1 as usize;
        let rs2 = reading.rs2 as usize;
        let left = tags[rs1];
        let second = tags[rs2];
        let right = second_operand(reading, second);
        let known = told_by(function, left, right);
        let tested = match known {
            Some(value) => Ok(value),
            None => {
                if let Some(value) = left {
                    words[FIRST_OPERAND] = LaneWord::constant(value);
                }
                if let Some(value) = right {
                    words[SECOND_OPERAND] = LaneWord::constant(value);
                }
                let a = place_of(left, rs1, FIRST_OPERAND);
                let b = place_of(right, rs2, SECOND_OPERAND);
                computed = operate(function, words[a], words[b]);
                tell(computed.known, &computed.values)
            }
        };
        let step = match decide(progress, place, tested, image, rows, bounds.entries) {
            Ok(step) => step,
            Err(error) => return reached(place, Ending::Refused(error), recorded, words, tags),
        };
        let new = match step.change {
            Change::Nothing => 0,
            Change::Sets { rd, value } => {
                tags[slot_of(rd)] = Some(value);
                0
            }
            Change::Computes { rd } => {
                let slot = slot_of(rd);
                tags[slot] = None;
                words[slot] = computed;
                0
            }
            Change::Loads {
                rd,
                address,
                width,
                extension,
            } => {
                let slot = slot_of(rd);
                tags[slot] = None;
                words[slot] = load_lanes(image, rows, address, width, extension);
                0
            }
            Change::Stores { address, width } => {
                recorded = located(recorded, place.pc, address, width, symbols.event_count);
                match second {
                    Some(value) => store_told(rows, address, width, value),
                    None => store_lanes(rows, address, width, words[rs2]),
                }
            }
        };
        place = complete(place, progress.word, progress.length, step.next, new, trace);
    }
}
