// Written bytes in lent memory: a row for each address, found by open addressing without deletion.
#![tactic(auto)]

ghost use Rattle.std.specs.Prelude.{◌≡◌, ℕ, List, ◌+◌, ◌*◌, ◌^◌, ◌<◌, ◌≤◌, map, length, option_copied};
ghost use Rattle.std.proofs.lemmas.List.Edits.{sets};
ghost use Rattle.rv32_arithmetic.specs.Bits.{byte_of};
ghost use Rattle.lane_word.specs.declared.LaneWord.{LaneWord};
ghost use Rattle.lane_word.specs.Word.{lanes, constant};
ghost use Rattle.lane_memory.specs.LentRows.{head_bytes, row_bytes, row_count, cleared};
ghost use Rattle.lane_memory.specs.Search.{probe, onward, hops, tries};
ghost use Rattle.lane_memory.specs.Rows.{row_of, word_byte, head_of, lane_row, value_row, store_row, store_rows, store_byte, store_bytes, store_values, row_holds, written, lane_byte, row_byte, load_byte, GivesLanes, joined, Joined, told_row, told_byte, new_bytes, unmarked};

use lane_word::LaneWord;
use rv32_arithmetic::{byte_of, join};

// A row's head: a used mark, a known mark, a uniform mark, a zero, the address in 4 bytes.
const USED: usize = 0;

const KNOWN: usize = 1;

const UNIFORM: usize = 2;

const ZERO: usize = 3;

const ADDRESS: usize = 4;

const HEAD_BYTES: usize = 8;
// A row: its head and room for 256 lane values of a byte each.
// Under a uniform mark the byte is known and lane value 0 serves for every lane.
pub const ROW_BYTES: usize = HEAD_BYTES + 256;
// How many hops a search makes before it looks at every row.
const HOPS: usize = 32;

// A row's bytes.
type Row = [u8; ROW_BYTES];

// What a search for an address comes to: its row, a free row for it, or neither.
#[derive(Clone, Copy)]
pub enum Found {
    At(usize),
    Free(usize),
    Full,
}

// What a row is to a search.
#[derive(Clone, Copy)]
enum Probe {
    Empty,
    Match,
    Other,
}

// How many whole rows `rows` has.
pub fn row_count(rows: &[u8]) -> usize
    ensures { result ≡ row_count rows.now }
{
    rows.len() / ROW_BYTES
}

fn probe_row(row: &Row, address: u32) -> Probe
    ensures { result ≡ probe (row_holds row.now) address }
{
    if row[USED] == 0 {
        return Probe::Empty;
    }
    if little_endian::get::<u32>(row, ADDRESS) == address {
        Probe::Match
    } else {
        Probe::Other
    }
}

// The next row of a search that has `left` rows more: about 0.618 of the rows further, so that rows whose remainders meet part at the
// first hop, and at the end one row further. In two branches: with one step for both a search through full memory takes a sixth more.
fn onward(row: usize, count: usize, left: usize) -> usize
    requires { row < count }
    ensures { result ≡ onward count left row }
{
    if left < count {
        return if row + 1 < count { row + 1 } else { 0 };
    }
    let stride = count / 2 + count / 8 - count / 128;
    if row < count - stride {
        row + stride
    } else {
        row - (count - stride)
    }
}

// How many rows a search looks at: the hops first, where there are as many rows.
fn tries(count: usize) -> usize
    requires { count + hops < 2 ^ 64 }
    ensures { result ≡ tries count }
{
    if count < HOPS { count } else { count + HOPS }
}

// The row of an address, or one that it can take.
#[tactic(auto, using(crate::proofs::Seek::seek_none, crate::proofs::Seek::seek_empty, crate::proofs::Seek::seek_match, crate::proofs::Seek::seek_on, crate::proofs::Seek::seek_full))]
pub fn find(rows: &[u8], address: u32) -> Found
    ensures { result ≡ row_of rows.now address }
{
    let (whole, _) = rows.as_chunks::<ROW_BYTES>();
    let count = whole.len();
    if count == 0 {
        return Found::Full;
    }
    // `usize` has no `From` of `u32`.
    let mut row = address as usize % count;
    for left in (0..tries(count)).rev() {
        match probe_row(&whole[row], address) {
            Probe::Empty => return Found::Free(row),
            Probe::Match => return Found::At(row),
            Probe::Other => row = onward(row, count, left),
        }
    }
    Found::Full
}

// The row that an address has.
#[tactic(auto, using(crate::proofs::Seek::found_inside, crate::proofs::Seek::found_row), unfolding(crate::specs::Rows::written))]
fn written(rows: &[u8], address: u32) -> Option<&Row>
    ensures { option_copied result ≡ written rows.now address }
{
    match find(rows, address) {
        Found::At(row) => Some(&rows.as_chunks::<ROW_BYTES>().0[row]),
        Found::Free(_) | Found::Full => None,
    }
}

// Byte `place` of a number, to be stored.
fn stored_byte(number: u32, place: u32) -> u8
    ensures { result ≡ byte_of number place }
{
    byte_of(number, place) as u8
}

fn write_head(row: &mut [u8], known: bool, uniform: bool, address: u32)
    requires { head_bytes ≤ length row.old }
    ensures { row.new ≡ sets row.old 0 (head_of known uniform address) }
{
    row[USED] = 1;
    row[KNOWN] = u8::from(known);
    row[UNIFORM] = u8::from(uniform);
    row[ZERO] = 0;
    little_endian::put(row, ADDRESS, address);
}

// What a store takes its bytes from: a word, or a number that is the same in all lanes.
trait Stored {
    // What the row of an address starts with for a byte, counted from the lowest.
    ghost start: { Self → ℕ → ℕ → List ℕ };

    // A slice and no `Row`: of a slice an array to be written comes only in an `Option`.
    fn write(&self, row: &mut [u8], address: u32, place: u32)
        requires { length row.old ≡ row_bytes }
        ensures row { row.new ≡ sets row.old 0 (start self.now place address) }
        ensures short { length (start self.now place address) ≤ row_bytes };
}

impl Stored for LaneWord {
    ghost start = { λ word place address. lane_row address (word_byte place word) };

    fn write(&self, row: &mut [u8], address: u32, place: u32) {
        write_head(row, self.known, false, address);
        for (lane, value) in self.values.iter().enumerate() {
            row[HEAD_BYTES + lane] = stored_byte(*value, place);
        }
    }
}

impl Stored for u32 {
    ghost start = { λ number place address. value_row address (byte_of number place) };

    fn write(&self, row: &mut [u8], address: u32, place: u32) {
        write_head(row, true, true, address);
        row[HEAD_BYTES] = stored_byte(*self, place);
    }
}

// Store one byte; where it finds no row, it is not stored.
#[tactic(auto, using(crate::proofs::Seek::at_inside, crate::proofs::Seek::free_inside), unfolding(crate::specs::Rows::store_row))]
fn store_row<S: Stored>(rows: &mut [u8], address: u32, stored: &S, place: u32)
    ensures { rows.new ≡ store_row rows.old address (S.start stored.now place address) }
{
    match find(rows, address) {
        Found::At(row) | Found::Free(row) => {
            let at = row * ROW_BYTES;
            stored.write(&mut rows[at..at + ROW_BYTES], address, place);
        }
        Found::Full => {}
    }
}

// Store the lowest `width` bytes.
#[tactic(auto, unfolding(crate::specs::Rows::store_rows))]
fn store_rows<S: Stored>(rows: &mut [u8], address: u32, width: u32, stored: &S)
    ensures { rows.new ≡ store_rows rows.old width address (λ k x. S.start stored.now k x) }
{
    for k in 0..width {
        store_row(rows, address.wrapping_add(k), stored, k);
    }
}

// Store byte `place` of a word; a byte that finds no row is not stored.
pub fn store_byte(rows: &mut [u8], address: u32, word: LaneWord, place: u32)
    ensures { rows.new ≡ store_byte rows.old address (word_byte place word) }
{
    store_row(rows, address, &word, place);
}

// Store the lowest `width` bytes of a word.
#[tactic(auto, unfolding(crate::specs::Rows::store_bytes))]
pub fn store(rows: &mut [u8], address: u32, width: u32, word: LaneWord)
    ensures { rows.new ≡ store_bytes rows.old width address word }
{
    store_rows(rows, address, width, &word);
}

// Store the lowest `width` bytes of a number that is the same in all lanes. Two public functions, since the definitions are of a word and of a number.
#[tactic(auto, unfolding(crate::specs::Rows::store_values))]
pub fn store_value(rows: &mut [u8], address: u32, width: u32, value: u32)
    ensures { rows.new ≡ store_values rows.old width address value }
{
    store_rows(rows, address, width, &value);
}

// How many of the `width` bytes from `address` on have no row yet: a sum, since `count` gives no `u32`.
#[tactic(auto, unfolding(crate::specs::Rows::new_bytes))]
pub fn new_bytes(rows: &[u8], address: u32, width: u32) -> u32
    ensures { result ≡ new_bytes rows.now width address }
{
    let mut new = 0;
    for k in 0..width {
        new += u32::from(written(rows, address.wrapping_add(k)).is_none());
    }
    new
}

#[tactic(auto, using(lane_word::proofs::Lanewise::done_start, lane_word::proofs::Lanewise::done_step))]
fn read_lanes(row: &Row) -> LaneWord
    ensures { result ≡ lane_byte row.now }
{
    let mut values = [0; LaneWord::LANES];
    for (lane, value) in values.iter_mut().enumerate() {
        *value = u32::from(row[HEAD_BYTES + lane]);
    }
    LaneWord {
        values,
        known: row[KNOWN] != 0,
    }
}

fn told_row(row: &Row) -> Option<u32>
    ensures { result ≡ told_row row.now }
{
    if row[UNIFORM] == 0 {
        return None;
    }
    Some(u32::from(row[HEAD_BYTES]))
}

fn read_row(row: &Row) -> LaneWord
    ensures { result ≡ row_byte row.now }
{
    match told_row(row) {
        Some(value) => LaneWord::constant(value),
        None => read_lanes(row),
    }
}

// The byte at an address: the written one, or `other` in every lane.
#[tactic(auto, unfolding(crate::specs::Rows::load_byte))]
pub fn load_byte(rows: &[u8], address: u32, other: u8) -> LaneWord
    ensures { result ≡ load_byte rows.now address other }
{
    match written(rows, address) {
        Some(row) => read_row(row),
        None => LaneWord::constant(u32::from(other)),
    }
}

// The byte at an address where one value is told for all lanes: no lane is compared.
#[tactic(auto, unfolding(crate::specs::Rows::told_byte))]
pub fn told_byte(rows: &[u8], address: u32, other: u8) -> Option<u32>
    ensures { result ≡ told_byte rows.now address other }
{
    match written(rows, address) {
        Some(row) => told_row(row),
        None => Some(u32::from(other)),
    }
}

// The number that `low` gives of each lane below the lane's value above it.
#[tactic(auto, using(lane_word::proofs::Lanewise::done_start, crate::proofs::Laws::joined_none))]
fn join_each<F: Fn(usize) -> u32>(low: F, values: &mut [u32])
    requires { (lane : ℕ) → lane < lanes → F.pre low lane }
    ensures { (b : LaneWord) → GivesLanes (F.post low) b → values.new ≡ joined b values.old }
{
    if values.len() != LaneWord::LANES {
        return;
    }
    for (lane, value) in values.iter_mut().enumerate() {
        *value = join(low(lane), *value);
    }
}

// A number below each lane's value above it.
pub fn join_value(low: u32, values: &mut [u32])
    ensures { values.new ≡ joined (constant lanes low) values.old }
{
    join_each(|_| low, values);
}

#[tactic(auto, unfolding(lane_word::specs::Word::constant))]
fn join_row(row: &Row, values: &mut [u32]) -> bool
    ensures { Joined (row_byte row.now) values.old result values.new }
{
    match told_row(row) {
        Some(value) => {
            join_value(value, values);
            true
        }
        None => {
            join_each(|lane| u32::from(row[HEAD_BYTES + lane]), values);
            row[KNOWN] != 0
        }
    }
}

// The byte at an address below the values above it, in their place; whether the byte is known. A lane word handed over would be copied for each byte.
#[tactic(auto, unfolding(crate::specs::Rows::load_byte, lane_word::specs::Word::constant))]
pub fn join_values(rows: &[u8], address: u32, other: u8, values: &mut [u32]) -> bool
    ensures { Joined (load_byte rows.now address other) values.old result values.new }
{
    match written(rows, address) {
        Some(row) => join_row(row, values),
        None => {
            join_value(u32::from(other), values);
            true
        }
    }
}

// Every whole row is free again; only its used mark changes.
#[tactic(auto, unfolding(crate::specs::Rows::unmark_rows))]
pub fn unmark(rows: &mut [u8])
    ensures { rows.new ≡ unmarked rows.old }
{
    // By index: nothing is known of what the pieces of `chunks_exact_mut` leave.
    for row in 0..rows.len() / ROW_BYTES {
        rows[row * ROW_BYTES] = 0;
    }
}

// Zero in every whole row.
pub fn clear(rows: &mut [u8])
    ensures { rows.new ≡ cleared rows.old }
{
    let end = rows.len() / ROW_BYTES * ROW_BYTES;
    rows[..end].fill(0);
}
