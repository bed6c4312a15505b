// Fills lent memory to its last row, in three orders, overwrites, reads back and clears it, stores words, and values that all lanes share,
// and does the same to memory that has no row. Prints how many answers, lanes and bytes differ from what they must be.
#![tactic(auto)]

ghost use Rattle.std.specs.Prelude.{◌≡◌, ◌+◌, ◌*◌, ◌%◌, ◌^◌, ◌<◌, ◌≤◌, length};
ghost use Rattle.lane_word.specs.Word.{lanes};

use lane_memory::Found;
use lane_word::LaneWord;
use rv32_arithmetic::Binary;
use std::{array, fmt, io};

// What lent memory holds before a case, and its remainder after it.
const BEFORE: u8 = 0xa5;
// What an address that was not written reads as.
const OTHER: u8 = 7;

// How many answers, lanes and bytes were compared, and how many differ.
#[derive(Clone, Copy, Default)]
struct Tally {
    compared: u64,
    differing: u64,
}

impl Tally {
    fn and(self, more: Tally) -> Tally
        ensures { (result.compared ≡ (self.compared + more.compared) % 2 ^ 64) × (result.differing ≡ (self.differing + more.differing) % 2 ^ 64) }
    {
        Tally {
            compared: self.compared.wrapping_add(more.compared),
            differing: self.differing.wrapping_add(more.differing),
        }
    }
}

impl fmt::Display for Tally {
    fn fmt<W: fmt::Write>(&self, f: &mut fmt::Formatter<W>) -> fmt::Result {
        write!(
            f,
            "compared: {} differing: {}",
            self.compared, self.differing
        )
    }
}

#[derive(Clone, Copy)]
struct Store {
    address: u32,
    width: u32,
    seed: u32,
    new: u32,
}

// Words of 4, 2 and 1 bytes beside and over each other, then up to the last address and on from the first.
const STORES: [Store; 7] = [
    Store {
        address: 0x8000_2000,
        width: 4,
        seed: 8,
        new: 4,
    },
    Store {
        address: 0x8000_2002,
        width: 4,
        seed: 9,
        new: 2,
    },
    Store {
        address: 0x8000_2005,
        width: 2,
        seed: 10,
        new: 1,
    },
    Store {
        address: 0x8000_2003,
        width: 2,
        seed: 11,
        new: 0,
    },
    Store {
        address: 0x8000_2007,
        width: 1,
        seed: 12,
        new: 1,
    },
    Store {
        address: 0xffff_fffe,
        width: 4,
        seed: 13,
        new: 4,
    },
    Store {
        address: 0x0000_0000,
        width: 2,
        seed: 14,
        new: 0,
    },
];

// Byte `place` of a word for each of `count` addresses, another one for each number below it.
#[derive(Drop)]
struct Filling<'a, A> {
    address: &'a A,
    count: u32,
    seed: u32,
    place: u32,
}

impl<A: Fn(u32) -> u32> Filling<'_, A> {
    fn word(&self, k: u32) -> LaneWord
        ensures { length result.values ≡ lanes }
    {
        pattern(self.seed.wrapping_add(k))
    }

    // Stores them: the counts of new rows against `new`.
    fn store(&self, rows: &mut [u8], new: u32) -> Tally
        requires { A.IsAlwaysCallable self.now.address.now }
        ensures { (result.compared ≡ self.now.count) × (result.differing ≤ self.now.count) }
    {
        let mut tally = Tally::default();
        for k in 0..self.count {
            let a = (self.address)(k);
            tally = tally.and(answer(lane_memory::new_bytes(rows, a, 1), new));
            lane_memory::store_byte(rows, a, self.word(k), self.place);
        }
        tally
    }

    // What is loaded from each of the addresses against what was stored.
    fn read_back(&self, rows: &[u8]) -> Tally
        requires { A.IsAlwaysCallable self.now.address.now }
        ensures { (result.compared ≡ (lanes + 1) * self.now.count) × (result.differing ≤ (lanes + 1) * self.now.count) }
    {
        let mut tally = Tally::default();
        for k in 0..self.count {
            let loaded = lane_memory::load_byte(rows, (self.address)(k), OTHER);
            tally = tally.and(bytes_of(loaded, self.word(k), self.place));
        }
        tally
    }

    fn store_and_read(&self, rows: &mut [u8], new: u32) -> Tally
        requires { A.IsAlwaysCallable self.now.address.now }
    {
        let stored = self.store(rows, new);
        stored.and(self.read_back(rows))
    }
}

// A word whose lanes differ, known for every second seed.
fn pattern(seed: u32) -> LaneWord
    ensures { length result.values ≡ lanes }
{
    let first = seed.wrapping_mul(0x0103_0507);
    LaneWord {
        values: array::from_fn(|lane| first.wrapping_add((lane as u32).wrapping_mul(0x2b11_0d05))),
        known: seed % 2 == 0,
    }
}

fn byte(value: u32, place: u32) -> u32
    ensures { result < 256 }
{
    (value >> (8 * place.min(3))) % 256
}

// The lanes of a loaded byte against byte `place` of a word, and the known flags.
fn bytes_of(loaded: LaneWord, word: LaneWord, place: u32) -> Tally
    ensures { (result.compared ≡ lanes + 1) × (result.differing ≤ lanes + 1) }
{
    let mut tally = answer(loaded.known, word.known);
    for (got, value) in loaded.values.iter().zip(&word.values) {
        tally = tally.and(answer(*got, byte(*value, place)));
    }
    tally
}

// Each byte against what it has to be.
fn all_are(memory: &[u8], right: u8) -> Tally
    ensures { (result.compared ≡ length memory.now) × (result.differing ≤ length memory.now) }
{
    let mut tally = Tally::default();
    for b in memory {
        tally = tally.and(answer(*b, right));
    }
    tally
}

// Whole rows, which end at `end`, are cleared, and what is past them is as before.
fn bytes(memory: &[u8], end: usize) -> Tally
    ensures { (result.compared ≡ length memory.now) × (result.differing ≤ length memory.now) }
{
    let (whole, past) = memory.split_at(end.min(memory.len()));
    all_are(whole, 0).and(all_are(past, BEFORE))
}

fn not_written() -> LaneWord
    ensures { length result.values ≡ lanes }
{
    LaneWord::constant(u32::from(OTHER))
}

fn answer<T: PartialEq + Drop>(found: T, right: T) -> Tally
    ensures { (result.compared ≡ 1) × (result.differing ≤ 1) }
{
    Tally {
        compared: 1,
        differing: u64::from(found != right),
    }
}

// An address for which no row is left is new, its store stores nothing, and it reads as not written.
fn refused(rows: &mut [u8], a: u32) -> Tally {
    let full = answer(matches!(lane_memory::find(rows, a), Found::Full), true);
    let new = answer(lane_memory::new_bytes(rows, a, 1), 1);
    lane_memory::store_byte(rows, a, pattern(5), 0);
    let loaded = lane_memory::load_byte(rows, a, OTHER);
    full.and(new).and(bytes_of(loaded, not_written(), 0))
}

// All rows filled to the last, and overwritten.
fn fill_twice<A: Fn(u32) -> u32>(rows: &mut [u8], address: &A, count: u32) -> Tally
    requires { A.IsAlwaysCallable address.now }
{
    let filling = Filling {
        address,
        count,
        seed: 3,
        place: 0,
    };
    let over = Filling {
        address,
        count,
        seed: 1000,
        place: 2,
    };
    let first = filling.store_and_read(rows, 1);
    let further = refused(rows, address(count));
    let second = over.store_and_read(rows, 0);
    first.and(further).and(second)
}

// One order, between two clearings.
fn case<A: Fn(u32) -> u32 + Drop>(rows: &mut [u8], address: A, count: u32) -> Tally
    requires { A.IsAlwaysCallable address }
{
    let end = (count as usize) * lane_memory::ROW_BYTES;
    lane_memory::clear(rows);
    let before = bytes(rows, end);
    let filled = fill_twice(rows, &address, count);
    lane_memory::clear(rows);
    before.and(filled).and(bytes(rows, end))
}

// So many rows and a remainder, in each order.
fn orders(out: &impl Print, name: &str, rows: &mut [u8], count: u32) -> io::Result<()> {
    let rising = case(rows, |k| 0x8000_1000u32.wrapping_add(k), count);
    let falling = case(rows, |k| 0x8010_0000u32.wrapping_sub(k), count);
    let scattered = case(rows, |k| k.wrapping_mul(2_654_435_761), count);
    println!(out; "{name} {}", rising.and(falling).and(scattered))
}

// The bytes of a stored word against what is loaded.
fn read_word(rows: &[u8], a: u32, width: u32, word: LaneWord) -> Tally
    ensures { (result.compared ≡ (lanes + 1) * width) × (result.differing ≤ (lanes + 1) * width) }
{
    let mut tally = Tally::default();
    for k in 0..width {
        let loaded = lane_memory::load_byte(rows, a.wrapping_add(k), OTHER);
        tally = tally.and(bytes_of(loaded, word, k));
    }
    tally
}

// A word stored, with so many new bytes, and read back.
fn word(rows: &mut [u8], store: Store) -> Tally {
    let Store {
        address,
        width,
        seed,
        new,
    } = store;
    let count = answer(lane_memory::new_bytes(rows, address, width), new);
    lane_memory::store(rows, address, width, pattern(seed));
    count.and(read_word(rows, address, width, pattern(seed)))
}

// All stores one after another, of which the second leaves the first two bytes.
fn words(rows: &mut [u8]) -> Tally {
    lane_memory::clear(rows);
    let mut tally = Tally::default();
    for store in STORES {
        tally = tally.and(word(rows, store));
    }
    tally.and(read_word(rows, 0x8000_2000, 2, pattern(8)))
}

// Memory without a row: nothing is stored, and nothing changes.
fn no_row(memory: &mut [u8]) -> Tally {
    lane_memory::clear(memory);
    let one = refused(memory, 0x8000_0000);
    lane_memory::store(memory, 0x8000_0000, 4, pattern(6));
    one.and(bytes(memory, 0))
}

// Every length below a row's.
fn no_rows(memory: &mut [u8]) -> Tally
    requires { 264 ≤ length memory.old }
{
    let mut tally = Tally::default();
    for end in 0..lane_memory::ROW_BYTES {
        tally = tally.and(no_row(&mut memory[..end]));
    }
    tally
}

// What is told of the byte at `a` and of the next.
fn telling(rows: &[u8], a: u32, first: Option<u32>, second: Option<u32>) -> Tally {
    let one = answer(lane_memory::told_byte(rows, a, OTHER), first);
    let two = answer(
        lane_memory::told_byte(rows, a.wrapping_add(1), OTHER),
        second,
    );
    one.and(two)
}

// The byte at `a` below a word.
fn joined(rows: &[u8], a: u32, high: LaneWord) -> LaneWord {
    let mut values = high.values;
    let known = lane_memory::join_values(rows, a, OTHER, &mut values);
    LaneWord {
        values,
        known: known && high.known,
    }
}

// A known byte below three bytes of a known word: each byte of what they make.
fn joining(rows: &[u8], a: u32) -> Tally {
    let high = pattern(16);
    let word = joined(rows, a, high);
    let loaded = lane_memory::load_byte(rows, a, OTHER);
    let mut tally = bytes_of(word.map_unary(Binary::Byte, 0), loaded, 0);
    for place in 0..3u32 {
        let above = word.map_unary(Binary::Byte, place + 1);
        tally = tally.and(bytes_of(above, high, place));
    }
    tally
}

// Whether the byte and a word of pattern `seed` make a known word.
fn joined_known(rows: &[u8], a: u32, seed: u32, known: bool) -> Tally {
    answer(joined(rows, a, pattern(seed)).known, known)
}

// One value for all lanes, up to the last address and on from the first.
fn one_value(rows: &mut [u8]) -> Tally {
    let new = answer(lane_memory::new_bytes(rows, 0xffff_fffe, 4), 4);
    lane_memory::store_value(rows, 0xffff_fffe, 4, 0x8412_c3f7);
    new.and(read_word(rows, 0xffff_fffe, 4, LaneWord::constant(0x8412_c3f7)))
        .and(telling(rows, 0xffff_fffe, Some(0xf7), Some(0xc3)))
        .and(telling(rows, 1, Some(0x84), Some(u32::from(OTHER))))
        .and(joining(rows, 0xffff_fffe))
        .and(joining(rows, 2))
        .and(joined_known(rows, 0, 17, false))
}

// Lanes over two bytes that had one value.
fn lanes_over(rows: &mut [u8]) -> Tally {
    lane_memory::store(rows, 0xffff_ffff, 2, pattern(18));
    read_word(rows, 0xffff_ffff, 2, pattern(18))
        .and(telling(rows, 0xffff_fffe, Some(0xf7), None))
        .and(telling(rows, 0, None, Some(0x84)))
        .and(joining(rows, 0xffff_ffff))
        .and(joined_known(rows, 0, 17, false))
}

// One value over the lanes of the first of the two.
fn value_over(rows: &mut [u8]) -> Tally {
    lane_memory::store_value(rows, 0xffff_ffff, 1, 0x1ee);
    read_word(rows, 0xffff_ffff, 1, LaneWord::constant(0xee))
        .and(telling(rows, 0xffff_ffff, Some(0xee), None))
        .and(joining(rows, 0xffff_ffff))
}

// A byte that is not known over that value.
fn unknown_over(rows: &mut [u8]) -> Tally {
    lane_memory::store(rows, 0xffff_ffff, 1, pattern(19));
    read_word(rows, 0xffff_ffff, 1, pattern(19))
        .and(telling(rows, 0xffff_ffff, None, None))
        .and(joined_known(rows, 0xffff_ffff, 16, false))
        .and(joined_known(rows, 0, 16, true))
}

// Every row is free again.
fn freed(rows: &mut [u8]) -> Tally {
    lane_memory::unmark(rows);
    let other = Some(u32::from(OTHER));
    answer(lane_memory::new_bytes(rows, 0xffff_fffe, 4), 4)
        .and(telling(rows, 0xffff_fffe, other, other))
        .and(telling(rows, 0, other, other))
        .and(read_word(rows, 0xffff_ffff, 1, not_written()))
}

// The rows are taken with what was left in them.
fn taken(rows: &mut [u8]) -> Tally {
    lane_memory::store_value(rows, 0xffff_ffff, 2, 0x3456);
    lane_memory::store(rows, 1, 1, pattern(20));
    read_word(rows, 0xffff_ffff, 2, LaneWord::constant(0x3456))
        .and(read_word(rows, 1, 1, pattern(20)))
        .and(telling(rows, 0, Some(0x34), None))
}

fn uniform(rows: &mut [u8]) -> Tally {
    lane_memory::clear(rows);
    one_value(rows)
        .and(lanes_over(rows))
        .and(value_over(rows))
        .and(unknown_over(rows))
        .and(freed(rows))
        .and(taken(rows))
}

// 5,000 rows and a remainder.
fn lent() -> [u8; 1_320_263] {
    [0xa5; 1_320_263]
}

fn part(out: &impl Print, name: &str, memory: &mut [u8], end: usize, count: u32) -> io::Result<()>
    requires { end ≤ length memory.old }
{
    orders(out, name, &mut memory[..end], count)
}

fn all(out: &impl Print, memory: &mut [u8]) -> io::Result<()>
    requires { 53063 ≤ length memory.old }
{
    println!(out; "without a row {}", no_rows(memory))?;
    part(out, "4 rows", memory, 1_319, 4)?;
    part(out, "200 rows", memory, 53_063, 200)?;
    orders(out, "5000 rows", memory, 5000)?;
    println!(out; "words {}", words(memory))?;
    println!(out; "uniform {}", uniform(memory))
}

fn main(rt: HostRuntime) -> io::Result<()> {
    let mut memory = lent();
    all(&rt, &mut memory)
}
