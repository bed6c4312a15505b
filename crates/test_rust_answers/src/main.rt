// Replays the list of the Rust's answers on standard input, which oracle/lanes makes: runs each input, holds its record against the
// list's, byte for byte, and prints for each number and role of a refusal how many cases there are and how many differ.
#![tactic(auto)]

use little_endian::get;
use std::collections::BTreeMap;
use std::io::Read;
use std::{fmt, io};
use test_support::{ListReader, unlike};

// What lent memory holds before a run.
const BEFORE: u8 = 0xa5;

const ROWS_BYTES: usize = 52_800;

const TRACE_BYTES: usize = 26_624;

const RECORD_BYTES: usize = 2048;

#[derive(Clone, Copy, PartialEq, Eq, PartialOrd, Ord)]
enum Class {
    Accepted,
    Refused { number: u8, role: u8 },
}

// How many cases there are, and how many of them differ.
#[derive(Clone, Copy, Default)]
struct Counts {
    cases: u32,
    differing: u32,
}

impl Class {
    // A refusal's number and role count by their remainders modulo 16; where both are 0, as an accepted run.
    fn of(record: &[u8]) -> Class {
        let number = get::<u8>(record, 1) % 16;
        let role = get::<u8>(record, 2) % 16;
        if get::<u8>(record, 0) != 0x7F || (number == 0 && role == 0) {
            return Class::Accepted;
        }
        Class::Refused { number, role }
    }
}

impl fmt::Display for Class {
    fn fmt<W: fmt::Write>(&self, f: &mut fmt::Formatter<W>) -> fmt::Result {
        match self {
            Class::Accepted => write!(f, "accepted"),
            Class::Refused { number, role } => write!(f, "refusal {number} role {role}"),
        }
    }
}

// Whether an input's run, in 200 rows and 2,048 entries, gives this record and leaves the rows zero.
fn agrees(input: &[u8], record: &[u8]) -> bool {
    let mut rows = [BEFORE; ROWS_BYTES];
    let mut trace = [BEFORE; TRACE_BYTES];
    let mut output = [BEFORE; RECORD_BYTES];
    match lane_library::run_input(input, &mut rows, &mut trace, &mut output) {
        Ok(n) => n <= RECORD_BYTES && &output[..n] == record && unlike(&rows, 0) == 0,
        Err(_) => false,
    }
}

// The next case, counted in its class.
fn next_case<R: Read>(
    list: &mut ListReader<R>,
    classes: &mut BTreeMap<Class, Counts>,
) -> io::Result<()> {
    let mut input = [0u8; 1024];
    let mut record = [0u8; RECORD_BYTES];
    let input_bytes = list.bytes(&mut input)?;
    let record_bytes = list.bytes(&mut record)?;
    let record = &record[..record_bytes];
    let differs = !agrees(&input[..input_bytes], record);
    let counts = classes
        .entry(Class::of(record))?
        .or_insert(Counts::default());
    counts.cases = counts.cases.wrapping_add(1);
    counts.differing = counts.differing.wrapping_add(u32::from(differs));
    Ok(())
}

fn main(rt: HostRuntime) -> io::Result<()> {
    let mut list = ListReader { reader: rt.stdin() };
    let mut classes = BTreeMap::new(rt.alloc());
    for _ in 0..list.number()? {
        next_case(&mut list, &mut classes)?;
    }
    for (class, counts) in &classes {
        println!(&rt;
            "{class}: {} replayed, {} differ",
            counts.cases, counts.differing
        )?;
    }
    Ok(())
}
