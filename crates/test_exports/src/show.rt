// What is lent, and how it is printed.
use std::alloc::{AllocError, Global};
use std::io::Read;
use std::{fmt, io};
use test_support::ListReader;

// What is lent holds before a call, each kind something else.
pub const ROWS_BEFORE: u8 = 0xa5;

pub const TRACE_BEFORE: u8 = 0x5a;

pub const OUTPUT_BEFORE: u8 = 0xc3;

pub const WORD_BEFORE: u32 = 0xe7e7_e7e7;

pub const WRITTEN_BEFORE: u64 = 0x9999_9999_9999_9999;

// The words of `struct lane_outcome` in include/lane.h.
pub const OUTCOME_WORDS: usize = 139;

// So many equal bytes are printed as their number and one of them.
const MANY: usize = 8;

// What a call that writes answers, and what it sets `written` to.
#[derive(Clone, Copy)]
pub struct Written {
    pub answer: u32,
    pub count: u64,
}

impl fmt::Display for Written {
    fn fmt<W: fmt::Write>(&self, f: &mut fmt::Formatter<W>) -> fmt::Result {
        write!(f, "{}, written {}", self.answer, self.count)
    }
}

// The next text of a list, of at most 64 bytes, as it is.
pub fn report_name<R: Read>(out: &impl Print, list: &mut ListReader<R>) -> io::Result<()> {
    let mut name = [0u8; 64];
    let length = list.bytes(&mut name)?;
    out.write_all(&name[..length])
}

// Equal bytes, all or as their number.
fn report_equal(out: &impl Print, bytes: &[u8]) -> io::Result<()> {
    match bytes {
        [byte, ..] if MANY <= bytes.len() => print!(out; " {}*{byte:02x}", bytes.len()),
        _ => {
            for byte in bytes {
                print!(out; " {byte:02x}")?;
            }
            Ok(())
        }
    }
}

// A line of a name and every byte.
pub fn report_bytes(out: &impl Print, name: &str, bytes: &[u8]) -> io::Result<()> {
    print!(out; "{name}")?;
    for equal in bytes.chunk_by(|a, b| a == b) {
        report_equal(out, equal)?;
    }
    println!(out)
}

// The fields of an outcome before its events, in the order and by the names of include/lane.h.
pub fn report_fields(out: &impl Print, words: &[u32; OUTCOME_WORDS]) -> io::Result<()> {
    print!(out;
        "  kind {}, number {}, role {}, completed_steps {}",
        words[0], words[1], words[2], words[3]
    )?;
    print!(out;
        ", first_input {}, lanes {}, return_value {}, steps {}",
        words[4], words[5], words[6], words[7]
    )?;
    println!(out;
        ", lane_operations {}, written_bytes {}, event_count {}",
        words[8], words[9], words[10]
    )
}

// Every word of an outcome, as its bytes from the lowest up.
pub fn report_words(
    out: &impl Print,
    alloc: Global,
    words: &[u32; OUTCOME_WORDS],
) -> io::Result<()> {
    report_bytes(out, "  words", &bytes_of(alloc, words)?)
}

fn bytes_of(alloc: Global, words: &[u32]) -> Result<Vec<u8>, AllocError> {
    let mut bytes = Vec::new(alloc);
    for word in words {
        bytes.extend_from_slice(&word.to_le_bytes())?;
    }
    Ok(bytes)
}
