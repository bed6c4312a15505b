// What the test programs share: a list of numbers and bytes, a count of unlike bytes, and a line of a record.
#![tactic(auto)]

ghost use Rattle.std.specs.Prelude.{◌≡◌, ◌≢◌, ◌≤◌, ◌==◌, [], not, length, count_by, take, drop, min, if◌then◌else◌, IfSome, IfOk, IfErr, OnOk};
ghost use Rattle.std.specs.Io.{StartsWith};
ghost use Rattle.std.specs.IoError.{error_kind};
ghost use Rattle.test_support.specs.Listed.{Leaves, number_at, fits, bytes_at};

use little_endian::get;
use std::io::{ErrorKind, Read};
use std::{fmt, io};

// All of standard input; no clause can say what that is. A read that is interrupted is tried again. Input without end runs out of memory: `ListReader`
// reads no more than what is asked for.
pub fn read_input<R: Input + Alloc>(rt: &R) -> io::Result<Vec<u8, R::A>>
    ensures retried { IfErr result (λ e. error_kind e ≢ ErrorKind.Interrupted) }
{
    let mut bytes = Vec::new(rt.alloc());
    rt.reader().read_to_end(&mut bytes)?;
    Ok(bytes)
}

// Up to the end of the reader, or of the buffer: how many bytes were read. Here and below an error is the reader's own, and comes of nothing else; a
// buffer then holds what was read before it.
pub fn read_full<R: Read>(reader: &mut R, buffer: &mut [u8]) -> io::Result<usize>
    ensures read { IfOk result (λ n. n ≤ length buffer.old) }
    ensures kept { length buffer.new ≡ length buffer.old }
    ensures value { IfOk result (λ n. IfSome (R.remaining reader.old) (λ left. take n buffer.new ≡ take (length buffer.old) left)) }
    ensures left { OnOk result (Leaves (drop (length buffer.old)) (R.remaining reader.old) (R.remaining reader.new)) }
{
    let mut done: usize = 0;
    while done < buffer.len() {
        let more = reader.read(&mut buffer[done..])?;
        if more == 0 {
            return Ok(done);
        }
        done += more;
    }
    Ok(done)
}

// What is left of a list of numbers, each of 4 bytes from the lowest up, and of bytes, each time with their number before them.
#[derive(Drop)]
pub struct Listed<'a> {
    pub left: &'a [u8],
}

impl<'a> Listed<'a> {
    // So many bytes, or what is left where that is less.
    pub fn take(&mut self, count: usize) -> &'a [u8]
        ensures value { result.now ≡ take count self.old.left.now }
        ensures left { self.new.left.now ≡ drop count self.old.left.now }
    {
        let (bytes, left) = self.left.split_at(self.left.len().min(count));
        self.left = left;
        bytes
    }

    // The next number; past the end its bytes are zeros.
    pub fn number(&mut self) -> u32
        ensures value { result ≡ number_at self.old.left.now }
        ensures left { self.new.left.now ≡ drop 4 self.old.left.now }
    {
        get::<u32>(self.take(4), 0)
    }

    // The next number, or the limit where that is less.
    pub fn size(&mut self, limit: usize) -> usize
        ensures value { result ≡ min (number_at self.old.left.now) limit }
        ensures left { self.new.left.now ≡ drop 4 self.old.left.now }
    {
        limit.min(self.number() as usize)
    }

    // The next bytes, behind their number; none, and they stay in the list, where they are more than the limit.
    pub fn bytes(&mut self, limit: usize) -> &'a [u8]
        ensures bound { length result.now ≤ limit }
        ensures value { result.now ≡ (if fits self.old.left.now limit then bytes_at self.old.left.now else []) }
        ensures left { self.new.left.now ≡ (if fits self.old.left.now limit then drop (number_at self.old.left.now) (drop 4 self.old.left.now) else drop 4 self.old.left.now) }
    {
        let count = self.number() as usize;
        if limit < count {
            return &[];
        }
        self.take(count)
    }
}

// Such a list in a reader, which may fail. No more of it is read than what is asked for.
#[derive(Drop)]
pub struct ListReader<R> {
    pub reader: R,
}

impl<R: Read> ListReader<R> {
    // The next number; past the end its bytes are zeros.
    pub fn number(&mut self) -> io::Result<u32>
        ensures value { IfOk result (λ n. IfSome (R.remaining self.old.reader) (λ left. n ≡ number_at left)) }
        ensures left { OnOk result (Leaves (drop 4) (R.remaining self.old.reader) (R.remaining self.new.reader)) }
    {
        let mut bytes = [0u8; 4];
        let count = read_full(&mut self.reader, &mut bytes)?;
        Ok(get::<u32>(&bytes[..count], 0))
    }

    // The next number, or the limit where that is less.
    pub fn size(&mut self, limit: usize) -> io::Result<usize>
        ensures bound { IfOk result (λ n. n ≤ limit) }
        ensures value { IfOk result (λ n. IfSome (R.remaining self.old.reader) (λ left. n ≡ min (number_at left) limit)) }
        ensures left { OnOk result (Leaves (drop 4) (R.remaining self.old.reader) (R.remaining self.new.reader)) }
    {
        Ok(limit.min(self.number()? as usize))
    }

    // How many bytes come next, which are read into the buffer's beginning, as far as the list has them; 0, and they stay in the list, where the buffer
    // is too short.
    pub fn bytes(&mut self, buffer: &mut [u8]) -> io::Result<usize>
        ensures read { IfOk result (λ n. n ≤ length buffer.old) }
        ensures kept { length buffer.new ≡ length buffer.old }
        ensures count { IfOk result (λ n. IfSome (R.remaining self.old.reader) (λ left. n ≡ (if fits left (length buffer.old) then number_at left else 0))) }
        ensures value { IfOk result (λ n. IfSome (R.remaining self.old.reader) (λ left. StartsWith buffer.new (if fits left (length buffer.old) then bytes_at left else []))) }
        ensures left { OnOk result (Leaves (λ left. if fits left (length buffer.old) then drop (number_at left) (drop 4 left) else drop 4 left) (R.remaining self.old.reader) (R.remaining self.new.reader)) }
    {
        let count = self.number()? as usize;
        if buffer.len() < count {
            return Ok(0);
        }
        read_full(&mut self.reader, &mut buffer[..count])?;
        Ok(count)
    }
}

// How many bytes are not `byte`.
pub fn unlike(bytes: &[u8], byte: u8) -> usize
    ensures { result ≡ count_by (λ b. not (b == byte)) bytes.now }
{
    let mut count = 0;
    for b in bytes {
        if *b != byte {
            count += 1;
        }
    }
    count
}

// What docs/RECORD.md has at these places of a record's heading, or of a refusal.
#[derive(Clone, Copy)]
pub struct Heading<'a>(pub &'a [u8]);

impl fmt::Display for Heading<'_> {
    fn fmt<W: fmt::Write>(&self, f: &mut fmt::Formatter<W>) -> fmt::Result {
        let record = self.0;
        if get::<u8>(record, 0) == 0x01 {
            write!(
                f,
                "accepted, return value {}, steps {}, events {}, written bytes {}",
                get::<u32>(record, 4),
                get::<u32>(record, 8),
                get::<u8>(record, 20),
                get::<u32>(record, 16)
            )
        } else {
            write!(
                f,
                "refusal {}, role {}, steps {}",
                get::<u8>(record, 1),
                get::<u8>(record, 2),
                get::<u32>(record, 3)
            )
        }
    }
}
