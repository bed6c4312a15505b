// Calls what C calls, and the library's run_with, on the lists of standard input and the files that the arguments name, which
// oracle/exports makes, and prints every answer, every word of an outcome by its place, and every lent byte afterwards.
#![tactic(auto)]

mod files;
mod records;
mod runs;
mod show;

use records::LENT_BYTES;
use std::io;
use test_support::ListReader;

fn main(rt: HostRuntime) -> io::Result<()> {
    let mut list = ListReader { reader: rt.stdin() };
    for _ in 0..list.number()? {
        runs::next_run(&rt, rt.alloc(), &mut list)?;
    }
    let mut bytes = [0u8; LENT_BYTES];
    for _ in 0..list.number()? {
        records::next_reading(&rt, rt.alloc(), &mut list, &mut bytes)?;
    }
    let mut trace = [0u8; LENT_BYTES];
    for _ in 0..list.number()? {
        records::next_writing(&rt, rt.alloc(), &mut list, &mut trace)?;
    }
    files::files(&rt)
}
