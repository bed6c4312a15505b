// Reads entry, event count address, events address and image from standard input, and writes the record of the image's run.
#![tactic(auto)]

use lane_program::INPUT_BYTES;
use std::io;
use std::io::Read;

// Up to the end of the input, or of the room for it: std's read_exact fails at the end, and read_to_end allocates.
fn read<R: Read>(reader: &mut R, input: &mut [u8]) -> io::Result<usize> {
    let mut done = 0;
    while done < input.len() {
        let more = reader.read(&mut input[done..])?;
        if more == 0 {
            break;
        }
        done += more;
    }
    Ok(done)
}

fn main(rt: HostRuntime) -> io::Result<()> {
    let mut input = [0; INPUT_BYTES];
    let reading = read(&mut rt.stdin(), &mut input);
    let output = lane_program::answer(reading.ok(), input);
    rt.write_all(output.record())
}
