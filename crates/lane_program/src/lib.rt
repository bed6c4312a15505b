// The program lane-run between its input and its output: what it lends to the run, and the record that it writes.
#![tactic(auto)]

mod output;

ghost use Rattle.std.specs.Prelude.{◌≡◌, replicate};
ghost use Rattle.lane_library.specs.Inputs.{program_entries};
ghost use Rattle.lane_library.specs.Outcome.{record_bytes};
ghost use Rattle.lane_program.specs.Program.{Outputs, Answers};

use lane_memory::ROW_BYTES;
use lane_record::{EVENT_BYTES, HEADING_BYTES, STEP_BYTES};
pub use output::ProgramOutput;
use predicate_answer::MAX_EVENTS;
use predicate_trace::ENTRY_BYTES;

// What the program lends.
const ROWS: usize = 200;

const ENTRIES: usize = 2_048;

const ROW_SPACE: usize = ROWS * ROW_BYTES;

const TRACE_SPACE: usize = ENTRIES * ENTRY_BYTES;

// The longest record.
pub const RECORD_BYTES: usize = HEADING_BYTES + MAX_EVENTS * EVENT_BYTES + ENTRIES * STEP_BYTES;

// One byte more than the longest input that is taken, so that a longer one is seen to be longer.
pub const INPUT_BYTES: usize = lane_library::INPUT_BYTES + 1;

// The record of an input's run, into bytes for the longest; how many it has.
fn record_input(input: &[u8], bytes: &mut [u8]) -> usize
    requires { bytes.old ≡ replicate (record_bytes program_entries) 0 }
    ensures { Outputs input.now (record { bytes = bytes.new; count = result }) }
{
    let mut rows = [0u8; ROW_SPACE];
    let mut trace = [0u8; TRACE_SPACE];
    let answer = lane_library::run_input(input, &mut rows, &mut trace, bytes);
    answer.unwrap_or(0)
}

// The output is long enough for every record, so there is always one.
pub fn run_program(input: &[u8]) -> ProgramOutput
    ensures { Outputs input.now result }
{
    let mut output = ProgramOutput {
        bytes: [0; RECORD_BYTES],
        count: 0,
    };
    output.count = record_input(input, &mut output.bytes);
    output
}

// What the program writes, of so many bytes before the input's end, or as many as there is room for. Without a count a read failed: then nothing, since
// what was read may be the beginning of another image. The input's type sees to it that the program has the room for it. One output for both ways: of
// every copy of it the frame has as many bytes more.
pub fn answer(reading: Option<usize>, input: [u8; INPUT_BYTES]) -> ProgramOutput
    ensures { Answers reading input result }
{
    let mut output = ProgramOutput {
        bytes: [0; RECORD_BYTES],
        count: 0,
    };
    if let Some(count) = reading {
        output.count = record_input(&input[..count.min(INPUT_BYTES)], &mut output.bytes);
    }
    output
}
