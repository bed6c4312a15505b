// The functions for programs in other languages: numbers, byte slices and words only. lane_exports_c exports them to C under the same names.
#![tactic(auto)]

mod from_words;
mod words;

ghost use Rattle.std.specs.Prelude.{◌≡◌};
ghost use Rattle.lane_record.specs.Decode.{decode_record};
ghost use Rattle.lane_word.specs.Range.{invalid_channels};
ghost use Rattle.lane_library.specs.Inputs.{image_in, input_program};
ghost use Rattle.lane_library.specs.Outcome.{ran_said, code, count, lent, Runs};
ghost use Rattle.lane_exports.specs.Boundary.{program_by, range_by, Coded, ReadsWords, WritesWords};

use from_words::outcome_from;
use lane_library::RunError;
use lane_word::InputRange;
use predicate_semantics::{Rv32Program, Rv32SymbolLayout};
pub use words::OUTCOME_WORDS;
use words::words_of;

// An answer as a number, 0 where a record is written, with how many bytes are written beside it.
fn coded(answer: Result<usize, RunError>, written: &mut u64) -> u32
    ensures { (result ≡ code (ran_said answer)) × (written.new ≡ count (ran_said answer)) }
{
    match answer {
        Ok(count) => {
            *written = count as u64; // u64 has no From of usize
            0
        }
        Err(error) => {
            *written = 0;
            error.number()
        }
    }
}

pub fn lane_run(
    input: &[u8],
    rows: &mut [u8],
    trace: &mut [u8],
    output: &mut [u8],
    written: &mut u64,
) -> u32
    ensures { Coded ran_said (λ a. Runs (image_in input.now) (input_program input.now) invalid_channels (lent rows.old trace.old output.old) a (lent rows.new trace.new output.new)) result written.new }
{
    let answer = lane_library::run_input(input, rows, trace, output);
    coded(answer, written)
}

// A firmware, a setting and what is lent, field by field, for callers that pass no structs: include/lane.h has the structs.
pub fn lane_run_with_plain(
    image: &[u8],
    entry: u32,
    event_count: u32,
    events: u32,
    first_input: u8,
    last_input: u8,
    rows: &mut [u8],
    trace: &mut [u8],
    output: &mut [u8],
    written: &mut u64,
) -> u32
    ensures { Coded ran_said (λ a. Runs image.now (program_by entry event_count events) (range_by first_input last_input) (lent rows.old trace.old output.old) a (lent rows.new trace.new output.new)) result written.new }
{
    let symbols = Rv32SymbolLayout {
        entry,
        event_count,
        events,
    };
    let program = Rv32Program { symbols };
    let range = InputRange {
        first: first_input,
        last: last_input,
    };
    let answer = lane_library::run_with(image, program, range, rows, trace, output);
    coded(answer, written)
}

pub fn lane_run_image(
    image: &[u8],
    entry: u32,
    event_count: u32,
    events: u32,
    rows: &mut [u8],
    trace: &mut [u8],
    output: &mut [u8],
    written: &mut u64,
) -> u32
    ensures { Coded ran_said (λ a. Runs image.now (program_by entry event_count events) invalid_channels (lent rows.old trace.old output.old) a (lent rows.new trace.new output.new)) result written.new }
{
    let range = InputRange::invalid_channels();
    lane_run_with_plain(
        image,
        entry,
        event_count,
        events,
        range.first,
        range.last,
        rows,
        trace,
        output,
        written,
    )
}

// A name of its own in include/lane.h: the setting of lane_run_with may grow, and this one's stays at its defaults but for the range.
pub fn lane_run_range(
    image: &[u8],
    entry: u32,
    event_count: u32,
    events: u32,
    first_input: u8,
    last_input: u8,
    rows: &mut [u8],
    trace: &mut [u8],
    output: &mut [u8],
    written: &mut u64,
) -> u32
    ensures { Coded ran_said (λ a. Runs image.now (program_by entry event_count events) (range_by first_input last_input) (lent rows.old trace.old output.old) a (lent rows.new trace.new output.new)) result written.new }
{
    lane_run_with_plain(
        image,
        entry,
        event_count,
        events,
        first_input,
        last_input,
        rows,
        trace,
        output,
        written,
    )
}

pub fn lane_read_record(bytes: &[u8], trace: &mut [u8], outcome: &mut [u32; OUTCOME_WORDS]) -> u32
    ensures { ReadsWords (decode_record bytes.now) trace.old outcome.old result trace.new outcome.new }
{
    match lane_record::read_record(bytes, trace) {
        Ok(read) => {
            *outcome = words_of(read);
            0
        }
        Err(error) => u32::from(error.number()),
    }
}

pub fn lane_write_record(
    outcome: &[u32; OUTCOME_WORDS],
    trace: &[u8],
    output: &mut [u8],
    written: &mut u64,
) -> u32
    ensures { WritesWords outcome.now trace.now output.old result output.new written.new }
{
    let answer = lane_record::write_record(outcome_from(outcome), trace, output);
    coded(answer.map_err(RunError::from), written)
}
