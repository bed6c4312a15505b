// The functions of lane_exports, exported to C. include/lane.h declares them.
#![tactic(auto)]

ghost use Rattle.lane_record.specs.Decode.{decode_record};
ghost use Rattle.lane_word.specs.Range.{invalid_channels};
ghost use Rattle.lane_library.specs.Inputs.{image_in, input_program};
ghost use Rattle.lane_library.specs.Outcome.{ran_said, lent, Runs};
ghost use Rattle.lane_exports.specs.Boundary.{program_by, range_by, Coded, ReadsWords, WritesWords};

use lane_exports::OUTCOME_WORDS;

#[unsafe(no_mangle)]
pub extern "C" fn lane_run(
    input: &[u8],
    rows: &mut [u8],
    trace: &mut [u8],
    output: &mut [u8],
    written: &mut u64,
) -> u32
    ensures { Coded ran_said (λ a. Runs (image_in input.now) (input_program input.now) invalid_channels (lent rows.old trace.old output.old) a (lent rows.new trace.new output.new)) result written.new }
{
    lane_exports::lane_run(input, rows, trace, output, written)
}

#[unsafe(no_mangle)]
pub extern "C" fn lane_run_with_plain(
    image: &[u8],
    entry: u32,
    event_count: u32,
    events: u32,
    first_input: u8,
    last_input: u8,
    rows: &mut [u8],
    trace: &mut [u8],
    output: &mut [u8],
    written: &mut u64,
) -> u32
    ensures { Coded ran_said (λ a. Runs image.now (program_by entry event_count events) (range_by first_input last_input) (lent rows.old trace.old output.old) a (lent rows.new trace.new output.new)) result written.new }
{
    lane_exports::lane_run_with_plain(
        image,
        entry,
        event_count,
        events,
        first_input,
        last_input,
        rows,
        trace,
        output,
        written,
    )
}

#[unsafe(no_mangle)]
pub extern "C" fn lane_run_image(
    image: &[u8],
    entry: u32,
    event_count: u32,
    events: u32,
    rows: &mut [u8],
    trace: &mut [u8],
    output: &mut [u8],
    written: &mut u64,
) -> u32
    ensures { Coded ran_said (λ a. Runs image.now (program_by entry event_count events) invalid_channels (lent rows.old trace.old output.old) a (lent rows.new trace.new output.new)) result written.new }
{
    lane_exports::lane_run_image(
        image,
        entry,
        event_count,
        events,
        rows,
        trace,
        output,
        written,
    )
}

#[unsafe(no_mangle)]
pub extern "C" fn lane_run_range(
    image: &[u8],
    entry: u32,
    event_count: u32,
    events: u32,
    first_input: u8,
    last_input: u8,
    rows: &mut [u8],
    trace: &mut [u8],
    output: &mut [u8],
    written: &mut u64,
) -> u32
    ensures { Coded ran_said (λ a. Runs image.now (program_by entry event_count events) (range_by first_input last_input) (lent rows.old trace.old output.old) a (lent rows.new trace.new output.new)) result written.new }
{
    lane_exports::lane_run_range(
        image,
        entry,
        event_count,
        events,
        first_input,
        last_input,
        rows,
        trace,
        output,
        written,
    )
}

#[unsafe(no_mangle)]
pub extern "C" fn lane_read_record(
    bytes: &[u8],
    trace: &mut [u8],
    outcome: &mut [u32; OUTCOME_WORDS],
) -> u32
    ensures { ReadsWords (decode_record bytes.now) trace.old outcome.old result trace.new outcome.new }
{
    lane_exports::lane_read_record(bytes, trace, outcome)
}

#[unsafe(no_mangle)]
pub extern "C" fn lane_write_record(
    outcome: &[u32; OUTCOME_WORDS],
    trace: &[u8],
    output: &mut [u8],
    written: &mut u64,
) -> u32
    ensures { WritesWords outcome.now trace.now output.old result output.new written.new }
{
    lane_exports::lane_write_record(outcome, trace, output, written)
}
