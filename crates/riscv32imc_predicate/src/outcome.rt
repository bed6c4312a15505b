// The whole run over rows without a mark, and what it answers.
ghost use Rattle.std.specs.Prelude.{[], ◌≡◌};
ghost use Rattle.lane_memory.specs.Rows.{row_count};
ghost use Rattle.lane_memory.specs.Holds.{Holds};
ghost use Rattle.riscv32imc_predicate.specs.Setting.{Setting};
ghost use Rattle.riscv32imc_predicate.specs.Reporting.{refused_run, whole_run, Answered, Calls, Reports, Starts};

use super::finish::{Finished, finish};
use super::run::advance;
use super::start::{
    StartError, range_test, start_place, start_recorded, start_registers, start_test, told_input,
};
use super::{Bounds, Ending, Place, Recorded};
use lane_word::{InputRange, LaneWord};
use predicate_answer::{
    CallError, PredicateTransducerExecution, RecordOutcome, Rv32Error, refused_outcome,
};
use predicate_semantics::{Rv32Program, STOP, STOP_WORD};
use predicate_trace::ENTRY_BYTES;
use rv32_arithmetic::rv32_mul;

// More steps than any run has, so that none pauses.
const NEVER: u32 = 0xFFFF_FFFF;

fn refused(error: Rv32Error, steps: u32) -> RecordOutcome
    ensures { result ≡ refused_run error steps }
{
    refused_outcome(error.after(steps))
}

// What is found at stop, or the refusal there.
fn answered(
    range: InputRange,
    place: Place,
    recorded: Recorded,
    finished: Result<Finished, Rv32Error>,
) -> RecordOutcome
    ensures { Answered range place recorded finished result }
{
    match finished {
        Err(error) => refused(error, place.steps),
        Ok(finished) => {
            let lane_count = range.count();
            let events = finished.events;
            RecordOutcome {
                answer: Ok(()),
                execution: PredicateTransducerExecution {
                    first_input: range.first,
                    lane_count,
                    return_value: finished.return_value,
                    symbolic_transitions: place.steps,
                    lane_value_operations: rv32_mul(u32::from(lane_count), place.steps),
                    sparse_memory_bytes: place.written,
                    // Cut, as a step's length is.
                    event_count: (recorded.count % 256) as u8,
                },
                events,
            }
        }
    }
}

// A call of the loop that goes on to the run's end, with the whole entries of a trace.
fn whole_run(limit: u32, trace: &[u8]) -> Bounds
    ensures { result ≡ whole_run limit trace.now }
{
    Bounds {
        limit,
        pause: NEVER,
        entries: trace.len() / ENTRY_BYTES,
    }
}

// The run once its tests have passed: from the first state to where the loop ends. No run pauses.
fn started(
    image: &[u8],
    program: Rv32Program,
    range: InputRange,
    limit: u32,
    rows: &mut [u8],
    trace: &mut [u8],
) -> RecordOutcome
    requires { Holds rows.old (row_count rows.old) [] × Starts image.now program range rows.old }
    ensures { (c : Setting) → Calls c image.now program range limit rows.old trace.old → Reports c range (Ok result) rows.old rows.new trace.new }
{
    let symbols = program.symbols;
    lane_memory::store_value(rows, STOP, 4, STOP_WORD);
    let bounds = whole_run(limit, trace);
    let reached = advance(
        start_place(symbols.entry),
        start_registers(LaneWord::input_domain(range), told_input(range)),
        start_recorded(),
        image,
        symbols,
        rows,
        trace,
        bounds,
    );
    let place = reached.place;
    match reached.ending {
        Ending::Refused(error) => refused(error, place.steps),
        Ending::Paused => refused(Rv32Error::StepLimit, place.steps),
        Ending::Arrived => {
            let recorded = reached.recorded;
            let finished = finish(recorded, reached.x10, image, symbols, rows);
            answered(range, place, recorded, finished)
        }
    }
}

// The run of a range's inputs, in at most `limit` steps.
pub fn run(
    image: &[u8],
    program: Rv32Program,
    range: InputRange,
    limit: u32,
    rows: &mut [u8],
    trace: &mut [u8],
) -> Result<RecordOutcome, CallError>
    requires { Holds rows.old (row_count rows.old) [] }
    ensures { (c : Setting) → Calls c image.now program range limit rows.old trace.old → Reports c range result rows.old rows.new trace.new }
{
    let rows_lent = lane_memory::row_count(rows);
    match start_test(image.len(), program.symbols, range_test(range), rows_lent) {
        Err(StartError::Call(error)) => Err(error),
        Err(StartError::Run(error)) => Ok(refused(error, 0)),
        Ok(()) => Ok(started(image, program, range, limit, rows, trace)),
    }
}
