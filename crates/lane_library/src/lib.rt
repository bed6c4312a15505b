// A call from what its caller chose and lent to the record's bytes, and from the program's input bytes to them.
#![tactic(auto)]

ghost use Rattle.std.specs.Prelude.{◌≡◌, Some};
ghost use Rattle.lane_word.specs.Range.{invalid_channels};
ghost use Rattle.lane_library.specs.Inputs.{input_program, image_in};
ghost use Rattle.lane_library.specs.Texts.{ran_text};
ghost use Rattle.lane_library.specs.Outcome.{ran_number, lent, Runs};
ghost use Rattle.lane_library.specs.declared.RunError.TheVariants.{Record, Call};

use lane_record::WriteError;
use lane_word::InputRange;
use predicate_answer::CallError;
use predicate_semantics::{Rv32Program, Rv32SymbolLayout};
use std::error::Error;
use std::fmt;

// Why a call has no record: what its writer refuses, or the call's own refusal.
#[derive(Clone, Copy, Debug)]
pub enum RunError {
    Record(WriteError),
    Call(CallError),
}

// The bytes of the symbols before the image.
const SYMBOL_BYTES: usize = 12;

// The largest image that an input can have.
const IMAGE_BYTES: usize = 32_768;

// The longest input that is taken.
pub const INPUT_BYTES: usize = SYMBOL_BYTES + IMAGE_BYTES;

impl RunError {
    pub fn number(self) -> u32
        ensures { result ≡ ran_number self }
    {
        match self {
            RunError::Record(error) => u32::from(error.number()),
            RunError::Call(error) => u32::from(error.number()),
        }
    }
}

impl From<WriteError> for RunError {
    ghost from_gives = { λ error run. run ≡ Record error };

    fn from(error: WriteError) -> RunError {
        RunError::Record(error)
    }
}

impl From<CallError> for RunError {
    ghost from_gives = { λ error run. run ≡ Call error };

    fn from(error: CallError) -> RunError {
        RunError::Call(error)
    }
}

impl fmt::Display for RunError {
    ghost output = { λ error. Some (ran_text error) };

    fn fmt<W: fmt::Write>(&self, f: &mut fmt::Formatter<W>) -> fmt::Result {
        match self {
            RunError::Record(error) => write!(f, "{error}"),
            RunError::Call(error) => write!(f, "{error}"),
        }
    }
}

impl Error for RunError {}

// The run of an image, and its record where it has one. Rows, trace and output are three slices, as C lends them.
pub fn run_with(
    image: &[u8],
    program: Rv32Program,
    range: InputRange,
    rows: &mut [u8],
    trace: &mut [u8],
    output: &mut [u8],
) -> Result<usize, RunError>
    ensures { Runs image.now program range (lent rows.old trace.old output.old) result (lent rows.new trace.new output.new) }
{
    let outcome = riscv32imc_predicate::execute_predicate(image, program, range, rows, trace)?;
    Ok(lane_record::write_record(outcome, trace, output)?)
}

fn program_in(input: &[u8]) -> Rv32Program
    ensures { result ≡ input_program input.now }
{
    Rv32Program {
        symbols: Rv32SymbolLayout {
            entry: little_endian::get(input, 0),
            event_count: little_endian::get(input, 4),
            events: little_endian::get(input, 8),
        },
    }
}

// The image after the symbols; none where it has no byte, or more than are taken.
fn image_in(input: &[u8]) -> &[u8]
    ensures { result.now ≡ image_in input.now }
{
    match input.get(SYMBOL_BYTES..) {
        Some(image) if image.len() <= IMAGE_BYTES => image,
        _ => &[],
    }
}

// The run of an input as the program takes it: every input has a record, since one that is not taken is a run of no image, refused with 1.
pub fn run_input(
    input: &[u8],
    rows: &mut [u8],
    trace: &mut [u8],
    output: &mut [u8],
) -> Result<usize, RunError>
    ensures { Runs (image_in input.now) (input_program input.now) invalid_channels (lent rows.old trace.old output.old) result (lent rows.new trace.new output.new) }
{
    run_with(
        image_in(input),
        program_in(input),
        InputRange::invalid_channels(),
        rows,
        trace,
        output,
    )
}
