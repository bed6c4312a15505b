// What an operation comes to, with the tests that it makes: a step, or a refusal.
ghost use Rattle.std.specs.Prelude.{◌≡◌, ◌+◌, leb};
ghost use Rattle.riscv32imc.specs.Constants.{image_base};
ghost use Rattle.predicate_action.specs.Meaning.{extension_of};
ghost use Rattle.predicate_semantics.specs.Lane.{room_for};
ghost use Rattle.lane_memory.specs.Rows.{row_count, new_bytes};
ghost use Rattle.lane_access.specs.Answers.{tested_of};
ghost use Rattle.riscv32imc_predicate.specs.Changes.{Suits, SuitsChange, SetsComputed, JumpsTo, Branches, LoadsFrom, StoresTo, ExecutesAction};
ghost use Rattle.riscv32imc_predicate.specs.Tracking.{Decides};

use super::{Change, Place, Progress, Step};
use lane_access::{agreed_in, range_of};
use lane_word::UniformError;
use predicate_action::{Action, Extension};
use predicate_answer::{Role, Rv32Error};
use rv32_arithmetic::{rv32_add, sign_extend};

// A computed word that is uniform is set as one value.
#[tactic(auto, using(lane_word::proofs::ToldLaws::told_is))]
fn compute(rd: u32, tested: Result<u32, UniformError>, next: u32) -> Step
    ensures { SetsComputed result rd tested next × SuitsChange tested result.change }
{
    let change = match tested {
        Ok(value) => Change::Sets { rd, value },
        Err(_) => Change::Computes { rd },
    };
    Step { change, next }
}

// JALR: the target, whose bit 0 is cleared, must not be 0.
fn jump_to(rd: u32, tested: Result<u32, UniformError>, next: u32) -> Result<Step, Rv32Error>
    ensures { JumpsTo result rd tested next × Suits tested result }
{
    let target = agreed_in(tested, Role::JumpTarget)?;
    if target == 0 {
        return Err(Rv32Error::ZeroTarget);
    }
    Ok(Step {
        change: Change::Sets { rd, value: next },
        next: target,
    })
}

fn branch(tested: Result<u32, UniformError>, target: u32, next: u32) -> Result<Step, Rv32Error>
    ensures { Branches result tested target next × Suits tested result }
{
    let direction = agreed_in(tested, Role::Branch)?;
    Ok(Step {
        change: Change::Nothing,
        next: if direction == 0 { next } else { target },
    })
}

// A loaded number, filled by its sign or by zeros. Words have a function of their own: a trait for both would be longer than the two.
fn extend_value(value: u32, extension: Extension) -> u32
    ensures { result ≡ extension_of extension value }
{
    match extension {
        Extension::Byte => sign_extend(value, 8),
        Extension::Halfword => sign_extend(value, 16),
        Extension::Unchanged => value,
    }
}

fn load(
    rd: u32,
    tested: Result<u32, UniformError>,
    width: u32,
    extension: Extension,
    next: u32,
    image: &[u8],
    rows: &[u8],
) -> Result<Step, Rv32Error>
    ensures { LoadsFrom image.now rows.now result rd tested width extension next × Suits tested result }
{
    let address = agreed_in(tested, Role::LoadAddress)?;
    let loaded = lane_access::load(image, rows, address, width)?;
    let change = match loaded {
        Some(value) => Change::Sets {
            rd,
            value: extend_value(value, extension),
        },
        None => Change::Loads {
            rd,
            address,
            width,
            extension,
        },
    };
    Ok(Step { change, next })
}

// Whether the written bytes and a store's new ones have rows; the new ones are looked for only where not all of the store's would.
#[tactic(auto, using(lane_memory::proofs::Laws::new_bytes_most))]
fn rows_suffice(rows: &[u8], written: u32, address: u32, width: u32) -> bool
    ensures { result ≡ leb (written + new_bytes rows.now width address) (row_count rows.now) }
{
    // `u64` has no `From` of `usize`, and `usize` none of `u32`.
    let count = lane_memory::row_count(rows) as u64;
    if u64::from(written) + u64::from(width) <= count {
        return true;
    }
    let new = lane_memory::new_bytes(rows, address, width);
    u64::from(written) + u64::from(new) <= count
}

// Where a store may go: range, image, rows.
fn room_for(
    address: u32,
    width: u32,
    size: usize,
    rows: &[u8],
    written: u32,
) -> Result<(), Rv32Error>
    ensures { tested_of result ≡ room_for (image_base + size) (row_count rows.now) address width (written + new_bytes rows.now width address) }
{
    range_of(address, width)?;
    if ((address - riscv32imc::RV32_IMAGE_BASE) as usize) < size {
        return Err(Rv32Error::StoreBelowImageEnd);
    }
    if !rows_suffice(rows, written, address, width) {
        return Err(Rv32Error::NoRow);
    }
    Ok(())
}

fn store(
    tested: Result<u32, UniformError>,
    width: u32,
    next: u32,
    size: usize,
    rows: &[u8],
    written: u32,
) -> Result<Step, Rv32Error>
    ensures { StoresTo rows.now written size result tested width next × Suits tested result }
{
    let address = agreed_in(tested, Role::StoreAddress)?;
    room_for(address, width, size, rows, written)?;
    Ok(Step {
        change: Change::Stores { address, width },
        next,
    })
}

// An action, by what is told of the word that it computes. Image and rows stay two arguments, here and in the other parts: as one
// struct they would make a fetch take twice as long.
fn execute(
    action: Action,
    next: u32,
    tested: Result<u32, UniformError>,
    image: &[u8],
    rows: &[u8],
    written: u32,
) -> Result<Step, Rv32Error>
    ensures { ExecutesAction image.now rows.now written result next tested action × Suits tested result }
{
    match action {
        Action::Nothing => Ok(Step {
            change: Change::Nothing,
            next,
        }),
        Action::Literal { rd, value } => Ok(Step {
            change: Change::Sets { rd, value },
            next,
        }),
        Action::Compute { rd, .. } | Action::ComputeImmediate { rd, .. } => {
            Ok(compute(rd, tested, next))
        }
        Action::Jump { rd, target } => Ok(Step {
            change: Change::Sets { rd, value: next },
            next: target,
        }),
        Action::JumpTo { rd, .. } => jump_to(rd, tested, next),
        Action::Branch { target, .. } => branch(tested, target, next),
        Action::Load {
            rd,
            width,
            extension,
            ..
        } => load(rd, tested, width, extension, next, image, rows),
        Action::Store { width, .. } => store(tested, width, next, image.len(), rows, written),
    }
}

// What the fetched step comes to, by what is told of the word that it computes. The trace space is the last test.
pub fn decide(
    progress: Progress,
    place: Place,
    tested: Result<u32, UniformError>,
    image: &[u8],
    rows: &[u8],
    entries: usize,
) -> Result<Step, Rv32Error>
    ensures { Decides image.now rows.now progress place tested entries result × Suits tested result }
{
    let following = rv32_add(place.pc, progress.length);
    let step = execute(
        progress.action,
        following,
        tested,
        image,
        rows,
        place.written,
    )?;
    if entries <= place.steps as usize {
        return Err(Rv32Error::NoTraceEntry);
    }
    Ok(step)
}
