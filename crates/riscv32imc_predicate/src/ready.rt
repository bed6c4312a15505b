// What comes at a place: a fetched instruction, or how the call ends.
ghost use Rattle.riscv32imc_predicate.specs.Coming.{Readied};

use super::{Bounds, Ending, Place, Progress};
use predicate_action::{action_of, reading_of};
use predicate_answer::Rv32Error;
use predicate_semantics::STOP;

// The arrival at stop, the pause, the limit, then the fetch.
pub fn ready(place: Place, image: &[u8], rows: &[u8], bounds: Bounds) -> Result<Progress, Ending>
    ensures { Readied image.now rows.now bounds place result }
{
    let pc = place.pc;
    if pc == STOP {
        return Err(Ending::Arrived);
    }
    if place.steps == bounds.pause {
        return Err(Ending::Paused);
    }
    if bounds.limit <= place.steps {
        return Err(Ending::Refused(Rv32Error::StepLimit));
    }
    let fetched = lane_access::fetch(image, rows, pc)?;
    let action = action_of(fetched.operation, pc);
    Ok(Progress {
        action,
        word: fetched.word,
        length: fetched.length,
        reading: reading_of(action),
    })
}
