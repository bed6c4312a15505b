// After a decision: the location of an event, the step's trace entry, the next place.
ghost use Rattle.std.specs.Prelude.{◌≡◌, ◌*◌, ◌%◌};
ghost use Rattle.predicate_trace.specs.Trace.{entry_bytes, put_entry};
ghost use Rattle.riscv32imc_predicate.specs.Tracking.{moved_to, entry_by, Added, Located};

use super::{EVENT_LIMIT, Place, Recorded};
use predicate_trace::{ENTRY_BYTES, PredicateControlStep, put_entry};
use rv32_arithmetic::rv32_add;

// One location more: the first are kept, the others counted.
#[tactic(auto, using(crate::proofs::Locations::counted, crate::proofs::Locations::kept_first, crate::proofs::Locations::kept_others))]
fn added(recorded: Recorded, pc: u32) -> Recorded
    ensures { Added recorded pc result }
{
    let count = recorded.count;
    let mut locations = recorded.locations;
    if count < EVENT_LIMIT {
        // `usize` has no `From` of `u32`.
        locations[count as usize] = pc;
    }
    Recorded {
        count: rv32_add(count, 1),
        locations,
    }
}

// An SW exactly at the event count's address is located, no other store.
#[tactic(auto, using(crate::proofs::Locations::recorded_here, crate::proofs::Locations::recorded_elsewhere))]
pub fn located(recorded: Recorded, pc: u32, address: u32, width: u32, event_count: u32) -> Recorded
    ensures { Located recorded pc address width event_count result }
{
    if width == 4 && address == event_count {
        return added(recorded, pc);
    }
    recorded
}

// The place after a step that goes on. Sums wrap only where no run can be.
fn moved(place: Place, next: u32, new: u32) -> Place
    ensures { result ≡ moved_to place next new }
{
    Place {
        pc: next,
        steps: rv32_add(place.steps, 1),
        written: rv32_add(place.written, new),
    }
}

// A step that passed its tests, with `new` bytes at addresses that had none: its entry, and the place after it.
pub fn complete(
    place: Place,
    word: u32,
    length: u32,
    next: u32,
    new: u32,
    trace: &mut [u8],
) -> Place
    ensures { (result ≡ moved_to place next new) × (trace.new ≡ put_entry trace.old (place.steps * entry_bytes) (entry_by place.pc word («length» % 256) next)) }
{
    let at = (place.steps as usize) * ENTRY_BYTES;
    let entry = PredicateControlStep {
        program_counter: place.pc,
        instruction_word: word,
        // Cut, since `try_from` would have an error that never comes.
        instruction_bytes: (length % 256) as u8,
        next_program_counter: next,
    };
    put_entry(trace, at, entry);
    moved(place, next, new)
}
