// Reading: every rule is tested before anything is written.
ghost use Rattle.std.specs.Prelude.{◌≡◌, ◌&&◌, List, ℕ, ◌+◌, ◌*◌, ◌≤◌, ◌<◌, length, drop};
ghost use Rattle.std.proofs.lemmas.List.Edits.{sets};
ghost use Rattle.predicate_answer.specs.Blank.{no_events};
ghost use Rattle.predicate_trace.specs.Trace.{entry_bytes, trace_bytes, steps_at};
ghost use Rattle.lane_record.specs.Format.{heading, event, step, size};
ghost use Rattle.predicate_answer.specs.Blank.{max_events};
ghost use Rattle.lane_record.specs.Rules.{valid};
ghost use Rattle.lane_record.specs.Decode.{execution_at, events_at, steps_from, accepted_at, accepted_form, accepted_in, refused_in, kinds_are};
ghost use Rattle.lane_record.specs.Answers.{Reads};

use super::ReadError;
use super::items::{
    EVENT, EVENT_BYTES, HEADING, HEADING_BYTES, REFUSAL_BYTES, STEP, STEP_BYTES, event_at,
    execution_at, refusal_at, step_at,
};
use super::rules::{execution_valid, refusal_valid, steps_linked};
use predicate_answer::{
    CompiledMmioEvent, MAX_EVENTS, PredicateTransducerExecution, RecordOutcome,
};
use predicate_trace::{ENTRY_BYTES, put_entry};

// The first n items of z bytes all begin with kind; by `all` the proof did not close. Here and below n is not the slice's length, since the slice goes
// on behind the items.
fn kinds_are(items: &[u8], kind: u8, z: usize, n: usize) -> bool
    requires { (0 < z) × (n * z ≤ length items.now) }
    ensures { result ≡ kinds_are kind z n items.now }
{
    for item in items.chunks_exact(z).take(n) {
        if item[0] != kind {
            return false;
        }
    }
    true
}

// The length is tested first: it bounds every place that is looked at after it.
fn accepted_form(s: &[u8], e: PredicateTransducerExecution) -> bool
    ensures { result ≡ accepted_form e s.now }
{
    // Casts: of `usize::from` of the count the bounds below are not proved, and a `u32` has none.
    let events = e.event_count as usize;
    let steps = e.symbolic_transitions as usize;
    let from = HEADING_BYTES + events * EVENT_BYTES;
    s.len() == from + steps * STEP_BYTES
        && s[0] == HEADING
        && kinds_are(&s[HEADING_BYTES..], EVENT, EVENT_BYTES, events)
        && kinds_are(&s[from..], STEP, STEP_BYTES, steps)
}

fn accepted_valid(s: &[u8], e: PredicateTransducerExecution) -> bool
    requires { length s.now ≡ steps_from e + e.symbolic_transitions * size step }
    ensures { result ≡ valid (accepted_at e s.now) }
{
    let from = HEADING_BYTES + e.event_count as usize * EVENT_BYTES;
    execution_valid(e) && steps_linked(&s[from..], 1, e.symbolic_transitions as usize)
}

fn take_events(items: &[u8], n: usize) -> [CompiledMmioEvent; MAX_EVENTS]
    requires { (n ≤ max_events) × (n * size event ≤ length items.now) }
    ensures { result ≡ sets no_events 0 (events_at n items.now) }
{
    let mut events = predicate_answer::no_events();
    for (k, item) in items.chunks_exact(EVENT_BYTES).take(n).enumerate() {
        events[k] = event_at(item);
    }
    events
}

fn take_steps(trace: &mut [u8], items: &[u8], n: usize)
    requires { (n * entry_bytes ≤ length trace.old) × (n * size step ≤ length items.now) }
    ensures { trace.new ≡ sets trace.old 0 (trace_bytes (steps_at 1 n items.now)) }
{
    for (k, item) in items.chunks_exact(STEP_BYTES).take(n).enumerate() {
        put_entry(trace, k * ENTRY_BYTES, step_at(item, 1));
    }
}

// Whatever trace is lent stays as it is.
pub fn read_refused(bytes: &[u8]) -> Result<RecordOutcome, ReadError>
    ensures { (t : List ℕ) → Reads (refused_in bytes.now) t result t }
{
    if bytes.len() != REFUSAL_BYTES {
        return Err(ReadError::RulesBroken);
    }
    let refusal = refusal_at(bytes);
    if !refusal_valid(refusal) {
        return Err(ReadError::RulesBroken);
    }
    Ok(predicate_answer::refused_outcome(refusal))
}

// 15 before 14: a trace is too short only for a record.
pub fn read_accepted(bytes: &[u8], trace: &mut [u8]) -> Result<RecordOutcome, ReadError>
    ensures { Reads (accepted_in (execution_at bytes.now) bytes.now) trace.old result trace.new }
{
    // Too short for a heading, whose fields would be read byte by byte.
    if bytes.len() < HEADING_BYTES {
        return Err(ReadError::RulesBroken);
    }
    let execution = execution_at(bytes);
    if !accepted_form(bytes, execution) || !accepted_valid(bytes, execution) {
        return Err(ReadError::RulesBroken);
    }
    let count = execution.event_count as usize;
    let steps = execution.symbolic_transitions as usize;
    if trace.len() < steps * ENTRY_BYTES {
        return Err(ReadError::TraceTooShort);
    }
    take_steps(trace, &bytes[HEADING_BYTES + count * EVENT_BYTES..], steps);
    let events = take_events(&bytes[HEADING_BYTES..], count);
    Ok(RecordOutcome {
        answer: Ok(()),
        execution,
        events,
    })
}
