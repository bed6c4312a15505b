// Writing: the rules and then the output's length are tested before anything is written.
ghost use Rattle.std.specs.Prelude.{◌≡◌, ◌&&◌, ◌∷◌, map, ◌+◌, ◌*◌, ◌≤◌, leb, length};
ghost use Rattle.std.proofs.lemmas.List.Edits.{sets};
ghost use Rattle.little_endian.specs.Pack.{pack, AllFit};
ghost use Rattle.predicate_semantics.specs.Program.{stop};
ghost use Rattle.predicate_trace.specs.Trace.{entry_bytes, step_widths, step_values, steps_at};
ghost use Rattle.lane_record.specs.Format.{heading, event, step, widths, kind_byte, size, items, event_values};
ghost use Rattle.lane_record.specs.Rules.{execution_valid, linked};
ghost use Rattle.lane_record.specs.Answers.{given_accepted, given_refused, Writes};

use super::WriteError;
use super::items::{
    EVENT_BYTES, HEADING_BYTES, REFUSAL_BYTES, STEP, STEP_BYTES, put_event, put_execution,
    put_refusal, step_at,
};
use super::rules::{execution_valid, refusal_valid, steps_linked};
use predicate_answer::{
    CompiledMmioEvent, MAX_EVENTS, PredicateTransducerExecution, RecordRefusal,
};
use predicate_trace::{ENTRY_BYTES, PredicateControlStep, put_entry};

fn put_events(s: &mut [u8], events: &[CompiledMmioEvent])
    requires { size heading + length events.now * size event ≤ length s.old }
    ensures { (s.new ≡ sets s.old (size heading) (items event (map event_values events.now))) × AllFit (widths event) (map event_values events.now) }
{
    for (k, event) in events.iter().enumerate() {
        put_event(s, HEADING_BYTES + k * EVENT_BYTES, *event);
    }
}

// A step's item: of a slice as long as one each place is known to lie inside, and no test of bounds is left.
fn put_step(item: &mut [u8], x: PredicateControlStep)
    requires { length item.old ≡ size step }
    ensures { item.new ≡ kind_byte step ∷ pack step_widths (step_values x) }
{
    little_endian::put(item, 0, STEP);
    put_entry(item, 1, x);
}

fn put_steps(s: &mut [u8], to: usize, trace: &[u8], n: usize)
    requires { (to + n * size step ≤ length s.old) × (n * entry_bytes ≤ length trace.now) }
    ensures { s.new ≡ sets s.old to (items step (map step_values (steps_at 0 n trace.now))) }
{
    for (k, entry) in trace.chunks_exact(ENTRY_BYTES).take(n).enumerate() {
        let at = to + k * STEP_BYTES;
        put_step(&mut s[at..at + STEP_BYTES], step_at(entry, 0));
    }
}

fn writable(e: PredicateTransducerExecution, trace: &[u8]) -> bool
    ensures { result ≡ (leb (e.symbolic_transitions * entry_bytes) (length trace.now) && (execution_valid e && linked stop (steps_at 0 e.symbolic_transitions trace.now))) }
{
    let steps = e.symbolic_transitions as usize;
    steps * ENTRY_BYTES <= trace.len() && execution_valid(e) && steps_linked(trace, 0, steps)
}

pub fn write_accepted(
    e: PredicateTransducerExecution,
    list: [CompiledMmioEvent; MAX_EVENTS],
    trace: &[u8],
    output: &mut [u8],
) -> Result<usize, WriteError>
    ensures { Writes (given_accepted e list trace.now) output.old result output.new }
{
    if !writable(e, trace) {
        return Err(WriteError::RulesBroken);
    }
    // A cast, as in the reader.
    let events = e.event_count as usize;
    let steps = e.symbolic_transitions as usize;
    let from = HEADING_BYTES + events * EVENT_BYTES;
    let size = from + steps * STEP_BYTES;
    if output.len() < size {
        return Err(WriteError::OutputTooShort);
    }
    put_execution(output, e);
    put_events(output, &list[..events]);
    put_steps(output, from, trace, steps);
    Ok(size)
}

pub fn write_refused(f: RecordRefusal, output: &mut [u8]) -> Result<usize, WriteError>
    ensures { Writes (given_refused f) output.old result output.new }
{
    if !refusal_valid(f) {
        return Err(WriteError::RulesBroken);
    }
    if output.len() < REFUSAL_BYTES {
        return Err(WriteError::OutputTooShort);
    }
    put_refusal(output, f);
    Ok(REFUSAL_BYTES)
}
