// The outcome that words at the C boundary stand for.
ghost use Rattle.std.specs.Prelude.{◌≡◌, if◌then◌else◌, ◌+◌, ◌≤◌, drop};
ghost use Rattle.predicate_answer.specs.Blank.{max_events};
ghost use Rattle.lane_record.specs.Format.{heading, refusal, widths, execution_from, event_from, refusal_from};
ghost use Rattle.lane_exports.specs.Boundary.{heading_at, event_words_at, outcome_size, fit, formed, events_from, outcome_formed, outcome_from};

use super::words::{ACCEPTED, EVENT_WORDS, EVENTS_AT, HEADING_AT, OUTCOME_WORDS, REFUSED};
use predicate_answer::{
    CompiledMmioEvent, MAX_EVENTS, PredicateTransducerExecution, RecordOutcome, RecordRefusal,
};

// None where a word is too large for its place.
fn refusal_from(s: &[u32; OUTCOME_WORDS]) -> Option<RecordRefusal>
    ensures { result ≡ (if fit (widths refusal) 1 s.now then Some (refusal_from (drop 1 s.now)) else None) }
{
    Some(RecordRefusal {
        number: u8::try_from(s[1]).ok()?,
        role: u8::try_from(s[2]).ok()?,
        steps: s[3],
    })
}

// The same.
fn execution_from(s: &[u32; OUTCOME_WORDS]) -> Option<PredicateTransducerExecution>
    ensures { result ≡ (if fit (widths heading) heading_at s.now then Some (execution_from (drop heading_at s.now)) else None) }
{
    Some(PredicateTransducerExecution {
        first_input: u8::try_from(s[HEADING_AT]).ok()?,
        lane_count: u16::try_from(s[HEADING_AT + 1]).ok()?,
        return_value: s[HEADING_AT + 2],
        symbolic_transitions: s[HEADING_AT + 3],
        lane_value_operations: s[HEADING_AT + 4],
        sparse_memory_bytes: s[HEADING_AT + 5],
        event_count: u8::try_from(s[HEADING_AT + 6]).ok()?,
    })
}

fn event_from(s: &[u32; OUTCOME_WORDS], at: usize) -> CompiledMmioEvent
    requires { at + 4 ≤ outcome_size }
    ensures { result ≡ event_from (drop at s.now) }
{
    CompiledMmioEvent {
        operation: s[at],
        offset: s[at + 1],
        value: s[at + 2],
        location: s[at + 3],
    }
}

fn events_from(s: &[u32; OUTCOME_WORDS]) -> [CompiledMmioEvent; MAX_EVENTS]
    ensures { result ≡ events_from max_events (drop event_words_at s.now) }
{
    let mut events = predicate_answer::no_events();
    for (k, event) in events.iter_mut().enumerate() {
        *event = event_from(s, EVENTS_AT + k * EVENT_WORDS);
    }
    events
}

// A refusal's numbers are looked at whatever the kind: those of an acceptance have to fit too.
fn formed_outcome(s: &[u32; OUTCOME_WORDS]) -> Option<RecordOutcome>
    ensures { result ≡ (if formed s.now then Some (outcome_formed s.now) else None) }
{
    let refusal = refusal_from(s)?;
    let answer = match s[0] {
        ACCEPTED => Ok(()),
        REFUSED => Err(refusal),
        _ => return None,
    };
    Some(RecordOutcome {
        answer,
        execution: execution_from(s)?,
        events: events_from(s),
    })
}

pub fn outcome_from(s: &[u32; OUTCOME_WORDS]) -> RecordOutcome
    ensures { result ≡ outcome_from s.now }
{
    formed_outcome(s).unwrap_or(predicate_answer::no_outcome())
}
