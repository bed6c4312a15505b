// An outcome as words at the C boundary.
ghost use Rattle.std.specs.Prelude.{◌≡◌, [], ◌∷◌, ◌+◌, ◌≤◌, length};
ghost use Rattle.std.proofs.lemmas.List.Edits.{sets};
ghost use Rattle.lane_record.specs.Format.{execution_values};
ghost use Rattle.lane_exports.specs.Boundary.{heading_at, event_words_at, outcome_size, answer_words, event_words, outcome_words};

use predicate_answer::{
    CompiledMmioEvent, MAX_EVENTS, PredicateTransducerExecution, RecordOutcome, RecordRefusal,
};

// The kinds of an answer, as a record's first byte has them.
pub const ACCEPTED: u32 = 0x01;

pub const REFUSED: u32 = 0x7F;

pub const EVENT_WORDS: usize = 4;

// Where the first item's fields begin, after the kind and a refusal's three numbers; where the events do; how many words there are.
pub const HEADING_AT: usize = 4;

const HEADING_WORDS: usize = 7;

pub const EVENTS_AT: usize = HEADING_AT + HEADING_WORDS;

pub const OUTCOME_WORDS: usize = EVENTS_AT + MAX_EVENTS * EVENT_WORDS;

// The words of an answer: its kind, then a refusal's numbers, or zeros.
fn answer_words(answer: Result<(), RecordRefusal>) -> [u32; HEADING_AT]
    ensures { result ≡ answer_words answer }
{
    match answer {
        Ok(()) => [ACCEPTED, 0, 0, 0],
        Err(refusal) => [
            REFUSED,
            u32::from(refusal.number),
            u32::from(refusal.role),
            refusal.steps,
        ],
    }
}

fn execution_words(e: PredicateTransducerExecution) -> [u32; HEADING_WORDS]
    ensures { result ≡ execution_values e }
{
    [
        u32::from(e.first_input),
        u32::from(e.lane_count),
        e.return_value,
        e.symbolic_transitions,
        e.lane_value_operations,
        e.sparse_memory_bytes,
        u32::from(e.event_count),
    ]
}

// Words at their places.
fn put(s: &mut [u32; OUTCOME_WORDS], at: usize, words: &[u32])
    requires { at + length words.now ≤ outcome_size }
    ensures { s.new ≡ sets s.old at words.now }
{
    s[at..at + words.len()].copy_from_slice(words);
}

fn put_events(s: &mut [u32; OUTCOME_WORDS], events: &[CompiledMmioEvent; MAX_EVENTS])
    ensures { s.new ≡ sets s.old event_words_at (event_words events.now) }
{
    for (k, event) in events.iter().enumerate() {
        let words = [event.operation, event.offset, event.value, event.location];
        put(s, EVENTS_AT + k * EVENT_WORDS, &words);
    }
}

pub fn words_of(outcome: RecordOutcome) -> [u32; OUTCOME_WORDS]
    ensures { result ≡ outcome_words outcome }
{
    let mut words = [0; OUTCOME_WORDS];
    put(&mut words, 0, &answer_words(outcome.answer));
    put(&mut words, HEADING_AT, &execution_words(outcome.execution));
    put_events(&mut words, &outcome.events);
    words
}
