// The bodies of a record's items, read and written at their places.
ghost use Rattle.std.specs.Prelude.{◌≡◌, ◌+◌, ◌≤◌, length, drop};
ghost use Rattle.std.proofs.lemmas.List.Edits.{sets};
ghost use Rattle.little_endian.specs.Pack.{total, unpack, Fits};
ghost use Rattle.predicate_trace.specs.Trace.{entry_bytes, step_widths, step_of};
ghost use Rattle.lane_record.specs.Format.{heading, event, refusal, widths, size, item, execution_values, event_values, event_from, refusal_values};
ghost use Rattle.lane_record.specs.Decode.{execution_at, refusal_at};

use little_endian::{get, put};
use predicate_answer::{CompiledMmioEvent, PredicateTransducerExecution, RecordRefusal};
use predicate_trace::{ENTRY_BYTES, PredicateControlStep};

// The bytes of kind.
pub const HEADING: u8 = 0x01;

pub const EVENT: u8 = 0x02;

pub const STEP: u8 = 0x03;

pub const REFUSAL: u8 = 0x7F;

// The bytes of an item: its kind and its fields. A step's body is an entry of a trace.
pub const HEADING_BYTES: usize = 1 + 1 + 2 + 4 + 4 + 4 + 4 + 1;

pub const EVENT_BYTES: usize = 1 + 4 + 4 + 4 + 4;

pub const STEP_BYTES: usize = 1 + ENTRY_BYTES;

pub const REFUSAL_BYTES: usize = 1 + 1 + 1 + 4;

pub fn execution_at(s: &[u8]) -> PredicateTransducerExecution
    ensures { result ≡ execution_at s.now }
{
    PredicateTransducerExecution {
        first_input: get(s, 1),
        lane_count: get(s, 2),
        return_value: get(s, 4),
        symbolic_transitions: get(s, 8),
        lane_value_operations: get(s, 12),
        sparse_memory_bytes: get(s, 16),
        event_count: get(s, 20),
    }
}

pub fn refusal_at(s: &[u8]) -> RecordRefusal
    ensures { result ≡ refusal_at s.now }
{
    RecordRefusal {
        number: get(s, 1),
        role: get(s, 2),
        steps: get(s, 3),
    }
}

// Of an item, its first byte counted.
pub fn event_at(item: &[u8]) -> CompiledMmioEvent
    ensures { result ≡ event_from (unpack (widths event) (drop 1 item.now)) }
{
    CompiledMmioEvent {
        operation: get(item, 1),
        offset: get(item, 5),
        value: get(item, 9),
        location: get(item, 13),
    }
}

pub fn step_at(s: &[u8], at: usize) -> PredicateControlStep
    requires { at + entry_bytes ≤ length s.now }
    ensures { result ≡ step_of (unpack step_widths (drop at s.now)) }
{
    PredicateControlStep {
        program_counter: get(s, at),
        instruction_word: get(s, at + 4),
        instruction_bytes: get(s, at + 8),
        next_program_counter: get(s, at + 9),
    }
}

pub fn put_execution(s: &mut [u8], e: PredicateTransducerExecution)
    ensures { s.new ≡ sets s.old 0 (item heading (execution_values e)) }
{
    put(s, 0, HEADING);
    put(s, 1, e.first_input);
    put(s, 2, e.lane_count);
    put(s, 4, e.return_value);
    put(s, 8, e.symbolic_transitions);
    put(s, 12, e.lane_value_operations);
    put(s, 16, e.sparse_memory_bytes);
    put(s, 20, e.event_count);
}

pub fn put_refusal(s: &mut [u8], f: RecordRefusal)
    ensures { s.new ≡ sets s.old 0 (item refusal (refusal_values f)) }
{
    put(s, 0, REFUSAL);
    put(s, 1, f.number);
    put(s, 2, f.role);
    put(s, 3, f.steps);
}

// An event's numbers fit their places, which only its type says: so it is said here, where one is at hand.
pub fn put_event(s: &mut [u8], at: usize, e: CompiledMmioEvent)
    requires { at + size event ≤ length s.old }
    ensures { (s.new ≡ sets s.old at (item event (event_values e))) × Fits (widths event) (event_values e) }
{
    put(s, at, EVENT);
    put(s, at + 1, e.operation);
    put(s, at + 5, e.offset);
    put(s, at + 9, e.value);
    put(s, at + 13, e.location);
}
