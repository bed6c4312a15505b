// The record's rules, as tests.
ghost use Rattle.std.specs.Prelude.{◌≡◌, cond, ◌&&◌, ◌||◌, ◌+◌, ◌*◌, ◌≤◌, length, drop};
ghost use Rattle.predicate_semantics.specs.Program.{stop};
ghost use Rattle.predicate_trace.specs.Trace.{entry_bytes, steps_at};
ghost use Rattle.lane_record.specs.Rules as rules;

use super::items::step_at;
use lane_word::LaneWord;
use predicate_answer::{
    LAST_REFUSAL, LAST_ROLE, MAX_EVENTS, PredicateTransducerExecution, RecordRefusal,
};
use predicate_semantics::STOP;
use predicate_trace::{ENTRY_BYTES, PredicateControlStep};

// The most steps of a run.
const MAX_STEPS: u32 = riscv32imc::MAX_RV32_STEPS as u32;

// Written bytes: stop's four at least; at most all of memory but the image, which is never written and has a byte at least.
const MIN_WRITTEN_BYTES: u32 = 4;

const MAX_WRITTEN_BYTES: u32 = riscv32imc::MAX_RV32_MEMORY_BYTES as u32 - 1;

fn within(low: u32, x: u32, high: u32) -> bool
    ensures { result ≡ rules.within low x high }
{
    low <= x && x <= high
}

fn range_valid(first: u8, count: u16) -> bool
    ensures { result ≡ rules.range_valid first count }
{
    1 <= count && usize::from(first) + usize::from(count) <= LaneWord::LANES
}

fn fewest_steps(count: u16) -> u32
    ensures { result ≡ rules.fewest_steps count }
{
    if count == 1 { 0 } else { 1 }
}

pub fn execution_valid(e: PredicateTransducerExecution) -> bool
    ensures { result ≡ rules.execution_valid e }
{
    let steps = e.symbolic_transitions;
    range_valid(e.first_input, e.lane_count)
        && within(fewest_steps(e.lane_count), steps, MAX_STEPS)
        && u64::from(e.lane_value_operations) == u64::from(e.lane_count) * u64::from(steps)
        && within(MIN_WRITTEN_BYTES, e.sparse_memory_bytes, MAX_WRITTEN_BYTES)
        && usize::from(e.event_count) <= MAX_EVENTS
}

fn role_valid(number: u8, role: u8) -> bool
    ensures { result ≡ rules.role_valid number role }
{
    if number == 6 || number == 7 {
        within(1, u32::from(role), LAST_ROLE)
    } else {
        role == 0
    }
}

pub fn refusal_valid(f: RecordRefusal) -> bool
    ensures { result ≡ rules.refusal_valid f }
{
    within(1, u32::from(f.number), LAST_REFUSAL)
        && role_valid(f.number, f.role)
        && f.steps <= MAX_STEPS
}

fn follows(step: PredicateControlStep, due: u32) -> bool
    ensures { result ≡ rules.follows step due }
{
    due == step.program_counter && matches!(step.instruction_bytes, 2 | 4)
}

// Each of the first n items has a step after p other bytes: 1 in a record, none in a trace.
pub fn steps_linked(items: &[u8], p: usize, n: usize) -> bool
    requires { n * (p + entry_bytes) ≤ length items.now }
    ensures { result ≡ rules.linked stop (steps_at p n items.now) }
{
    if n == 0 {
        return true;
    }
    let mut due: u32 = little_endian::get(items, p);
    for item in items.chunks_exact(p + ENTRY_BYTES).take(n) {
        let step = step_at(item, p);
        if !follows(step, due) {
            return false;
        }
        due = step.next_program_counter;
    }
    due == STOP
}
