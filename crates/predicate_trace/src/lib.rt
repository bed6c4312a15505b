// The bytes of a trace: a control step as the entry that a run leaves, which is also the body of a record's step.
#![tactic(auto)]

ghost use Rattle.std.specs.Prelude.{◌≡◌};
ghost use Rattle.predicate_trace.specs.Trace.{put_entry};

use little_endian::put;

// One completed step; the word is the one after expansion.
#[derive(Clone, Copy)]
pub struct PredicateControlStep {
    pub program_counter: u32,
    pub instruction_word: u32,
    pub instruction_bytes: u8,
    pub next_program_counter: u32,
}

// The bytes of an entry: the widths of its four numbers.
pub const ENTRY_BYTES: usize = 4 + 4 + 1 + 4;

// A step's entry at a place; where it does not lie inside, nothing is written.
#[tactic(auto, unfolding(crate::specs::Trace::put_entry))]
pub fn put_entry(s: &mut [u8], at: usize, step: PredicateControlStep)
    ensures { s.new ≡ put_entry s.old at step }
{
    if s.len() < ENTRY_BYTES || s.len() - ENTRY_BYTES < at {
        return;
    }
    put(s, at, step.program_counter);
    put(s, at + 4, step.instruction_word);
    put(s, at + 8, step.instruction_bytes);
    put(s, at + 9, step.next_program_counter);
}
