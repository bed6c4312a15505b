// What a run answers: its numbers and events, or a refusal with its number, role and text; and the zeros that stand where there is nothing.
#![tactic(auto)]

ghost use Rattle.std.specs.Prelude.{◌≡◌, Some};
ghost use Rattle.predicate_answer.specs.Refusal.{role_of, run_refusal, refusal_after, call_number};
ghost use Rattle.predicate_answer.specs.Blank.{no_events};
ghost use Rattle.predicate_answer.specs.Texts.{role_text, run_text, call_text};
ghost use Rattle.predicate_answer.specs.Outcome.{refused_outcome, no_outcome};

use std::error::Error;
use std::fmt;

// One event, with the program counter of the SW that recorded it.
#[derive(Clone, Copy, Default)]
pub struct CompiledMmioEvent {
    pub operation: u32,
    pub offset: u32,
    pub value: u32,
    pub location: u32,
}

// What an accepted run answers beside its events and its trace: the fields of a record's first item, in its order.
#[derive(Clone, Copy, Default)]
pub struct PredicateTransducerExecution {
    pub first_input: u8,
    pub lane_count: u16,
    pub return_value: u32,
    pub symbolic_transitions: u32,
    pub lane_value_operations: u32,
    pub sparse_memory_bytes: u32,
    pub event_count: u8,
}

// The most events.
pub const MAX_EVENTS: usize = 32;

// What a word that is not known or not uniform was read for.
#[derive(Clone, Copy, Debug)]
pub enum Role {
    Fetch,
    JumpTarget,
    LoadAddress,
    StoreAddress,
    Branch,
    ReturnValue,
    EventCount,
    EventOperation,
    EventOffset,
    EventValue,
}

// The refusals of a run, which its record holds.
#[derive(Clone, Copy, Debug)]
pub enum Rv32Error {
    ImageSize,
    SymbolOutside,
    StepLimit,
    BelowMemory,
    PastMemory,
    Unknown(Role),
    NotUniform(Role),
    Halfword,
    Word,
    ZeroTarget,
    StoreBelowImageEnd,
    EventCount,
    NoRow,
    NoTraceEntry,
}

// The refusals of a call for what its caller chose, which no record holds.
#[derive(Clone, Copy, Debug)]
pub enum CallError {
    FirstAboveLast,
}

// A run's refusal as an item 7F holds it: numbers, 0 for no role, since the record's writer takes every such value and refuses those that break the rules.
#[derive(Clone, Copy)]
pub struct RecordRefusal {
    pub number: u8,
    pub role: u8,
    pub steps: u32,
}

// What a run answers beside its trace, and a record is written of and read as. Of the events the first `event_count` count; after a refusal only
// the answer does. The writer takes every such value. An array with its count beside it, since nothing allocates.
#[derive(Clone, Copy)]
pub struct RecordOutcome {
    pub answer: Result<(), RecordRefusal>,
    pub execution: PredicateTransducerExecution,
    pub events: [CompiledMmioEvent; MAX_EVENTS],
}

// The last number of the refusals that a record holds, and the last role; both begin at 1.
pub const LAST_REFUSAL: u32 = 14;

pub const LAST_ROLE: u32 = 10;

impl From<Role> for u8 {
    ghost from_gives = { λ role number. number ≡ role_of role };

    fn from(role: Role) -> u8 {
        role as u8 + 1
    }
}

impl fmt::Display for Role {
    ghost output = { λ role. Some (role_text role) };

    fn fmt<W: fmt::Write>(&self, f: &mut fmt::Formatter<W>) -> fmt::Result {
        f.write_str(match self {
            Role::Fetch => "fetch",
            Role::JumpTarget => "jump target",
            Role::LoadAddress => "load address",
            Role::StoreAddress => "store address",
            Role::Branch => "branch",
            Role::ReturnValue => "return value",
            Role::EventCount => "event count",
            Role::EventOperation => "operation",
            Role::EventOffset => "offset",
            Role::EventValue => "value",
        })
    }
}

impl Rv32Error {
    pub fn number(self) -> u8
        ensures { result ≡ (run_refusal self).number }
    {
        match self {
            Rv32Error::ImageSize => 1,
            Rv32Error::SymbolOutside => 2,
            Rv32Error::StepLimit => 3,
            Rv32Error::BelowMemory => 4,
            Rv32Error::PastMemory => 5,
            Rv32Error::Unknown(_) => 6,
            Rv32Error::NotUniform(_) => 7,
            Rv32Error::Halfword => 8,
            Rv32Error::Word => 9,
            Rv32Error::ZeroTarget => 10,
            Rv32Error::StoreBelowImageEnd => 11,
            Rv32Error::EventCount => 12,
            Rv32Error::NoRow => 13,
            Rv32Error::NoTraceEntry => 14,
        }
    }

    // 0 where the refusal has none.
    pub fn role(self) -> u8
        ensures { result ≡ (run_refusal self).role }
    {
        match self {
            Rv32Error::Unknown(role) | Rv32Error::NotUniform(role) => u8::from(role),
            _ => 0,
        }
    }

    // As a record holds it, after so many completed steps.
    pub fn after(self, steps: u32) -> RecordRefusal
        ensures { result ≡ refusal_after (run_refusal self) steps }
    {
        RecordRefusal {
            number: self.number(),
            role: self.role(),
            steps,
        }
    }
}

impl fmt::Display for Rv32Error {
    ghost output = { λ error. Some (run_text error) };

    fn fmt<W: fmt::Write>(&self, f: &mut fmt::Formatter<W>) -> fmt::Result {
        match self {
            Rv32Error::ImageSize => f.write_str("the image is empty or too large"),
            Rv32Error::SymbolOutside => f.write_str("a symbol lies outside memory"),
            Rv32Error::StepLimit => f.write_str("not at stop after 1,000,000 steps"),
            Rv32Error::BelowMemory => f.write_str("address below memory"),
            Rv32Error::PastMemory => f.write_str("access past memory's end"),
            Rv32Error::Unknown(role) => write!(f, "unknown: {role}"),
            Rv32Error::NotUniform(role) => write!(f, "not the same in all lanes: {role}"),
            Rv32Error::Halfword => f.write_str("halfword not accepted"),
            Rv32Error::Word => f.write_str("word not accepted"),
            Rv32Error::ZeroTarget => f.write_str("jump target 0"),
            Rv32Error::StoreBelowImageEnd => f.write_str("store below the image's end"),
            Rv32Error::EventCount => f.write_str(
                "event count above 32 or unlike the number of recorded SWs",
            ),
            Rv32Error::NoRow => f.write_str("more distinct written bytes than rows lent"),
            Rv32Error::NoTraceEntry => f.write_str("more steps than trace entries lent"),
        }
    }
}

impl Error for Rv32Error {}

impl CallError {
    pub fn number(self) -> u8
        ensures { result ≡ call_number self }
    {
        match self {
            CallError::FirstAboveLast => 17,
        }
    }
}

impl fmt::Display for CallError {
    ghost output = { λ error. Some (call_text error) };

    fn fmt<W: fmt::Write>(&self, f: &mut fmt::Formatter<W>) -> fmt::Result {
        match self {
            CallError::FirstAboveLast => f.write_str("first input above last"),
        }
    }
}

impl Error for CallError {}

pub fn no_events() -> [CompiledMmioEvent; MAX_EVENTS]
    ensures { result ≡ no_events }
{
    [CompiledMmioEvent::default(); MAX_EVENTS]
}

// What a refused run answers.
pub fn refused_outcome(refusal: RecordRefusal) -> RecordOutcome
    ensures { result ≡ refused_outcome refusal }
{
    RecordOutcome {
        answer: Err(refusal),
        execution: PredicateTransducerExecution::default(),
        events: no_events(),
    }
}

// What stands where there is no answer, a refusal numbered 0: words for C stand for an outcome whatever they are.
pub fn no_outcome() -> RecordOutcome
    ensures { result ≡ no_outcome }
{
    let refusal = RecordRefusal {
        number: 0,
        role: 0,
        steps: 0,
    };
    refused_outcome(refusal)
}
