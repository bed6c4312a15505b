// Prints the number and the text of each role and of each refusal: a run's, the record's reader's and writer's, and a call's.
#![tactic(auto)]

use lane_library::RunError;
use lane_record::{ReadError, WriteError};
use predicate_answer::{CallError, Role, Rv32Error};
use std::io;

fn roles(out: &impl Print) -> io::Result<()> {
    let roles = [
        Role::Fetch,
        Role::JumpTarget,
        Role::LoadAddress,
        Role::StoreAddress,
        Role::Branch,
        Role::ReturnValue,
        Role::EventCount,
        Role::EventOperation,
        Role::EventOffset,
        Role::EventValue,
    ];
    for role in roles {
        println!(out; "role {}: {role}", u8::from(role))?;
    }
    Ok(())
}

fn runs(out: &impl Print) -> io::Result<()> {
    let errors = [
        Rv32Error::ImageSize,
        Rv32Error::SymbolOutside,
        Rv32Error::StepLimit,
        Rv32Error::BelowMemory,
        Rv32Error::PastMemory,
        Rv32Error::Unknown(Role::Fetch),
        Rv32Error::NotUniform(Role::EventValue),
        Rv32Error::Halfword,
        Rv32Error::Word,
        Rv32Error::ZeroTarget,
        Rv32Error::StoreBelowImageEnd,
        Rv32Error::EventCount,
        Rv32Error::NoRow,
        Rv32Error::NoTraceEntry,
    ];
    for error in errors {
        println!(out; "run {}, role {}: {error}", error.number(), error.role())?;
    }
    Ok(())
}

fn records(out: &impl Print) -> io::Result<()> {
    for error in [ReadError::RulesBroken, ReadError::TraceTooShort] {
        println!(out; "read {}: {error}", error.number())?;
    }
    for error in [WriteError::RulesBroken, WriteError::OutputTooShort] {
        println!(out; "write {}: {error}", error.number())?;
        let call = RunError::from(error);
        println!(out; "call {}: {call}", call.number())?;
    }
    Ok(())
}

fn main(rt: HostRuntime) -> io::Result<()> {
    roles(&rt)?;
    runs(&rt)?;
    records(&rt)?;
    let error = CallError::FirstAboveLast;
    println!(rt; "choice {}: {error}", error.number())?;
    let call = RunError::from(error);
    println!(rt; "call {}: {call}", call.number())
}
