// What is run beside its image, and the constants of a run. The definitions stand in specs/.

// The three symbols of an image: where it starts, and where it leaves its events.
#![tactic(auto)]

#[derive(Clone, Copy)]
pub struct Rv32SymbolLayout {
    pub entry: u32,
    pub event_count: u32,
    pub events: u32,
}

// What is run, beside its image: its symbols.
#[derive(Clone, Copy)]
pub struct Rv32Program {
    pub symbols: Rv32SymbolLayout,
}

// Where a run ends, the word that lies there, and where the stack pointer starts.
pub const STOP: u32 = 0x801F_FFFC;

pub const STOP_WORD: u32 = 0x0010_0073;

pub const STACK_POINTER: u32 = 0x801F_FFF0;
