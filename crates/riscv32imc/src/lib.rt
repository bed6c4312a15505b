// The expansion of compressed instructions and the limits of memory, ported from riscv32imc.rs.
#![tactic(auto)]

mod compressed;
mod encode;

pub use compressed::decompress;

// The image's and the memory's first address.
pub const RV32_IMAGE_BASE: u32 = 0x8000_0000;
// The largest image.
pub const MAX_RV32_IMAGE_BYTES: usize = 1024 * 1024;
// The size of memory.
pub const MAX_RV32_MEMORY_BYTES: usize = 2 * 1024 * 1024;
// The most steps of a run.
pub const MAX_RV32_STEPS: u64 = 1_000_000;
