// The table of mask and match rows, and its scan.
ghost use Rattle.std.specs.Prelude.{◌≡◌};
ghost use Rattle.riscv_decode.specs.Rows.{standing_rows, matches, find_row};

mod likely;

use crate::{OPERATIONS, Row};
use likely::likely_row;

// A table of as many rows as there are operations.
pub type Table = [Row; OPERATIONS];

// The rows of the operations, in the order of their numbers.
const LUI: Row = Row(0x0000_007f, 0x0000_0037, 1);

const AUIPC: Row = Row(0x0000_007f, 0x0000_0017, 2);

const JAL: Row = Row(0x0000_007f, 0x0000_006f, 3);

const JALR: Row = Row(0x0000_707f, 0x0000_0067, 4);

const BEQ: Row = Row(0x0000_707f, 0x0000_0063, 5);

const BNE: Row = Row(0x0000_707f, 0x0000_1063, 6);

const BLT: Row = Row(0x0000_707f, 0x0000_4063, 7);

const BGE: Row = Row(0x0000_707f, 0x0000_5063, 8);

const BLTU: Row = Row(0x0000_707f, 0x0000_6063, 9);

const BGEU: Row = Row(0x0000_707f, 0x0000_7063, 10);

const LB: Row = Row(0x0000_707f, 0x0000_0003, 11);

const LH: Row = Row(0x0000_707f, 0x0000_1003, 12);

const LW: Row = Row(0x0000_707f, 0x0000_2003, 13);

const LBU: Row = Row(0x0000_707f, 0x0000_4003, 14);

const LHU: Row = Row(0x0000_707f, 0x0000_5003, 15);

const SB: Row = Row(0x0000_707f, 0x0000_0023, 16);

const SH: Row = Row(0x0000_707f, 0x0000_1023, 17);

const SW: Row = Row(0x0000_707f, 0x0000_2023, 18);

const ADDI: Row = Row(0x0000_707f, 0x0000_0013, 19);

const SLTI: Row = Row(0x0000_707f, 0x0000_2013, 20);

const SLTIU: Row = Row(0x0000_707f, 0x0000_3013, 21);

const XORI: Row = Row(0x0000_707f, 0x0000_4013, 22);

const ORI: Row = Row(0x0000_707f, 0x0000_6013, 23);

const ANDI: Row = Row(0x0000_707f, 0x0000_7013, 24);

const SLLI: Row = Row(0xfe00_707f, 0x0000_1013, 25);

const SRLI: Row = Row(0xfe00_707f, 0x0000_5013, 26);

const SRAI: Row = Row(0xfe00_707f, 0x4000_5013, 27);

const ADD: Row = Row(0xfe00_707f, 0x0000_0033, 28);

const SUB: Row = Row(0xfe00_707f, 0x4000_0033, 29);

const SLL: Row = Row(0xfe00_707f, 0x0000_1033, 30);

const SLT: Row = Row(0xfe00_707f, 0x0000_2033, 31);

const SLTU: Row = Row(0xfe00_707f, 0x0000_3033, 32);

const XOR: Row = Row(0xfe00_707f, 0x0000_4033, 33);

const SRL: Row = Row(0xfe00_707f, 0x0000_5033, 34);

const SRA: Row = Row(0xfe00_707f, 0x4000_5033, 35);

const OR: Row = Row(0xfe00_707f, 0x0000_6033, 36);

const AND: Row = Row(0xfe00_707f, 0x0000_7033, 37);

const MUL: Row = Row(0xfe00_707f, 0x0200_0033, 38);

const DIV: Row = Row(0xfe00_707f, 0x0200_4033, 39);

const DIVU: Row = Row(0xfe00_707f, 0x0200_5033, 40);

const REM: Row = Row(0xfe00_707f, 0x0200_6033, 41);

const REMU: Row = Row(0xfe00_707f, 0x0200_7033, 42);

const FENCE: Row = Row(0x0000_707f, 0x0000_000f, 43);

const FENCE_I: Row = Row(0x0000_707f, 0x0000_100f, 44);

const MULH: Row = Row(0xfe00_707f, 0x0200_1033, 45);

const MULHSU: Row = Row(0xfe00_707f, 0x0200_2033, 46);

const MULHU: Row = Row(0xfe00_707f, 0x0200_3033, 47);

// The standing table.
const STANDING_ROWS: Table = [
    LUI, AUIPC, JAL, JALR, BEQ, BNE, BLT, BGE, BLTU, BGEU, LB, LH, LW, LBU, LHU, SB, SH, SW, ADDI,
    SLTI, SLTIU, XORI, ORI, ANDI, SLLI, SRLI, SRAI, ADD, SUB, SLL, SLT, SLTU, XOR, SRL, SRA, OR,
    AND, MUL, DIV, DIVU, REM, REMU, FENCE, FENCE_I, MULH, MULHSU, MULHU,
];

#[tactic(auto, unfolding(crate::specs::Rows::standing_rows, crate::specs::Rows::rows_from, crate::specs::Rows::mask_of, crate::specs::Rows::match_of, crate::specs::Listing::listing, crate::specs::Listing::fixed))]
pub fn standing_rows() -> Table
    ensures { result ≡ standing_rows }
{
    STANDING_ROWS
}

impl Row {
    // The word agrees with the row's match in the bits of its mask.
    pub fn matches(self, word: u32) -> bool
        ensures { result ≡ matches self word }
    {
        let Row(mask, value, _) = self;
        word & mask == value
    }
}

// The first row that the word matches. By `find` its proof was not found within the search's limits.
#[tactic(auto, using(crate::proofs::Scan::hit, crate::proofs::Scan::miss, crate::proofs::Scan::done))]
pub fn find_row(rows: Table, word: u32) -> Option<Row>
    ensures { result ≡ find_row rows word }
{
    for row in &rows {
        if row.matches(word) {
            return Some(*row);
        }
    }
    None
}

// The same by the standing table. No word matches two of its rows, so the likely one is tried before the scan.
#[tactic(auto, using(crate::proofs::Apart::by_row))]
pub fn find_standing_row(word: u32) -> Option<Row>
    ensures { result ≡ find_row standing_rows word }
{
    let likely = likely_row(word);
    if likely.matches(word) {
        return Some(likely);
    }
    find_row(standing_rows(), word)
}
