// Runs `decompress` on every halfword and compares with the list on standard input, which oracle/expansion makes.
#![tactic(auto)]

use std::io;
use std::io::Read;
use test_support::ListReader;

// What the list has of a halfword: the word, if it expands, and who says so, the Rust or, where that refuses, the assembler.
#[derive(Clone, Copy)]
struct Entry {
    word: Option<u32>,
    by_assembler: bool,
}

// No expansion is 0 or 1: 0 stands for a refusal, and 1 comes before the assembler's word.
fn next_entry<R: Read>(list: &mut ListReader<R>) -> io::Result<Entry> {
    let number = list.number()?;
    let by_assembler = number == 1;
    let word = if by_assembler { list.number()? } else { number };
    Ok(Entry {
        word: (word != 0).then_some(word),
        by_assembler,
    })
}

fn main(rt: HostRuntime) -> io::Result<()> {
    let mut list = ListReader { reader: rt.stdin() };
    let mut by_rust = 0u32;
    let mut by_assembler = 0u32;
    let mut refused = 0u32;
    let mut differing = 0u32;
    for raw in 0..=u16::MAX {
        let entry = next_entry(&mut list)?;
        if riscv32imc::decompress(raw) != entry.word {
            differing += 1;
        } else if entry.word.is_none() {
            refused += 1;
        } else if entry.by_assembler {
            by_assembler += 1;
        } else {
            by_rust += 1;
        }
    }
    println!(rt;
        "{by_rust} halfwords expand as in the Rust, {by_assembler} as in the GNU assembler, {refused} are refused, {differing} differ from the list"
    )
}
