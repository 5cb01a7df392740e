// The refusal of each book, snapshot and question in standard input, 0 where all is read. inputs.txt has them in base sixteen, with the
// reason for each expected number; examples/pack.py makes the file stdin of it: for each case four sections, each after its length. The
// first is text that stands before the number.
#![tactic(auto)]

use block::{HEAP_SIZE, QUERY_SIZE, RULE_SET_SIZE};
use input::read_full;
use sections::{Sections, split, take_section};
use std::io;

// Prints the refusal, or 0.
fn show(rt: &impl Print, asked: Sections<'_>) -> io::Result<()> {
    let mut rules = [0u8; RULE_SET_SIZE];
    let mut heap = [0u32; HEAP_SIZE];
    let mut query = [0u32; QUERY_SIZE];
    let read = formats::read(
        asked.book,
        asked.snapshot,
        asked.question,
        &mut rules,
        &mut heap,
        &mut query,
    );
    let n = match read {
        Ok(()) => 0,
        Err(refusal) => u64::from(refusal),
    };
    print!(rt; " {n}")
}

// All cases, one after the other.
fn cases(rt: &impl Print, input: &[u8]) -> io::Result<()> {
    let mut rest = input;
    while !rest.is_empty() {
        let (text, after) = take_section(rest);
        let (asked, after) = split(after);
        rt.write_all(text)?;
        show(rt, asked)?;
        rest = after;
    }
    Ok(())
}

fn main(rt: HostRuntime) -> io::Result<()> {
    let mut buffer = [0u8; 65536];
    let n = read_full(&mut rt.reader(), &mut buffer)?;
    cases(&rt, &buffer[..n])?;
    rt.write_all(b"\n")
}
