// Which words share a record with which. For each word of standard input, two bytes with the lower first, it prints a line: the word, and
// behind it those that it shares a record with. examples/sharing.py has the words, and derives the lines from the records in each.
#![tactic(auto)]

use input::read_full;
use std::io;

// The words that share a record with one.
fn sharing(rt: &impl Print, words: &[[u8; 2]], one: u16) -> io::Result<()> {
    for bytes in words {
        let other = u16::from_le_bytes(*bytes);
        if words::shares(one, other) {
            print!(rt; " {other:04x}")?;
        }
    }
    Ok(())
}

// A line for each word.
fn lines(rt: &impl Print, words: &[[u8; 2]]) -> io::Result<()> {
    for bytes in words {
        let one = u16::from_le_bytes(*bytes);
        print!(rt; "{one:04x}:")?;
        sharing(rt, words, one)?;
        println!(rt)?;
    }
    Ok(())
}

fn main(rt: HostRuntime) -> io::Result<()> {
    let mut buffer = [0u8; 4096];
    let n = read_full(&mut rt.reader(), &mut buffer)?;
    let (words, _) = buffer[..n].as_chunks();
    lines(&rt, words)
}
