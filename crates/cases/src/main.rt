// What the engine and the check say of the pools in standard input. inputs.txt has them in base sixteen, with the reason for each expected
// line; examples/pack.py makes the file stdin of it. A case has a section of text, one of words that say what is tried, and the three
// sections of an input of the bench program. In the text a byte of 128 or more is the place of a number that was found.
#![tactic(auto)]

mod damage;
mod lent;
mod parts;
mod walks;

ghost use Rattle.std.specs.Prelude.{◌≤◌, length};

use input::read_full;
use sections::{Sections, split, take_section};
use semantics::CheckReply;
use std::io;

// The words of eight bytes each, lowest first, as many as there is room for.
fn load<'a>(bytes: &[u8], words: &'a mut [u64]) -> &'a [u64]
    ensures { length result.now ≤ length words.old }
{
    let (chunks, _) = bytes.as_chunks();
    let count = chunks.len().min(words.len());
    for (word, chunk) in words.iter_mut().zip(chunks) {
        *word = u64::from_le_bytes(*chunk);
    }
    &words[..count]
}

// The check of a certificate.
fn check(asked: Sections<'_>, certificate: &[u64]) -> CheckReply {
    engine::check(asked.book, asked.snapshot, asked.question, certificate)
}

// The numbers of the check's reply.
fn answered(reply: CheckReply) -> [u64; 9] {
    [reply.refusal, reply.taken, 0, 0, 0, 0, 0, 0, 0]
}

// Tries what the words say.
fn tried(words: &[u64], asked: Sections<'_>) -> [u64; 9] {
    match words {
        // The engine's own certificate, damaged.
        [] | [_] | [_, _] => damage::certified(asked),
        // The engine, with so much memory.
        [0, lines, words, ..] => lent::lend(asked, *lines as usize, *words as usize),
        [1, certificate @ ..] => answered(check(asked, certificate)),
        // The engine asked about some part, with so much memory.
        [2, lines, words, ..] => parts::lend(asked, *lines as usize, *words as usize),
        [4, ..] => walks::walked(asked),
        [_, part, certificate @ ..] => {
            answered(parts::check(asked, (part % 65536) as u16, certificate))
        }
    }
}

// Prints the text, with the numbers at their places.
fn spell(rt: &impl Print, text: &[u8], found: &[u64; 9]) -> io::Result<()> {
    for byte in text {
        if byte.is_ascii() {
            rt.write_all(&[*byte])?;
        } else {
            let number = found[(usize::from(*byte) - 128) % 9];
            print!(rt; "{number}")?;
        }
    }
    Ok(())
}

// All cases, one after the other.
fn cases(rt: &impl Print, input: &[u8]) -> io::Result<()> {
    let mut rest = input;
    while !rest.is_empty() {
        let (text, after) = take_section(rest);
        let (bytes, after) = take_section(after);
        let (asked, after) = split(after);
        let mut words = [0u64; 32];
        spell(rt, text, &tried(load(bytes, &mut words), asked))?;
        rest = after;
    }
    Ok(())
}

fn main(rt: HostRuntime) -> io::Result<()> {
    let mut buffer = [0u8; 65536];
    let n = read_full(&mut rt.reader(), &mut buffer)?;
    cases(&rt, &buffer[..n])
}
