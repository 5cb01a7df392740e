// The bench program, over memory that is lent to it.
#![tactic(auto)]

use input::read_full;
use std::io;

// Reads book, snapshot and question from standard input, at most 4,096 bytes, and prints the engine's reply as a line.
pub fn bench(rt: &(impl Input + Print), table: &mut [u64], space: &mut [u64]) -> io::Result<()> {
    let mut buffer = [0u8; 4096];
    let n = read_full(&mut rt.reader(), &mut buffer)?;
    let reply = sections::answer(&buffer[..n], table, space);
    println!(rt; "{reply}")
}
