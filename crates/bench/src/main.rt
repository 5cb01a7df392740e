// The bench program: reads book, snapshot and question from standard input and prints one line, the reply. It lends 1,024 lines.
#![tactic(auto)]

use std::io;

fn main(rt: HostRuntime) -> io::Result<()> {
    let mut table = [0u64; 1024];
    let mut space = [0u64; 3072];
    report::bench(&rt, &mut table, &mut space)
}
