// The bench program with the longest table, 65,535 lines: for pools that the bench program refuses by 11.
#![tactic(auto)]

use std::io;

fn main(rt: HostRuntime) -> io::Result<()> {
    let mut table = [0u64; 65535];
    let mut space = [0u64; 196605];
    report::bench(&rt, &mut table, &mut space)
}
