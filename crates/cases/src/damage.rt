// The engine's certificate goes to the check whole; with each bit of each word flipped; with each word complemented; less its last line;
// less its last word; with a line of 0 after it; with its last line again. inputs.txt says how many of these are taken, and why.
ghost use Rattle.std.specs.Prelude.{◌+◌, ◌≤◌, length};

use sections::Sections;

// 1 if the check takes the words, else 0.
fn taken(asked: Sections<'_>, certificate: &[u64]) -> u64
    ensures { result ≤ 1 }
{
    u64::from(super::check(asked, certificate).taken == 1)
}

// How many are taken with the bits of a mask flipped in one word.
fn masked(asked: Sections<'_>, certificate: &mut [u64], mask: u64) -> u64
    ensures { result ≤ length certificate.old }
{
    let mut count = 0;
    for at in 0..certificate.len() {
        certificate[at] ^= mask;
        count += taken(asked, certificate);
        certificate[at] ^= mask;
    }
    count
}

// How many are taken with one bit flipped.
fn flipped(asked: Sections<'_>, certificate: &mut [u64]) -> u64
    requires { length certificate.old ≤ 3072 }
{
    let mut count = 0;
    for bit in 0..u64::BITS {
        count += masked(asked, certificate, 1 << bit);
    }
    count
}

// The certificate is the first n words of the space, and 0 follows.
fn damaged(asked: Sections<'_>, space: &mut [u64], n: usize) -> [u64; 9]
    requires { (3 ≤ n) × (n + 3 ≤ length space.old) × (n ≤ 3072) }
{
    let size = n as u64;
    let certificate = &mut space[..n];
    let whole = taken(asked, certificate);
    let bits = flipped(asked, certificate);
    let words = masked(asked, certificate, u64::MAX);
    let line_less = taken(asked, &space[..n - 3]);
    let word_less = taken(asked, &space[..n - 1]);
    let line_more = taken(asked, &space[..n + 3]);
    space.copy_within(n - 3..n, n);
    let again = taken(asked, &space[..n + 3]);
    [
        whole,
        bits,
        64 * size,
        words,
        size,
        line_less,
        word_less,
        line_more,
        again,
    ]
}

// Has the engine write the certificate. Nothing is tried where there is none, or no room for a line more.
pub(crate) fn certified(asked: Sections<'_>) -> [u64; 9] {
    let mut table = [0u64; 1024];
    let mut space = [0u64; 3072];
    let reply = asked.answer(&mut table, &mut space);
    match reply.lines {
        1..=1023 => damaged(asked, &mut space, 3 * reply.lines as usize),
        _ => [0; 9],
    }
}
