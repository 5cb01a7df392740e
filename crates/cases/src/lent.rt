// The engine with the memory that a case lends it. Each word of it is 1 before the call.
ghost use Rattle.std.specs.Prelude.{◌≤◌, length};

use sections::Sections;

// The last of the facts in the table, or 0 where there is none.
fn last(table: &[u64], facts: usize) -> u64 {
    match table.get(..facts) {
        Some([.., last]) => *last,
        _ => 0,
    }
}

// How many of the words are not 0.
pub(crate) fn used(words: &[u64]) -> u64
    ensures { result ≤ length words.now }
{
    words.iter().filter(|word| **word != 0).count() as u64
}

// The reply; how many words of the table and of the space are not 0 afterwards; the last fact.
fn found(asked: Sections<'_>, table: &mut [u64], space: &mut [u64]) -> [u64; 9] {
    let reply = asked.answer(table, space);
    [
        reply.refusal,
        reply.verdict,
        reply.facts,
        reply.rounds,
        reply.lines,
        used(table),
        used(space),
        last(table, reply.facts as usize),
        0,
    ]
}

// Lends so many words of a table and of an unfolding space. Nothing is tried where there are fewer.
pub(crate) fn lend_from<F: FnOnce(&mut [u64], &mut [u64]) -> [u64; 9]>(
    table: &mut [u64],
    space: &mut [u64],
    lines: usize,
    words: usize,
    find: F,
) -> [u64; 9]
    requires { F.IsAlwaysCallable find }
{
    match (table.get_mut(..lines), space.get_mut(..words)) {
        (Some(table), Some(space)) => find(table, space),
        _ => [0; 9],
    }
}

// At most one line more than the longest table has.
pub(crate) fn lend(asked: Sections<'_>, lines: usize, words: usize) -> [u64; 9] {
    let mut table = [1u64; 65536];
    let mut space = [1u64; 196608];
    lend_from(
        &mut table,
        &mut space,
        lines,
        words,
        |table, space| found(asked, table, space),
    )
}
