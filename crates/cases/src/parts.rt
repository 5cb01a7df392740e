// The engine asked about some part, with the memory that a case lends it, and the check for a part.
use super::lent::{lend_from, used};
use sections::Sections;
use semantics::CheckReply;

// The check of a certificate for a part.
pub(crate) fn check(asked: Sections<'_>, part: u16, certificate: &[u64]) -> CheckReply {
    engine::check_part(
        asked.book,
        asked.snapshot,
        asked.question,
        part,
        certificate,
    )
}

// 1 if the check takes the first n of the words for the part, else 0.
fn taken(asked: Sections<'_>, part: u16, words: &[u64], n: usize) -> u64 {
    words
        .get(..n)
        .map_or(0, |certificate| check(asked, part, certificate).taken)
}

// The reply; how many words of the table and of the space are not 0 afterwards; whether the check takes what was written.
fn found(asked: Sections<'_>, table: &mut [u64], space: &mut [u64]) -> [u64; 9] {
    let reply = engine::find(asked.book, asked.snapshot, asked.question, table, space);
    let n = 3 * (reply.lines % 65536) as usize;
    [
        reply.refusal,
        reply.verdict,
        u64::from(reply.part),
        reply.facts,
        reply.rounds,
        reply.lines,
        used(table),
        used(space),
        taken(asked, reply.part, space, n),
    ]
}

pub(crate) fn lend(asked: Sections<'_>, lines: usize, words: usize) -> [u64; 9] {
    let mut table = [1u64; 1024];
    let mut space = [1u64; 3072];
    lend_from(
        &mut table,
        &mut space,
        lines,
        words,
        |table, space| found(asked, table, space),
    )
}
