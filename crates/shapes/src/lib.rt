// The library for C: every call with the memory that its caller lends. A call returns the refusal, 0 for none, and writes the other
// numbers of its reply on every way out.
#![tactic(auto)]

mod part;
mod walking;

ghost use Rattle.semantics.specs.Contract.{Decided, Checked};

// The engine, on a table and an unfolding space of the caller.
#[unsafe(no_mangle)]
pub extern "C" fn shapes_decide(
    book: &[u8],
    snapshot: &[u8],
    question: &[u8],
    table: &mut [u64],
    space: &mut [u64],
    verdict: &mut u64,
    facts: &mut u64,
    rounds: &mut u64,
    lines: &mut u64,
) -> u64
    ensures { Decided book.now snapshot.now question.now table.old space.old (record { refusal = result; verdict = verdict.new; facts = facts.new; rounds = rounds.new; lines = lines.new }) table.new space.new }
{
    let reply = engine::decide(book, snapshot, question, table, space);
    *verdict = reply.verdict;
    *facts = reply.facts;
    *rounds = reply.rounds;
    *lines = reply.lines;
    reply.refusal
}

// The check of an unfolding, of any length.
#[unsafe(no_mangle)]
pub extern "C" fn shapes_check(
    book: &[u8],
    snapshot: &[u8],
    question: &[u8],
    words: &[u64],
    taken: &mut u64,
) -> u64
    ensures { Checked book.now snapshot.now question.now words.now (record { refusal = result; taken = taken.new }) }
{
    let reply = engine::check(book, snapshot, question, words);
    *taken = reply.taken;
    reply.refusal
}
