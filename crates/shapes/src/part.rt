// The question whether some part fits, and the check of an unfolding for a part.
ghost use Rattle.semantics.specs.Contract.{Found, CheckedPart};

// The engine, asked about some part.
#[unsafe(no_mangle)]
pub extern "C" fn shapes_part(
    book: &[u8],
    snapshot: &[u8],
    question: &[u8],
    table: &mut [u64],
    space: &mut [u64],
    verdict: &mut u64,
    part: &mut u16,
    facts: &mut u64,
    rounds: &mut u64,
    lines: &mut u64,
) -> u64
    ensures { Found book.now snapshot.now question.now table.old space.old (record { refusal = result; verdict = verdict.new; part = part.new; facts = facts.new; rounds = rounds.new; lines = lines.new }) table.new space.new }
{
    let reply = engine::find(book, snapshot, question, table, space);
    *verdict = reply.verdict;
    *part = reply.part;
    *facts = reply.facts;
    *rounds = reply.rounds;
    *lines = reply.lines;
    reply.refusal
}

// The check of an unfolding for a part.
#[unsafe(no_mangle)]
pub extern "C" fn shapes_check_part(
    book: &[u8],
    snapshot: &[u8],
    question: &[u8],
    part: u16,
    words: &[u64],
    taken: &mut u64,
) -> u64
    ensures { CheckedPart book.now snapshot.now question.now part words.now (record { refusal = result; taken = taken.new }) }
{
    let reply = engine::check_part(book, snapshot, question, part, words);
    *taken = reply.taken;
    reply.refusal
}
