// The quick walk, for plain books.
ghost use Rattle.semantics.specs.Walk.{Walked};

// It is lent no table and no space, and has only a verdict.
#[unsafe(no_mangle)]
pub extern "C" fn shapes_walk(
    book: &[u8],
    snapshot: &[u8],
    question: &[u8],
    verdict: &mut u64,
) -> u64
    ensures { Walked book.now snapshot.now question.now (record { refusal = result; verdict = verdict.new }) }
{
    let reply = walk::walk(book, snapshot, question);
    *verdict = reply.verdict;
    reply.refusal
}
