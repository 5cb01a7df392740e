// From the bytes of book, snapshot and question to the decoded blocks, or to the number of the first fault met; and the house book.
#![tactic(auto)]

mod question;

ghost use Rattle.std.specs.Prelude.{◌≡◌};
ghost use Rattle.semantics.specs.Contract.{house as houseBook};
ghost use Rattle.formats.specs.Refusal.{Read};

use block::{HeapBlock, QueryBlock, RuleBlock};
use semantics::Refusal;

// Refusals 1 to 9: the book, then the snapshot, then the question, each into its block, the book's constants into the question's. On a
// refusal what the blocks hold means nothing.
pub fn read(
    book: &[u8],
    snapshot: &[u8],
    question: &[u8],
    rules: &mut RuleBlock,
    heap: &mut HeapBlock,
    query: &mut QueryBlock,
) -> Result<(), Refusal>
    ensures { Read book.now snapshot.now question.now rules.new heap.new query.new result }
{
    book::read_rules(book, rules, query)?;
    snapshot::read_heap(snapshot, heap)?;
    question::read_query(question, rules, query)
}

// ---- the house book

// H: a list segment is predicate 0, a ring 1, a queue with its free chain 2.
const HOUSE: [u8; 47] = [
    3, // predicates
    2, // arguments of segment
    1, // of ring
    2, // of queue with free chain
    0, // no constant
    4, // rules
    0, // segment(a, b)
    0, // nothing bound
    1, // a condition:
    0, // equal
    0, // a
    1, // b
    0, // no atom
    0, // no call
    0, // segment(a, b)
    1, // c is bound
    0, // no condition
    1, // an atom:
    0, // at a
    1, // with one field
    2, // c
    1, // a call:
    0, // segment
    2, // c
    1, // b
    1, // ring(a)
    1, // b is bound
    0, // no condition
    1, // an atom:
    0, // at a
    1, // with one field
    1, // b
    1, // a call:
    0, // segment
    1, // b
    0, // a
    2, // queue with free chain (a, b)
    0, // nothing bound
    0, // no condition
    0, // no atom
    2, // two calls:
    0, // segment
    0, // a
    255, // nil
    0, // segment
    1, // b
    255, // nil
];

// H, to be lent like any book.
pub fn house() -> [u8; 47]
    ensures { result ≡ houseBook }
{
    HOUSE
}
