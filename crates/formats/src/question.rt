// The question, into the block of the query.
ghost use Rattle.block.specs.Layout.{constant_count, query_size};
ghost use Rattle.std.specs.Prelude.{◌≡◌, ◌≤◌, length};
ghost use Rattle.book.specs.BookLayout.{arities_in, Header};
ghost use Rattle.formats.specs.Refusal.{QueryRead};

use block::heap::constant_count;
use block::{ARITIES, FIRST_GIVEN, PREDICATE, PREDICATES, QueryBlock, RuleBlock, VALUES};
use reader::Reader;
use reader::fields::values;
use semantics::Refusal;

// The refusal of a question, whatever does not match.
const OFF: Refusal = Refusal::QuestionMismatch;

// The question about these rules, into the block of the query, where the constants stay.
pub(crate) fn read_query(
    question: &[u8],
    rules: &RuleBlock,
    query: &mut QueryBlock,
) -> Result<(), Refusal>
    requires { Header rules.now × (constant_count query.old ≤ 8) × (length query.old ≡ query_size) }
    ensures { QueryRead (arities_in rules.now) question.now query.old query.new result }
{
    let mut reader = Reader::new(question);
    let predicate = reader.below(OFF, OFF, rules[PREDICATES])?;
    let arity = rules[ARITIES + usize::from(predicate)];
    let count = reader.ranged(OFF, OFF, arity, arity)?;
    let first = FIRST_GIVEN + constant_count(query);
    query[PREDICATE] = u32::from(predicate);
    query[VALUES] = u32::from(count);
    values(&mut reader, query, first, usize::from(count), OFF)?;
    reader.finish(OFF)
}
