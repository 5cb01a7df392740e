// The book, into the block of a rule set, and its constants into that of the query: places as the layout of the blocks has them.
#![tactic(auto)]

mod parts;

ghost use Rattle.block.specs.Layout.{first_arity, constant_count, first_rule, query_size, rule_set_size, rule_size};
ghost use Rattle.std.specs.Prelude.{◌≡◌, ◌+◌, ◌*◌, ◌≤◌, ◌<◌, length};
ghost use Rattle.reader.specs.Layout.{Fills, Gives, many};
ghost use Rattle.reader.specs.Unread.{unread};
ghost use Rattle.book.specs.BookLayout.{count_layout, name_layout, arities_in, Header, rule_layout, ConstantsFill, RuleSetFills, RulesRead};

use block::{
    ARITIES, BOUND, CONSTANTS, FIRST_GIVEN, FIRST_RULE, PREDICATES, QueryBlock, RULE_SIZE, RULES,
};
use parts::Scope;
use reader::Reader;
use reader::fields::values;
use semantics::Refusal;

// The ranges.
const MOST_PREDICATES: u8 = 8;

const MOST_ARGUMENTS: u8 = 4;

const MOST_CONSTANTS: u8 = 8;

const MOST_RULES: u8 = 16;

const MOST_VARIABLES: u8 = 8;

// A count, from `least` to `most`.
fn count(
    reader: &mut Reader,
    block: &mut [u8],
    at: usize,
    least: u8,
    most: u8,
) -> Result<u8, Refusal>
    requires { at < length block.old }
    ensures { Gives (count_layout least most) at (unread reader.old) (unread reader.new) block.old block.new result }
{
    let count = reader.ranged(Refusal::BookEnds, Refusal::BookCount, least, most)?;
    block[at] = count;
    Ok(count)
}

// One of `n` predicates or variables.
fn named(reader: &mut Reader, block: &mut [u8], at: usize, n: u8) -> Result<u8, Refusal>
    requires { at < length block.old }
    ensures { Gives (name_layout n) at (unread reader.old) (unread reader.new) block.old block.new result }
{
    let name = reader.below(Refusal::BookEnds, Refusal::BookName, n)?;
    block[at] = name;
    Ok(name)
}

// A rule: head, number of bound variables, and body. Head and bound variables are at most 8 together.
fn rule(reader: &mut Reader, block: &mut [u8], at: usize, given: &QueryBlock) -> Result<(), Refusal>
    requires { Header block.old × (first_rule ≤ at) × (at + rule_size ≤ length block.old) × (constant_count given.now ≤ 8) }
    ensures { Fills (rule_layout (arities_in block.old) given.now) at (unread reader.old) (unread reader.new) block.old block.new result }
{
    let predicates = block[PREDICATES];
    let head = named(reader, block, at, predicates)?;
    let arity = block[ARITIES + usize::from(head)];
    let bound = count(reader, block, at + BOUND, 0, MOST_VARIABLES - arity)?;
    let scope = Scope {
        variables: arity + bound,
        given,
    };
    scope.body(reader, block, at)
}

// `count` rules.
fn rules(
    reader: &mut Reader,
    block: &mut [u8],
    from: usize,
    count: u8,
    given: &QueryBlock,
) -> Result<(), Refusal>
    requires { Header block.old × (first_rule ≤ from) × (from + rule_size * count ≤ length block.old) × (constant_count given.now ≤ 8) }
    ensures { Fills (many count (rule_layout (arities_in block.old) given.now)) from (unread reader.old) (unread reader.new) block.old block.new result }
{
    for k in 0..usize::from(count) {
        rule(reader, block, from + RULE_SIZE * k, given)?;
    }
    Ok(())
}

// The numbers of arguments of the predicates.
fn arities(reader: &mut Reader, block: &mut [u8], predicates: u8) -> Result<(), Refusal>
    requires { first_arity + predicates ≤ length block.old }
    ensures { Fills (many predicates (count_layout 0 4)) first_arity (unread reader.old) (unread reader.new) block.old block.new result }
{
    for k in 0..usize::from(predicates) {
        count(reader, block, ARITIES + k, 0, MOST_ARGUMENTS)?;
    }
    Ok(())
}

// The constants, each of four bytes.
fn constants(reader: &mut Reader, query: &mut [u32]) -> Result<(), Refusal>
    requires { length query.old ≡ query_size }
    ensures { ConstantsFill (unread reader.old) (unread reader.new) query.old query.new result }
{
    let count = reader.ranged(Refusal::BookEnds, Refusal::BookCount, 0, MOST_CONSTANTS)?;
    query[CONSTANTS] = u32::from(count);
    values(
        reader,
        query,
        FIRST_GIVEN,
        usize::from(count),
        Refusal::BookEnds,
    )
}

// The whole rule set: the predicates' numbers of arguments, the constants, and the rules.
fn rule_set(reader: &mut Reader, block: &mut [u8], query: &mut QueryBlock) -> Result<(), Refusal>
    requires { length block.old ≡ rule_set_size }
    ensures { RuleSetFills (unread reader.old) (unread reader.new) block.old block.new query.new result }
{
    let predicates = count(reader, block, PREDICATES, 1, MOST_PREDICATES)?;
    arities(reader, block, predicates)?;
    constants(reader, query)?;
    let listed = count(reader, block, RULES, 0, MOST_RULES)?;
    rules(reader, block, FIRST_RULE, listed, query)
}

// The book, into the block of a rule set, and its constants into that of the query.
pub fn read_rules(book: &[u8], block: &mut [u8], query: &mut QueryBlock) -> Result<(), Refusal>
    requires { length block.old ≡ rule_set_size }
    ensures { RulesRead book.now block.old block.new query.new result }
{
    let mut reader = Reader::new(book);
    if let Err(refusal) = rule_set(&mut reader, block, query) {
        // The counts are in their ranges on a refusal too: one predicate without arguments, and no constant.
        block[PREDICATES] = 1;
        block[ARITIES] = 0;
        query[CONSTANTS] = 0;
        return Err(refusal);
    }
    reader.finish(Refusal::BookLonger)
}
