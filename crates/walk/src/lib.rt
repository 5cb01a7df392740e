// The quick walk: refusals 1 to 9, then 12 if the rule set is not plain, and else the verdict, by unfolding from the question downward. It
// needs no table and no domain, and nothing that is lent is changed. The first rule that can be unfolded is taken and never taken back: in a
// plain rule set it is the only one.
#![tactic(auto)]

mod choosing;
mod taking;
mod unfolding;

ghost use Rattle.std.specs.Prelude.{Bool, ◌≡◌, ◌-◌, ◌^◌, ◌≤◌, length, take};
ghost use Rattle.semantics.specs.Formats.{WellFormedInput};
ghost use Rattle.semantics.specs.Numbered.{number_of};
ghost use Rattle.semantics.specs.Plain.{Plain};
ghost use Rattle.semantics.specs.Walk.{refusal_walk_reply, Walks, Walked};
ghost use Rattle.words.specs.Told.{Told};
ghost use Rattle.block.specs.Layout.{input_in, rule_set_read, rule_set_size};
ghost use Rattle.finding.specs.Values.{Counted};
ghost use Rattle.plain.specs.Plain.{ConstantsFit};

use block::heap::{query_predicate, query_values, record_count};
use block::{HEAP_SIZE, HeapBlock, QUERY_SIZE, QueryBlock, RULE_SET_SIZE, RuleBlock};
use finding::values::Values;
use plain::plain;
use semantics::{Refusal, WalkReply};
use unfolding::descend;

// A rule by its place, and the mask of all records taken once its points-to atoms have taken theirs.
#[derive(Clone, Copy)]
pub struct Choice {
    pub rule: usize,
    pub mask: u16,
}

// One more than the records that a heap may have.
const FUEL: usize = 17;

// The reply of a refusal: the other number is 0.
fn refuse(refusal: Refusal) -> WalkReply
    ensures { result ≡ refusal_walk_reply (number_of refusal) }
{
    WalkReply {
        refusal: u64::from(refusal),
        verdict: 0,
    }
}

// Up to four values as the first entries, and zeros.
fn arguments_of(given: &[u32]) -> Values
    requires { length given.now ≤ 4 }
    ensures { (take (length given.now) result ≡ given.now) × Counted result 0 }
{
    let mut arguments = [0u64; 8];
    for (i, value) in given.iter().enumerate() {
        arguments[i] = u64::from(*value);
    }
    arguments
}

// Whether each of so many records is taken.
fn all_taken(records: usize, mask: u16) -> bool
    requires { records ≤ 16 }
    ensures { Told result (mask ≡ 2 ^ records - 1) }
{
    u32::from(mask) + 1 == 1 << records
}

// The verdict for a plain rule set: whether the query unfolds to a tree that takes every record.
fn verdict(rules: &RuleBlock, heap: &HeapBlock, query: &QueryBlock) -> u64
    requires { WellFormedInput (input_in rules.now heap.now query.now) × (length rules.now ≡ rule_set_size) × ConstantsFit query.now × Plain (rule_set_read query.now rules.now) }
    ensures { Walks (input_in rules.now heap.now query.now) (record { refusal = 0; verdict = result }) }
{
    let arguments = arguments_of(query_values(query));
    let predicate = usize::from(query_predicate(query));
    match descend(rules, heap, predicate, &arguments, 0, FUEL, query) {
        Some(mask) if all_taken(record_count(heap), mask) => 1,
        _ => 0,
    }
}

// The answer to what was read: a rule set that is not plain is refused, and for a plain one there is a verdict.
fn respond(rules: &RuleBlock, heap: &HeapBlock, query: &QueryBlock) -> WalkReply
    requires { WellFormedInput (input_in rules.now heap.now query.now) × (length rules.now ≡ rule_set_size) × ConstantsFit query.now }
    ensures { Walks (input_in rules.now heap.now query.now) result }
{
    if plain(rules, query) {
        WalkReply {
            refusal: 0,
            verdict: verdict(rules, heap, query),
        }
    } else {
        refuse(Refusal::BookNotPlain)
    }
}

// The walk: what the reader refuses, or the answer.
pub fn walk(book: &[u8], snapshot: &[u8], question: &[u8]) -> WalkReply
    ensures { Walked book.now snapshot.now question.now result }
{
    let mut rules = [0u8; RULE_SET_SIZE];
    let mut heap = [0u32; HEAP_SIZE];
    let mut query = [0u32; QUERY_SIZE];
    match formats::read(book, snapshot, question, &mut rules, &mut heap, &mut query) {
        Ok(()) => respond(&rules, &heap, &query),
        Err(refusal) => refuse(refusal),
    }
}
