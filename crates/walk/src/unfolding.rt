// The unfolding of a predicate downward: a rule is chosen, and then its calls are unfolded one after the other, each with the records that
// are left.
ghost use Rattle.std.specs.Prelude.{◌<◌};
ghost use Rattle.block.specs.Layout.{predicate_count, call_count};
ghost use Rattle.finding.specs.Values.{Counted};
ghost use Rattle.plain.specs.Plain.{RulesReadable, RulePlace};
ghost use Rattle.walk.specs.Walk.{Readable, CallsWith, WalksFrom};

use super::choosing::choose;
use block::{HeapBlock, QueryBlock, RuleBlock, call_arity, call_count, call_predicate, call_term};
use finding::values::{Values, entry};

// The arguments of call c of a rule whose variables have these values; entries past the last are 0.
fn call_arguments(
    rules: &RuleBlock,
    rule: usize,
    c: usize,
    values: &Values,
    given: &QueryBlock,
) -> Values
    requires { RulePlace given.now rules.now rule × (c < call_count rules.now rule) × Counted values.now 0 × RulesReadable given.now rules.now }
    ensures { CallsWith given.now rules.now rule c values.now result }
{
    let count = call_arity(rules, rule, c);
    let mut arguments = [0u64; 8];
    for j in 0..count {
        arguments[j] = entry(values, call_term(rules, rule, c, j), given);
    }
    arguments
}

// Unfolds a predicate with its arguments, where the records of the mask are taken. The mask of all records taken then. `fuel` is more than
// the records that are free: a rule with calls takes one, so it is never short.
pub fn descend(
    rules: &RuleBlock,
    heap: &HeapBlock,
    predicate: usize,
    arguments: &Values,
    mask: u16,
    fuel: usize,
    given: &QueryBlock,
) -> Option<u16>
    requires { Readable given.now rules.now heap.now × (predicate < predicate_count rules.now) × Counted arguments.now 0 }
    ensures { WalksFrom given.now rules.now heap.now fuel predicate arguments.now mask result }
{
    if fuel == 0 {
        return None;
    }
    let mut values = [0u64; 8];
    let choice = choose(rules, heap, predicate, arguments, mask, &mut values, given)?;
    let rule = choice.rule;
    let count = call_count(rules, rule);
    let mut after = choice.mask;
    for c in 0..count {
        let called = usize::from(call_predicate(rules, rule, c));
        let below = call_arguments(rules, rule, c, &values, given);
        after = descend(rules, heap, called, &below, after, fuel - 1, given)?;
    }
    Some(after)
}
