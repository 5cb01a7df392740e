// The choice of a rule for a predicate with its arguments: the first one that can be unfolded there.
ghost use Rattle.std.specs.Prelude.{◌<◌};
ghost use Rattle.block.specs.Layout.{predicate_count};
ghost use Rattle.finding.specs.Values.{Counted};
ghost use Rattle.plain.specs.Plain.{RulePlace};
ghost use Rattle.walk.specs.Walk.{Readable, Attempts, Chooses};

use super::Choice;
use super::taking::{pures_hold, take};
use block::{HeapBlock, QueryBlock, RuleBlock, head, rule_count, rule_place};
use finding::find;
use finding::values::Values;

// Tries a rule: its values found, its pure conditions met, its records free. The mask of all records taken then.
fn attempt(
    rules: &RuleBlock,
    rule: usize,
    heap: &HeapBlock,
    predicate: usize,
    arguments: &Values,
    mask: u16,
    values: &mut Values,
    given: &QueryBlock,
) -> Option<u16>
    requires { Readable given.now rules.now heap.now × RulePlace given.now rules.now rule × Counted arguments.now 0 }
    ensures { Attempts given.now rules.now rule heap.now predicate arguments.now mask values.new result }
{
    if usize::from(head(rules, rule)) != predicate {
        return None;
    }
    *values = *arguments;
    if find(rules, rule, heap, values, given) != 0 || !pures_hold(rules, rule, values, given) {
        return None;
    }
    take(rules, rule, values, heap, mask, given)
}

// The first rule that can be unfolded for a predicate with its arguments, where the records of the mask are taken; and the values of its
// variables.
pub fn choose(
    rules: &RuleBlock,
    heap: &HeapBlock,
    predicate: usize,
    arguments: &Values,
    mask: u16,
    values: &mut Values,
    given: &QueryBlock,
) -> Option<Choice>
    requires { Readable given.now rules.now heap.now × (predicate < predicate_count rules.now) × Counted arguments.now 0 }
    ensures { Chooses given.now rules.now heap.now predicate arguments.now mask values.new result }
{
    let count = rule_count(rules);
    for r in 0..count {
        let rule = rule_place(r);
        if let Some(after) = attempt(rules, rule, heap, predicate, arguments, mask, values, given) {
            return Some(Choice { rule, mask: after });
        }
    }
    None
}
