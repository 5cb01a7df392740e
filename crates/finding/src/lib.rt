// The values of a rule's variables, found from the head's arguments along equalities and along the fields of records at known addresses. What
// is found is what the rule must have wherever it applies; in a plain rule set, where it applies, every variable is found.
#![tactic(auto)]

mod links;
pub mod records;
pub mod values;

ghost use Rattle.std.specs.Prelude.{◌≤◌};
ghost use Rattle.semantics.specs.Heap.{WellFormedHeap};
ghost use Rattle.block.specs.Layout.{heap_in, head_arity, constant_count};
ghost use Rattle.block.specs.Ready.{FormedRead, variables_in};
ghost use Rattle.finding.specs.Values.{Counted, Shaped};
ghost use Rattle.finding.specs.Found.{Opened, FoundIn};

use block::{HeapBlock, QueryBlock, RuleBlock, head_arity, variable_count};
use links::{along_atoms, along_pures};
use values::{OPEN, Values};

// The beginning: the arguments stay, every bound variable is opened. The number of these.
pub fn begin(rules: &RuleBlock, rule: usize, values: &mut Values) -> usize
    requires { Shaped rules.now rule × Counted values.old 0 }
    ensures { Opened (head_arity rules.now rule) (variables_in rules.now rule) values.old values.new × Counted values.new result }
{
    let arity = head_arity(rules, rule);
    let count = variable_count(rules, rule);
    values[arity..count].fill(OPEN);
    count - arity
}

// Finds the values of the rule's variables from the arguments of its head, which are the first entries; gives the number of variables that
// stay open. Each turn goes along every link once and ends the search if nothing is learnt.
pub fn find(
    rules: &RuleBlock,
    rule: usize,
    heap: &HeapBlock,
    values: &mut Values,
    given: &QueryBlock,
) -> usize
    requires { FormedRead given.now rules.now rule × WellFormedHeap (heap_in heap.now) × Counted values.old 0 × (constant_count given.now ≤ 8) }
    ensures { FoundIn given.now rules.now rule heap.now values.old values.new × Counted values.new result }
{
    let mut unknown = begin(rules, rule, values);
    while 0 < unknown {
        let some = along_pures(rules, rule, values, unknown, given);
        let left = along_atoms(rules, rule, heap, values, some);
        if left == unknown {
            return unknown;
        }
        unknown = left;
    }
    0
}
