// Along the links of a rule: its equalities, and the fields of records at known addresses. What is known of one side is learnt of the other.
ghost use Rattle.std.specs.Prelude.{◌≤◌, ◌<◌};
ghost use Rattle.semantics.specs.Heap.{WellFormedHeap};
ghost use Rattle.block.specs.Layout.{heap_in, pure_count, atom_count, constant_count, fixed_in};
ghost use Rattle.block.specs.Ready.{FormedRead, Terms};
ghost use Rattle.finding.specs.Values.{Counted, Shaped};
ghost use Rattle.finding.specs.Links.{AlongPure, AlongPures, AlongFields, AlongAtom, AlongAtoms};

use super::records::{field, record_at};
use super::values::{OPEN, Values, entry, learn, variable};
use block::heap::record_size;
use block::{
    HeapBlock, Kind, QueryBlock, RuleBlock, atom_address, atom_count, atom_fields, atom_size,
    kind_of, pure_count, pure_left, pure_right,
};

// Along pure condition k: where it is an equality, what is known of one side is learnt of the other.
fn along_pure(
    rules: &RuleBlock,
    rule: usize,
    k: usize,
    values: &mut Values,
    unknown: usize,
    given: &QueryBlock,
) -> usize
    requires { FormedRead given.now rules.now rule × (k < pure_count rules.now rule) × Counted values.old unknown × (constant_count given.now ≤ 8) }
    ensures { AlongPure (fixed_in given.now) rules.now rule k values.old values.new × Counted values.new result }
{
    if kind_of(rules, rule, k) == Kind::Unequal {
        return unknown;
    }
    let left = pure_left(rules, rule, k);
    let right = pure_right(rules, rule, k);
    let x = entry(values, left, given);
    if x < OPEN {
        return learn(values, unknown, right, x);
    }
    let y = entry(values, right, given);
    if y < OPEN {
        return learn(values, unknown, left, y);
    }
    unknown
}

// Along every pure condition once.
pub fn along_pures(
    rules: &RuleBlock,
    rule: usize,
    values: &mut Values,
    unknown: usize,
    given: &QueryBlock,
) -> usize
    requires { FormedRead given.now rules.now rule × Counted values.old unknown × (constant_count given.now ≤ 8) }
    ensures { AlongPures (fixed_in given.now) rules.now rule values.old values.new × Counted values.new result }
{
    let count = pure_count(rules, rule);
    let mut left = unknown;
    for k in 0..count {
        left = along_pure(rules, rule, k, values, left, given);
    }
    left
}

// Gives so many terms, from a place of the rules on, the fields of record i.
fn learn_fields(
    rules: &RuleBlock,
    terms: usize,
    heap: &HeapBlock,
    i: usize,
    count: usize,
    values: &mut Values,
    unknown: usize,
) -> usize
    requires { Terms rules.now terms count × (i < 16) × (count ≤ 4) × Counted values.old unknown }
    ensures { AlongFields rules.now terms heap.now i count values.old values.new × Counted values.new result }
{
    let mut left = unknown;
    for j in 0..count {
        left = learn(values, left, rules[terms + j], field(heap, i, j));
    }
    left
}

// Along points-to atom g: where its address is known, its fields are learnt from the record there, if that has as many.
fn along_atom(
    rules: &RuleBlock,
    rule: usize,
    g: usize,
    heap: &HeapBlock,
    values: &mut Values,
    unknown: usize,
) -> usize
    requires { Shaped rules.now rule × (g < atom_count rules.now rule) × WellFormedHeap (heap_in heap.now) × Counted values.old unknown }
    ensures { AlongAtom rules.now rule heap.now g values.old values.new × Counted values.new result }
{
    let address = variable(values, atom_address(rules, rule, g));
    if OPEN <= address {
        return unknown;
    }
    let Some(i) = record_at(heap, address) else {
        return unknown;
    };
    let count = atom_size(rules, rule, g);
    if record_size(heap, i) != count {
        return unknown;
    }
    learn_fields(rules, atom_fields(rule, g), heap, i, count, values, unknown)
}

// Along every points-to atom once.
pub fn along_atoms(
    rules: &RuleBlock,
    rule: usize,
    heap: &HeapBlock,
    values: &mut Values,
    unknown: usize,
) -> usize
    requires { Shaped rules.now rule × WellFormedHeap (heap_in heap.now) × Counted values.old unknown }
    ensures { AlongAtoms rules.now rule heap.now values.old values.new × Counted values.new result }
{
    let count = atom_count(rules, rule);
    let mut left = unknown;
    for g in 0..count {
        left = along_atom(rules, rule, g, heap, values, left);
    }
    left
}
