// A rule against the values of its variables: its pure conditions, and the records that its points-to atoms take.
ghost use Rattle.std.specs.Prelude.{◌≡◌, Bool, map, ◌+◌, ◌≤◌, ◌<◌, get_or};
ghost use Rattle.semantics.specs.Heap.{WellFormedHeap};
ghost use Rattle.semantics.specs.Tree.{values_of, Meets, asked};
ghost use Rattle.words.specs.Entries.{entries};
ghost use Rattle.words.specs.Told.{Told};
ghost use Rattle.block.specs.Layout.{term_as, pure_as, atom_as, constant_count, fixed_in, record_in, heap_in, pure_count, pure_place, atom_count, atom_place, atom_address, record_place, record_address};
ghost use Rattle.block.specs.Ready.{FormedRead, Terms};
ghost use Rattle.walk.specs.Taking.{PuresMet, TakesOne, TakesEach};

use block::heap::record_size;
use block::{
    HeapBlock, Kind, QueryBlock, RuleBlock, atom_address, atom_count, atom_fields, atom_size,
    kind_of, pure_count, pure_left, pure_right,
};
use finding::records::{field, record_at};
use finding::values::{Values, entry, variable};
use words::{bit, shares};

// Whether pure condition k holds.
fn pure_holds(rules: &RuleBlock, rule: usize, k: usize, values: &Values, given: &QueryBlock) -> bool
    requires { FormedRead given.now rules.now rule × (k < pure_count rules.now rule) × (constant_count given.now ≤ 8) }
    ensures { Told result (Meets values.now (pure_as (fixed_in given.now) rules.now (pure_place rule k))) }
{
    let left = entry(values, pure_left(rules, rule, k), given);
    let right = entry(values, pure_right(rules, rule, k), given);
    if kind_of(rules, rule, k) == Kind::Equal {
        left == right
    } else {
        left != right
    }
}

// Whether all pure conditions hold.
pub fn pures_hold(rules: &RuleBlock, rule: usize, values: &Values, given: &QueryBlock) -> bool
    requires { FormedRead given.now rules.now rule × (constant_count given.now ≤ 8) }
    ensures { Told result (PuresMet (fixed_in given.now) rules.now rule values.now) }
{
    (0..pure_count(rules, rule)).all(|k| pure_holds(rules, rule, k, values, given))
}

// Whether the fields of record i, so many, are the values of so many terms.
fn fields_match(
    rules: &RuleBlock,
    terms: usize,
    values: &Values,
    heap: &HeapBlock,
    i: usize,
    count: usize,
    given: &QueryBlock,
) -> bool
    requires { Terms rules.now terms count × (i < 16) × (count ≤ 4) × (constant_count given.now ≤ 8) }
    ensures { Told result (entries heap.now (record_place i + 2) count ≡ values_of values.now (map (term_as (fixed_in given.now)) (entries rules.now terms count))) }
{
    (0..count).all(|j| field(heap, i, j) == entry(values, rules[terms + j], given))
}

// Whether record i, which is at the address of points-to atom g, is the one that the atom asks for.
fn record_matches(
    rules: &RuleBlock,
    rule: usize,
    g: usize,
    values: &Values,
    heap: &HeapBlock,
    i: usize,
    given: &QueryBlock,
) -> bool
    requires { FormedRead given.now rules.now rule × (g < atom_count rules.now rule) × (i < 16) × (record_address heap.now i ≡ get_or values.now (atom_address rules.now rule g) 0) × (constant_count given.now ≤ 8) }
    ensures { Told result (record_in heap.now (record_place i) ≡ asked values.now (atom_as (fixed_in given.now) rules.now (atom_place rule g))) }
{
    let count = atom_size(rules, rule, g);
    record_size(heap, i) == count
        && fields_match(rules, atom_fields(rule, g), values, heap, i, count, given)
}

// Takes the record that points-to atom g asks for, if it is free. The mask of all records taken then.
fn take_record(
    rules: &RuleBlock,
    rule: usize,
    g: usize,
    values: &Values,
    heap: &HeapBlock,
    mask: u16,
    given: &QueryBlock,
) -> Option<u16>
    requires { FormedRead given.now rules.now rule × (g < atom_count rules.now rule) × WellFormedHeap (heap_in heap.now) × (constant_count given.now ≤ 8) }
    ensures { TakesOne (fixed_in given.now) rules.now rule g values.now heap.now mask result }
{
    let i = record_at(heap, variable(values, atom_address(rules, rule, g)))?;
    let here = bit(i);
    if shares(here, mask) || !record_matches(rules, rule, g, values, heap, i, given) {
        return None;
    }
    Some(here + mask)
}

// Takes a free record for each points-to atom. The mask of all records taken then.
pub fn take(
    rules: &RuleBlock,
    rule: usize,
    values: &Values,
    heap: &HeapBlock,
    mask: u16,
    given: &QueryBlock,
) -> Option<u16>
    requires { FormedRead given.now rules.now rule × WellFormedHeap (heap_in heap.now) × (constant_count given.now ≤ 8) }
    ensures { TakesEach (fixed_in given.now) rules.now rule values.now heap.now mask result }
{
    let count = atom_count(rules, rule);
    let mut after = mask;
    for g in 0..count {
        after = take_record(rules, rule, g, values, heap, after, given)?;
    }
    Some(after)
}
