// Rules, heap and query in positions of the domain.
#![tactic(auto)]

ghost use Rattle.std.specs.Prelude.{◌≡◌, ◌≤◌, ◌<◌, length, EachIndex, slice_index};
ghost use Rattle.semantics.specs.Lists.{◌among◌};
ghost use Rattle.semantics.specs.RuleSet.{WellFormed, fixed_values};
ghost use Rattle.semantics.specs.Heap.{WellFormedHeap, record_values, heap_values};
ghost use Rattle.semantics.specs.Fact.{position as positionIn};
ghost use Rattle.block.specs.Layout.{record_place, record_size, record_in, heap_in, rule_set_read, constant_count, constants_in, heap_size, rule_set_size};
ghost use Rattle.placing.specs.Placed.{Placeable, OnePlaced, HeapPlaced, QueryPlaced, BytesPlaced, ConstantsPlaced, RulesPlaced};

use block::{HeapBlock, PlacedHeap, QueryBlock, RuleBlock};
use domain::Domain;

// The position of v, which is in the domain.
fn position(domain: &Domain, v: u32) -> u8
    requires { v among domain.now }
    ensures { result ≡ positionIn domain.now v }
{
    domain.position(v) as u8
}

// Writes record k in positions.
fn place_record(domain: &Domain, heap: &HeapBlock, k: usize, records: &mut PlacedHeap)
    requires { (k < 16) × (record_size heap.now k ≤ 4) × (length records.old ≡ heap_size) × Placeable domain.now (record_values (record_in heap.now (record_place k))) }
    ensures { OnePlaced domain.now heap.now records.old records.new k }
{
    let fields = block::heap::record_size(heap, k);
    for j in 0..fields {
        let value = block::heap::record_field(heap, k, j);
        block::heap::write_field(records, k, j, position(domain, value));
    }
    let address = block::heap::record_address(heap, k);
    block::heap::write_address(records, k, position(domain, address));
    block::heap::write_size(records, k, fields as u8);
}

// Writes the heap in positions.
pub fn place_heap(domain: &Domain, heap: &HeapBlock, records: &mut PlacedHeap)
    requires { WellFormedHeap (heap_in heap.now) × (length records.old ≡ heap_size) × Placeable domain.now (heap_values (heap_in heap.now)) }
    ensures { HeapPlaced domain.now heap.now records.new }
{
    let count = block::heap::record_count(heap);
    block::heap::write_count(records, count as u8);
    for k in 0..count {
        place_record(domain, heap, k, records);
    }
}

// The positions of a query's values; unused ones are 0.
pub fn place_query(domain: &Domain, values: &[u32]) -> [u8; 4]
    requires { (length values.now ≤ 4) × Placeable domain.now values.now }
    ensures { QueryPlaced domain.now values.now result }
{
    let mut positions = [0u8; 4];
    for (i, value) in values.iter().enumerate() {
        positions[i] = position(domain, *value);
    }
    positions
}

// From here on a term's byte is that of a fixed value.
const FIXED: u8 = 128;

// The largest byte, or 0.
fn highest(bytes: &[u8]) -> u8
    ensures { EachIndex bytes.now (λ k. slice_index bytes.now k ≤ result) }
{
    bytes.iter().copied().max().unwrap_or(0)
}

// Writes the fixed values among the bytes in positions.
fn place_bytes(domain: &Domain, query: &QueryBlock, bytes: &mut [u8])
    requires { constant_count query.now ≤ 8 }
    ensures { BytesPlaced domain.now query.now bytes.old bytes.new 0 (length bytes.old) }
{
    for byte in bytes.iter_mut() {
        if FIXED <= *byte {
            let value = block::heap::fixed_value(query, usize::from(*byte - FIXED));
            *byte = FIXED + domain.position(value) as u8;
        }
    }
}

// Writes the constants in positions.
fn place_constants(domain: &Domain, query: &QueryBlock, rules: &mut RuleBlock)
    requires { Placeable domain.now (constants_in query.now) × (length rules.old ≡ rule_set_size) × (constant_count query.now ≤ 8) }
    ensures { ConstantsPlaced domain.now query.now rules.old rules.new (constant_count query.now) }
{
    let count = block::heap::constant_count(query);
    block::write_constant_count(rules, count as u8);
    for k in 0..count {
        let value = block::heap::fixed_value(query, k + 1);
        block::write_constant(rules, k, position(domain, value));
    }
}

// Writes constants and fixed terms of the rules in positions. Of the bytes that count in a rule, only those of fixed terms are `FIXED` or
// more; a rule without one is passed over.
pub fn place_rules(domain: &Domain, query: &QueryBlock, rules: &mut RuleBlock)
    requires { WellFormed (rule_set_read query.now rules.old) × (length rules.old ≡ rule_set_size) × Placeable domain.now (fixed_values (rule_set_read query.now rules.old)) }
    ensures { RulesPlaced domain.now query.now rules.old rules.new }
{
    place_constants(domain, query, rules);
    for k in 0..block::rule_count(rules) {
        let bytes = &mut rules[block::rule_place(k)..block::rule_place(k + 1)];
        if FIXED <= highest(bytes) {
            place_bytes(domain, query, bytes);
        }
    }
}
