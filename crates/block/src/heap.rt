// Heap and query as they are read, in values, by names; and the entries of the heap in positions, to be written. A record is named by its
// number.
ghost use Rattle.std.specs.Prelude.{◌≡◌, ◌++◌, ◌+◌, ◌≤◌, ◌<◌, set};
ghost use Rattle.block.specs.Layout.{record_count, record_place, record_address, record_size, record_field, query_predicate, query_count, constant_count, fixed_in, constants_in, query_values};

use super::{CONSTANTS, FIRST_GIVEN, HeapBlock, PREDICATE, PlacedHeap, QueryBlock, VALUES};

// ---- the heap

// How many records there are.
pub fn record_count(heap: &HeapBlock) -> usize
    ensures { (result ≡ record_count heap.now) × (result < 4294967296) }
{
    heap[0] as usize
}

pub fn record_address(heap: &HeapBlock, k: usize) -> u32
    requires { k < 16 }
    ensures { result ≡ record_address heap.now k }
{
    heap[1 + 6 * k]
}

// How many fields record k has.
pub fn record_size(heap: &HeapBlock, k: usize) -> usize
    requires { k < 16 }
    ensures { (result ≡ record_size heap.now k) × (result < 4294967296) }
{
    heap[1 + 6 * k + 1] as usize
}

pub fn record_field(heap: &HeapBlock, k: usize, j: usize) -> u32
    requires { (k < 16) × (j < 4) }
    ensures { result ≡ record_field heap.now k j }
{
    heap[1 + 6 * k + 2 + j]
}

// ---- the query

pub fn query_predicate(query: &QueryBlock) -> u8
    requires { query_predicate query.now < 256 }
    ensures { result ≡ query_predicate query.now }
{
    query[PREDICATE] as u8
}

// How many constants the rule set has.
pub fn constant_count(query: &QueryBlock) -> usize
    ensures { (result ≡ constant_count query.now) × (result < 4294967296) }
{
    query[CONSTANTS] as usize
}

// The fixed value of a number: nil of 0, and of one past the constants, so that nobody needs to show that no rule has it.
pub fn fixed_value(query: &QueryBlock, k: usize) -> u32
    requires { constant_count query.now ≤ 8 }
    ensures { result ≡ fixed_in query.now k }
{
    if k == 0 {
        return 0;
    }
    if k <= constant_count(query) {
        return query[CONSTANTS + k];
    }
    0
}

// The values of the query.
pub fn query_values(query: &QueryBlock) -> &[u32]
    requires { (constant_count query.now ≤ 8) × (query_count query.now ≤ 4) }
    ensures { result.now ≡ query_values query.now }
{
    let first = FIRST_GIVEN + query[CONSTANTS] as usize;
    let count = query[VALUES] as usize;
    let all = &query[..];
    &all[first..first + count]
}

// What book and question give: the constants, and the values of the query.
pub fn given_values(query: &QueryBlock) -> &[u32]
    requires { (constant_count query.now ≤ 8) × (query_count query.now ≤ 4) }
    ensures { result.now ≡ constants_in query.now ++ query_values query.now }
{
    let count = query[CONSTANTS] as usize + query[VALUES] as usize;
    let all = &query[..];
    &all[FIRST_GIVEN..FIRST_GIVEN + count]
}

// ---- the heap in positions, entry by entry

pub fn write_count(records: &mut PlacedHeap, count: u8)
    ensures { records.new ≡ set records.old 0 count }
{
    records[0] = count;
}

pub fn write_address(records: &mut PlacedHeap, k: usize, address: u8)
    requires { k < 16 }
    ensures { records.new ≡ set records.old (record_place k) address }
{
    records[1 + 6 * k] = address;
}

pub fn write_size(records: &mut PlacedHeap, k: usize, size: u8)
    requires { k < 16 }
    ensures { records.new ≡ set records.old (record_place k + 1) size }
{
    records[1 + 6 * k + 1] = size;
}

pub fn write_field(records: &mut PlacedHeap, k: usize, j: usize, field: u8)
    requires { (k < 16) × (j < 4) }
    ensures { records.new ≡ set records.old (record_place k + 2 + j) field }
{
    records[1 + 6 * k + 2 + j] = field;
}
