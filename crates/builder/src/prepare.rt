// The plan of a certificate, with a memory of states that failed where a rule has many ways to fail.
ghost use Rattle.std.specs.Prelude.{◌≡◌, ℕ, ◌<◌};
ghost use Rattle.block.specs.Ready.{Represents};
ghost use Rattle.builder.specs.Space.{mark_at};
ghost use Rattle.builder.specs.Plan.{Buildable, Plans};

use super::plan::plan;
use block::{PlacedHeap, RuleBlock};

// Below this many facts a search among them is short.
const SOME: usize = 128;

// From this many on it may be long, and a larger memory is worth its clearing.
const MANY: usize = 512;

// Whether some rule has several calls, and there are many facts for them: then a search may fail in many ways.
fn heavy(rules: &RuleBlock, records: &PlacedHeap, n: usize, at: usize) -> bool
    requires { Represents rules.now records.now n }
{
    SOME <= at
        && (0..block::rule_count(rules)).any(|r| 1 < block::call_count(rules, block::rule_place(r)))
}

// The plan with a memory of that many words, three to a slot.
fn with_memory<const WORDS: usize>(
    rules: &RuleBlock,
    records: &PlacedHeap,
    n: usize,
    table: &[u64],
    at: usize,
    space: &mut [u64],
)
    requires lent { Buildable rules.now records.now n table.now at space.old × ((i : ℕ) → i < at → mark_at space.old i ≡ 0) }
    requires few { WORDS < 65536 }
    ensures { Plans rules.now records.now n table.now at space.old space.new }
{
    let mut memory = [0u64; WORDS];
    plan(rules, records, n, table, at, space, &mut memory);
}

// Marks the places that the fact at a place needs, and gives each its line.
pub fn prepare(
    rules: &RuleBlock,
    records: &PlacedHeap,
    n: usize,
    table: &[u64],
    at: usize,
    space: &mut [u64],
)
    requires { Buildable rules.now records.now n table.now at space.old × ((i : ℕ) → i < at → mark_at space.old i ≡ 0) }
    ensures { Plans rules.now records.now n table.now at space.old space.new }
{
    if !heavy(rules, records, n, at) {
        with_memory::<1>(rules, records, n, table, at, space);
    } else if at < MANY {
        with_memory::<381>(rules, records, n, table, at, space);
    } else {
        with_memory::<1011>(rules, records, n, table, at, space);
    }
}
