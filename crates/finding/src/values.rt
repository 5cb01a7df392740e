// The values of a rule's variables while they are sought: an entry for each variable, its value or `OPEN` where none is known yet. What is
// known of a term, and learning it.
ghost use Rattle.std.specs.Prelude.{◌≡◌, ◌≤◌, ◌<◌, get_or};
ghost use Rattle.semantics.specs.Tree.{value_of};
ghost use Rattle.block.specs.Layout.{term_as, constant_count, fixed_in};
ghost use Rattle.block.specs.Ready.{Scoped};
ghost use Rattle.finding.specs.Values.{open_entry, Counted, Learnt};

use block::QueryBlock;
use block::heap::fixed_value;

// Above every value that was read.
pub const OPEN: u64 = 4294967296;

pub type Values = [u64; 8];

// The entry of a variable.
pub fn variable(values: &Values, v: u8) -> u64
    requires { v < 8 }
    ensures { result ≡ get_or values.now v 0 }
{
    values[usize::from(v)]
}

// The entry of a term: a variable's, or the fixed value itself.
pub fn entry(values: &Values, term: u8, given: &QueryBlock) -> u64
    requires { Scoped term × (constant_count given.now ≤ 8) }
    ensures { result ≡ value_of values.now (term_as (fixed_in given.now) term) }
{
    if term < 128 {
        values[usize::from(term)]
    } else {
        u64::from(fixed_value(given, usize::from(term - 128)))
    }
}

// Gives a term a value, unless it has one; and how many variables are open then.
pub fn learn(values: &mut Values, unknown: usize, term: u8, x: u64) -> usize
    requires { Scoped term × (x < open_entry) × Counted values.old unknown }
    ensures { Learnt term x values.old values.new × Counted values.new result }
{
    let v = usize::from(term);
    if v < 128 && OPEN <= values[v] {
        values[v] = x;
        unknown - 1
    } else {
        unknown
    }
}
