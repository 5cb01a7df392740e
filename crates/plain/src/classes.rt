// The variables of two rules together, in classes: an entry for each, its value, or from `OPEN` on the label of its class. A label is above
// every value, so the entries are themselves values of the variables that meet all equalities merged so far, and no others are more apart.
ghost use Rattle.std.specs.Prelude.{Bool, ◌≡◌, ◌≤◌, ◌<◌, length};
ghost use Rattle.words.specs.Told.{Told};
ghost use Rattle.block.specs.Layout.{constant_count, fixed_in, pure_count};
ghost use Rattle.block.specs.Ready.{Scoped, FormedRead};
ghost use Rattle.plain.specs.Classes.{entry_by, entries_of, Fresh, Replaced, Joined, Merged, EqualMet, EqualsMet, UnequalMet, UnequalsMet};

use block::heap::fixed_value;
use block::{Kind, QueryBlock, RuleBlock, kind_of, pure_count, pure_left, pure_right};
use finding::values::OPEN;
use std::array::from_fn;

// Room for two rules of eight variables each; the second has its bound ones eight places further.
pub type Classes = [u64; 16];

// As many as all variables of a rule: with so many shared, it is the first rule.
pub const ALL: usize = 8;

// Every variable in a class of its own.
pub fn fresh() -> Classes
    ensures { Fresh result }
{
    from_fn(|v| OPEN + v as u64)
}

// The entry of a term of a rule whose first variables, so many, are shared.
fn entry(classes: &Classes, shared: usize, term: u8, given: &QueryBlock) -> u64
    requires { Scoped term × (constant_count given.now ≤ 8) }
    ensures { result ≡ entry_by (fixed_in given.now) shared (entries_of classes.now) term }
{
    let v = usize::from(term);
    if v < 128 {
        if v < shared {
            classes[v]
        } else {
            classes[v + 8]
        }
    } else {
        u64::from(fixed_value(given, v - 128))
    }
}

// Each entry x becomes y.
fn replace(classes: &mut Classes, x: u64, y: u64)
    requires { length classes.old ≡ 16 }
    ensures { Replaced x y classes.old classes.new × (length classes.new ≡ 16) }
{
    for entry in classes.iter_mut() {
        if *entry == x {
            *entry = y;
        }
    }
}

// Makes two entries the same by replacing a label; not where both are values, and differ.
fn join(classes: &mut Classes, x: u64, y: u64) -> bool
    requires { length classes.old ≡ 16 }
    ensures { Joined x y classes.old classes.new result × (length classes.new ≡ 16) }
{
    if x == y {
        return true;
    }
    if OPEN <= x {
        replace(classes, x, y);
        return true;
    }
    if OPEN <= y {
        replace(classes, y, x);
        return true;
    }
    false
}

// Merges along condition k of a rule, where it is an equality; not where its sides have different values.
fn merge_pure(
    rules: &RuleBlock,
    rule: usize,
    k: usize,
    shared: usize,
    classes: &mut Classes,
    given: &QueryBlock,
) -> bool
    requires { FormedRead given.now rules.now rule × (k < pure_count rules.now rule) × (constant_count given.now ≤ 8) × (length classes.old ≡ 16) }
    ensures { Merged (EqualMet (fixed_in given.now) rules.now rule shared k) classes.old classes.new result × (length classes.new ≡ 16) }
{
    if kind_of(rules, rule, k) == Kind::Unequal {
        return true;
    }
    let x = entry(classes, shared, pure_left(rules, rule, k), given);
    let y = entry(classes, shared, pure_right(rules, rule, k), given);
    join(classes, x, y)
}

// Merges along every equality of a rule; not where no values meet them and those merged before.
pub fn merge(
    rules: &RuleBlock,
    rule: usize,
    shared: usize,
    classes: &mut Classes,
    given: &QueryBlock,
) -> bool
    requires { FormedRead given.now rules.now rule × (constant_count given.now ≤ 8) × (length classes.old ≡ 16) }
    ensures { Merged (EqualsMet (fixed_in given.now) rules.now rule shared (pure_count rules.now rule)) classes.old classes.new result × (length classes.new ≡ 16) }
{
    let count = pure_count(rules, rule);
    for k in 0..count {
        if !merge_pure(rules, rule, k, shared, classes, given) {
            return false;
        }
    }
    true
}

// Whether condition k of a rule is an equality, or has different entries on its sides.
fn told_apart(
    rules: &RuleBlock,
    rule: usize,
    k: usize,
    shared: usize,
    classes: &Classes,
    given: &QueryBlock,
) -> bool
    requires { FormedRead given.now rules.now rule × (k < pure_count rules.now rule) × (constant_count given.now ≤ 8) }
    ensures { Told result (UnequalMet (fixed_in given.now) rules.now rule shared k (entries_of classes.now)) }
{
    kind_of(rules, rule, k) == Kind::Equal
        || entry(classes, shared, pure_left(rules, rule, k), given)
            != entry(classes, shared, pure_right(rules, rule, k), given)
}

// Whether no unequal condition of a rule has the same entry on both sides.
pub fn apart(
    rules: &RuleBlock,
    rule: usize,
    shared: usize,
    classes: &Classes,
    given: &QueryBlock,
) -> bool
    requires { FormedRead given.now rules.now rule × (constant_count given.now ≤ 8) }
    ensures { Told result (UnequalsMet (fixed_in given.now) rules.now rule shared (pure_count rules.now rule) (entries_of classes.now)) }
{
    (0..pure_count(rules, rule)).all(|k| told_apart(rules, rule, k, shared, classes, given))
}
