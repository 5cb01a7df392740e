// Whether two rules of one predicate exclude each other: no arguments meet the conditions of both. The head's variables are shared, the bound
// ones are each rule's own.
ghost use Rattle.std.specs.Prelude.{Bool, true, ◌≡◌, ◌+◌, ◌≤◌, ◌<◌, length};
ghost use Rattle.semantics.specs.Plain.{Exclude};
ghost use Rattle.words.specs.Told.{Told};
ghost use Rattle.block.specs.Layout.{constant_count, rule_as, rule_set_read, fixed_in, rule_count, pure_count, rule_set_size, rule_size};
ghost use Rattle.block.specs.Ready.{FormedRead};
ghost use Rattle.plain.specs.Classes.{ClassesOf, Overlaps};
ghost use Rattle.plain.specs.Opposed.{Shared, KindsDiffer, SameTerms, Opposed, Parted};
ghost use Rattle.plain.specs.Plain.{RulesReadable, RulePlace, ExcludesFrom, ExcludesLater};

use super::classes::{ALL, Classes, apart, fresh, merge};
use block::{
    QueryBlock, RuleBlock, head, head_arity, kind_of, pure_count, pure_left, pure_right,
    rule_count, rule_place,
};

// Whether a term is one of so many arguments, or a fixed value: in two rules with one head it is the same.
fn shared(term: u8, arity: usize) -> bool
    ensures { Told result (Shared arity term) }
{
    128 <= term || usize::from(term) < arity
}

// Whether only one of the conditions k of two rules is an equality.
fn kinds_differ(rules: &RuleBlock, rule: usize, other: usize, k: usize) -> bool
    requires { (rule + rule_size ≤ rule_set_size) × (other + rule_size ≤ rule_set_size) × (k < 8) }
    ensures { result ≡ true → KindsDiffer rules.now rule other k }
{
    kind_of(rules, rule, k) != kind_of(rules, other, k)
}

// Whether the conditions k of two rules have the same terms, in either order.
fn same_terms(rules: &RuleBlock, rule: usize, other: usize, k: usize) -> bool
    requires { (rule + rule_size ≤ rule_set_size) × (other + rule_size ≤ rule_set_size) × (k < 8) }
    ensures { result ≡ true → SameTerms rules.now rule other k }
{
    let (left, right) = (pure_left(rules, rule, k), pure_right(rules, rule, k));
    let (first, second) = (pure_left(rules, other, k), pure_right(rules, other, k));
    (left == first && right == second) || (left == second && right == first)
}

// Whether the conditions k of two rules compare the same arguments or fixed values, and only one is an equality.
fn opposed(rules: &RuleBlock, rule: usize, other: usize, k: usize) -> bool
    requires { (rule + rule_size ≤ rule_set_size) × (other + rule_size ≤ rule_set_size) × (k < pure_count rules.now rule) × (pure_count rules.now rule ≤ 8) }
    ensures { result ≡ true → Opposed rules.now rule other k }
{
    let arity = head_arity(rules, rule);
    k < pure_count(rules, other)
        && kinds_differ(rules, rule, other, k)
        && same_terms(rules, rule, other, k)
        && shared(pure_left(rules, rule, k), arity)
        && shared(pure_right(rules, rule, k), arity)
}

// Whether two rules are told apart at a glance: by their predicates, or by conditions of one number that are opposed. Most books keep their
// rules apart in this way.
fn parted(rules: &RuleBlock, rule: usize, other: usize) -> bool
    requires { (rule + rule_size ≤ rule_set_size) × (other + rule_size ≤ rule_set_size) × (pure_count rules.now rule ≤ 8) }
    ensures { Parted rules.now rule other result }
{
    head(rules, rule) != head(rules, other)
        || (0..pure_count(rules, rule)).any(|k| opposed(rules, rule, other, k))
}

// Whether some values meet the conditions of both rules; the classes are those of the first rule.
fn overlap(
    rules: &RuleBlock,
    rule: usize,
    other: usize,
    classes: &Classes,
    given: &QueryBlock,
) -> bool
    requires { FormedRead given.now rules.now rule × FormedRead given.now rules.now other × (constant_count given.now ≤ 8) × ClassesOf (fixed_in given.now) rules.now rule classes.now × (length classes.now ≡ 16) }
    ensures { Told result (Overlaps (fixed_in given.now) rules.now rule other) }
{
    let shared = head_arity(rules, rule);
    let mut both = *classes;
    merge(rules, other, shared, &mut both, given)
        && apart(rules, rule, ALL, &both, given)
        && apart(rules, other, shared, &both, given)
}

// Whether two rules have different predicates, or exclude each other.
fn excludes(
    rules: &RuleBlock,
    rule: usize,
    other: usize,
    classes: &Classes,
    given: &QueryBlock,
) -> bool
    requires { RulesReadable given.now rules.now × RulePlace given.now rules.now rule × RulePlace given.now rules.now other × ClassesOf (fixed_in given.now) rules.now rule classes.now × (length classes.now ≡ 16) }
    ensures { Told result (Exclude (rule_set_read given.now rules.now) (rule_as (fixed_in given.now) rules.now rule) (rule_as (fixed_in given.now) rules.now other)) }
{
    parted(rules, rule, other) || !overlap(rules, rule, other, classes, given)
}

// Whether rule r and each rule from the first on exclude each other. A rule that nothing meets excludes every other.
fn excludes_from(rules: &RuleBlock, r: usize, first: usize, given: &QueryBlock) -> bool
    requires { RulesReadable given.now rules.now × (r < rule_count rules.now) × (first ≤ rule_count rules.now) }
    ensures { Told result (ExcludesFrom (rule_set_read given.now rules.now) r first) }
{
    let count = rule_count(rules);
    let rule = rule_place(r);
    let mut classes = fresh();
    if !merge(rules, rule, ALL, &mut classes, given) || !apart(rules, rule, ALL, &classes, given) {
        return true;
    }
    for other in first..count {
        if !excludes(rules, rule, rule_place(other), &classes, given) {
            return false;
        }
    }
    true
}

// Whether rule r and each later rule exclude each other. Classes are made only if some rules are not told apart at a glance.
pub fn excludes_later(rules: &RuleBlock, r: usize, given: &QueryBlock) -> bool
    requires { RulesReadable given.now rules.now × (r < rule_count rules.now) }
    ensures { Told result (ExcludesLater (rule_set_read given.now rules.now) r) }
{
    let count = rule_count(rules);
    let rule = rule_place(r);
    for other in r + 1..count {
        if !parted(rules, rule, rule_place(other)) {
            return excludes_from(rules, r, other, given);
        }
    }
    true
}
