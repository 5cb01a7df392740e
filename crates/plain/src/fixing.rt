// Which variables of a rule are fixed: an entry for each, open as long as it is not known to be. The values in the entries do not matter.
ghost use Rattle.std.specs.Prelude.{Bool, ◌≤◌, ◌<◌};
ghost use Rattle.words.specs.Told.{Told};
ghost use Rattle.block.specs.Layout.{pure_count};
ghost use Rattle.block.specs.Ready.{Scoped, Terms};
ghost use Rattle.finding.specs.Values.{Counted, Shaped, Valued};
ghost use Rattle.plain.specs.Fixing.{Given, Passes, AlongPure, AlongPures, AlongAtoms, AllFixedIn};

use block::{
    Kind, RuleBlock, atom_address, atom_count, atom_fields, atom_size, kind_of, pure_count,
    pure_left, pure_right, pure_terms,
};
use finding::begin;
use finding::values::{OPEN, Values, learn};

// Whether a term is known to be fixed.
fn fixed(values: &Values, term: u8) -> bool
    requires { Scoped term }
    ensures { Told result (Valued values.now term) }
{
    128 <= term || values[usize::from(term)] < OPEN
}

// Fixes so many terms, from a place of the rules on.
fn fix(rules: &RuleBlock, terms: usize, count: usize, values: &mut Values, unknown: usize) -> usize
    requires { Terms rules.now terms count × (count ≤ 4) × Counted values.old unknown }
    ensures { Given rules.now terms count values.old values.new × Counted values.new result }
{
    let mut left = unknown;
    for j in 0..count {
        left = learn(values, left, rules[terms + j], 0);
    }
    left
}

// Where a term is fixed, fixes so many others.
fn pass(
    rules: &RuleBlock,
    from: u8,
    terms: usize,
    count: usize,
    values: &mut Values,
    unknown: usize,
) -> usize
    requires { Scoped from × Terms rules.now terms count × (count ≤ 4) × Counted values.old unknown }
    ensures { Passes rules.now from terms count values.old values.new × Counted values.new result }
{
    if fixed(values, from) {
        fix(rules, terms, count, values, unknown)
    } else {
        unknown
    }
}

// Along condition k, if it is an equality: from the left to the right, and back.
fn along_pure(
    rules: &RuleBlock,
    rule: usize,
    k: usize,
    values: &mut Values,
    unknown: usize,
) -> usize
    requires { Shaped rules.now rule × (k < pure_count rules.now rule) × Counted values.old unknown }
    ensures { AlongPure rules.now rule k values.old values.new × Counted values.new result }
{
    if kind_of(rules, rule, k) == Kind::Unequal {
        return unknown;
    }
    let terms = pure_terms(rule, k);
    let some = pass(
        rules,
        pure_left(rules, rule, k),
        terms + 1,
        1,
        values,
        unknown,
    );
    pass(rules, pure_right(rules, rule, k), terms, 1, values, some)
}

// Along every condition once.
fn along_pures(rules: &RuleBlock, rule: usize, values: &mut Values, unknown: usize) -> usize
    requires { Shaped rules.now rule × Counted values.old unknown }
    ensures { AlongPures rules.now rule values.old values.new × Counted values.new result }
{
    let count = pure_count(rules, rule);
    let mut left = unknown;
    for k in 0..count {
        left = along_pure(rules, rule, k, values, left);
    }
    left
}

// Along every points-to atom once: from the address to the fields.
fn along_atoms(rules: &RuleBlock, rule: usize, values: &mut Values, unknown: usize) -> usize
    requires { Shaped rules.now rule × Counted values.old unknown }
    ensures { AlongAtoms rules.now rule values.old values.new × Counted values.new result }
{
    let count = atom_count(rules, rule);
    let mut left = unknown;
    for g in 0..count {
        left = pass(
            rules,
            atom_address(rules, rule, g),
            atom_fields(rule, g),
            atom_size(rules, rule, g),
            values,
            left,
        );
    }
    left
}

// Whether every variable of a rule is fixed. Each turn goes along every link once and ends the search if nothing is gained.
pub fn fixes(rules: &RuleBlock, rule: usize) -> bool
    requires { Shaped rules.now rule }
    ensures { Told result (AllFixedIn rules.now rule) }
{
    let mut values = [0u64; 8];
    let mut unknown = begin(rules, rule, &mut values);
    while 0 < unknown {
        let some = along_pures(rules, rule, &mut values, unknown);
        let left = along_atoms(rules, rule, &mut values, some);
        if left == unknown {
            return false;
        }
        unknown = left;
    }
    true
}
