// The certificate check. It reads the decoded blocks, in which every value is a position of the domain, and tells of any words whether
// they meet the conditions for lines. A rule is named by its place in the block, and what it has by numbers from 0.
#![tactic(auto)]

mod join;
mod line;
mod rule;

ghost use Rattle.std.specs.Prelude.{Bool, ◌*◌, ◌≤◌, length};
ghost use Rattle.words.specs.Told.{Told};
ghost use Rattle.block.specs.Layout.{record_count};
ghost use Rattle.block.specs.Ready.{Represents, Ready, Formed};
ghost use Rattle.certificate.specs.Line.{InstanceIn, LineIn, Judges};

use block::{PlacedHeap, RuleBlock, rule_count, rule_place, variable_count};
use join::joined;
use line::{fact_at, positions_at, positions_fit, rule_at};
use rule::{head_fact, pures_hold};
use words::{part_of, rule_of};

// Whether line k is a ground instance of a rule.
fn instance_holds(
    rules: &RuleBlock,
    rule: usize,
    records: &PlacedHeap,
    n: usize,
    words: &[u64],
    k: usize,
) -> bool
    requires { Formed rules.now rule × (record_count records.now ≤ 16) × (1 ≤ k) × (3 * k ≤ length words.now) }
    ensures { Told result (InstanceIn rules.now records.now n words.now k rule) }
{
    let fact = fact_at(words, k);
    let word = positions_at(words, k);
    positions_fit(word, variable_count(rules, rule), n)
        && fact == head_fact(rules, rule, word, part_of(fact))
        && pures_hold(rules, rule, word)
        && joined(rules, rule, records, words, k)
}

// Whether line k holds.
fn line_holds(rules: &RuleBlock, records: &PlacedHeap, n: usize, words: &[u64], k: usize) -> bool
    requires { Ready rules.now records.now n × (1 ≤ k) × (3 * k ≤ length words.now) }
    ensures { Told result (LineIn rules.now records.now n words.now k) }
{
    let number = usize::from(rule_of(rule_at(words, k)));
    number < rule_count(rules) && instance_holds(rules, rule_place(number), records, n, words, k)
}

// Whether the words meet the conditions for lines, and the last line has the fact `last`.
pub fn check(rules: &RuleBlock, records: &PlacedHeap, n: usize, last: u64, words: &[u64]) -> bool
    requires { Represents rules.now records.now n }
    ensures { Judges rules.now records.now n last words.now result }
{
    let count = words.len() / 3;
    if count == 0 || 65535 < count || words.len() % 3 != 0 {
        return false;
    }
    if fact_at(words, count) != last {
        return false;
    }
    for k in 1..=count {
        if !line_holds(rules, records, n, words, k) {
            return false;
        }
    }
    true
}
