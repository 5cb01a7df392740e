// Whether a rule set is plain: every rule that calls takes a record, every variable of a rule is fixed, and any two rules of one predicate
// exclude each other. The answer is exact, over all whole numbers.
#![tactic(auto)]

mod classes;
mod excluding;
mod fixing;

ghost use Rattle.std.specs.Prelude.{Bool, ◌<◌};
ghost use Rattle.semantics.specs.Plain.{Plain};
ghost use Rattle.words.specs.Told.{Told};
ghost use Rattle.block.specs.Layout.{rule_set_read, rule_count};
ghost use Rattle.finding.specs.Values.{Shaped};
ghost use Rattle.plain.specs.Plain.{RulesReadable, ConsumesIn, PlainRule};

use block::{QueryBlock, RuleBlock, atom_count, call_count, rule_count, rule_place};
use excluding::excludes_later;
use fixing::fixes;

// Whether a rule has a points-to atom where it has calls.
fn consumes(rules: &RuleBlock, rule: usize) -> bool
    requires { Shaped rules.now rule }
    ensures { Told result (ConsumesIn rules.now rule) }
{
    call_count(rules, rule) == 0 || atom_count(rules, rule) != 0
}

// Whether rule r is as a plain rule set asks, alone and with each later rule.
fn plain_rule(rules: &RuleBlock, r: usize, given: &QueryBlock) -> bool
    requires { RulesReadable given.now rules.now × (r < rule_count rules.now) }
    ensures { Told result (PlainRule (rule_set_read given.now rules.now) r) }
{
    let rule = rule_place(r);
    if !consumes(rules, rule) || !fixes(rules, rule) {
        return false;
    }
    excludes_later(rules, r, given)
}

// Whether the rule set is plain.
pub fn plain(rules: &RuleBlock, given: &QueryBlock) -> bool
    requires { RulesReadable given.now rules.now }
    ensures { Told result (Plain (rule_set_read given.now rules.now)) }
{
    (0..rule_count(rules)).all(|r| plain_rule(rules, r, given))
}
