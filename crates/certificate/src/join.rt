// The subheap of a line: the records that its rule's points-to atoms take, joined with the subheaps of the lines that it calls.
ghost use Rattle.std.specs.Prelude.{◌≡◌, Bool, ◌*◌, ◌≤◌, ◌<◌, length, get_or};
ghost use Rattle.semantics.specs.Fact.{code};
ghost use Rattle.semantics.specs.Tree.{values_of};
ghost use Rattle.words.specs.Told.{Told};
ghost use Rattle.block.specs.Layout.{call_in, call_count, call_place, record_count};
ghost use Rattle.block.specs.Ready.{Formed};
ghost use Rattle.certificate.specs.Line.{given_by, CallsLine, CallsOf, JoinOf};

use super::line::{fact_at, positions_at, rule_at};
use super::rule::{find_record, position};
use block::{
    PlacedHeap, RuleBlock, atom_count, call_arity, call_count, call_predicate, call_term,
    record_count,
};
use words::{bit, pack, part_of, shares};

// The position of argument j of call c; 0 past the last.
fn argument(rules: &RuleBlock, rule: usize, c: usize, word: u64, j: usize) -> u8
    requires { Formed rules.now rule × (c < call_count rules.now rule) × (j < 4) }
    ensures { result ≡ get_or (values_of (given_by word) (call_in rules.now (call_place rule c)).arguments) j 0 }
{
    if j < call_arity(rules, rule, c) {
        position(word, call_term(rules, rule, c, j))
    } else {
        0
    }
}

// The fact of call c, for a subheap.
fn call_fact(rules: &RuleBlock, rule: usize, c: usize, word: u64, part: u16) -> u64
    requires { Formed rules.now rule × (c < call_count rules.now rule) }
    ensures { result ≡ code (call_in rules.now (call_place rule c)).predicate (values_of (given_by word) (call_in rules.now (call_place rule c)).arguments) part }
{
    let positions = [
        argument(rules, rule, c, word, 0),
        argument(rules, rule, c, word, 1),
        argument(rules, rule, c, word, 2),
        argument(rules, rule, c, word, 3),
    ];
    pack(call_predicate(rules, rule, c), &positions, part)
}

// Whether a line is one before line k that has the fact of call c.
fn calls_line(
    rules: &RuleBlock,
    rule: usize,
    c: usize,
    word: u64,
    words: &[u64],
    k: usize,
    line: usize,
) -> bool
    requires { Formed rules.now rule × (c < call_count rules.now rule) × (3 * k ≤ length words.now) }
    ensures { Told result (CallsLine words.now k (given_by word) (call_in rules.now (call_place rule c)) line) }
{
    if line == 0 || k <= line {
        return false;
    }
    let fact = fact_at(words, line);
    fact == call_fact(rules, rule, c, word, part_of(fact))
}

// Whether the lines that line k calls are those of the rule's calls, and their subheaps, joined to the records used, make up the subheap
// of its fact.
fn calls_join(rules: &RuleBlock, rule: usize, words: &[u64], k: usize, used: u16) -> bool
    requires { Formed rules.now rule × (1 ≤ k) × (3 * k ≤ length words.now) }
    ensures { Told result (CallsOf rules.now rule words.now k used) }
{
    let word = positions_at(words, k);
    let count = call_count(rules, rule);
    let mut lines = rule_at(words, k) / 256;
    let mut sum = used;
    for c in 0..count {
        let line = (lines % 65536) as usize;
        if !calls_line(rules, rule, c, word, words, k, line) {
            return false;
        }
        let part = part_of(fact_at(words, line));
        if shares(part, sum) {
            return false;
        }
        sum += part;
        lines /= 65536;
    }
    lines == 0 && sum == part_of(fact_at(words, k))
}

// Whether the records of the rule's points-to atoms and the subheaps that line k calls make up the subheap of its fact.
pub fn joined(rules: &RuleBlock, rule: usize, records: &PlacedHeap, words: &[u64], k: usize) -> bool
    requires { Formed rules.now rule × (record_count records.now ≤ 16) × (1 ≤ k) × (3 * k ≤ length words.now) }
    ensures { Told result (JoinOf rules.now rule records.now words.now k) }
{
    let word = positions_at(words, k);
    let count = atom_count(rules, rule);
    let mut used: u16 = 0;
    for g in 0..count {
        let Some(i) = find_record(rules, rule, g, word, records) else {
            return false;
        };
        let here = bit(i);
        if shares(here, used) {
            return false;
        }
        used += here;
    }
    calls_join(rules, rule, words, k, used)
}
