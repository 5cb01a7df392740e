// A rule of the block against the positions that a line's second word gives its variables: head, pure conditions, points-to atoms.
ghost use Rattle.std.specs.Prelude.{◌≡◌, Bool, map, ◌+◌, ◌≤◌, ◌<◌, get_or, take};
ghost use Rattle.semantics.specs.Fact.{code};
ghost use Rattle.semantics.specs.Tree.{value_of, values_of, Meets, asked};
ghost use Rattle.words.specs.Entries.{entries};
ghost use Rattle.words.specs.Told.{Told};
ghost use Rattle.block.specs.Layout.{term_in, pure_in, atom_in, record_in, head_in, head_arity, pure_count, atom_count, record_count, pure_place, atom_place, record_place, heap_size, rule_set_size};
ghost use Rattle.block.specs.Ready.{Formed};
ghost use Rattle.certificate.specs.Line.{given_by, PuresHold, FoundRecord};

use block::{
    Kind, PlacedHeap, RuleBlock, atom_address, atom_fields, atom_size, head, head_arity, kind_of,
    pure_count, pure_left, pure_right, record_address, record_count, record_fields, record_size,
};
use words::{pack, variable_of};

// The position of a variable; 0 of one that no word has a place for.
fn variable(word: u64, v: u8) -> u8
    ensures { result ≡ get_or (given_by word) v 0 }
{
    if v < 8 {
        variable_of(word, usize::from(v))
    } else {
        0
    }
}

// The position of a term: that of its variable, or the fixed one itself.
pub fn position(word: u64, term: u8) -> u8
    ensures { result ≡ value_of (given_by word) (term_in term) }
{
    if term < 128 {
        variable(word, term)
    } else {
        term - 128
    }
}

// The position of argument j of the head, of so many; 0 past the last.
fn head_argument(count: usize, word: u64, j: usize) -> u8
    requires { count ≤ 4 }
    ensures { result ≡ get_or (take count (given_by word)) j 0 }
{
    if j < count { variable_of(word, j) } else { 0 }
}

// The fact of the head, for a subheap.
pub fn head_fact(rules: &RuleBlock, rule: usize, word: u64, part: u16) -> u64
    requires { Formed rules.now rule }
    ensures { result ≡ code (head_in rules.now rule) (take (head_arity rules.now rule) (given_by word)) part }
{
    let count = head_arity(rules, rule);
    let positions = [
        head_argument(count, word, 0),
        head_argument(count, word, 1),
        head_argument(count, word, 2),
        head_argument(count, word, 3),
    ];
    pack(head(rules, rule), &positions, part)
}

// Whether pure condition k holds.
fn pure_holds(rules: &RuleBlock, rule: usize, k: usize, word: u64) -> bool
    requires { Formed rules.now rule × (k < pure_count rules.now rule) }
    ensures { Told result (Meets (given_by word) (pure_in rules.now (pure_place rule k))) }
{
    let left = position(word, pure_left(rules, rule, k));
    let right = position(word, pure_right(rules, rule, k));
    if kind_of(rules, rule, k) == Kind::Equal {
        left == right
    } else {
        left != right
    }
}

// Whether all pure conditions hold.
pub fn pures_hold(rules: &RuleBlock, rule: usize, word: u64) -> bool
    requires { Formed rules.now rule }
    ensures { Told result (PuresHold rules.now rule word) }
{
    (0..pure_count(rules, rule)).all(|k| pure_holds(rules, rule, k, word))
}

// Whether so many fields of a record, from a place on, are the positions of so many terms.
fn fields_match(
    rules: &RuleBlock,
    terms: usize,
    word: u64,
    records: &PlacedHeap,
    fields: usize,
    count: usize,
) -> bool
    requires { (terms + count ≤ rule_set_size) × (fields + count ≤ heap_size) }
    ensures { Told result (entries records.now fields count ≡ values_of (given_by word) (map term_in (entries rules.now terms count))) }
{
    (0..count).all(|j| records[fields + j] == position(word, rules[terms + j]))
}

// Whether record i is the one that points-to atom g asks for.
fn record_matches(
    rules: &RuleBlock,
    rule: usize,
    g: usize,
    word: u64,
    records: &PlacedHeap,
    i: usize,
) -> bool
    requires { Formed rules.now rule × (g < atom_count rules.now rule) × (i < 16) }
    ensures { Told result (record_in records.now (record_place i) ≡ asked (given_by word) (atom_in rules.now (atom_place rule g))) }
{
    if record_address(records, i) != variable(word, atom_address(rules, rule, g)) {
        return false;
    }
    let size = atom_size(rules, rule, g);
    if record_size(records, i) != size {
        return false;
    }
    fields_match(
        rules,
        atom_fields(rule, g),
        word,
        records,
        record_fields(i),
        size,
    )
}

// The number of the record that points-to atom g takes.
pub fn find_record(
    rules: &RuleBlock,
    rule: usize,
    g: usize,
    word: u64,
    records: &PlacedHeap,
) -> Option<usize>
    requires { Formed rules.now rule × (g < atom_count rules.now rule) × (record_count records.now ≤ 16) }
    ensures { FoundRecord records.now (asked (given_by word) (atom_in rules.now (atom_place rule g))) result }
{
    (0..record_count(records)).find(|i| record_matches(rules, rule, g, word, records, *i))
}
