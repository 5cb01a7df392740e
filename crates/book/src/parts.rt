// The parts of a rule: terms, pure conditions, points-to atoms, calls.
ghost use Rattle.block.specs.Layout.{atom_room, call_size, constant_count, first_rule, pure_size, rule_size};
ghost use Rattle.std.specs.Prelude.{◌+◌, ◌*◌, ◌≤◌, ◌<◌, length};
ghost use Rattle.reader.specs.Layout.{Fills, many};
ghost use Rattle.reader.specs.Unread.{unread};
ghost use Rattle.book.specs.BookLayout.{term_layout, pure_layout, atom_layout, arities_in, Header, call_layout, Held, Body};

use super::{count, named};
use block::heap::constant_count;
use block::{
    ARGUMENTS, ARITIES, ATOM_SIZE, ATOMS, CALL_SIZE, CALLS, FIELDS, FIRST_ATOM, FIRST_CALL,
    FIRST_PURE, LEFT, PREDICATES, PURE_SIZE, PURES, QueryBlock, RIGHT, SIZE,
};
use reader::Reader;
use semantics::Refusal;

// The ranges.
const MOST_PURES: u8 = 8;

const MOST_ATOMS: u8 = 4;

const MOST_CALLS: u8 = 3;

const MOST_FIELDS: u8 = 4;

// The kinds of a pure condition: equal and unequal.
const KINDS: u8 = 2;

// Nil as a term, and the first constant.
const NIL_TERM: u8 = 255;

const CONSTANT: u8 = 128;

// In the block, the first fixed value, which is nil; the constants follow.
const NIL_HELD: u8 = 128;

// What the terms of a rule may name: so many variables, and the constants, which stand in the query's block.
#[derive(Drop)]
pub(crate) struct Scope<'a> {
    pub(crate) variables: u8,
    pub(crate) given: &'a QueryBlock,
    ghost few: { (variables ≤ 8) × (constant_count given.now ≤ 8) },
}

impl Scope<'_> {
    // How the term that a byte names lies in the block: 128 stands for nil, and the constants follow.
    fn held(&self, b: u8) -> Result<u8, Refusal>
        ensures { Held self.now.given.now self.now.variables b result }
    {
        if b < self.variables {
            Ok(b)
        } else if b == NIL_TERM {
            Ok(NIL_HELD)
        } else if b >= CONSTANT && usize::from(b - CONSTANT) < constant_count(self.given) {
            Ok(b + 1)
        } else {
            Err(Refusal::BookName)
        }
    }

    // A term.
    fn term(&self, reader: &mut Reader, block: &mut [u8], at: usize) -> Result<(), Refusal>
        requires { at < length block.old }
        ensures { Fills (term_layout self.now.given.now self.now.variables) at (unread reader.old) (unread reader.new) block.old block.new result }
    {
        let b = reader.byte(Refusal::BookEnds)?;
        block[at] = self.held(b)?;
        Ok(())
    }

    // `count` terms.
    fn terms(
        &self,
        reader: &mut Reader,
        block: &mut [u8],
        from: usize,
        count: u8,
    ) -> Result<(), Refusal>
        requires { from + count ≤ length block.old }
        ensures { Fills (many count (term_layout self.now.given.now self.now.variables)) from (unread reader.old) (unread reader.new) block.old block.new result }
    {
        for k in 0..usize::from(count) {
            self.term(reader, block, from + k)?;
        }
        Ok(())
    }

    // A pure condition: its kind and two terms.
    fn pure(&self, reader: &mut Reader, block: &mut [u8], at: usize) -> Result<(), Refusal>
        requires { at + pure_size ≤ length block.old }
        ensures { Fills (pure_layout self.now.given.now self.now.variables) at (unread reader.old) (unread reader.new) block.old block.new result }
    {
        named(reader, block, at, KINDS)?;
        self.term(reader, block, at + LEFT)?;
        self.term(reader, block, at + RIGHT)
    }

    // `count` pure conditions.
    fn pures(
        &self,
        reader: &mut Reader,
        block: &mut [u8],
        from: usize,
        count: u8,
    ) -> Result<(), Refusal>
        requires { from + pure_size * count ≤ length block.old }
        ensures { Fills (many count (pure_layout self.now.given.now self.now.variables)) from (unread reader.old) (unread reader.new) block.old block.new result }
    {
        for k in 0..usize::from(count) {
            self.pure(reader, block, from + PURE_SIZE * k)?;
        }
        Ok(())
    }

    // A points-to atom: its address, a variable, and 0 to 4 fields.
    fn atom(&self, reader: &mut Reader, block: &mut [u8], at: usize) -> Result<(), Refusal>
        requires { at + atom_room ≤ length block.old }
        ensures { Fills (atom_layout self.now.given.now self.now.variables) at (unread reader.old) (unread reader.new) block.old block.new result }
    {
        named(reader, block, at, self.variables)?;
        let fields = count(reader, block, at + SIZE, 0, MOST_FIELDS)?;
        self.terms(reader, block, at + FIELDS, fields)
    }

    // `count` points-to atoms.
    fn atoms(
        &self,
        reader: &mut Reader,
        block: &mut [u8],
        from: usize,
        count: u8,
    ) -> Result<(), Refusal>
        requires { from + atom_room * count ≤ length block.old }
        ensures { Fills (many count (atom_layout self.now.given.now self.now.variables)) from (unread reader.old) (unread reader.new) block.old block.new result }
    {
        for k in 0..usize::from(count) {
            self.atom(reader, block, from + ATOM_SIZE * k)?;
        }
        Ok(())
    }

    // A call: a predicate, and a term for each of its arguments.
    fn call(&self, reader: &mut Reader, block: &mut [u8], at: usize) -> Result<(), Refusal>
        requires { Header block.old × (first_rule ≤ at) × (at + call_size ≤ length block.old) }
        ensures { Fills (call_layout (arities_in block.old) self.now.given.now self.now.variables) at (unread reader.old) (unread reader.new) block.old block.new result }
    {
        let predicates = block[PREDICATES];
        let predicate = named(reader, block, at, predicates)?;
        let arity = block[ARITIES + usize::from(predicate)];
        self.terms(reader, block, at + ARGUMENTS, arity)
    }

    // `count` calls.
    fn calls(
        &self,
        reader: &mut Reader,
        block: &mut [u8],
        from: usize,
        count: u8,
    ) -> Result<(), Refusal>
        requires { Header block.old × (first_rule ≤ from) × (from + call_size * count ≤ length block.old) }
        ensures { Fills (many count (call_layout (arities_in block.old) self.now.given.now self.now.variables)) from (unread reader.old) (unread reader.new) block.old block.new result }
    {
        for k in 0..usize::from(count) {
            self.call(reader, block, from + CALL_SIZE * k)?;
        }
        Ok(())
    }

    // A rule but for its head and its bound variables: its pure conditions, its points-to atoms and its calls.
    pub(crate) fn body(
        &self,
        reader: &mut Reader,
        block: &mut [u8],
        at: usize,
    ) -> Result<(), Refusal>
        requires { Header block.old × (first_rule ≤ at) × (at + rule_size ≤ length block.old) }
        ensures { Body at self.now.variables self.now.given.now (unread reader.old) (unread reader.new) block.old block.new result }
    {
        let pures = count(reader, block, at + PURES, 0, MOST_PURES)?;
        self.pures(reader, block, at + FIRST_PURE, pures)?;
        let atoms = count(reader, block, at + ATOMS, 0, MOST_ATOMS)?;
        self.atoms(reader, block, at + FIRST_ATOM, atoms)?;
        let calls = count(reader, block, at + CALLS, 0, MOST_CALLS)?;
        self.calls(reader, block, at + FIRST_CALL, calls)
    }
}
