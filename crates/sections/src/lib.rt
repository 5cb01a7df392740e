// The bench program's input: three sections, and the engine's reply to them.
#![tactic(auto)]

ghost use Rattle.semantics.specs.Contract.{book_section, snapshot_section, question_section, book_or, Decided};
ghost use Rattle.sections.specs.Sections.{IsSection, Splits};

use semantics::Reply;

// The bytes of the sections, without their lengths.
#[derive(Clone, Copy)]
pub struct Sections<'a> {
    pub book: &'a [u8],
    pub snapshot: &'a [u8],
    pub question: &'a [u8],
}

impl Sections<'_> {
    // The engine's reply. Where the section of the book is empty, the house book stands for it.
    pub fn answer(&self, table: &mut [u64], space: &mut [u64]) -> Reply
        ensures { Decided (book_or self.now.book.now) self.now.snapshot.now self.now.question.now table.old space.old result table.new space.new }
    {
        if self.book.is_empty() {
            let house = formats::house();
            return engine::decide(&house, self.snapshot, self.question, table, space);
        }
        engine::decide(self.book, self.snapshot, self.question, table, space)
    }
}

// The section that starts with its length, and what comes after it. Where a byte of the length is missing both are empty; where the length
// is more than what is left, the section is what is left.
pub fn take_section(bytes: &[u8]) -> (&[u8], &[u8])
    ensures { IsSection bytes.now result.0.now result.1.now }
{
    let Some((length, rest)) = bytes.split_first_chunk() else {
        return (&[], &[]);
    };
    let length = usize::from(u16::from_le_bytes(*length));
    rest.split_at(length.min(rest.len()))
}

// Book, snapshot and question, each after its length, and what comes after them.
pub fn split(input: &[u8]) -> (Sections<'_>, &[u8])
    ensures { Splits input.now result.0.book.now result.0.snapshot.now result.0.question.now result.1.now }
{
    let (book, rest) = take_section(input);
    let (snapshot, rest) = take_section(rest);
    let (question, rest) = take_section(rest);
    let sections = Sections {
        book,
        snapshot,
        question,
    };
    (sections, rest)
}

// The engine's reply to an input.
pub fn answer(input: &[u8], table: &mut [u64], space: &mut [u64]) -> Reply
    ensures { Decided (book_section input.now) (snapshot_section input.now) (question_section input.now) table.old space.old result table.new space.new }
{
    let (sections, _) = split(input);
    sections.answer(table, space)
}
