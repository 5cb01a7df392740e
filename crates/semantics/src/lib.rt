// The types of the public answers. The definitions stand in specs/, and their theorems in proofs/.
#![tactic(auto)]

ghost use Rattle.semantics.specs.Numbered.{number_of};
ghost use Rattle.semantics.specs.Printed.{reply_text};
ghost use Rattle.std.specs.Prelude.{◌≡◌, Some};

use std::fmt;

// Why a call refuses what it was given. specs/Refusals has what each says, and the number that the callers see.
#[derive(Clone, Copy, PartialEq, Eq)]
pub enum Refusal {
    BookEnds,
    BookCount,
    BookName,
    BookLonger,
    SnapshotEnds,
    SnapshotCount,
    SnapshotAddress,
    SnapshotLonger,
    QuestionMismatch,
    MemorySize,
    TooManyFacts,
    BookNotPlain,
}

impl From<Refusal> for u64 {
    ghost from_gives = { λ refusal n. n ≡ number_of refusal };

    fn from(refusal: Refusal) -> u64 {
        match refusal {
            Refusal::BookEnds => 1,
            Refusal::BookCount => 2,
            Refusal::BookName => 3,
            Refusal::BookLonger => 4,
            Refusal::SnapshotEnds => 5,
            Refusal::SnapshotCount => 6,
            Refusal::SnapshotAddress => 7,
            Refusal::SnapshotLonger => 8,
            Refusal::QuestionMismatch => 9,
            Refusal::MemorySize => 10,
            Refusal::TooManyFacts => 11,
            Refusal::BookNotPlain => 12,
        }
    }
}

// The engine's reply. Verdict 1 is fits, 0 does not fit; lines is the certificate's number of lines.
#[derive(Clone, Copy)]
pub struct Reply {
    pub refusal: u64,
    pub verdict: u64,
    pub facts: u64,
    pub rounds: u64,
    pub lines: u64,
}

// Each number after its name, as the bench program prints them.
impl fmt::Display for Reply {
    ghost output = { λ reply. Some (reply_text reply) };

    fn fmt<W: fmt::Write>(&self, f: &mut fmt::Formatter<W>) -> fmt::Result {
        write!(
            f,
            "refusal {} verdict {} facts {} rounds {} lines {}",
            self.refusal, self.verdict, self.facts, self.rounds, self.lines
        )
    }
}

// The reply to the question whether some part fits. Bit i of the part is for record i; on does not fit and on a refusal the part is 0.
#[derive(Clone, Copy)]
pub struct PartReply {
    pub refusal: u64,
    pub verdict: u64,
    pub part: u16,
    pub facts: u64,
    pub rounds: u64,
    pub lines: u64,
}

// The reply of the certificate check: taken is 1 or 0.
#[derive(Clone, Copy)]
pub struct CheckReply {
    pub refusal: u64,
    pub taken: u64,
}

// The reply of the quick walk. Verdict 1 is fits; 0 is does not fit, or stands beside a refusal.
#[derive(Clone, Copy)]
pub struct WalkReply {
    pub refusal: u64,
    pub verdict: u64,
}
