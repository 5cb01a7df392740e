// Single bytes, and the end of the reading. `byte` is the one function that looks at the lent bytes one by one.
ghost use Rattle.std.specs.Prelude.{◌≡◌, OnErr};
ghost use Rattle.semantics.specs.Reader.{byte as byteReader};
ghost use Rattle.semantics.specs.Numbered.{number_of};
ghost use Rattle.reader.specs.Outcome.{Yields, Ranged, BelowBound};
ghost use Rattle.reader.specs.Answer.{unless_more};
ghost use Rattle.reader.specs.Unread.{unread};

use super::Reader;
use semantics::Refusal;

impl Reader<'_> {
    // The next byte; `short` refuses where there is none.
    #[tactic(auto, unfolding(crate::specs::Unread::unread))]
    pub fn byte(&mut self, short: Refusal) -> Result<u8, Refusal>
        ensures reads { Yields (byteReader (number_of short)) (unread self.old) (unread self.new) result }
        ensures refused { OnErr result (self.new ≡ self.old) }
    {
        if self.at == self.bytes.len() {
            return Err(short);
        }
        let byte = self.bytes[self.at];
        self.at += 1;
        Ok(byte)
    }

    // A byte from `least` to `most`; `range` refuses another.
    pub fn ranged(
        &mut self,
        short: Refusal,
        range: Refusal,
        least: u8,
        most: u8,
    ) -> Result<u8, Refusal>
        ensures { Ranged (number_of short) (number_of range) least most (unread self.old) (unread self.new) result }
    {
        let b = self.byte(short)?;
        if (least..=most).contains(&b) {
            Ok(b)
        } else {
            Err(range)
        }
    }

    // A byte below `n`; `off` refuses another.
    pub fn below(&mut self, short: Refusal, off: Refusal, n: u8) -> Result<u8, Refusal>
        ensures { BelowBound (number_of short) (number_of off) n (unread self.old) (unread self.new) result }
    {
        let b = self.byte(short)?;
        if b < n { Ok(b) } else { Err(off) }
    }

    // The end of the reading; `more` refuses where a byte is left.
    #[tactic(auto, unfolding(crate::specs::Unread::unread))]
    pub fn finish(self, more: Refusal) -> Result<(), Refusal>
        ensures { result ≡ unless_more more (unread self.entry) }
    {
        if self.at == self.bytes.len() {
            Ok(())
        } else {
            Err(more)
        }
    }
}
