// Numbers of four bytes, and the values that fields, queries and constants have.
ghost use Rattle.std.specs.Prelude.{OnErr, ◌≡◌, ◌+◌, ◌≤◌, ◌<◌, length};
ghost use Rattle.semantics.specs.Reader.{word as word_reader};
ghost use Rattle.semantics.specs.Formats.{as_read};
ghost use Rattle.semantics.specs.Numbered.{number_of};
ghost use Rattle.reader.specs.Outcome.{Yields};
ghost use Rattle.reader.specs.Layout.{value_layout, Fills, many};
ghost use Rattle.reader.specs.Unread.{unread};

use super::Reader;
use semantics::Refusal;

// The end mark: FFFFFFFF.
pub const END_MARK: u32 = 4294967295;

impl Reader<'_> {
    // Four bytes, lowest first; `short` refuses where there are fewer.
    pub fn word(&mut self, short: Refusal) -> Result<u32, Refusal>
        ensures reads { Yields (word_reader (number_of short)) (unread self.old) (unread self.new) result }
        ensures refused { OnErr result (self.new ≡ self.old) }
    {
        let Some(word) = self.bytes[self.at..].first_chunk::<4>() else {
            return Err(short);
        };
        self.at += 4;
        Ok(u32::from_le_bytes(*word))
    }
}

// How four bytes of a field, of a query's value or of a constant are read as a value: the end mark as nil, all else as it is.
fn as_read(v: u32) -> u32
    ensures { result ≡ as_read v }
{
    if v == END_MARK { 0 } else { v }
}

// A field, a query's value or a constant.
fn value(reader: &mut Reader, block: &mut [u32], at: usize, short: Refusal) -> Result<(), Refusal>
    requires { at < length block.old }
    ensures { Fills (value_layout (number_of short)) at (unread reader.old) (unread reader.new) block.old block.new result }
{
    block[at] = as_read(reader.word(short)?);
    Ok(())
}

// `count` values.
pub fn values(
    reader: &mut Reader,
    block: &mut [u32],
    from: usize,
    count: usize,
    short: Refusal,
) -> Result<(), Refusal>
    requires { from + count ≤ length block.old }
    ensures { Fills (many count (value_layout (number_of short))) from (unread reader.old) (unread reader.new) block.old block.new result }
{
    for k in 0..count {
        value(reader, block, from + k, short)?;
    }
    Ok(())
}
