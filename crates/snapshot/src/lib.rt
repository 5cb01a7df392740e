// The snapshot, into a block of 97 numbers.
#![tactic(auto)]

ghost use Rattle.block.specs.Layout.{first_record, heap_size, record_room};
ghost use Rattle.std.specs.Prelude.{◌≡◌, ◌+◌, ◌*◌, ◌≤◌, ◌<◌, length};
ghost use Rattle.snapshot.specs.HeapLayout.{address_layout, size_layout, record_layout, records_layout, HeapRead};
ghost use Rattle.reader.specs.Layout.{Fills, Gives};
ghost use Rattle.reader.specs.Unread.{unread};

use block::{FIELDS, FIRST_RECORD, RECORD_SIZE, RECORDS, SIZE};
use reader::Reader;
use reader::fields::{END_MARK, values};
use semantics::Refusal;

// The ranges.
const MOST_RECORDS: u8 = 16;

const MOST_FIELDS: u8 = 4;

// An address above `low`, which is the one before, and not the end mark. Before the first stands 0.
fn address(reader: &mut Reader, heap: &mut [u32], at: usize, low: u32) -> Result<u32, Refusal>
    requires { at < length heap.old }
    ensures { Gives (address_layout low) at (unread reader.old) (unread reader.new) heap.old heap.new result }
{
    let here = reader.word(Refusal::SnapshotEnds)?;
    if low < here && here != END_MARK {
        heap[at] = here;
        Ok(here)
    } else {
        Err(Refusal::SnapshotAddress)
    }
}

// A count of at most `most`.
fn size(reader: &mut Reader, heap: &mut [u32], at: usize, most: u8) -> Result<u8, Refusal>
    requires { at < length heap.old }
    ensures { Gives (size_layout most) at (unread reader.old) (unread reader.new) heap.old heap.new result }
{
    let size = reader.ranged(Refusal::SnapshotEnds, Refusal::SnapshotCount, 0, most)?;
    heap[at] = u32::from(size);
    Ok(size)
}

// A record: its address, which is above `low`, and its 0 to 4 fields.
fn record(reader: &mut Reader, heap: &mut [u32], at: usize, low: u32) -> Result<u32, Refusal>
    requires { at + record_room ≤ length heap.old }
    ensures { Gives (record_layout low) at (unread reader.old) (unread reader.new) heap.old heap.new result }
{
    let here = address(reader, heap, at, low)?;
    let fields = size(reader, heap, at + SIZE, MOST_FIELDS)?;
    values(
        reader,
        heap,
        at + FIELDS,
        usize::from(fields),
        Refusal::SnapshotEnds,
    )?;
    Ok(here)
}

// `count` records, each above the one before.
fn records(reader: &mut Reader, heap: &mut [u32], count: usize) -> Result<(), Refusal>
    requires { first_record + record_room * count ≤ length heap.old }
    ensures { Fills (records_layout count) first_record (unread reader.old) (unread reader.new) heap.old heap.new result }
{
    let mut low = 0;
    for k in 0..count {
        low = record(reader, heap, FIRST_RECORD + RECORD_SIZE * k, low)?;
    }
    Ok(())
}

// The snapshot, into a block of 97 numbers: the count of the records, the records, and then nothing may be left.
pub fn read_heap(snapshot: &[u8], heap: &mut [u32]) -> Result<(), Refusal>
    requires { length heap.old ≡ heap_size }
    ensures { HeapRead snapshot.now heap.old heap.new result }
{
    let mut reader = Reader::new(snapshot);
    let count = size(&mut reader, heap, RECORDS, MOST_RECORDS)?;
    records(&mut reader, heap, usize::from(count))?;
    reader.finish(Refusal::SnapshotLonger)
}
