// Records by their addresses, which ascend, and their fields.
ghost use Rattle.std.specs.Prelude.{◌≡◌, ◌<◌};
ghost use Rattle.semantics.specs.Heap.{WellFormedHeap};
ghost use Rattle.block.specs.Layout.{heap_in, record_field};
ghost use Rattle.finding.specs.Values.{open_entry};
ghost use Rattle.finding.specs.Records.{FirstFrom, RecordAt};

use block::HeapBlock;
use block::heap::{record_address, record_count, record_field};

// The number of the first record whose address is not below a value, or the number of records; addresses ascend.
fn first_from(heap: &HeapBlock, address: u64) -> usize
    requires { WellFormedHeap (heap_in heap.now) }
    ensures { FirstFrom heap.now address result }
{
    let mut low = 0;
    let mut high = record_count(heap);
    while low < high {
        let middle = (low + high) / 2;
        if u64::from(record_address(heap, middle)) < address {
            low = middle + 1;
        } else {
            high = middle;
        }
    }
    low
}

// The number of the record at an address.
pub fn record_at(heap: &HeapBlock, address: u64) -> Option<usize>
    requires { WellFormedHeap (heap_in heap.now) }
    ensures { RecordAt heap.now address result }
{
    let i = first_from(heap, address);
    if i < record_count(heap) && u64::from(record_address(heap, i)) == address {
        Some(i)
    } else {
        None
    }
}

// Field j of record i.
pub fn field(heap: &HeapBlock, i: usize, j: usize) -> u64
    requires { (i < 16) × (j < 4) }
    ensures { (result ≡ record_field heap.now i j) × (result < open_entry) }
{
    u64::from(record_field(heap, i, j))
}
