// The desk's two entries, for a program in C.
#![tactic(auto)]

ghost use Rattle.semantics.specs.Contract.{DeskDecided, DeskChecked};
ghost use Rattle.desk.specs.Words.{Loaded};

// The most bytes of an unfolding that the check's entry takes: 1,024 lines of three words.
const MOST: usize = 24576;

// The words of an unfolding that comes as bytes; none where the bytes are too many or end within a word.
fn load<'a>(bytes: &[u8], words: &'a mut [u64; 3072]) -> &'a [u64]
    ensures { Loaded bytes.now result.now }
{
    let (chunks, rest) = bytes.as_chunks();
    if MOST < bytes.len() || !rest.is_empty() {
        return &[];
    }
    for (k, chunk) in chunks.iter().enumerate() {
        words[k] = u64::from_le_bytes(*chunk);
    }
    &words[..chunks.len()]
}

// The engine, on a table of 1,024 lines that no one else sees. Twice the refusal plus 1 if the question fits.
#[unsafe(no_mangle)]
pub extern "C" fn desk_decide(book: &[u8], snapshot: &[u8], question: &[u8]) -> u64
    ensures { DeskDecided book.now snapshot.now question.now result }
{
    let mut table = [0u64; 1024];
    let mut space = [0u64; 3072];
    let reply = engine::decide(book, snapshot, question, &mut table, &mut space);
    2 * reply.refusal + reply.verdict
}

// The check. The unfolding's words come as bytes, the lowest byte of each first. Twice the refusal plus 1 if it is taken.
#[unsafe(no_mangle)]
pub extern "C" fn desk_check(book: &[u8], snapshot: &[u8], question: &[u8], lines: &[u8]) -> u64
    ensures { DeskChecked book.now snapshot.now question.now lines.now result }
{
    let mut words = [0u64; 3072];
    let reply = engine::check(book, snapshot, question, load(lines, &mut words));
    2 * reply.refusal + reply.taken
}
