use sections::Sections;

// The quick walk, and the engine beside it.
pub(crate) fn walked(asked: Sections<'_>) -> [u64; 9] {
    let mut table = [0u64; 1024];
    let mut space = [0u64; 3072];
    let quick = walk::walk(asked.book, asked.snapshot, asked.question);
    let whole = engine::decide(
        asked.book,
        asked.snapshot,
        asked.question,
        &mut table,
        &mut space,
    );
    [
        quick.refusal,
        quick.verdict,
        whole.refusal,
        whole.verdict,
        0,
        0,
        0,
        0,
        0,
    ]
}
