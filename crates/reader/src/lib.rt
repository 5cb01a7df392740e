// What reading stands on: the reader, which holds the lent bytes and how many of them are read. Single bytes are read in `bytes`, numbers of
// four bytes in `fields`.
#![tactic(auto)]

pub mod bytes;
pub mod fields;

ghost use Rattle.std.specs.Prelude.{◌≡◌, ◌≤◌, length};

// The lent bytes, and the place where reading them stands. A contract speaks of the bytes that are left, `unread`.
#[derive(Clone, Copy)]
pub struct Reader<'a> {
    bytes: &'a [u8],
    at: usize,
    ghost within: { at ≤ length bytes.now },
}

impl<'a> Reader<'a> {
    ghost use Rattle.reader.specs.Unread.{unread};

    #[tactic(auto, unfolding(crate::specs::Unread::unread))]
    pub fn new(bytes: &'a [u8]) -> Reader<'a>
        ensures { unread result ≡ bytes.now }
    {
        Reader { bytes, at: 0 }
    }
}
