// Room for what is read, at least a byte more than the unit accepts, so that the library's own number refuses what is longer; and for what is written.
// `RoomsAre` of specs/Rooms.antt says how long each is.
ghost use Rattle.std.specs.Prelude.{◌≡◌, length};

// 8 + 72 * 64 bytes of a table, and one more.
pub(crate) const TABLE_ROOM: usize = 4617;

// 4,096 bytes of the caller's associated data, and one more.
pub(crate) const ASSOCIATED_ROOM: usize = 4097;

// Half as many bytes as an argument has digits.
pub(crate) const WORD_ROOM: usize = 2048;

// A plaintext, read or written: 1,048,576 bytes, and one more.
pub(crate) const PLAIN_ROOM: usize = 1048577;

// The longest record that is written: 52 + k + n, with a name of 32 bytes.
pub(crate) const RECORD_ROOM: usize = 1048660;

// A record or a label to be judged: by its layout a long one is 2, 3 or 4, so that one byte more would not do.
pub(crate) const LONG_ROOM: usize = 4194304;

// A page to be judged: what its own length can say, 65,535 and the four bytes before, and one more, which is 2 whatever the page says. A page's KEY part or a
// key to be written is shorter by far, and a longer one is judged by this much of it.
pub(crate) const PAGE_ROOM: usize = 65540;

// A dump: 65,536 bytes, and one more.
pub(crate) const DUMP_ROOM: usize = 65537;

// A page's descriptors: 68 types, each at most once, in 65,539 bytes each, and one more, which is 2 whatever it is.
pub(crate) const LIST_ROOM: usize = 4456653;

// The longest page that is written.
pub(crate) const WRITTEN_ROOM: usize = 4096;

pub(crate) fn room<const N: usize>() -> [u8; N]
    ensures { length result ≡ N }
{
    [0; N]
}
