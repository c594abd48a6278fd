// What a mode seals or opens, once the tests of the arguments are passed.
ghost use Rattle.std.specs.Prelude.{◌≡◌, ◌+◌, ◌≤◌, length};
ghost use Rattle.modes.specs.Calls.{data_max, text_max};

// An IV of 12 bytes; associated data, which is a and then b, and a text, which pass no maximum.
#[derive(Clone, Copy)]
pub(crate) struct Message<'a> {
    pub(crate) iv: &'a [u8],
    pub(crate) a: &'a [u8],
    pub(crate) b: &'a [u8],
    pub(crate) text: &'a [u8],
    ghost iv_size: { length iv.now ≡ 12 },
    ghost data_fits: { length a.now + length b.now ≤ data_max },
    ghost text_fits: { length text.now ≤ text_max },
}
