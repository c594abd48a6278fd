// The last part of a text, of a block or less.
ghost use Rattle.std.specs.Prelude.{◌≤◌, length};

#[derive(Clone, Copy)]
pub(crate) struct Tail<'a> {
    pub(crate) bytes: &'a [u8],
    ghost short: { length bytes.now ≤ 16 },
}
