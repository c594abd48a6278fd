// A text by value: how long it is, and its bytes with zeros after them.
ghost use Rattle.std.specs.Prelude.{◌≡◌, ◌≤◌, take};
ghost use Rattle.wording.specs.ByValue.{text_of};

use octets::strings::first;

#[derive(Clone, Copy)]
pub struct Text<const N: usize> {
    pub size: usize,
    pub bytes: [u8; N],
    pub ghost within: { size ≤ N },
}

impl<const N: usize> Text<N> {
    // The text of these words, as far as the room reaches.
    pub fn of(words: &[u8]) -> Self
        ensures { text_of N words.now ≡ (result.size, result.bytes) }
    {
        Text {
            size: words.len().min(N),
            bytes: first(words),
        }
    }

    // The text itself.
    pub fn as_bytes(&self) -> &[u8]
        ensures { result.now ≡ take self.now.size self.now.bytes }
    {
        &self.bytes[..self.size]
    }
}
