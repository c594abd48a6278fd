// The descriptors that a list begins with, one after the other.
ghost use Rattle.std.specs.Prelude.{◌≡◌, ◌<◌};
ghost use Rattle.descriptors.specs.Descriptor.{type_of};
ghost use Rattle.descriptors.specs.Walked.{GivesNext, bytes_left};

use octets::big_endian::{read8, read16};
use refusals::Refusal;

// Type, zero byte and length: where each stands, and the size of all.
const TYPE_AT: usize = 0;

const ZERO_AT: usize = 1;

const LENGTH_AT: usize = 2;

const HEAD_SIZE: usize = 4;

// The type of a descriptor.
pub(crate) fn type_of(d: &[u8]) -> usize
    ensures { (result ≡ type_of d.now) × (result < 256) }
{
    read8(d, TYPE_AT)
}

// The whole descriptors that bytes begin with, one after the other; and then a refusal, where bytes are left that begin none.
#[derive(Drop)]
pub(crate) struct Descriptors<'a> {
    pub(crate) left: &'a [u8],
}

impl<'a> Iterator for Descriptors<'a> {
    type Item = Result<&'a [u8], Refusal>;

    ghost next_gives = { GivesNext };

    ghost remaining = { bytes_left };

    fn next(&mut self) -> Option<Result<&'a [u8], Refusal>> {
        if self.left.is_empty() {
            return None;
        }
        let n = HEAD_SIZE + read16(self.left, LENGTH_AT);
        let zero = read8(self.left, ZERO_AT) == 0;
        match self.left.split_at_checked(n) {
            Some((descriptor, left)) if zero => {
                self.left = left;
                Some(Ok(descriptor))
            }
            _ => {
                self.left = &[];
                Some(Err(Refusal::Layout))
            }
        }
    }
}
