// Big-endian numbers of 1, 2, 4 and 8 bytes. Reading past the end of a string gives zeros.
// A width has functions of its own, as it has in std: to_be_bytes and from_be_bytes are methods of u16, u32 and u64.
ghost use Rattle.std.specs.Prelude.{◌≡◌, ◌<◌, get_or};
ghost use Rattle.octets.specs.Values.{bytes_at};
ghost use Rattle.octets.specs.BigEndian.{be, number_at};

use crate::strings::{first, part};

pub fn read8(s: &[u8], i: usize) -> usize
    ensures { (result ≡ get_or s.now i 0) × (result < 256) }
{
    s.get(i).map_or(0, |b| usize::from(*b))
}

// The N bytes from place i.
#[tactic(auto, using(crate::proofs::Lent::over_part, std::proofs::lemmas::Grind::common_steps))]
fn bytes_at<const N: usize>(s: &[u8], i: usize) -> [u8; N]
    ensures { result ≡ bytes_at N s.now i }
{
    first(part(s, i, N))
}

pub fn read16(s: &[u8], i: usize) -> usize
    ensures { (result ≡ number_at 2 s.now i) × (result < 65536) }
{
    usize::from(u16::from_be_bytes(bytes_at(s, i)))
}

pub fn read32(s: &[u8], i: usize) -> usize
    ensures { (result ≡ number_at 4 s.now i) × (result < 4294967296) }
{
    u32::from_be_bytes(bytes_at(s, i)) as usize
}

pub fn read64(s: &[u8], i: usize) -> u64
    ensures { result ≡ number_at 8 s.now i }
{
    u64::from_be_bytes(bytes_at(s, i))
}

pub fn bytes16(n: usize) -> [u8; 2]
    ensures { result ≡ be 2 n }
{
    let [.., a, b] = n.to_be_bytes();
    [a, b]
}

pub fn bytes32(n: usize) -> [u8; 4]
    ensures { result ≡ be 4 n }
{
    let [.., a, b, c, d] = n.to_be_bytes();
    [a, b, c, d]
}

pub fn bytes64(n: u64) -> [u8; 8]
    ensures { result ≡ be 8 n }
{
    n.to_be_bytes()
}
