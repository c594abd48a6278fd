// Byte strings as hexadecimal digits, two a byte, the more significant first. specs/Hex.antt says which digit is which.
ghost use Rattle.std.specs.Prelude.{◌≡◌, ◌*◌, ◌/◌, ◌%◌, ◌≤◌, ◌<◌, length};
ghost use Rattle.std.specs.List.{list_all};
ghost use Rattle.octets.specs.Lent.{over};
ghost use Rattle.refusals.specs.Numbers.{outcome_number};
ghost use Rattle.wording.specs.Hex.{is_hex_digit, digit_value, hex_byte, hex_bytes, is_hex, digit_of, hex_read};

use refusals::Refusal;

#[tactic(auto, unfolding(crate::specs::Hex::is_hex_digit))]
fn is_hex_digit(c: u8) -> bool
    ensures { result ≡ is_hex_digit c }
{
    c.is_ascii_hexdigit()
}

// What a digit counts; 0 for any other character.
#[tactic(auto, unfolding(crate::specs::Hex::digit_value))]
fn digit_value(c: u8) -> u8
    ensures { (result ≡ digit_value c) × (result < 16) }
{
    match c {
        b'0'..=b'9' => c - b'0',
        b'a'..=b'f' => c - b'a' + 10,
        b'A'..=b'F' => c - b'A' + 10,
        _ => 0,
    }
}

fn byte_of(a: u8, b: u8) -> u8
    ensures { result ≡ hex_byte a b }
{
    digit_value(a) * 16 + digit_value(b)
}

fn all_digits(word: &[u8]) -> bool
    ensures { result ≡ list_all is_hex_digit word.now }
{
    word.iter().all(|c| is_hex_digit(*c))
}

fn is_hex(word: &[u8]) -> bool
    ensures { result ≡ is_hex word.now }
{
    (word.len() % 2 == 0) & all_digits(word)
}

// The bytes over the front of out, one for each two digits.
fn fill_bytes(word: &[u8], out: &mut [u8])
    requires { (length word.now % 2 ≡ 0) × (length word.now / 2 ≤ length out.old) }
    ensures { out.new ≡ over (hex_bytes word.now) out.old }
{
    for i in 0..word.len() / 2 {
        out[i] = byte_of(word[2 * i], word[2 * i + 1]);
    }
}

// Writes the bytes that the word's digits make over the front of out; or changes nothing, and refuses with
// Layout (2) where the digits are an odd number or a character is none, or NoRoom (5) where out is shorter than half the word.
pub fn read(word: &[u8], out: &mut [u8]) -> Result<(), Refusal>
    ensures { hex_read word.now out.old ≡ (outcome_number result, out.new) }
{
    if !is_hex(word) {
        return Err(Refusal::Layout);
    }
    if out.len() < word.len() / 2 {
        return Err(Refusal::NoRoom);
    }
    fill_bytes(word, out);
    Ok(())
}

// The digit of a number below 16, a letter from ten on.
#[tactic(auto, unfolding(crate::specs::Hex::digit_of))]
pub(crate) fn digit_of(d: u8, capital: bool) -> u8
    requires { d < 16 }
    ensures { result ≡ digit_of capital d }
{
    match d {
        0..=9 => b'0' + d,
        _ if capital => b'A' + (d - 10),
        _ => b'a' + (d - 10),
    }
}
