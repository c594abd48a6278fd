// Decimal digits, and the number that a word of them is. specs/Number.antt says how a word is read.
ghost use Rattle.std.specs.Prelude.{◌≡◌, ◌+◌, ◌*◌, ◌≤◌, ◌<◌, min};
ghost use Rattle.wording.specs.Decimal.{is_decimal_digit, decimal_digit, decimal_counts};
ghost use Rattle.wording.specs.Number.{greatest, number_read};

fn is_decimal(c: u8) -> bool
    ensures { result ≡ is_decimal_digit c }
{
    c.is_ascii_digit()
}

// What a decimal digit counts.
fn counts(c: u8) -> u64
    requires { (decimal_digit 0 ≤ c) × (c ≤ decimal_digit 9) }
    ensures { (result ≡ decimal_counts c) × (result < 10) }
{
    u64::from(c - b'0')
}

// The number with one digit more, or the greatest of 64 bits where that is larger.
fn with_digit(v: u64, d: u64) -> u64
    requires { d < 10 }
    ensures { result ≡ min (v * 10 + d) greatest }
{
    v.saturating_mul(10).saturating_add(d)
}

// The number that a word's digits make, and the greatest of 64 bits where that is larger; none of a word that is no word of decimal digits.
pub fn read(word: &[u8]) -> Option<u64>
    ensures { result ≡ number_read word.now }
{
    if word.is_empty() {
        return None;
    }
    let mut v = 0;
    for c in word {
        if !is_decimal(*c) {
            return None;
        }
        v = with_digit(v, counts(*c));
    }
    Some(v)
}
