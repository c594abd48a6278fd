// The register: five parts of eight bytes, A and then R[1] to R[4], by value.
ghost use Rattle.std.specs.Prelude.{◌≡◌, ◌∷◌, ◌++◌, ◌+◌, ◌≤◌, length};
ghost use Rattle.octets.specs.Values.{bytes_at};
ghost use Rattle.keywrap.specs.Wrap.{start_value, parts};

pub(crate) type Part = [u8; 8];

pub(crate) type Register = [Part; 5];

// The initial value of A (2.2.3.1).
pub(crate) const START_VALUE: Part = [0xa6; 8];

// The eight bytes from a place.
pub(crate) fn eight_at(s: &[u8], at: usize) -> Part
    requires { at + 8 ≤ length s.now }
    ensures { result ≡ bytes_at 8 s.now at }
{
    *s[at..].first_chunk().unwrap()
}

// What wrapping starts from: the initial value and the key's parts. Not one function with the next: the first part and every place differ.
pub(crate) fn from_key(key: &[u8]) -> Register
    requires { length key.now ≡ 32 }
    ensures { result ≡ start_value ∷ parts 4 key.now }
{
    [
        START_VALUE,
        eight_at(key, 0),
        eight_at(key, 8),
        eight_at(key, 16),
        eight_at(key, 24),
    ]
}

// What unwrapping starts from: the wrapped key's parts.
pub(crate) fn from_wrapped(w: &[u8]) -> Register
    requires { length w.now ≡ 40 }
    ensures { result ≡ parts 5 w.now }
{
    [
        eight_at(w, 0),
        eight_at(w, 8),
        eight_at(w, 16),
        eight_at(w, 24),
        eight_at(w, 32),
    ]
}
