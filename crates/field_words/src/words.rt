// A word cut at its first `=`.
ghost use Rattle.std.specs.Prelude.{◌≡◌};
ghost use Rattle.field_words.specs.Words.{equals_at, word_name, word_value};

use octets::strings::part;

// Where the first `=` stands, and the word's length where there is none.
fn equals_at(word: &[u8]) -> usize
    ensures { result ≡ equals_at word.now }
{
    word.iter().position(|c| *c == b'=').unwrap_or(word.len())
}

pub(crate) fn name_in(word: &[u8]) -> &[u8]
    ensures { result.now ≡ word_name word.now }
{
    part(word, 0, equals_at(word))
}

pub(crate) fn value_in(word: &[u8]) -> &[u8]
    ensures { result.now ≡ word_value word.now }
{
    part(word, equals_at(word) + 1, word.len())
}
