// A line's words. specs/Words.antt says what they are.
ghost use Rattle.std.specs.Prelude.{◌≡◌, length};
ghost use Rattle.octets.specs.Tests.{all};
ghost use Rattle.wording.specs.Lines.{space};
ghost use Rattle.cases.specs.Words.{parts_after, words_of, word_at, some_bytes};

// How many spaces a line has.
pub(crate) fn spaces(line: &[u8]) -> usize
    ensures { result ≡ length (parts_after space line.now) }
{
    line.iter().filter(|c| **c == b' ').count()
}

// The word of that number, from 0, as the part of the line that it is; an empty one where there are fewer.
pub(crate) fn word(line: &[u8], number: usize) -> &[u8]
    ensures { result.now ≡ word_at line.now number }
{
    line.split(|c| *c == b' ').nth(number).unwrap_or(b"")
}

// Whether every word has a byte.
pub(crate) fn no_empty_word(line: &[u8]) -> bool
    ensures { result ≡ all some_bytes (words_of line.now) }
{
    line.split(|c| *c == b' ').all(|w| !w.is_empty())
}
