// Text written into lent room: each method puts all of its text at the writer's place, which moves past it, or, where
// the text does not fit, changes nothing and refuses with NoRoom (5).
ghost use Rattle.std.specs.Prelude.{◌≡◌, ◌+◌, [], ◌∷◌, ◌++◌, leb, length};
ghost use Rattle.wording.specs.Decimal.{decimal};
ghost use Rattle.wording.specs.Hex.{digits_of, digits_shown};
ghost use Rattle.wording.specs.Lines.{line};
ghost use Rattle.wording.specs.Writer.{Writes};
ghost use Rattle.wording.specs.Writing.{writer_put};

use crate::hex::digit_of;
use refusals::Refusal;

// The most decimal digits that a number of 64 bits has.
const DIGITS_MAX: usize = 20;

// These, a space before them and a newline after them.
const LINE_END_MAX: usize = 22;

// A lent room, and the place in it where the next text goes.
#[derive(Drop)]
pub struct Writer<'a> {
    pub out: &'a mut [u8],
    pub at: usize,
}

impl Writer<'_> {
    // Whether so many bytes more lie within the room.
    fn has_room(&self, size: usize) -> bool
        ensures { result ≡ leb (self.now.at + size) (length self.now.out.now) }
    {
        self.at <= self.out.len() && size <= self.out.len() - self.at
    }

    pub fn put_string(&mut self, s: &[u8]) -> Result<(), Refusal>
        ensures { Writes (writer_put s.now) self.old self.new result }
    {
        if !self.has_room(s.len()) {
            return Err(Refusal::NoRoom);
        }
        let end = self.at + s.len();
        self.out[self.at..end].copy_from_slice(s);
        self.at = end;
        Ok(())
    }

    pub fn put_byte(&mut self, b: u8) -> Result<(), Refusal>
        ensures { Writes (writer_put (b ∷ [])) self.old self.new result }
    {
        self.put_string(&[b])
    }

    // The decimal digits of n, found from the last to the first. A `while`: how many there are is known only when no more is left.
    pub fn put_decimal(&mut self, n: u64) -> Result<(), Refusal>
        ensures { Writes (writer_put (decimal n)) self.old self.new result }
    {
        let mut digits = [0u8; DIGITS_MAX];
        let mut first = DIGITS_MAX;
        let mut rest = n;
        while rest >= 10 {
            first -= 1;
            digits[first] = b'0' + (rest % 10) as u8;
            rest /= 10;
        }
        first -= 1;
        digits[first] = b'0' + rest as u8;
        self.put_string(&digits[first..])
    }

    // The hexadecimal digits of a string, with capital or small letters.
    pub fn put_hex(&mut self, s: &[u8], capital: bool) -> Result<(), Refusal>
        ensures { Writes (writer_put (digits_of capital s.now)) self.old self.new result }
    {
        if !self.has_room(2 * s.len()) {
            return Err(Refusal::NoRoom);
        }
        for b in s {
            self.put_string(&[digit_of(*b / 16, capital), digit_of(*b % 16, capital)])?;
        }
        Ok(())
    }

    // The same, and `-` where there are none.
    pub fn put_shown(&mut self, s: &[u8], capital: bool) -> Result<(), Refusal>
        ensures { Writes (writer_put (digits_shown capital s.now)) self.old self.new result }
    {
        if s.is_empty() {
            return self.put_byte(b'-');
        }
        self.put_hex(s, capital)
    }

    // One string after the other, both or neither.
    fn put_two(&mut self, s: &[u8], t: &[u8]) -> Result<(), Refusal>
        ensures { Writes (writer_put (s.now ++ t.now)) self.old self.new result }
    {
        if !self.has_room(s.len() + t.len()) {
            return Err(Refusal::NoRoom);
        }
        self.put_string(s)?;
        self.put_string(t)
    }

    // A word, a space, a number and a newline.
    pub fn put_line(&mut self, word: &[u8], n: u64) -> Result<(), Refusal>
        ensures { Writes (writer_put (line word.now n)) self.old self.new result }
    {
        let mut room = [0u8; LINE_END_MAX];
        let mut end = Writer {
            out: &mut room,
            at: 0,
        };
        end.put_byte(b' ')?;
        end.put_decimal(n)?;
        end.put_byte(b'\n')?;
        let size = end.at;
        self.put_two(word, &room[..size])
    }
}
