// The line that says what a number means, on standard error and wherever a user reads it.
ghost use Rattle.std.specs.Prelude.{◌≡◌};
ghost use Rattle.wording.specs.Meaning.{meaning_of, line_of};

use crate::text::Text;

// Room for the longest line.
const LINE_MAX: usize = 64;

// The line of a number of document 01, `6: no row of that type and name`; one that begins with no number for any other.
#[tactic(auto, unfolding(crate::specs::Meaning::meaning_of))]
pub fn meaning(number: u8) -> Text<LINE_MAX>
    ensures { line_of (meaning_of number) ≡ (result.size, result.bytes) }
{
    match number {
        0 => Text::of(b"0: done\n"),
        1 => Text::of(b"1: the table breaks its layout\n"),
        2 => Text::of(b"2: bytes break the layout, or a length is wrong\n"),
        3 => Text::of(b"3: a field, type, format or mode not permitted\n"),
        4 => Text::of(b"4: a maximum is passed\n"),
        5 => Text::of(b"5: output shorter than the result\n"),
        6 => Text::of(b"6: no row of that type and name\n"),
        7 => Text::of(b"7: the row's use is another\n"),
        8 => Text::of(b"8: wrapped key not 40 bytes\n"),
        9 => Text::of(b"9: tag, or unwrapped start value, wrong\n"),
        10 => Text::of(b"10: IV session spent\n"),
        11 => Text::of(b"11: counter field would run over\n"),
        _ => Text::of(b"no such number\n"),
    }
}
