// One line: what it says. specs/Line.antt has the text.
ghost use Rattle.std.specs.Prelude.{◌≡◌, ◌≤◌, false};
ghost use Rattle.wording.specs.Writer.{Adds};
ghost use Rattle.cases.specs.Named.{entry};
ghost use Rattle.cases.specs.Line.{answer_text, is_comment, string_at, strings_right, answer_of, case_text};
ghost use Rattle.cases.specs.Parts.{Holds, Asks, Answers, Says, said};
ghost use Rattle.cases.specs.Strings.{is_bytes, bytes_in};

use crate::calls::Call;
use crate::strings::{WORD_MAX, lend, read_word};
use crate::words::{no_empty_word, spaces, word};
use refusals::Refusal;
use wording::text::Text;
use wording::writing::Writer;

// What a call answered, and what was lent to it as it is then.
#[derive(Drop)]
pub(crate) struct Answer {
    pub(crate) outcome: Result<(), Refusal>,
    pub(crate) lent: Text<WORD_MAX>,
}

// An empty line, or one that begins with `#`.
fn is_comment(line: &[u8]) -> bool
    ensures { result ≡ is_comment line.now }
{
    matches!(line.first(), None | Some(b'#'))
}

// The call that a line asks for, where it has the words of one.
fn asked(line: &[u8]) -> Option<Call>
    ensures { Asks line.now result }
{
    let call = Call::named(word(line, 1))?;
    if spaces(line) != call.strings() + 2 {
        return None;
    }
    if !no_empty_word(line) {
        return None;
    }
    Some(call)
}

// What the string of that number, of n, stands for; the others are empty.
fn string_at(line: &[u8], n: usize, number: usize) -> Option<Text<WORD_MAX>>
    requires { n ≤ 5 }
    ensures { Holds (is_bytes (string_at line.now n number)) (bytes_in (string_at line.now n number)) result }
{
    if number < n {
        return read_word(word(line, number + 2));
    }
    read_word(b"")
}

// The answer to the call of a line with its words, where each of them is right.
fn called(line: &[u8], call: Call) -> Option<Answer>
    ensures { Answers (strings_right line.now (entry call)) (answer_of line.now (entry call)) result }
{
    let n = call.strings();
    let a = string_at(line, n, 0)?;
    let b = string_at(line, n, 1)?;
    let c = string_at(line, n, 2)?;
    let d = string_at(line, n, 3)?;
    let e = string_at(line, n, 4)?;
    // what is lent is a block where there is one string
    let Text { size, bytes } = lend(n == 1, word(line, n + 2))?;
    let mut lent = bytes;
    let outcome = call.run(
        a.as_bytes(),
        b.as_bytes(),
        c.as_bytes(),
        d.as_bytes(),
        e.as_bytes(),
        &mut lent[..size],
    );
    Some(Answer {
        outcome,
        lent: Text { size, bytes: lent },
    })
}

// The answer to a line with the words of a call.
fn answered(line: &[u8]) -> Option<Answer>
    ensures { Says line.now result }
{
    let call = asked(line)?;
    called(line, call)
}

fn put_answer(writer: &mut Writer<'_>, name: &[u8], answer: &Answer) -> Result<(), Refusal>
    ensures { Adds (answer_text name.now (said answer.now)) writer.old writer.new result }
{
    writer.put_string(name)?;
    writer.put_byte(b' ')?;
    writer.put_decimal(refusals::number(answer.outcome) as u64)?;
    writer.put_byte(b' ')?;
    writer.put_shown(answer.lent.as_bytes(), false)?;
    writer.put_byte(b'\n')
}

// The text of a line that is no comment. It is kept a function of its own: put into the loop over the lines, its rooms would be cleared for a comment too.
#[inline(never)]
fn put_answered(writer: &mut Writer<'_>, line: &[u8], number: usize) -> Result<(), Refusal>
    requires { is_comment line.now ≡ false }
    ensures { Adds (case_text line.now number) writer.old writer.new result }
{
    match answered(line) {
        Some(answer) => put_answer(writer, word(line, 0), &answer),
        None => writer.put_line(b"refused", number as u64),
    }
}

// The text of a line, of that number from 1.
pub(crate) fn put_case(writer: &mut Writer<'_>, line: &[u8], number: usize) -> Result<(), Refusal>
    ensures { Adds (case_text line.now number) writer.old writer.new result }
{
    if is_comment(line) {
        return Ok(());
    }
    put_answered(writer, line, number)
}
