// NIST's cases, run on the unit. specs/Line.antt says what a line comes to, specs/Run.antt what the text of an input is.
#![tactic(auto)]

mod calls;
mod lines;
mod strings;
mod words;

ghost use Rattle.std.specs.Prelude.{◌≡◌, ◌≤◌, length};
ghost use Rattle.wording.specs.Writer.{Adds};
ghost use Rattle.cases.specs.Run.{lines_text, input_max, run_text, no_text, in_room};

use lines::put_case;
use refusals::Refusal;
use wording::text::Text;
use wording::writing::Writer;

const INPUT_MAX: usize = 1048576;

const RUN_MAX: usize = 524288;

// Lines are counted from 1; after the last newline stands one more, which may be empty and then says nothing.
fn put_cases(writer: &mut Writer<'_>, input: &[u8]) -> Result<(), Refusal>
    requires { length input.now ≤ input_max }
    ensures { Adds (lines_text input.now) writer.old writer.new result }
{
    for (i, line) in input.split(|c| *c == b'\n').enumerate() {
        put_case(writer, line, i + 1)?;
    }
    Ok(())
}

fn text_room() -> [u8; RUN_MAX]
    ensures { result ≡ no_text }
{
    [0; RUN_MAX]
}

// The text of an input: of its lines, or that the input has more than 1,048,576 bytes or its lines' text more than 524,288.
pub fn run(input: &[u8]) -> Text<RUN_MAX>
    ensures { in_room (run_text input.now) ≡ (result.size, result.bytes) }
{
    if input.len() > INPUT_MAX {
        return Text::of(b"refused: more than 1048576 bytes\n");
    }
    let mut bytes = text_room();
    let mut writer = Writer {
        out: &mut bytes,
        at: 0,
    };
    let outcome = put_cases(&mut writer, input);
    let size = writer.at;
    if outcome.is_err() {
        return Text::of(b"refused: the text has more than 524288 bytes\n");
    }
    Text { size, bytes }
}
