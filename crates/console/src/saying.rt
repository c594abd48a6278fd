// What is said on standard error, and what is written to standard output.
use refusals::Refusal;
use std::fmt::InlineText;
use std::io;
use std::io::Print;
use wording::meaning::meaning;

// The system's texts have at most 64 bytes, and std's own 80.
const MESSAGE_ROOM: usize = 256;

// That a command went no further, and why was said on standard error.
#[derive(Clone, Copy)]
pub(crate) struct Said;

// What cannot be said on standard error is not said.
fn say(rt: &HostRuntime, what: &[u8]) {
    let _ = rt.stderr().write_all(what);
}

// A line that begins with no number.
pub(crate) fn misuse(rt: &HostRuntime, what: &[u8]) -> Said {
    say(rt, what);
    say(rt, b"\n");
    Said
}

// The same, of a word that was given.
pub(crate) fn misused(rt: &HostRuntime, what: &[u8], word: &[u8]) -> Said {
    say(rt, what);
    say(rt, b": ");
    misuse(rt, word)
}

// What failed, and what the system says of it, without the number that std puts behind it: `No space left on device` and not ` (os error 28)`.
fn fail(rt: &HostRuntime, what: &[u8], error: &io::Error) -> Said {
    let message = InlineText::<MESSAGE_ROOM>::of(error);
    let text = message.as_str();
    let text = text
        .split_once(" (os error ")
        .map_or(text, |(before, _)| before);
    misused(rt, what, text.as_bytes())
}

pub(crate) fn cannot_read(rt: &HostRuntime, path: &[u8], error: &io::Error) -> Said {
    say(rt, b"cannot read ");
    fail(rt, path, error)
}

pub(crate) fn no_text(rt: &HostRuntime, path: &[u8]) -> Said {
    say(rt, b"cannot read ");
    misused(rt, path, b"the name is not UTF-8")
}

// The line of a number.
pub(crate) fn refuse(rt: &HostRuntime, number: u8) -> Said {
    say(rt, meaning(number).as_bytes());
    Said
}

// What a call of the unit gives, where it does not refuse.
pub(crate) fn granted<T>(rt: &HostRuntime, outcome: Result<T, Refusal>) -> Result<T, Said> {
    outcome.map_err(|refusal| refuse(rt, refusal.number()))
}

pub(crate) fn cannot_write(rt: &HostRuntime, error: &io::Error) -> Said {
    fail(rt, b"cannot write", error)
}

pub(crate) fn write_out(rt: &HostRuntime, s: &[u8]) -> Result<(), Said> {
    rt.stdout().write_all(s).map_err(|e| cannot_write(rt, &e))
}
