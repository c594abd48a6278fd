// The unit on a command line: argument 1 is the command, and the others are file names, `-` for standard input, and words: hexadecimal digits, a number, and
// name=value.
// What a command gives goes to standard output. A refusal is a line `6: no row of that type and name` on standard error, and misuse any other line there:
// a program has no exit status, so `./spadeswirl` makes one of these.
#![tactic(auto)]

mod fields;
mod labels;
mod meanings;
mod opening;
mod pages;
mod reports;
mod rooms;
mod saying;
mod sealing;
mod tables;
mod taking;
mod wrapping;
mod writing;

use saying::Said;

// Each command is called in one place, so that the compiler can lay the rooms of one over those of another: the stack would not hold all side by side.
fn run(rt: &HostRuntime, command: &[u8]) -> Result<(), Said> {
    match command {
        b"seal" => sealing::seal(rt),
        b"open" | b"verify" => opening::open(rt, command == b"verify".as_slice()),
        b"report" => reports::report(rt),
        b"check-table" => tables::check_table(rt),
        b"label" => labels::label(rt),
        b"descriptors" => pages::descriptors(rt),
        b"write-page" => writing::write_page(rt),
        b"wrap-page" => wrapping::wrap_page(rt),
        b"meaning" => meanings::meaning_of(rt),
        _ => Err(saying::misuse(rt, b"no such command")),
    }
}

fn main(rt: HostRuntime) {
    let mut word = [0u8; taking::ARGUMENT_ROOM];
    let _ = run(&rt, taking::argument(&rt, 1, &mut word));
}
