// The arguments: files, words of hexadecimal digits, and a number.
ghost use Rattle.std.specs.Prelude.{length, IfOk};
ghost use Rattle.console.specs.Taken.{IsPrefixLen};

use crate::saying::{Said, cannot_read, misuse, no_text};
use reading::read_full;
use std::env::{Env, FillError};
use std::fs::File;
use std::io::Read;
use wording::{decimal, hex};

// Room for an argument.
pub(crate) const ARGUMENT_ROOM: usize = 4096;

// Argument i, at the start of the room: nothing where it is missing or too long.
pub(crate) fn argument<'a>(rt: &HostRuntime, i: usize, word: &'a mut [u8]) -> &'a [u8]
    ensures { IsPrefixLen (length result.now) word.old }
{
    let size = rt.arg(i, word).unwrap_or(0);
    &word[..size]
}

// Whether there is an argument i, however long.
pub(crate) fn has_argument(rt: &HostRuntime, i: usize) -> bool {
    !matches!(rt.arg(i, &mut [0u8; 1]), Err(FillError::NotPresent))
}

// Reads to the end of what was opened, or until the room is full.
fn read_open<'a, R: Read>(
    rt: &HostRuntime,
    from: &mut R,
    path: &[u8],
    room: &'a mut [u8],
) -> Result<&'a [u8], Said>
    ensures { IfOk result (λ taken. IsPrefixLen (length taken.now) room.old) }
{
    match read_full(from, room) {
        Ok(size) => Ok(&room[..size]),
        Err(e) => Err(cannot_read(rt, path, &e)),
    }
}

fn read_path<'a>(rt: &HostRuntime, path: &[u8], room: &'a mut [u8]) -> Result<&'a [u8], Said>
    ensures { IfOk result (λ taken. IsPrefixLen (length taken.now) room.old) }
{
    if path == b"-".as_slice() {
        return read_open(rt, &mut rt.stdin(), path, room);
    }
    let name = str::from_utf8(path).map_err(|_| no_text(rt, path))?;
    let mut file = File::open(rt, name).map_err(|e| cannot_read(rt, path, &e))?;
    read_open(rt, &mut file, path, room)
}

// The file that argument i names, as far as the room reaches.
pub(crate) fn take_file<'a>(
    rt: &HostRuntime,
    i: usize,
    room: &'a mut [u8],
) -> Result<&'a [u8], Said>
    ensures { IfOk result (λ taken. IsPrefixLen (length taken.now) room.old) }
{
    let mut path = [0u8; ARGUMENT_ROOM];
    let size = rt
        .arg(i, &mut path)
        .map_err(|_| misuse(rt, b"a file name is missing or too long"))?;
    read_path(rt, &path[..size], room)
}

// The same, and nothing where there is no such argument.
pub(crate) fn take_optional<'a>(
    rt: &HostRuntime,
    i: usize,
    room: &'a mut [u8],
) -> Result<&'a [u8], Said>
    ensures { IfOk result (λ taken. IsPrefixLen (length taken.now) room.old) }
{
    if !has_argument(rt, i) {
        return Ok(&room[..0]);
    }
    take_file(rt, i, room)
}

// The bytes that a word is the digits of.
fn read_word<'a>(rt: &HostRuntime, word: &[u8], room: &'a mut [u8]) -> Result<&'a [u8], Said>
    ensures { IfOk result (λ taken. IsPrefixLen (length taken.now) room.old) }
{
    match hex::read(word, room) {
        Ok(()) => Ok(&room[..word.len() / 2]),
        Err(_) => Err(misuse(
            rt,
            b"a name, an IV or an identifier is two hexadecimal digits for each byte",
        )),
    }
}

// The bytes that argument i is the digits of. One of more than 4,096 digits is too long for any use, and its front shows that as well.
pub(crate) fn take_word<'a>(
    rt: &HostRuntime,
    i: usize,
    room: &'a mut [u8],
) -> Result<&'a [u8], Said>
    ensures { IfOk result (λ taken. IsPrefixLen (length taken.now) room.old) }
{
    let mut word = [0u8; ARGUMENT_ROOM];
    match rt.arg(i, &mut word) {
        Ok(size) => read_word(rt, &word[..size], room),
        Err(FillError::TooLong) => read_word(rt, &word, room),
        Err(FillError::NotPresent) => Err(misuse(rt, b"a name, an IV or an identifier is missing")),
    }
}

// The number that argument i is the decimal digits of.
pub(crate) fn take_number(rt: &HostRuntime, i: usize) -> Result<u64, Said> {
    let mut word = [0u8; ARGUMENT_ROOM];
    decimal::read(argument(rt, i, &mut word)).ok_or_else(|| misuse(
        rt,
        b"a type is a number in decimal digits",
    ))
}
