// What must hold of every text and its copy, in rooms that held other bytes.
use crate::{codes, say};
use std::io;
use tidy::Uncopied;

const ROOM: usize = 60000;

// How long a text's copy is. Past the copy the room is zeros.
fn tidied(rt: &HostRuntime, text: &[u8], room: &mut [u8]) -> io::Result<Result<usize, Uncopied>> {
    let copied = tidy::tidy(text, room);
    let end = copied.unwrap_or(0);
    say::wrong_unless(
        rt,
        room.iter().skip(end).all(|b| *b == 0),
        "the room past the copy is not zeros",
    )?;
    Ok(copied)
}

// The same in the first so many bytes of a room.
fn tidied_in(
    rt: &HostRuntime,
    text: &[u8],
    room: &mut [u8],
    size: usize,
) -> io::Result<Result<usize, Uncopied>> {
    match room.get_mut(..size) {
        Some(part) => tidied(rt, text, part),
        None => Ok(Ok(0)),
    }
}

// The bytes of a copy; where there is none, none.
fn bytes(room: &[u8], copied: Result<usize, Uncopied>) -> &[u8] {
    base::part(room, 0, copied.unwrap_or(0))
}

// The answer in a room of so many bytes.
pub fn in_room(rt: &HostRuntime, text: &[u8], size: usize) -> io::Result<()> {
    let mut room = [7u8; ROOM];
    let copied = tidied_in(rt, text, &mut room, size)?;
    say::answer(rt, copied, bytes(&room, copied))
}

// A room of so many bytes gives this answer and this copy.
fn gives(
    rt: &HostRuntime,
    text: &[u8],
    size: usize,
    wanted: Result<usize, Uncopied>,
    copy: &[u8],
    what: &str,
) -> io::Result<()> {
    let mut room = [7u8; ROOM];
    let copied = tidied_in(rt, text, &mut room, size)?;
    say::wrong_unless(rt, copied == wanted, what)?;
    say::wrong_unless(rt, bytes(&room, copied) == copy, what)
}

fn of_copied(rt: &HostRuntime, text: &[u8], copy: &[u8]) -> io::Result<()> {
    let n = copy.len();
    let no_room = Err(Uncopied::NoRoom);
    gives(rt, text, n, Ok(n), copy, "a room of the copy's length")?;
    if 0 < n {
        gives(rt, text, n - 1, no_room, b"", "a room one byte shorter")?;
        gives(rt, text, 0, no_room, b"", "a room of no bytes")?;
    }
    gives(rt, copy, ROOM, Ok(n), copy, "the copy, tidied again")?;
    codes::of_copied(rt, text, copy)
}

// A refusal goes before the room's length.
fn of_refused(rt: &HostRuntime, text: &[u8], why: Uncopied) -> io::Result<()> {
    gives(rt, text, 1, Err(why), b"", "a room of one byte")?;
    gives(rt, text, 0, Err(why), b"", "a room of no bytes")?;
    codes::of_refused(rt, text, why)
}

pub fn all(rt: &HostRuntime, text: &[u8]) -> io::Result<()> {
    let mut room = [7u8; ROOM];
    let copied = tidied(rt, text, &mut room)?;
    let copy = bytes(&room, copied);
    say::answer(rt, copied, copy)?;
    match copied {
        Ok(_) => of_copied(rt, text, copy),
        Err(why) => of_refused(rt, text, why),
    }
}
