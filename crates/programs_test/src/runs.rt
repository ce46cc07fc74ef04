// A text and its readings through the programs, with rooms and pages that held other bytes.
use crate::say;
use base::Refused;
use limits::Station;
use machine::Report;
use std::io;
use tells::Said;

fn listed(rt: &HostRuntime, s: Said, page: &[u8; tells::LISTING]) -> io::Result<()> {
    say::said(rt, b"listing", s, page, b"")
}

fn listing(rt: &HostRuntime, text: &[u8]) -> io::Result<()> {
    let mut page = [b'#'; tells::LISTING];
    let s = programs::listing(text, &mut page);
    listed(rt, s, &page)
}

fn said(
    rt: &HostRuntime,
    name: &[u8],
    s: Said,
    page: &[u8; tells::PAGE],
    note: &[u8; tells::LINE],
) -> io::Result<()> {
    say::said(rt, name, s, page, note)
}

pub fn station(rt: &HostRuntime, text: &[u8], numbers: &[i32]) -> io::Result<()> {
    let mut room = [7u8; Station::ROOM];
    let mut page = [b'#'; tells::PAGE];
    let s = programs::station(text, numbers, &mut room, &mut page);
    said(rt, b"station", s, &page, &[b'#'; tells::LINE])
}

fn feed(rt: &HostRuntime, text: &[u8], numbers: &[i32]) -> io::Result<()> {
    let mut room = [7u8; Station::ROOM];
    let mut page = [b'#'; tells::PAGE];
    let mut note = [b'#'; tells::LINE];
    let s = programs::feed(text, numbers, &mut room, &mut page, &mut note);
    said(rt, b"feed", s, &page, &note)
}

// The room past the output is as it was.
fn left(
    rt: &HostRuntime,
    came: Result<Report, Refused>,
    room: &[u8; Station::ROOM],
) -> io::Result<()> {
    say::left(rt, room, came.map_or(0, |r| r.length), 7)
}

fn lesson(rt: &HostRuntime, text: &[u8], numbers: &[i32]) -> io::Result<()> {
    let mut room = [7u8; Station::ROOM];
    let c = programs::lesson(text, numbers, &mut room);
    left(rt, c, &room)
}

pub fn all(rt: &HostRuntime, text: &[u8], numbers: &[i32]) -> io::Result<()> {
    listing(rt, text)?;
    station(rt, text, numbers)?;
    feed(rt, text, numbers)?;
    lesson(rt, text, numbers)
}

// The first so many numbers.
pub fn first(numbers: &[i32], n: usize) -> &[i32] {
    numbers.get(..n).unwrap_or(numbers)
}
