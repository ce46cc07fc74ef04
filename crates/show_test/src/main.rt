// What `show` says of texts: every refusal, with each of its reasons, and every ending that a text can have.
// A case of standard input is a text, a bar and an input; those after `#` come after the texts that are refused as a whole.
#![tactic(auto)]

use limits::{Limits, Station};
use std::io;
use std::io::Write;
use tells::Said;

fn said(rt: &HostRuntime, s: Said, page: &[u8; pupil::SHOWN]) -> io::Result<()> {
    rt.stdout().write_all(base::part(page, 0, s.out))?;
    let status = tells::number(s.status);
    println!(rt; "status {status}")
}

// The text, run on readings that stand in so many of the numbers.
fn see_run(rt: &HostRuntime, text: &[u8], numbers: &[i32], count: usize) -> io::Result<()> {
    if numbers.len() < count {
        return Ok(());
    }
    let mut room = [7u8; Station::ROOM];
    let came = programs::lesson(text, &numbers[..count], &mut room);
    let mut page = [7u8; pupil::SHOWN];
    let s = pupil::show(came, words::of_the_paper(), text, &room, &mut page);
    said(rt, s, &page)
}

fn see(rt: &HostRuntime, text: &[u8], input: &[u8]) -> io::Result<()> {
    let mut numbers = [0i32; Station::READINGS];
    let reader = readings::more(readings::start(), input, &mut numbers);
    let count = readings::finish(reader, &mut numbers);
    see_run(rt, text, &numbers, count)
}

fn one_or_plus(i: usize) -> u8 {
    if i % 2 == 0 {
        return b'1';
    }
    b'+'
}

// Ones, and a plus between any two.
fn put_sum(text: &mut [u8]) {
    for (i, b) in text.iter_mut().enumerate() {
        *b = one_or_plus(i);
    }
}

// A sum of so many ones that its code is one instruction too long: it has eight fewer than the text has bytes.
fn too_much_code(rt: &HostRuntime) -> io::Result<()> {
    let mut text = [0u8; Limits::INSTRUCTIONS + 9];
    put_sum(&mut text);
    lines::put(&mut text, 0, b"DO PRINTI ");
    see(rt, &text, b"")
}

fn whole_texts(rt: &HostRuntime) -> io::Result<()> {
    let long = [b' '; Limits::TEXT + 1];
    see(rt, &long, b"")?;
    too_much_code(rt)
}

fn case(rt: &HostRuntime, c: &[u8]) -> io::Result<()> {
    see(rt, rows::nth(c, b'|', 0), rows::nth(c, b'|', 1))
}

fn each(rt: &HostRuntime, all: &[u8]) -> io::Result<()> {
    cases::each(all, cases::END, |c| case(rt, c))
}

fn tried(rt: &HostRuntime, all: &[u8]) -> io::Result<()> {
    each(rt, rows::nth(all, b'#', 0))?;
    whole_texts(rt)?;
    each(rt, rows::nth(all, b'#', 1))
}

fn main(rt: HostRuntime) -> io::Result<()> {
    let mut file = [0u8; 8192];
    let n = input::text_of(&mut rt.stdin(), &mut file)?;
    cases::put_meant(&mut file);
    tried(&rt, base::part(&file, 0, n))
}
