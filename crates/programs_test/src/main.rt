// What the programs say of each case of standard input, from bytes to bytes. `stdin` says how a case is written.
#![tactic(auto)]

use limits::{Limits, Station};
use std::io;

mod runs;
mod say;
mod texts;

// How many readings an input has, which comes in two chunks.
fn received(one: &[u8], two: &[u8], numbers: &mut [i32]) -> usize {
    let a = readings::more(readings::start(), one, numbers);
    let b = readings::more(a, two, numbers);
    readings::finish(b, numbers)
}

// The same of an input with a bar where its second chunk begins.
fn cut(input: &[u8], numbers: &mut [i32]) -> usize {
    received(
        rows::nth(input, b'|', 0),
        rows::nth(input, b'|', 1),
        numbers,
    )
}

fn read(line: &[u8], numbers: &mut [i32]) -> usize {
    let mut input = [0u8; 8256];
    let n = texts::written(&mut input, line);
    cut(base::part(&input, 0, n), numbers)
}

// An input alone is seen by a text that reads and prints until there is none.
fn run(rt: &HostRuntime, line: &[u8], text: &[u8], numbers: &[i32]) -> io::Result<()> {
    if text.len() < 1 && 0 < line.len() {
        return runs::station(
            rt,
            b"DO { INT n WHILE 1 = 1 DO { READ n PRINTI n PRINTS \";\" } }",
            numbers,
        );
    }
    runs::all(rt, text, numbers)
}

// A line and its text.
fn with_text(rt: &HostRuntime, line: &[u8], text: &[u8]) -> io::Result<()> {
    let mut numbers = [0i32; Station::READINGS];
    let n = read(rows::nth(line, b'~', 1), &mut numbers);
    say::case(rt, line, text.len(), n)?;
    run(rt, line, text, runs::first(&numbers, n))
}

// A line: a text, or a text, a tilde and an input, or only the tilde and the input.
fn case(rt: &HostRuntime, line: &[u8]) -> io::Result<()> {
    let mut text = [0u8; Limits::TEXT + 1];
    let size = texts::written(&mut text, rows::nth(line, b'~', 0));
    with_text(rt, line, base::part(&text, 0, size))
}

fn case_or_comment(rt: &HostRuntime, line: &[u8]) -> io::Result<()> {
    match line.first() {
        Some(b'#') => Ok(()),
        _ => case(rt, line),
    }
}

fn main(rt: HostRuntime) -> io::Result<()> {
    let mut file = [0u8; 8192];
    let n = input::text_of(&mut rt.stdin(), &mut file)?;
    cases::each(
        base::part(&file, 0, n),
        b'\n',
        |line| case_or_comment(&rt, line),
    )
}
