// The readings of the inputs of standard input, a line for each: how many there are, and which; and when it is told that they are over.
// A case is a label and two chunks of an input, and where there is more before them, how often and what. Between semicolons it is asked for its
// readings, and between bars, after each of the two chunks, whether they are over.
#![tactic(auto)]

use readings::{Reader, finish, is_over, more, start};
use std::io;
use std::io::Write;

fn say(rt: &HostRuntime, text: &[u8]) -> io::Result<()> {
    rt.stdout().write_all(text)
}

// The numbers from a place up to another.
fn say_numbers(rt: &HostRuntime, numbers: &[i32], from: usize, to: usize) -> io::Result<()> {
    for z in numbers.iter().take(to).skip(from) {
        print!(rt; " {z}")?;
    }
    Ok(())
}

// Of many readings the last two are said.
fn first_said(n: usize) -> usize {
    if n < 9 { 0 } else { n - 2 }
}

fn say_readings(rt: &HostRuntime, numbers: &[i32], n: usize) -> io::Result<()> {
    print!(rt; ": {n} readings:")?;
    say_numbers(rt, numbers, first_said(n), n)
}

// A chunk so many times.
fn again(chunk: &[u8], times: usize, numbers: &mut [i32]) -> Reader {
    let mut reader = start();
    for _ in 0..times {
        reader = more(reader, chunk, numbers);
    }
    reader
}

fn before(c: &[u8], mark: u8, numbers: &mut [i32]) -> Reader {
    again(
        rows::nth(c, mark, 4),
        cases::worth(rows::nth(c, mark, 3)),
        numbers,
    )
}

// How many readings there are.
fn read(c: &[u8], numbers: &mut [i32]) -> usize {
    let r = before(c, b';', numbers);
    let s = more(r, rows::nth(c, b';', 1), numbers);
    let t = more(s, rows::nth(c, b';', 2), numbers);
    finish(t, numbers)
}

fn show(rt: &HostRuntime, c: &[u8]) -> io::Result<()> {
    let mut numbers = [0i32; 4096];
    let n = read(c, &mut numbers);
    say_readings(rt, &numbers, n)
}

// What is told after one chunk more.
fn told(rt: &HostRuntime, r: Reader, chunk: &[u8], numbers: &mut [i32]) -> io::Result<Reader> {
    let s = more(r, chunk, numbers);
    let told = if is_over(s, numbers) {
        "over"
    } else {
        "not over"
    };
    print!(rt; "{told}")?;
    Ok(s)
}

fn tell(rt: &HostRuntime, c: &[u8]) -> io::Result<()> {
    let mut numbers = [0i32; 4096];
    let r = before(c, b'|', &mut numbers);
    print!(rt; ": ")?;
    let s = told(rt, r, rows::nth(c, b'|', 1), &mut numbers)?;
    print!(rt; ", then ")?;
    told(rt, s, rows::nth(c, b'|', 2), &mut numbers)?;
    Ok(())
}

fn case(rt: &HostRuntime, c: &[u8]) -> io::Result<()> {
    if 0 < cases::count(c, b'|') {
        say(rt, rows::nth(c, b'|', 0))?;
        return tell(rt, c);
    }
    say(rt, rows::nth(c, b';', 0))?;
    show(rt, c)
}

fn main(rt: HostRuntime) -> io::Result<()> {
    let mut file = [0u8; 4096];
    let n = input::text_of(&mut rt.stdin(), &mut file)?;
    cases::put_meant(&mut file);
    cases::each(base::part(&file, 0, n), cases::END, |c| {
        case(&rt, c)?;
        println!(rt)
    })
}
