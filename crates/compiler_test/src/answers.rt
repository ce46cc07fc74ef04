// The answer to a text, and what is left in its table.
use base::Refused;
use limits::Limits;
use std::io;
use std::io::Write;
use tables::Counts;
use tells::LISTING;

pub fn say(rt: &HostRuntime, bytes: &[u8]) -> io::Result<()> {
    rt.stdout().write_all(bytes)
}

pub fn say_line(rt: &HostRuntime, bytes: &[u8]) -> io::Result<()> {
    say(rt, bytes)?;
    say(rt, b"\n")
}

// How many numbers of the table are code.
fn numbers(a: Result<Counts, Refused>) -> usize {
    a.map_or(0, |c| c.instructions.saturating_mul(2))
}

// The answer to a text, in the table that is lent; says so where a number past the code is not 0.
pub fn compiled(
    rt: &HostRuntime,
    text: &[u8],
    table: &mut [i32],
) -> io::Result<Result<Counts, Refused>> {
    let a = compiler::compile(text, table);
    if !table.iter().skip(numbers(a)).all(|n| *n == 0) {
        println!(rt; "the table is not clean")?;
    }
    Ok(a)
}

fn say_first_line(rt: &HostRuntime, page: &[u8; LISTING]) -> io::Result<()> {
    say_line(rt, rows::nth(page, b'\n', 0))
}

// The answer without its instructions.
pub fn say_answer(rt: &HostRuntime, a: Result<Counts, Refused>) -> io::Result<()> {
    let mut page = [0u8; LISTING];
    tells::list(a, &[0i32; Limits::INSTRUCTIONS * 2], &mut page);
    say_first_line(rt, &page)
}

fn say_first(rt: &HostRuntime, page: &[u8; LISTING], n: usize) -> io::Result<()> {
    say(rt, base::part(page, 0, n))
}

// The listing of a text, in a table that held other numbers.
pub fn list(rt: &HostRuntime, text: &[u8]) -> io::Result<()> {
    let mut table = [7i32; Limits::INSTRUCTIONS * 2];
    let mut page = [0u8; LISTING];
    let a = compiled(rt, text, &mut table)?;
    let s = tells::list(a, &table, &mut page);
    say_first(rt, &page, s.out)
}
