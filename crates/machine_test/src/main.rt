// Runs the tables of standard input, a line each:
//   label: budget cells room |readings|text|table
// and writes a line for each: label, ending, steps, readings used, output, and whether the room past it is untouched and the stack clean.
#![tactic(auto)]

use machine::Report;
use std::io;
use std::io::Write;

// A run starts with a stack of this and a room of that.
const DIRT: i32 = 77;

const MARK: u8 = b'~';

fn say(rt: &HostRuntime, bytes: &[u8]) -> io::Result<()> {
    rt.stdout().write_all(bytes)
}

fn say_report(rt: &HostRuntime, r: Report) -> io::Result<()> {
    print!(rt; ": ending {} steps {} used {}", r.ending, r.steps, r.used)
}

// Between quotes, a line end as \n.
fn say_output(rt: &HostRuntime, out: &[u8]) -> io::Result<()> {
    print!(rt; " \"")?;
    for b in out {
        if *b == b'\n' {
            print!(rt; "\\n")?;
        } else {
            say(rt, &[*b])?;
        }
    }
    print!(rt; "\"")
}

fn say_whether(rt: &HostRuntime, so: bool, what: &str) -> io::Result<()> {
    if !so {
        print!(rt; " NOT")?;
    }
    print!(rt; " {what}")
}

fn is_untouched(room: &[u8]) -> bool {
    room.iter().all(|b| *b == MARK)
}

// The cells that were lent are 0, and no other was touched.
fn is_clean(stack: &[i32], lent: usize) -> bool {
    stack.iter().take(lent).all(|n| *n == 0) && stack.iter().skip(lent).all(|n| *n == DIRT)
}

// The budget, and how many cells and bytes are lent.
#[derive(Clone, Copy)]
struct Lent {
    budget: u32,
    cells: usize,
    room: usize,
}

// A run that is lent the first cells of a stack and the first bytes of a room.
fn run(rt: &HostRuntime, text: &[u8], table: &[i32], readings: &[i32], l: Lent) -> io::Result<()> {
    let mut stack = [DIRT; 8];
    let mut room = [MARK; 64];
    let cells = l.cells.min(8);
    let bytes = l.room.min(64);
    let r = machine::run(
        text,
        table,
        readings,
        l.budget,
        &mut stack[..cells],
        &mut room[..bytes],
    );
    say_report(rt, r)?;
    say_output(rt, base::part(&room, 0, r.length))?;
    say_whether(
        rt,
        is_untouched(base::part(&room, r.length, 64)),
        "room untouched",
    )?;
    say_whether(rt, is_clean(&stack, l.cells), "stack clean\n")
}

// The numbers of some bytes, and how many.
fn numbers(bytes: &[u8], into: &mut [i32]) -> usize {
    let r = readings::more(readings::start(), bytes, into);
    readings::finish(r, into)
}

fn first(numbers: &[i32], n: usize) -> &[i32] {
    numbers.get(..n).unwrap_or(numbers)
}

// A number below zero stands for the largest.
fn natural(n: i32) -> u32 {
    u32::try_from(n).unwrap_or(u32::MAX)
}

fn lent_by(bytes: &[u8]) -> Lent {
    let mut three = [0i32; 3];
    numbers(bytes, &mut three);
    let [budget, cells, room] = three;
    Lent {
        budget: natural(budget),
        cells: natural(cells) as usize,
        room: natural(room) as usize,
    }
}

fn case(rt: &HostRuntime, s: &[u8]) -> io::Result<()> {
    let mut table = [0i32; 64];
    let mut given = [0i32; 8];
    let t = numbers(rows::nth(s, b'|', 3), &mut table);
    let g = numbers(rows::nth(s, b'|', 1), &mut given);
    let l = lent_by(rows::nth(rows::nth(s, b'|', 0), b':', 1));
    run(
        rt,
        rows::nth(s, b'|', 2),
        first(&table, t),
        first(&given, g),
        l,
    )
}

// A line that has not the four parts is a heading.
fn line(rt: &HostRuntime, s: &[u8]) -> io::Result<()> {
    if cases::count(s, b'|') < 3 {
        say(rt, s)?;
        return println!(rt; "");
    }
    say(rt, rows::nth(s, b':', 0))?;
    case(rt, s)
}

fn main(rt: HostRuntime) -> io::Result<()> {
    let mut input = [0u8; 16384];
    let n = input::text_of(&mut rt.stdin(), &mut input)?;
    cases::each(base::part(&input, 0, n), b'\n', |s| line(&rt, s))
}
