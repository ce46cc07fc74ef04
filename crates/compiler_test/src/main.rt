// The cases of standard input through the compiler: document 01's examples and edges, document 001's programs, and two faults of each
// pair of classes in either order of place: the class decides before the place, and within a class the place.
// A case is a text, whose listing is written; or, between bars, a text and how many numbers its table has; a heading with two bars;
// or a text at a limit: its beginning, what is put so many times, how many, its middle, and what closes it as often.
#![tactic(auto)]

use std::io;

mod answers;
mod edges;

fn at_a_limit(rt: &HostRuntime, c: &[u8]) -> io::Result<()> {
    edges::nested(
        rt,
        rows::nth(c, b'|', 0),
        rows::nth(c, b'|', 1),
        cases::worth(rows::nth(c, b'|', 2)),
        rows::nth(c, b'|', 3),
        rows::nth(c, b'|', 4),
    )
}

fn listed(rt: &HostRuntime, text: &[u8]) -> io::Result<()> {
    answers::say_line(rt, text)?;
    answers::list(rt, text)
}

fn case(rt: &HostRuntime, c: &[u8]) -> io::Result<()> {
    let first = rows::nth(c, b'|', 0);
    match cases::count(c, b'|') {
        0 => listed(rt, c),
        1 => edges::short(rt, first, cases::worth(rows::nth(c, b'|', 1))),
        2 => answers::say_line(rt, first),
        _ => at_a_limit(rt, c),
    }
}

fn main(rt: HostRuntime) -> io::Result<()> {
    let mut file = [0u8; 8192];
    let n = input::text_of(&mut rt.stdin(), &mut file)?;
    cases::put_meant(&mut file);
    cases::each(base::part(&file, 0, n), cases::END, |c| case(&rt, c))
}
