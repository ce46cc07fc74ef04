// Places at the edges of a text and of a line, each with its line, its column, where its line begins, and the line with its mark.
// A case of standard input is a label, a text and a place, between bars; those after `#` come after the longest line.
#![tactic(auto)]

use limits::Limits;
use std::io;
use std::io::Write;

fn see(rt: &HostRuntime, label: &[u8], text: &[u8], place: usize) -> io::Result<()> {
    let mut page = [0u8; 400];
    let spot = place::spot_of(text, place);
    let a = lines::put(&mut page, 0, label);
    let b = lines::fill(
        &mut page,
        a,
        b": #:# from #\n",
        &[spot.line as u64, spot.column as u64, spot.start as u64],
    );
    let c = marks::put_marked_line(&mut page, b, text, place);
    rt.stdout().write_all(base::part(&page, 0, c))
}

fn longest_line(rt: &HostRuntime) -> io::Result<()> {
    let mut text = [b'-'; Limits::TEXT];
    text[0] = b'<';
    text[40000] = b'X';
    text[Limits::TEXT - 1] = b'>';
    see(rt, b"49152 bytes, at 0", &text, 0)?;
    see(rt, b"49152 bytes, at 40000", &text, 40000)?;
    see(rt, b"49152 bytes, at 49152", &text, Limits::TEXT)?;
    text[39900] = b'\n';
    see(
        rt,
        b"49152 bytes, a line feed at 39900, at 39900",
        &text,
        39900,
    )?;
    see(
        rt,
        b"49152 bytes, a line feed at 39900, at 40000",
        &text,
        40000,
    )
}

// A page that is too short keeps what there is room for.
fn short_page(rt: &HostRuntime) -> io::Result<()> {
    let mut page = [b'#'; 12];
    let n = marks::put_marked_line(&mut page, 1, b"DO PRINTI n", 3);
    rt.stdout().write_all(base::part(&page, 0, n))?;
    rt.stdout().write_all(b"\n")
}

fn case(rt: &HostRuntime, c: &[u8]) -> io::Result<()> {
    see(
        rt,
        rows::nth(c, b'|', 0),
        rows::nth(c, b'|', 1),
        cases::worth(rows::nth(c, b'|', 2)),
    )
}

fn each(rt: &HostRuntime, all: &[u8]) -> io::Result<()> {
    cases::each(all, cases::END, |c| case(rt, c))
}

fn tried(rt: &HostRuntime, all: &[u8]) -> io::Result<()> {
    each(rt, rows::nth(all, b'#', 0))?;
    longest_line(rt)?;
    each(rt, rows::nth(all, b'#', 1))
}

fn main(rt: HostRuntime) -> io::Result<()> {
    let mut file = [0u8; 8192];
    let n = input::text_of(&mut rt.stdin(), &mut file)?;
    cases::put_meant(&mut file);
    tried(&rt, base::part(&file, 0, n))?;
    short_page(&rt)
}
