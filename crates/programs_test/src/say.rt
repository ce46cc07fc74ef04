// What a program said: standard output, standard error and the status, each after its name.
ghost use Rattle.std.specs.Prelude.{◌≤◌, length};

use std::io;
use std::io::Write;
use tells::Said;

fn write(rt: &HostRuntime, bytes: &[u8]) -> io::Result<()> {
    rt.stdout().write_all(bytes)
}

fn number(rt: &HostRuntime, name: &[u8], n: u64) -> io::Result<()> {
    write(rt, name)?;
    print!(rt; "{n}")
}

// A case, the bytes of its text and its readings.
pub fn case(rt: &HostRuntime, line: &[u8], size: usize, readings: usize) -> io::Result<()> {
    write(rt, b"== ")?;
    write(rt, line)?;
    number(rt, b"\nbytes ", size as u64)?;
    number(rt, b" readings ", readings as u64)?;
    write(rt, b"\n")
}

// Where the line begins that ends before a place.
fn line_start(bytes: &[u8], end: usize) -> usize
    requires { end ≤ length bytes.now }
    ensures { result ≤ length bytes.now }
{
    for i in (1..end).rev() {
        if bytes[i - 1] == b'\n' {
            return i;
        }
    }
    0
}

// The first line and the last two of many bytes.
fn ends(rt: &HostRuntime, bytes: &[u8]) -> io::Result<()> {
    let last = line_start(bytes, bytes.len());
    let start = line_start(bytes, last);
    write(rt, rows::nth(bytes, b'\n', 0))?;
    write(rt, b"\n..\n")?;
    write(rt, &bytes[start..])
}

// Says so where the last line has no end.
fn line_end(rt: &HostRuntime, bytes: &[u8]) -> io::Result<()> {
    match bytes.last() {
        None | Some(b'\n') => Ok(()),
        _ => write(rt, b"\n\\ no line end\n"),
    }
}

// How many bytes there are, where not all are shown.
fn shown(rt: &HostRuntime, bytes: &[u8]) -> io::Result<()> {
    if bytes.len() <= 100 {
        write(rt, bytes)?;
        return line_end(rt, bytes);
    }
    ends(rt, bytes)?;
    line_end(rt, bytes)?;
    number(rt, b".. bytes ", bytes.len() as u64)?;
    write(rt, b"\n")
}

fn is_left(page: &[u8], from: usize, filler: u8) -> bool {
    page.iter().skip(from).all(|b| *b == filler)
}

// Says so where a byte past what was said is not as it was.
pub fn left(rt: &HostRuntime, page: &[u8], from: usize, filler: u8) -> io::Result<()> {
    if !is_left(page, from, filler) {
        write(rt, b"a byte past it was changed\n")?;
    }
    Ok(())
}

// So many bytes of a page that was filled with `#`.
fn stream(rt: &HostRuntime, name: &[u8], page: &[u8], n: usize) -> io::Result<()> {
    write(rt, name)?;
    shown(rt, base::part(page, 0, n))?;
    left(rt, page, n, b'#')
}

pub fn said(rt: &HostRuntime, name: &[u8], s: Said, out: &[u8], err: &[u8]) -> io::Result<()> {
    write(rt, name)?;
    number(rt, b" status ", s.status as u64)?;
    stream(rt, b"\nout:\n", out, s.out)?;
    stream(rt, b"err:\n", err, s.err)
}
