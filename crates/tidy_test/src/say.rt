// What is written of a case.
use std::io;
use std::io::Write;
use tidy::Uncopied;

pub fn line(rt: &HostRuntime, bytes: &[u8]) -> io::Result<()> {
    rt.stdout().write_all(bytes)?;
    println!(rt; "")
}

// Says what is wrong, where it is.
pub fn wrong_unless(rt: &HostRuntime, holds: bool, what: &str) -> io::Result<()> {
    if !holds {
        println!(rt; "WRONG: {what}")?;
    }
    Ok(())
}

// The byte that stands in a case for one that would not show.
fn sign(b: u8) -> u8 {
    match b {
        10 => b'$',
        9 => b'&',
        13 => b'%',
        0 => b'@',
        _ => b,
    }
}

// A longer copy is not shown.
const SHOWN: usize = 400;

fn copy(rt: &HostRuntime, bytes: &[u8]) -> io::Result<()> {
    let mut page = [0u8; SHOWN];
    let Some(shown) = page.get_mut(..bytes.len()) else {
        return Ok(());
    };
    for (to, from) in shown.iter_mut().zip(bytes) {
        *to = sign(*from);
    }
    line(rt, shown)
}

// `copied N` and the copy, or `refused N P`.
pub fn answer(rt: &HostRuntime, copied: Result<usize, Uncopied>, bytes: &[u8]) -> io::Result<()> {
    let [refusal, place, size] = tidy::numbers(copied);
    if refusal != 0 {
        return println!(rt; "refused {refusal} {place}");
    }
    println!(rt; "copied {size}")?;
    copy(rt, bytes)
}
