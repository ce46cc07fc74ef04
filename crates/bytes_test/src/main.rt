// What is handed a closure for a test of bytes: whether such a byte stands at a place, where their run from there ends, how many there are, and
// how long their run at the beginning is. A case of standard input is one byte or more, a text and a place, between bars; it is tried with a
// closure that holds those bytes, and with a function, for letters.
#![tactic(auto)]

use std::io;
use std::io::Write;

fn see<F: Fn(u8) -> bool>(rt: &HostRuntime, text: &[u8], place: usize, such: F) -> io::Result<()>
    requires { F.IsAlwaysCallable such }
{
    let there = base::is_at(text, place, |b| such(b));
    let end = base::run_end(text, place, |b| such(b));
    let all = place::count(text, |b| such(b));
    let front = place::run(text, |b| such(b));
    println!(rt; ": {} {end} {all} {front}", there as u8)
}

fn case(rt: &HostRuntime, c: &[u8]) -> io::Result<()> {
    let byte = rows::nth(c, b'|', 0);
    let text = rows::nth(c, b'|', 1);
    let place = cases::worth(rows::nth(c, b'|', 2));
    rt.stdout().write_all(c)?;
    see(rt, text, place, |b| byte.contains(&b))?;
    rt.stdout().write_all(b"letters")?;
    see(rt, text, place, base::is_letter)
}

fn main(rt: HostRuntime) -> io::Result<()> {
    let mut file = [0u8; 4096];
    let n = input::text_of(&mut rt.stdin(), &mut file)?;
    cases::put_meant(&mut file);
    cases::each(base::part(&file, 0, n), cases::END, |c| case(&rt, c))
}
