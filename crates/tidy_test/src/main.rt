// Tidy copies of the texts of standard input, each with all that must hold of it. `stdin` says how a case is written.
#![tactic(auto)]

use limits::Limits;
use std::io;

mod checks;
mod codes;
mod say;
mod texts;

// A text, in a room of its own or in one of so many bytes.
fn tried(rt: &HostRuntime, text: &[u8], bytes: &[u8]) -> io::Result<()> {
    if bytes.is_empty() {
        return checks::all(rt, text);
    }
    checks::in_room(rt, text, cases::worth(bytes))
}

fn case(rt: &HostRuntime, line: &[u8]) -> io::Result<()> {
    let mut text = [0u8; Limits::TEXT + 1];
    let size = texts::written(&mut text, rows::nth(line, b'~', 0));
    tried(rt, base::part(&text, 0, size), rows::nth(line, b'~', 1))
}

fn is_heading(line: &[u8]) -> bool {
    line.first() == Some(&b'#')
}

fn case_or_heading(rt: &HostRuntime, line: &[u8]) -> io::Result<()> {
    say::line(rt, line)?;
    if !is_heading(line) {
        case(rt, line)?;
    }
    Ok(())
}

fn main(rt: HostRuntime) -> io::Result<()> {
    let mut file = [0u8; 8192];
    let n = input::text_of(&mut rt.stdin(), &mut file)?;
    cases::each(
        base::part(&file, 0, n),
        b'\n',
        |line| case_or_heading(&rt, line),
    )
}
