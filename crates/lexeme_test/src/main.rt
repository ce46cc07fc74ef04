// The lexemes of the texts of standard input, a line for each: the bench examples, document 001's listings 3.1, 3.2, 3.3 and 6.2, every
// lexeme, what is none, and the edges. A case is a label, a bar and a text, or a text that is its own label.
#![tactic(auto)]

use base::Refused;
use lexeme::{Fixed, Kind, Lexeme};
use limits::Limits;
use std::io;
use std::io::Write;

fn say(rt: &HostRuntime, text: &[u8]) -> io::Result<()> {
    rt.stdout().write_all(text)
}

fn say_kind(rt: &HostRuntime, kind: Kind) -> io::Result<()> {
    match kind {
        Kind::Literal(n) => print!(rt; " literal {n}"),
        Kind::Name => print!(rt; " name"),
        Kind::Class => print!(rt; " class"),
        Kind::Str => print!(rt; " string"),
        Kind::Fixed(f) => print!(rt; " fixed {}", lexeme::number(f)),
    }
}

fn say_lexeme(rt: &HostRuntime, l: Lexeme) -> io::Result<()> {
    say_kind(rt, l.kind)?;
    print!(rt; " {}-{},", l.place, l.end)
}

fn say_last(rt: &HostRuntime, last: Result<Lexeme, Refused>) -> io::Result<()> {
    match last {
        Ok(_) => print!(rt; " end"),
        Err(refused) => print!(rt; " refused {} {}", base::number(refused.why), refused.place),
    }
}

fn say_lexemes(rt: &HostRuntime, text: &[u8]) -> io::Result<()> {
    let mut at = 0;
    loop {
        let next = lexer::next(text, at);
        let Ok(l) = next else {
            return say_last(rt, next);
        };
        if l.kind == Kind::Fixed(Fixed::End) {
            return say_last(rt, next);
        }
        say_lexeme(rt, l)?;
        at = l.end;
    }
}

// A text's label, lexemes and scan.
fn show(rt: &HostRuntime, label: &[u8], text: &[u8]) -> io::Result<()> {
    say(rt, label)?;
    print!(rt; ":")?;
    say_lexemes(rt, text)?;
    print!(rt; "; scan")?;
    say_last(rt, scan::scan(text))?;
    println!(rt; "")
}

// A text as its own label.
fn see(rt: &HostRuntime, text: &[u8]) -> io::Result<()> {
    show(rt, text, text)
}

// A label and a text.
fn case(rt: &HostRuntime, c: &[u8]) -> io::Result<()> {
    if cases::count(c, b'|') < 1 {
        return see(rt, c);
    }
    show(rt, rows::nth(c, b'|', 0), rows::nth(c, b'|', 1))
}

fn say_long(rt: &HostRuntime, label: &[u8], text: &[u8]) -> io::Result<()> {
    say(rt, label)?;
    if scan::too_long(text) {
        println!(rt; ": too long")
    } else {
        println!(rt; ": not too long")
    }
}

fn lengths(rt: &HostRuntime) -> io::Result<()> {
    let most = [b' '; Limits::TEXT];
    say_long(rt, b"49152 bytes", &most)?;
    let over = [b' '; Limits::TEXT + 1];
    say_long(rt, b"49153 bytes", &over)
}

fn main(rt: HostRuntime) -> io::Result<()> {
    let mut file = [0u8; 8192];
    let n = input::text_of(&mut rt.stdin(), &mut file)?;
    cases::put_meant(&mut file);
    cases::each(base::part(&file, 0, n), cases::END, |c| case(&rt, c))?;
    lengths(&rt)
}
