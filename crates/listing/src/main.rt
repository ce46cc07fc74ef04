// The listing of the text on standard input, or the line of its refusal.
#![tactic(auto)]

use limits::Limits;
use std::process::ExitCode;

fn list(rt: &HostRuntime, text: &[u8]) -> ExitCode {
    let mut page = [0u8; tells::LISTING];
    let said = programs::listing(text, &mut page);
    desk::deliver(rt, &page[..said.out], b"", tells::number(said.status))
}

fn main(rt: HostRuntime) -> ExitCode {
    let mut text = [0u8; Limits::TEXT + 1];
    desk::with_text(&rt, &mut text, |text| list(&rt, text))
}
