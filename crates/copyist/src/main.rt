// A tidy copy of the text on standard input, or the line of its refusal.
#![tactic(auto)]

use limits::Limits;
use std::process::ExitCode;

fn copy(rt: &HostRuntime, text: &[u8]) -> ExitCode {
    let mut page = [0u8; programs::COPY];
    let said = programs::copy(text, &mut page);
    desk::deliver(rt, &page[..said.out], b"", tells::number(said.status))
}

fn main(rt: HostRuntime) -> ExitCode {
    let mut text = [0u8; Limits::TEXT + 1];
    desk::with_text(&rt, &mut text, |text| copy(&rt, text))
}
