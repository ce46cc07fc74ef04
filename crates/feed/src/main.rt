// As station, for the feed: standard output gets the output of a run with ending 0 and nothing else; why nothing may be sent is said on standard error.
#![tactic(auto)]

use limits::{Limits, Station};
use std::process::ExitCode;

fn send(rt: &HostRuntime, text: &[u8], readings: &[i32]) -> ExitCode {
    let mut room = [0u8; Station::ROOM];
    let mut page = [0u8; tells::PAGE];
    let mut note = [0u8; tells::LINE];
    let said = programs::feed(text, readings, &mut room, &mut page, &mut note);
    desk::deliver(
        rt,
        &page[..said.out],
        &note[..said.err],
        tells::number(said.status),
    )
}

fn main(rt: HostRuntime) -> ExitCode {
    let mut text = [0u8; Limits::TEXT + 1];
    let mut numbers = [0i32; Station::READINGS];
    desk::with_lesson(
        &rt,
        &mut text,
        &mut numbers,
        |text, readings| send(&rt, text, readings),
    )
}
