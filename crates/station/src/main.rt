// Runs the text file that its argument names on the readings of standard input: the output, a line end, and how the run ended.
#![tactic(auto)]

use limits::{Limits, Station};
use std::process::ExitCode;

fn run(rt: &HostRuntime, text: &[u8], readings: &[i32]) -> ExitCode {
    let mut room = [0u8; Station::ROOM];
    let mut page = [0u8; tells::PAGE];
    let said = programs::station(text, readings, &mut room, &mut page);
    desk::deliver(rt, &page[..said.out], b"", tells::number(said.status))
}

fn main(rt: HostRuntime) -> ExitCode {
    let mut text = [0u8; Limits::TEXT + 1];
    let mut numbers = [0i32; Station::READINGS];
    desk::with_lesson(
        &rt,
        &mut text,
        &mut numbers,
        |text, readings| run(&rt, text, readings),
    )
}
