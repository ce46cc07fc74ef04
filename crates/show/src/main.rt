// What came of the text file that its argument names, on the readings of standard input, in plain words.
#![tactic(auto)]

use limits::{Limits, Station};
use std::process::ExitCode;

fn show(rt: &HostRuntime, text: &[u8], readings: &[i32]) -> ExitCode {
    let mut room = [0u8; Station::ROOM];
    let came = programs::lesson(text, readings, &mut room);
    let mut page = [0u8; pupil::SHOWN];
    let said = pupil::show(came, words::of_the_paper(), text, &room, &mut page);
    desk::deliver(rt, &page[..said.out], b"", tells::number(said.status))
}

fn main(rt: HostRuntime) -> ExitCode {
    let mut text = [0u8; Limits::TEXT + 1];
    let mut numbers = [0i32; Station::READINGS];
    desk::with_lesson(
        &rt,
        &mut text,
        &mut numbers,
        |text, readings| show(&rt, text, readings),
    )
}
