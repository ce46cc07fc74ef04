// Runs each lesson on its readings, and writes what came of it.
#![tactic(auto)]

ghost use Rattle.input.specs.Received.{Receives};

use limits::{Limits, Station};
use std::fs::File;
use std::io;
use std::io::Write;
use std::process::ExitCode;

fn run(rt: &HostRuntime, text: &[u8], readings: &[i32]) -> io::Result<()> {
    let mut room = [0u8; Station::ROOM];
    let mut page = [0u8; tells::PAGE];
    let said = programs::station(text, readings, &mut room, &mut page);
    rt.stdout().write_all(&page[..said.out])
}

// The readings of the file of that name.
fn readings_file(rt: &HostRuntime, path: &str, numbers: &mut [i32]) -> io::Result<usize>
    ensures { Receives result numbers.old numbers.new }
{
    input::readings_of(&mut File::open(rt, path)?, numbers)
}

// Whether it could be read. Where it cannot, that is told.
fn lesson(rt: &HostRuntime, name: &str, readings: &str) -> io::Result<bool> {
    println!(rt; "{name}")?;
    let mut text = [0u8; Limits::TEXT + 1];
    let loaded = input::text_file(rt, name.as_bytes(), &mut text);
    let Some(size) = desk::told(rt, name.as_bytes(), loaded) else {
        return Ok(false);
    };
    let mut numbers = [0i32; Station::READINGS];
    let received = readings_file(rt, readings, &mut numbers);
    let Some(count) = desk::told(rt, readings.as_bytes(), received) else {
        return Ok(false);
    };
    run(rt, &text[..size], &numbers[..count])?;
    Ok(true)
}

// The text of each lesson, and its readings. Whole names: one that is put together would be a `String`, which is heap.
const LESSONS: [(&str, &str); 9] = [
    ("bench_switch.o", "bench_switch.readings"),
    ("ice_bowl.o", "ice_bowl.readings"),
    ("countdown.o", "countdown.readings"),
    ("average.o", "average.readings"),
    ("two_sensors.o", "two_sensors.readings"),
    ("hello.o", "hello.readings"),
    ("sum.o", "sum.readings"),
    ("primes.o", "primes.readings"),
    ("factorial.o", "factorial.readings"),
];

fn main(rt: HostRuntime) -> io::Result<ExitCode> {
    let mut all = true;
    for (name, readings) in LESSONS {
        all &= lesson(&rt, name, readings)?;
    }
    Ok(desk::end_with(if all { 0 } else { desk::TROUBLE }))
}
