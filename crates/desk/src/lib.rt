// The programs and the outside: their files are read, what they say is written, and what goes wrong there is told.
#![tactic(auto)]

ghost use Rattle.std.specs.Prelude.{◌≡◌, ◌⊎◌, ◌≤◌, List, ℕ, length, IfSome};
ghost use Rattle.std.specs.Process.{exit_status};
ghost use Rattle.std.specs.Result.{result_ok};
ghost use Rattle.readings.specs.Readings.{readings};
ghost use Rattle.input.specs.Received.{AreReadings};
ghost use Rattle.desk.specs.Lessons.{Brings};

use std::env::Env;
use std::io;
use std::io::{Error, ErrorKind, Write};
use std::process::ExitCode;

// The status of a program that could not do its work. A number and no variant of `tells::Status`: what a program says of a text is never trouble.
pub const TROUBLE: u8 = 2;

// Bytes of a file's name, at most.
const PATH: usize = 4096;

// Where `./o` hears the status.
pub fn end_with(status: u8) -> ExitCode
    ensures { exit_status result ≡ status }
{
    ExitCode::from(status)
}

// What is wrong, with the system's own reason. Where nobody hears it, the status still tells.
pub fn trouble(rt: &HostRuntime, what: &[u8], why: &Error) -> ExitCode
    ensures { exit_status result ≡ TROUBLE }
{
    let _heard = say_trouble(rt, what, why);
    end_with(TROUBLE)
}

fn say_trouble(rt: &HostRuntime, what: &[u8], why: &Error) -> io::Result<()> {
    rt.stderr().write_all(what)?;
    eprintln!(rt; ": {why}")
}

// What came of reading. Where nothing could be read, that is told.
pub fn told<T: Drop>(rt: &HostRuntime, what: &[u8], came: io::Result<T>) -> Option<T>
    ensures { result ≡ result_ok came }
{
    came.inspect_err(|why| {
        trouble(rt, what, why);
    })
    .ok()
}

// The text of the file that the first argument names. Where there is none, that is told.
fn text_argument(rt: &HostRuntime, text: &mut [u8]) -> Option<usize>
    ensures { IfSome result (λ n. n ≤ length text.new) }
{
    let mut path = [0u8; PATH];
    let named = rt
        .arg(1, &mut path)
        .map_err(|_| Error::from(ErrorKind::NotFound));
    let n = told(rt, b"the name of a text file", named)?;
    told(rt, &path[..n], input::text_file(rt, &path[..n], text))
}

// The text on standard input, and how many bytes. Where it cannot be read, that is told.
pub fn text_input(rt: &HostRuntime, text: &mut [u8]) -> Option<usize>
    ensures { IfSome result (λ n. n ≤ length text.new) }
{
    told(rt, b"standard input", input::text_of(&mut rt.stdin(), text))
}

// The readings on standard input.
fn readings_input(rt: &HostRuntime, numbers: &mut [i32]) -> Option<usize>
    ensures { IfSome result (λ n. AreReadings n numbers.old numbers.new) }
{
    told(
        rt,
        b"standard input",
        input::readings_of(&mut rt.stdin(), numbers),
    )
}

// The bytes of a text, and its readings.
#[derive(Clone, Copy)]
pub struct Lesson {
    pub size: usize,
    pub count: usize,
}

// What a lesson is run on. Where it cannot be read, that is told.
pub fn read_lesson(rt: &HostRuntime, text: &mut [u8], numbers: &mut [i32]) -> Option<Lesson>
    ensures { Brings result text.new numbers.old numbers.new }
{
    let size = text_argument(rt, text)?;
    let count = readings_input(rt, numbers)?;
    Some(Lesson { size, count })
}

// Does with the text on standard input what is to be done with it. A text that cannot be read is trouble, and told.
pub fn with_text<F: FnOnce(&[u8]) -> ExitCode>(
    rt: &HostRuntime,
    text: &mut [u8],
    work: F,
) -> ExitCode
    requires { F.IsAlwaysCallable work }
    ensures { (exit_status result ≡ TROUBLE) ⊎ ((t : _) × F.post work t result) }
{
    match text_input(rt, text) {
        Some(size) => work(&text[..size]),
        None => end_with(TROUBLE),
    }
}

// The same with what a lesson is run on. The buffers are lent by each main, alike as they are: a program's memory is fixed, and is to be seen there.
pub fn with_lesson<F: FnOnce(&[u8], &[i32]) -> ExitCode>(
    rt: &HostRuntime,
    text: &mut [u8],
    numbers: &mut [i32],
    work: F,
) -> ExitCode
    requires { F.IsAlwaysCallable work }
    ensures { (exit_status result ≡ TROUBLE) ⊎ ((t : _) × (r : _) × (input : List ℕ) × (r.now ≡ readings (length numbers.old) input) × F.post work t r result) }
{
    match read_lesson(rt, text, numbers) {
        Some(m) => work(&text[..m.size], &numbers[..m.count]),
        None => end_with(TROUBLE),
    }
}

// Writes what a program says, and answers its status; a write that fails is trouble, since nobody got what was said.
pub fn deliver(rt: &HostRuntime, out: &[u8], err: &[u8], status: u8) -> ExitCode
    ensures { (exit_status result ≡ status) ⊎ (exit_status result ≡ TROUBLE) }
{
    if let Err(why) = rt.stdout().write_all(out) {
        return trouble(rt, b"standard output", &why);
    }
    if let Err(why) = rt.stderr().write_all(err) {
        return trouble(rt, b"standard error", &why);
    }
    end_with(status)
}
