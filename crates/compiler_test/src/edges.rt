// Texts at the limits, put together from pieces.
use crate::answers;
use limits::Limits;
use std::io;

fn answer(rt: &HostRuntime, text: &[u8]) -> io::Result<()> {
    let mut table = [7i32; Limits::INSTRUCTIONS * 2];
    answers::say_answer(rt, answers::compiled(rt, text, &mut table)?)
}

// So many times `open`, the middle, and as often `close`.
fn put_nested(
    text: &mut [u8],
    at: usize,
    open: &[u8],
    n: usize,
    middle: &[u8],
    close: &[u8],
) -> usize {
    let a = lines::put_many(text, at, open, n);
    let b = lines::put(text, a, middle);
    lines::put_many(text, b, close, n)
}

// The same after a beginning.
pub fn nested(
    rt: &HostRuntime,
    first: &[u8],
    open: &[u8],
    n: usize,
    middle: &[u8],
    close: &[u8],
) -> io::Result<()> {
    let mut text = [0u8; Limits::TEXT + 1];
    let a = lines::put(&mut text, 0, first);
    let e = put_nested(&mut text, a, open, n, middle, close);
    answer(rt, base::part(&text, 0, e))
}

// The answer with only so many numbers lent.
pub fn short(rt: &HostRuntime, text: &[u8], numbers: usize) -> io::Result<()> {
    let mut table = [7i32; 11];
    let Some(lent) = table.get_mut(..numbers) else {
        return Ok(());
    };
    answers::say_answer(rt, answers::compiled(rt, text, lent)?)
}
