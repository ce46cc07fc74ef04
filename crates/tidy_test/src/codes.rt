// What the compiler says of a text and of its copy.
use crate::say;
use base::such;
use instruction::decode::{Op, decode};
use limits::Limits;
use std::io;
use tidy::Uncopied;

// The bytes that a pair prints, if it prints a string: from its place up to the next quote.
fn string_of(text: &[u8], operation: i32, operand: i32) -> Option<&[u8]> {
    let Some(Op::PrintStr(place) | Op::PrintStrLn(place)) = decode(operation, operand) else {
        return None;
    };
    Some(base::part(
        text,
        place,
        base::such_run_end::<such::NoQuote>(text, place),
    ))
}

// Whether an operation's operands are equal, or the places of equal strings.
fn are_alike(text: &[u8], copy: &[u8], operation: i32, a: i32, b: i32) -> bool {
    match (string_of(text, operation, a), string_of(copy, operation, b)) {
        (Some(printed), Some(copied)) => printed == copied,
        _ => a == b,
    }
}

// Whether the tables' pairs have the same operations, and operands alike.
fn is_alike(text: &[u8], copy: &[u8], table: &[i32], other: &[i32]) -> bool {
    table
        .chunks_exact(2)
        .zip(other.chunks_exact(2))
        .all(|pairs| match pairs {
            ([operation, a], [copied, b]) => operation == copied
                && are_alike(text, copy, *operation, *a, *b),
            _ => false,
        })
}

// The copy is accepted as the text is, and its code is the text's but for the places of strings.
pub fn of_copied(rt: &HostRuntime, text: &[u8], copy: &[u8]) -> io::Result<()> {
    let mut table = [7i32; Limits::INSTRUCTIONS * 2];
    let mut other = [7i32; Limits::INSTRUCTIONS * 2];
    let a = compiler::compile(text, &mut table);
    let b = compiler::compile(copy, &mut other);
    say::wrong_unless(rt, a.is_ok(), "a refused text was copied")?;
    say::wrong_unless(rt, a == b, "the copy's counts")?;
    say::wrong_unless(rt, is_alike(text, copy, &table, &other), "the copy's code")
}

// A refusal is the compiler's own; that there is no room is said of an accepted text.
pub fn of_refused(rt: &HostRuntime, text: &[u8], why: Uncopied) -> io::Result<()> {
    let mut table = [7i32; Limits::INSTRUCTIONS * 2];
    let answer = compiler::compile(text, &mut table);
    let is_own = match why {
        Uncopied::Refused(refused) => answer == Err(refused),
        Uncopied::NoRoom => answer.is_ok(),
    };
    say::wrong_unless(rt, is_own, "the refusal is not the text's own")
}
