// Tests of bytes, each a type: which bytes are such is known where a run is called, and is not asked again at each byte.
ghost use Rattle.std.specs.Prelude.{ℕ, Bool, ◌≡◌};
ghost use Rattle.base.specs.Bytes.{separator, small, letter, digit, letter_or_digit, no_quote};

use crate::{is_digit, is_letter, is_letter_or_digit, is_no_quote, is_separator, is_small};

// Which bytes are such, and how that is told.
pub trait Test {
    ghost such: { ℕ → Bool };

    fn is_such(b: u8) -> bool
        ensures { result ≡ such b };
}

#[derive(Clone, Copy)]
pub struct Separator;

impl Test for Separator {
    ghost such = { separator };

    fn is_such(b: u8) -> bool {
        is_separator(b)
    }
}

#[derive(Clone, Copy)]
pub struct Small;

impl Test for Small {
    ghost such = { small };

    fn is_such(b: u8) -> bool {
        is_small(b)
    }
}

#[derive(Clone, Copy)]
pub struct Letter;

impl Test for Letter {
    ghost such = { letter };

    fn is_such(b: u8) -> bool {
        is_letter(b)
    }
}

#[derive(Clone, Copy)]
pub struct LetterOrDigit;

impl Test for LetterOrDigit {
    ghost such = { letter_or_digit };

    fn is_such(b: u8) -> bool {
        is_letter_or_digit(b)
    }
}

#[derive(Clone, Copy)]
pub struct Digit;

impl Test for Digit {
    ghost such = { digit };

    fn is_such(b: u8) -> bool {
        is_digit(b)
    }
}

#[derive(Clone, Copy)]
pub struct NoQuote;

impl Test for NoQuote {
    ghost such = { no_quote };

    fn is_such(b: u8) -> bool {
        is_no_quote(b)
    }
}
