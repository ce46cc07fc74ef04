// Bytes, their classes and comparing them; refusals and their numbers; and numbers set to 0.
#![tactic(auto)]

ghost use Rattle.std.specs.Prelude.{ℕ, Bool, ◌≡◌, ◌+◌, ◌≤◌, min, pos, length, drop, replicate};
ghost use Rattle.base.specs.Bytes.{separator, small, letter, digit, letter_or_digit, no_quote, run, begins, same};
ghost use Rattle.base.specs.inner.Parts.{part};
ghost use Rattle.base.specs.inner.Tests.{Tells};
ghost use Rattle.base.specs.Answers.{number};

pub mod such;

use such::Test;

// Why a text is refused: document 01, "Refused texts".
#[derive(Clone, Copy, PartialEq, Eq, Debug)]
pub enum Refusal {
    TooLong = 1,
    NoLexeme = 2,
    TooLarge = 3,
    NoProgram = 4,
    TooDeep = 5,
    Undeclared = 6,
    TooManyDeclared = 7,
    TooMuchCode = 8,
}

// A refusal: why, and its place.
#[derive(Clone, Copy, PartialEq, Eq, Debug)]
pub struct Refused {
    pub why: Refusal,
    pub place: usize,
}

// The paper's number of a refusal.
pub fn number(why: Refusal) -> u8
    ensures { result ≡ number why }
{
    why as u8
}

#[tactic(auto, using(std::proofs::lemmas::Bool::Decides::nat_tests), unfolding(crate::specs::Bytes::separator))]
pub fn is_separator(b: u8) -> bool
    ensures { result ≡ separator b }
{
    matches!(b, b' ' | 9 | 10 | 13)
}

#[tactic(auto, unfolding(crate::specs::Bytes::small))]
pub fn is_small(b: u8) -> bool
    ensures { result ≡ small b }
{
    matches!(b, b'a'..=b'z')
}

#[tactic(auto, unfolding(crate::specs::Bytes::letter, crate::specs::Bytes::small, crate::specs::Bytes::capital))]
pub fn is_letter(b: u8) -> bool
    ensures { result ≡ letter b }
{
    matches!(b, b'a'..=b'z' | b'A'..=b'Z')
}

#[tactic(auto, unfolding(crate::specs::Bytes::digit))]
pub fn is_digit(b: u8) -> bool
    ensures { result ≡ digit b }
{
    matches!(b, b'0'..=b'9')
}

#[tactic(auto, unfolding(crate::specs::Bytes::letter_or_digit))]
pub fn is_letter_or_digit(b: u8) -> bool
    ensures { result ≡ letter_or_digit b }
{
    is_letter(b) || is_digit(b)
}

// Any byte but the quote.
#[tactic(auto, unfolding(crate::specs::Bytes::no_quote))]
pub fn is_no_quote(b: u8) -> bool
    ensures { result ≡ no_quote b }
{
    b != b'"'
}

// Whether such a byte stands at a place.
pub fn is_such_at<T: Test>(text: &[u8], at: usize) -> bool
    ensures { result ≡ begins T.such (drop at text.now) }
{
    text.get(at).is_some_and(|b| T::is_such(*b))
}

// The same, where the test is a closure, which may hold what it compares a byte with.
pub fn is_at<P: Fn(u8) -> bool>(text: &[u8], at: usize, is_such: P) -> bool
    requires { P.IsAlwaysCallable is_such }
    ensures { (such : ℕ → Bool) → Tells (P.post is_such) such → result ≡ begins such (drop at text.now) }
{
    text.get(at).is_some_and(|b| is_such(*b))
}

// The end of the longest run of such bytes from a place on; the place itself where it is past the text.
pub fn such_run_end<T: Test>(text: &[u8], at: usize) -> usize
    ensures end { result ≡ at + length (run T.such (drop at text.now)) }
    ensures onward { at ≤ result }
{
    // `take_while(..).count()` over the rest proves too, and takes a tenth more instructions for each byte that is scanned.
    let mut end = at;
    while end < text.len() && T::is_such(text[end]) {
        end += 1;
    }
    end
}

// The same, where the test is a closure; a loop for the same reason.
pub fn run_end<P: Fn(u8) -> bool>(text: &[u8], at: usize, is_such: P) -> usize
    requires { P.IsAlwaysCallable is_such }
    ensures end { (such : ℕ → Bool) → Tells (P.post is_such) such → result ≡ at + length (run such (drop at text.now)) }
    ensures onward { at ≤ result }
{
    let mut end = at;
    while end < text.len() && is_such(text[end]) {
        end += 1;
    }
    end
}

pub fn smaller(a: usize, b: usize) -> usize
    ensures { result ≡ min a b }
{
    a.min(b)
}

// The bytes from the place p up to e, as far as the text has them.
pub fn part(text: &[u8], p: usize, e: usize) -> &[u8]
    ensures { result.now ≡ part text.now p e }
{
    let end = e.min(text.len());
    &text[p.min(end)..end]
}

// Whether two words are equal byte for byte.
pub fn is_same(a: &[u8], b: &[u8]) -> bool
    ensures { result ≡ same a.now b.now }
{
    a == b
}

// Every number becomes 0.
pub fn clear(numbers: &mut [i32])
    ensures { numbers.new ≡ replicate (length numbers.old) (pos 0) }
{
    numbers.fill(0);
}
