// The readings of an input that comes in chunks of any length.
#![tactic(auto)]

ghost use Rattle.std.specs.Prelude.{◌≡◌, List, [], ◌∷◌, ◌++◌, ℕ, ℤ};
ghost use Rattle.reading.specs.Reading.{number_in_range};
ghost use Rattle.readings.specs.inner.Rest.{takes, over};
ghost use Rattle.readings.specs.inner.Steps.{stored, ended};
ghost use Rattle.readings.specs.Taken.{taken_in};

use reading::{Phase, number_in_range, word_more};

// Where the input stands, and how many readings are stored. The numbers are lent beside it: of a `&mut` in it each contract would say besides that it stays the same borrow.
#[derive(Clone, Copy, PartialEq, Eq, Debug)]
pub struct Reader {
    pub phase: Phase,
    pub count: usize,
}

// A number is stored if it is in range and there is room; else the readings are over.
#[tactic(auto, using(std::proofs::lemmas::Bool::Decides::nat_tests, std::proofs::lemmas::Int::ints), unfolding(crate::specs::inner::Steps::stored))]
fn store(negative: bool, n: u32, count: usize, numbers: &mut [i32]) -> Reader
    ensures { record { reader = result; numbers = numbers.new } ≡ stored (number_in_range negative n) count numbers.old }
{
    match number_in_range(negative, n) {
        // an index and no `get_mut`: after that no element of the numbers is known, which the contract speaks of
        Some(z) if count < numbers.len() => {
            numbers[count] = z;
            Reader {
                phase: Phase::Between,
                count: count + 1,
            }
        }
        _ => Reader {
            phase: Phase::Over,
            count,
        },
    }
}

// A word ends, by a separator or by the end of the input.
#[tactic(auto, unfolding(crate::specs::inner::Steps::ended, crate::specs::inner::Steps::ended_at))]
fn end_word(r: Reader, numbers: &mut [i32]) -> Reader
    ensures { record { reader = result; numbers = numbers.new } ≡ ended (record { reader = r; numbers = numbers.old }) }
{
    match r.phase {
        Phase::Between | Phase::Over => r,
        Phase::Minus => Reader {
            phase: Phase::Over,
            ..r
        },
        Phase::Number(negative, n) => store(negative, n, r.count, numbers),
    }
}

#[tactic(auto, using(crate::proofs::Takes::at_separator, crate::proofs::Takes::at_other))]
fn take_byte(r: Reader, b: u8, numbers: &mut [i32]) -> Reader
    ensures { (rest : List ℕ) → takes result numbers.new rest ≡ takes r numbers.old (b ∷ rest) }
{
    if base::is_separator(b) {
        return end_word(r, numbers);
    }
    Reader {
        phase: word_more(r.phase, b),
        ..r
    }
}

// Before the first byte.
#[tactic(auto, using(crate::proofs::Takes::at_start))]
pub fn start() -> Reader
    ensures { (l : List ℤ) (rest : List ℕ) → takes result l rest ≡ taken_in l rest }
{
    Reader {
        phase: Phase::Between,
        count: 0,
    }
}

// After the next chunk of the input.
pub fn more(r: Reader, bytes: &[u8], numbers: &mut [i32]) -> Reader
    ensures { (rest : List ℕ) → takes result numbers.new rest ≡ takes r numbers.old (bytes.now ++ rest) }
{
    let mut reader = r;
    for b in bytes {
        reader = take_byte(reader, *b, numbers);
    }
    reader
}

// Whether the readings are over, whatever follows: something came that is none, or the numbers are full.
#[tactic(auto, unfolding(crate::specs::inner::Rest::over, crate::specs::inner::Rest::stopped))]
pub fn is_over(r: Reader, numbers: &[i32]) -> bool
    ensures { result ≡ over r numbers.now }
{
    r.phase == Phase::Over || numbers.len() <= r.count
}

// After the last chunk: how many readings there are.
#[tactic(auto, using(crate::proofs::Takes::at_end))]
pub fn finish(r: Reader, numbers: &mut [i32]) -> usize
    ensures { record { count = result; numbers = numbers.new } ≡ takes r numbers.old [] }
{
    end_word(r, numbers).count
}
