// What one word of an input reads as, byte by byte.
#![tactic(auto)]

ghost use Rattle.std.specs.Prelude.{◌≡◌};
ghost use Rattle.reading.specs.Reading.{in_signed_range, signed, number_in_range};
ghost use Rattle.reading.specs.inner.Words.{digit_more, word_more, as_reading};

// What the bytes since the last separator are: none, a minus alone, a number with its sign and magnitude; or the readings are over.
// The sign stands beside the magnitude, since `-0` may go on to `-05`: of a number alone it would be lost.
#[derive(Clone, Copy, PartialEq, Eq, Debug)]
pub enum Phase {
    Between,
    Minus,
    Number(bool, u32),
    Over,
}

#[tactic(auto, unfolding(crate::specs::Reading::in_signed_range))]
fn is_in_range(negative: bool, n: u64) -> bool
    ensures { result ≡ in_signed_range negative n }
{
    if negative {
        return n <= 2147483648;
    }
    n <= 2147483647
}

#[tactic(auto, using(std::proofs::lemmas::Int::ints), unfolding(crate::specs::Reading::signed))]
fn signed(negative: bool, n: u32) -> i64
    ensures { result ≡ signed negative n }
{
    if negative { -(n as i64) } else { n as i64 }
}

// The number with this sign and magnitude, if it is in range.
#[tactic(auto, using(crate::proofs::Numbers::read, std::proofs::lemmas::Int::ints))]
pub fn number_in_range(negative: bool, n: u32) -> Option<i32>
    ensures { as_reading result ≡ number_in_range negative n }
{
    i32::try_from(signed(negative, n)).ok()
}

#[tactic(auto, using(std::proofs::lemmas::Bool::Decides::nat_tests), unfolding(base::specs::Bytes::digit, crate::specs::Reading::in_signed_range, crate::specs::inner::Words::digit_more))]
fn digit_more(negative: bool, n: u32, b: u8) -> Phase
    ensures { result ≡ digit_more negative n b }
{
    if !base::is_digit(b) {
        return Phase::Over;
    }
    let m = n as u64 * 10 + (b - 48) as u64;
    if !is_in_range(negative, m) {
        return Phase::Over;
    }
    Phase::Number(negative, m as u32)
}

// A word after one byte more.
#[tactic(auto, unfolding(crate::specs::inner::Words::word_more))]
pub fn word_more(phase: Phase, b: u8) -> Phase
    ensures { result ≡ word_more phase b }
{
    match phase {
        Phase::Between if b == b'-' => Phase::Minus,
        Phase::Between => digit_more(false, 0, b),
        Phase::Minus => digit_more(true, 0, b),
        Phase::Number(negative, n) => digit_more(negative, n, b),
        Phase::Over => Phase::Over,
    }
}
