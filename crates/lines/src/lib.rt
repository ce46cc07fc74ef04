// Lines, added to a page that is lent. Each function answers the place after what it added; what the page has no room for is left out.
#![tactic(auto)]

ghost use Rattle.std.specs.Prelude.{[], ◌∷◌, pos};
ghost use Rattle.numbers.specs.Numbers.{decimal};
ghost use Rattle.lines.specs.Added.{Added};
ghost use Rattle.lines.specs.Times.{times};
ghost use Rattle.lines.specs.Forms.{filled};
ghost use Rattle.lines.specs.Lines.{refusal_line, refused_line, ending_line, accepted_line};

use base::Refused;
use numbers::decimal::{put_decimal, put_digits};

#[tactic(auto, using(crate::proofs::Adds::added_past))]
pub fn put_byte(page: &mut [u8], at: usize, b: u8) -> usize
    ensures { Added (b ∷ []) page.old at page.new result }
{
    if page.len() <= at {
        return page.len();
    }
    page[at] = b;
    at + 1
}

#[tactic(auto, using(crate::proofs::Adds::copied))]
pub fn put(page: &mut [u8], at: usize, bytes: &[u8]) -> usize
    ensures { Added bytes.now page.old at page.new result }
{
    let start = at.min(page.len());
    let n = bytes.len().min(page.len() - start);
    page[start..start + n].copy_from_slice(&bytes[..n]);
    start + n
}

// A piece so many times.
pub fn put_many(page: &mut [u8], at: usize, piece: &[u8], n: usize) -> usize
    ensures { Added (times n piece.now) page.old at page.new result }
{
    let mut next = at.min(page.len());
    for _ in 0..n {
        next = put(page, next, piece);
    }
    next
}

#[tactic(auto, using(numbers::proofs::Buffers::buffer_size, numbers::proofs::Buffers::end_part))]
pub fn put_natural(page: &mut [u8], at: usize, n: u64) -> usize
    ensures { Added (decimal (pos n)) page.old at page.new result }
{
    let mut digits = [0u8; 20];
    let from = put_digits(n, &mut digits);
    put(page, at, &digits[from..])
}

// A form, with the next of the numbers in the place of each sign `#`, and 0 where there is none.
pub fn fill(page: &mut [u8], at: usize, form: &[u8], numbers: &[u64]) -> usize
    ensures { Added (filled form.now numbers.now) page.old at page.new result }
{
    let mut next = at.min(page.len());
    let mut left = numbers.iter();
    for b in form {
        next = match *b {
            b'#' => put_natural(page, next, left.next().copied().unwrap_or(0)),
            other => put_byte(page, next, other),
        };
    }
    next
}

// `refused N P`
#[tactic(auto, unfolding(crate::specs::Lines::refusal_line, base::specs::Bytes::bytes, base::specs::Bytes::bytes_from))]
pub fn refusal(page: &mut [u8], at: usize, number: u8, place: usize) -> usize
    ensures { Added (refusal_line number place) page.old at page.new result }
{
    fill(page, at, b"refused # #\n", &[number as u64, place as u64])
}

// The line of a refused text.
#[tactic(auto, unfolding(crate::specs::Lines::refused_line))]
pub fn refused(page: &mut [u8], at: usize, r: Refused) -> usize
    ensures { Added (refused_line r.why r.place) page.old at page.new result }
{
    refusal(page, at, base::number(r.why), r.place)
}

// `ending E steps S`
#[tactic(auto, unfolding(crate::specs::Lines::ending_line, base::specs::Bytes::bytes, base::specs::Bytes::bytes_from))]
pub fn ending(page: &mut [u8], at: usize, ending: u8, steps: u32) -> usize
    ensures { Added (ending_line ending steps) page.old at page.new result }
{
    fill(
        page,
        at,
        b"ending # steps #\n",
        &[ending as u64, steps as u64],
    )
}

// `accepted I C N`
#[tactic(auto, unfolding(crate::specs::Lines::accepted_line, base::specs::Bytes::bytes, base::specs::Bytes::bytes_from))]
pub fn accepted(page: &mut [u8], at: usize, instructions: usize, cells: usize, need: usize) -> usize
    ensures { Added (accepted_line instructions cells need) page.old at page.new result }
{
    fill(
        page,
        at,
        b"accepted # # #\n",
        &[instructions as u64, cells as u64, need as u64],
    )
}

// A space, and a number after it.
pub fn put_spaced(page: &mut [u8], at: usize, v: i32) -> usize
    ensures { Added (32 ∷ decimal v) page.old at page.new result }
{
    let mut digits = [0u8; 20];
    let from = put_decimal(v, &mut digits) - 1;
    digits[from] = b' ';
    put(page, at, &digits[from..])
}
