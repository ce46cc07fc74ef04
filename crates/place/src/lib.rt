// Where a place of a text stands.
#![tactic(auto)]

ghost use Rattle.std.specs.Prelude.{◌≡◌, Bool, ℕ, ◌≤◌, length};
ghost use Rattle.base.specs.Bytes.{run};
ghost use Rattle.base.specs.inner.Tests.{Tells};
ghost use Rattle.place.specs.Places.{line_feed, goes_on, begins, count, within, line_start, spot};

pub mod such;

use base::such::Test;

// A line and a column, counted from 1, and the place of the line's first byte.
#[derive(Clone, Copy)]
pub struct Spot {
    pub line: usize,
    pub column: usize,
    pub start: usize,
}

#[tactic(auto, unfolding(crate::specs::Places::line_feed))]
pub fn is_line_feed(b: u8) -> bool
    ensures { result ≡ line_feed b }
{
    b == b'\n'
}

// A byte that goes on a character of UTF-8.
#[tactic(auto, unfolding(crate::specs::Places::goes_on))]
pub fn goes_on(b: u8) -> bool
    ensures { result ≡ goes_on b }
{
    128 <= b && b <= 191
}

// Any other byte begins a character.
#[tactic(auto, unfolding(crate::specs::Places::begins))]
pub fn begins(b: u8) -> bool
    ensures { result ≡ begins b }
{
    !goes_on(b)
}

// How many bytes are such. A loop: `filter(..).count()` proves too, and takes twice the instructions for each byte.
pub fn count_such<T: Test>(bytes: &[u8]) -> usize
    ensures { result ≡ count T.such bytes.now }
{
    let mut n = 0;
    for b in bytes {
        if T::is_such(*b) {
            n += 1;
        }
    }
    n
}

// The same, where the test is a closure, which may hold what it compares a byte with.
pub fn count<F: Fn(u8) -> bool>(bytes: &[u8], such: F) -> usize
    requires { F.IsAlwaysCallable such }
    ensures { (test : ℕ → Bool) → Tells (F.post such) test → result ≡ count test bytes.now }
{
    bytes.iter().filter(|b| such(**b)).count()
}

// How long the run of such bytes at the beginning is.
pub fn such_run<T: Test>(bytes: &[u8]) -> usize
    ensures { result ≡ length (run T.such bytes.now) }
{
    base::such_run_end::<T>(bytes, 0)
}

// The same, where the test is a closure.
pub fn run<F: Fn(u8) -> bool>(bytes: &[u8], such: F) -> usize
    requires { F.IsAlwaysCallable such }
    ensures { (test : ℕ → Bool) → Tells (F.post such) test → result ≡ length (run test bytes.now) }
{
    base::run_end(bytes, 0, such)
}

#[tactic(auto, unfolding(crate::specs::Places::within))]
pub fn within(text: &[u8], place: usize) -> usize
    ensures { result ≡ within text.now place }
{
    place.min(text.len())
}

#[tactic(auto, using(crate::proofs::Places::start_here, crate::proofs::Places::start_back, crate::proofs::Places::start_first))]
fn line_start(text: &[u8], p: usize) -> usize
    requires { p ≤ length text.now }
    ensures { result ≡ line_start text.now p }
{
    for i in (0..p).rev() {
        if is_line_feed(text[i]) {
            return i + 1;
        }
    }
    0
}

pub fn spot_of(text: &[u8], place: usize) -> Spot
    ensures { result ≡ spot text.now place }
{
    let p = within(text, place);
    let start = line_start(text, p);
    let feeds = count_such::<such::Feed>(&text[..p]);
    let characters = count_such::<such::Begins>(&text[start..p]);
    Spot {
        line: feeds + 1,
        column: characters + 1,
        start: start,
    }
}
