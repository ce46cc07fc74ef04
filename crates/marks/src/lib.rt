// How the line of a place is shown, with a mark under the place.
#![tactic(auto)]

ghost use Rattle.std.specs.Prelude.{◌≡◌, ◌++◌, map};
ghost use Rattle.base.specs.Bytes.{bytes};
ghost use Rattle.lines.specs.Added.{Added};
ghost use Rattle.marks.specs.Shown.{seen, shown_from, shown_to, only, line, mark, marked, marked_line, the_widths};

use lines::{put, put_byte, put_many};
use place::{count_such, such, such_run, within};

// How much of a line is shown. Each number stands here and nowhere else: code and contracts read it from here.
#[derive(Drop)]
pub struct Window {}

impl Window {
    // Bytes before the place, up to which all are shown.
    pub const WHOLE: usize = 60;

    // Bytes before the place that are shown of more.
    pub const LAST: usize = 40;

    // Bytes that are shown from the place on.
    pub const NEXT: usize = 36;

    // Bytes more that may go on the last character.
    pub const REST: usize = 3;
}

#[tactic(auto, unfolding(crate::specs::Shown::seen))]
fn seen(b: u8) -> u8
    ensures { result ≡ seen b }
{
    match b {
        9 | 13 => b' ',
        0..=31 | 127 => b'?',
        _ => b,
    }
}

// Where what is shown of the bytes before a place begins.
fn shown_from(before: &[u8]) -> usize
    ensures { result ≡ shown_from the_widths.whole the_widths.last before.now }
{
    if before.len() <= Window::WHOLE {
        return 0;
    }
    let from = before.len() - Window::LAST;
    from + such_run::<such::GoesOn>(&before[from..])
}

// Where what is shown of the bytes from a place on ends.
fn shown_to(after: &[u8]) -> usize
    ensures { result ≡ shown_to the_widths.next the_widths.rest after.now }
{
    let next = within(after, Window::NEXT);
    let others = &after[next..];
    let rest = within(others, Window::REST);
    next + such_run::<such::GoesOn>(&others[..rest])
}

// Bytes as they are seen, added to a page.
fn put_seen(page: &mut [u8], at: usize, bytes: &[u8]) -> usize
    ensures { Added (map seen bytes.now) page.old at page.new result }
{
    let mut next = at.min(page.len());
    for b in bytes {
        next = put_byte(page, next, seen(*b));
    }
    next
}

// Bytes that are written only in one case.
#[tactic(auto, unfolding(crate::specs::Shown::only))]
fn put_only(page: &mut [u8], at: usize, written: bool, bytes: &[u8]) -> usize
    ensures { Added (only written bytes.now) page.old at page.new result }
{
    put(page, at, if written { bytes } else { &[] })
}

// The line up to the place, by what is shown before it, and whether something is left out in front.
fn put_front(page: &mut [u8], at: usize, front: bool, before: &[u8]) -> usize
    ensures { Added (bytes "  " ++ only front (bytes "...") ++ map seen before.now) page.old at page.new result }
{
    let a = put(page, at, b"  ");
    let b = put_only(page, a, front, b"...");
    put_seen(page, b, before)
}

// The line, by what is shown before the place and from it on, and whether something is left out in front and behind.
fn put_line(
    page: &mut [u8],
    at: usize,
    front: bool,
    before: &[u8],
    after: &[u8],
    behind: bool,
) -> usize
    ensures { Added (line front before.now after.now behind) page.old at page.new result }
{
    let a = put_front(page, at, front, before);
    let b = put_seen(page, a, after);
    let c = put_only(page, b, behind, b"...");
    put_byte(page, c, b'\n')
}

fn put_mark(page: &mut [u8], at: usize, front: bool, before: &[u8]) -> usize
    ensures { Added (mark front before.now) page.old at page.new result }
{
    let cells = 2 + 3 * (front as usize) + count_such::<such::Begins>(before);
    let a = put_many(page, at, b" ", cells);
    put(page, a, b"^\n")
}

// Both, by the line's bytes before the place and from it on.
fn put_marked(page: &mut [u8], at: usize, before: &[u8], after: &[u8]) -> usize
    ensures { Added (marked the_widths before.now after.now) page.old at page.new result }
{
    let from = shown_from(before);
    let to = shown_to(after);
    let shown = &before[from..];
    let next = put_line(page, at, 0 < from, shown, &after[..to], to < after.len());
    put_mark(page, next, 0 < from, shown)
}

// Adds the line of a place to a page, and a mark under the place.
pub fn put_marked_line(page: &mut [u8], at: usize, text: &[u8], place: usize) -> usize
    ensures { Added (marked_line the_widths text.now place) page.old at page.new result }
{
    let p = within(text, place);
    let spot = place::spot_of(text, place);
    let rest = &text[p..];
    let end = such_run::<such::NoFeed>(rest);
    put_marked(page, at, &text[spot.start..p], &rest[..end])
}
