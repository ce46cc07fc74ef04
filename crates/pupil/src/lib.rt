// What came of a text in plain words, for a pupil, into a page that is lent.
#![tactic(auto)]

ghost use Rattle.std.specs.Prelude.{◌≡◌, [], ◌+◌, ◌≤◌, length};
ghost use Rattle.marks.specs.Shown.{the_widths};
ghost use Rattle.lines.specs.Added.{Added};
ghost use Rattle.tells.specs.Writes.{Writes, with_output};
ghost use Rattle.pupil.specs.Shows.{has_place, at_place, shown_where, shown_refusal, shown_output, steps_taken, shown_run, shown};

use base::{Refusal, Refused};
use limits::Station;
use machine::Report;
use tells::{Said, Status};
use words::Numbers;

// Room for what is said of a run, or of a refusal.
pub const SHOWN: usize = Station::ROOM + 512;

#[tactic(auto, unfolding(crate::specs::Shows::has_place))]
fn has_place(why: Refusal) -> bool
    ensures { result ≡ has_place why }
{
    match why {
        Refusal::TooLong | Refusal::TooMuchCode => false,
        _ => true,
    }
}

// With line, column, and the line with a mark under the place.
fn put_place(page: &mut [u8], text: &[u8], r: Refused) -> usize
    ensures { Added (at_place the_widths text.now r.why r.place) page.old 0 page.new result }
{
    let number = base::number(r.why);
    let spot = place::spot_of(text, r.place);
    let next = lines::fill(
        page,
        0,
        b"refusal #, line #, column #:\n",
        &[number as u64, spot.line as u64, spot.column as u64],
    );
    marks::put_marked_line(page, next, text, r.place)
}

#[tactic(auto, unfolding(crate::specs::Shows::shown_where, base::specs::Bytes::bytes, base::specs::Bytes::bytes_from))]
fn put_where(page: &mut [u8], text: &[u8], r: Refused) -> usize
    ensures { Added (shown_where the_widths text.now r.why r.place) page.old 0 page.new result }
{
    if has_place(r.why) {
        return put_place(page, text, r);
    }
    lines::fill(page, 0, b"refusal #:\n", &[base::number(r.why) as u64])
}

fn put_refusal(page: &mut [u8], n: Numbers, text: &[u8], r: Refused) -> usize
    ensures added { Added (shown_refusal the_widths n text.now r.why r.place) page.old 0 page.new result }
    ensures short { length (shown_refusal the_widths n text.now r.why r.place) ≤ 512 }
{
    let a = put_where(page, text, r);
    let b = words::put_why(page, a, n, text, r);
    lines::put_byte(page, b, b'\n')
}

#[tactic(auto, unfolding(crate::specs::Shows::shown_output, base::specs::Bytes::bytes, base::specs::Bytes::bytes_from))]
fn put_output(page: &mut [u8], output: &[u8]) -> usize
    ensures { Added (shown_output output.now) page.old 0 page.new result }
{
    if output.is_empty() {
        return lines::put(page, 0, b"(nothing was printed)");
    }
    lines::put(page, 0, output)
}

#[tactic(auto, unfolding(crate::specs::Shows::steps_taken, base::specs::Bytes::bytes, base::specs::Bytes::bytes_from))]
fn put_steps(page: &mut [u8], at: usize, ending: u8, steps: u32, budget: u32) -> usize
    ensures { Added (steps_taken ending steps budget) page.old at page.new result }
{
    lines::fill(
        page,
        at,
        b"\nending # after # of # steps: ",
        &[ending as u64, steps as u64, budget as u64],
    )
}

fn put_run(page: &mut [u8], n: Numbers, r: Report, output: &[u8]) -> usize
    ensures added { Added (shown_run n (record { ending = r.ending; steps = r.steps; used = r.used; output = output.now })) page.old 0 page.new result }
    ensures short { length (shown_run n (record { ending = r.ending; steps = r.steps; used = r.used; output = output.now })) ≤ length output.now + 512 }
{
    let a = put_output(page, output);
    let b = put_steps(page, a, r.ending, r.steps, n.budget);
    let c = words::put_how(page, b, n, r.ending);
    lines::put_byte(page, c, b'\n')
}

// What came of a text in plain words.
pub fn show(
    c: Result<Report, Refused>,
    n: Numbers,
    text: &[u8],
    room: &[u8; Station::ROOM],
    page: &mut [u8; SHOWN],
) -> Said
    ensures { Writes (shown the_widths n text.now (with_output c room.now)) result page.old page.new [] [] }
{
    match c {
        Err(r) => Said {
            out: put_refusal(page, n, text, r),
            err: 0,
            status: Status::NotGood,
        },
        Ok(r) => Said {
            out: put_run(page, n, r, tells::output(r.length, room)),
            err: 0,
            status: tells::status_of(r.ending),
        },
    }
}
