// What is told of an answer and of what came of a text, into pages that are lent.
#![tactic(auto)]

ghost use Rattle.std.specs.Prelude.{◌≡◌, ◌*◌, ◌≤◌, [], length, take};
ghost use Rattle.lines.specs.Added.{Added};
ghost use Rattle.lines.specs.Lines.{refused_line};
ghost use Rattle.tells.specs.declared.Status.TheVariants.{NotGood};
ghost use Rattle.tells.specs.Tells.{status_of, said_of_answer, said_of_run, sent};
ghost use Rattle.tells.specs.Writes.{Writes, with_output, number};

use base::Refused;
use limits::{Limits, Station};
use machine::Report;
use reports::to_send;
use tables::Counts;

// How a program ends, by the number that the shell hears.
#[derive(Clone, Copy, PartialEq, Eq, Debug)]
pub enum Status {
    Good = 0,
    NotGood = 1,
}

// The number of a status.
pub fn number(status: Status) -> u8
    ensures { result ≡ number status }
{
    status as u8
}

// How many bytes stand on the page for standard output and on the one for standard error, and the status.
#[derive(Clone, Copy)]
pub struct Said {
    pub out: usize,
    pub err: usize,
    pub status: Status,
}

// Room for the longest line that is not an instruction's, for a whole listing, and for what is said of a run.
pub const LINE: usize = 96;

pub const LISTING: usize = Limits::INSTRUCTIONS * 65 + LINE;

pub const PAGE: usize = Station::ROOM + LINE;

// A code is the counted pairs of its table.
fn code(instructions: usize, table: &[i32]) -> &[i32]
    ensures { result.now ≡ take (instructions * 2) table.now }
{
    table.get(..instructions.saturating_mul(2)).unwrap_or(table)
}

// The line of a refusal, and nothing else.
pub fn tell_refusal(page: &mut [u8], r: Refused) -> Said
    ensures line { Added (refused_line r.why r.place) page.old 0 page.new result.out }
    ensures rest { (result.err ≡ 0) × (result.status ≡ NotGood) }
{
    Said {
        out: lines::refused(page, 0, r),
        err: 0,
        status: Status::NotGood,
    }
}

// The listing, or the line of the refusal.
pub fn list(
    a: Result<Counts, Refused>,
    table: &[i32; Limits::INSTRUCTIONS * 2],
    page: &mut [u8; LISTING],
) -> Said
    ensures { Writes (said_of_answer a table.now) result page.old page.new [] [] }
{
    match a {
        Err(r) => tell_refusal(page, r),
        Ok(c) => {
            let at = lines::accepted(page, 0, c.instructions, c.cells, c.need);
            Said {
                out: pairs::instructions(page, at, code(c.instructions, table)),
                err: 0,
                status: Status::Good,
            }
        }
    }
}

// Good exactly with ending 0.
#[tactic(auto, unfolding(crate::specs::Tells::status_of))]
pub fn status_of(ending: u8) -> Status
    ensures { number result ≡ status_of ending }
{
    match ending {
        0 => Status::Good,
        _ => Status::NotGood,
    }
}

// The output of a run stands at the beginning of its room.
pub fn output(length: usize, room: &[u8]) -> &[u8]
    ensures { result.now ≡ take length room.now }
{
    room.get(..length).unwrap_or(room)
}

// The output of a run, a line end, and how it ended; or the line of the refusal.
pub fn tell(c: Result<Report, Refused>, room: &[u8; Station::ROOM], page: &mut [u8; PAGE]) -> Said
    ensures { Writes (said_of_run (with_output c room.now)) result page.old page.new [] [] }
{
    match c {
        Err(r) => tell_refusal(page, r),
        Ok(r) => {
            let a = lines::put(page, 0, output(r.length, room));
            let b = lines::put(page, a, b"\n");
            Said {
                out: lines::ending(page, b, r.ending, r.steps),
                err: 0,
                status: status_of(r.ending),
            }
        }
    }
}

// What may be sent on to the feed, and on a page of its own why nothing may.
pub fn send(
    c: Result<Report, Refused>,
    room: &[u8; Station::ROOM],
    page: &mut [u8; PAGE],
    note: &mut [u8; LINE],
) -> Said
    ensures { Writes (sent (with_output c room.now)) result page.old page.new note.old note.new }
{
    match c {
        Err(r) => Said {
            out: 0,
            err: lines::refused(note, 0, r),
            status: Status::NotGood,
        },
        Ok(r) => {
            let all = output(r.length, room);
            let out = lines::put(page, 0, to_send(r.ending, all.len(), all));
            match r.ending {
                0 => Said {
                    out,
                    err: 0,
                    status: Status::Good,
                },
                other => Said {
                    out,
                    err: lines::ending(note, 0, other, r.steps),
                    status: Status::NotGood,
                },
            }
        }
    }
}
