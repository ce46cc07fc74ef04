// The programs, from the bytes that they read: what comes of a text, and what each says of it. They only read, call one of these and write.
#![tactic(auto)]

ghost use Rattle.std.specs.Prelude.{[], length};
ghost use Rattle.limits.specs.Limits.{the_limits};
ghost use Rattle.compiler.specs.Compiled.{WithAnswer};
ghost use Rattle.tells.specs.Tells.{said_of_run, sent};
ghost use Rattle.tells.specs.Writes.{Writes};
ghost use Rattle.programs.specs.Programs.{Tabled, came, listed};
ghost use Rattle.programs.specs.Comes.{Comes, Tells, Copies};
ghost use Rattle.programs.specs.inner.Copies.{said_of_copy};

use base::Refused;
use limits::{Limits, Station};
use machine::Report;
use tells::{LINE, LISTING, PAGE, Said, Status};
use tidy::Uncopied;

// Room for the longest copy and its line end, or for a refusal's line.
pub const COPY: usize = Limits::TEXT + LINE;

// The text, run on readings. A table and a stack for the most instructions are enough for every accepted text.
pub fn lesson(
    text: &[u8],
    readings: &[i32],
    room: &mut [u8; Station::ROOM],
) -> Result<Report, Refused>
    ensures { WithAnswer (Tabled the_limits text.entry.now) (λ a. Comes room.old (came Station.BUDGET (length room.old) readings.now a) result room.new) }
{
    let mut table = [0i32; Limits::INSTRUCTIONS * 2];
    let mut stack = [0i32; Limits::INSTRUCTIONS];
    kit::run_text(
        text,
        readings,
        Station::BUDGET,
        &mut table,
        &mut stack,
        room,
    )
}

// The listing of a text, or the line of its refusal.
pub fn listing(text: &[u8], page: &mut [u8; LISTING]) -> Said
    ensures { WithAnswer (Tabled the_limits text.entry.now) (λ a. Writes (listed a) result page.old page.new [] []) }
{
    let mut table = [0i32; Limits::INSTRUCTIONS * 2];
    let answer = compiler::compile(text, &mut table);
    tells::list(answer, &table, page)
}

// The copy that stands in the room, and a line end; or the line of the refusal.
fn tell_copy(
    copied: Result<usize, Uncopied>,
    room: &[u8; Limits::TEXT],
    page: &mut [u8; COPY],
) -> Said
    ensures { Writes (said_of_copy copied room.now) result page.old page.new [] [] }
{
    match copied {
        Ok(n) => {
            let at = lines::put(page, 0, tells::output(n, room));
            Said {
                out: lines::put(page, at, b"\n"),
                err: 0,
                status: Status::Good,
            }
        }
        Err(Uncopied::Refused(r)) => tells::tell_refusal(page, r),
        Err(Uncopied::NoRoom) => Said {
            out: lines::refusal(page, 0, tidy::NO_ROOM, 0),
            err: 0,
            status: Status::NotGood,
        },
    }
}

// A tidy copy of a text, or the line of its refusal.
pub fn copy(text: &[u8], page: &mut [u8; COPY]) -> Said
    ensures { Copies the_limits text.entry.now result page.old page.new }
{
    let mut room = [0u8; Limits::TEXT];
    let copied = tidy::tidy(text, &mut room);
    tell_copy(copied, &room, page)
}

// The second program of the paper.
pub fn station(
    text: &[u8],
    readings: &[i32],
    room: &mut [u8; Station::ROOM],
    page: &mut [u8; PAGE],
) -> Said
    ensures { WithAnswer (Tabled the_limits text.entry.now) (λ a. Tells said_of_run (came Station.BUDGET (length room.old) readings.now a) room.old result room.new page.old page.new [] []) }
{
    let came = lesson(text, readings, room);
    tells::tell(came, room, page)
}

// The program for the feed.
pub fn feed(
    text: &[u8],
    readings: &[i32],
    room: &mut [u8; Station::ROOM],
    page: &mut [u8; PAGE],
    note: &mut [u8; LINE],
) -> Said
    ensures { WithAnswer (Tabled the_limits text.entry.now) (λ a. Tells sent (came Station.BUDGET (length room.old) readings.now a) room.old result room.new page.old page.new note.old note.new) }
{
    let came = lesson(text, readings, room);
    tells::send(came, room, page, note)
}
