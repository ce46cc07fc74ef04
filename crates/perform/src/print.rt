// The instructions that print, at a state that is past the instruction. A print that does not fit the room prints nothing.
// `live` is the live cells, as many as the depth.
ghost use Rattle.rooms.specs.inner.Rooms.{said};
ghost use Rattle.moves.specs.inner.Moves.{as_led};
ghost use Rattle.perform.specs.inner.Prints.{print, asked_str, asked_int, Performed};

use base::such;
use endings::Ending;
use moves::{Move, State, moved};
use numbers::decimal::put_decimal;

// Bytes, with a line feed after them if it is asked for.
#[tactic(auto, unfolding(crate::specs::inner::Prints::print_move, crate::specs::inner::Prints::print_room))]
fn write(s: State, bytes: &[u8], line: bool, out: &mut [u8]) -> Result<Move, Ending>
    ensures { Performed (print s (said line bytes.now)) out.old (as_led result) out.new }
{
    let printed = rooms::print(out, s.printed, bytes, line).ok_or(Ending::PrintDoesNotFit)?;
    Ok(Move::Go(State { printed, ..s }))
}

#[tactic(auto, using(base::proofs::Runs::run_part), unfolding(crate::specs::inner::Prints::asked_str, crate::specs::inner::Prints::print_move, crate::specs::inner::Prints::print_room))]
pub fn print_str(
    s: State,
    text: &[u8],
    q: usize,
    line: bool,
    out: &mut [u8],
) -> Result<Move, Ending>
    ensures { Performed (asked_str s text.now q line) out.old (as_led result) out.new }
{
    let end = base::such_run_end::<such::NoQuote>(text, q);
    if text.len() <= end {
        return Err(Ending::BadCode);
    }
    write(s, &text[q..end], line, out)
}

#[tactic(auto, unfolding(crate::specs::inner::Prints::asked_int, crate::specs::inner::Prints::print_move, crate::specs::inner::Prints::print_room))]
pub fn print_int(s: State, live: &[i32], out: &mut [u8]) -> Result<Move, Ending>
    ensures { Performed (asked_int s live.now) out.old (as_led result) out.new }
{
    let [rest @ .., v] = live else {
        return Err(Ending::BadCode);
    };
    let mut buffer = [0u8; 20];
    let from = put_decimal(*v, &mut buffer);
    let t = moved(s, s.index, rest.len());
    write(t, &buffer[from..], false, out)
}
