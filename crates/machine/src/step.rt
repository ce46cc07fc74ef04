// One instruction, from fetching it to the state after it.
ghost use Rattle.std.specs.Prelude.{◌≡◌, ℕ, length, ◌%◌, ◌≤◌};
ghost use Rattle.rules.specs.Machine as M;
ghost use Rattle.moves.specs.inner.Moves.{as_led};
ghost use Rattle.machine.specs.inner.Coded.{Stepped};

use endings::Ending;
use instruction::decode::decode;
use moves::{Move, State};
use perform::{Lent, perform};

// The next instruction is fetched and decoded, and then done.
pub fn step(t: State, lent: Lent, stack: &[i32], out: &mut [u8]) -> Result<Move, Ending>
    requires deep { t.depth ≤ length stack.now }
    requires even { length lent.table.now % 2 ≡ 0 }
    requires whole { t.index % 2 ≡ 0 }
    ensures { (room : ℕ) → let given : M.Lent = record { text = lent.entry.text.now; table = lent.entry.table.now; readings = lent.entry.readings.now; cells = lent.entry.cells; room = room } in Stepped given (M.step given) t stack.now out.old (as_led result) out.new }
{
    let i = t.index;
    if lent.table.len() <= i {
        return Err(Ending::BadCode);
    }
    let o = decode(lent.table[i], lent.table[i + 1]).ok_or(Ending::BadCode)?;
    let s = State { index: i + 2, ..t };
    perform(s, o, lent, &stack[..t.depth], out)
}
