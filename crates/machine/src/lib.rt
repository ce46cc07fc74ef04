// The machine: any code table, one numbered ending.
#![tactic(auto)]

ghost use Rattle.std.specs.Prelude.{◌≡◌, length};
ghost use Rattle.endings.specs.Endings.{number_of};
ghost use Rattle.rules.specs.Machine.{whole_run};
ghost use Rattle.machine.specs.inner.Coded.{Names, state_of, cells_of, reports};
ghost use Rattle.machine.specs.Promise.{lends, Reported, Ran};

use endings::Ending;
use moves::{Move, State};
use perform::Lent;

mod step;

#[derive(Clone, Copy, PartialEq, Eq, Debug)]
pub struct Report {
    // A number, since what takes it promises of any number (reports::to_send, tells::status_of, lines::ending, words::put_how), and C reads numbers.
    pub ending: u8,
    pub steps: u32,
    pub used: usize,
    pub length: usize,
}

fn ended(ending: Ending, steps: u32, s: State) -> Report
    ensures { result ≡ reports (number_of ending) steps s }
{
    Report {
        ending: endings::number(ending),
        steps,
        used: s.used,
        length: s.printed,
    }
}

// A move's state, once the cell that it names is set.
fn made(m: Move, stack: &mut [i32]) -> State
    requires { Names m (length stack.old) }
    ensures state { result ≡ state_of m }
    ensures cells { stack.new ≡ cells_of m stack.old }
{
    match m {
        Move::Go(t) => t,
        Move::Put(t, v) => {
            stack[t.depth - 1] = v;
            t
        }
        Move::Set(t, k, v) => {
            stack[k] = v;
            t
        }
    }
}

// The run proper, which leaves the stack as its last step did.
fn follow(lent: Lent, budget: u32, stack: &mut [i32], out: &mut [u8]) -> Report
    requires { lent.cells ≡ length stack.old }
    ensures { Reported (whole_run (lends lent.entry.text.now lent.entry.table.now lent.entry.readings.now stack.old out.old) budget) out.old result out.new }
{
    let mut s = State {
        index: 0,
        depth: 0,
        used: 0,
        printed: 0,
    };
    if lent.table.len() % 2 != 0 {
        return ended(Ending::BadCode, 0, s);
    }
    for steps in 0..budget {
        match step::step(s, lent, stack, out) {
            Ok(m) => s = made(m, stack),
            Err(e) => return ended(e, steps + 1, s),
        }
    }
    ended(Ending::BudgetSpent, budget, s)
}

// A whole run of the table over the text and the readings, within the budget.
pub fn run(
    text: &[u8],
    table: &[i32],
    readings: &[i32],
    budget: u32,
    stack: &mut [i32],
    out: &mut [u8],
) -> Report
    ensures { Ran (whole_run (lends text.now table.now readings.now stack.old out.old) budget) stack.old out.old result stack.new out.new }
{
    let lent = Lent {
        text,
        table,
        readings,
        cells: stack.len(),
    };
    let r = follow(lent, budget, stack, out);
    base::clear(stack);
    r
}
