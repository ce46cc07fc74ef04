// What was decoded, done at the state past it.
#![tactic(auto)]

ghost use Rattle.std.specs.Prelude.{◌≡◌, length};
ghost use Rattle.numbers.specs.inner.Coded.{as_two_sided};
ghost use Rattle.moves.specs.inner.Moves.{as_led, two_sided_move};
ghost use Rattle.perform.specs.inner.Prints.{Performed};
ghost use Rattle.perform.specs.inner.Asks.{asked};

use endings::Ending;
use instruction::decode::Op;
use moves::{Move, State};
use numbers::arith::Operator;

mod print;

// Each operator is handed in by its own arm, so that a step tells the operators apart once: two instructions a step less than one call for all.
fn operate(s: State, live: &[i32], k: Operator) -> Result<Move, Ending>
    ensures { as_led result ≡ two_sided_move s live.now (as_two_sided k) }
{
    match k {
        Operator::Plus => moves::two_sided(s, live, Operator::Plus),
        Operator::Minus => moves::two_sided(s, live, Operator::Minus),
        Operator::Times => moves::two_sided(s, live, Operator::Times),
        Operator::Divide => moves::two_sided(s, live, Operator::Divide),
        Operator::Equals => moves::two_sided(s, live, Operator::Equals),
        Operator::Smaller => moves::two_sided(s, live, Operator::Smaller),
        Operator::Greater => moves::two_sided(s, live, Operator::Greater),
    }
}

// What a run reads, and how many cells its stack has.
#[derive(Clone, Copy)]
pub struct Lent<'a> {
    pub text: &'a [u8],
    pub table: &'a [i32],
    pub readings: &'a [i32],
    pub cells: usize,
}

// The live cells are the lowest of the stack.
#[tactic(auto, unfolding(crate::specs::inner::Asks::asked, crate::specs::inner::Prints::print_move, crate::specs::inner::Prints::print_room))]
pub fn perform(s: State, o: Op, lent: Lent, live: &[i32], out: &mut [u8]) -> Result<Move, Ending>
    ensures { Performed (asked s (length lent.entry.table.now) lent.entry.text.now lent.entry.readings.now live.now lent.entry.cells o) out.old (as_led result) out.new }
{
    match o {
        Op::Halt(e) => Err(e),
        Op::PushInt(v) => moves::push_int(s, lent.cells, v),
        Op::LoadStack(k) => moves::load_stack(s, lent.cells, live, k),
        Op::StoreStack(k) => moves::store_stack(s, live, k),
        Op::Jump(a) => moves::jump(s, lent.table.len(), a),
        Op::JumpIfFalse(a) => moves::jump_if_false(s, live, lent.table.len(), a),
        Op::TwoSided(k) => operate(s, live, k),
        Op::Negate => moves::negate(s, live),
        Op::Not => moves::not(s, live),
        Op::Read => moves::read(s, lent.cells, lent.readings),
        Op::PrintInt => print::print_int(s, live, out),
        Op::PrintStr(q) => print::print_str(s, lent.text, q, false, out),
        Op::PrintStrLn(q) => print::print_str(s, lent.text, q, true, out),
    }
}
