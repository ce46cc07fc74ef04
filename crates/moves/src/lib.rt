// The instructions that print nothing, a function for each group, at a state that is past the instruction.
// Each tests for bad code, then for stack room, then for its own ending. None writes: a move names the cell to be set.
// `live` is the live cells, as many as the depth, for those that read one; `cells` is how many the stack has, and `size` the table's length.
#![tactic(auto)]

ghost use Rattle.std.specs.Prelude.{◌≡◌, ◌+◌, ◌^◌, ◌<◌};
ghost use Rattle.numbers.specs.inner.Coded.{as_two_sided};
ghost use Rattle.moves.specs.inner.Moves.{as_led, moves_to, pushes, push_int_move, load_stack_move, store_stack_move, jump_move, jump_if_false_move, two_sided_move, negate_move, not_move, read_move};

use endings::Ending;
use numbers::arith::{Operator, calculate, negated, truth};

// The machine between two instructions: the index of the next pair in the table, the stack's depth, the readings used, the bytes printed.
#[derive(Clone, Copy, PartialEq, Eq, Debug)]
pub struct State {
    pub index: usize,
    pub depth: usize,
    pub used: usize,
    pub printed: usize,
}

// What an instruction leads to, where it has no ending: a state; or a state once its top cell, or a cell that is named, holds a number.
// A push has a variant of its own: the compiled code then has no cell to hold beside the depth.
#[derive(Clone, Copy, PartialEq, Eq, Debug)]
pub enum Move {
    Go(State),
    Put(State, i32),
    Set(State, usize, i32),
}

pub fn moved(s: State, index: usize, depth: usize) -> State
    ensures { result ≡ moves_to s index depth }
{
    State { index, depth, ..s }
}

// A number on the d lowest cells.
fn push(s: State, d: usize, v: i32) -> Move
    requires { d + 1 < 2 ^ 64 }
    ensures { result ≡ pushes s d v }
{
    Move::Put(moved(s, s.index, d + 1), v)
}

#[tactic(auto, unfolding(crate::specs::inner::Moves::push_int_move))]
pub fn push_int(s: State, cells: usize, v: i32) -> Result<Move, Ending>
    ensures { as_led result ≡ push_int_move s cells v }
{
    if cells <= s.depth {
        return Err(Ending::StackFull);
    }
    Ok(push(s, s.depth, v))
}

#[tactic(auto, unfolding(crate::specs::inner::Moves::load_stack_move))]
pub fn load_stack(s: State, cells: usize, live: &[i32], k: usize) -> Result<Move, Ending>
    ensures { as_led result ≡ load_stack_move s cells live.now k }
{
    let v = live.get(k).ok_or(Ending::BadCode)?;
    push_int(s, cells, *v)
}

#[tactic(auto, unfolding(crate::specs::inner::Moves::store_stack_move))]
pub fn store_stack(s: State, live: &[i32], k: usize) -> Result<Move, Ending>
    ensures { as_led result ≡ store_stack_move s live.now k }
{
    let [rest @ .., v] = live else {
        return Err(Ending::BadCode);
    };
    if rest.len() <= k {
        return Err(Ending::BadCode);
    }
    Ok(Move::Set(moved(s, s.index, rest.len()), k, *v))
}

#[tactic(auto, unfolding(crate::specs::inner::Moves::jump_move))]
pub fn jump(s: State, size: usize, a: usize) -> Result<Move, Ending>
    ensures { as_led result ≡ jump_move s size a }
{
    if size / 2 <= a {
        return Err(Ending::BadCode);
    }
    Ok(Move::Go(moved(s, a * 2, s.depth)))
}

#[tactic(auto, unfolding(crate::specs::inner::Moves::jump_if_false_move))]
pub fn jump_if_false(s: State, live: &[i32], size: usize, a: usize) -> Result<Move, Ending>
    ensures { as_led result ≡ jump_if_false_move s live.now size a }
{
    let [rest @ .., v] = live else {
        return Err(Ending::BadCode);
    };
    if size / 2 <= a {
        return Err(Ending::BadCode);
    }
    let index = if *v == 0 { a * 2 } else { s.index };
    Ok(Move::Go(moved(s, index, rest.len())))
}

#[tactic(auto, unfolding(crate::specs::inner::Moves::two_sided_move))]
pub fn two_sided(s: State, live: &[i32], k: Operator) -> Result<Move, Ending>
    ensures { as_led result ≡ two_sided_move s live.now (as_two_sided k) }
{
    let [rest @ .., a, b] = live else {
        return Err(Ending::BadCode);
    };
    Ok(push(s, rest.len(), calculate(k, *a, *b)?))
}

#[tactic(auto, unfolding(crate::specs::inner::Moves::negate_move))]
pub fn negate(s: State, live: &[i32]) -> Result<Move, Ending>
    ensures { as_led result ≡ negate_move s live.now }
{
    let [rest @ .., v] = live else {
        return Err(Ending::BadCode);
    };
    Ok(push(s, rest.len(), negated(*v)?))
}

#[tactic(auto, unfolding(crate::specs::inner::Moves::not_move))]
pub fn not(s: State, live: &[i32]) -> Result<Move, Ending>
    ensures { as_led result ≡ not_move s live.now }
{
    let [rest @ .., v] = live else {
        return Err(Ending::BadCode);
    };
    Ok(push(s, rest.len(), truth(*v == 0)))
}

#[tactic(auto, unfolding(crate::specs::inner::Moves::read_move))]
pub fn read(s: State, cells: usize, readings: &[i32]) -> Result<Move, Ending>
    ensures { as_led result ≡ read_move s cells readings.now }
{
    if cells <= s.depth {
        return Err(Ending::StackFull);
    }
    let v = readings.get(s.used).ok_or(Ending::NoReadingLeft)?;
    let t = State {
        depth: s.depth + 1,
        used: s.used + 1,
        ..s
    };
    Ok(Move::Put(t, *v))
}
